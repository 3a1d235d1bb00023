//! The digest of a tenant's key.

ghost use Rattle.std.specs.Prelude.{◌≡◌, IfOk, string_bytes};
ghost use Rattle.stored_rows.specs.Rows.{digest};

use sha2::{Digest, Sha256};
use std::alloc::{AllocError, Global};

/// The SHA-256 digest (FIPS 180-4) of a tenant's key, in lower-case hexadecimal: 64 characters. It stands in the key's place
/// in a store, so that no key can be read there. The only error is want of memory.
#[tactic(auto, unfolding(crate::specs::Rows::digest))]
pub fn digest(alloc: Global, key: &str) -> Result<String, AllocError>
    ensures { IfOk result (λ text. string_bytes text ≡ digest key.now) }
{
    hex::encode(alloc, Sha256::digest(key))
}
