//! A tenant's key with its digest.

ghost use Rattle.std.specs.Prelude.{◌≡◌, IfOk, string_bytes};
ghost use Rattle.stored_rows.specs.Rows.{digest};

use std::alloc::{AllocError, Global};
use stored_rows::digest;

// A tenant's key, and the digest that stands in its place in a row.
#[derive(Drop)]
pub(crate) struct DigestedKey {
    pub(crate) key: String,
    pub(crate) tenant: String,
    ghost made: { string_bytes tenant ≡ digest (string_bytes key) },
}

impl DigestedKey {
    pub(crate) fn of(alloc: Global, key: &str) -> Result<DigestedKey, AllocError>
        ensures { IfOk result (λ k. string_bytes k.key ≡ key.now) }
    {
        let tenant = digest(alloc, key)?;
        let key = key.to_owned(alloc)?;
        Ok(DigestedKey { key, tenant })
    }
}
