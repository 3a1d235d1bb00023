//! The tenants' keys with their digests.

ghost use Rattle.std.specs.Prelude.{◌≡◌, false, IfNone, IfOk, IfSome, Some, map, slice_get, string_bytes};
ghost use Rattle.std.specs.List.{list_any};
ghost use Rattle.definitions.specs.Lists.{has_repeat};
ghost use Rattle.definitions.specs.Values.{same_text};
ghost use Rattle.stored_rows.specs.Rows.{digest};
ghost use Rattle.stored_hub.specs.DigestedKeys.{digests_in};
ghost use Rattle.tenant_hub.specs.Hubs.{hub_view};

use crate::digested_key::DigestedKey;
use std::alloc::{AllocError, Global};
use tenant_hub::Hub;

// Of all tenants, in the order of the tenants' file.
pub(crate) fn digested_keys(alloc: Global, hub: &Hub) -> Result<Vec<DigestedKey>, AllocError>
    ensures { IfOk result (λ ks. digests_in ks.items ≡ map (λ k. digest k.key) (hub_view hub.now)) }
{
    let keys = hub.keys(alloc)?;
    let mut digested = Vec::with_capacity(alloc, keys.len())?;
    for key in &keys {
        digested.push(DigestedKey::of(alloc, key)?)?;
    }
    Ok(digested)
}

// Whether some two tenants' keys have one digest.
pub(crate) fn have_repeat(keys: &[DigestedKey]) -> bool
    ensures { result ≡ has_repeat same_text (digests_in keys.now) }
{
    for (index, key) in keys.iter().enumerate() {
        if have_digest(&keys[index + 1..], key.tenant.as_str()) {
            return true;
        }
    }
    false
}

fn have_digest(keys: &[DigestedKey], tenant: &str) -> bool
    ensures { result ≡ list_any (λ k. same_text tenant.now (string_bytes k.tenant)) keys.now }
{
    keys.iter().any(|key| tenant == key.tenant.as_str())
}

// The first key that has this digest, and its place.
pub(crate) fn key_of<'a>(keys: &'a [DigestedKey], tenant: &str) -> Option<(usize, &'a str)>
    ensures some { IfSome result (λ t. digest t.1.now ≡ tenant.now) }
    ensures place { IfSome result (λ t. slice_get (digests_in keys.now) t.0 ≡ Some tenant.now) }
    ensures none { IfNone result (list_any (same_text tenant.now) (digests_in keys.now) ≡ false) }
{
    for (place, key) in keys.iter().enumerate() {
        if tenant == key.tenant.as_str() {
            return Some((place, key.key.as_str()));
        }
    }
    None
}

// The digest of this key, where it is one of these.
pub(crate) fn tenant_of<'a>(keys: &'a [DigestedKey], key: &str) -> Option<&'a str>
    ensures { IfSome result (λ tenant. tenant.now ≡ digest key.now) }
{
    for digested in keys {
        if key == digested.key.as_str() {
            return Some(digested.tenant.as_str());
        }
    }
    None
}
