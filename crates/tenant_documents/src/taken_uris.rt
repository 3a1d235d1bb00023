//! Resource URIs that other documents have.

ghost use Rattle.std.specs.Prelude.{◌≡◌, Some, IfErr, IfOk, if◌then◌else◌, option_map};
ghost use Rattle.std.specs.List.{list_any};
ghost use Rattle.definitions.specs.Documents.{others_of, taken_uri};
ghost use Rattle.definitions.specs.Reach.{holds_resource, lesser};
ghost use Rattle.definitions.specs.Registries.{documents_seen};
ghost use Rattle.stored_documents.specs.StoredDocuments.{stored_view};
ghost use Rattle.tenant_documents.specs.Registries.{registry_view};

use crate::library_documents::library_holder;
use crate::registry::Registry;
use requests::Fault;
use schema_scan::canonical;
use std::alloc::Global;
use std::cmp::Ordering;
use stored_documents::Stored;

// The least in byte order of the document's resource URIs that a document with another canonical URI has, the tenant's or
// the library's. The only error is want of memory.
pub(crate) fn taken_uri<'a>(
    alloc: Global,
    registry: &Registry,
    document: &'a Stored,
) -> Result<Option<&'a str>, Fault>
    ensures ok { IfOk result (λ t. option_map (λ t. t.now) t
        ≡ taken_uri (documents_seen (registry_view registry.now)) (stored_view document.now)) }
    ensures err { IfErr result (λ f. f ≡ Fault.NoRoom) }
{
    let canonical = document.canonical();
    let mut least = None;
    for uri in document.resource_uris() {
        least = least_with(alloc, registry, canonical, uri, least)?;
    }
    Ok(least)
}

// The least of one that was found and of the URI, if another document has it.
fn least_with<'a>(
    alloc: Global,
    registry: &Registry,
    canonical: &str,
    uri: &'a str,
    found: Option<&'a str>,
) -> Result<Option<&'a str>, Fault>
    ensures ok { IfOk result (λ t. option_map (λ t. t.now) t
        ≡ (if list_any (holds_resource uri.now)
        (others_of canonical.now (documents_seen (registry_view registry.now)))
        then Some (lesser uri.now (option_map (λ t. t.now) found.entry))
        else option_map (λ t. t.now) found.entry)) }
    ensures err { IfErr result (λ f. f ≡ Fault.NoRoom) }
{
    if is_held_by_another(alloc, registry, canonical, uri)? {
        Ok(Some(lesser(uri, found)))
    } else {
        Ok(found)
    }
}

// Whether a document with another canonical URI, the tenant's or the library's, has a resource of the URI.
fn is_held_by_another(
    alloc: Global,
    registry: &Registry,
    canonical_uri: &str,
    uri: &str,
) -> Result<bool, Fault>
    ensures ok { IfOk result (λ held. held
        ≡ list_any (holds_resource uri.now)
        (others_of canonical_uri.now (documents_seen (registry_view registry.now)))) }
    ensures err { IfErr result (λ f. f ≡ Fault.NoRoom) }
{
    match registry.documents.holder(uri) {
        Some(own) => Ok(canonical_uri != own.canonical()),
        None => match library_holder(&registry.library, alloc, uri)? {
            Some(document) => Ok(canonical_uri != canonical(&document)),
            None => Ok(false),
        },
    }
}

pub(crate) fn lesser<'a>(text: &'a str, other: Option<&'a str>) -> &'a str
    ensures { result.now ≡ lesser text.now (option_map (λ t. t.now) other.entry) }
{
    match other {
        Some(other) => match text.cmp(other) {
            Ordering::Greater => other,
            _ => text,
        },
        None => text,
    }
}
