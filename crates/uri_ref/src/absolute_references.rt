//! References, as they are read inside a resource (JSON Schema 2020-12 Core, section 8.2.3).

ghost use Rattle.std.specs.Prelude.{◌≡◌, IfOk, option_map, string_bytes};
ghost use Rattle.definitions.specs.Fragments.{fragment_kind};
ghost use Rattle.definitions.specs.Resolution.{resolve, target_uri};
ghost use Rattle.definitions.specs.Uris.{split};
ghost use Rattle.definitions.specs.Values.{Text};
ghost use Rattle.uri_ref.specs.AbsoluteReferences.{IsReadAs, IsShownBy};

use crate::fragments::{FragmentKind, fragment_kind};
use crate::recomposing::recompose;
use crate::resolved_parts::ResolvedParts;
use crate::resolving::resolve;
use crate::splitting::split;
use faults::Fault;
use std::alloc::{AllocError, Global};

/// An absolute reference: the URI of a resource, and what its fragment names there.
#[derive(Debug, Drop)]
pub struct AbsoluteReference {
    /// The URI of the resource.
    pub uri: String,
    /// What the fragment names.
    pub fragment: FragmentKind,
}

/// A reference, resolved against the URI of the resource around it.
#[derive(Debug, Drop)]
pub struct ResolvedReference {
    /// Its text.
    pub text: String,
    /// What it names, or none where its fragment can't be read.
    pub named: Option<AbsoluteReference>,
}

/// The reference, resolved where the resource around it has this URI (RFC 3986, section 5.2), and what it names there. The
/// only error is want of memory.
pub fn resolved_reference(
    alloc: Global,
    resource: &str,
    reference: &str,
) -> Result<ResolvedReference, AllocError>
    ensures text { IfOk result
        (λ r. string_bytes r.text ≡ target_uri resource.now reference.now) }
    ensures named { IfOk result (λ r. IsReadAs (target_uri resource.now reference.now) r.named) }
{
    let resolved = resolve(alloc, &split(resource), &split(reference))?;
    let text = recompose(alloc, &resolved.parts())?;
    let named = named_by(alloc, &resolved)?;
    Ok(ResolvedReference { text, named })
}

/// What the reference names where the resource around it has this URI, or none where its fragment can't be read. The only
/// error is want of memory.
pub fn absolute_reference(
    alloc: Global,
    resource: &str,
    reference: &str,
) -> Result<Option<AbsoluteReference>, AllocError>
    ensures { IfOk result (λ r. IsReadAs (target_uri resource.now reference.now) r) }
{
    let resolved = resolve(alloc, &split(resource), &split(reference))?;
    named_by(alloc, &resolved)
}

// What these parts name, where a reference resolves to them, or none where their fragment can't be read.
fn named_by(
    alloc: Global,
    resolved: &ResolvedParts<'_>,
) -> Result<Option<AbsoluteReference>, AllocError>
    ensures { (resource reference : Text)
        → resolved.now ≡ resolve (split resource) (split reference)
        → IfOk result (λ r. IsReadAs (target_uri resource reference) r) }
{
    let parts = resolved.parts();
    match readable_fragment(alloc, parts.fragment())? {
        Some(fragment) => {
            let uri = recompose(alloc, &parts.without_fragment())?;
            Ok(Some(AbsoluteReference { uri, fragment }))
        }
        None => Ok(None),
    }
}

// What the fragment names, or none where it can't be read.
fn readable_fragment(
    alloc: Global,
    fragment: Option<&str>,
) -> Result<Option<FragmentKind>, AllocError>
    ensures { IfOk result
        (λ kind. IsShownBy (fragment_kind (option_map (λ t. t.now) fragment.entry)) kind) }
{
    match fragment_kind(alloc, fragment) {
        Ok(kind) => Ok(Some(kind)),
        Err(Fault::NoRoom) => Err(AllocError),
        Err(_) => Ok(None),
    }
}
