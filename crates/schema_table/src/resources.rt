//! The resources that `$id` opens (JSON Schema 2020-12 Core, section 8.2.1).

ghost use Rattle.std.specs.Prelude.{◌≡◌, ◌&&◌, None, Some, IfOk, is_some, option_map, true};
ghost use Rattle.definitions.specs.Uris.{split, is_identifier};
ghost use Rattle.definitions.specs.Resolution.{resolve};
ghost use Rattle.definitions.specs.Scanning.{is_id, is_empty_fragment};
ghost use Rattle.definitions.specs.Values.{as_string};
ghost use Rattle.json_doc.specs.Docs.{value};
ghost use Rattle.schema_table.specs.Openings.{IsOpenedBy};
ghost use Rattle.schema_table.specs.Spots.{opens_resource};

use json_doc::Doc;
use std::alloc::{AllocError, Global};
use uri_ref::{AbsoluteReference, FragmentKind, is_identifier, recompose, resolve, split};

/// Whether a schema opens a resource.
#[tactic(auto, unfolding(crate::specs::Spots::opens_resource))]
pub(crate) fn opens_resource(schema: &Doc) -> bool
    ensures { result ≡ opens_resource (value schema.now) }
{
    schema.text_at("$id").is_some()
}

/// A resource that a schema opens by its `$id`.
#[derive(Drop)]
pub(crate) struct Opened<'a> {
    /// The `$id`.
    pub(crate) id: &'a str,
    /// What it is read as: the resource's URI.
    pub(crate) named: AbsoluteReference,
}

/// The resource that a schema opens by this value of `$id` inside the base around it, where this makes an identifier.
pub(crate) fn opened_resource<'a>(
    alloc: Global,
    base: &str,
    id: &'a Doc,
) -> Result<Option<Opened<'a>>, AllocError>
    ensures asked { IfOk result (λ o. is_some o ≡ is_id base.now (value id.now)) }
    ensures opened { IfOk result (λ o. is_some o ≡ true
        → IsOpenedBy base.now (as_string (value id.now)) o) }
{
    match id {
        Doc::Str(id) => opened_by(alloc, base, id.as_str()),
        Doc::Short(id) => opened_by(alloc, base, id.as_str()),
        _ => Ok(None),
    }
}

// The resource that this `$id` opens, where it has no fragment but an empty one, and what it resolves to is an identifier.
fn opened_by<'a>(alloc: Global, base: &str, id: &'a str) -> Result<Option<Opened<'a>>, AllocError>
    ensures asked { IfOk result (λ o. is_some o ≡ (is_empty_fragment ((split id.now).fragment)
        && is_identifier (record (resolve (split base.now) (split id.now)) { fragment = None }))) }
    ensures opened { IfOk result (λ o. is_some o ≡ true → IsOpenedBy base.now (Some id.now) o) }
{
    let reference = split(id);
    if !is_empty_fragment(reference.fragment()) {
        return Ok(None);
    }
    let resolved = resolve(alloc, &split(base), &reference)?;
    let identifier = resolved.parts().without_fragment();
    if !is_identifier(&identifier) {
        return Ok(None);
    }
    let uri = recompose(alloc, &identifier)?;
    let fragment = FragmentKind::Empty;
    let named = AbsoluteReference { uri, fragment };
    Ok(Some(Opened { id, named }))
}

fn is_empty_fragment(fragment: Option<&str>) -> bool
    ensures { result ≡ is_empty_fragment (option_map (λ t. t.now) fragment.entry) }
{
    match fragment {
        Some(text) => text.is_empty(),
        None => true,
    }
}
