//! The test of one keyword's value.

ghost use Rattle.std.specs.Prelude.{◌≡◌, ◌≢◌, [], ◌∷◌, IfOk, is_ok};
ghost use Rattle.std.specs.List.{list_any};
ghost use Rattle.definitions.specs.Values.{Text, same_text};
ghost use Rattle.definitions.specs.Uris.{split};
ghost use Rattle.definitions.specs.Fragments.{fragment_kind};
ghost use Rattle.definitions.specs.Shapes.{is_reference};
ghost use Rattle.definitions.specs.Scanning.{is_dialect, dialects};
ghost use Rattle.json_doc.specs.Docs.{value};
ghost use Rattle.keywords.specs.Shapes.{shape_view};
ghost use Rattle.schema_table.specs.Missteps.{shape_missteps, is_as_asked, misstep_at};
ghost use Rattle.schema_table.specs.Openings.{IsOpenedBy, id_under};
ghost use Rattle.schema_table.specs.Refusals.{Ends, Refuses};

use crate::refusal::Refusal;
use crate::resources::{Opened, opened_resource};
use faults::Fault;
use json_doc::Doc;
use keyword_shapes::fits;
use keywords::Shape;
use std::alloc::{AllocError, Global};
use uri_ref::{fragment_kind, split};

/// Tests the value of the keyword of this name and shape, in a schema that stands inside this base, and at the root of a
/// resource or not. It answers the resource that the schema opens, where the keyword is `$id`.
pub(crate) fn check_value<'a>(
    alloc: Global,
    shape: Shape,
    base: &str,
    at_root: bool,
    name: &'a str,
    member: &'a Doc,
) -> Result<Option<Opened<'a>>, Refusal<'a>>
    ensures ends { Ends result
        (shape_missteps (shape_view shape) base.now at_root name.now (value member.now)) }
    ensures opened { IfOk result
        (IsOpenedBy base.now (id_under (shape_view shape) (value member.now))) }
{
    match shape {
        Shape::Identifier => match opened_resource(alloc, base, member)? {
            Some(opened) => Ok(Some(opened)),
            None => Err(refusal_of(alloc, shape, name)),
        },
        _ => {
            if is_as_asked(alloc, shape, at_root, member)? {
                Ok(None)
            } else {
                Err(refusal_of(alloc, shape, name))
            }
        }
    }
}

// Whether the value is as a keyword of this shape asks, but `$id`.
fn is_as_asked(alloc: Global, shape: Shape, at_root: bool, member: &Doc) -> Result<bool, AllocError>
    ensures { (base : Text) → shape ≢ Shape.Identifier → IfOk result (λ b. b
        ≡ is_as_asked (shape_view shape) base at_root (value member.now)) }
{
    match shape {
        Shape::Reference => is_reference(alloc, member),
        Shape::Dialect => Ok(is_dialect(member) || !at_root),
        _ => Ok(fits(shape, member)),
    }
}

// Why the walk stops at the keyword of this name and shape.
fn refusal_of<'a>(alloc: Global, shape: Shape, name: &'a str) -> Refusal<'a>
    ensures { Refuses result (misstep_at (shape_view shape) name.now ∷ []) }
{
    match shape {
        Shape::Identifier => Refusal::Id,
        Shape::AnchorName => Refusal::Anchor,
        Shape::Dialect => Refusal::Dialect,
        _ => Refusal::at(alloc, name),
    }
}

// Whether the value is a URI reference whose fragment can be read (JSON Schema 2020-12 Core, section 8.2.3).
fn is_reference(alloc: Global, doc: &Doc) -> Result<bool, AllocError>
    ensures { IfOk result (λ b. b ≡ is_reference (value doc.now)) }
{
    match doc {
        Doc::Str(text) => has_readable_fragment(alloc, text.as_str()),
        Doc::Short(text) => has_readable_fragment(alloc, text.as_str()),
        _ => Ok(false),
    }
}

fn has_readable_fragment(alloc: Global, text: &str) -> Result<bool, AllocError>
    ensures { IfOk result (λ b. b ≡ is_ok (fragment_kind ((split text.now).fragment))) }
{
    match fragment_kind(alloc, split(text).fragment()) {
        Ok(_) => Ok(true),
        Err(Fault::NoRoom) => Err(AllocError),
        Err(_) => Ok(false),
    }
}

// Whether the value is the URI of the dialect 2020-12 (Core, section 8.1.1).
fn is_dialect(doc: &Doc) -> bool
    ensures { result ≡ is_dialect (value doc.now) }
{
    match doc {
        Doc::Str(uri) => is_dialect_uri(uri.as_str()),
        Doc::Short(uri) => is_dialect_uri(uri.as_str()),
        _ => false,
    }
}

fn is_dialect_uri(uri: &str) -> bool
    ensures { result ≡ list_any (same_text uri.now) dialects }
{
    uri == "https://json-schema.org/draft/2020-12/schema"
        || uri == "https://json-schema.org/draft/2020-12/schema#"
}
