//! A schema where it stands.

ghost use Rattle.std.specs.Prelude.{◌≡◌, IfOk, option_map};
ghost use Rattle.json_doc.specs.Docs.{value};
ghost use Rattle.locations.specs.Ways.{owned_hops};
ghost use Rattle.schema_scan.specs.Locateds.{located_view};
ghost use Rattle.schema_table.specs.Gathering.{anchor_mark};
ghost use Rattle.schema_table.specs.Lookups.{marked_schema, root_at};

use json_doc::Doc;
use locations::{OwnedWay, Step, follow, steps_after};
use schema_table::Anchor;
use std::alloc::{AllocError, Global};

/// A schema where it stands: its identity is the URI of the nearest resource around it, and the steps from that resource's
/// root (JSON Schema 2020-12 Core, section 8.2).
///
/// Contracts see it by `located_schema`.
#[derive(Debug, Drop)]
pub struct Located<'a> {
    /// The URI of the resource.
    pub resource: &'a str,
    /// The steps from the resource's root.
    pub steps: Vec<Step<'a>>,
    /// The schema.
    pub schema: &'a Doc,
}

/// The root of the resource with this URI, at the end of the way.
#[tactic(auto, unfolding(schema_table::specs::Lookups::root_at))]
pub(crate) fn root_along<'a>(
    alloc: Global,
    resource: &'a str,
    way: &OwnedWay,
    document: &'a Doc,
) -> Option<Located<'a>>
    ensures { option_map located_view result
        ≡ root_at resource.now (owned_hops way.now) (value document.now) }
{
    match follow(way, document) {
        Some(schema) => Some(Located {
            resource,
            steps: Vec::new(alloc),
            schema,
        }),
        None => None,
    }
}

/// The schema of the document that has the anchor.
#[tactic(auto, unfolding(schema_table::specs::Lookups::marked_schema))]
pub(crate) fn schema_of_anchor<'a>(
    alloc: Global,
    anchor: &'a Anchor,
    document: &'a Doc,
) -> Result<Option<Located<'a>>, AllocError>
    ensures { IfOk result (λ t. option_map located_view t
        ≡ marked_schema (value document.now) (anchor_mark anchor.now)) }
{
    match follow(&anchor.way, document) {
        Some(schema) => Ok(Some(Located {
            resource: anchor.resource.as_str(),
            steps: steps_after(alloc, &anchor.way, anchor.start)?,
            schema,
        })),
        None => Ok(None),
    }
}
