//! What references name.

ghost use Rattle.std.specs.Prelude.{◌≡◌, IfOk, option_map};
ghost use Rattle.definitions.specs.Targets.{schema_with_dynamic_anchor};
ghost use Rattle.linker.specs.LinkedDocuments.{linked_schemas};
ghost use Rattle.keyword_plans.specs.Followed.{target_view};
ghost use Rattle.schema_scan.specs.Locateds.{located_view};

use crate::tuning::LONG_LOCATION;
use basic_output::Origin;
use json_doc::Doc;
use linker::Linked;
use locations::Step;
use schema_scan::Located;
use std::alloc::{AllocError, Global};
use std::rc::Rc;

/// A schema that a reference names, where the locations of its keywords begin.
///
/// Contracts see the schema, by `target_view`.
#[derive(Debug, Drop)]
pub struct Target<'a> {
    /// Its resource, and the steps from that resource's root.
    pub origin: Rc<Origin<'a>>,
    /// Its value.
    pub schema: &'a Doc,
}

impl<'a> Target<'a> {
    ghost use Rattle.keyword_plans.specs.Followed.{target_view};

    /// This schema. The only error is want of memory.
    pub(crate) fn of(alloc: Global, located: Located<'a>) -> Result<Target<'a>, AllocError>
        ensures { IfOk result (λ t. target_view t ≡ located_view located.entry) }
    {
        let Located {
            resource,
            steps,
            schema,
        } = located;
        let origin = if is_long(resource, &steps) {
            Origin::unwritten(resource, steps)
        } else {
            Origin::within(String::new(alloc), resource, steps)?
        };
        Ok(Target {
            origin: Rc::new(alloc, origin)?,
            schema,
        })
    }

    /// A copy of this schema, which shares its origin. The only error is want of memory.
    pub(crate) fn again(&self) -> Result<Target<'a>, AllocError>
        ensures { IfOk result (λ t. target_view t ≡ target_view self.now) }
    {
        Ok(Target {
            origin: self.origin.clone()?,
            schema: self.schema,
        })
    }
}

// Whether the text of the location at these steps in the resource is long.
fn is_long(resource: &str, steps: &[Step<'_>]) -> bool {
    let mut bytes = resource.len();
    for step in steps {
        if let Step::Name(name) = step {
            bytes = bytes.saturating_add(name.len());
        }
    }
    bytes > LONG_LOCATION
}

/// The schema with this dynamic anchor in the resource with this URI, to be shared: both are compared. The only error is want
/// of memory.
pub(crate) fn dynamically_anchored<'a>(
    alloc: Global,
    linked: &'a Linked,
    uri: &str,
    name: &str,
) -> Result<Option<Target<'a>>, AllocError>
    ensures { IfOk result
        (λ t. option_map target_view t
        ≡ schema_with_dynamic_anchor (linked_schemas linked.entry.now) uri.now name.now) }
{
    match linked.dynamically_anchored(alloc, uri, name)? {
        Some(schema) => Ok(Some(Target::of(alloc, schema)?)),
        None => Ok(None),
    }
}

/// A copy of the schema that was found, if one was: it shares the origin. The only error is want of memory.
pub(crate) fn again<'a>(found: &Option<Target<'a>>) -> Result<Option<Target<'a>>, AllocError>
    ensures { IfOk result
        (λ t. option_map target_view t ≡ option_map target_view found.now) }
{
    match found {
        Some(schema) => Ok(Some(schema.again()?)),
        None => Ok(None),
    }
}
