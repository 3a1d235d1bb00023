//! The test of a schema's own keywords.

ghost use Rattle.std.specs.Prelude.{IfOk, codes};
ghost use Rattle.definitions.specs.Values.{object, text_at};
ghost use Rattle.json_doc.specs.Docs.{value, members_view};
ghost use Rattle.schema_table.specs.Missteps.{own_missteps, schema_missteps};
ghost use Rattle.schema_table.specs.Openings.{IsOpenedBy};
ghost use Rattle.schema_table.specs.Refusals.{Ends};

use crate::keyword_values::check_value;
use crate::refusal::Refusal;
use crate::resources::{Opened, opens_resource};
use json_doc::{Doc, Members};
use keywords::shape_named;
use std::alloc::Global;

/// Tests a schema's own keywords, where this is the base around it. It answers the resource that the schema opens, if it
/// opens one.
pub(crate) fn check_schema<'a>(
    alloc: Global,
    base: &str,
    at_root: bool,
    schema: &'a Doc,
) -> Result<Option<Opened<'a>>, Refusal<'a>>
    ensures ends { Ends result (schema_missteps base.now at_root (value schema.now)) }
    ensures opened { IfOk result
        (IsOpenedBy base.now (text_at (codes "$id") (value schema.now))) }
{
    match schema {
        Doc::Dict(members) => {
            check_keywords(alloc, base, at_root || opens_resource(schema), members)
        }
        _ => Ok(None),
    }
}

// The keywords of a schema with these members, which is the root of a resource or not.
fn check_keywords<'a>(
    alloc: Global,
    base: &str,
    at_root: bool,
    members: &'a Members,
) -> Result<Option<Opened<'a>>, Refusal<'a>>
    ensures ends { Ends result (own_missteps base.now at_root (members_view members.now)) }
    ensures opened { IfOk result
        (IsOpenedBy base.now (text_at (codes "$id") (object (members_view members.now)))) }
{
    let mut opened = None;
    for (name, member) in members.iter() {
        let found = check_value(alloc, shape_named(name), base, at_root, name, member)?;
        if opened.is_none() {
            opened = found;
        }
    }
    Ok(opened)
}
