//! The schemas of a document, each with its location.

ghost use Rattle.std.specs.Prelude.{◌≡◌, IfOk, Contains, string_bytes};
ghost use Rattle.definitions.specs.Values.{Value, members, object};
ghost use Rattle.json_doc.specs.Docs.{value, members_view};
ghost use Rattle.schema_hints.specs.HintViews.{AreSchemas};
ghost use Rattle.schema_hints.specs.SchemaPlaces.{ElementsAreSchemas, IsSchemaAt, MembersAreSchemas, extended};

use json_doc::{Doc, Members};
use json_pointer::push_token;
use keywords::{Keyword, Shape};
use std::alloc::{AllocError, Global};

/// A schema that is an object, and the pointer to it from the document's root.
#[derive(Drop)]
pub(crate) struct SchemaPlace<'a> {
    pub(crate) location: String,
    pub(crate) members: &'a Members,
}

/// The schemas of a document that are objects: the root first, and the others behind those that they stand in. The only
/// error is want of memory.
pub(crate) fn schemas_in<'a>(
    alloc: Global,
    document: &'a Doc,
) -> Result<Vec<SchemaPlace<'a>>, AllocError>
    ensures { IfOk result (λ ps. AreSchemas (value document.now) ps.items) }
{
    let mut found = Vec::new(alloc);
    push_schema(&mut found, String::new(alloc), document)?;
    for number in 0..usize::MAX {
        let Some(place) = found.get(number) else {
            break;
        };
        let members = place.members;
        let location = String::from_str(alloc, place.location.as_str())?;
        push_all_below(alloc, &mut found, location.as_str(), members)?;
    }
    Ok(found)
}

// Appends the schemas at the values of a schema's members.
fn push_all_below<'a>(
    alloc: Global,
    found: &mut Vec<SchemaPlace<'a>>,
    location: &str,
    members: &'a Members,
) -> Result<(), AllocError>
    ensures { (d : Value) → IsSchemaAt d location.now (object (members_view members.now))
        → AreSchemas d found.old.items → AreSchemas d found.new.items }
{
    for (name, member) in members.iter() {
        push_below(alloc, found, location, name, member)?;
    }
    Ok(())
}

// Appends the schemas at the value of a member, where its name is a keyword that has schemas.
fn push_below<'a>(
    alloc: Global,
    found: &mut Vec<SchemaPlace<'a>>,
    location: &str,
    name: &str,
    member: &'a Doc,
) -> Result<(), AllocError>
    ensures { (d v : Value) → IsSchemaAt d location.now v
        → Contains (members v) (name.now, value member.now)
        → AreSchemas d found.old.items → AreSchemas d found.new.items }
{
    let Some(keyword) = Keyword::named(name) else {
        return Ok(());
    };
    let location = extended(alloc, location, name)?;
    match keyword.shape() {
        Shape::OneSchema => push_schema(found, location, member),
        Shape::SchemaList => push_elements(alloc, found, location.as_str(), member),
        Shape::SchemaMap => push_members(alloc, found, location.as_str(), member),
        _ => Ok(()),
    }
}

fn push_elements<'a>(
    alloc: Global,
    found: &mut Vec<SchemaPlace<'a>>,
    location: &str,
    list: &'a Doc,
) -> Result<(), AllocError>
    ensures { (d : Value) → ElementsAreSchemas d location.now (value list.now)
        → AreSchemas d found.old.items → AreSchemas d found.new.items }
{
    let Some(items) = list.as_list() else {
        return Ok(());
    };
    for (index, item) in items.iter().enumerate() {
        let token = format!(in alloc; "{index}")?;
        push_schema(found, extended(alloc, location, token.as_str())?, item)?;
    }
    Ok(())
}

fn push_members<'a>(
    alloc: Global,
    found: &mut Vec<SchemaPlace<'a>>,
    location: &str,
    map: &'a Doc,
) -> Result<(), AllocError>
    ensures { (d : Value) → MembersAreSchemas d location.now (value map.now)
        → AreSchemas d found.old.items → AreSchemas d found.new.items }
{
    let Some(members) = map.as_dict() else {
        return Ok(());
    };
    for (name, member) in members.iter() {
        push_schema(found, extended(alloc, location, name)?, member)?;
    }
    Ok(())
}

fn push_schema<'a>(
    found: &mut Vec<SchemaPlace<'a>>,
    location: String,
    schema: &'a Doc,
) -> Result<(), AllocError>
    ensures { (d : Value) → IsSchemaAt d (string_bytes location) (value schema.now)
        → AreSchemas d found.old.items → AreSchemas d found.new.items }
{
    if let Doc::Dict(members) = schema {
        found.push(SchemaPlace { location, members })?;
    }
    Ok(())
}

/// The location with one token more.
pub(crate) fn extended(alloc: Global, location: &str, token: &str) -> Result<String, AllocError>
    ensures { IfOk result (λ s. string_bytes s ≡ extended location.now token.now) }
{
    let mut location = String::from_str(alloc, location)?;
    push_token(&mut location, token)?;
    Ok(location)
}
