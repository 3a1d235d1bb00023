//! The warnings and the anchors of a document.

ghost use Rattle.std.specs.Prelude.{◌≡◌, IfOk, IfErr, Contains, string_bytes};
ghost use Rattle.definitions.specs.Values.{Value, members, object};
ghost use Rattle.json_doc.specs.Docs.{value, members_view};
ghost use Rattle.schema_hints.specs.HintViews.{AreOfSchemas};
ghost use Rattle.schema_hints.specs.SchemaPlaces.{IsSchemaAt, extended};

use crate::hint::{Anchor, Hint, Warning};
use crate::names::{looked_like, successor};
use crate::schemas::{SchemaPlace, extended, schemas_in};
use json_doc::{Doc, Fault, Members};
use std::alloc::{AllocError, Global};

/// What was found in a schema document.
#[derive(Debug, Drop)]
pub struct Findings {
    /// The warnings: those of a schema before those of the schemas in it, and in byte order of names.
    pub hints: Vec<Hint>,
    /// The anchors, in the same order.
    pub anchors: Vec<Anchor>,
}

/// What is found in the schemas of a document, and not in the values of `enum`, `const`, `default` and the like. A document
/// that is no object has no schemas. `is_referred` says whether a reference leads into its `definitions`. The only error is
/// want of memory.
pub fn look_over(alloc: Global, document: &Doc, is_referred: bool) -> Result<Findings, Fault>
    ensures ok { IfOk result (λ f. AreOfSchemas (value document.now) f.hints.items) }
    ensures err { IfErr result (λ f. f ≡ Fault.NoRoom) }
{
    let schemas = schemas_in(alloc, document)?;
    let refers = is_referred || has_named_definitions(schemas.as_slice());
    let mut found = Findings {
        hints: Vec::new(alloc),
        anchors: Vec::new(alloc),
    };
    for place in &schemas {
        found.note_schema(alloc, place, refers)?;
    }
    Ok(found)
}

// Whether a schema below `definitions` has a name of its own, by which it can be referred to.
fn has_named_definitions(schemas: &[SchemaPlace<'_>]) -> bool {
    schemas.iter().any(|place| place.location.contains("/definitions/") && has_name(place.members))
}

fn has_name(members: &Members) -> bool {
    ["$id", "$anchor", "$dynamicAnchor"]
        .iter()
        .any(|name| members.get(*name).is_some())
}

impl Findings {
    // What is found in one schema; `refers` is whether something may lead into `definitions`.
    fn note_schema(
        &mut self,
        alloc: Global,
        place: &SchemaPlace<'_>,
        refers: bool,
    ) -> Result<(), AllocError>
        ensures { (d : Value)
            → IsSchemaAt d (string_bytes place.now.location)
            (object (members_view place.now.members.now))
            → AreOfSchemas d self.old.hints.items → AreOfSchemas d self.new.hints.items }
    {
        for (name, member) in place.members.iter() {
            self.note_hint(alloc, place, name, member, refers)?;
            self.note_anchor(alloc, place, name, member)?;
        }
        Ok(())
    }

    fn note_hint(
        &mut self,
        alloc: Global,
        place: &SchemaPlace<'_>,
        name: &str,
        member: &Doc,
        refers: bool,
    ) -> Result<(), AllocError>
        ensures { (d v : Value) → IsSchemaAt d (string_bytes place.now.location) v
            → Contains (members v) (name.now, value member.now)
            → AreOfSchemas d self.old.hints.items → AreOfSchemas d self.new.hints.items }
    {
        let Some(warning) = warning_of(alloc, name, member, refers)? else {
            return Ok(());
        };
        let hint = hint_at(alloc, place.location.as_str(), name, warning)?;
        self.hints.push(hint)?;
        Ok(())
    }

    fn note_anchor(
        &mut self,
        alloc: Global,
        place: &SchemaPlace<'_>,
        name: &str,
        member: &Doc,
    ) -> Result<(), AllocError>
        ensures { self.new.hints.items ≡ self.old.hints.items }
    {
        let is_dynamic = name == "$dynamicAnchor";
        if !is_dynamic && name != "$anchor" {
            return Ok(());
        }
        let Some(anchor) = member.as_str() else {
            return Ok(());
        };
        self.anchors.push(Anchor {
            location: String::from_str(alloc, place.location.as_str())?,
            name: String::from_str(alloc, anchor)?,
            is_dynamic,
        })?;
        Ok(())
    }
}

// The warning of the member of this name, in the schema at this location.
fn hint_at(alloc: Global, location: &str, name: &str, warning: Warning) -> Result<Hint, AllocError>
    ensures { IfOk result (λ h. (string_bytes h.name ≡ name.now)
        × (string_bytes h.location ≡ extended location.now name.now)) }
{
    Ok(Hint {
        location: extended(alloc, location, name)?,
        name: String::from_str(alloc, name)?,
        warning,
    })
}

// What is told of a member of a schema; `refers` is whether something may lead into `definitions`.
fn warning_of(
    alloc: Global,
    name: &str,
    member: &Doc,
    refers: bool,
) -> Result<Option<Warning>, AllocError> {
    match name {
        "format" => Ok(Some(Warning::Format)),
        "definitions" => if refers {
            Ok(None)
        } else {
            Ok(Some(Warning::UnusedDefinitions))
        },
        // Only as a text it was the identifier.
        "id" if member.as_str().is_none() => Ok(None),
        _ => match successor(name) {
            Some(keyword) => Ok(Some(Warning::Older(keyword))),
            None => Ok(looked_like(alloc, name)?.map(Warning::LooksLike)),
        },
    }
}
