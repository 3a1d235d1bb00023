//! The walk over the schemas of a document.

ghost use Rattle.std.specs.Prelude.{◌≡◌, ◌∷◌, ◌++◌, [], List, OnOk, false, map};
ghost use Rattle.definitions.specs.Values.{to_elements};
ghost use Rattle.json_doc.specs.Docs.{value, members_view};
ghost use Rattle.keywords.specs.Rows.{shape_named};
ghost use Rattle.keywords.specs.Shapes.{shape_view};
ghost use Rattle.locations.specs.Hops.{Hop, step_hop, step_hops, to_member};
ghost use Rattle.schema_table.specs.Gathering.{IsGathered};
ghost use Rattle.schema_table.specs.Missteps.{missteps, missteps_at, missteps_below, missteps_in_list, missteps_in_map, missteps_inside};
ghost use Rattle.schema_table.specs.Refusals.{Ends};
ghost use Rattle.schema_table.specs.Spots.{spots, spots_at, spots_below, spots_from, spots_in_list, spots_in_map};

use crate::gathered::Gathered;
use crate::own_keywords::check_schema;
use crate::refusal::Refusal;
use json_doc::{Doc, Members};
use keywords::{Shape, shape_named};
use locations::Step;
use std::alloc::{AllocError, Global};

/// A walk over the schemas of a document: what it has gathered, and the way to where it stands.
///
/// It stops at the first keyword whose value is wrong: each schema's keywords come before its subschemas, both in byte order
/// of names. Where it doesn't stop, each step ends where it began.
#[derive(Drop)]
pub(crate) struct Visit<'a> {
    alloc: Global,
    pub(crate) gathered: Gathered<'a>,
    way: Vec<Step<'a>>,
}

impl<'a> Visit<'a> {
    ghost use Rattle.schema_table.specs.Visits.{Visits, visited_hops};

    /// At the document's root, with nothing gathered. This takes no memory.
    pub(crate) fn new(alloc: Global) -> Visit<'a>
        ensures gathered { IsGathered result.gathered [] }
        ensures way { visited_hops result ≡ [] }
    {
        Visit {
            alloc,
            gathered: Gathered::new(alloc),
            way: Vec::new(alloc),
        }
    }

    /// The schema, which stands inside this base, and those below it. The root of the resource around is `start` steps along
    /// the way.
    #[cycle(visit)]
    pub(crate) fn visit_schema(
        &mut self,
        start: usize,
        base: &str,
        at_root: bool,
        schema: &'a Doc,
    ) -> Result<(), Refusal<'a>>
        ensures visits { OnOk result (Visits self.old self.new
            (spots (visited_hops self.old) start base.now (value schema.now))) }
        ensures ends { Ends result (missteps base.now at_root (value schema.now)) }
    {
        let opened = check_schema(self.alloc, base, at_root, schema)?;
        match opened {
            Some(opened) => {
                let uri = self.gathered.open(self.alloc, base, opened)?;
                let here = self.way.len();
                self.visit_in_resource(here, uri.as_str(), schema)
            }
            None => self.visit_in_resource(start, base, schema),
        }
    }

    // The schema, which stands in the resource of this URI, and those below it.
    #[cycle(visit)]
    fn visit_in_resource(
        &mut self,
        start: usize,
        uri: &str,
        schema: &'a Doc,
    ) -> Result<(), Refusal<'a>>
        ensures visits { OnOk result (Visits self.old self.new
            (spots_from (visited_hops self.old) start uri.now (value schema.now))) }
        ensures ends { Ends result (missteps_inside uri.now (value schema.now)) }
    {
        self.gathered
            .add(self.alloc, uri, start, &self.way, schema)?;
        match schema {
            Doc::Dict(members) => self.visit_below(start, uri, members),
            _ => Ok(()),
        }
    }

    // The subschemas of a schema with these members.
    #[cycle(visit)]
    fn visit_below(
        &mut self,
        start: usize,
        uri: &str,
        members: &'a Members,
    ) -> Result<(), Refusal<'a>>
        ensures visits { OnOk result (Visits self.old self.new
            (spots_below (visited_hops self.old) start uri.now (members_view members.now))) }
        ensures ends { Ends result (missteps_below uri.now (members_view members.now)) }
    {
        for (name, member) in members.iter() {
            match self.visit_keyword(start, uri, name, member) {
                Ok(()) => {}
                Err(refusal) => return Err(refusal.under_name(name)),
            }
        }
        Ok(())
    }

    // The schemas at the value of the keyword of this name.
    #[cycle(visit)]
    fn visit_keyword(
        &mut self,
        start: usize,
        uri: &str,
        name: &'a str,
        member: &'a Doc,
    ) -> Result<(), Refusal<'a>>
        ensures visits { OnOk result (Visits self.old self.new
            (spots_at (shape_named name.now) (visited_hops self.old ++ to_member name.now ∷ [])
            start uri.now (value member.now))) }
        ensures ends { Ends result (missteps_at (shape_named name.now) uri.now (value member.now)) }
    {
        push_step(&mut self.way, Step::Name(name))?;
        self.visit_keyword_value(start, uri, shape_named(name), member)?;
        pop_step(&mut self.way);
        Ok(())
    }

    // The schemas at the value of a keyword of this shape.
    #[cycle(visit)]
    fn visit_keyword_value(
        &mut self,
        start: usize,
        uri: &str,
        shape: Shape,
        member: &'a Doc,
    ) -> Result<(), Refusal<'a>>
        ensures visits { OnOk result (Visits self.old self.new
            (spots_at (shape_view shape) (visited_hops self.old) start uri.now
            (value member.now))) }
        ensures ends { Ends result (missteps_at (shape_view shape) uri.now (value member.now)) }
    {
        match (shape, member) {
            (Shape::OneSchema, schema) => self.visit_schema(start, uri, false, schema),
            (Shape::SchemaList, Doc::List(schemas)) => self.visit_list(start, uri, schemas),
            (Shape::SchemaMap, Doc::Dict(schemas)) => self.visit_map(start, uri, schemas),
            _ => Ok(()),
        }
    }

    // The schemas that are the elements of a list.
    #[cycle(visit)]
    fn visit_list(&mut self, start: usize, uri: &str, schemas: &'a [Doc]) -> Result<(), Refusal<'a>>
        ensures visits { OnOk result (Visits self.old self.new
            (spots_in_list (visited_hops self.old) start uri.now 0
            (to_elements (map value schemas.now)))) }
        ensures ends { Ends result
            (missteps_in_list uri.now 0 (to_elements (map value schemas.now))) }
    {
        for (index, schema) in schemas.iter().enumerate() {
            match self.visit_step(start, uri, Step::Index(index), schema) {
                Ok(()) => {}
                Err(refusal) => return Err(refusal.under_index(index)),
            }
        }
        Ok(())
    }

    // The schemas that are the members of an object.
    #[cycle(visit)]
    fn visit_map(
        &mut self,
        start: usize,
        uri: &str,
        schemas: &'a Members,
    ) -> Result<(), Refusal<'a>>
        ensures visits { OnOk result (Visits self.old self.new
            (spots_in_map (visited_hops self.old) start uri.now (members_view schemas.now))) }
        ensures ends { Ends result (missteps_in_map uri.now (members_view schemas.now)) }
    {
        for (name, schema) in schemas.iter() {
            match self.visit_step(start, uri, Step::Name(name), schema) {
                Ok(()) => {}
                Err(refusal) => return Err(refusal.under_name(name)),
            }
        }
        Ok(())
    }

    // The schema one step further.
    #[cycle(visit)]
    fn visit_step(
        &mut self,
        start: usize,
        uri: &str,
        step: Step<'a>,
        schema: &'a Doc,
    ) -> Result<(), Refusal<'a>>
        ensures visits { OnOk result (Visits self.old self.new
            (spots (visited_hops self.old ++ step_hop step.entry ∷ []) start uri.now
            (value schema.now))) }
        ensures ends { Ends result (missteps uri.now false (value schema.now)) }
    {
        push_step(&mut self.way, step)?;
        self.visit_schema(start, uri, false, schema)?;
        pop_step(&mut self.way);
        Ok(())
    }
}

fn push_step<'a>(way: &mut Vec<Step<'a>>, step: Step<'a>) -> Result<(), AllocError>
    ensures { OnOk result (step_hops way.new.items
        ≡ step_hops way.old.items ++ step_hop step.entry ∷ []) }
{
    way.push(step)?;
    Ok(())
}

fn pop_step(way: &mut Vec<Step<'_>>)
    ensures { (hops : List Hop) (hop : Hop) → step_hops way.old.items ≡ hops ++ hop ∷ []
        → step_hops way.new.items ≡ hops }
{
    way.pop();
}
