//! From a keyword to what it applies, and back.

ghost use Rattle.std.specs.Prelude.{◌≡◌, ◌++◌, [], true, false, IfOk, IfErr, OnOk, Contains, Some, codes, option_map};
ghost use Rattle.definitions.specs.Values.{Text, Value, text_at};
ghost use Rattle.definitions.specs.Schemas.{Schema, schema_at};
ghost use Rattle.definitions.specs.Applied.{Application, part_location};
ghost use Rattle.basic_output.specs.PointerViews.{origin_view};
ghost use Rattle.json_doc.specs.Docs.{value};
ghost use Rattle.linker.specs.OpenedSchemas.{Opens};
ghost use Rattle.applicators.specs.Plans.{part_view, planned_view, step_view, way_view};
ghost use Rattle.keyword_plans.specs.ScopeViews.{scope_documents};
ghost use Rattle.linker.specs.LinkedDocuments.{linked_schemas};
ghost use Rattle.evaluation_context.specs.Standings.{at_keyword, standing_of};
ghost use Rattle.evaluation_context.specs.Frames.{Frame, context_view, frame_standing};
ghost use Rattle.evaluation_context.specs.Moves.{Onward, at_origin, frame_at, frame_below, schema_on_way, standing_at};
ghost use Rattle.evaluation_context.specs.Returns.{CameFrom, origin_before};

use crate::context::{Context, Return};
use applicators::{Part, Planned, Way};
use basic_output::Origin;
use locations::Step;
use std::alloc::{AllocError, Global};
use std::mem::replace;
use std::rc::Rc;

impl<'a> Context<'a> {
    /// From a keyword to what it applies, a schema with this `$id`, where it has one. The only error is want of memory.
    pub fn enter_planned(
        &mut self,
        alloc: Global,
        planned: &Planned<'a>,
        id: Option<&str>,
    ) -> Result<Return<'a>, AllocError>
        ensures there { (a : Application) (k : Text)
            → option_map (λ t. t.now) id.entry
            ≡ text_at (codes "$id") (value planned.now.schema.now)
            → frame_standing (context_view self.old) ≡ at_keyword k (standing_of a)
            → Contains (linked_schemas (scope_documents self.old.scope).now) a.schema
            → Contains (linked_schemas (scope_documents self.old.scope).now)
            (planned_view k a planned.now).1.schema
            → OnOk result (frame_standing (context_view self.new)
            ≡ standing_of (planned_view k a planned.now).1) }
        ensures entered { IfOk result
            (λ back. CameFrom back (context_view self.old) (context_view self.new)) }
        ensures documents { scope_documents self.new.scope ≡ scope_documents self.old.scope }
    {
        let path = self.running.path().len();
        let onward = self.onward;
        let instance_location = self.running.instance_location().len();
        let name = self.name;
        let origin = self.enter_chosen(alloc, planned, id)?;
        self.enter_part(planned.part)?;
        Ok(Return {
            path,
            origin,
            onward,
            instance_location,
            name,
        })
    }

    /// Back to the keyword.
    pub fn leave_planned(&mut self, back: Return<'a>)
        ensures left { (older : Frame) → CameFrom back.entry older (context_view self.old)
            → context_view self.new ≡ older }
        ensures documents { scope_documents self.new.scope ≡ scope_documents self.old.scope }
    {
        let Return {
            path,
            origin,
            onward,
            instance_location,
            name,
        } = back;
        self.running.cut(path, instance_location);
        self.onward = onward.min(self.running.path().len());
        if let Some(origin) = origin {
            self.origin = origin;
        }
        self.name = name;
    }

    // The origin that was left for another one, where it was.
    fn enter_chosen(
        &mut self,
        alloc: Global,
        planned: &Planned<'a>,
        id: Option<&str>,
    ) -> Result<Option<Rc<Origin<'a>>>, AllocError>
        ensures there { let st = frame_standing (context_view self.old) in
            let p = planned.now in
            let s = schema_on_way st.resource st.pointer p.way (value p.schema.now) in
            (parent : Schema)
            → option_map (λ t. t.now) id.entry ≡ text_at (codes "$id") (value p.schema.now)
            → Contains (linked_schemas (scope_documents self.old.scope).now) parent
            → parent.resource ≡ st.resource
            → Contains (linked_schemas (scope_documents self.old.scope).now) s
            → OnOk result (frame_standing (context_view self.new)
            ≡ standing_at (way_view p.way) s st) }
        ensures onward { OnOk result (Onward (context_view self.old) (context_view self.new)) }
        ensures left { IfOk result
            (λ left. origin_before left (context_view self.new).origin
            ≡ (context_view self.old).origin) }
        ensures documents { scope_documents self.new.scope ≡ scope_documents self.old.scope }
    {
        match &planned.way {
            Way::Target(origin) => {
                let left = self.enter_origin(origin.clone()?);
                Ok(Some(left))
            }
            below => {
                self.enter_step(below.step())?;
                self.enter_schema(alloc, id)
            }
        }
    }

    fn enter_step(&mut self, step: Option<Step<'a>>) -> Result<(), AllocError>
        ensures moved { OnOk result (context_view self.new
            ≡ frame_below (step_view step.entry) (context_view self.old)) }
        ensures documents { scope_documents self.new.scope ≡ scope_documents self.old.scope }
    {
        match step {
            Some(step) => {
                self.running.lengthen(step)?;
                self.onward += 1;
                Ok(())
            }
            None => Ok(()),
        }
    }

    // A schema with an `$id` opens a resource, whose pointers begin anew (JSON Schema 2020-12 Core, section 8.2.1). The origin
    // that was left, where it does.
    fn enter_schema(
        &mut self,
        alloc: Global,
        id: Option<&str>,
    ) -> Result<Option<Rc<Origin<'a>>>, AllocError>
        ensures there { let st = frame_standing (context_view self.old) in
            (parent : Schema) (v : Value)
            → option_map (λ t. t.now) id.entry ≡ text_at (codes "$id") v
            → let s = schema_at st.resource st.pointer v in
            Contains (linked_schemas (scope_documents self.old.scope).now) parent
            → parent.resource ≡ st.resource
            → Contains (linked_schemas (scope_documents self.old.scope).now) s
            → OnOk result (frame_standing (context_view self.new) ≡ standing_at [] s st) }
        ensures onward { OnOk result (Onward (context_view self.old) (context_view self.new)) }
        ensures left { IfOk result
            (λ left. origin_before left (context_view self.new).origin
            ≡ (context_view self.old).origin) }
        ensures documents { scope_documents self.new.scope ≡ scope_documents self.old.scope }
    {
        match id {
            Some(id) => {
                let resource = self.resource_opened(alloc, id)?;
                let origin = Rc::new(alloc, Origin::root(alloc, resource))?;
                Ok(Some(self.enter_origin(origin)))
            }
            None => Ok(None),
        }
    }

    // The URI of the resource that a schema opens here by this `$id`.
    fn resource_opened(&mut self, alloc: Global, id: &str) -> Result<&'a str, AllocError>
        ensures ok { let around = (frame_standing (context_view self.old)).resource in
            (parent s : Schema)
            → Contains (linked_schemas (scope_documents self.old.scope).now) parent
            → parent.resource ≡ around
            → Opens (scope_documents self.old.scope).now s around id.now
            → IfOk result (λ uri. uri.now ≡ s.resource) }
        ensures same { context_view self.new ≡ context_view self.old }
        ensures documents { scope_documents self.new.scope ≡ scope_documents self.old.scope }
    {
        let around = self.resource();
        self.scope.resource_opened(alloc, around, id)
    }

    // To another origin: the one that was left.
    fn enter_origin(&mut self, origin: Rc<Origin<'a>>) -> Rc<Origin<'a>>
        ensures moved { context_view self.new
            ≡ at_origin (origin_view origin.entry.value) (context_view self.old) }
        ensures left { origin_view result.value ≡ (context_view self.old).origin }
        ensures documents { scope_documents self.new.scope ≡ scope_documents self.old.scope }
    {
        self.onward = 0;
        replace(&mut self.origin, origin)
    }

    fn enter_part(&mut self, part: Part<'a>) -> Result<(), AllocError>
        ensures moved { OnOk result (context_view self.new
            ≡ frame_at (part_location (context_view self.old).instance_location
            (part_view part.entry))
            (context_view self.old)) }
        ensures documents { scope_documents self.new.scope ≡ scope_documents self.old.scope }
    {
        match part {
            Part::Whole => {}
            Part::Member(name) => self.running.deepen(Step::Name(name.as_str()))?,
            Part::Element(index) => self.running.deepen(Step::Index(index))?,
            Part::NameOf(name) => self.name = Some(name.as_str()),
        }
        Ok(())
    }
}
