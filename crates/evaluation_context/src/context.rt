//! Where an application of a schema stands.

ghost use Rattle.std.specs.Prelude.{◌≡◌, ◌≤◌, Bool, true, IfOk, OnOk, is_some, length, map};
ghost use Rattle.definitions.specs.Schemas.{Schema};
ghost use Rattle.definitions.specs.Values.{Text, Value, is_object};
ghost use Rattle.definitions.specs.Answers.{first_application};
ghost use Rattle.definitions.specs.Outcomes.{is_running};
ghost use Rattle.basic_output.specs.Parts.{text_of_unit};
ghost use Rattle.basic_output.specs.Pieces.{unit_text};
ghost use Rattle.keywords.specs.Rows.{row_of};
ghost use Rattle.locations.specs.Steps.{token, tokens};
ghost use Rattle.keyword_plans.specs.ScopeViews.{scope_documents};
ghost use Rattle.evaluation_context.specs.RunningViews.{path_pointer};
ghost use Rattle.evaluation_context.specs.Standings.{application_at, at_keyword, unit_there, within_object};

use crate::context_memory::ContextMemory;
use crate::running_objects::RunningObjects;
use crate::start::Start;
use basic_output::{Location, Origin};
use keyword_plans::DynamicScope;
use keywords::Keyword;
use linker::Linked;
use locations::Step;
use std::alloc::{AllocError, Global};
use std::rc::Rc;

/// Where an application of a schema stands.
///
/// Contracts see all that it keeps by `context_view`, and where that stands by `frame_standing`.
#[derive(Drop)]
pub struct Context<'a> {
    /// The schema that was entered last otherwise than by a step from the keyword above it.
    pub(crate) origin: Rc<Origin<'a>>,
    /// How many of the path's last steps lead on from there.
    pub(crate) onward: usize,
    pub(crate) name: Option<&'a str>,
    /// The dynamic scope.
    pub scope: DynamicScope<'a>,
    pub(crate) running: RunningObjects<'a>,
    ghost within: { onward ≤ length (path_pointer running) },
}

/// The way back from what a keyword applied.
#[derive(Debug, Drop)]
pub struct Return<'a> {
    pub(crate) path: usize,
    /// The origin, where another one was entered.
    pub(crate) origin: Option<Rc<Origin<'a>>>,
    pub(crate) onward: usize,
    pub(crate) instance_location: usize,
    pub(crate) name: Option<&'a str>,
}

impl<'a> Context<'a> {
    ghost use Rattle.evaluation_context.specs.Frames.{Frame, context_view, frame_standing, keyword_frame, object_frame};
    ghost use Rattle.evaluation_context.specs.Starts.{IsStart};
    ghost use Rattle.evaluation_context.specs.Written.{AreWritten};

    /// Where the first application stands, of a schema to the whole instance, in these documents.
    #[inline(always)]
    pub fn new(alloc: Global, linked: &'a Linked, start: Start<'a>) -> Context<'a>
        ensures there { (root : Schema) (x : Value) → IsStart start.entry root
            → application_at (frame_standing (context_view result)) root.value x
            ≡ first_application root x }
        ensures documents { scope_documents result.scope ≡ linked.entry }
    {
        let Start { origin, running } = start;
        Context {
            origin,
            onward: 0,
            name: None,
            scope: DynamicScope::new(alloc, linked),
            running,
        }
    }

    /// The memory that its locations and its origin were written in, for the next context. Where the text of one of them took more
    /// than 1,048,576 bytes, all of it is given back.
    pub fn into_memory(self, alloc: Global) -> ContextMemory {
        let Context {
            origin,
            running,
            ..
        } = self;
        let pointers = running.into_memory();
        let origin = match Rc::into_inner(origin) {
            Some(origin) => origin.into_memory(),
            None => String::new(alloc),
        };
        ContextMemory { origin, pointers }
    }

    /// The URI of the resource of the schema that is applied.
    pub fn resource(&self) -> &'a str
        ensures { result.now ≡ (frame_standing (context_view self.now)).resource }
    {
        self.origin.resource()
    }

    /// The URIs of the resources of the dynamic scope, the outermost first.
    pub fn scope(&self) -> &[&'a str]
        ensures { map (λ uri. uri.now) result.now ≡ (frame_standing (context_view self.now)).scope }
    {
        self.scope.uris()
    }

    /// The steps from the root of that resource to the schema, or to a keyword of it. The only error is want of memory.
    pub fn pointer(&self, alloc: Global) -> Result<Vec<Step<'a>>, AllocError>
        ensures { IfOk result
            (λ p. tokens p.items ≡ (frame_standing (context_view self.now)).pointer) }
    {
        let mut pointer = Vec::from_slice(alloc, self.origin.steps())?;
        pointer.extend_from_slice(self.running.last_steps(self.onward))?;
        Ok(pointer)
    }

    /// Whether a schema object that is applied here is being applied at this instance location already.
    pub fn is_running(&self) -> bool
        ensures { (s x : Value) → is_object s ≡ true
            → result ≡ is_running (application_at (frame_standing (context_view self.now)) s x) }
    {
        self.running.contains(&self.origin, self.onward, self.name)
    }

    /// Writes what the texts of the locations lack. The only error is want of memory.
    #[inline(always)]
    pub fn write_locations(&mut self) -> Result<(), AllocError>
        ensures written { OnOk result (AreWritten self.new) }
        ensures same { context_view self.new ≡ context_view self.old }
        ensures documents { scope_documents self.new.scope ≡ scope_documents self.old.scope }
    {
        self.write_origin()?;
        self.running.write(self.onward)
    }

    // Writes the text of the origin, where that isn't written yet.
    fn write_origin(&mut self) -> Result<(), AllocError>
        ensures written { OnOk result (is_some self.new.origin.value.head ≡ true) }
        ensures same { context_view self.new ≡ context_view self.old }
        ensures documents { scope_documents self.new.scope ≡ scope_documents self.old.scope }
    {
        if !self.origin.has_head() {
            self.origin = self.origin.with_head()?;
        }
        Ok(())
    }

    /// The location of a unit of the output.
    pub fn location(&self) -> Location<'_>
        requires { AreWritten self.now }
        ensures { (annotates : Bool) (says : Value) → text_of_unit annotates result says
            ≡ unit_text annotates (unit_there (frame_standing (context_view self.now)) says) }
    {
        let running = &self.running;
        Location {
            head: self.origin.head(),
            onward: running.path.onward_text(self.onward),
            instance_location: running.instance_location.text(),
            path: running.path.text(),
        }
    }

    /// A schema object is being applied here. The only error is want of memory.
    pub fn enter_object(&mut self) -> Result<(), AllocError>
        ensures there { OnOk result
            (frame_standing (context_view self.new)
            ≡ within_object (frame_standing (context_view self.old))) }
        ensures entered { OnOk result
            (context_view self.new ≡ object_frame (context_view self.old)) }
        ensures documents { scope_documents self.new.scope ≡ scope_documents self.old.scope }
    {
        let resource = self.resource();
        self.scope.push(resource)?;
        self.running
            .push(self.origin.clone()?, self.onward, self.name)?;
        Ok(())
    }

    /// It has been applied.
    pub fn leave_object(&mut self)
        ensures left { (older : Frame) → context_view self.old ≡ object_frame older
            → context_view self.new ≡ older }
        ensures documents { scope_documents self.new.scope ≡ scope_documents self.old.scope }
    {
        self.scope.pop();
        self.running.pop();
    }

    /// To this keyword. The only error is want of memory.
    pub fn enter_keyword(&mut self, keyword: Keyword) -> Result<(), AllocError>
        ensures there { OnOk result
            (frame_standing (context_view self.new)
            ≡ at_keyword (row_of keyword).name (frame_standing (context_view self.old))) }
        ensures entered { OnOk result
            (context_view self.new
            ≡ keyword_frame (row_of keyword).name (context_view self.old)) }
        ensures documents { scope_documents self.new.scope ≡ scope_documents self.old.scope }
    {
        self.enter_member(Step::Keyword(keyword))
    }

    /// To the keyword of this name, or to another member of the schema. The only error is want of memory.
    pub fn enter_name(&mut self, name: &'a str) -> Result<(), AllocError>
        ensures there { OnOk result
            (frame_standing (context_view self.new)
            ≡ at_keyword name.now (frame_standing (context_view self.old))) }
        ensures entered { OnOk result
            (context_view self.new ≡ keyword_frame name.now (context_view self.old)) }
        ensures documents { scope_documents self.new.scope ≡ scope_documents self.old.scope }
    {
        self.enter_member(Step::Name(name))
    }

    // To the member of the schema to which the step leads.
    fn enter_member(&mut self, step: Step<'a>) -> Result<(), AllocError>
        ensures there { OnOk result
            (frame_standing (context_view self.new)
            ≡ at_keyword (token step.entry) (frame_standing (context_view self.old))) }
        ensures entered { OnOk result
            (context_view self.new ≡ keyword_frame (token step.entry) (context_view self.old)) }
        ensures documents { scope_documents self.new.scope ≡ scope_documents self.old.scope }
    {
        self.running.lengthen(step)?;
        self.onward += 1;
        Ok(())
    }

    /// Back from there.
    pub fn leave_keyword(&mut self)
        ensures left { (older : Frame) (k : Text) → context_view self.old ≡ keyword_frame k older
            → context_view self.new ≡ older }
        ensures documents { scope_documents self.new.scope ≡ scope_documents self.old.scope }
    {
        self.running.step_back();
        self.onward = self.onward.saturating_sub(1);
    }
}
