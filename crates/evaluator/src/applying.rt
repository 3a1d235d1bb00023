//! Applying a schema to an instance (JSON Schema 2020-12 Core, 7.1, 10 and 11).

ghost use Rattle.std.specs.Prelude.{◌≡◌};
ghost use Rattle.definitions.specs.Values.{is_object};
ghost use Rattle.json_doc.specs.Docs.{value};
ghost use Rattle.keyword_plans.specs.EnumeratedIn.{enumerated_in};
ghost use Rattle.keyword_plans.specs.ScopeViews.{scope_documents};
ghost use Rattle.keyword_plans.specs.SearchedIn.{searched_in};

use crate::halt::Halt;
use crate::memory::EvaluationMemory;
use crate::present::Present;
use crate::schema_use::SchemaUse;
use crate::settling_object::settle_object;
use applicators::{PlanMemory, Subject};
use basic_output::Says;
use evaluation_context::Context;
use evaluation_log::Log;
use json_doc::Doc;
use keyword_plans::{Enumerations, Searches};
use keywords::KEYWORDS;
use linker::Linked;
use output_texts::NotedUnits;
use std::alloc::{AllocError, Global};

/// How many applications may nest, the root's among them.
const MOST_NESTED: u32 = 1000;

/// An evaluation under way: the linked documents, the long `enum`s that it met in them and the patterns that it searched for,
/// where it stands, and what it noted.
#[derive(Drop)]
pub(crate) struct Evaluation<'a> {
    pub(crate) alloc: Global,
    pub(crate) linked: &'a Linked,
    pub(crate) enumerations: Enumerations<'a>,
    pub(crate) searches: Searches<'a>,
    pub(crate) context: Context<'a>,
    pub(crate) log: Log<'a>,
    /// The memory of what keywords planned that were evaluated.
    pub(crate) plans: PlanMemory<'a>,
    /// Of the last keyword that may apply schemas, how many passed of those that it applied, where it is there.
    pub(crate) passing: Option<u64>,
    /// Whether what was applied last passed.
    pub(crate) last_passed: bool,
    ghost enumerated: { enumerated_in enumerations ≡ linked },
    ghost searched: { searched_in searches ≡ linked },
    ghost followed: { scope_documents context.scope ≡ linked },
}

impl<'a> Evaluation<'a> {
    ghost use Rattle.std.specs.Prelude.{◌<◌, None, IfOk, IfErr, OnOk};
    ghost use Rattle.definitions.specs.Values.{Value};
    ghost use Rattle.definitions.specs.Applied.{Application};
    ghost use Rattle.definitions.specs.Limits.{limits};
    ghost use Rattle.definitions.specs.Outcomes.{is_running, boolean_outcome};
    ghost use Rattle.json_doc.specs.Kinds.{as_boolean};
    ghost use Rattle.evaluation_context.specs.Frames.{context_view, frame_standing};
    ghost use Rattle.evaluation_context.specs.Standings.{application_at};
    ghost use Rattle.evaluator.specs.Applying.{Adds, Applies, AppliesToWhole, HasOutcome, Stays, linked_object_outcome};
    ghost use Rattle.evaluation_log.specs.Notes.{outcome_notes};
    ghost use Rattle.evaluator.specs.Rounds.{boolean_at, linked_outcome, root_outcome};

    /// At this place, with what is noted so far. No keyword has been evaluated yet.
    #[inline(always)]
    pub(crate) fn new(
        alloc: Global,
        linked: &'a Linked,
        context: Context<'a>,
        log: Log<'a>,
    ) -> Evaluation<'a>
        requires followed { scope_documents context.scope ≡ linked }
        ensures linked { result.linked ≡ linked.entry }
        ensures place { result.context ≡ context.entry }
        ensures noted { result.log ≡ log.entry }
    {
        Evaluation {
            alloc,
            linked,
            enumerations: Enumerations::new(alloc, linked),
            searches: Searches::new(alloc, linked),
            context,
            log,
            plans: PlanMemory::new(alloc),
            passing: None,
            last_passed: true,
        }
    }

    /// The units that were noted, and the other memory that it worked in, for the next evaluation.
    pub(crate) fn into_units(self) -> (Box<NotedUnits>, EvaluationMemory)
        ensures { result.0 ≡ self.entry.log.units }
    {
        let Evaluation {
            alloc,
            context,
            log,
            ..
        } = self;
        let (units, log) = log.into_units();
        let context = context.into_memory(alloc);
        (units, EvaluationMemory { log, context })
    }

    /// Applies the schema, which is the linked resource's root where the evaluation stands there, to the whole instance.
    #[inline(always)]
    pub(crate) fn apply_root(&mut self, schema: &'a Doc, instance: &'a Doc) -> Result<bool, Halt>
        ensures stays { Stays self.old self.new result }
        ensures outcome { (a : Application) → AppliesToWhole self.old schema.now instance.now a
            → HasOutcome self.old self.new result (root_outcome self.old.linked.now a) }
    {
        let mut positions = [0; KEYWORDS];
        let present = Present::of(schema, &mut positions);
        self.apply(&present, Subject::Value(instance), MOST_NESTED)
    }

    /// Applies a schema to the subject. Where there were as many applications as there may be, it is Costly.
    #[cycle(apply)]
    pub(crate) fn apply(
        &mut self,
        present: &Present<'_, 'a>,
        subject: Subject<'a>,
        nesting: u32,
    ) -> Result<bool, Halt>
        ensures stays { Stays self.old self.new result }
        ensures outcome { (a : Application)
            → Applies self.old present.now.schema.now subject.entry a
            → HasOutcome self.old self.new result (linked_outcome self.old.linked.now nesting a) }
    {
        if self.log.is_full() {
            return Err(Halt::Costly);
        }
        match present.schema.as_bool() {
            Some(allowed) => self.apply_boolean(allowed, nesting),
            None => self.apply_other(present, subject, nesting),
        }
    }

    /// A boolean schema: `false` has a unit of its own (Core, 4.3.2).
    fn apply_boolean(&mut self, allowed: bool, nesting: u32) -> Result<bool, Halt>
        requires room { self.old.log.count < limits.applications }
        ensures stays { Stays self.old self.new result }
        ensures valid { (a : Application)
            → IfOk result (λ b. b ≡ (boolean_at nesting a allowed).valid) }
        ensures noted { (a : Application) (s x : Value)
            → a ≡ application_at (frame_standing (context_view self.old.context)) s x
            → OnOk result (Adds self.old self.new (outcome_notes (boolean_at nesting a allowed))) }
        ensures err { IfErr result (λ h. h ≡ Halt.NoRoom) }
    {
        if nesting == 0 {
            self.log.count_too_deep();
            return Ok(false);
        }
        self.note_boolean(allowed)?;
        Ok(allowed)
    }

    fn note_boolean(&mut self, allowed: bool) -> Result<(), AllocError>
        requires room { self.old.log.count < limits.applications }
        ensures linked { self.new.linked ≡ self.old.linked }
        ensures back { context_view self.new.context ≡ context_view self.old.context }
        ensures noted { (a : Application) (s x : Value)
            → a ≡ application_at (frame_standing (context_view self.old.context)) s x
            → OnOk result (Adds self.old self.new (outcome_notes (boolean_outcome a allowed))) }
    {
        self.log.count_one();
        if allowed {
            return Ok(());
        }
        self.context.write_locations()?;
        self.log
            .push_error(self.context.location(), Says::NotAllowed)?;
        Ok(())
    }

    /// A schema that is no boolean: it isn't applied where it is being applied here, or where too many nest.
    #[cycle(apply)]
    fn apply_other(
        &mut self,
        present: &Present<'_, 'a>,
        subject: Subject<'a>,
        nesting: u32,
    ) -> Result<bool, Halt>
        requires room { self.old.log.count < limits.applications }
        requires other { as_boolean (value present.now.schema.now) ≡ None }
        ensures stays { Stays self.old self.new result }
        ensures outcome { (a : Application)
            → Applies self.old present.now.schema.now subject.entry a
            → HasOutcome self.old self.new result (linked_outcome self.old.linked.now nesting a) }
    {
        if self.is_looping(present.schema) {
            self.log.count_loop();
            return Ok(false);
        }
        if nesting == 0 {
            self.log.count_too_deep();
            return Ok(false);
        }
        self.apply_object(present, subject, nesting - 1)
    }

    /// Whether this schema is being applied here already.
    fn is_looping(&self, schema: &Doc) -> bool
        ensures { (x : Value)
            → result ≡ is_running (application_at (frame_standing (context_view self.now.context))
            (value schema.now) x) }
    {
        is_object(schema) && self.context.is_running()
    }

    /// A schema object, within which so many applications may nest.
    #[cycle(apply)]
    fn apply_object(
        &mut self,
        present: &Present<'_, 'a>,
        subject: Subject<'a>,
        nesting: u32,
    ) -> Result<bool, Halt>
        requires room { self.old.log.count < limits.applications }
        ensures stays { Stays self.old self.new result }
        ensures outcome { (a : Application)
            → Applies self.old present.now.schema.now subject.entry a
            → HasOutcome self.old self.new result
            (linked_object_outcome self.old.linked.now nesting a) }
    {
        if present.applies_nothing() {
            return self.apply_leaf(present, subject);
        }
        self.log.count_one();
        let mark = self.log.mark();
        self.context.enter_object()?;
        let schema_use = SchemaUse {
            present: &*present,
            subject,
            before: mark.before(),
        };
        match self.use_keywords(&schema_use, nesting) {
            Ok(valid) => {
                self.context.leave_object();
                settle_object(
                    &mut self.context,
                    &mut self.log,
                    &mark,
                    present,
                    subject,
                    valid,
                )?;
                Ok(valid)
            }
            Err(fault) => Err(fault),
        }
    }
}

fn is_object(doc: &Doc) -> bool
    ensures { result ≡ is_object (value doc.now) }
{
    matches!(doc, Doc::Dict(_))
}
