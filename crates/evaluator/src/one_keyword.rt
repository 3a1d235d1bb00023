//! One keyword: what it applies, and whether it passes (JSON Schema 2020-12 Core, 7.7 and 10).

ghost use Rattle.std.specs.Prelude.{◌≡◌};
ghost use Rattle.json_doc.specs.Docs.{value};

use crate::applied::Applied;
use crate::applying::Evaluation;
use crate::halt::Halt;
use crate::present::Present;
use crate::schema_use::SchemaUse;
use crate::settling::{evaluated_for, settle};
use crate::siblings::Siblings;
use applicators::Planned;
use evaluation_log::LogMark;
use json_doc::Doc;
use keyword_plans::{Earlier, ObjectApplication, passes, plan, surely_applies_nothing};
use keywords::{KEYWORDS, Keyword};
use std::alloc::AllocError;

impl<'a> Evaluation<'a> {
    ghost use Rattle.std.specs.Prelude.{◌∷◌, [], ℕ, List, Some, IfOk, IfErr, OnOk, length};
    ghost use Rattle.definitions.specs.Values.{Text};
    ghost use Rattle.definitions.specs.Applied.{Application};
    ghost use Rattle.definitions.specs.Evaluated.{pass_count};
    ghost use Rattle.keywords.specs.Rows.{row_of};
    ghost use Rattle.applicators.specs.Subjects.{subject_value};
    ghost use Rattle.evaluation_context.specs.Frames.{Frame, context_view, keyword_frame};
    ghost use Rattle.evaluator.specs.declared.applying.Evaluation.{Evaluation};
    ghost use Rattle.evaluator.specs.Applying.{Adds, AreKnown, HasOutcome, HasPart, HasParts, HasUses, IsPlan, IsUntouched, IsUsed, Stays, use_now};
    ghost use Rattle.evaluator.specs.Findings.{FindsAll, passing_first};
    ghost use Rattle.evaluation_log.specs.Logs.{log_view, mark_view};
    ghost use Rattle.evaluation_log.specs.Notes.{lengths, parts_notes};
    ghost use Rattle.evaluator.specs.Rounds.{IsAtKeyword, IsKnown, IsUnder, part_outcome, part_outcomes, use_there};

    /// A keyword with this value: what it applies, and whether it passes.
    #[cycle(apply)]
    pub(crate) fn use_keyword(
        &mut self,
        keyword: Keyword,
        keyword_value: &'a Doc,
        schema_use: &SchemaUse<'_, 'a>,
        siblings: Siblings,
        nesting: u32,
    ) -> Result<bool, Halt>
        ensures stays { Stays self.old self.new result }
        ensures outcome { (a : Application)
            → IsUsed self.old schema_use.now keyword (value keyword_value.now) siblings nesting a
            → HasUses self.old self.new result a
            (use_now self.old schema_use.now keyword (value keyword_value.now) nesting a ∷ []) }
        ensures passing { (a : Application)
            → IsUsed self.old schema_use.now keyword (value keyword_value.now) siblings nesting a
            → OnOk result (self.new.passing ≡ passing_first
            (use_now self.old schema_use.now keyword (value keyword_value.now) nesting a ∷ [])) }
    {
        let mark = self.log.mark();
        let planned = self.plan_keyword(keyword, keyword_value, schema_use, siblings)?;
        self.context.enter_keyword(keyword)?;
        match self.apply_all(keyword, &planned, nesting) {
            Ok(applied) => {
                self.plans.give_back(planned);
                self.finish_keyword(keyword, keyword_value, schema_use, siblings, &mark, applied)
            }
            Err(fault) => Err(fault),
        }
    }

    /// What the keyword applies. The only error is want of memory.
    fn plan_keyword(
        &mut self,
        keyword: Keyword,
        keyword_value: &'a Doc,
        schema_use: &SchemaUse<'_, 'a>,
        siblings: Siblings,
    ) -> Result<Vec<Planned<'a>>, AllocError>
        ensures linked { self.new.linked ≡ self.old.linked }
        ensures back { context_view self.new.context ≡ context_view self.old.context }
        ensures noted { self.new.log ≡ self.old.log }
        ensures planned { (a : Application) (left : ℕ)
            → IsUsed self.old schema_use.now keyword (value keyword_value.now) siblings left a
            → IfOk result (λ ps. IsPlan self.old.linked.now left a keyword
            (use_now self.old schema_use.now keyword (value keyword_value.now) left a) ps.items) }
    {
        if surely_applies_nothing(keyword, schema_use.subject, siblings.named) {
            return Ok(Vec::new(self.alloc));
        }
        let mut planned = self.plans.take();
        let log = &self.log;
        let earlier = Earlier {
            condition: siblings.condition,
            evaluated: evaluated_for(keyword, &log.names, &log.indexes, schema_use.before),
        };
        let context = &mut self.context;
        let application = ObjectApplication {
            linked: self.linked,
            resource: context.resource(),
            schema: schema_use.present.schema,
            subject: schema_use.subject,
        };
        plan(
            &mut planned,
            &mut context.scope,
            &mut self.searches,
            application,
            keyword,
            keyword_value,
            earlier,
        )?;
        Ok(planned)
    }

    /// What the keyword itself says, once what it applies was applied, after the mark; and back from the keyword. The only
    /// error is want of memory.
    fn finish_keyword(
        &mut self,
        keyword: Keyword,
        keyword_value: &'a Doc,
        schema_use: &SchemaUse<'_, 'a>,
        siblings: Siblings,
        mark: &LogMark,
        applied: Applied,
    ) -> Result<bool, Halt>
        ensures linked { self.new.linked ≡ self.old.linked }
        ensures back { (older : Frame)
            → context_view self.old.context ≡ keyword_frame (row_of keyword).name older
            → OnOk result (context_view self.new.context ≡ older) }
        ensures outcome { (a : Application) (left : ℕ) (names : List Text) (indexes : List ℕ)
            (before : Evaluation)
            → IsAtKeyword self.old.linked.now left (context_view self.old.context)
            (value schema_use.now.present.now.schema.now)
            (subject_value schema_use.now.subject) keyword
            (value keyword_value.now) siblings a
            → let u = use_there self.old.linked.now left a keyword names indexes
            (value keyword_value.now) in
            FindsAll applied u.outcomes → mark_view mark.now ≡ lengths (log_view before.log)
            → Adds before self.old (parts_notes (row_of keyword).meaning u.outcomes)
            → HasUses before self.new result a (u ∷ []) }
        ensures passing { OnOk result (self.new.passing ≡ Some applied.passing) }
        ensures err { IfErr result (λ h. h ≡ Halt.NoRoom) }
    {
        let passes = self.passes(keyword, keyword_value, schema_use, siblings, applied)?;
        settle(
            &mut self.context,
            &mut self.log,
            keyword,
            schema_use.subject,
            mark,
            applied.number,
            passes,
        )?;
        self.context.leave_keyword();
        self.passing = Some(applied.passing);
        Ok(passes)
    }

    /// Whether the keyword passes, under which the evaluation stands. The only error is want of memory.
    fn passes(
        &mut self,
        keyword: Keyword,
        keyword_value: &'a Doc,
        schema_use: &SchemaUse<'_, 'a>,
        siblings: Siblings,
        applied: Applied,
    ) -> Result<bool, AllocError>
        ensures same { IsUntouched self.old self.new }
        ensures passes { (a : Application) (left : ℕ) (names : List Text) (indexes : List ℕ)
            → IsAtKeyword self.old.linked.now left (context_view self.old.context)
            (value schema_use.now.present.now.schema.now)
            (subject_value schema_use.now.subject) keyword
            (value keyword_value.now) siblings a
            → let u = use_there self.old.linked.now left a keyword names indexes
            (value keyword_value.now) in
            applied.number ≡ length u.outcomes → applied.passing ≡ pass_count u.outcomes
            → IfOk result (λ b. b ≡ u.passes) }
    {
        let application = ObjectApplication {
            linked: self.linked,
            resource: self.context.resource(),
            schema: schema_use.present.schema,
            subject: schema_use.subject,
        };
        passes(
            &mut self.searches,
            application,
            keyword,
            keyword_value,
            applied.number,
            applied.passing,
            siblings.containing,
        )
    }

    /// Applies each in turn.
    #[cycle(apply)]
    fn apply_all(
        &mut self,
        keyword: Keyword,
        planned: &Vec<Planned<'a>>,
        nesting: u32,
    ) -> Result<Applied, Halt>
        ensures stays { Stays self.old self.new result }
        ensures outcome { (a : Application)
            → IsUnder (context_view self.old.context) (row_of keyword).name a
            → AreKnown self.old.linked.now (row_of keyword).name a planned.now.items
            → HasParts self.old self.new result (row_of keyword).meaning
            (part_outcomes self.old.linked.now nesting (row_of keyword).name a planned.now.items) }
    {
        let mut applied = Applied::none();
        for one in planned {
            match self.apply_part(keyword, one, nesting) {
                Ok(valid) => applied = applied.and(valid),
                Err(fault) => return Err(fault),
            }
        }
        Ok(applied)
    }

    /// Applies one schema to a part of the instance. What passes without a word is not entered.
    #[cycle(apply)]
    fn apply_part(
        &mut self,
        keyword: Keyword,
        planned: &Planned<'a>,
        nesting: u32,
    ) -> Result<bool, Halt>
        ensures stays { Stays self.old self.new result }
        ensures outcome { (a : Application)
            → IsUnder (context_view self.old.context) (row_of keyword).name a
            → IsKnown self.old.linked.now (row_of keyword).name a planned.now
            → HasPart self.old self.new result (row_of keyword).meaning
            (part_outcome self.old.linked.now nesting (row_of keyword).name a planned.now) }
    {
        if self.passes_silently(planned, nesting)? {
            self.log.note_silent(planned.part)?;
            return Ok(true);
        }
        self.apply_planned(keyword, planned, nesting)
    }

    // Applies the schema that is planned, and settles what that evaluated.
    #[cycle(apply)]
    fn apply_planned(
        &mut self,
        keyword: Keyword,
        planned: &Planned<'a>,
        nesting: u32,
    ) -> Result<bool, Halt>
        ensures stays { Stays self.old self.new result }
        ensures outcome { (a : Application)
            → IsUnder (context_view self.old.context) (row_of keyword).name a
            → IsKnown self.old.linked.now (row_of keyword).name a planned.now
            → HasPart self.old self.new result (row_of keyword).meaning
            (part_outcome self.old.linked.now nesting (row_of keyword).name a planned.now) }
    {
        let mark = self.log.mark();
        let valid = self.apply_entered(planned, nesting)?;
        self.log.settle_part(keyword, planned.part, &mark, valid)?;
        Ok(valid)
    }

    // Enters the schema that is planned, and applies it.
    #[cycle(apply)]
    fn apply_entered(&mut self, planned: &Planned<'a>, nesting: u32) -> Result<bool, Halt>
        ensures stays { Stays self.old self.new result }
        ensures outcome { (a : Application) (k : Text)
            → IsUnder (context_view self.old.context) k a
            → IsKnown self.old.linked.now k a planned.now
            → HasOutcome self.old self.new result
            (part_outcome self.old.linked.now nesting k a planned.now).1 }
    {
        let mut positions = [0; KEYWORDS];
        let present = Present::of(planned.schema, &mut positions);
        let back = self
            .context
            .enter_planned(self.alloc, planned, present.identifier())?;
        match self.apply(&present, planned.subject, nesting) {
            Ok(valid) => {
                self.context.leave_planned(back);
                self.last_passed = valid;
                Ok(valid)
            }
            Err(fault) => Err(fault),
        }
    }
}
