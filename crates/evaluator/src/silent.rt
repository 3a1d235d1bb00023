//! Schemas that pass without a word: `true`, and schema objects that apply nothing, of which all that they assert holds and
//! nothing annotates. They are not entered, so that no location is kept for them.

ghost use Rattle.std.specs.Prelude.{◌≡◌, ◌<◌, true};
ghost use Rattle.json_doc.specs.Docs.{value, members_value};
ghost use Rattle.json_doc.specs.NamedMembers.{name_text};
ghost use Rattle.keywords.specs.Rows.{row_of};
ghost use Rattle.evaluator.specs.Leaves.{is_leaf_mark};
ghost use Rattle.evaluator.specs.Presents.{mark_of};

use crate::applying::Evaluation;
use crate::tuning::MOST_SILENT;
use applicators::{Planned, Subject};
use assertions::Assertion;
use json_doc::{Doc, Members, Name};
use keyword_plans::holds_of;
use keywords::Keyword;
use std::alloc::AllocError;

impl<'a> Evaluation<'a> {
    ghost use Rattle.std.specs.Prelude.{IfOk};
    ghost use Rattle.std.specs.List.{list_all};
    ghost use Rattle.assertions.specs.AssertionView.{assertion_view};
    ghost use Rattle.definitions.specs.Assertions.{holds};
    ghost use Rattle.definitions.specs.Applied.{Application};
    ghost use Rattle.definitions.specs.Limits.{limits};
    ghost use Rattle.definitions.specs.Values.{Text};
    ghost use Rattle.applicators.specs.Subjects.{subject_value};
    ghost use Rattle.evaluation_context.specs.Frames.{context_view};
    ghost use Rattle.evaluator.specs.Applying.{IsUntouched};
    ghost use Rattle.evaluator.specs.Rounds.{IsUnder, part_outcome};
    ghost use Rattle.evaluator.specs.Silences.{is_met_alone};
    ghost use Rattle.evaluation_log.specs.Notes.{IsSilent};

    /// Whether the schema that is planned surely passes without a word, and there is room to apply it: it is `true`, or a schema
    /// object that does so at a part of the instance below this one. The only error is want of memory.
    #[inline(always)]
    pub(crate) fn passes_silently(
        &mut self,
        planned: &Planned<'a>,
        nesting: u32,
    ) -> Result<bool, AllocError>
        ensures same { IsUntouched self.old self.new }
        ensures room { IfOk result (λ b. b ≡ true → self.old.log.count < limits.applications) }
        ensures silent { (a : Application) (k : Text) → IsUnder (context_view self.old.context) k a
            → IfOk result (λ b. b ≡ true → IsSilent
            (part_outcome self.old.linked.now nesting k a planned.now).1) }
    {
        if self.is_true(planned, nesting) {
            return Ok(true);
        }
        self.object_passes_silently(planned, nesting)
    }

    // Whether the schema is `true`, and there is room to apply it.
    #[inline(always)]
    fn is_true(&self, planned: &Planned<'a>, nesting: u32) -> bool
        ensures room { result ≡ true → self.now.log.count < limits.applications }
        ensures silent { (a : Application) (k : Text) → IsUnder (context_view self.now.context) k a
            → result ≡ true → IsSilent
            (part_outcome self.now.linked.now nesting k a planned.now).1 }
    {
        match planned.schema.as_bool() {
            Some(allowed) => allowed && self.has_room(nesting),
            None => false,
        }
    }

    // Whether the schema is an object that surely passes without a word at a part of the instance below this one. It isn't tried
    // where what was applied last failed, since what fails is judged twice. The only error is want of memory.
    #[inline(always)]
    fn object_passes_silently(
        &mut self,
        planned: &Planned<'a>,
        nesting: u32,
    ) -> Result<bool, AllocError>
        ensures same { IsUntouched self.old self.new }
        ensures room { IfOk result (λ b. b ≡ true → self.old.log.count < limits.applications) }
        ensures silent { (a : Application) (k : Text) → IsUnder (context_view self.old.context) k a
            → IfOk result (λ b. b ≡ true → IsSilent
            (part_outcome self.old.linked.now nesting k a planned.now).1) }
    {
        if !self.last_passed {
            return Ok(false);
        }
        if !self.context.is_above(planned.part) {
            return Ok(false);
        }
        if !self.has_room(nesting) {
            return Ok(false);
        }
        match planned.schema {
            Doc::Dict(members) if members.len() <= MOST_SILENT => self.are_met(
                members,
                planned.subject,
            ),
            _ => Ok(false),
        }
    }

    // Whether one more application may nest, and there may be one more in all.
    fn has_room(&self, nesting: u32) -> bool
        ensures nests { result ≡ true → 0 < nesting }
        ensures room { result ≡ true → self.now.log.count < limits.applications }
    {
        if nesting == 0 {
            return false;
        }
        !self.log.is_full()
    }

    // Whether the members surely are those of a schema object that applies nothing, none annotates with its own value, and the
    // assertions hold that they make. The only error is want of memory.
    fn are_met(&mut self, members: &Members, subject: Subject<'a>) -> Result<bool, AllocError>
        ensures same { IsUntouched self.old self.new }
        ensures met { IfOk result (λ b. b ≡ true
            → list_all (is_met_alone (subject_value subject.entry)) (members_value members.now)
            ≡ true) }
    {
        for (name, keyword_value) in members.iter().named() {
            let met = self.is_member_met(name, keyword_value, subject)?;
            if !met {
                return Ok(false);
            }
        }
        Ok(true)
    }

    // Whether the member surely makes an assertion, which holds, or only declares. The only error is want of memory.
    #[inline(always)]
    fn is_member_met(
        &mut self,
        name: Name<'_>,
        keyword_value: &Doc,
        subject: Subject<'a>,
    ) -> Result<bool, AllocError>
        ensures same { IsUntouched self.old self.new }
        ensures met { IfOk result (λ b. b ≡ true
            → is_met_alone (subject_value subject.entry)
            (name_text name.entry, value keyword_value.now) ≡ true) }
    {
        let Some(keyword) = name.keyword() else {
            return Ok(false);
        };
        match Assertion::of(keyword) {
            Some(assertion) => self.is_value_met(keyword, assertion, keyword_value, subject),
            None => Ok(only_declares(keyword)),
        }
    }

    // Whether the assertion holds by this value of its keyword. Of an `enum` that is too long to be walked that isn't said: it is
    // sorted where it is entered. The only error is want of memory.
    fn is_value_met(
        &mut self,
        keyword: Keyword,
        assertion: Assertion,
        keyword_value: &Doc,
        subject: Subject<'a>,
    ) -> Result<bool, AllocError>
        ensures same { IsUntouched self.old self.new }
        ensures met { IfOk result (λ b. b ≡ true
            → holds (assertion_view assertion) (value keyword_value.now)
            (subject_value subject.entry)
            ≡ true) }
    {
        match keyword {
            Keyword::Enum if !self.enumerations.may_walk(keyword_value) => Ok(false),
            _ => holds_of(self.alloc, assertion, keyword_value, subject),
        }
    }
}

// Whether it isn't evaluated, and doesn't annotate with its own value.
#[inline(always)]
fn only_declares(keyword: Keyword) -> bool
    ensures { result ≡ true → is_leaf_mark (mark_of (row_of keyword).name) ≡ true }
{
    match keyword {
        Keyword::ContentSchema => false,
        _ => !keyword.is_evaluated(),
    }
}
