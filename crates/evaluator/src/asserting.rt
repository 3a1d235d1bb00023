//! Keywords that look at their own value and the instance alone (JSON Schema 2020-12 Validation, section 6).

ghost use Rattle.std.specs.Prelude.{◌≡◌};
ghost use Rattle.json_doc.specs.Docs.{value};

use crate::applying::Evaluation;
use crate::halt::Halt;
use crate::schema_use::SchemaUse;
use assertions::Assertion;
use basic_output::Says;
use json_doc::Doc;
use keyword_plans::holds_of;
use keywords::Keyword;
use std::alloc::AllocError;

impl<'a> Evaluation<'a> {
    ghost use Rattle.std.specs.Prelude.{[], ◌∷◌, ◌++◌, ℕ, Some, false, IfOk, IfErr, OnOk, codes};
    ghost use Rattle.assertions.specs.AssertionView.{assertion_in, assertion_view};
    ghost use Rattle.definitions.specs.Assertions.{enum_of, holds};
    ghost use Rattle.definitions.specs.Values.{get, string};
    ghost use Rattle.definitions.specs.Applied.{Application};
    ghost use Rattle.definitions.specs.Outcomes.{unit};
    ghost use Rattle.keywords.specs.Rows.{row_of};
    ghost use Rattle.keywords.specs.declared.group.Group.TheVariants.{One};
    ghost use Rattle.evaluation_context.specs.Frames.{context_view, frame_standing};
    ghost use Rattle.evaluation_context.specs.Standings.{standing_of};
    ghost use Rattle.evaluator.specs.Applying.{Adds, HasUses, IsApplicationOf, IsUntouched, Stays};
    ghost use Rattle.evaluation_log.specs.Notes.{error_texts, no_notes};
    ghost use Rattle.evaluator.specs.Rounds.{group_uses};

    /// A keyword that makes this assertion: it applies nothing. The only error is want of memory.
    #[inline(always)]
    pub(crate) fn use_assertion(
        &mut self,
        keyword: Keyword,
        assertion: Assertion,
        schema_use: &SchemaUse<'_, 'a>,
    ) -> Result<bool, Halt>
        requires asserts { Some (assertion_view assertion)
            ≡ assertion_in (row_of keyword).meaning }
        ensures stays { Stays self.old self.new result }
        ensures outcome { (a : Application) (left : ℕ) → IsApplicationOf self.old schema_use.now a
            → HasUses self.old self.new result a
            (group_uses self.old.linked.now left a (One keyword)) }
        ensures err { IfErr result (λ h. h ≡ Halt.NoRoom) }
    {
        match schema_use.present.value(keyword) {
            Some(keyword_value) => {
                let met = self.is_met(keyword, assertion, keyword_value, schema_use)?;
                if met { Ok(true) } else { self.refuse(keyword) }
            }
            None => Ok(true),
        }
    }

    // Whether the keyword with this value is met: a long `enum` by what the evaluation has sorted. The only error is want of
    // memory.
    #[inline(always)]
    fn is_met(
        &mut self,
        keyword: Keyword,
        assertion: Assertion,
        keyword_value: &Doc,
        schema_use: &SchemaUse<'_, 'a>,
    ) -> Result<bool, AllocError>
        requires asserts { Some (assertion_view assertion)
            ≡ assertion_in (row_of keyword).meaning }
        ensures same { IsUntouched self.old self.new }
        ensures met { (a : Application) → IsApplicationOf self.old schema_use.now a
            → get (row_of keyword).name a.schema.value ≡ Some (value keyword_value.now)
            → IfOk result (λ b. b
            ≡ holds (assertion_view assertion) (value keyword_value.now) a.instance) }
    {
        match keyword {
            Keyword::Enum if !self.enumerations.may_walk(keyword_value) => {
                self.is_one_of(keyword_value, schema_use)
            }
            _ => Ok(holds_of(self.alloc, assertion, keyword_value, schema_use.subject)?),
        }
    }

    // Whether the instance is one of the values of the schema's `enum`, by what the evaluation has sorted. The only error is
    // want of memory. It is called apart, since few assertions get so far.
    #[inline(never)]
    fn is_one_of(
        &mut self,
        values: &Doc,
        schema_use: &SchemaUse<'_, 'a>,
    ) -> Result<bool, AllocError>
        ensures same { IsUntouched self.old self.new }
        ensures met { (a : Application) → IsApplicationOf self.old schema_use.now a
            → get (codes "enum") a.schema.value ≡ Some (value values.now)
            → IfOk result (λ b. b ≡ holds enum_of (value values.now) a.instance) }
    {
        let pointer = self.context.pointer(self.alloc)?;
        self.enumerations.holds(
            self.alloc,
            self.context.resource(),
            &pointer,
            values,
            schema_use.subject,
        )
    }

    // The keyword isn't met. The only error is want of memory.
    #[inline(never)]
    fn refuse(&mut self, keyword: Keyword) -> Result<bool, Halt>
        ensures stays { Stays self.old self.new result }
        ensures refused { IfOk result (λ b. b ≡ false) }
        ensures noted { (a : Application)
            → frame_standing (context_view self.old.context) ≡ standing_of a
            → OnOk result (Adds self.old self.new (record no_notes {
              errors = error_texts (unit a (row_of keyword).name
                  (string ((row_of keyword).name ++ codes " is not met"))
                  ∷ []);
            })) }
        ensures err { IfErr result (λ h. h ≡ Halt.NoRoom) }
    {
        self.context.enter_keyword(keyword)?;
        self.context.write_locations()?;
        self.log
            .push_error(self.context.location(), Says::NotMet(keyword))?;
        self.context.leave_keyword();
        Ok(false)
    }
}
