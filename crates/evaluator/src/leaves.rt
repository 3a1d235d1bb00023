//! Schema objects that apply nothing: they assert, and may annotate (JSON Schema 2020-12 Core, 7.6 and 7.7).

ghost use Rattle.std.specs.Prelude.{◌≡◌};
ghost use Rattle.json_doc.specs.Docs.{value};

use crate::applying::Evaluation;
use crate::groups::first_groups;
use crate::halt::Halt;
use crate::present::Present;
use crate::schema_use::SchemaUse;
use crate::settling_object::settle_object;
use applicators::Subject;
use assertions::Assertion;
use keywords::Group;

impl<'a> Evaluation<'a> {
    ghost use Rattle.std.specs.Prelude.{◌<◌, [], ℕ, false, IfErr};
    ghost use Rattle.definitions.specs.Applied.{Application};
    ghost use Rattle.definitions.specs.Limits.{limits};
    ghost use Rattle.evaluator.specs.Applying.{Applies, HasOutcome, HasUses, IsApplicationOf, Stays, linked_object_outcome};
    ghost use Rattle.evaluator.specs.Groups.{asserts_alone, first_groups};
    ghost use Rattle.evaluator.specs.Leaves.{IsLeaf};
    ghost use Rattle.evaluator.specs.Rounds.{group_uses, groups_uses};

    /// Such a schema object. Nothing is applied within it, so it takes no place among those that run, nor in the dynamic
    /// scope. The only error is want of memory.
    pub(crate) fn apply_leaf(
        &mut self,
        present: &Present<'_, 'a>,
        subject: Subject<'a>,
    ) -> Result<bool, Halt>
        requires leaf { IsLeaf (value present.now.schema.now) }
        requires room { self.old.log.count < limits.applications }
        ensures stays { Stays self.old self.new result }
        ensures outcome { (a : Application) (left : ℕ)
            → Applies self.old present.now.schema.now subject.entry a
            → HasOutcome self.old self.new result
            (linked_object_outcome self.old.linked.now left a) }
        ensures err { IfErr result (λ h. h ≡ Halt.NoRoom) }
    {
        self.log.count_one();
        let mark = self.log.mark();
        let valid = self.use_assertions(&SchemaUse {
            present: &*present,
            subject,
            before: mark.before(),
        })?;
        settle_object(
            &mut self.context,
            &mut self.log,
            &mark,
            present,
            subject,
            valid,
        )?;
        Ok(valid)
    }

    // The groups that the object may have, in order: whether all pass. The only error is want of memory.
    fn use_assertions(&mut self, schema_use: &SchemaUse<'_, 'a>) -> Result<bool, Halt>
        requires leaf { IsLeaf (value schema_use.now.present.now.schema.now) }
        ensures stays { Stays self.old self.new result }
        ensures outcome { (a : Application) (left : ℕ) → IsApplicationOf self.old schema_use.now a
            → HasUses self.old self.new result a
            (groups_uses self.old.linked.now left a first_groups) }
        ensures err { IfErr result (λ h. h ≡ Halt.NoRoom) }
    {
        let groups = first_groups();
        let mut valid = true;
        let mut next = schema_use.present.first_mark(0);
        while next < groups.len() {
            let passes = self.use_asserting(groups[next], schema_use)?;
            valid &= passes;
            next = schema_use.present.first_mark(next + 1);
        }
        Ok(valid)
    }

    // A group that asserts, or that isn't there: whether it passes. The only error is want of memory.
    fn use_asserting(&mut self, group: Group, schema_use: &SchemaUse<'_, 'a>) -> Result<bool, Halt>
        ensures stays { Stays self.old self.new result }
        ensures outcome { (a : Application) (left : ℕ) → IsApplicationOf self.old schema_use.now a
            → (asserts_alone group ≡ false → group_uses self.old.linked.now left a group ≡ [])
            → HasUses self.old self.new result a (group_uses self.old.linked.now left a group) }
        ensures err { IfErr result (λ h. h ≡ Halt.NoRoom) }
    {
        match group {
            Group::One(keyword) => match Assertion::of(keyword) {
                Some(assertion) => self.use_assertion(keyword, assertion, schema_use),
                None => Ok(true),
            },
            Group::Conditional => Ok(true),
            Group::Counted => Ok(true),
            Group::Empty => Ok(true),
        }
    }
}
