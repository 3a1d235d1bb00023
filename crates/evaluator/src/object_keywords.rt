//! The keywords of a schema object, in the order of their evaluation (JSON Schema 2020-12 Core, 10 and 11).

ghost use Rattle.std.specs.Prelude.{◌≡◌};

use crate::applying::Evaluation;
use crate::groups::first_groups;
use crate::halt::Halt;
use crate::schema_use::SchemaUse;
use crate::siblings::Siblings;
use assertions::Assertion;
use keywords::{Group, Keyword};

impl<'a> Evaluation<'a> {
    ghost use Rattle.std.specs.Prelude.{◌≤◌, ℕ, true, IfSome, OnOk};
    ghost use Rattle.definitions.specs.Applied.{Application};
    ghost use Rattle.keywords.specs.Rows.{row_of};
    ghost use Rattle.evaluator.specs.Applying.{HasUses, IsApplicationOf, Stays, two_uses_now, uses_now};
    ghost use Rattle.evaluator.specs.Findings.{passing_first};
    ghost use Rattle.evaluator.specs.Groups.{first_groups, stands_alone};
    ghost use Rattle.keywords.specs.declared.group.Group.TheVariants.{One, Conditional, Counted};
    ghost use Rattle.keywords.specs.declared.keyword.Keyword.TheVariants.{Properties};
    ghost use Rattle.keyword_plans.specs.Applications.{named_count};
    ghost use Rattle.evaluation_log.specs.Logs.{log_view};
    ghost use Rattle.evaluator.specs.Rounds.{Knows, evaluated_in, group_uses, groups_uses, object_uses};

    /// All keywords of a schema object, and last those that look at what the others evaluated: whether all pass.
    #[cycle(apply)]
    pub(crate) fn use_keywords(
        &mut self,
        schema_use: &SchemaUse<'_, 'a>,
        nesting: u32,
    ) -> Result<bool, Halt>
        requires before { schema_use.now.before ≡ evaluated_in (log_view self.old.log) }
        ensures stays { Stays self.old self.new result }
        ensures outcome { (a : Application) → IsApplicationOf self.old schema_use.now a
            → HasUses self.old self.new result a (object_uses self.old.linked.now nesting a) }
    {
        match self.use_groups(schema_use, nesting) {
            Ok(valid) => {
                if !schema_use.present.looks_at_evaluated() {
                    return Ok(valid);
                }
                match self.use_two(
                    Keyword::UnevaluatedItems,
                    Keyword::UnevaluatedProperties,
                    schema_use,
                    Siblings::nothing(),
                    nesting,
                ) {
                    Ok(last) => Ok(valid & last),
                    Err(fault) => Err(fault),
                }
            }
            Err(fault) => Err(fault),
        }
    }

    /// The groups of keywords that the schema may have, in order: whether all pass.
    #[cycle(apply)]
    fn use_groups(&mut self, schema_use: &SchemaUse<'_, 'a>, nesting: u32) -> Result<bool, Halt>
        ensures stays { Stays self.old self.new result }
        ensures outcome { (a : Application) → IsApplicationOf self.old schema_use.now a
            → HasUses self.old self.new result a
            (groups_uses self.old.linked.now nesting a first_groups) }
    {
        let groups = first_groups();
        let mut valid = true;
        let mut named = 0;
        let mut next = schema_use.present.first_mark(0);
        while next < groups.len() {
            match self.use_group(groups[next], schema_use, named, nesting) {
                Ok(passes) => valid &= passes,
                Err(fault) => return Err(fault),
            }
            named = self.named_after(groups[next], named);
            next = schema_use.present.first_mark(next + 1);
        }
        Ok(valid)
    }

    /// How many members `properties` names at least, after this group: so many of its schemas passed, if it was it.
    fn named_after(&self, group: Group, named: u64) -> u64
        ensures { (most : ℕ) → named ≤ most → (group ≡ One Properties
            → IfSome self.now.passing (λ passing. passing ≤ most)) → result ≤ most }
    {
        match group {
            Group::One(Keyword::Properties) => self.passing.unwrap_or(0),
            _ => named,
        }
    }

    /// A group of keywords, where `properties` names so many members of the instance at least.
    #[cycle(apply)]
    fn use_group(
        &mut self,
        group: Group,
        schema_use: &SchemaUse<'_, 'a>,
        named: u64,
        nesting: u32,
    ) -> Result<bool, Halt>
        requires alone { stands_alone group ≡ true }
        ensures stays { Stays self.old self.new result }
        ensures outcome { (a : Application) → IsApplicationOf self.old schema_use.now a
            → named ≤ named_count a
            → HasUses self.old self.new result a (group_uses self.old.linked.now nesting a group) }
        ensures passing { (a : Application) → IsApplicationOf self.old schema_use.now a
            → named ≤ named_count a
            → group ≡ One Properties
            → OnOk result (self.new.passing
            ≡ passing_first (group_uses self.old.linked.now nesting a group)) }
    {
        match group {
            Group::One(keyword) => self.use_one(keyword, schema_use, named, nesting),
            Group::Conditional => self.use_conditional(schema_use, nesting),
            Group::Counted => self.use_counted(schema_use, nesting),
            Group::Empty => Ok(true),
        }
    }

    /// A keyword that asks its siblings for nothing, but for how many members of the instance `properties` names at
    /// least.
    #[cycle(apply)]
    fn use_one(
        &mut self,
        keyword: Keyword,
        schema_use: &SchemaUse<'_, 'a>,
        named: u64,
        nesting: u32,
    ) -> Result<bool, Halt>
        requires alone { stands_alone (One keyword) ≡ true }
        ensures stays { Stays self.old self.new result }
        ensures outcome { (a : Application) → IsApplicationOf self.old schema_use.now a
            → named ≤ named_count a
            → HasUses self.old self.new result a
            (group_uses self.old.linked.now nesting a (One keyword)) }
        ensures passing { (a : Application) → IsApplicationOf self.old schema_use.now a
            → named ≤ named_count a
            → keyword ≡ Properties
            → OnOk result (self.new.passing
            ≡ passing_first (group_uses self.old.linked.now nesting a (One keyword))) }
    {
        match Assertion::of(keyword) {
            Some(assertion) => self.use_assertion(keyword, assertion, schema_use),
            None => self.use_named(
                keyword,
                schema_use,
                Siblings::after_properties(named),
                nesting,
            ),
        }
    }

    /// `if`, and then `then` and `else` (Core, 10.2.2).
    #[cycle(apply)]
    fn use_conditional(
        &mut self,
        schema_use: &SchemaUse<'_, 'a>,
        nesting: u32,
    ) -> Result<bool, Halt>
        ensures stays { Stays self.old self.new result }
        ensures outcome { (a : Application) → IsApplicationOf self.old schema_use.now a
            → HasUses self.old self.new result a
            (group_uses self.old.linked.now nesting a Conditional) }
    {
        match self.use_named(Keyword::If, schema_use, Siblings::nothing(), nesting) {
            Ok(valid) => {
                let siblings = Siblings::after_if(self.passing);
                match self.use_two(Keyword::Then, Keyword::Else, schema_use, siblings, nesting) {
                    Ok(others) => Ok(valid & others),
                    Err(fault) => Err(fault),
                }
            }
            Err(fault) => Err(fault),
        }
    }

    /// `contains`, and then `minContains` and `maxContains` (Core, 10.3.1.3; Validation, 6.4.4 and 6.4.5).
    #[cycle(apply)]
    fn use_counted(&mut self, schema_use: &SchemaUse<'_, 'a>, nesting: u32) -> Result<bool, Halt>
        ensures stays { Stays self.old self.new result }
        ensures outcome { (a : Application) → IsApplicationOf self.old schema_use.now a
            → HasUses self.old self.new result a
            (group_uses self.old.linked.now nesting a Counted) }
    {
        match self.use_named(Keyword::Contains, schema_use, Siblings::nothing(), nesting) {
            Ok(valid) => {
                let siblings = Siblings::after_contains(self.passing);
                match self.use_two(
                    Keyword::MinContains,
                    Keyword::MaxContains,
                    schema_use,
                    siblings,
                    nesting,
                ) {
                    Ok(others) => Ok(valid & others),
                    Err(fault) => Err(fault),
                }
            }
            Err(fault) => Err(fault),
        }
    }

    /// Two keywords, one after the other.
    #[cycle(apply)]
    fn use_two(
        &mut self,
        first: Keyword,
        second: Keyword,
        schema_use: &SchemaUse<'_, 'a>,
        siblings: Siblings,
        nesting: u32,
    ) -> Result<bool, Halt>
        ensures stays { Stays self.old self.new result }
        ensures outcome { (a : Application) → IsApplicationOf self.old schema_use.now a
            → Knows self.old.linked.now nesting a (row_of first).meaning siblings
            → Knows self.old.linked.now nesting a (row_of second).meaning siblings
            → HasUses self.old self.new result a
            (two_uses_now self.old schema_use.now first second nesting a) }
    {
        match self.use_named(first, schema_use, siblings, nesting) {
            Ok(valid) => match self.use_named(second, schema_use, siblings, nesting) {
                Ok(last) => Ok(valid & last),
                Err(fault) => Err(fault),
            },
            Err(fault) => Err(fault),
        }
    }

    /// A keyword of the schema, where it is there.
    #[cycle(apply)]
    #[inline(always)]
    fn use_named(
        &mut self,
        keyword: Keyword,
        schema_use: &SchemaUse<'_, 'a>,
        siblings: Siblings,
        nesting: u32,
    ) -> Result<bool, Halt>
        ensures stays { Stays self.old self.new result }
        ensures outcome { (a : Application) → IsApplicationOf self.old schema_use.now a
            → Knows self.old.linked.now nesting a (row_of keyword).meaning siblings
            → HasUses self.old self.new result a
            (uses_now self.old schema_use.now keyword nesting a) }
        ensures passing { (a : Application) → IsApplicationOf self.old schema_use.now a
            → Knows self.old.linked.now nesting a (row_of keyword).meaning siblings
            → OnOk result (self.new.passing
            ≡ passing_first (uses_now self.old schema_use.now keyword nesting a)) }
    {
        match schema_use.present.value(keyword) {
            Some(keyword_value) => {
                self.use_keyword(keyword, keyword_value, schema_use, siblings, nesting)
            }
            None => {
                self.passing = None;
                Ok(true)
            }
        }
    }
}
