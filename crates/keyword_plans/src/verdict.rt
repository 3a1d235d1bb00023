//! Whether a keyword passes.

ghost use Rattle.std.specs.Prelude.{◌≡◌, ◌||◌, ℕ, List, Option, Some, true, IfOk, codes, count_by, length, nat_lt, not, option_map};
ghost use Rattle.assertions.specs.AssertionView.{assertion_view};
ghost use Rattle.definitions.specs.Values.{Text, get, integer, is_array, string};
ghost use Rattle.definitions.specs.Assertions.{holds, is_at_least, is_at_most};
ghost use Rattle.definitions.specs.Patterns.{has_match};
ghost use Rattle.definitions.specs.Applied.{Application, Outcome, beside, contains_outcomes};
ghost use Rattle.definitions.specs.Evaluated.{contains_holds, keyword_passes, needs_none, pass_count, pattern_holds};
ghost use Rattle.json_doc.specs.Docs.{value};
ghost use Rattle.keywords.specs.Rows.{row_of};
ghost use Rattle.applicators.specs.Plans.{outcomes_of};
ghost use Rattle.keyword_plans.specs.Plans.{counts_contained};
ghost use Rattle.keyword_plans.specs.SearchedIn.{searched_in};
ghost use Rattle.keyword_plans.specs.ObjectApplications.{Shows, linked_rules};
ghost use Rattle.applicators.specs.Subjects.{subject_value};

use crate::application::ObjectApplication;
use crate::searches::Searches;
use applicators::Subject;
use assertions::{Assertion, holds, is_at_least, is_at_most};
use json_doc::{Doc, Whole};
use keywords::Keyword;
use std::alloc::{AllocError, Global};

/// Whether the keyword of the schema, with this value, passes, by what the schemas that it applied said: `applied` is how
/// many there were, and `passing` how many of them passed.
///
/// `minContains` and `maxContains` need `containing`, the number of elements that `contains` beside found, where it is
/// there. The only error is want of memory.
pub fn passes<'a>(
    searches: &mut Searches<'a>,
    application: ObjectApplication<'a>,
    keyword: Keyword,
    keyword_value: &'a Doc,
    applied: u64,
    passing: u64,
    containing: Option<u64>,
) -> Result<bool, AllocError>
    ensures passes { (a : Application) (run : Application → Outcome) (names : List Text)
        (indexes : List ℕ) → Shows application.entry a → searched_in searches.old
        ≡ application.entry.linked
        → get (row_of keyword).name a.schema.value ≡ Some (value keyword_value.now)
        → (counts_contained (row_of keyword).meaning ≡ true
        → option_map (count_by (λ o. o.valid)) (contains_outcomes run a) ≡ containing)
        → let os = outcomes_of (linked_rules application.entry.linked.now) run names indexes a
        (row_of keyword).name (row_of keyword).meaning (value keyword_value.now) in
        applied ≡ length os → passing ≡ pass_count os
        → IfOk result (λ b. b ≡ keyword_passes (linked_rules application.entry.linked.now) run a
        (row_of keyword).name (row_of keyword).meaning (value keyword_value.now) os) }
    ensures searched { searched_in searches.new ≡ searched_in searches.old }
{
    if let Some(assertion) = Assertion::of(keyword) {
        return holds_of(
            searches.allocator(),
            assertion,
            keyword_value,
            application.subject,
        );
    }
    match keyword {
        Keyword::Pattern => is_pattern_met(searches, application, keyword_value),
        Keyword::Ref => Ok(passing == 1),
        Keyword::DynamicRef => Ok(passing == 1),
        Keyword::AnyOf => Ok(passing > 0),
        Keyword::OneOf => Ok(passing == 1),
        Keyword::Not => Ok(passing == 0),
        Keyword::If => Ok(true),
        Keyword::Contains => Ok(contains_enough(passing, application)),
        Keyword::MinContains => Ok(contains_at_least(
            application.subject,
            keyword_value,
            containing,
        )),
        Keyword::MaxContains => Ok(contains_at_most(
            application.subject,
            keyword_value,
            containing,
        )),
        _ => Ok(passing == applied),
    }
}

/// Whether the keyword that makes this assertion, with this value, holds of what the schema is applied to. The only error
/// is want of memory.
#[inline(always)]
pub fn holds_of(
    alloc: Global,
    assertion: Assertion,
    keyword_value: &Doc,
    subject: Subject<'_>,
) -> Result<bool, AllocError>
    ensures { IfOk result (λ b. b
        ≡ holds (assertion_view assertion) (value keyword_value.now)
        (subject_value subject.entry)) }
{
    match subject {
        Subject::Value(doc) => holds(alloc, assertion, keyword_value, doc),
        Subject::Name(name) => holds_of_name(alloc, assertion, keyword_value, name.as_str()),
    }
}

// Whether the keyword that makes this assertion, with this value, holds of a name. The only error is want of memory. It is called
// apart, since few assertions are made of names.
#[inline(never)]
fn holds_of_name(
    alloc: Global,
    assertion: Assertion,
    keyword_value: &Doc,
    name: &str,
) -> Result<bool, AllocError>
    ensures { IfOk result (λ b. b
        ≡ holds (assertion_view assertion) (value keyword_value.now) (string name.now)) }
{
    let name = Doc::string(alloc, name)?;
    holds(alloc, assertion, keyword_value, &name)
}

// Whether the pattern matches the subject, where it is a string (Validation, 6.3.3).
fn is_pattern_met(
    searches: &mut Searches<'_>,
    application: ObjectApplication<'_>,
    pattern: &Doc,
) -> Result<bool, AllocError>
    ensures met { (a : Application) → Shows application.entry a
        → searched_in searches.old ≡ application.entry.linked
        → get (codes "pattern") a.schema.value ≡ Some (value pattern.now)
        → IfOk result (λ b. b ≡ pattern_holds has_match (value pattern.now) a.instance) }
    ensures searched { searched_in searches.new ≡ searched_in searches.old }
{
    match pattern.as_str() {
        Some(pattern) => match application.subject.as_str() {
            Some(text) => searches.is_match(application.resource, pattern, text),
            None => Ok(true),
        },
        None => Ok(true),
    }
}

// Whether so many passing elements are enough for `contains` (Core, 10.3.1.3): one at least, unless `minContains` beside
// is 0.
fn contains_enough(passing: u64, application: ObjectApplication<'_>) -> bool
    ensures { (a : Application) → Shows application.entry a
        → result ≡ (not (is_array a.instance)
        || (nat_lt 0 passing || needs_none (beside a (codes "minContains")))) }
{
    !application.subject.is_array() || passing > 0 || needs_none(application.schema)
}

fn needs_none(schema: &Doc) -> bool
    ensures { (a : Application) → a.schema.value ≡ value schema.now
        → result ≡ needs_none (beside a (codes "minContains")) }
{
    match schema.keyword_value(Keyword::MinContains) {
        Some(least) => is_zero(least),
        None => false,
    }
}

fn is_zero(doc: &Doc) -> bool
    ensures { result ≡ needs_none (value doc.now) }
{
    match doc {
        Doc::Int(number) => is_zero_number(*number),
        _ => false,
    }
}

fn is_zero_number(number: Whole) -> bool
    ensures { result ≡ needs_none (integer number) }
{
    match number.as_u64() {
        Some(natural) => natural == 0,
        None => false,
    }
}

// Whether `contains` beside found at least so many elements of the array (Validation, 6.4.5).
fn contains_at_least(subject: Subject<'_>, least: &Doc, containing: Option<u64>) -> bool
    ensures { (os : Option (List Outcome)) → option_map (count_by (λ o. o.valid)) os ≡ containing
        → result ≡ contains_holds (is_at_least (value least.now))
        (is_array (subject_value subject.entry)) os }
{
    match containing {
        Some(count) => !subject.is_array() || is_at_least(count, least),
        None => true,
    }
}

// Whether `contains` beside found at most so many elements of the array (Validation, 6.4.4).
fn contains_at_most(subject: Subject<'_>, most: &Doc, containing: Option<u64>) -> bool
    ensures { (os : Option (List Outcome)) → option_map (count_by (λ o. o.valid)) os ≡ containing
        → result ≡ contains_holds (is_at_most (value most.now))
        (is_array (subject_value subject.entry)) os }
{
    match containing {
        Some(count) => !subject.is_array() || is_at_most(count, most),
        None => true,
    }
}
