//! What each keyword applies, to which part of the instance.

ghost use Rattle.std.specs.Prelude.{◌≡◌, ◌≤◌, [], ℕ, List, Some, Contains, false, true, OnOk, map, option_map};
ghost use Rattle.definitions.specs.Values.{Text, Value, get};
ghost use Rattle.definitions.specs.Applied.{Application, Outcome, condition_outcome, keyword_applications};
ghost use Rattle.json_doc.specs.Docs.{value};
ghost use Rattle.json_doc.specs.NamedMembers.{name_text};
ghost use Rattle.keywords.specs.Rows.{row_of};
ghost use Rattle.keyword_plans.specs.ScopeViews.{scope_documents, scope_uris};
ghost use Rattle.keyword_plans.specs.SearchedIn.{searched_in};
ghost use Rattle.applicators.specs.Plans.{planned_view};
ghost use Rattle.keyword_plans.specs.Plans.{applies_in_place, follows_reference, is_consequence, searches_patterns, takes_others};
ghost use Rattle.keyword_plans.specs.Applications.{named_count};
ghost use Rattle.keyword_plans.specs.ObjectApplications.{Shows, linked_rules};
ghost use Rattle.applicators.specs.Subjects.{subject_value};
ghost use Rattle.linker.specs.LinkedDocuments.{linked_schemas};
ghost use Rattle.linker.specs.declared.linked.Linked.{Linked};

mod matching;
mod others;
mod references;

use crate::application::{Earlier, ObjectApplication};
use crate::dynamic_scope::DynamicScope;
use crate::planning::matching::plan_patterns;
use crate::planning::others::{are_all_named, plan_others};
use crate::planning::references::{plan_dynamic_reference, plan_reference};
use crate::searches::Searches;
use applicators::{
    Evaluated, Planned, Subject, plan_consequence, plan_dependents, plan_items, plan_listed,
    plan_names, plan_own, plan_prefix, plan_properties, plan_unevaluated_items,
    plan_unevaluated_properties, prefix_length,
};
use json_doc::Doc;
use keywords::Keyword;
use std::alloc::AllocError;

/// What the keyword of the schema, with this value, applies, in order (JSON Schema 2020-12 Core, 7.1, 10 and 11): it stands
/// in `planned` in place of all that stood there.
///
/// `then`, `else`, `unevaluatedItems` and `unevaluatedProperties` need what is known `earlier`. `scope` is the dynamic scope, the schema's own resource last, and keeps what is followed here, as `searches` keep the patterns that
/// are searched for. The only error is want of memory.
#[inline(always)]
pub fn plan<'a>(
    planned: &mut Vec<Planned<'a>>,
    scope: &mut DynamicScope<'a>,
    searches: &mut Searches<'a>,
    application: ObjectApplication<'a>,
    keyword: Keyword,
    keyword_value: &'a Doc,
    earlier: Earlier<'_, 'a>,
) -> Result<(), AllocError>
    ensures ok { (a : Application) (run : Application → Outcome) → Shows application.entry a
        → scope_documents scope.old ≡ application.entry.linked → a.scope ≡ scope_uris scope.old
        → searched_in searches.old ≡ application.entry.linked
        → get (row_of keyword).name a.schema.value ≡ Some (value keyword_value.now)
        → (is_consequence (row_of keyword).meaning ≡ true
        → option_map (λ o. o.valid) (condition_outcome run a) ≡ earlier.entry.condition)
        → OnOk result (map (planned_view (row_of keyword).name a) planned.new.items
        ≡ keyword_applications (linked_rules application.entry.linked.now) run
        (map name_text earlier.entry.evaluated.names.now)
        earlier.entry.evaluated.indexes.now a
        (row_of keyword).name (row_of keyword).meaning (value keyword_value.now)) }
    ensures uris { scope_uris scope.new ≡ scope_uris scope.old }
    ensures documents { scope_documents scope.new ≡ scope_documents scope.old }
    ensures searched { searched_in searches.new ≡ searched_in searches.old }
{
    planned.clear();
    match keyword {
        Keyword::Ref => plan_reference(planned, scope, &application, keyword_value),
        Keyword::DynamicRef => plan_dynamic_reference(planned, scope, &application, keyword_value),
        Keyword::PatternProperties => plan_patterns(planned, searches, &application, keyword_value),
        Keyword::AdditionalProperties => plan_others(
            planned,
            searches,
            &application,
            keyword_value,
        ),
        _ => plan_subschemas(
            planned,
            &application,
            keyword,
            keyword_value,
            earlier.condition,
            earlier.evaluated,
        ),
    }
}

/// Whether the keyword surely applies nothing: it is `additionalProperties`, and `properties` beside it takes all members of the
/// instance, of which it names so many at least.
#[inline(always)]
pub fn surely_applies_nothing(keyword: Keyword, subject: Subject<'_>, named: u64) -> bool
    ensures { (l : Linked) (a : Application) (run : Application → Outcome) (names : List Text)
        (indexes : List ℕ) (v : Value) → Contains (linked_schemas l) a.schema
        → a.instance ≡ subject_value subject.entry
        → (takes_others (row_of keyword).meaning ≡ true → named ≤ named_count a) → result ≡ true
        → keyword_applications (linked_rules l) run names indexes a
        (row_of keyword).name (row_of keyword).meaning v ≡ [] }
{
    match keyword {
        Keyword::AdditionalProperties => are_all_named(subject, named),
        _ => false,
    }
}

// What a keyword applies that follows no reference and searches for no pattern.
#[inline(always)]
fn plan_subschemas<'a>(
    planned: &mut Vec<Planned<'a>>,
    application: &ObjectApplication<'a>,
    keyword: Keyword,
    keyword_value: &'a Doc,
    condition: Option<bool>,
    evaluated: Evaluated<'_, 'a>,
) -> Result<(), AllocError>
    requires empty { planned.old.items ≡ [] }
    requires reference { follows_reference keyword ≡ false }
    requires pattern { searches_patterns keyword ≡ false }
    ensures { (a : Application) (run : Application → Outcome) → Shows application.now a
        → get (row_of keyword).name a.schema.value ≡ Some (value keyword_value.now)
        → (is_consequence (row_of keyword).meaning ≡ true
        → option_map (λ o. o.valid) (condition_outcome run a) ≡ condition)
        → OnOk result (map (planned_view (row_of keyword).name a) planned.new.items
        ≡ keyword_applications (linked_rules application.now.linked.now) run
        (map name_text evaluated.entry.names.now) evaluated.entry.indexes.now a
        (row_of keyword).name (row_of keyword).meaning (value keyword_value.now)) }
{
    let subject = &application.subject;
    match keyword {
        Keyword::AllOf => plan_listed(planned, keyword_value, subject),
        Keyword::AnyOf => plan_listed(planned, keyword_value, subject),
        Keyword::OneOf => plan_listed(planned, keyword_value, subject),
        Keyword::Not => plan_own(planned, keyword_value, subject),
        Keyword::If => plan_own(planned, keyword_value, subject),
        Keyword::Then => plan_consequence(planned, keyword_value, subject, condition, true),
        Keyword::Else => plan_consequence(planned, keyword_value, subject, condition, false),
        Keyword::DependentSchemas => plan_dependents(planned, keyword_value, subject),
        _ => plan_children(planned, application, keyword, keyword_value, evaluated),
    }
}

// What a keyword applies that applies nothing in place and searches for no pattern (Core, 10.3 and 11).
#[inline(always)]
fn plan_children<'a>(
    planned: &mut Vec<Planned<'a>>,
    application: &ObjectApplication<'a>,
    keyword: Keyword,
    keyword_value: &'a Doc,
    evaluated: Evaluated<'_, 'a>,
) -> Result<(), AllocError>
    requires empty { planned.old.items ≡ [] }
    requires place { applies_in_place keyword ≡ false }
    requires pattern { searches_patterns keyword ≡ false }
    ensures { (a : Application) (run : Application → Outcome) → Shows application.now a
        → get (row_of keyword).name a.schema.value ≡ Some (value keyword_value.now)
        → OnOk result (map (planned_view (row_of keyword).name a) planned.new.items
        ≡ keyword_applications (linked_rules application.now.linked.now) run
        (map name_text evaluated.entry.names.now) evaluated.entry.indexes.now a
        (row_of keyword).name (row_of keyword).meaning (value keyword_value.now)) }
{
    let subject = &application.subject;
    match keyword {
        Keyword::PrefixItems => plan_prefix(planned, keyword_value, subject),
        Keyword::Items => plan_items(
            planned,
            keyword_value,
            prefix_length(application.schema),
            subject,
        ),
        Keyword::Contains => plan_items(planned, keyword_value, 0, subject),
        Keyword::Properties => plan_properties(planned, keyword_value, subject),
        Keyword::PropertyNames => plan_names(planned, keyword_value, subject),
        Keyword::UnevaluatedItems => {
            plan_unevaluated_items(planned, keyword_value, subject, evaluated.indexes)
        }
        Keyword::UnevaluatedProperties => {
            plan_unevaluated_properties(planned, keyword_value, subject, evaluated.names)
        }
        _ => Ok(()),
    }
}
