//! Members that no keyword beside takes (JSON Schema 2020-12 Core, 10.3.2.3).

ghost use Rattle.std.specs.Prelude.{◌≡◌, ◌≤◌, [], Contains, true, codes, map, option_map, unwrap_or, is_some, IfOk, IfErr, OnOk};
ghost use Rattle.std.specs.List.{All, list_any};
ghost use Rattle.definitions.specs.Values.{Text, Value, entry, members};
ghost use Rattle.definitions.specs.Patterns.{has_match};
ghost use Rattle.definitions.specs.Schemas.{Schema};
ghost use Rattle.definitions.specs.Applied.{Application, beside, is_taken};
ghost use Rattle.json_doc.specs.Docs.{value, members_value};
ghost use Rattle.keyword_plans.specs.Applications.{ArePatternsOf, named_count, planned_others, planned_unnamed};
ghost use Rattle.applicators.specs.Subjects.{subject_value};
ghost use Rattle.linker.specs.LinkedDocuments.{linked_schemas};
ghost use Rattle.linker.specs.declared.linked.Linked.{Linked};
ghost use Rattle.keyword_plans.specs.Beside.{AreTakers, StandsBeside};
ghost use Rattle.keywords.specs.Rows.{row_of};
ghost use Rattle.keyword_plans.specs.NumberedPatterns.{IsNumbered, numbered_view};
ghost use Rattle.applicators.specs.Plans.{planned_view};
ghost use Rattle.keyword_plans.specs.SearchedIn.{searched_in};
ghost use Rattle.keyword_plans.specs.ObjectApplications.{Shows, linked_rules};

use crate::application::ObjectApplication;
use crate::numbered_pattern::{NumberedPattern, push_numbered};
use crate::planning::matching::is_matched;
use crate::searches::Searches;
use applicators::{FAR_LONGER, Part, Planned, Subject, Way, members_of};
use json_doc::{Doc, Members};
use keywords::Keyword;
use std::alloc::AllocError;

// The keywords beside `additionalProperties` that take members.
#[derive(Clone, Copy)]
struct PropertyKeywords<'a> {
    // The members of `properties`, and of `patternProperties`.
    properties: Option<&'a Members>,
    patterns: Option<&'a Members>,
    // The URI of the resource that they stand in.
    resource: &'a str,
}

// The keywords beside `additionalProperties` that take members, where the patterns have their numbers.
#[derive(Clone, Copy)]
struct Takers<'s, 'a> {
    properties: Option<&'a Members>,
    patterns: &'s [NumberedPattern<'a>],
}

/// Whether `additionalProperties` surely applies nothing, since `properties` beside it takes all members of the instance, of
/// which it names so many at least.
#[inline(always)]
pub(crate) fn are_all_named(subject: Subject<'_>, named: u64) -> bool
    ensures { (l : Linked) (a : Application) (k : Text) (v : Value)
        → Contains (linked_schemas l) a.schema → a.instance ≡ subject_value subject.entry
        → named ≤ named_count a → result ≡ true
        → planned_others l k a v (members a.instance) ≡ [] }
{
    match subject.members() {
        Some(members) => {
            // Its contract says that the names are in order.
            let _ = members.iter();
            named >= members.len() as u64
        }
        None => true,
    }
}

/// The schema, at each member of the instance that neither `properties` nor `patternProperties` beside takes.
pub(crate) fn plan_others<'a>(
    planned: &mut Vec<Planned<'a>>,
    searches: &mut Searches<'a>,
    application: &ObjectApplication<'a>,
    schema: &'a Doc,
) -> Result<(), AllocError>
    requires { planned.old.items ≡ [] }
    ensures ok { (a : Application) (k : Text) → Shows application.now a
        → searched_in searches.old ≡ application.now.linked
        → OnOk result (map (planned_view k a) planned.new.items
        ≡ planned_others application.now.linked.now k a (value schema.now) (members a.instance)) }
    ensures searched { searched_in searches.new ≡ searched_in searches.old }
{
    match application.subject.members() {
        Some(members) => {
            plan_untaken(
                planned,
                searches,
                keywords_beside(application),
                schema,
                members,
            )
        },
        None => Ok(()),
    }
}

fn keywords_beside<'a>(application: &ObjectApplication<'a>) -> PropertyKeywords<'a>
    ensures { (a : Application) → Shows application.now a
        → StandsBeside application.now.linked.now result a }
{
    PropertyKeywords {
        properties: members_beside(application.schema, Keyword::Properties),
        patterns: members_beside(application.schema, Keyword::PatternProperties),
        resource: application.resource,
    }
}

#[inline(always)]
fn members_beside<'a>(schema: &'a Doc, keyword: Keyword) -> Option<&'a Members>
    ensures { (a : Application) → a.schema.value ≡ value schema.now
        → unwrap_or (option_map (λ m. members_value m.now) result) []
        ≡ members (beside a (row_of keyword).name) }
{
    match schema.keyword_value(keyword) {
        Some(doc) => members_of(doc),
        None => None,
    }
}

// Along both `properties` and the members, where there are no patterns, unless there are far more schemas.
fn plan_untaken<'a>(
    planned: &mut Vec<Planned<'a>>,
    searches: &mut Searches<'a>,
    beside: PropertyKeywords<'a>,
    schema: &'a Doc,
    members: &'a Members,
) -> Result<(), AllocError>
    requires { planned.old.items ≡ [] }
    ensures ok { (a : Application) (k : Text)
        → StandsBeside (searched_in searches.old).now beside.entry a
        → OnOk result (map (planned_view k a) planned.new.items
        ≡ planned_others (searched_in searches.old).now k a (value schema.now)
        (members_value members.now)) }
    ensures searched { searched_in searches.new ≡ searched_in searches.old }
{
    match (beside.properties, beside.patterns) {
        (Some(schemas), None) if schemas.len() / FAR_LONGER <= members.len() => {
            plan_unnamed(planned, schemas, schema, members)
        }
        _ => plan_each_untaken(planned, searches, beside, schema, members),
    }
}

// Along both: a member that takes none of the schemas that are left has none of its name.
fn plan_unnamed<'a>(
    planned: &mut Vec<Planned<'a>>,
    schemas: &Members,
    schema: &'a Doc,
    members: &'a Members,
) -> Result<(), AllocError>
    requires { planned.old.items ≡ [] }
    ensures { (a : Application) (k : Text)
        → OnOk result (map (planned_view k a) planned.new.items
        ≡ planned_unnamed k a (value schema.now) (members_value schemas.now)
        (members_value members.now)) }
{
    let mut other_schemas = schemas.iter().named();
    for (name, member) in members.iter().named() {
        if other_schemas.take_named(name).is_none() {
            planned.push(Planned {
                way: Way::Own,
                schema,
                part: Part::Member(name),
                subject: Subject::Value(member),
            })?;
        }
    }
    Ok(())
}

fn plan_each_untaken<'a>(
    planned: &mut Vec<Planned<'a>>,
    searches: &mut Searches<'a>,
    beside: PropertyKeywords<'a>,
    schema: &'a Doc,
    members: &'a Members,
) -> Result<(), AllocError>
    requires { planned.old.items ≡ [] }
    ensures ok { (a : Application) (k : Text)
        → StandsBeside (searched_in searches.old).now beside.entry a
        → OnOk result (map (planned_view k a) planned.new.items
        ≡ planned_others (searched_in searches.old).now k a (value schema.now)
        (members_value members.now)) }
    ensures searched { searched_in searches.new ≡ searched_in searches.old }
{
    let mut numbered = searches.take_numbered();
    push_patterns(&mut numbered, searches, beside)?;
    let takers = Takers {
        properties: beside.properties,
        patterns: &numbered,
    };
    push_untaken(planned, searches, takers, schema, members)?;
    searches.give_back(numbered);
    Ok(())
}

// The patterns of these keywords, with their numbers. The only error is want of memory.
fn push_patterns<'a>(
    numbered: &mut Vec<NumberedPattern<'a>>,
    searches: &mut Searches<'a>,
    keywords: PropertyKeywords<'a>,
) -> Result<(), AllocError>
    requires { numbered.old.items ≡ [] }
    ensures patterns { (a : Application)
        → StandsBeside (searched_in searches.old).now keywords.entry a
        → OnOk result (map numbered_view numbered.new.items
        ≡ members (beside a (codes "patternProperties"))) }
    ensures numbers { (a : Application)
        → StandsBeside (searched_in searches.old).now keywords.entry a
        → OnOk result (All (IsNumbered (searched_in searches.old).now) numbered.new.items) }
    ensures searched { searched_in searches.new ≡ searched_in searches.old }
{
    match keywords.patterns {
        Some(patterns) => push_numbered(numbered, searches, keywords.resource, patterns),
        None => Ok(()),
    }
}

// Each of the members that nothing takes.
fn push_untaken<'a>(
    planned: &mut Vec<Planned<'a>>,
    searches: &mut Searches<'a>,
    takers: Takers<'_, 'a>,
    schema: &'a Doc,
    members: &'a Members,
) -> Result<(), AllocError>
    requires { planned.old.items ≡ [] }
    ensures ok { (a : Application) (k : Text)
        → AreTakers (searched_in searches.old).now takers.entry a
        → OnOk result (map (planned_view k a) planned.new.items
        ≡ planned_others (searched_in searches.old).now k a (value schema.now)
        (members_value members.now)) }
    ensures searched { searched_in searches.new ≡ searched_in searches.old }
{
    for (name, member) in members.iter().named() {
        if !is_taken(searches, takers, name.as_str())? {
            planned.push(Planned {
                way: Way::Own,
                schema,
                part: Part::Member(name),
                subject: Subject::Value(member),
            })?;
        }
    }
    Ok(())
}

// Whether a keyword beside takes the member of this name.
fn is_taken(
    searches: &mut Searches<'_>,
    takers: Takers<'_, '_>,
    name: &str,
) -> Result<bool, AllocError>
    ensures ok { (a : Application) → AreTakers (searched_in searches.old).now takers.entry a
        → IfOk result (λ b. b
        ≡ is_taken (linked_rules (searched_in searches.old).now) a name.now) }
    ensures searched { searched_in searches.new ≡ searched_in searches.old }
{
    if is_named(takers.properties, name) {
        return Ok(true);
    }
    is_matched(searches, takers.patterns, name)
}

fn is_named(schemas: Option<&Members>, name: &str) -> bool
    ensures { result ≡ is_some
        (entry name.now (unwrap_or (option_map (λ m. members_value m.now) schemas.entry) [])) }
{
    match schemas {
        Some(schemas) => schemas.get(name).is_some(),
        None => false,
    }
}
