//! Members whose names match patterns (JSON Schema 2020-12 Core, 10.3.2.2).

ghost use Rattle.std.specs.Prelude.{◌≡◌, [], ◌++◌, Some, map, codes, IfOk, IfErr, OnOk};
ghost use Rattle.std.specs.List.{All, list_any};
ghost use Rattle.definitions.specs.Values.{Text, get, members};
ghost use Rattle.definitions.specs.Patterns.{has_match};
ghost use Rattle.definitions.specs.Schemas.{Schema};
ghost use Rattle.definitions.specs.Applied.{Application};
ghost use Rattle.json_doc.specs.Docs.{value, members_value};
ghost use Rattle.json_doc.specs.NamedMembers.{name_text};
ghost use Rattle.keyword_plans.specs.Applications.{ArePatternsOf, planned_matches, planned_pattern};
ghost use Rattle.keyword_plans.specs.NumberedPatterns.{IsNumbered, numbered_view};
ghost use Rattle.applicators.specs.Plans.{planned_view};
ghost use Rattle.keyword_plans.specs.SearchedIn.{searched_in};
ghost use Rattle.keyword_plans.specs.ObjectApplications.{Shows};

use crate::application::ObjectApplication;
use crate::numbered_pattern::{NumberedPattern, push_numbered};
use crate::searches::Searches;
use applicators::{Part, Planned, Subject, Way, members_of};
use json_doc::{Doc, Members, Name};
use std::alloc::AllocError;

/// The schemas under the patterns that match a name of the instance, at that member.
pub(crate) fn plan_patterns<'a>(
    planned: &mut Vec<Planned<'a>>,
    searches: &mut Searches<'a>,
    application: &ObjectApplication<'a>,
    schemas: &'a Doc,
) -> Result<(), AllocError>
    requires { planned.old.items ≡ [] }
    ensures ok { (a : Application) (k : Text) → Shows application.now a
        → searched_in searches.old ≡ application.now.linked
        → get (codes "patternProperties") a.schema.value ≡ Some (value schemas.now)
        → OnOk result (map (planned_view k a) planned.new.items
        ≡ planned_pattern k a (members (value schemas.now)) (members a.instance)) }
    ensures searched { searched_in searches.new ≡ searched_in searches.old }
{
    match members_of(schemas) {
        Some(patterns) => match application.subject.members() {
            Some(members) => plan_matched(
                planned,
                searches,
                application.resource,
                patterns,
                members,
            ),
            None => Ok(()),
        },
        None => Ok(()),
    }
}

fn plan_matched<'a>(
    planned: &mut Vec<Planned<'a>>,
    searches: &mut Searches<'a>,
    resource: &str,
    patterns: &'a Members,
    members: &'a Members,
) -> Result<(), AllocError>
    requires { planned.old.items ≡ [] }
    ensures ok { (a : Application) (k : Text) (s : Schema)
        → ArePatternsOf (searched_in searches.old).now resource.now s (members_value patterns.now)
        → OnOk result (map (planned_view k a) planned.new.items
        ≡ planned_pattern k a (members_value patterns.now) (members_value members.now)) }
    ensures searched { searched_in searches.new ≡ searched_in searches.old }
{
    let mut numbered = searches.take_numbered();
    push_numbered(&mut numbered, searches, resource, patterns)?;
    plan_numbered(planned, searches, &numbered, members)?;
    searches.give_back(numbered);
    Ok(())
}

// Plans the schemas under the patterns that match the name of one of these members, at that member. The patterns have
// their numbers.
fn plan_numbered<'a>(
    planned: &mut Vec<Planned<'a>>,
    searches: &mut Searches<'a>,
    patterns: &[NumberedPattern<'a>],
    members: &'a Members,
) -> Result<(), AllocError>
    requires { planned.old.items ≡ [] }
    ensures ok { (a : Application) (k : Text)
        → All (IsNumbered (searched_in searches.old).now) patterns.now
        → OnOk result (map (planned_view k a) planned.new.items
        ≡ planned_pattern k a (map numbered_view patterns.now) (members_value members.now)) }
    ensures searched { searched_in searches.new ≡ searched_in searches.old }
{
    for (name, member) in members.iter().named() {
        push_matches(planned, searches, patterns, name, member)?;
    }
    Ok(())
}

fn push_matches<'a>(
    planned: &mut Vec<Planned<'a>>,
    searches: &mut Searches<'a>,
    patterns: &[NumberedPattern<'a>],
    name: Name<'a>,
    member: &'a Doc,
) -> Result<(), AllocError>
    ensures ok { (a : Application) (k : Text)
        → All (IsNumbered (searched_in searches.old).now) patterns.now
        → OnOk result (map (planned_view k a) planned.new.items
        ≡ map (planned_view k a) planned.old.items
        ++ planned_matches k a (name_text name.entry) (value member.now)
        (map numbered_view patterns.now)) }
    ensures searched { searched_in searches.new ≡ searched_in searches.old }
{
    for one in patterns {
        if searches.matches(one, name.as_str())? {
            planned.push(Planned {
                way: Way::Member(one.pattern),
                schema: one.schema,
                part: Part::Member(name),
                subject: Subject::Value(member),
            })?;
        }
    }
    Ok(())
}

/// Whether one of the patterns matches the name.
pub(crate) fn is_matched(
    searches: &mut Searches<'_>,
    patterns: &[NumberedPattern<'_>],
    name: &str,
) -> Result<bool, AllocError>
    ensures ok { All (IsNumbered (searched_in searches.old).now) patterns.now
        → IfOk result (λ b. b ≡ list_any (λ p. has_match p.0 name.now)
        (map numbered_view patterns.now)) }
    ensures searched { searched_in searches.new ≡ searched_in searches.old }
{
    for one in patterns {
        if searches.matches(one, name)? {
            return Ok(true);
        }
    }
    Ok(false)
}
