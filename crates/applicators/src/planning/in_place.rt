//! Keywords that apply schemas to the whole instance (JSON Schema 2020-12 Core, 10.2).

ghost use Rattle.std.specs.Prelude.{◌≡◌, [], ◌∷◌, Option, if◌then◌else◌, map, option_map, OnOk};
ghost use Rattle.definitions.specs.Values.{Text, members};
ghost use Rattle.definitions.specs.Applied.{Application, Outcome, in_place, list_applications, consequence_of};
ghost use Rattle.json_doc.specs.Docs.{value, members_value};
ghost use Rattle.applicators.specs.Applications.{planned_elements, planned_dependents, planned_under_names};
ghost use Rattle.applicators.specs.Plans.{planned_view};
ghost use Rattle.applicators.specs.Subjects.{subject_value};

use crate::planned::{Part, Planned, Way};
use crate::subject::Subject;
use json_doc::{Doc, Members};
use std::alloc::AllocError;

/// The keyword's value itself.
pub fn plan_own<'a>(
    planned: &mut Vec<Planned<'a>>,
    schema: &'a Doc,
    subject: &Subject<'a>,
) -> Result<(), AllocError>
    requires { planned.old.items ≡ [] }
    ensures { (a : Application) (k : Text) → a.instance ≡ subject_value subject.now
        → OnOk result (map (planned_view k a) planned.new.items
        ≡ in_place a (k ∷ []) (value schema.now) ∷ []) }
{
    planned.push(Planned {
        way: Way::Own,
        schema,
        part: Part::Whole,
        subject: *subject,
    })?;
    Ok(())
}

/// Each schema of a list (10.2.1).
pub fn plan_listed<'a>(
    planned: &mut Vec<Planned<'a>>,
    schemas: &'a Doc,
    subject: &Subject<'a>,
) -> Result<(), AllocError>
    requires { planned.old.items ≡ [] }
    ensures { (a : Application) (k : Text) → a.instance ≡ subject_value subject.now
        → OnOk result (map (planned_view k a) planned.new.items
        ≡ list_applications a k (value schemas.now)) }
{
    match schemas {
        Doc::List(schemas) => plan_elements(planned, schemas, subject),
        _ => Ok(()),
    }
}

fn plan_elements<'a>(
    planned: &mut Vec<Planned<'a>>,
    schemas: &'a [Doc],
    subject: &Subject<'a>,
) -> Result<(), AllocError>
    requires { planned.old.items ≡ [] }
    ensures { (a : Application) (k : Text) → a.instance ≡ subject_value subject.now
        → OnOk result (map (planned_view k a) planned.new.items
        ≡ planned_elements k a 0 (map value schemas.now)) }
{
    planned.reserve(schemas.len())?;
    for (index, schema) in schemas.iter().enumerate() {
        planned.push(Planned {
            way: Way::Element(index),
            schema,
            part: Part::Whole,
            subject: *subject,
        })?;
    }
    Ok(())
}

/// The keyword's value itself, where `if` beside passed as it is wanted (10.2.2).
pub fn plan_consequence<'a>(
    planned: &mut Vec<Planned<'a>>,
    schema: &'a Doc,
    subject: &Subject<'a>,
    condition: Option<bool>,
    wanted: bool,
) -> Result<(), AllocError>
    requires { planned.old.items ≡ [] }
    ensures { (a : Application) (k : Text) (o : Option Outcome)
        → a.instance ≡ subject_value subject.now
        → option_map (λ o. o.valid) o ≡ condition
        → OnOk result (map (planned_view k a) planned.new.items
        ≡ consequence_of a k wanted (value schema.now) o) }
{
    match condition {
        Some(passed) => plan_if(planned, schema, subject, passed == wanted),
        None => Ok(()),
    }
}

fn plan_if<'a>(
    planned: &mut Vec<Planned<'a>>,
    schema: &'a Doc,
    subject: &Subject<'a>,
    applies: bool,
) -> Result<(), AllocError>
    requires { planned.old.items ≡ [] }
    ensures { (a : Application) (k : Text) → a.instance ≡ subject_value subject.now
        → OnOk result (map (planned_view k a) planned.new.items
        ≡ (if applies then in_place a (k ∷ []) (value schema.now) ∷ [] else [])) }
{
    if applies {
        plan_own(planned, schema, subject)
    } else {
        Ok(())
    }
}

/// Each schema whose name the instance has (10.2.2.4).
pub fn plan_dependents<'a>(
    planned: &mut Vec<Planned<'a>>,
    schemas: &'a Doc,
    subject: &Subject<'a>,
) -> Result<(), AllocError>
    requires { planned.old.items ≡ [] }
    ensures { (a : Application) (k : Text) → a.instance ≡ subject_value subject.now
        → OnOk result (map (planned_view k a) planned.new.items
        ≡ planned_dependents k a (members (value schemas.now))) }
{
    match schemas {
        Doc::Dict(schemas) => plan_dependent_members(planned, schemas, subject),
        _ => Ok(()),
    }
}

// Along the shorter of the two: the schemas, or the members of the instance.
fn plan_dependent_members<'a>(
    planned: &mut Vec<Planned<'a>>,
    schemas: &'a Members,
    subject: &Subject<'a>,
) -> Result<(), AllocError>
    requires { planned.old.items ≡ [] }
    ensures { (a : Application) (k : Text) → a.instance ≡ subject_value subject.now
        → OnOk result (map (planned_view k a) planned.new.items
        ≡ planned_dependents k a (members_value schemas.now)) }
{
    match subject.members() {
        Some(members) if members.len() < schemas.len() => {
            plan_dependents_along_instance(planned, schemas, members, subject)
        }
        _ => plan_dependents_along_schemas(planned, schemas, subject),
    }
}

fn plan_dependents_along_instance<'a>(
    planned: &mut Vec<Planned<'a>>,
    schemas: &'a Members,
    present: &'a Members,
    subject: &Subject<'a>,
) -> Result<(), AllocError>
    requires { planned.old.items ≡ [] }
    ensures { (a : Application) (k : Text) → a.instance ≡ subject_value subject.now
        → members a.instance ≡ members_value present.now
        → OnOk result (map (planned_view k a) planned.new.items
        ≡ planned_dependents k a (members_value schemas.now)) }
{
    // Their contracts say that the names are in order.
    let _ = schemas.iter();
    let _ = present.iter();
    plan_dependents_of_members(planned, schemas, present, subject)
}

fn plan_dependents_of_members<'a>(
    planned: &mut Vec<Planned<'a>>,
    schemas: &'a Members,
    members: &'a Members,
    subject: &Subject<'a>,
) -> Result<(), AllocError>
    requires { planned.old.items ≡ [] }
    ensures { (a : Application) (k : Text) → a.instance ≡ subject_value subject.now
        → OnOk result (map (planned_view k a) planned.new.items
        ≡ planned_under_names k a (members_value schemas.now) (members_value members.now)) }
{
    for (name, _) in members.iter().named() {
        if let Some(schema) = schemas.get(name.as_str()) {
            planned.push(Planned {
                way: Way::Member(name),
                schema,
                part: Part::Whole,
                subject: *subject,
            })?;
        }
    }
    Ok(())
}

fn plan_dependents_along_schemas<'a>(
    planned: &mut Vec<Planned<'a>>,
    schemas: &'a Members,
    subject: &Subject<'a>,
) -> Result<(), AllocError>
    requires { planned.old.items ≡ [] }
    ensures { (a : Application) (k : Text) → a.instance ≡ subject_value subject.now
        → OnOk result (map (planned_view k a) planned.new.items
        ≡ planned_dependents k a (members_value schemas.now)) }
{
    for (name, schema) in schemas.iter().named() {
        if subject.get(name.as_str()).is_some() {
            planned.push(Planned {
                way: Way::Member(name),
                schema,
                part: Part::Whole,
                subject: *subject,
            })?;
        }
    }
    Ok(())
}
