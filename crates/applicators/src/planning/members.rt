//! Keywords that apply schemas to the members of an object, or to their names (JSON Schema 2020-12 Core, 10.3.2).

ghost use Rattle.std.specs.Prelude.{◌≡◌, [], map, OnOk};
ghost use Rattle.definitions.specs.Values.{Text, members};
ghost use Rattle.definitions.specs.Applied.{Application};
ghost use Rattle.json_doc.specs.Docs.{value, members_value};
ghost use Rattle.applicators.specs.Applications.{planned_members, planned_at_names, planned_names};
ghost use Rattle.applicators.specs.Plans.{planned_view};
ghost use Rattle.applicators.specs.Subjects.{subject_value};

use crate::planned::{Part, Planned, Way};
use crate::subject::Subject;
use crate::tuning::FAR_LONGER;
use json_doc::{Doc, Members};
use std::alloc::AllocError;
use std::cmp::min;

/// Each schema whose name the instance has, at that member (10.3.2.1).
pub fn plan_properties<'a>(
    planned: &mut Vec<Planned<'a>>,
    schemas: &'a Doc,
    subject: &Subject<'a>,
) -> Result<(), AllocError>
    requires { planned.old.items ≡ [] }
    ensures { (a : Application) (k : Text) → a.instance ≡ subject_value subject.now
        → OnOk result (map (planned_view k a) planned.new.items
        ≡ planned_members k a (members (value schemas.now))) }
{
    match schemas {
        Doc::Dict(schemas) => plan_members(planned, schemas, subject),
        _ => Ok(()),
    }
}

fn plan_members<'a>(
    planned: &mut Vec<Planned<'a>>,
    schemas: &'a Members,
    subject: &Subject<'a>,
) -> Result<(), AllocError>
    requires { planned.old.items ≡ [] }
    ensures { (a : Application) (k : Text) → a.instance ≡ subject_value subject.now
        → OnOk result (map (planned_view k a) planned.new.items
        ≡ planned_members k a (members_value schemas.now)) }
{
    match subject.members() {
        Some(present) => plan_present(planned, schemas, present),
        None => Ok(()),
    }
}

// Along the schemas, where the instance has far more members.
fn plan_present<'a>(
    planned: &mut Vec<Planned<'a>>,
    schemas: &'a Members,
    present: &'a Members,
) -> Result<(), AllocError>
    requires { planned.old.items ≡ [] }
    ensures { (a : Application) (k : Text) → members a.instance ≡ members_value present.now
        → OnOk result (map (planned_view k a) planned.new.items
        ≡ planned_members k a (members_value schemas.now)) }
{
    if schemas.len() < present.len() / FAR_LONGER {
        plan_along_schemas(planned, schemas, present)
    } else {
        plan_along_instance(planned, schemas, present)
    }
}

fn plan_along_instance<'a>(
    planned: &mut Vec<Planned<'a>>,
    schemas: &'a Members,
    present: &'a Members,
) -> Result<(), AllocError>
    requires { planned.old.items ≡ [] }
    ensures { (a : Application) (k : Text) → members a.instance ≡ members_value present.now
        → OnOk result (map (planned_view k a) planned.new.items
        ≡ planned_members k a (members_value schemas.now)) }
{
    // Their contracts say that the names are in order.
    let _ = schemas.iter();
    let _ = present.iter();
    plan_at_names(planned, schemas, present)
}

// Along the members, where there are far more schemas, and along both otherwise.
fn plan_at_names<'a>(
    planned: &mut Vec<Planned<'a>>,
    schemas: &'a Members,
    members: &'a Members,
) -> Result<(), AllocError>
    requires { planned.old.items ≡ [] }
    ensures { (a : Application) (k : Text)
        → OnOk result (map (planned_view k a) planned.new.items
        ≡ planned_at_names k a (members_value schemas.now) (members_value members.now)) }
{
    if members.len() < schemas.len() / FAR_LONGER {
        plan_each_member(planned, schemas, members)
    } else {
        plan_merged(planned, schemas, members)
    }
}

// Along both: each member takes the one of its name from the schemas that are left.
fn plan_merged<'a>(
    planned: &mut Vec<Planned<'a>>,
    schemas: &'a Members,
    members: &'a Members,
) -> Result<(), AllocError>
    requires { planned.old.items ≡ [] }
    ensures { (a : Application) (k : Text)
        → OnOk result (map (planned_view k a) planned.new.items
        ≡ planned_at_names k a (members_value schemas.now) (members_value members.now)) }
{
    planned.reserve(min(schemas.len(), members.len()))?;
    let mut other_schemas = schemas.iter().named();
    for (name, member) in members.iter().named() {
        if let Some(schema) = other_schemas.take_named(name) {
            planned.push(Planned {
                way: Way::Member(name),
                schema,
                part: Part::Member(name),
                subject: Subject::Value(member),
            })?;
        }
    }
    Ok(())
}

fn plan_each_member<'a>(
    planned: &mut Vec<Planned<'a>>,
    schemas: &'a Members,
    members: &'a Members,
) -> Result<(), AllocError>
    requires { planned.old.items ≡ [] }
    ensures { (a : Application) (k : Text)
        → OnOk result (map (planned_view k a) planned.new.items
        ≡ planned_at_names k a (members_value schemas.now) (members_value members.now)) }
{
    planned.reserve(min(schemas.len(), members.len()))?;
    for (name, member) in members.iter().named() {
        if let Some(schema) = schemas.get(name.as_str()) {
            planned.push(Planned {
                way: Way::Member(name),
                schema,
                part: Part::Member(name),
                subject: Subject::Value(member),
            })?;
        }
    }
    Ok(())
}

fn plan_along_schemas<'a>(
    planned: &mut Vec<Planned<'a>>,
    schemas: &'a Members,
    present: &'a Members,
) -> Result<(), AllocError>
    requires { planned.old.items ≡ [] }
    ensures { (a : Application) (k : Text) → members a.instance ≡ members_value present.now
        → OnOk result (map (planned_view k a) planned.new.items
        ≡ planned_members k a (members_value schemas.now)) }
{
    planned.reserve(min(schemas.len(), present.len()))?;
    for (name, schema) in schemas.iter().named() {
        if let Some(member) = present.get(name.as_str()) {
            planned.push(Planned {
                way: Way::Member(name),
                schema,
                part: Part::Member(name),
                subject: Subject::Value(member),
            })?;
        }
    }
    Ok(())
}

/// The schema, at each name of the instance (10.3.2.4).
pub fn plan_names<'a>(
    planned: &mut Vec<Planned<'a>>,
    schema: &'a Doc,
    subject: &Subject<'a>,
) -> Result<(), AllocError>
    requires { planned.old.items ≡ [] }
    ensures { (a : Application) (k : Text) → a.instance ≡ subject_value subject.now
        → OnOk result (map (planned_view k a) planned.new.items
        ≡ planned_names k a (value schema.now) (members a.instance)) }
{
    match subject.members() {
        Some(members) => plan_each_name(planned, schema, members),
        None => Ok(()),
    }
}

fn plan_each_name<'a>(
    planned: &mut Vec<Planned<'a>>,
    schema: &'a Doc,
    members: &'a Members,
) -> Result<(), AllocError>
    requires { planned.old.items ≡ [] }
    ensures { (a : Application) (k : Text)
        → OnOk result (map (planned_view k a) planned.new.items
        ≡ planned_names k a (value schema.now) (members_value members.now)) }
{
    planned.reserve(members.len())?;
    for (name, _) in members.iter().named() {
        planned.push(Planned {
            way: Way::Own,
            schema,
            part: Part::NameOf(name),
            subject: Subject::Name(name),
        })?;
    }
    Ok(())
}
