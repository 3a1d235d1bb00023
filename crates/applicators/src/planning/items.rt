//! Keywords that apply schemas to the elements of an array (JSON Schema 2020-12 Core, 10.3.1).

ghost use Rattle.std.specs.Prelude.{◌≡◌, [], map, drop, length, codes, OnOk};
ghost use Rattle.definitions.specs.Values.{Text, elements};
ghost use Rattle.definitions.specs.Applied.{Application, at_items, beside};
ghost use Rattle.json_doc.specs.Docs.{value};
ghost use Rattle.applicators.specs.Applications.{planned_pairs};
ghost use Rattle.applicators.specs.Plans.{planned_view};
ghost use Rattle.applicators.specs.Subjects.{subject_value};

use crate::planned::{Part, Planned, Way};
use crate::subject::{Subject, elements_of};
use json_doc::Doc;
use keywords::Keyword;
use std::alloc::AllocError;
use std::cmp::min;

/// Each schema of a list, at the element of the same number (10.3.1.1).
pub fn plan_prefix<'a>(
    planned: &mut Vec<Planned<'a>>,
    schemas: &'a Doc,
    subject: &Subject<'a>,
) -> Result<(), AllocError>
    requires { planned.old.items ≡ [] }
    ensures { (a : Application) (k : Text) → a.instance ≡ subject_value subject.now
        → OnOk result (map (planned_view k a) planned.new.items
        ≡ planned_pairs k a 0 (elements (value schemas.now)) (elements a.instance)) }
{
    plan_pairs(planned, elements_of(schemas), subject.elements())
}

fn plan_pairs<'a>(
    planned: &mut Vec<Planned<'a>>,
    schemas: &'a [Doc],
    items: &'a [Doc],
) -> Result<(), AllocError>
    requires { planned.old.items ≡ [] }
    ensures { (a : Application) (k : Text)
        → OnOk result (map (planned_view k a) planned.new.items
        ≡ planned_pairs k a 0 (map value schemas.now) (map value items.now)) }
{
    planned.reserve(min(schemas.len(), items.len()))?;
    for (index, schema) in schemas.iter().enumerate() {
        if index == items.len() {
            return Ok(());
        }
        planned.push(Planned {
            way: Way::Element(index),
            schema,
            part: Part::Element(index),
            subject: Subject::Value(&items[index]),
        })?;
    }
    Ok(())
}

/// The schema, at each element from this number on (10.3.1.2 and 10.3.1.3).
pub fn plan_items<'a>(
    planned: &mut Vec<Planned<'a>>,
    schema: &'a Doc,
    start: usize,
    subject: &Subject<'a>,
) -> Result<(), AllocError>
    requires { planned.old.items ≡ [] }
    ensures { (a : Application) (k : Text) → a.instance ≡ subject_value subject.now
        → OnOk result (map (planned_view k a) planned.new.items
        ≡ at_items a k (value schema.now) start (drop start (elements a.instance))) }
{
    plan_from(planned, schema, start, subject.elements())
}

fn plan_from<'a>(
    planned: &mut Vec<Planned<'a>>,
    schema: &'a Doc,
    start: usize,
    items: &'a [Doc],
) -> Result<(), AllocError>
    requires { planned.old.items ≡ [] }
    ensures { (a : Application) (k : Text)
        → OnOk result (map (planned_view k a) planned.new.items
        ≡ at_items a k (value schema.now) start (map value (drop start items.now))) }
{
    planned.reserve(items.len().saturating_sub(start))?;
    for index in start..items.len() {
        planned.push(Planned {
            way: Way::Own,
            schema,
            part: Part::Element(index),
            subject: Subject::Value(&items[index]),
        })?;
    }
    Ok(())
}

/// How many elements `prefixItems` beside speaks of.
pub fn prefix_length(schema: &Doc) -> usize
    ensures { (a : Application) → a.schema.value ≡ value schema.now
        → result ≡ length (elements (beside a (codes "prefixItems"))) }
{
    match schema.keyword_value(Keyword::PrefixItems) {
        Some(prefix) => elements_of(prefix).len(),
        None => 0,
    }
}
