//! The errors of a Basic output that was read.

ghost use Rattle.std.specs.Prelude.{◌≡◌, IfOk, IfErr, map};
ghost use Rattle.json_doc.specs.Docs.{value};
ghost use Rattle.plain_reports.specs.ErrorUnits.{errors_in, list_or_none, text_or_none, unit_in};
ghost use Rattle.plain_reports.specs.UnitViews.{unit_view};

use json_doc::{Doc, Fault};
use std::alloc::Global;

/// An error of a Basic output (JSON Schema 2020-12 Core, 12.4.2).
#[derive(Clone, Copy, Debug, Drop)]
pub struct ErrorUnit<'a> {
    /// What is said, as `type is not met`.
    pub error: &'a str,
    /// The pointer to the value that was judged.
    pub instance_location: &'a str,
    /// The pointer along the path that the evaluation took.
    pub keyword_location: &'a str,
    /// Where the keyword stands: the URI of its resource, with a pointer as its fragment.
    pub absolute_location: &'a str,
}

/// The errors of an output, in its order; none where it has no `errors`. What lacks a member has an empty text for it. The
/// only error is want of memory.
pub fn error_units(alloc: Global, output: &Doc) -> Result<Vec<ErrorUnit<'_>>, Fault>
    ensures ok { IfOk result (λ us. map unit_view us.items ≡ errors_in (value output.now)) }
    ensures err { IfErr result (λ f. f ≡ Fault.NoRoom) }
{
    each_unit(alloc, list_of(output, "errors"))
}

// The elements of the member of this name; none where it isn't an array.
fn list_of<'a>(object: &'a Doc, name: &str) -> &'a [Doc]
    ensures { map value result.now ≡ list_or_none name.now (value object.now) }
{
    match object.get(name) {
        Some(member) => match member.as_list() {
            Some(items) => items,
            None => &[],
        },
        None => &[],
    }
}

fn each_unit(alloc: Global, items: &[Doc]) -> Result<Vec<ErrorUnit<'_>>, Fault>
    ensures ok { IfOk result
        (λ us. map unit_view us.items ≡ map unit_in (map value items.now)) }
    ensures err { IfErr result (λ f. f ≡ Fault.NoRoom) }
{
    let mut units = Vec::with_capacity(alloc, items.len())?;
    for item in items {
        units.push(unit_of(item))?;
    }
    Ok(units)
}

fn unit_of(item: &Doc) -> ErrorUnit<'_>
    ensures { unit_view result ≡ unit_in (value item.now) }
{
    ErrorUnit {
        error: text_of(item, "error"),
        instance_location: text_of(item, "instanceLocation"),
        keyword_location: text_of(item, "keywordLocation"),
        absolute_location: text_of(item, "absoluteKeywordLocation"),
    }
}

fn text_of<'a>(item: &'a Doc, name: &str) -> &'a str
    ensures { result.now ≡ text_or_none name.now (value item.now) }
{
    match item.text_at(name) {
        Some(text) => text,
        None => "",
    }
}
