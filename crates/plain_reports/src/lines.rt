//! The lines that tell an instance's errors.

ghost use Rattle.std.specs.Prelude.{◌≡◌, Ok, IfOk, map, string_bytes};
ghost use Rattle.definitions.specs.Texts.{parsed_value};
ghost use Rattle.definitions.specs.Values.{Value};
ghost use Rattle.plain_reports.specs.ErrorUnits.{causes, errors_in};
ghost use Rattle.plain_reports.specs.Told.{EndsLine, TellsEach};
ghost use Rattle.plain_reports.specs.UnitViews.{unit_view};

use crate::causes::causes_of;
use crate::github::{push_message, push_property};
use crate::instance::{Instance, Style};
use crate::instance_texts::{Found, InstanceText};
use crate::sentences::predicate;
use crate::shown::push_shown;
use crate::units::{ErrorUnit, error_units};
use crate::wanted::{Schemas, wanted};
use json::Scratch;
use json_doc::{Fault, read};
use std::alloc::{AllocError, Global};
use text_places::Places;

/// What is wrong with an instance, of whose Basic output this is the text: for each cause, in the output's order, where the
/// value stands, what is wrong with it, and where the keyword stands, on lines of its own. A valid instance has none. What a
/// keyword asks for is told by its value in the schemas.
///
/// BadJson and BadNumber where the output or the instance is no text that is read; the only other error is want of memory.
pub fn error_lines<S: Schemas>(
    alloc: Global,
    schemas: &S,
    instance: Instance<'_>,
    output: &str,
    style: Style,
) -> Result<String, Fault>
    ensures { IfOk result (λ s. (v : Value) → parsed_value output.now ≡ Ok v
        → TellsEach (causes (errors_in v)) (string_bytes s)) }
{
    let output = read(alloc, output.as_bytes())?;
    let units = error_units(alloc, &output)?;
    let causes = causes_of(alloc, units.as_slice())?;
    tell(alloc, schemas, instance, causes.as_slice(), style)
}

// What is told of the causes.
fn tell<S: Schemas>(
    alloc: Global,
    schemas: &S,
    instance: Instance<'_>,
    causes: &[ErrorUnit<'_>],
    style: Style,
) -> Result<String, Fault>
    ensures { IfOk result (λ s. TellsEach (map unit_view causes.now) (string_bytes s)) }
{
    if causes.is_empty() {
        return Ok(String::new(alloc));
    }
    let doc = read(alloc, instance.text)?;
    let Ok(text) = str::from_utf8(instance.text) else {
        return Err(Fault::BadJson);
    };
    let mut scratch = Scratch::new(alloc);
    let places = Places::of(alloc, text, &mut scratch)?;
    let mut text = InstanceText::of(text, doc, places);
    tell_each(alloc, schemas, instance, &mut text, causes, style)
}

fn tell_each<S: Schemas>(
    alloc: Global,
    schemas: &S,
    instance: Instance<'_>,
    text: &mut InstanceText<'_>,
    causes: &[ErrorUnit<'_>],
    style: Style,
) -> Result<String, Fault>
    ensures { IfOk result (λ s. TellsEach (map unit_view causes.now) (string_bytes s)) }
{
    let mut lines = String::new(alloc);
    for cause in causes {
        let found = found_for(alloc, schemas, text, cause)?;
        let told = told_cause(alloc, instance, cause, &found, style)?;
        lines.push_str(told.as_str())?;
    }
    Ok(lines)
}

// The value that the cause is of, and what is asked for instead.
fn found_for<S: Schemas>(
    alloc: Global,
    schemas: &S,
    text: &mut InstanceText<'_>,
    cause: &ErrorUnit<'_>,
) -> Result<Found, Fault> {
    let mut found = text.find(alloc, cause.instance_location)?;
    found.wanted = wanted(alloc, schemas, text, cause)?;
    Ok(found)
}

// What is told of one cause, to the end of its last line.
fn told_cause(
    alloc: Global,
    instance: Instance<'_>,
    cause: &ErrorUnit<'_>,
    found: &Found,
    style: Style,
) -> Result<String, AllocError>
    ensures { IfOk result (λ s. EndsLine (string_bytes s)) }
{
    let mut told = String::new(alloc);
    push_cause(alloc, &mut told, instance, cause, found, style)?;
    told.push_str("\n")?;
    Ok(told)
}

fn push_cause(
    alloc: Global,
    lines: &mut String,
    instance: Instance<'_>,
    cause: &ErrorUnit<'_>,
    found: &Found,
    style: Style,
) -> Result<(), AllocError> {
    let line = line_in_file(instance.line, found.position.line);
    match style {
        Style::Text { colours } => {
            push_place(alloc, lines, instance.path, line, found, colours)?;
            push_sentence(lines, cause, found)?;
            push_locations(lines, cause, colours)
        }
        Style::Github => push_command(alloc, lines, instance.path, line, cause, found),
    }
}

// The line in the file of a line in the instance, where that is one line of the file itself.
fn line_in_file(first: Option<usize>, line: usize) -> usize {
    match first {
        Some(first) => first.saturating_add(line.saturating_sub(1)),
        None => line,
    }
}

// `PATH:LINE:COLUMN: `
fn push_place(
    alloc: Global,
    lines: &mut String,
    path: &str,
    line: usize,
    found: &Found,
    colours: bool,
) -> Result<(), AllocError> {
    push_colour(lines, "\u{1b}[1m", colours)?;
    push_shown(lines, path)?;
    let place = format!(in alloc; ":{line}:{}:", found.position.column)?;
    lines.push_str(place.as_str())?;
    push_colour(lines, "\u{1b}[0m", colours)?;
    lines.push_str(" ")
}

fn push_colour(lines: &mut String, colour: &str, colours: bool) -> Result<(), AllocError> {
    if colours {
        lines.push_str(colour)
    } else {
        Ok(())
    }
}

// `/instance/location: VALUE is ..`, and `: ` and what is wanted
fn push_sentence(
    lines: &mut String,
    cause: &ErrorUnit<'_>,
    found: &Found,
) -> Result<(), AllocError> {
    if cause.instance_location.is_empty() {
        lines.push_str("(root)")?;
    } else {
        push_shown(lines, cause.instance_location)?;
    }
    lines.push_str(": ")?;
    lines.push_str(found.value.as_str())?;
    lines.push_str(" ")?;
    lines.push_str(predicate(cause.error))?;
    push_wanted(lines, &found.wanted)
}

fn push_wanted(lines: &mut String, wanted: &Option<String>) -> Result<(), AllocError> {
    match wanted {
        Some(wanted) => {
            lines.push_str(": ")?;
            lines.push_str(wanted.as_str())
        }
        None => Ok(()),
    }
}

fn push_locations(
    lines: &mut String,
    cause: &ErrorUnit<'_>,
    colours: bool,
) -> Result<(), AllocError> {
    push_colour(lines, "\u{1b}[2m", colours)?;
    lines.push_str("\n    by ")?;
    push_shown(lines, cause.keyword_location)?;
    lines.push_str("\n    at ")?;
    push_shown(lines, cause.absolute_location)?;
    push_colour(lines, "\u{1b}[0m", colours)
}

// `::error file=..,line=..,col=..,title=..::..`
fn push_command(
    alloc: Global,
    lines: &mut String,
    path: &str,
    line: usize,
    cause: &ErrorUnit<'_>,
    found: &Found,
) -> Result<(), AllocError> {
    lines.push_str("::error file=")?;
    push_property(lines, path)?;
    let place = format!(in alloc; ",line={line},col={},title=", found.position.column)?;
    lines.push_str(place.as_str())?;
    push_property(lines, cause.error)?;
    lines.push_str("::")?;
    let mut message = String::new(alloc);
    push_sentence(&mut message, cause, found)?;
    push_locations(&mut message, cause, false)?;
    push_message(lines, message.as_str())
}
