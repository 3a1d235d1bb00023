//! What is printed of an instance that is refused, beside what is told of it.

ghost use Rattle.std.specs.Prelude.{◌≡◌, ◌++◌, ◌∷◌, [], IfOk, string_bytes};
ghost use Rattle.definitions.specs.Bytes.{line_feed};
ghost use Rattle.file_forms.specs.Printed.{IsAnnotation, IsRefusalBy, no_room_text};
ghost use Rattle.file_forms.specs.Refusals.{reason_text};
ghost use Rattle.plain_reports.specs.JsonLines.{json_refusal_text};

use crate::trouble::Trouble;
use command_line::Format;
use file_checks::Fault;
use plain_reports::{json_refusal, refusal_command};
use std::alloc::{AllocError, Global};

/// What is printed of the trouble with the instance of this path and line. The only error is want of memory.
pub(crate) fn refusal_text(
    alloc: Global,
    format: Format,
    path: &str,
    line: Option<usize>,
    trouble: &Trouble,
) -> Result<String, Fault>
    ensures { IfOk result (λ s. IsRefusalBy format path.now line trouble.now (string_bytes s)) }
{
    match format {
        Format::Text => Ok(String::new(alloc)),
        Format::Json => line_of_json(alloc, path, line, trouble),
        Format::Github => Ok(annotation(alloc, path, line, trouble)?),
    }
}

/// What is printed of an instance that is refused, where memory is wanting for more.
pub(crate) fn no_room_text(format: Format) -> &'static str
    ensures { result.now ≡ no_room_text format }
{
    match format {
        Format::Text => "",
        Format::Json => "{\"refused\":\"30 NoRoom\"}\n",
        Format::Github => "::error::30 NoRoom\n",
    }
}

fn line_of_json(
    alloc: Global,
    path: &str,
    line: Option<usize>,
    trouble: &Trouble,
) -> Result<String, Fault>
    ensures { IfOk result (λ s. string_bytes s
        ≡ json_refusal_text path.now line (reason_text trouble.now) ++ line_feed ∷ []) }
{
    let reason = trouble.reason(alloc)?;
    let mut text = json_refusal(alloc, path, line, reason.as_str())?;
    text.push_str("\n")?;
    Ok(text)
}

// An annotation at the place in the file, as far as it is known.
fn annotation(
    alloc: Global,
    path: &str,
    line: Option<usize>,
    trouble: &Trouble,
) -> Result<String, AllocError>
    ensures { IfOk result (λ s. IsAnnotation path.now (reason_text trouble.now) (string_bytes s)) }
{
    match trouble.place() {
        Some((line, column)) => annotation_at(alloc, path, Some(line), Some(column), trouble),
        None => annotation_at(alloc, path, line, None, trouble),
    }
}

// An annotation with the reason as its title, and all that is told as its message.
fn annotation_at(
    alloc: Global,
    path: &str,
    line: Option<usize>,
    column: Option<usize>,
    trouble: &Trouble,
) -> Result<String, AllocError>
    ensures { IfOk result (λ s. IsAnnotation path.now (reason_text trouble.now) (string_bytes s)) }
{
    let reason = trouble.reason(alloc)?;
    let told = trouble.lines(alloc)?;
    let message = told.as_str().trim_end();
    let command = refusal_command(alloc, path, line, column, reason.as_str(), message)?;
    Ok(command)
}
