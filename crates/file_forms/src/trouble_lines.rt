//! The first lines of troubles.

ghost use Rattle.std.specs.Prelude.{◌≡◌, ◌++◌, ◌∷◌, [], Some, IfOk, string_bytes};
ghost use Rattle.definitions.specs.Bytes.{line_feed};
ghost use Rattle.faults.specs.View.{fault_view, printed_text};
ghost use Rattle.file_forms.specs.RefusalLines.{line_text, refusal_line};
ghost use Rattle.plain_reports.specs.Shown.{shown_text};

use file_checks::Fault;
use plain_reports::shown_text;
use std::alloc::{AllocError, Global};

/// A line of what is told and a path, as it is shown.
pub(crate) fn path_line(alloc: Global, told: &str, path: &str) -> Result<String, AllocError>
    ensures { IfOk result (λ s. string_bytes s
        ≡ told.now ++ shown_text path.now ++ line_feed ∷ []) }
{
    let path = shown_text(alloc, path)?;
    format!(in alloc; "{told}{path}\n")
}

/// `refused: PATH: 3 BadJson`, or `refused: PATH:LINE: 3 BadJson`.
pub(crate) fn refused_line(
    alloc: Global,
    path: &str,
    line: Option<usize>,
    fault: &Fault,
) -> Result<String, AllocError>
    ensures { IfOk result (λ s. string_bytes s
        ≡ refusal_line (Some path.now) line (fault_view fault.now)) }
{
    let line = line_text(alloc, line)?;
    let fault = fault_text(alloc, fault)?;
    let mut text = String::from_str(alloc, "refused: ")?;
    text.push_str(path)?;
    text.push_str(line.as_str())?;
    text.push_str(fault.as_str())?;
    Ok(text)
}

// What stands behind the path.
fn line_text(alloc: Global, line: Option<usize>) -> Result<String, AllocError>
    ensures { IfOk result (λ s. string_bytes s ≡ line_text line) }
{
    match line {
        None => String::from_str(alloc, ": "),
        Some(line) => format!(in alloc; ":{line}: "),
    }
}

/// `3 BadJson`.
pub(crate) fn fault_text(alloc: Global, fault: &Fault) -> Result<String, AllocError>
    ensures { IfOk result (λ s. string_bytes s ≡ printed_text (fault_view fault.now)) }
{
    format!(in alloc; "{fault}")
}
