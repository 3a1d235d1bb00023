//! One line of JSON for an instance.

ghost use Rattle.std.specs.Prelude.{◌≡◌, ◌≢◌, IfOk, IfErr, string_bytes};
ghost use Rattle.plain_reports.specs.JsonLines.{json_line_text, json_refusal_text, line_member, line_start};

use crate::instance::Instance;
use json_doc::{Doc, Fault, write};
use std::alloc::{AllocError, Global};

/// One line of JSON, without a line feed: an object with the instance's path as `instance`, its `line` where it has one, and
/// then the members of the Basic output, whose text this is. BadJson where that text begins with no brace; the only other
/// error is want of memory.
pub fn json_line(alloc: Global, instance: Instance<'_>, output: &str) -> Result<String, Fault>
    ensures ok { IfOk result (λ s. string_bytes s
        ≡ json_line_text instance.entry.path.now instance.entry.line output.now) }
    ensures err { IfErr result (λ f. f ≢ Fault.NoRoom → f ≡ Fault.BadJson) }
{
    let Some(members) = output.strip_prefix('{') else {
        return Err(Fault::BadJson);
    };
    let mut text = line_start(alloc, instance.path, instance.line)?;
    text.push_str(",")?;
    text.push_str(members)?;
    Ok(text)
}

/// One line of JSON, without a line feed, for an instance that is refused: an object with the instance's path as `instance`,
/// its `line` where it has one, and why it is refused as `refused`. The only error is want of memory.
pub fn json_refusal(
    alloc: Global,
    path: &str,
    line: Option<usize>,
    why: &str,
) -> Result<String, Fault>
    ensures ok { IfOk result (λ s. string_bytes s ≡ json_refusal_text path.now line why.now) }
    ensures err { IfErr result (λ f. f ≡ Fault.NoRoom) }
{
    let mut text = line_start(alloc, path, line)?;
    let why = write(alloc, &Doc::string(alloc, why)?)?;
    text.push_str(",\"refused\":")?;
    text.push_str(why.as_str())?;
    text.push_str("}")?;
    Ok(text)
}

// The path, and the line where there is one.
fn line_start(alloc: Global, path: &str, line: Option<usize>) -> Result<String, Fault>
    ensures ok { IfOk result (λ s. string_bytes s ≡ line_start path.now line) }
    ensures err { IfErr result (λ f. f ≡ Fault.NoRoom) }
{
    let path = write(alloc, &Doc::string(alloc, path)?)?;
    let line = line_member(alloc, line)?;
    let mut text = String::from_str(alloc, "{\"instance\":")?;
    text.push_str(path.as_str())?;
    text.push_str(line.as_str())?;
    Ok(text)
}

fn line_member(alloc: Global, line: Option<usize>) -> Result<String, AllocError>
    ensures { IfOk result (λ s. string_bytes s ≡ line_member line) }
{
    match line {
        Some(line) => format!(in alloc; ",\"line\":{line}"),
        None => Ok(String::new(alloc)),
    }
}
