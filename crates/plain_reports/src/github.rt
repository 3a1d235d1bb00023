//! GitHub's workflow commands.

ghost use Rattle.std.specs.Prelude.{◌≡◌, ◌++◌, IfOk, OnOk, string_bytes};
ghost use Rattle.std.specs.Str.{chars};
ghost use Rattle.plain_reports.specs.Commands.{number_text, refusal_command_text};
ghost use Rattle.plain_reports.specs.Escapes.{message_text, message_escape, property_text, property_escape};

use std::alloc::{AllocError, Global};

/// The annotation of an instance that is refused, with its line feed: the path, line and column as far as they are known, a
/// title and a message. The only error is want of memory.
pub fn refusal_command(
    alloc: Global,
    path: &str,
    line: Option<usize>,
    column: Option<usize>,
    title: &str,
    message: &str,
) -> Result<String, AllocError>
    ensures { IfOk result (λ s. string_bytes s
        ≡ refusal_command_text path.now line column title.now message.now) }
{
    let mut command = String::from_str(alloc, "::error file=")?;
    push_property(&mut command, path)?;
    push_number(alloc, &mut command, ",line=", line)?;
    push_number(alloc, &mut command, ",col=", column)?;
    command.push_str(",title=")?;
    push_property(&mut command, title)?;
    command.push_str("::")?;
    push_message(&mut command, message)?;
    command.push_str("\n")?;
    Ok(command)
}

// Appends the property, where there is one, behind its name.
fn push_number(
    alloc: Global,
    out: &mut String,
    name: &str,
    number: Option<usize>,
) -> Result<(), AllocError>
    ensures { OnOk result (string_bytes out.new
        ≡ string_bytes out.old ++ number_text name.now number) }
{
    match number {
        Some(number) => {
            let text = format!(in alloc; "{name}{number}")?;
            out.push_str(text.as_str())
        }
        None => Ok(()),
    }
}

/// Appends the text as a message has it.
pub(crate) fn push_message(out: &mut String, text: &str) -> Result<(), AllocError>
    ensures { OnOk result (string_bytes out.new ≡ string_bytes out.old ++ message_text text.now) }
{
    for character in text.chars() {
        push_message_character(out, character)?;
    }
    Ok(())
}

fn push_message_character(out: &mut String, character: char) -> Result<(), AllocError>
    ensures { OnOk result (string_bytes out.new
        ≡ string_bytes out.old ++ message_escape character) }
{
    match character {
        '%' => out.push_str("%25"),
        '\r' => out.push_str("%0D"),
        '\n' => out.push_str("%0A"),
        _ => out.push(character),
    }
}

/// Appends the text as the value of a property, as `file=` has it.
pub(crate) fn push_property(out: &mut String, text: &str) -> Result<(), AllocError>
    ensures { OnOk result (string_bytes out.new ≡ string_bytes out.old ++ property_text text.now) }
{
    for character in text.chars() {
        push_property_character(out, character)?;
    }
    Ok(())
}

fn push_property_character(out: &mut String, character: char) -> Result<(), AllocError>
    ensures { OnOk result (string_bytes out.new
        ≡ string_bytes out.old ++ property_escape character) }
{
    match character {
        ':' => out.push_str("%3A"),
        ',' => out.push_str("%2C"),
        _ => push_message_character(out, character),
    }
}
