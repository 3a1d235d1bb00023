//! Texts as they are shown at a terminal.

ghost use Rattle.std.specs.Prelude.{◌≡◌, ◌++◌, IfOk, OnOk, string_bytes};
ghost use Rattle.plain_reports.specs.Shown.{is_obeyed, shown_character, shown_text};

use std::alloc::{AllocError, Global};

/// The text without characters that a terminal would obey, or that turn the direction of what is written: `�` stands in the
/// place of each. The only error is want of memory.
pub fn shown_text(alloc: Global, text: &str) -> Result<String, AllocError>
    ensures { IfOk result (λ s. string_bytes s ≡ shown_text text.now) }
{
    let mut shown = String::new(alloc);
    push_shown(&mut shown, text)?;
    Ok(shown)
}

/// Appends the text as [`shown_text`] gives it.
pub(crate) fn push_shown(out: &mut String, text: &str) -> Result<(), AllocError>
    ensures { OnOk result (string_bytes out.new ≡ string_bytes out.old ++ shown_text text.now) }
{
    for character in text.chars() {
        out.push(shown(character))?;
    }
    Ok(())
}

/// The character, or `�` in its place.
pub(crate) fn shown(character: char) -> char
    ensures { result ≡ shown_character character }
{
    if is_obeyed(character) {
        '\u{fffd}'
    } else {
        character
    }
}

// Whether a terminal obeys the character, or writes what follows in another direction.
fn is_obeyed(character: char) -> bool
    ensures { result ≡ is_obeyed character }
{
    character.is_control() || matches!(character, '\u{202a}'..='\u{202e}' | '\u{2066}'..='\u{2069}')
}
