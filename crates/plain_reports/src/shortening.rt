//! Texts that are shortened for a line.

ghost use Rattle.std.specs.Prelude.{◌≤◌, IfOk, string_len};

use crate::shown::shown;
use std::alloc::{AllocError, Global};

// How many characters of a value are shown.
const MOST_CHARACTERS: usize = 60;

/// The first 60 characters of a JSON text on one line: without line breaks, tabs and the spaces behind them, and with `…` at
/// the end where more follow.
pub(crate) fn shortened(alloc: Global, text: &str) -> Result<String, AllocError>
    ensures { IfOk result (λ s. string_len s ≤ 244) }
{
    let mut short = String::new(alloc);
    let mut count = 0;
    let mut is_indented = false;
    for character in text.chars() {
        is_indented = is_break(character) || (is_indented && character == ' ');
        if is_indented {
            continue;
        }
        if count == MOST_CHARACTERS {
            short.push('…')?;
            return Ok(short);
        }
        short.push(shown(character))?;
        count += 1;
    }
    Ok(short)
}

fn is_break(character: char) -> bool {
    matches!(character, '\n' | '\r' | '\t')
}
