//! Where in a text what is refused stands.

use file_checks::Fault;
use plain_reports::shown_text;
use std::alloc::Global;
use text_places::{Position, first_fault, position_of_location};

/// Where in the text what is refused stands; nothing where that isn't known, or memory ran out for it.
pub(crate) fn position_of(alloc: Global, text: &[u8], fault: &Fault) -> Option<Position> {
    let found = match fault {
        Fault::BadJson | Fault::BadNumber => first_fault(alloc, text),
        Fault::BadKeyword(location) => position_of_location(alloc, text, location.as_str()),
        _ => Ok(None),
    };
    found.unwrap_or(None)
}

/// Where in the text of the file at this path what is refused stands, as `PATH:LINE:COLUMN`, as a terminal shows it; nothing
/// where that isn't known, or memory ran out for it.
pub fn place_of(alloc: Global, path: &str, text: &[u8], fault: &Fault) -> Option<String> {
    let Position { line, column } = position_of(alloc, text, fault)?;
    let place = format!(in alloc; "{path}:{line}:{column}").ok()?;
    shown_text(alloc, place.as_str()).ok()
}
