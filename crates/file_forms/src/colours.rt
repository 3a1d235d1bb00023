//! Whether a terminal's colours are used.

use std::alloc::Global;
use std::env;
use std::rt::Env;

/// Whether a terminal's colours are wanted: `NO_COLOR` is unset or empty.
pub fn wants_colours<R: Env + AllocGlobal>(rt: &R) -> bool {
    match env::var(rt, "NO_COLOR") {
        Ok(value) => value.is_empty(),
        Err(_) => true,
    }
}
