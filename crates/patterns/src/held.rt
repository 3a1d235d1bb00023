//! Patterns whose machines are held for several searches.

ghost use Rattle.std.specs.Prelude.{◌≡◌, IfOk};
ghost use Rattle.definitions.specs.Patterns.{has_match};

use crate::machine::Machine;
use std::alloc::{AllocError, Global};
use std::cell::RefMut;

/// A pattern whose machine is held, so that nothing else searches by it until this is let go.
///
/// Contracts see the pattern's text, by `held_text`.
#[derive(Drop)]
pub struct HeldPattern<'p> {
    pub(crate) machine: RefMut<'p, Machine>,
}

impl<'p> HeldPattern<'p> {
    ghost use Rattle.patterns.specs.HeldPatterns.{held_text};

    /// Whether the pattern matches somewhere in the text (Validation, section 6.3.3): where a match must begin or end, the
    /// pattern says so by `^` and `$`. The only error is want of memory.
    #[inline(always)]
    pub fn matches(&mut self, alloc: Global, text: &str) -> Result<bool, AllocError>
        ensures ok { IfOk result (λ found. found ≡ has_match (held_text self.old) text.now) }
        ensures same { held_text self.new ≡ held_text self.old }
    {
        self.machine.is_match(alloc, text)
    }
}
