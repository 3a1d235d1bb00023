//! Patterns that have been built.

ghost use Rattle.std.specs.Prelude.{◌≡◌, ◌≢◌, ◌≤◌, ◌-◌, true, IfOk, IfErr, IfSome, OnOk, OnErr};
ghost use Rattle.definitions.specs.Patterns.{is_read, has_match};
ghost use Rattle.patterns.specs.HeldPatterns.{held_text};
ghost use Rattle.patterns.specs.Nesting.{NestsWithin};

use crate::held::HeldPattern;
use crate::machine::Machine;
use faults::Fault;
use std::alloc::{AllocError, Global};
use std::cell::RefCell;
use std::marker::Model;

/// How many bytes the tables of one pattern may take. A copy of `\w`, which has the letters of all scripts, takes some
/// 14,000: this is room for a thousand.
const SIZE_LIMIT: usize = 16 << 20;

/// A regular expression that has been read and built (JSON Schema 2020-12 Core, section 6.4), with the machine that
/// searches for it. What a search learns about the pattern is kept for the next: the machine takes at most a constant
/// times what the pattern's tables take.
///
/// Contracts see its text, as bytes.
#[derive(Drop)]
pub struct Pattern {
    text: String,
    // Its machine stands for the same text. No clause says so of what is in a cell, so each search looks.
    machine: RefCell<Machine>,
}

impl Model for Pattern {
    ghost use Rattle.std.specs.Prelude.{◌≡◌, true, string_bytes};
    ghost use Rattle.definitions.specs.Values.{Text};
    ghost use Rattle.definitions.specs.Patterns.{is_read};

    ghost Value = { Text };

    ghost view = { λ p. string_bytes p.text };

    ghost invariant = { λ p. is_read (string_bytes p.text) ≡ true };
}

impl Pattern {
    /// Reads the text by the grammar of `regex`, which has no look-around and no back references, and builds what it
    /// spells.
    ///
    /// [`Fault::BadPattern`] is for a text that the grammar doesn't read, and for a pattern that nests deeper than 250 or
    /// is too big once it is built: counted repetitions are written out, so this is about 16 MiB for all copies together.
    /// Want of memory is [`Fault::NoRoom`].
    pub fn build(alloc: Global, source: &str) -> Result<Pattern, Fault>
        ensures ok { IfOk result (λ p. p ≡ source.now) }
        ensures read { IfOk result (λ p. is_read p ≡ true) }
        ensures nested { IfOk result (λ p. NestsWithin 250 p) }
        ensures err { IfErr result (λ f. f ≢ Fault.NoRoom → f ≡ Fault.BadPattern) }
    {
        let mut room = SIZE_LIMIT;
        Pattern::build_within(alloc, source, &mut room)
    }

    /// Reads the text and builds what it spells as [`Pattern::build`] does, with the same faults, for one of several patterns
    /// that share a room of so many bytes. What this one takes is taken from the room; a pattern that takes more than there is
    /// left is [`Fault::BadPattern`] too. Each fault leaves the room as it was.
    pub fn build_within(alloc: Global, source: &str, room: &mut usize) -> Result<Pattern, Fault>
        ensures ok { IfOk result (λ p. p ≡ source.now) }
        ensures read { IfOk result (λ p. is_read p ≡ true) }
        ensures nested { IfOk result (λ p. NestsWithin 250 p) }
        ensures spent { OnOk result (room.new ≤ room.old - 24) }
        ensures unspent { OnErr result (room.new ≡ room.old) }
        ensures err { IfErr result (λ f. f ≢ Fault.NoRoom → f ≡ Fault.BadPattern) }
    {
        let (machine, size) = Machine::build(alloc, source, SIZE_LIMIT.min(*room))?;
        let text = String::from_str(alloc, source)?;
        *room = room.saturating_sub(size);
        Ok(Pattern {
            text,
            machine: RefCell::new(machine),
        })
    }

    /// The text that the pattern was built from.
    pub fn text(&self) -> &str
        ensures text { result.now ≡ self.now }
        ensures read { is_read self.now ≡ true }
    {
        self.text.as_str()
    }

    /// Holds the pattern's machine for several searches, where nothing else holds it. Its text is compared with the pattern's
    /// once.
    #[inline(always)]
    pub fn hold(&self) -> Option<HeldPattern<'_>>
        ensures { IfSome result (λ h. held_text h ≡ self.now) }
    {
        match self.machine.try_borrow_mut() {
            Ok(machine) if machine.text() == self.text() => Some(HeldPattern { machine }),
            _ => None,
        }
    }

    /// Whether the pattern matches somewhere in the text, as [`HeldPattern::matches`] says it. The only error is want of memory.
    #[inline(always)]
    pub fn matches(&self, alloc: Global, text: &str) -> Result<bool, AllocError>
        ensures { IfOk result (λ found. found ≡ has_match self.now text.now) }
    {
        match self.hold() {
            Some(mut held) => held.matches(alloc, text),
            // Never: nothing else holds the machine, and it is this pattern's.
            None => Err(AllocError),
        }
    }
}
