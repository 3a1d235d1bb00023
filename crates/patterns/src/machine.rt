//! A pattern's tables, with the machine that searches by them.

ghost use Rattle.std.specs.Prelude.{◌≡◌, ◌≢◌, ◌≤◌, true, is_some, IfOk, IfErr};
ghost use Rattle.definitions.specs.Patterns.{is_read, has_match};
ghost use Rattle.patterns.specs.Machines.{Spells};
ghost use Rattle.patterns.specs.Nesting.{NestsWithin};
ghost use Rattle.regex.specs.Patterns.{Re, find_str};
ghost use Rattle.regex_compile.specs.Implements.{Implements};
ghost use Rattle.regex_hir.specs.Meaning.{meaning};
ghost use Rattle.regex_hir.specs.Text as text;

use crate::whole_characters::matches_text;
use faults::Fault;
use regex_compile::Error;
use regex_dfa::{Dfa, End, Forward};
use regex_extract::is_anchored_start;
use regex_hir::Hir;
use regex_nfa::Nfa;
use regex_syntax::{Config, ErrorKind, Parsed};
use regex_vm::PikeVm;
use std::alloc::{AllocError, Global};
use std::marker::Model;

/// About how many bytes the states may take that the searches for a small pattern build.
const LEAST_BUDGET: usize = 4 << 10;

/// And those for any pattern.
const MOST_BUDGET: usize = 8 << 20;

/// What a pattern was built to, and what searches have learned about it.
///
/// Contracts see the pattern's text, as bytes.
#[derive(Drop)]
pub(crate) struct Machine {
    text: String,
    dfa: Dfa,
    forward: Forward,
    /// Each match begins where the text does.
    is_anchored: bool,
    /// No match is empty.
    is_filled: bool,
}

// What a text is built to.
#[derive(Drop)]
struct Built {
    dfa: Dfa,
    /// Each match begins where the text does.
    is_anchored: bool,
    /// No match is empty.
    is_filled: bool,
    /// How many bytes it is charged with.
    size: usize,
}

impl Model for Machine {
    ghost use Rattle.std.specs.Prelude.{string_bytes};
    ghost use Rattle.definitions.specs.Values.{Text};
    ghost use Rattle.patterns.specs.Machines.{Spells};
    ghost use Rattle.regex_dfa.specs.Search.{IsForwardFor};

    ghost Value = { Text };

    ghost view = { λ m. string_bytes m.text };

    ghost invariant = { λ m. IsForwardFor m.forward m.dfa × Spells (string_bytes m.text) m.dfa.nfa m.is_anchored m.is_filled };
}

impl Machine {
    /// Builds what the text spells, where its tables take at most `limit` bytes, and says what they are charged with.
    pub(crate) fn build(alloc: Global, text: &str, limit: usize) -> Result<(Machine, usize), Fault>
        ensures ok { IfOk result (λ m. m.0 ≡ text.now) }
        ensures read { IfOk result (λ m. is_read m.0 ≡ true) }
        ensures nested { IfOk result (λ m. NestsWithin 250 m.0) }
        ensures size { IfOk result (λ m. 24 ≤ m.1) }
        ensures err { IfErr result (λ f. f ≢ Fault.NoRoom → f ≡ Fault.BadPattern) }
    {
        let Built {
            dfa,
            is_anchored,
            is_filled,
            size,
        } = tables(alloc, text, limit)?;
        let forward = Forward::with_budget(alloc, &dfa, false, budget_of(&dfa.nfa))?;
        let text = String::from_str(alloc, text)?;
        Ok((
            Machine {
                text,
                dfa,
                forward,
                is_anchored,
                is_filled,
            },
            size,
        ))
    }

    /// The text of the pattern.
    pub(crate) fn text(&self) -> &str
        ensures { result.now ≡ self.now }
    {
        self.text.as_str()
    }

    /// Whether the pattern matches somewhere in the text. The only error is want of memory.
    #[inline(always)]
    pub(crate) fn is_match(&mut self, alloc: Global, text: &str) -> Result<bool, AllocError>
        ensures ok { IfOk result (λ found. found ≡ has_match self.old text.now) }
        ensures same { self.new ≡ self.old }
    {
        let hay = text.as_bytes();
        if !self.is_anchored {
            match self
                .forward
                .find_end(&self.dfa, hay, 0, hay.len(), false, true)
            {
                End::NoMatch => return Ok(false),
                End::At(_) if self.is_filled => return Ok(true),
                _ => {}
            }
        }
        self.is_match_from_start(alloc, hay)
    }

    // Whether the pattern matches somewhere in the text, with a look at the start first: all matches begin there, or
    // one may be empty, or the DFA gave up. The only error is want of memory.
    fn is_match_from_start(&mut self, alloc: Global, hay: &[u8]) -> Result<bool, AllocError>
        ensures ok { IfOk result (λ found. found ≡ has_match self.old hay.now) }
        ensures same { self.new ≡ self.old }
    {
        match self
            .forward
            .find_end(&self.dfa, hay, 0, hay.len(), true, true)
        {
            End::NoMatch if self.is_anchored => return Ok(false),
            End::At(_) if is_boundary(hay, 0) => return Ok(true),
            _ => {}
        }
        is_match_by_threads(alloc, &self.dfa.nfa, hay)
    }
}

// Whether the NFA has a match in text. It looks at each thread, and keeps nothing. The only error is want of memory.
fn is_match_by_threads(alloc: Global, nfa: &Nfa, hay: &[u8]) -> Result<bool, AllocError>
    ensures { (re : Re) → Implements nfa.now re
        → IfOk result (λ found. found ≡ is_some (find_str re hay.now 0)) }
{
    let mut threads = PikeVm::new(alloc, nfa)?;
    let mut at = 0;
    loop {
        let Some((from, _)) = threads.find(nfa, hay, at, hay.len(), hay.len(), &mut []) else {
            return Ok(false);
        };
        if is_boundary(hay, from) {
            return Ok(true);
        }
        at = from + 1;
    }
}

// How many bytes the tables of the NFA take. Two states begin each.
fn size_of_tables(nfa: &Nfa) -> usize
    ensures { 24 ≤ result }
{
    let states = nfa.states.len().saturating_mul(12);
    let transitions = nfa.transitions.len().saturating_mul(8);
    states.saturating_add(transitions)
}

// How many bytes the states that searches build may take: some four times what the tables take.
fn budget_of(nfa: &Nfa) -> usize {
    let states = nfa.states.len().saturating_mul(64);
    let transitions = nfa.transitions.len().saturating_mul(32);
    states
        .saturating_add(transitions)
        .clamp(LEAST_BUDGET, MOST_BUDGET)
}

// Whether no character goes on at this place.
fn is_boundary(hay: &[u8], at: usize) -> bool
    ensures { result ≡ text.is_boundary hay.now at }
{
    if at >= hay.len() {
        return true;
    }
    (hay[at] < 0x80) | (hay[at] > 0xBF)
}

// The tables for what the grammar reads in the text.
fn tables(alloc: Global, text: &str, limit: usize) -> Result<Built, Fault>
    ensures ok { IfOk result (λ t. Spells text.now t.dfa.nfa t.is_anchored t.is_filled) }
    ensures size { IfOk result (λ t. 24 ≤ t.size) }
    ensures err { IfErr result (λ f. f ≢ Fault.NoRoom → f ≡ Fault.BadPattern) }
{
    let Parsed { hir, names } = match regex_syntax::parse(alloc, text, &Config::default()) {
        Ok(parsed) => parsed,
        Err(refusal) => return Err(fault_of_reading(refusal.kind)),
    };
    let Ok(groups) = u32::try_from(names.len()) else {
        return Err(Fault::BadPattern);
    };
    if !matches_text(&hir) {
        return Err(Fault::BadPattern);
    }
    match compile(alloc, &hir, groups, limit) {
        Ok((dfa, size)) => Ok(Built {
            dfa,
            is_anchored: is_anchored_start(&hir),
            is_filled: hir.min_len() > 0,
            size,
        }),
        Err(refusal) => Err(fault_of_building(refusal)),
    }
}

// The tables of the tree, in at most `limit` bytes, and what they are charged with: what they take, and no less than a
// quarter of what it took to write them, since a part that reads nothing takes time and leaves no state. So small limits
// are tried first.
fn compile(alloc: Global, hir: &Hir, groups: u32, limit: usize) -> Result<(Dfa, usize), Error>
    ensures tables { IfOk result (λ t. Implements t.0.nfa (meaning hir.now)) }
    ensures size { IfOk result (λ t. 24 ≤ t.1) }
{
    let mut passed = 0;
    for attempt in 0..8_u32 {
        let tried = limit >> (14 - 2 * attempt);
        match regex_compile::compile(alloc, hir, groups, tried) {
            Ok(nfa) => {
                let size = size_of_tables(&nfa).max(passed);
                return Ok((Dfa::new(alloc, nfa)?, size));
            }
            Err(Error::TooBig) => passed = tried,
            Err(refusal) => return Err(refusal),
        }
    }
    Err(Error::TooBig)
}

fn fault_of_reading(refusal: ErrorKind) -> Fault
    ensures memory { refusal ≡ ErrorKind.OutOfMemory → result ≡ Fault.NoRoom }
    ensures pattern { refusal ≢ ErrorKind.OutOfMemory → result ≡ Fault.BadPattern }
    ensures either { result ≢ Fault.NoRoom → result ≡ Fault.BadPattern }
{
    match refusal {
        ErrorKind::OutOfMemory => Fault::NoRoom,
        _ => Fault::BadPattern,
    }
}

fn fault_of_building(refusal: Error) -> Fault
    ensures memory { refusal ≡ Error.OutOfMemory → result ≡ Fault.NoRoom }
    ensures pattern { refusal ≢ Error.OutOfMemory → result ≡ Fault.BadPattern }
    ensures either { result ≢ Fault.NoRoom → result ≡ Fault.BadPattern }
{
    match refusal {
        Error::OutOfMemory => Fault::NoRoom,
        Error::TooBig | Error::Malformed => Fault::BadPattern,
    }
}
