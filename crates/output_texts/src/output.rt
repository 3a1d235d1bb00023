//! The basic output and its text (JSON Schema 2020-12 Core, 12.4.2).

ghost use Rattle.std.specs.Prelude.{◌≡◌, ◌-◌, ◌^◌, ◌++◌, List, length, map, min, IfOk, IfErr, OnOk, string_bytes};
ghost use Rattle.definitions.specs.Applied.{Outcome, OutputUnit};
ghost use Rattle.definitions.specs.Answers.{output_text};
ghost use Rattle.definitions.specs.Texts.{text};
ghost use Rattle.basic_output.specs.Pieces.{unit_text};
ghost use Rattle.basic_output.specs.Units.{unit_texts};
ghost use Rattle.output_texts.specs.Outputs.{counted_units, ending, opening, reported_units, text_around, units_output};

use crate::noted_units::NotedUnits;
use basic_output::Units;
use faults::Fault;
use std::alloc::{AllocError, Global};

/// What stands around the units, at most.
const FRAME: usize = 32;

/// The basic output of an instance, before its text is put together. The units are the annotations of a valid instance, or
/// the errors of another.
///
/// Contracts see whether the instance is valid, and the text, by `output_view`.
#[derive(Drop)]
pub struct Output {
    valid: bool,
    units: Box<NotedUnits>,
}

#[tactic(auto, unfolding(crate::specs::Outputs::output_view))]
impl Output {
    ghost use Rattle.output_texts.specs.Outputs.{output_view};

    /// By what was noted of the instance.
    pub fn new(valid: bool, units: Box<NotedUnits>) -> Output
        ensures { (o : Outcome) → o.valid ≡ valid
            → unit_texts (counted_units valid units.value)
            ≡ map (unit_text valid) (reported_units o)
            → output_view result ≡ (o.valid, output_text o) }
    {
        Output { valid, units }
    }

    /// Whether the instance is valid.
    pub fn valid(&self) -> bool
        ensures { result ≡ (output_view self.now).0 }
    {
        self.valid
    }

    /// What was noted of the instance, so that its memory is used again.
    pub fn into_units(self) -> Box<NotedUnits> {
        self.units
    }

    /// How many bytes its text has, counted without making it; `usize::MAX` where they are more, which no text has.
    pub fn text_len(&self) -> usize
        ensures { result ≡ min (length (output_view self.now).1) (2 ^ 64 - 1) }
    {
        text_len(self.valid, self.units.counted(self.valid))
    }

    /// Appends its text: compact JSON, with the names of each object in byte order. After want of memory a first part of it may
    /// stand there.
    pub fn write(&self, out: &mut String) -> Result<(), AllocError>
        ensures { OnOk result (string_bytes out.new
            ≡ string_bytes out.old ++ (output_view self.now).1) }
    {
        write_text(self.valid, self.units.counted(self.valid), out)
    }

    /// Its text.
    pub fn text(&self, alloc: Global) -> Result<String, AllocError>
        ensures { IfOk result (λ s. string_bytes s ≡ (output_view self.now).1) }
    {
        let mut out = String::with_capacity(alloc, room_of(self.units.counted(self.valid)))?;
        self.write(&mut out)?;
        Ok(out)
    }
}

/// The text of the basic output: compact JSON, with the names of each object in byte order. The units are the
/// annotations of a valid instance, or the errors of another. The only error is want of memory, [`Fault::NoRoom`].
pub fn output_text(alloc: Global, valid: bool, units: &Units) -> Result<String, Fault>
    ensures text { (us : List OutputUnit) → unit_texts units.now ≡ map (unit_text valid) us
        → IfOk result (λ s. string_bytes s ≡ text (units_output valid us)) }
    ensures answer { (o : Outcome) → o.valid ≡ valid
        → unit_texts units.now ≡ map (unit_text valid) (reported_units o)
        → IfOk result (λ s. string_bytes s ≡ output_text o) }
    ensures room { IfErr result (λ f. f ≡ Fault.NoRoom) }
{
    let mut out = String::with_capacity(alloc, room_of(units))?;
    write_text(valid, units, &mut out)?;
    Ok(out)
}

// Room for the text of the output: to count it would take longer than to write it into too much room.
fn room_of(units: &Units) -> usize {
    units.joined_room().saturating_add(FRAME)
}

// How many bytes the text of the output has.
fn text_len(valid: bool, units: &Units) -> usize
    ensures { result ≡ min (length (text_around valid (unit_texts units.now))) (2 ^ 64 - 1) }
{
    let (opening, ending) = frame(valid);
    units
        .joined_len()
        .saturating_add(opening.len())
        .saturating_add(ending.len())
}

fn write_text(valid: bool, units: &Units, out: &mut String) -> Result<(), AllocError>
    ensures { OnOk result (string_bytes out.new
        ≡ string_bytes out.old ++ text_around valid (unit_texts units.now)) }
{
    let (opening, ending) = frame(valid);
    out.push_str(opening)?;
    units.write_joined(out)?;
    out.push_str(ending)
}

// What stands before the units, and behind them.
fn frame(valid: bool) -> (&'static str, &'static str)
    ensures { (result.0.now ≡ opening valid) × (result.1.now ≡ ending valid) }
{
    if valid {
        ("{\"annotations\":[", "],\"valid\":true}")
    } else {
        ("{\"errors\":[", "],\"valid\":false}")
    }
}
