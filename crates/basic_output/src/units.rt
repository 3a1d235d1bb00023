//! The units of the basic output, as they are collected (JSON Schema 2020-12 Core, 12.4.2).
#![tactic(auto, unfolding(crate::specs::Units::unit_texts, crate::specs::Spans::span_text))]

ghost use Rattle.std.specs.Prelude.{◌≡◌, ◌≤◌, ◌<◌, ◌∷◌, ◌++◌, ◌-◌, [], ℕ, None, Some, drop, false, if◌then◌else◌, length, nat_eq, nat_le, take, true, OnOk, OnErr};
ghost use Rattle.std.specs.List.{All, insert, list_all};
ghost use Rattle.basic_output.specs.Buffers.{buffer_text};
ghost use Rattle.basic_output.specs.Parts.{text_of_unit};
ghost use Rattle.basic_output.specs.Sayings.{says_value};
ghost use Rattle.basic_output.specs.Spans.{IsSpan, ascends, last_end, order_of, span_text, texts_in_order};

use crate::location::Location;
use crate::memory::is_still_kept;
use crate::says::Says;
use crate::unit_text::{MessageBuffer, TextBuffer, append_unit};
use std::alloc::{AllocError, Global};
use std::marker::Model;

/// Where the text of a unit stands, and the position that the unit took among those that were made before it.
#[derive(Clone, Copy, Debug, Drop)]
pub(crate) struct Span {
    start: usize,
    end: usize,
    position: usize,
}

impl Span {
    /// What stands there of the text of all.
    pub(crate) fn text_in<'t>(&self, text: &'t str) -> &'t str
        requires { IsSpan text.now self.now }
        ensures { result.now ≡ span_text text.now self.now }
    {
        &text[self.start..self.end]
    }

    /// Its text and the next one's, where that stands behind a comma behind it.
    pub(crate) fn joined(self, next: Span) -> Option<Span>
        ensures { result ≡ (if nat_eq (next.start - 1) self.end then Some (record {
          start = self.start;
          end = next.end;
          position = next.position;
        }) else None) }
    {
        let start = self.start;
        (next.start.saturating_sub(1) == self.end).then_some(Span { start, ..next })
    }
}

/// Units in order, as their texts.
///
/// Contracts see the texts, by `unit_texts`.
#[derive(Drop)]
pub struct Units {
    // The texts, in the order in which they were made, each behind a comma.
    text: TextBuffer,
    // Where each stands, in the same order.
    spans: Vec<Span>,
    // The units in order, each by its place in that one.
    order: Vec<usize>,
    // Whether the order may be another one than their positions tell, as where memory was wanting: then no text is cut off.
    is_unordered: bool,
    // Where what a unit says is written.
    message_buffer: MessageBuffer,
    ghost are_spans: { All (IsSpan (buffer_text text)) spans.items },
    ghost ascend: { ascends 0 spans.items ≡ true },
    ghost within: { All (λ i. i < length spans.items) order.items },
    ghost is_ordered: { is_unordered ≡ false → order.items ≡ order_of spans.items },
}

/// How many units there are, so that a later one can be put there, or those that come later can be cut off.
///
/// Contracts see the number.
#[derive(Clone, Copy, Debug, Drop)]
pub struct Mark {
    units: usize,
}

impl Model for Mark {
    ghost Value = { ℕ };

    ghost view = { λ m. m.units };

    ghost inverse = { λ n. record { units = n } };
}

impl Units {
    ghost use Rattle.basic_output.specs.Units.{unit_texts};

    /// No units. This takes no memory; the units that come later take it from `alloc`.
    pub fn new(alloc: Global) -> Units
        ensures { unit_texts result ≡ [] }
    {
        Units {
            text: TextBuffer::new(alloc),
            spans: Vec::new(alloc),
            order: Vec::new(alloc),
            is_unordered: false,
            message_buffer: MessageBuffer::new(alloc),
        }
    }

    /// The position after all units that there are.
    pub fn mark(&self) -> Mark
        ensures { result ≡ length (unit_texts self.now) }
    {
        let units = self.order.len();
        Mark { units }
    }

    /// Puts a unit last: an annotation, or else an error. The only error is want of memory; then the units stay as they were.
    pub fn push(
        &mut self,
        annotates: bool,
        location: Location<'_>,
        says: Says<'_, '_>,
    ) -> Result<(), AllocError>
        ensures ok { OnOk result (unit_texts self.new
            ≡ unit_texts self.old
            ++ text_of_unit annotates location.entry (says_value says.entry) ∷ []) }
        ensures unchanged { OnErr result (unit_texts self.new ≡ unit_texts self.old) }
    {
        self.insert(self.mark(), annotates, location, says)
    }

    /// Puts a unit at a mark, before those that came later: a keyword's own unit stands before those of what it applied. Of a
    /// mark past the last unit it is put last. The only error is want of memory, and then the units stay as they were.
    pub fn insert(
        &mut self,
        mark: Mark,
        annotates: bool,
        location: Location<'_>,
        says: Says<'_, '_>,
    ) -> Result<(), AllocError>
        ensures ok { OnOk result (unit_texts self.new ≡ insert (unit_texts self.old) mark
            (text_of_unit annotates location.entry (says_value says.entry))) }
        ensures unchanged { OnErr result (unit_texts self.new ≡ unit_texts self.old) }
    {
        let start = self.text.len();
        append_unit(
            &mut self.text,
            &mut self.message_buffer,
            annotates,
            location,
            says,
        )?;
        let end = self.text.len();
        let position = mark.units.min(self.order.len());
        let span = Span {
            start: start + 1,
            end,
            position,
        };
        let place = self.spans.len();
        self.spans.push(span)?;
        match put(&mut self.order, position, place) {
            Ok(()) => Ok(()),
            Err(error) => {
                self.is_unordered = true;
                Err(error)
            }
        }
    }

    /// Cuts off the units that came after the mark. Their memory is for the texts of later ones.
    pub fn cut_back(&mut self, mark: Mark)
        ensures { unit_texts self.new ≡ take mark (unit_texts self.old) }
    {
        if mark.units < self.order.len() {
            self.cut_to(mark.units);
        }
    }

    // The first units stay, so many. Their texts do, and so do those of the others, unless these surely came after them.
    fn cut_to(&mut self, units: usize)
        ensures { unit_texts self.new ≡ take units (unit_texts self.old) }
    {
        self.order.truncate(units);
        if self.is_unordered || !are_put_behind(self.spans.as_slice(), units) {
            self.is_unordered = true;
            return;
        }
        self.spans.truncate(units);
        self.text.truncate(end_of(self.spans.as_slice()));
    }

    /// No units any more. Their memory is kept for the texts of later ones; but where it is more than what 1,048,576 bytes of text
    /// took, only as long as the texts take a quarter of it, and up to 16,777,216 bytes: else all of it is given back.
    pub fn clear(&mut self)
        ensures { unit_texts self.new ≡ [] }
    {
        if is_still_kept(self.text.bytes.len(), self.text.len()) && self.message_buffer.is_kept() {
            self.spans.clear();
            self.order.clear();
            self.is_unordered = false;
            self.text.truncate(0);
        } else {
            *self = Units::new(*self.spans.allocator());
        }
    }

    /// The text in which those of the units stand.
    pub(crate) fn text(&self) -> &str
        ensures { result.now ≡ buffer_text self.now.text }
    {
        self.text.as_str()
    }

    /// Where they stand, in the order in which they were made.
    pub(crate) fn spans(&self) -> &[Span]
        ensures { result.now ≡ self.now.spans.items }
    {
        self.spans.as_slice()
    }

    /// The units in order, each by its place in that one.
    pub(crate) fn order(&self) -> &[usize]
        ensures value { result.now ≡ self.now.order.items }
        ensures texts { texts_in_order (buffer_text self.now.text) self.now.spans.items result.now
            ≡ unit_texts self.now }
    {
        self.order.as_slice()
    }
}

// Puts a place at the position. The only error is want of memory, and then the order stays as it was.
#[inline(always)]
fn put(order: &mut Vec<usize>, position: usize, place: usize) -> Result<(), AllocError>
    requires { position ≤ length order.old.items }
    ensures ok { OnOk result (order.new.items ≡ insert order.old.items position place) }
    ensures unchanged { OnErr result (order.new.items ≡ order.old.items) }
{
    if position < order.len() {
        Ok(order.insert(position, place)?)
    } else {
        Ok(order.push(place)?)
    }
}

// Whether all but the first units, so many, were put behind these.
fn are_put_behind(spans: &[Span], units: usize) -> bool
    ensures { result ≡ list_all (λ s. nat_le units s.position) (drop units spans.now) }
{
    spans.iter().skip(units).all(|span| units <= span.position)
}

// Where the last text ends.
#[tactic(auto, using(crate::proofs::SpanLaws::last_is))]
fn end_of(spans: &[Span]) -> usize
    ensures { result ≡ last_end 0 spans.now }
{
    match spans.last() {
        Some(span) => span.end,
        None => 0,
    }
}
