//! Where a location's value stands in a text.

ghost use Rattle.std.specs.Bool.{OnTrue};
ghost use Rattle.std.specs.Prelude.{◌≡◌, ◌≤◌, Some, IfOk, IfErr, IfSome, length, slice_range};
ghost use Rattle.definitions.specs.Pointers.{find};
ghost use Rattle.json_doc.specs.Docs.{value};
ghost use Rattle.text_places.specs.Located.{IsPositionOf, Spells, spelled_value};

use crate::nodes::{Extent, Nodes};
use crate::position::{Position, Positions};
use faults::Fault;
use json::Scratch;
use json_doc::{Doc, read, same};
use json_pointer::Pointer;
use locations::find;
use std::alloc::Global;

/// A part of a text: from the byte at `start` up to the one at `end`.
#[derive(Clone, Copy, Debug, Drop, PartialEq, Eq)]
pub struct Span {
    /// The offset of the first byte.
    pub start: usize,
    /// The offset behind the last byte.
    pub end: usize,
}

/// A JSON text, and where each value in it begins.
#[derive(Drop)]
pub struct Places<'a> {
    text: &'a str,
    nodes: Nodes<'a>,
}

impl<'a> Places<'a> {
    ghost use Rattle.text_places.specs.PlacesViews.{places_text};

    /// The places of a text; of one that is no JSON, up to where it isn't. The only error is want of memory.
    pub fn of(alloc: Global, text: &'a str, scratch: &'a mut Scratch) -> Result<Places<'a>, Fault>
        ensures ok { IfOk result (λ p. places_text p ≡ text.now) }
        ensures err { IfErr result (λ f. f ≡ Fault.NoRoom) }
    {
        let nodes = Nodes::read(alloc, text, scratch)?;
        Ok(Places { text, nodes })
    }

    /// The bytes that spell the value that the pointer leads to in the value of the text; none where it leads to none. They
    /// are read again: what doesn't spell that value is none. The only error is want of memory.
    pub fn span(
        &mut self,
        alloc: Global,
        doc: &Doc,
        pointer: &Pointer,
    ) -> Result<Option<Span>, Fault>
        ensures same { places_text self.new ≡ places_text self.old }
        ensures ok { IfOk result (λ s. IfSome s
            (Spells (places_text self.old) (find pointer.now (value doc.now)))) }
        ensures err { IfErr result (λ f. f ≡ Fault.NoRoom) }
    {
        let Some(located) = find(doc, pointer) else {
            return Ok(None);
        };
        let Some(extent) = self.nodes.locate(pointer.tokens()) else {
            return Ok(None);
        };
        let text = self.text.as_bytes();
        let span = trimmed(text, extent);
        if spells(alloc, text, span, located)? {
            Ok(Some(span))
        } else {
            Ok(None)
        }
    }
}

// The part without the spaces and the comma at its end.
fn trimmed(text: &[u8], extent: Extent) -> Span
    ensures ordered { result.start ≤ result.end }
    ensures within { result.end ≤ length text.now }
{
    let mut end = extent.next.min(text.len());
    let start = extent.start.min(end);
    while end > start && is_after_value(text[end - 1]) {
        end -= 1;
    }
    Span { start, end }
}

fn is_after_value(byte: u8) -> bool {
    matches!(byte, b' ' | b'\t' | b'\n' | b'\r' | b',')
}

// Whether the part of the text spells the value.
fn spells(alloc: Global, text: &[u8], span: Span, doc: &Doc) -> Result<bool, Fault>
    requires { (span.start ≤ span.end) × (span.end ≤ length text.now) }
    ensures ok { IfOk result (λ b. OnTrue b
        (spelled_value (slice_range text.now span.start span.end) ≡ Some (value doc.now))) }
    ensures err { IfErr result (λ f. f ≡ Fault.NoRoom) }
{
    match read(alloc, &text[span.start..span.end]) {
        Ok(part) => Ok(same(&part, doc)),
        Err(Fault::NoRoom) => Err(Fault::NoRoom),
        Err(_) => Ok(false),
    }
}

/// The position of the value at a location in a JSON text; none where the text has none there. The only error is want of
/// memory. Who asks for many positions of one text keeps [`Places`] and [`Positions`].
pub fn position_of_location(
    alloc: Global,
    bytes: &[u8],
    location: &str,
) -> Result<Option<Position>, Fault>
    ensures ok { IfOk result (λ p. IfSome p (IsPositionOf bytes.now location.now)) }
    ensures err { IfErr result (λ f. f ≡ Fault.NoRoom) }
{
    match position_in(alloc, bytes, location) {
        Ok(position) => Ok(position),
        Err(Fault::NoRoom) => Err(Fault::NoRoom),
        Err(_) => Ok(None),
    }
}

// The position of the value at a location in a JSON text; none where the text has none there. The error is what the text or the
// location is refused for.
fn position_in(alloc: Global, bytes: &[u8], location: &str) -> Result<Option<Position>, Fault>
    ensures { IfOk result (λ p. IfSome p (IsPositionOf bytes.now location.now)) }
{
    let doc = read(alloc, bytes)?;
    let pointer = Pointer::parse(alloc, location)?;
    let Ok(text) = str::from_utf8(bytes) else {
        return Ok(None);
    };
    let mut scratch = Scratch::new(alloc);
    let mut places = Places::of(alloc, text, &mut scratch)?;
    match places.span(alloc, &doc, &pointer)? {
        Some(span) => Ok(Some(Positions::of(bytes).at(span.start))),
        None => Ok(None),
    }
}
