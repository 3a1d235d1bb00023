//! Where an instance's values stand in its text, and what they look like.

use crate::shortening::shortened;
use json_doc::{Doc, Fault};
use json_pointer::Pointer;
use locations::find;
use std::alloc::Global;
use text_places::{Places, Position, Positions};

/// The text of an instance, with its value and where its parts stand.
#[derive(Drop)]
pub(crate) struct InstanceText<'a> {
    text: &'a str,
    doc: Doc,
    places: Places<'a>,
    positions: Positions<'a>,
}

/// A value in an instance's text: where it begins, how it begins, and what a schema asks for instead, where that is told.
#[derive(Drop)]
pub(crate) struct Found {
    pub(crate) position: Position,
    pub(crate) value: String,
    pub(crate) wanted: Option<String>,
}

impl<'a> InstanceText<'a> {
    /// The text with its value and its places.
    pub(crate) fn of(text: &'a str, doc: Doc, places: Places<'a>) -> InstanceText<'a> {
        let positions = Positions::of(text.as_bytes());
        InstanceText {
            text,
            doc,
            places,
            positions,
        }
    }

    /// The value at a location; the text's beginning, and no value, where there is none. The only error is want of memory.
    pub(crate) fn find(&mut self, alloc: Global, location: &str) -> Result<Found, Fault> {
        let pointer = Pointer::parse(alloc, location)?;
        let (start, value) = match self.places.span(alloc, &self.doc, &pointer)? {
            Some(span) => (
                span.start,
                self.text.get(span.start..span.end).unwrap_or(""),
            ),
            None => (0, ""),
        };
        Ok(Found {
            position: self.positions.at(start),
            value: shortened(alloc, value)?,
            wanted: None,
        })
    }

    /// The value at a location, as it was read; none where there is none. The only error is want of memory.
    pub(crate) fn value_at(&self, alloc: Global, location: &str) -> Result<Option<&Doc>, Fault> {
        let pointer = Pointer::parse(alloc, location)?;
        Ok(find(&self.doc, &pointer))
    }
}
