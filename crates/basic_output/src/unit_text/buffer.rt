//! Texts that grow and are cut back again and again, over bytes that stay.
#![tactic(auto, unfolding(crate::specs::Buffers::buffer_text))]

ghost use Rattle.std.specs.Prelude.{◌≡◌, ◌+◌, ◌≤◌, ◌<◌, ◌++◌, ℕ, [], if◌then◌else◌, is_ok, length, take, true, OnErr, OnOk};
ghost use Rattle.std.specs.Str.{IsCharBoundary, is_utf8};
ghost use Rattle.basic_output.specs.WrittenOver.{IsWrittenOver};

use super::placing::place;
use crate::tuning::TEXT_ROOM;
use std::alloc::{AllocError, Global};
use std::str;

/// A text at the front of bytes that stay when it is cut back: what comes later is written over them, so that room is made for
/// several texts at once.
///
/// Contracts see the text, by `buffer_text`.
#[derive(Debug, Drop)]
pub(crate) struct TextBuffer {
    /// The bytes, of which the first are the text's.
    pub(crate) bytes: Vec<u8>,
    /// How many of them are the text's.
    pub(crate) len: usize,
    ghost within: { len ≤ length bytes.items },
    ghost utf8: { is_utf8 (take len bytes.items) ≡ true },
}

impl TextBuffer {
    ghost use Rattle.basic_output.specs.Buffers.{buffer_text};

    /// No text. This takes no memory; what comes later takes it from `alloc`.
    pub(crate) fn new(alloc: Global) -> TextBuffer
        ensures { buffer_text result ≡ [] }
    {
        TextBuffer {
            bytes: Vec::new(alloc),
            len: 0,
        }
    }

    /// How many bytes the text has.
    pub(crate) fn len(&self) -> usize
        ensures { result ≡ length (buffer_text self.now) }
    {
        self.len
    }

    /// The text.
    #[inline(always)]
    pub(crate) fn as_str(&self) -> &str
        ensures { result.now ≡ buffer_text self.now }
    {
        unsafe { str::from_utf8_unchecked(&self.bytes[..self.len]) }
    }

    /// Only so many bytes of the text stay.
    pub(crate) fn truncate(&mut self, len: usize)
        requires { len ≤ length (buffer_text self.old) → IsCharBoundary (buffer_text self.old) len }
        ensures { buffer_text self.new ≡ take len (buffer_text self.old) }
    {
        if len < self.len {
            self.len = len;
        }
    }

    /// Appends a text behind what leads it. The only error is want of memory, and then the text stays as it was.
    #[inline(always)]
    pub(crate) fn push_prefixed(&mut self, prefix: &str, text: &str) -> Result<(), AllocError>
        ensures { buffer_text self.new ≡ (if is_ok result
            then buffer_text self.old ++ (prefix.now ++ text.now)
            else buffer_text self.old) }
    {
        self.make_room(prefix.len() + text.len())?;
        self.len = write_prefixed(self.bytes.as_mut_slice(), self.len, prefix, text);
        Ok(())
    }

    /// Room for so many bytes more behind the text, which stays. The only error is want of memory.
    #[inline(always)]
    pub(crate) fn make_room(&mut self, more: usize) -> Result<(), AllocError>
        ensures room { OnOk result (self.new.len + more ≤ length self.new.bytes.items) }
        ensures len { self.new.len ≡ self.old.len }
        ensures text { buffer_text self.new ≡ buffer_text self.old }
    {
        match self.len.checked_add(more) {
            Some(end) if end <= self.bytes.len() => Ok(()),
            Some(end) => make_more_room(&mut self.bytes, end),
            None => Err(AllocError),
        }
    }
}

// As many bytes as that, where there are fewer: what stands there stays. The only error is want of memory. Few units call it.
#[inline(never)]
fn make_more_room(bytes: &mut Vec<u8>, end: usize) -> Result<(), AllocError>
    requires { length bytes.old.items < end }
    ensures room { OnOk result (end ≤ length bytes.new.items) }
    ensures longer { length bytes.old.items ≤ length bytes.new.items }
    ensures front { (start : ℕ) → start ≤ length bytes.old.items
        → take start bytes.new.items ≡ take start bytes.old.items }
{
    bytes.resize(end.saturating_add(TEXT_ROOM), b',')
}

// Writes a text behind what leads it over the bytes from there on: the position behind it.
#[inline(always)]
fn write_prefixed(bytes: &mut [u8], start: usize, prefix: &str, text: &str) -> usize
    requires { start + length prefix.now + length text.now ≤ length bytes.old }
    ensures written { IsWrittenOver start result (prefix.now ++ text.now) bytes.old bytes.new }
    ensures len { length bytes.new ≡ length bytes.old }
{
    let behind = write(bytes, start, prefix);
    write(bytes, behind, text)
}

/// Writes a text over as many of the bytes from there on: the position behind it.
#[inline(always)]
pub(crate) fn write(bytes: &mut [u8], start: usize, text: &str) -> usize
    requires { start + length text.now ≤ length bytes.old }
    ensures end { result ≡ start + length text.now }
    ensures written { IsWrittenOver start result text.now bytes.old bytes.new }
    ensures len { length bytes.new ≡ length bytes.old }
{
    place(bytes, start, text.as_bytes())
}
