//! Texts as they stand in strings of JSON (RFC 8259, section 7), by the writer of `json`.

ghost use Rattle.std.specs.Prelude.{◌≡◌, ◌+◌, ◌<◌, ◌≤◌, ◌++◌, [], length, OnOk, string_bytes};
ghost use Rattle.std.specs.Bool.{OnTrue};
ghost use Rattle.json.specs.Print.{escape, print, quoted};
ghost use Rattle.json.specs.Written.{PlainBetween};
ghost use Rattle.basic_output.specs.Buffers.{buffer_text};

use super::buffer::TextBuffer;
use json::Writer;
use std::alloc::{AllocError, Global};
use std::mem::replace;
use std::simd::prelude::*;

/// Appends a text as it stands in a string, behind what leads it, by way of the memory. The only error is want of memory.
#[inline(always)]
pub(crate) fn push_escaped(
    out: &mut TextBuffer,
    memory: &mut String,
    prefix: &str,
    text: &str,
) -> Result<(), AllocError>
    ensures { OnOk result (buffer_text out.new
        ≡ buffer_text out.old ++ (prefix.now ++ escape text.now)) }
{
    if are_unescaped(text.as_bytes()) {
        return out.push_prefixed(prefix, text);
    }
    push_escapes(out, memory, prefix, text)
}

// Appends a text that may need escapes, behind what leads it. Want of memory is the only error. Few texts come here.
#[inline(never)]
fn push_escapes(
    out: &mut TextBuffer,
    memory: &mut String,
    prefix: &str,
    text: &str,
) -> Result<(), AllocError>
    ensures { OnOk result (buffer_text out.new
        ≡ buffer_text out.old ++ (prefix.now ++ escape text.now)) }
{
    write_string(memory, text)?;
    out.push_prefixed(prefix, &memory.as_str()[1..memory.len() - 1])
}

// Writes the string, with its quotation marks, in place of what the memory has.
fn write_string(memory: &mut String, text: &str) -> Result<(), AllocError>
    ensures { OnOk result (string_bytes memory.new ≡ quoted text.now) }
{
    let mut out = writer_over(memory);
    out.string(text)?;
    *memory = written_by(out);
    Ok(())
}

/// A writer that writes over the memory, which has none until it is given back.
pub(super) fn writer_over(memory: &mut String) -> Writer
    ensures before { result.before ≡ [] }
    ensures tokens { result.tokens ≡ [] }
{
    let alloc = *memory.allocator();
    let mut bytes = replace(memory, String::new(alloc)).into_bytes();
    bytes.clear();
    Writer::new(bytes)
}

/// What such a writer wrote.
pub(super) fn written_by(out: Writer) -> String
    requires { out.before ≡ [] }
    ensures { string_bytes result ≡ print out.tokens }
{
    unsafe { String::from_utf8_unchecked(out.into_inner()) }
}

/// Whether the text surely stands in a string as it is: it is looked at by vectors.
#[inline(always)]
pub(crate) fn are_unescaped(bytes: &[u8]) -> bool
    ensures { OnTrue result (escape bytes.now ≡ bytes.now) }
{
    if bytes.len() >= 16 {
        are_many_unescaped::<16>(bytes)
    } else if bytes.len() >= 4 {
        are_many_unescaped::<4>(bytes)
    } else if !bytes.is_empty() {
        are_many_unescaped::<1>(bytes)
    } else {
        true
    }
}

// Whether N bytes or more surely stand in a string as they are. The last N may be looked at twice. It is inlined for its size.
fn are_many_unescaped<const N: usize>(bytes: &[u8]) -> bool
    requires { (0 < N) × (N ≤ 64) × (N ≤ length bytes.now) }
    ensures { OnTrue result (PlainBetween bytes.now 0 (length bytes.now)) }
{
    let mut at = 0;
    while bytes.len() - at > N {
        if !are_unescaped_at::<N>(bytes, at) {
            return false;
        }
        at += N;
    }
    are_unescaped_at::<N>(bytes, bytes.len() - N)
}

// Whether N bytes from there on do.
#[inline(always)]
fn are_unescaped_at<const N: usize>(bytes: &[u8], at: usize) -> bool
    requires { (N ≤ 64) × (at + N ≤ length bytes.now) }
    ensures { OnTrue result (PlainBetween bytes.now at (at + N)) }
{
    let lanes = Simd::<u8, N>::from_slice(&bytes[at..]);
    let escaped = lanes.simd_eq(Simd::splat(b'"'))
        | lanes.simd_eq(Simd::splat(b'\\'))
        | lanes.simd_lt(Simd::splat(b' '));
    escaped.to_bitmask() == 0
}
