//! The text of a unit, put together of its parts (JSON Schema 2020-12 Core, 12.4.2).

ghost use Rattle.std.specs.Prelude.{◌≡◌, ◌+◌, ◌≤◌, ◌∷◌, ◌++◌, if◌then◌else◌, is_ok, length, IfSome};
ghost use Rattle.basic_output.specs.Buffers.{buffer_text};
ghost use Rattle.basic_output.specs.Parts.{parts_text, message_ending, message_opening, text_of_unit, texts_length};
ghost use Rattle.basic_output.specs.Sayings.{says_value};
ghost use Rattle.basic_output.specs.WrittenOver.{IsWrittenOver};

mod buffer;
mod escaping;
mod message_buffer;
mod placing;
mod step_texts;

use crate::location::Location;
use crate::says::Says;
pub(crate) use buffer::TextBuffer;
use buffer::write;
pub(crate) use escaping::{are_unescaped, push_escaped};
pub(crate) use message_buffer::MessageBuffer;
use message_buffer::{Form, Message};
use std::alloc::AllocError;
pub(crate) use step_texts::Notation;
pub use step_texts::StepTexts;

/// All parts of a unit.
#[derive(Clone, Copy)]
struct UnitParts<'s> {
    annotates: bool,
    location: Location<'s>,
    message: Message<'s>,
}

/// Appends a comma and the text of a unit: of an annotation, or else of an error. What the unit says may be written apart first.
/// The only error is want of memory, and then nothing was appended.
#[inline(always)]
#[tactic(auto, unfolding(crate::specs::Buffers::buffer_text), using(crate::proofs::UnitLaws::unit_parts))]
pub(crate) fn append_unit(
    out: &mut TextBuffer,
    message_buffer: &mut MessageBuffer,
    annotates: bool,
    location: Location<'_>,
    says: Says<'_, '_>,
) -> Result<(), AllocError>
    ensures { buffer_text out.new ≡ (if is_ok result
        then buffer_text out.old
        ++ 44 ∷ text_of_unit annotates location.entry (says_value says.entry)
        else buffer_text out.old) }
{
    let message = message_buffer.message(says)?;
    let unit = UnitParts {
        annotates,
        location,
        message,
    };
    out.make_room(room_for(unit).ok_or(AllocError)?)?;
    out.len = write_unit(out.bytes.as_mut_slice(), out.len, unit);
    Ok(())
}

// How many bytes a comma and the unit take at most, if an address holds the number.
#[inline(always)]
fn room_for(unit: UnitParts<'_>) -> Option<usize>
    ensures { IfSome result (λ room. room ≡ 128 + texts_length unit.entry) }
{
    FRAME
        .checked_add(unit.location.head.len())?
        .checked_add(unit.location.onward.len())?
        .checked_add(unit.message.text.len())?
        .checked_add(unit.location.instance_location.len())?
        .checked_add(unit.location.path.len())
}

/// How many bytes all else of a unit takes at most.
const FRAME: usize = 128;

// Writes a comma and the unit over the bytes from there on: the position behind it.
#[inline(always)]
fn write_unit(bytes: &mut [u8], start: usize, unit: UnitParts<'_>) -> usize
    requires { start + 128 + texts_length unit ≤ length bytes.old }
    ensures written { IsWrittenOver start result (44 ∷ parts_text unit.entry) bytes.old bytes.new }
    ensures len { length bytes.new ≡ length bytes.old }
{
    let head = write(bytes, start, ",");
    let onward = write(bytes, head, unit.location.head);
    let opening = write(bytes, onward, unit.location.onward);
    let message = write_opening(bytes, opening, unit.annotates, unit.message.form);
    let ending = write(bytes, message, unit.message.text);
    let instance_location = write_ending(bytes, ending, unit.message.form);
    let key = write(bytes, instance_location, unit.location.instance_location);
    let path = write(bytes, key, "\",\"keywordLocation\":\"");
    let end = write(bytes, path, unit.location.path);
    write(bytes, end, "\"}")
}

// Writes what stands between the unit's location and what it says over the bytes from `start` on: the position behind it. Each
// text is written in a branch of its own, since one of a length that is known takes few instructions.
fn write_opening(bytes: &mut [u8], start: usize, annotates: bool, form: Form) -> usize
    requires { start + 17 ≤ length bytes.old }
    ensures end { result ≤ start + 17 }
    ensures written { IsWrittenOver start result
        (message_opening annotates form) bytes.old bytes.new }
    ensures len { length bytes.new ≡ length bytes.old }
{
    match (annotates, form) {
        (true, Form::Written) => write(bytes, start, "\",\"annotation\":"),
        (true, Form::NotMet | Form::Unescaped) => write(bytes, start, "\",\"annotation\":\""),
        (false, Form::Written) => write(bytes, start, "\",\"error\":"),
        (false, Form::NotMet | Form::Unescaped) => write(bytes, start, "\",\"error\":\""),
    }
}

// Writes what stands between what the unit says and its instance location over the bytes from `start` on: the position behind it.
fn write_ending(bytes: &mut [u8], start: usize, form: Form) -> usize
    requires { start + 40 ≤ length bytes.old }
    ensures end { result ≤ start + 40 }
    ensures written { IsWrittenOver start result (message_ending form) bytes.old bytes.new }
    ensures len { length bytes.new ≡ length bytes.old }
{
    match form {
        Form::NotMet => write(bytes, start, " is not met\",\"instanceLocation\":\""),
        Form::Unescaped => write(bytes, start, "\",\"instanceLocation\":\""),
        Form::Written => write(bytes, start, ",\"instanceLocation\":\""),
    }
}
