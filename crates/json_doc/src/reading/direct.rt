//! A value straight from the tokens of its text, where each of them is plain.

ghost use Rattle.std.specs.Prelude.{◌≡◌, ◌==◌, ◌<◌, Some, true, false, IsTrue, IfOk, IfSome, OnOk, length, map, slice_index, option_and_then};
ghost use Rattle.fast_float.specs.Text.{scan};
ghost use Rattle.serde_json.specs.Find.{as_integer};
ghost use Rattle.serde_json.specs.Read.{number_from};
ghost use Rattle.definitions.specs.Values.{to_elements};
ghost use Rattle.json_doc.specs.Docs.{value, members_view};
ghost use Rattle.json_doc.specs.Reads.{value_at, elements_at, members_at, whole_at, IsNumeralOf, IsTextOf};

use crate::doc::Doc;
use crate::gathered::Gathered;
use crate::members::Members;
use crate::tuning::{LEAST_ROOM, MOST_ROOM};
use crate::whole::Whole;
use fast_float::Numeral;
use json::{Invalid, Reader, Scratch, Token};
use std::alloc::{AllocError, AllocFailed, Global};

// How deep arrays and objects may nest.
const MAX_NESTING: usize = 127;

// How many digits surely fit 64 bits, with a sign too.
const MAX_DIGITS: usize = 18;

/// Why a text was not read.
#[derive(Clone, Copy, Debug, Drop)]
pub(crate) enum Unread {
    /// A token is not plain, so it stays open what the text is.
    NotSure,
    /// Want of memory.
    NoRoom,
}

impl From<AllocError> for Unread {
    fn from(_refused: AllocError) -> Unread {
        Unread::NoRoom
    }
}

impl<T: Drop> From<AllocFailed<T>> for Unread {
    fn from(_refused: AllocFailed<T>) -> Unread {
        Unread::NoRoom
    }
}

impl From<Invalid> for Unread {
    fn from(_invalid: Invalid) -> Unread {
        Unread::NotSure
    }
}

/// The value of the text, where its numbers are whole and it nests at most 127 deep. Of other texts it says nothing.
pub(crate) fn read_directly(alloc: Global, scratch: &mut Scratch, text: &str) -> Result<Doc, Unread>
    ensures { IfOk result (λ d. IsTextOf text.now (value d)) }
{
    let mut reader = Reader::new(text, scratch)?;
    let mut room = LEAST_ROOM;
    let doc = doc_from(alloc, &mut reader, MAX_NESTING, &mut room)?;
    if reader.next().is_some() {
        return Err(Unread::NotSure);
    }
    Ok(doc)
}

// For as many members as the object had that was read last, within bounds, there is room at once in the next one.
#[cycle(tokens)]
#[inline(always)]
fn doc_from(
    alloc: Global,
    reader: &mut Reader<'_>,
    depth: usize,
    room: &mut usize,
) -> Result<Doc, Unread>
    ensures ok { IfOk result (λ d. value_at depth reader.old ≡ Some (value d, reader.new)) }
    ensures shorter { OnOk result (length reader.new < length reader.old) }
{
    let token = reader.next().ok_or(Unread::NotSure)?;
    match token {
        Token::String(text) => Ok(Doc::string(alloc, text)?),
        Token::Number(text) => match whole_from(text) {
            Some(whole) => Ok(Doc::Int(whole)),
            None => Err(Unread::NotSure),
        },
        Token::Bool(boolean) => Ok(Doc::Bool(boolean)),
        Token::Null => Ok(Doc::Null),
        Token::EndObject | Token::EndArray | Token::Key(_) | Token::Bad => Err(Unread::NotSure),
        Token::BeginArray => {
            if depth == 0 {
                return Err(Unread::NotSure);
            }
            Ok(Doc::List(list_from(alloc, reader, depth - 1, room)?))
        }
        Token::BeginObject => {
            if depth == 0 {
                return Err(Unread::NotSure);
            }
            Ok(Doc::Dict(dict_from(alloc, reader, depth - 1, room)?))
        }
    }
}

#[cycle(tokens)]
#[inline(never)]
fn list_from(
    alloc: Global,
    reader: &mut Reader<'_>,
    depth: usize,
    room: &mut usize,
) -> Result<Vec<Doc>, Unread>
    ensures ok { IfOk result (λ v.
        elements_at depth reader.old ≡ Some (to_elements (map value v.items), reader.new)) }
    ensures shorter { OnOk result (length reader.new < length reader.old) }
{
    let mut items = Vec::new(alloc);
    'items: while !reader.take_end_array() {
        let item = doc_from(alloc, reader, depth, room)?;
        items.push(item)?;
    }
    Ok(items)
}

#[cycle(tokens)]
#[inline(never)]
fn dict_from(
    alloc: Global,
    reader: &mut Reader<'_>,
    depth: usize,
    room: &mut usize,
) -> Result<Members, Unread>
    ensures ok { IfOk result
        (λ m. members_at depth reader.old ≡ Some (members_view m, reader.new)) }
    ensures shorter { OnOk result (length reader.new < length reader.old) }
{
    let mut gathered = Gathered::new(alloc);
    'members: while let Some(name) = reader.next_key()? {
        let member = doc_from(alloc, reader, depth, room)?;
        gathered.make_room(*room)?;
        gathered.insert(alloc, name, member)?;
    }
    *room = gathered.len().clamp(LEAST_ROOM, MOST_ROOM);
    Ok(gathered.into_members(alloc)?)
}

// The number that the token spells, if it is whole and 64 bits hold it.
#[inline(always)]
fn whole_from(text: &str) -> Option<Whole>
    ensures { IfSome result (λ z. whole_at text.now ≡ Some z) }
{
    let bytes = text.as_bytes();
    if has_minus(bytes) {
        negative_from(&bytes[1..])
    } else {
        positive_from(bytes)
    }
}

#[inline(always)]
fn positive_from(digits: &[u8]) -> Option<Whole>
    ensures { IfSome result (λ z.
        option_and_then as_integer (number_from false (scan digits.now)) ≡ Some z) }
{
    match natural_from(digits) {
        Some(natural) => Some(Whole::of(natural)),
        None => long_positive_from(digits),
    }
}

// Zero is none: `-0` is no whole number.
#[inline(always)]
fn negative_from(digits: &[u8]) -> Option<Whole>
    ensures { IfSome result (λ z.
        option_and_then as_integer (number_from true (scan digits.now)) ≡ Some z) }
{
    match natural_from(digits) {
        Some(natural) => if natural > 0 {
            Some(Whole::below_zero(natural - 1))
        } else {
            None
        },
        None => long_negative_from(digits),
    }
}

// The number that a token without a minus spells, however many digits it has, if it is whole and 64 bits hold it.
#[cold]
#[inline(never)]
fn long_positive_from(digits: &[u8]) -> Option<Whole>
    ensures { IfSome result (λ z.
        option_and_then as_integer (number_from false (scan digits.now)) ≡ Some z) }
{
    positive_of(&Numeral::scan(digits))
}

#[cold]
#[inline(never)]
fn long_negative_from(digits: &[u8]) -> Option<Whole>
    ensures { IfSome result (λ z.
        option_and_then as_integer (number_from true (scan digits.now)) ≡ Some z) }
{
    negative_of(&Numeral::scan(digits))
}

fn positive_of(numeral: &Numeral<'_>) -> Option<Whole>
    ensures { IfSome result (λ z.
        option_and_then as_integer (number_from false numeral.now) ≡ Some z) }
{
    match numeral.to_u64() {
        Some(number) => Some(Whole::of(number)),
        None => None,
    }
}

fn negative_of(numeral: &Numeral<'_>) -> Option<Whole>
    ensures { IfSome result (λ z.
        option_and_then as_integer (number_from true numeral.now) ≡ Some z) }
{
    match numeral.to_i64(true) {
        Some(number) => if number < 0 {
            Some(Whole::of_signed(number))
        } else {
            None
        },
        None => None,
    }
}

// The number that the bytes write, if they are 1 to 18 digits.
#[inline(always)]
fn natural_from(digits: &[u8]) -> Option<u64>
    ensures { IfSome result (IsNumeralOf digits.now) }
{
    if digits.is_empty() || digits.len() > MAX_DIGITS {
        return None;
    }
    let mut natural = 0;
    for digit in digits {
        match *digit {
            b'0'..=b'9' => natural = natural * 10 + u64::from(*digit - b'0'),
            _ => return None,
        }
    }
    Some(natural)
}

#[inline(always)]
fn has_minus(bytes: &[u8]) -> bool
    ensures value { result ≡ (slice_index bytes.now 0 == 45) }
    ensures len { IsTrue result → 0 < length bytes.now }
{
    !bytes.is_empty() && bytes[0] == b'-'
}
