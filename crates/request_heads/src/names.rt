//! Names and values of fields.
ghost use Rattle.std.specs.Prelude.{◌≡◌, codes, length, ◌≤◌, OnOk, Some, None, if◌then◌else◌, reverse};
ghost use Rattle.std.specs.Str.{str_eq_ignore_ascii_case};
ghost use Rattle.std.specs.Str.Parse.{digits_value};
ghost use Rattle.httparse.specs.Grammar.{skip_ows, trim_ows};
ghost use Rattle.http_definitions.specs.Heads.{is_length, asks_to_close};

use httparse::is_space_or_tab;

/// The most digits of a length.
const MOST_DIGITS: usize = 7;

/// The most bytes of a body.
const MOST_BODY_BYTES: usize = 1048576;

/// Whether this is the name, in any case of its letters.
pub fn is_name(name: &[u8], text: &[u8]) -> bool
    ensures { result ≡ str_eq_ignore_ascii_case name.now text.now }
{
    name.eq_ignore_ascii_case(text)
}

fn trimmed_in_front(mut text: &[u8]) -> &[u8]
    ensures { result.now ≡ skip_ows text.now }
{
    while let [first, rest @ ..] = text
        && is_space_or_tab(*first)
    {
        text = rest;
    }
    text
}

fn trimmed_behind(mut text: &[u8]) -> &[u8]
    ensures { result.now ≡ reverse (skip_ows (reverse text.now)) }
{
    while let [rest @ .., last] = text
        && is_space_or_tab(*last)
    {
        text = rest;
    }
    text
}

fn is_close(part: &[u8]) -> bool
    ensures { result ≡ str_eq_ignore_ascii_case (codes "close") (trim_ows part.now) }
{
    is_name(b"close", trimmed_behind(trimmed_in_front(part)))
}

/// Whether one part of the value between commas is `close` (RFC 9110, section 7.6.1).
pub fn asks_to_close(value: &[u8]) -> bool
    ensures { result ≡ asks_to_close value.now }
{
    value.split(|byte| *byte == b',').any(|part| is_close(part))
}

/// The length that the value of a `content-length` tells (RFC 9110, section 8.6), where it is one: one to seven digits,
/// of which the number is at most 1,048,576.
pub fn told_length(value: &[u8]) -> Option<usize>
    ensures { result ≡ (if is_length value.now then Some (digits_value 10 value.now) else None) }
{
    if value.is_empty() || value.len() > MOST_DIGITS {
        return None;
    }
    let mut length = 0;
    for digit in value {
        if !digit.is_ascii_digit() {
            return None;
        }
        length = length * 10 + usize::from(*digit - b'0');
    }
    if length <= MOST_BODY_BYTES {
        Some(length)
    } else {
        None
    }
}
