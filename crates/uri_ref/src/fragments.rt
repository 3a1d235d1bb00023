//! What the fragment of a URI names (RFC 3986, sections 2.1 and 3.5; RFC 6901, section 6).

ghost use Rattle.std.specs.Prelude.{◌≡◌, ◌≢◌, Ok, Err, Some, true, IfOk, IfErr, is_some, option_map, string_bytes};
ghost use Rattle.std.specs.Cow.{cow_str_bytes};
ghost use Rattle.std.specs.Str.{is_utf8};
ghost use Rattle.definitions.specs.Faults.{bad_fragment};
ghost use Rattle.definitions.specs.Fragments.{fragment_kind, hex_value, kind_of_decoded_text, kind_of_text, percent_decoded_text};
ghost use Rattle.faults.specs.View.{fault_view};
ghost use Rattle.uri_ref.specs.Escapes.{after_digits};
ghost use Rattle.uri_ref.specs.FragmentViews.{fragment_view};

use faults::Fault;
use json_pointer::Pointer;
use percent_encoding::{DecodeError, percent_decode_str};
use std::alloc::Global;
use std::borrow::CowStr;

/// What a fragment names within a resource.
#[derive(Debug, Drop)]
pub enum FragmentKind {
    /// The resource itself: there is no fragment, or an empty one.
    Empty,
    /// The value at a JSON Pointer (RFC 6901, section 6).
    Pointer(Pointer),
    /// A plain name: any other text, without its percent escapes.
    Name(String),
}

/// What the fragment names, by its text after its percent escapes are read (RFC 3986, section 2.1): nothing, where there
/// is none or it is empty; a JSON Pointer, where the text begins with `/`; and otherwise a plain name.
///
/// A `%` that isn't followed by two hexadecimal digits, and escapes that spell no UTF-8, are [`Fault::BadFragment`]. A text
/// that begins with `/` and is no pointer is [`Fault::BadPointer`]. The only other error is want of memory.
pub fn fragment_kind(alloc: Global, fragment: Option<&str>) -> Result<FragmentKind, Fault>
    ensures ok { IfOk result
        (λ kind. fragment_kind (option_map (λ t. t.now) fragment.entry)
        ≡ Ok (fragment_view kind)) }
    ensures err { IfErr result
        (λ f. f ≢ Fault.NoRoom
        → fragment_kind (option_map (λ t. t.now) fragment.entry) ≡ Err (fault_view f)) }
{
    match fragment {
        Some(text) => kind_of_text(alloc, decoded(alloc, text)?),
        None => Ok(FragmentKind::Empty),
    }
}

// What the text names, by its first character.
fn kind_of_text(alloc: Global, text: CowStr<'_, Global>) -> Result<FragmentKind, Fault>
    ensures ok { IfOk result
        (λ kind. kind_of_text (cow_str_bytes text.entry) ≡ Ok (fragment_view kind)) }
    ensures err { IfErr result
        (λ f. f ≢ Fault.NoRoom → kind_of_text (cow_str_bytes text.entry) ≡ Err (fault_view f)) }
{
    if text.as_str().is_empty() {
        return Ok(FragmentKind::Empty);
    }
    if text.as_str().starts_with('/') {
        return Ok(FragmentKind::Pointer(Pointer::parse(alloc, text.as_str())?));
    }
    Ok(FragmentKind::Name(text.into_owned(alloc)?))
}

// The text without its percent escapes. It takes memory only where there are some.
fn decoded(alloc: Global, text: &str) -> Result<CowStr<'_, Global>, Fault>
    ensures ok { IfOk result (λ t. percent_decoded_text text.now ≡ Some (cow_str_bytes t)) }
    ensures utf8 { IfOk result (λ t. is_utf8 (cow_str_bytes t) ≡ true) }
    ensures err { IfErr result
        (λ f. f ≢ Fault.NoRoom
        → (f ≡ Fault.BadFragment)
        × (kind_of_decoded_text (percent_decoded_text text.now) ≡ Err bad_fragment)) }
{
    if !has_whole_escapes(text) {
        return Err(Fault::BadFragment);
    }
    match percent_decode_str(text).decode_utf8(alloc) {
        Ok(decoded) => Ok(decoded),
        Err(DecodeError::Utf8(_)) => Err(Fault::BadFragment),
        Err(DecodeError::OutOfMemory) => Err(Fault::NoRoom),
    }
}

// Whether two hexadecimal digits follow each `%`.
fn has_whole_escapes(text: &str) -> bool
    ensures { result ≡ is_some (percent_decoded_text text.now) }
{
    let mut rest = text.as_bytes();
    while let [first, after @ ..] = rest {
        rest = after;
        if *first == b'%' {
            match after_digits(after) {
                Some(next) => rest = next,
                None => return false,
            }
        }
    }
    true
}

// What follows the two hexadecimal digits that the bytes begin with.
fn after_digits(bytes: &[u8]) -> Option<&[u8]>
    ensures { option_map (λ t. t.now) result ≡ after_digits bytes.now }
{
    match bytes {
        [high, low, rest @ ..] if is_hex_digit(*high) && is_hex_digit(*low) => Some(rest),
        _ => None,
    }
}

fn is_hex_digit(byte: u8) -> bool
    ensures { result ≡ is_some (hex_value byte) }
{
    byte.is_ascii_hexdigit()
}
