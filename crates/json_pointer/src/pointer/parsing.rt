//! Pointers read from their texts (RFC 6901, sections 3 and 4).

ghost use Rattle.std.specs.Prelude.{◌≡◌, ◌≢◌, ◌==◌, Some, None, IfOk, IfErr, map, string_bytes};
ghost use Rattle.std.specs.List.{slice_split};
ghost use Rattle.definitions.specs.Bytes.{slash};
ghost use Rattle.definitions.specs.Pointers.{pointer_of, unescaped_token};
ghost use Rattle.definitions.specs.Lists.{each};
ghost use Rattle.json_pointer.specs.Escapes.{escape_before};

use super::Pointer;
use faults::Fault;
use std::alloc::Global;

impl Pointer {
    /// The pointer whose text this is: the empty text, or tokens that are each led by a `/`, with `~1` for `/` and `~0` for
    /// `~` (RFC 6901, sections 3 and 4).
    ///
    /// A text that isn't empty and doesn't begin with `/`, or that holds a `~` which neither `0` nor `1` follows, is
    /// [`Fault::BadPointer`]. The only other error is want of memory.
    pub fn parse(alloc: Global, text: &str) -> Result<Pointer, Fault>
        ensures ok { IfOk result (λ p. pointer_of text.now ≡ Some p) }
        ensures err { IfErr result
            (λ f. f ≢ Fault.NoRoom → (f ≡ Fault.BadPointer) × (pointer_of text.now ≡ None)) }
    {
        if text.is_empty() {
            return Ok(Pointer::new(alloc));
        }
        let Some(rest) = text.strip_prefix('/') else {
            return Err(Fault::BadPointer);
        };
        let tokens = tokens_of(alloc, rest)?;
        Ok(Pointer { tokens })
    }
}

// The tokens of a text after its first `/`.
fn tokens_of(alloc: Global, text: &str) -> Result<Vec<String>, Fault>
    ensures ok { IfOk result
        (λ tokens. each unescaped_token (slice_split (λ d. d == slash) text.now)
        ≡ Some (map string_bytes tokens.items)) }
    ensures err { IfErr result
        (λ f. f ≢ Fault.NoRoom
        → (f ≡ Fault.BadPointer)
        × (each unescaped_token (slice_split (λ d. d == slash) text.now) ≡ None)) }
{
    let mut tokens = Vec::new(alloc);
    for part in text.split('/') {
        tokens.push(token_of(alloc, part)?)?;
    }
    Ok(tokens)
}

// A token as it was before its `/` and `~` were escaped.
fn token_of(alloc: Global, part: &str) -> Result<String, Fault>
    ensures ok { IfOk result (λ s. unescaped_token part.now ≡ Some (string_bytes s)) }
    ensures err { IfErr result
        (λ f. f ≢ Fault.NoRoom → (f ≡ Fault.BadPointer) × (unescaped_token part.now ≡ None)) }
{
    let mut token = String::new(alloc);
    let mut rest = part;
    while let Some((before, after)) = rest.split_once('~') {
        token.push_str(before)?;
        let Some(escaped) = escape_before(after) else {
            return Err(Fault::BadPointer);
        };
        token.push(escaped)?;
        rest = &after[1..];
    }
    token.push_str(rest)?;
    Ok(token)
}

// What an escape stands for, whose `~` stands before this text.
fn escape_before(text: &str) -> Option<char>
    ensures { result ≡ escape_before text.now }
{
    match text.as_bytes() {
        [b'0', ..] => Some('~'),
        [b'1', ..] => Some('/'),
        _ => None,
    }
}
