//! Pointers as URI fragments (RFC 6901, section 6).

ghost use Rattle.std.specs.Prelude.{◌≡◌, ◌∷◌, ◌++◌, IfOk, OnOk, flat_map, string_bytes};
ghost use Rattle.definitions.specs.Bytes.{slash};
ghost use Rattle.definitions.specs.Pointers.{escaped_byte, fragment_text, percent_encoded_text};

use super::{Pointer, escape_of, first_escaped};
use percent_encoding::{AsciiSet, NON_ALPHANUMERIC, ascii_set, utf8_percent_encode};
use std::alloc::{AllocError, Global};

// What cannot stand in a fragment as it is (RFC 3986, section 3.5).
const ESCAPED: AsciiSet = ascii_set!(
    NON_ALPHANUMERIC
        .remove(b'-')
        .remove(b'.')
        .remove(b'_')
        .remove(b'~')
        .remove(b'!')
        .remove(b'$')
        .remove(b'&')
        .remove(b'\'')
        .remove(b'(')
        .remove(b')')
        .remove(b'*')
        .remove(b'+')
        .remove(b',')
        .remove(b';')
        .remove(b'=')
        .remove(b':')
        .remove(b'@')
        .remove(b'/')
        .remove(b'?')
);

impl Pointer {
    /// The text as a URI fragment, without its `#`: each byte of the pointer's text that cannot stand in a fragment is
    /// written as `%` and two upper-case digits (RFC 6901, section 6; RFC 3986, sections 2.1 and 3.5). The only error is
    /// want of memory.
    pub fn fragment_text(&self, alloc: Global) -> Result<String, AllocError>
        ensures { IfOk result (λ s. string_bytes s ≡ fragment_text self.now) }
    {
        let mut text = String::new(alloc);
        for token in &self.tokens {
            push_fragment_token(&mut text, token.as_str())?;
        }
        Ok(text)
    }
}

/// Appends a token to a pointer's text in a URI fragment: a `/`, and then the token with `~` written as `~0` and `/` as
/// `~1`, in bytes that can stand in a fragment.
pub fn push_fragment_token(text: &mut String, token: &str) -> Result<(), AllocError>
    ensures { OnOk result
        (string_bytes text.new
        ≡ string_bytes text.old ++ slash ∷ percent_encoded_text (flat_map escaped_byte token.now)) }
{
    text.push('/')?;
    push_fragment_escaped(text, token)?;
    Ok(())
}

// Appends the token with its escapes, in bytes that can stand in a fragment.
fn push_fragment_escaped(text: &mut String, token: &str) -> Result<(), AllocError>
    ensures { OnOk result
        (string_bytes text.new
        ≡ string_bytes text.old ++ percent_encoded_text (flat_map escaped_byte token.now)) }
{
    let mut rest = token;
    while let Some(end) = first_escaped(rest) {
        push_percent_encoded(text, &rest[..end])?;
        text.push_str(escape_of(rest.as_bytes()[end]))?;
        rest = &rest[end + 1..];
    }
    push_percent_encoded(text, rest)?;
    Ok(())
}

// Appends what stands for the text in a fragment.
fn push_percent_encoded(text: &mut String, run: &str) -> Result<(), AllocError>
    ensures { OnOk result (string_bytes text.new
        ≡ string_bytes text.old ++ percent_encoded_text run.now) }
{
    utf8_percent_encode(run, ESCAPED).append_to(text)?;
    Ok(())
}
