//! JSON Pointers (RFC 6901).

ghost use Rattle.std.specs.Prelude.{◌≡◌, ◌-◌, [], Some, ◌∷◌, ◌++◌, IsTrue, IfOk, OnOk, OnErr, flat_map, length, map, position, string_bytes, take};
ghost use Rattle.definitions.specs.Bytes.{slash};
ghost use Rattle.definitions.specs.Pointers.{escaped_byte, pointer_of, pointer_text};
ghost use Rattle.json_pointer.specs.Escapes.{is_escaped};

use std::alloc::{AllocError, Global};
use std::marker::Model;

mod fragment;
mod parsing;

pub use fragment::push_fragment_token;

/// A JSON Pointer (RFC 6901): the reference tokens that lead from a document's root to a place in it.
///
/// Contracts see the list of the tokens, each as its bytes before any escape.
#[derive(Debug, Drop)]
pub struct Pointer {
    tokens: Vec<String>,
}

impl Model for Pointer {
    ghost use Rattle.std.specs.Prelude.{ℕ, List, map, string_bytes};

    ghost Value = { List (List ℕ) };

    ghost view = { λ p. map string_bytes p.tokens.items };
}

impl Pointer {
    /// The pointer to the root, which has no tokens. This takes no memory; the tokens that are pushed later take it from `alloc`.
    pub fn new(alloc: Global) -> Pointer
        ensures { result ≡ [] }
    {
        Pointer {
            tokens: Vec::new(alloc),
        }
    }

    /// The tokens, in order.
    pub fn tokens(&self) -> &[String]
        ensures { map string_bytes result.now ≡ self.now }
    {
        self.tokens.as_slice()
    }

    /// Puts a token last. The only error is want of memory, and then the pointer stays as it was.
    pub fn push(&mut self, token: &str) -> Result<(), AllocError>
        ensures ok { OnOk result (self.new ≡ self.old ++ token.now ∷ []) }
        ensures unchanged { OnErr result (self.new ≡ self.old) }
    {
        let token = String::from_str(*self.tokens.allocator(), token)?;
        self.tokens.push(token)?;
        Ok(())
    }

    /// Takes the last token away; with no tokens the pointer stays as it is. The token's memory is given back.
    pub fn pop(&mut self)
        ensures { self.new ≡ take (length self.old - 1) self.old }
    {
        self.tokens.pop();
    }

    /// The text: each token led by a `/`, with `~` written as `~0` and `/` as `~1` (sections 3 and 5). The only error is
    /// want of memory. [`Pointer::parse`] reads it back.
    pub fn text(&self, alloc: Global) -> Result<String, AllocError>
        ensures text { IfOk result (λ s. string_bytes s ≡ pointer_text self.now) }
        ensures read_back { IfOk result (λ s. pointer_of (string_bytes s) ≡ Some self.now) }
    {
        let mut text = String::new(alloc);
        for token in &self.tokens {
            push_token(&mut text, token.as_str())?;
        }
        Ok(text)
    }
}

/// Appends a token to a pointer's text: a `/`, and then the token with `~` written as `~0` and `/` as `~1`.
pub fn push_token(text: &mut String, token: &str) -> Result<(), AllocError>
    ensures { OnOk result (string_bytes text.new
        ≡ string_bytes text.old ++ slash ∷ flat_map escaped_byte token.now) }
{
    text.push('/')?;
    push_escaped(text, token)?;
    Ok(())
}

// Appends the token with its escapes.
fn push_escaped(text: &mut String, token: &str) -> Result<(), AllocError>
    ensures { OnOk result (string_bytes text.new
        ≡ string_bytes text.old ++ flat_map escaped_byte token.now) }
{
    let mut rest = token;
    while let Some(end) = first_escaped(rest) {
        text.push_str(&rest[..end])?;
        text.push_str(escape_of(rest.as_bytes()[end]))?;
        rest = &rest[end + 1..];
    }
    text.push_str(rest)?;
    Ok(())
}

// Where the first byte stands that needs an escape.
fn first_escaped(token: &str) -> Option<usize>
    ensures { result ≡ position is_escaped token.now }
{
    token
        .as_bytes()
        .iter()
        .position(|byte| *byte == b'~' || *byte == b'/')
}

// What stands for the byte.
fn escape_of(byte: u8) -> &'static str
    requires { IsTrue (is_escaped byte) }
    ensures { result.now ≡ escaped_byte byte }
{
    if byte == b'~' { "~0" } else { "~1" }
}
