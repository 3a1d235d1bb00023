//! The steps of a location.

ghost use Rattle.std.specs.Prelude.{◌≡◌, ◌∷◌, ◌++◌, OnOk, flat_map, map, string_bytes};
ghost use Rattle.definitions.specs.Bytes.{slash};
ghost use Rattle.definitions.specs.Pointers.{escaped_byte, fragment_text, percent_encoded_text, pointer_text};
ghost use Rattle.locations.specs.Steps.{token, tokens};

use json_pointer::{push_fragment_token, push_token};
use keywords::Keyword;
use std::alloc::AllocError;

/// One step of a location: to the member of this name, or to the element of this index. As a token of a JSON Pointer
/// (RFC 6901) an index is written in decimal. A member whose name is a keyword's may be named by the keyword.
///
/// Contracts see the token, by `token`.
#[derive(Clone, Copy, Debug)]
pub enum Step<'a> {
    /// The member of this name.
    Name(&'a str),
    /// The element of this index.
    Index(usize),
    /// The member of this keyword's name.
    Keyword(Keyword),
}

/// Appends the text of the pointer with these steps (RFC 6901, section 3).
pub fn push_pointer(text: &mut String, steps: &[Step<'_>]) -> Result<(), AllocError>
    ensures { OnOk result (string_bytes text.new
        ≡ string_bytes text.old ++ pointer_text (tokens steps.now)) }
{
    for step in steps {
        push_step(text, *step)?;
    }
    Ok(())
}

/// Appends the same in bytes that can stand in a URI fragment (RFC 6901, section 6).
pub fn push_fragment(text: &mut String, steps: &[Step<'_>]) -> Result<(), AllocError>
    ensures { OnOk result (string_bytes text.new
        ≡ string_bytes text.old ++ fragment_text (tokens steps.now)) }
{
    for step in steps {
        push_fragment_step(text, *step)?;
    }
    Ok(())
}

fn push_step(text: &mut String, step: Step<'_>) -> Result<(), AllocError>
    ensures { OnOk result (string_bytes text.new
        ≡ string_bytes text.old ++ slash ∷ flat_map escaped_byte (token step.entry)) }
{
    match step {
        Step::Name(name) => push_token(text, name),
        Step::Index(index) => {
            let mut digits = itoa::Buffer::new();
            push_token(text, digits.format(index))
        }
        Step::Keyword(keyword) => push_token(text, keyword.name()),
    }
}

fn push_fragment_step(text: &mut String, step: Step<'_>) -> Result<(), AllocError>
    ensures { OnOk result (string_bytes text.new
        ≡ string_bytes text.old ++ slash
        ∷ percent_encoded_text (flat_map escaped_byte (token step.entry))) }
{
    match step {
        Step::Name(name) => push_fragment_token(text, name),
        Step::Index(index) => {
            let mut digits = itoa::Buffer::new();
            push_fragment_token(text, digits.format(index))
        }
        Step::Keyword(keyword) => push_fragment_token(text, keyword.name()),
    }
}
