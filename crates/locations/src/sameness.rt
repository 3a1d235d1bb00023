//! Equality of steps, by their tokens.

ghost use Rattle.std.specs.Prelude.{◌≡◌, decimal};
ghost use Rattle.definitions.specs.Values.{same_text};
ghost use Rattle.definitions.specs.Pointers.{same_pointer};
ghost use Rattle.keywords.specs.Rows.{row_of};
ghost use Rattle.locations.specs.Steps.{token, tokens};

use crate::step::Step;
use keywords::Keyword;

/// Whether the steps are the same one after the other. The member of the name `0` and the element of the index 0 are the
/// same step, since both have the token `0` (RFC 6901, section 4). This takes no memory.
pub fn same_steps(first: &[Step<'_>], second: &[Step<'_>]) -> bool
    ensures { result ≡ same_pointer (tokens first.now) (tokens second.now) }
{
    if first.len() != second.len() {
        return false;
    }
    for (index, step) in first.iter().enumerate() {
        if !same_step(*step, second[index]) {
            return false;
        }
    }
    true
}

fn same_step(first: Step<'_>, second: Step<'_>) -> bool
    ensures { result ≡ same_text (token first.entry) (token second.entry) }
{
    match first {
        Step::Name(name) => is_named(name, second),
        Step::Index(index) => match second {
            Step::Name(name) => is_index(name, index),
            Step::Index(other) => is_same_index(index, other),
            Step::Keyword(keyword) => is_index(keyword.name(), index),
        },
        Step::Keyword(keyword) => match second {
            Step::Keyword(other) => is_same_keyword(keyword, other),
            _ => is_named(keyword.name(), second),
        },
    }
}

// Whether the name is the step's token.
fn is_named(name: &str, step: Step<'_>) -> bool
    ensures { result ≡ same_text name.now (token step.entry) }
{
    match step {
        Step::Name(other) => name == other,
        Step::Index(index) => is_index(name, index),
        Step::Keyword(keyword) => name == keyword.name(),
    }
}

// Whether the two have the same name.
fn is_same_keyword(keyword: Keyword, other: Keyword) -> bool
    ensures { result ≡ same_text (row_of keyword).name (row_of other).name }
{
    keyword == other || keyword.name() == other.name()
}

// Whether the name is this index in decimal.
fn is_index(name: &str, index: usize) -> bool
    ensures { result ≡ same_text name.now (decimal index) }
{
    let mut digits = itoa::Buffer::new();
    name == digits.format(index)
}

// Whether the two are the same in decimal.
fn is_same_index(first: usize, second: usize) -> bool
    ensures { result ≡ same_text (decimal first) (decimal second) }
{
    first == second
}
