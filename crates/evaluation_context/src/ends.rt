//! How identities end, as numbers that tell most of them apart.

ghost use Rattle.std.specs.Prelude.{◌≡◌, decimal, false, true};
ghost use Rattle.definitions.specs.Schemas.{Identity, same_identity};
ghost use Rattle.locations.specs.Steps.{token, tokens};
ghost use Rattle.basic_output.specs.PointerViews.{origin_view};
ghost use Rattle.evaluation_context.specs.Ends.{byte_before_end, identity_end, tells_end, text_end};
ghost use Rattle.evaluation_context.specs.Runnings.{onward_identity};

use basic_output::Origin;
use locations::Step;

/// How the schema's identity ends to which the steps lead from the origin: the last four bytes of its pointer's last token,
/// or of its URI where the pointer is empty. It is 0, which tells nothing, where that token is an index of more than one
/// digit. Names are not walked over, so that it takes the same time however long they are.
#[inline(always)]
pub(crate) fn end_of(origin: &Origin<'_>, onward: &[Step<'_>]) -> u32
    ensures { tells_end result (identity_end (onward_identity origin.now (tokens onward.now)))
        ≡ true }
{
    match onward.last() {
        Some(step) => step_end(*step),
        None => origin_end(origin),
    }
}

#[inline(always)]
fn origin_end(origin: &Origin<'_>) -> u32
    ensures { tells_end result (identity_end (origin_view origin.now)) ≡ true }
{
    match origin.steps().last() {
        Some(step) => step_end(*step),
        None => text_end(origin.resource()),
    }
}

#[inline(always)]
fn step_end(step: Step<'_>) -> u32
    ensures { tells_end result (text_end (token step.entry)) ≡ true }
{
    match step {
        Step::Name(name) => text_end(name),
        Step::Index(index) => index_end(index),
        Step::Keyword(keyword) => text_end(keyword.name()),
    }
}

// Of an index with one digit; of another, whose text isn't at hand, nothing is told.
fn index_end(index: usize) -> u32
    ensures { tells_end result (text_end (decimal index)) ≡ true }
{
    if index < 10 {
        let digit = b'0' + index as u8;
        u32::from_le_bytes([digit, digit, digit, digit])
    } else {
        0
    }
}

fn text_end(text: &str) -> u32
    ensures { result ≡ text_end text.now }
{
    let bytes = text.as_bytes();
    let len = bytes.len();
    if len < 4 {
        return short_end(bytes);
    }
    u32::from_le_bytes([
        bytes[len - 4],
        bytes[len - 3],
        bytes[len - 2],
        bytes[len - 1],
    ])
}

// The number that tells how a text ends, whatever its length. It is called apart, for texts of less than four bytes, since most
// names are longer.
#[inline(never)]
fn short_end(bytes: &[u8]) -> u32
    ensures { result ≡ text_end bytes.now }
{
    u32::from_le_bytes([
        byte_before_end(bytes, 4),
        byte_before_end(bytes, 3),
        byte_before_end(bytes, 2),
        byte_before_end(bytes, 1),
    ])
}

// The byte so many places before the end, or the first one; 0 of none.
fn byte_before_end(bytes: &[u8], places: usize) -> u8
    ensures { result ≡ byte_before_end places bytes.now }
{
    match bytes.get(bytes.len().saturating_sub(places)) {
        Some(byte) => *byte,
        None => 0,
    }
}

/// Whether both numbers are known and differ, so that identities that end so are different ones.
pub(crate) fn are_other_ends(first: u32, second: u32) -> bool
    ensures { (i j : Identity) → result ≡ true → tells_end first (identity_end i) ≡ true
        → tells_end second (identity_end j) ≡ true → same_identity i j ≡ false }
{
    if first == second {
        return false;
    }
    first != 0 && second != 0
}
