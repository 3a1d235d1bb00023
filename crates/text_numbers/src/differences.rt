//! Where texts differ.

ghost use Rattle.std.specs.Prelude.{◌≡◌, ◌<◌, ◌+◌, ℕ, true, false, IfNone, IfSome, Some, length, map, nat_lt, slice_get};
ghost use Rattle.std.specs.List.{list_all, list_any};
ghost use Rattle.definitions.specs.Values.{Text};
ghost use Rattle.text_numbers.specs.Places.{AgreeAt, AreAlike, AreSame, Divides, has_value, is_above, is_below, is_rest};

use crate::balance::balanced;
use crate::places::value_of;

/// From how many texts on they are counted, so that few turns tell them; with fewer it isn't worth it.
const MANY: usize = 64;

/// A position at which texts differ, and a bound that divides them: some have less there, and some haven't.
#[derive(Clone, Copy, Debug)]
pub(crate) struct Division {
    pub(crate) position: usize,
    pub(crate) bound: u16,
}

/// The first position at which the texts of these numbers don't agree, where they are not the same text. Before the given
/// position they agree.
pub(crate) fn difference(texts: &[&str], numbers: &[usize], from: usize) -> Option<Division>
    requires { AreAlike (map (λ t. t.now) texts.now) numbers.now from }
    ensures parts { IfSome result
        (λ d. Divides (map (λ t. t.now) texts.now) numbers.now d.position d.bound) }
    ensures same { IfNone result (AreSame (map (λ t. t.now) texts.now) numbers.now) }
{
    if numbers.len() < 2 {
        return None;
    }
    for position in from..first_end(texts, numbers) {
        if let Some(bound) = bound_at(texts, numbers, position) {
            return Some(Division { position, bound });
        }
    }
    None
}

// One more than the length of the first text.
fn first_end(texts: &[&str], numbers: &[usize]) -> usize
    ensures { (number : ℕ) (text : Text) → slice_get numbers.now 0 ≡ Some number
        → slice_get (map (λ t. t.now) texts.now) number ≡ Some text
        → result ≡ length text + 1 }
{
    match numbers.first() {
        Some(number) => match texts.get(*number) {
            Some(text) => end_of(text),
            None => 0,
        },
        None => 0,
    }
}

// One more than the length of the text.
fn end_of(text: &str) -> usize
    ensures { result ≡ length text.now + 1 }
{
    text.len() + 1
}

// A bound that divides the texts of these numbers at the position, where they don't agree there. Of many texts it leaves about
// as many on both sides as it can, so that a part has three quarters of them at most, or those of one value alone.
fn bound_at(texts: &[&str], numbers: &[usize], position: usize) -> Option<u16>
    ensures below { IfSome result (λ bound.
        list_any (is_below (map (λ t. t.now) texts.now) position bound) numbers.now ≡ true) }
    ensures rest { IfSome result (λ bound.
        list_any (is_rest (map (λ t. t.now) texts.now) position bound) numbers.now ≡ true) }
    ensures agree { IfNone result (AgreeAt (map (λ t. t.now) texts.now) numbers.now position) }
{
    let bound = middle_bound(texts, numbers, position)?;
    if numbers.len() < MANY {
        return Some(bound);
    }
    let better = balanced(texts, numbers, position);
    if has_below(texts, numbers, position, better) && has_rest(texts, numbers, position, better) {
        Some(better)
    } else {
        Some(bound)
    }
}

// A bound that divides the texts of these numbers at the position, where they don't agree there: what the middle one has, where
// another has less, and otherwise the next above it.
fn middle_bound(texts: &[&str], numbers: &[usize], position: usize) -> Option<u16>
    ensures below { IfSome result (λ bound.
        list_any (is_below (map (λ t. t.now) texts.now) position bound) numbers.now ≡ true) }
    ensures rest { IfSome result (λ bound.
        list_any (is_rest (map (λ t. t.now) texts.now) position bound) numbers.now ≡ true) }
    ensures agree { IfNone result (AgreeAt (map (λ t. t.now) texts.now) numbers.now position) }
{
    let middle = value_of(texts, position, *numbers.get(numbers.len() / 2)?);
    if is_level(texts, numbers, position, middle) {
        return None;
    }
    if has_below(texts, numbers, position, middle) {
        Some(middle)
    } else {
        least_above(texts, numbers, position, middle)
    }
}

// Whether all of them have this value there.
fn is_level(texts: &[&str], numbers: &[usize], position: usize, value: u16) -> bool
    ensures { result
        ≡ list_all (has_value (map (λ t. t.now) texts.now) position value) numbers.now }
{
    numbers
        .iter()
        .all(|number| value_of(texts, position, *number) == value)
}

fn has_below(texts: &[&str], numbers: &[usize], position: usize, bound: u16) -> bool
    ensures { result ≡ list_any (is_below (map (λ t. t.now) texts.now) position bound) numbers.now }
{
    numbers
        .iter()
        .any(|number| value_of(texts, position, *number) < bound)
}

fn has_rest(texts: &[&str], numbers: &[usize], position: usize, bound: u16) -> bool
    ensures { result ≡ list_any (is_rest (map (λ t. t.now) texts.now) position bound) numbers.now }
{
    numbers
        .iter()
        .any(|number| value_of(texts, position, *number) >= bound)
}

// The least that one has there and that is above this value.
fn least_above(texts: &[&str], numbers: &[usize], position: usize, value: u16) -> Option<u16>
    ensures above { IfSome result (λ least. value < least) }
    ensures rest { IfSome result (λ least.
        list_any (is_rest (map (λ t. t.now) texts.now) position least) numbers.now ≡ true) }
    ensures none { IfNone result
        (list_any (is_above (map (λ t. t.now) texts.now) position value) numbers.now ≡ false) }
{
    let mut least = value;
    for number in numbers {
        let other = value_of(texts, position, *number);
        if value < other && (least == value || other < least) {
            least = other;
        }
    }
    if value < least { Some(least) } else { None }
}
