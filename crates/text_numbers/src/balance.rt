//! A bound that divides texts into two parts of about one size.

use crate::places::value_of;
use std::cmp;

/// How many values there are: none, and those of the bytes.
const VALUES: usize = 257;

/// A bound below which about half of the texts of these numbers are at the position, as far as their values there let it. Where
/// half of them have the same value, it divides that one from those on one side of it.
pub(crate) fn balanced(texts: &[&str], numbers: &[usize], position: usize) -> u16 {
    let counts = counts_at(texts, numbers, position);
    let half = numbers.len() / 2;
    let mut below: usize = 0;
    for (value, count) in counts.iter().enumerate() {
        let within = below.saturating_add(*count);
        if within > half {
            return nearer(value, below, within, numbers.len());
        }
        below = within;
    }
    0
}

// How many of the texts have each value at the position.
fn counts_at(texts: &[&str], numbers: &[usize], position: usize) -> [usize; VALUES] {
    let mut counts: [usize; VALUES] = [0; VALUES];
    for number in numbers {
        let value = value_of(texts, position, *number);
        if let Some(count) = counts.get_mut(usize::from(value)) {
            *count = count.saturating_add(1);
        }
    }
    counts
}

// The value, or the next one: which of them leaves more in the smaller part, of so many in all.
fn nearer(value: usize, below: usize, within: usize, all: usize) -> u16 {
    let bound = u16::try_from(value).unwrap_or(0);
    let before = cmp::min(below, all.saturating_sub(below));
    let behind = cmp::min(within, all.saturating_sub(within));
    if before < behind {
        bound.saturating_add(1)
    } else {
        bound
    }
}
