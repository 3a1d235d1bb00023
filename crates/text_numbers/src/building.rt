//! The tree of texts.

ghost use Rattle.std.specs.Prelude.{◌≡◌, IfOk, filter, map, not};
ghost use Rattle.std.specs.List.{range_with_len};
ghost use Rattle.text_numbers.specs.Places.{AreAlike, is_below, is_rest, is_side};
ghost use Rattle.text_numbers.specs.Trees.{Tells, leaf_of, only_leaf};

use crate::differences::{Division, difference};
use crate::places::value_of;
use crate::tree::{Leaf, Tree, Turn};
use std::alloc::{AllocError, Global};

/// Numbers of texts on both sides of a division.
#[derive(Drop)]
struct Sides {
    below: Vec<usize>,
    rest: Vec<usize>,
}

/// Numbers of texts on both sides of a division, told by which side is the smaller one: its numbers, and those of the other side.
#[derive(Drop)]
struct Divided {
    /// Whether the smaller side is that below the bound.
    is_below: bool,
    aside: Vec<usize>,
    ahead: Vec<usize>,
}

/// All numbers below this one.
pub(crate) fn all_numbers(alloc: Global, end: usize) -> Result<Vec<usize>, AllocError>
    ensures { IfOk result (λ numbers. numbers.items ≡ range_with_len 0 end) }
{
    let mut numbers = Vec::with_capacity(alloc, end)?;
    for number in 0..end {
        numbers.push(number)?;
    }
    Ok(numbers)
}

/// The tree that tells the texts of these numbers, which agree before the position.
///
/// The smaller side of each division has a tree of its own, and the other one is divided on, so that calls nest no deeper than
/// the logarithm of the count of numbers.
pub(crate) fn built(
    alloc: Global,
    texts: &[&str],
    numbers: Vec<usize>,
    from: usize,
) -> Result<Tree, AllocError>
    requires { AreAlike (map (λ t. t.now) texts.now) numbers.items from }
    ensures { IfOk result
        (λ tree. Tells (leaf_of tree) (map (λ t. t.now) texts.now) numbers.items) }
{
    let mut turns = Vec::new(alloc);
    let mut asides = Vec::new(alloc);
    let mut left = numbers;
    let mut agreed = from;
    while let Some(at) = difference(texts, &left, agreed) {
        let Divided {
            is_below,
            aside,
            ahead,
        } = divide(alloc, texts, left, at)?;
        asides.push(built(alloc, texts, aside, at.position)?)?;
        turns.push(Turn {
            position: at.position,
            bound: at.bound,
            is_below,
        })?;
        left = ahead;
        agreed = at.position;
    }
    Ok(Tree {
        turns,
        asides,
        end: only_leaf(&left),
    })
}

// The leaf of these numbers, whose texts are the same.
fn only_leaf(numbers: &[usize]) -> Leaf
    ensures { result ≡ only_leaf numbers.now }
{
    Leaf {
        number: numbers.first().copied().unwrap_or(0),
        only: numbers.len() == 1,
    }
}

// The numbers of the texts on both sides, the smaller one aside.
fn divide(
    alloc: Global,
    texts: &[&str],
    numbers: Vec<usize>,
    at: Division,
) -> Result<Divided, AllocError>
    ensures aside { IfOk result (λ divided. divided.aside.items
        ≡ filter (is_side (map (λ t. t.now) texts.now) at.position at.bound divided.is_below)
        numbers.items) }
    ensures ahead { IfOk result (λ divided. divided.ahead.items
        ≡ filter (is_side (map (λ t. t.now) texts.now) at.position at.bound (not divided.is_below))
        numbers.items) }
{
    let Sides { below, rest } = both_sides(alloc, texts, numbers, at)?;
    if below.len() < rest.len() {
        Ok(Divided {
            is_below: true,
            aside: below,
            ahead: rest,
        })
    } else {
        Ok(Divided {
            is_below: false,
            aside: rest,
            ahead: below,
        })
    }
}

// The numbers of the texts that have less than the bound at the position, and the rest.
fn both_sides(
    alloc: Global,
    texts: &[&str],
    numbers: Vec<usize>,
    at: Division,
) -> Result<Sides, AllocError>
    ensures below { IfOk result (λ sides. sides.below.items
        ≡ filter (is_below (map (λ t. t.now) texts.now) at.position at.bound) numbers.items) }
    ensures rest { IfOk result (λ sides. sides.rest.items
        ≡ filter (is_rest (map (λ t. t.now) texts.now) at.position at.bound) numbers.items) }
{
    let mut below = Vec::new(alloc);
    let mut rest = Vec::new(alloc);
    for number in &numbers {
        if value_of(texts, at.position, *number) < at.bound {
            below.push(*number)?;
        } else {
            rest.push(*number)?;
        }
    }
    Ok(Sides { below, rest })
}
