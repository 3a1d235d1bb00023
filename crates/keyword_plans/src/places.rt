//! The places of schemas in a resource, by the steps that lead to them.

ghost use Rattle.std.specs.Prelude.{◌≡◌, ◌∷◌, ◌++◌, [], IfOk, OnOk};
ghost use Rattle.locations.specs.Steps.{token, tokens};
ghost use Rattle.keyword_plans.specs.Places.{index_order, name_order, step_order, steps_order};

use json_pointer::Pointer;
use locations::Step;
use std::alloc::{AllocError, Global};
use std::cmp::Ordering;

/// An order of places: names before indexes, names by their bytes, and of two places the first step that differs decides. This
/// takes no memory.
pub(crate) fn compare_steps(first: &[Step<'_>], second: &[Step<'_>]) -> Ordering
    ensures { result ≡ steps_order first.now second.now }
{
    for (index, step) in first.iter().enumerate() {
        if index >= second.len() {
            return Ordering::Greater;
        }
        match compare_step(*step, second[index]) {
            Ordering::Equal => {}
            order => return order,
        }
    }
    if first.len() < second.len() {
        Ordering::Less
    } else {
        Ordering::Equal
    }
}

fn compare_step(first: Step<'_>, second: Step<'_>) -> Ordering
    ensures { result ≡ step_order first.entry second.entry }
{
    match first {
        Step::Name(name) => compare_name(name, second),
        Step::Index(index) => compare_index(index, second),
        Step::Keyword(keyword) => compare_name(keyword.name(), second),
    }
}

fn compare_name(name: &str, step: Step<'_>) -> Ordering
    ensures { result ≡ name_order name.now step.entry }
{
    match step {
        Step::Name(other) => name.cmp(other),
        Step::Index(_) => Ordering::Less,
        Step::Keyword(keyword) => name.cmp(keyword.name()),
    }
}

fn compare_index(index: usize, step: Step<'_>) -> Ordering
    ensures { result ≡ index_order index step.entry }
{
    match step {
        Step::Name(_) => Ordering::Greater,
        Step::Index(other) => index.cmp(&other),
        Step::Keyword(_) => Ordering::Greater,
    }
}

/// The pointer to a place. The only error is want of memory.
pub(crate) fn pointer_to(alloc: Global, steps: &[Step<'_>]) -> Result<Pointer, AllocError>
    ensures { IfOk result (λ p. p ≡ tokens steps.now) }
{
    let mut pointer = Pointer::new(alloc);
    for step in steps {
        push_token_of(&mut pointer, *step)?;
    }
    Ok(pointer)
}

fn push_token_of(pointer: &mut Pointer, step: Step<'_>) -> Result<(), AllocError>
    ensures { OnOk result (pointer.new ≡ pointer.old ++ token step.entry ∷ []) }
{
    match step {
        Step::Name(name) => pointer.push(name),
        Step::Index(index) => {
            let mut digits = itoa::Buffer::new();
            pointer.push(digits.format(index))
        }
        Step::Keyword(keyword) => pointer.push(keyword.name()),
    }
}
