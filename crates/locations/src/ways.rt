//! Ways from a document's root to a value in it.

ghost use Rattle.std.specs.Prelude.{◌≡◌, ◌++◌, IfOk, OnOk, drop, length, option_map, string_bytes};
ghost use Rattle.json_doc.specs.Docs.{value};
ghost use Rattle.locations.specs.Hops.{follow, hop_value, step_hop, step_hops};
ghost use Rattle.locations.specs.Ways.{owned_hops, owned_step, step_name, step_names};
ghost use Rattle.locations.specs.declared.owned_way.OwnedStep.TheVariants as owned;

use crate::owned_way::{OwnedStep, OwnedWay, cut_step};
use crate::step::Step;
use json_doc::Doc;
use std::alloc::{AllocError, Global};

/// The way that these steps go, which owns its names. It fails only for want of memory; a name whose length, or an index, is of
/// more than 32 bits counts as that.
pub fn own(alloc: Global, steps: &[Step<'_>]) -> Result<OwnedWay, AllocError>
    ensures { IfOk result (λ way. owned_hops way ≡ step_hops steps.now) }
{
    let mut names = String::with_capacity(alloc, names_len(steps)?)?;
    let mut owned = Vec::with_capacity(alloc, steps.len())?;
    for step in steps {
        owned.push(keep_step(&mut names, *step)?)?;
    }
    Ok(OwnedWay {
        names,
        steps: owned,
    })
}

// How many bytes the names of the steps take. It fails where no memory holds so many.
fn names_len(steps: &[Step<'_>]) -> Result<usize, AllocError>
    ensures { IfOk result (λ len. len ≡ length (step_names steps.now)) }
{
    let mut len: usize = 0;
    for step in steps {
        len = len.checked_add(name_len(*step)).ok_or(AllocError)?;
    }
    Ok(len)
}

fn name_len(step: Step<'_>) -> usize
    ensures { result ≡ length (step_name step.entry) }
{
    match step {
        Step::Name(name) => name.len(),
        Step::Index(_) => 0,
        Step::Keyword(keyword) => keyword.name().len(),
    }
}

// Appends the name of the step: the step as it is kept.
fn keep_step(names: &mut String, step: Step<'_>) -> Result<OwnedStep, AllocError>
    ensures kept { IfOk result (λ kept. kept ≡ owned_step step.entry) }
    ensures names { OnOk result
        (string_bytes names.new ≡ string_bytes names.old ++ step_name step.entry) }
{
    match step {
        Step::Name(name) => keep_name(names, name),
        Step::Index(index) => Ok(OwnedStep::Index(in_32_bits(index)?)),
        Step::Keyword(keyword) => keep_name(names, keyword.name()),
    }
}

fn keep_name(names: &mut String, name: &str) -> Result<OwnedStep, AllocError>
    ensures kept { IfOk result (λ kept. kept ≡ owned.Name (length name.now)) }
    ensures names { OnOk result (string_bytes names.new ≡ string_bytes names.old ++ name.now) }
{
    names.push_str(name)?;
    Ok(OwnedStep::Name(in_32_bits(name.len())?))
}

// The number in 32 bits, where they hold it. Where they don't, it fails as for want of memory.
fn in_32_bits(number: usize) -> Result<u32, AllocError>
    ensures { IfOk result (λ n. n ≡ number) }
{
    match u32::try_from(number) {
        Ok(number) => Ok(number),
        Err(_) => Err(AllocError),
    }
}

/// What stands at the end of the way, if it leads anywhere. This takes no memory.
pub fn follow<'a>(way: &OwnedWay, doc: &'a Doc) -> Option<&'a Doc>
    ensures { option_map (λ d. value d.now) result ≡ follow (owned_hops way.now) (value doc.now) }
{
    let mut names = way.names.as_str();
    let mut found = doc;
    for kept in &way.steps {
        let (step, rest) = cut_step(*kept, names);
        found = child(step, found)?;
        names = rest;
    }
    Some(found)
}

fn child<'a>(step: Step<'_>, doc: &'a Doc) -> Option<&'a Doc>
    ensures { option_map (λ d. value d.now) result
        ≡ hop_value (step_hop step.entry) (value doc.now) }
{
    match step {
        Step::Name(name) => doc.get(name),
        Step::Index(index) => doc.as_list()?.get(index),
        Step::Keyword(keyword) => doc.get(keyword.name()),
    }
}

/// The steps of the way after the first `start`; none where it has fewer. It fails only for want of memory.
pub fn steps_after<'a>(
    alloc: Global,
    way: &'a OwnedWay,
    start: usize,
) -> Result<Vec<Step<'a>>, AllocError>
    ensures { IfOk result (λ steps. step_hops steps.items ≡ drop start (owned_hops way.now)) }
{
    let mut steps = Vec::with_capacity(alloc, way.steps.len().saturating_sub(start))?;
    let mut names = way.names.as_str();
    for (index, kept) in way.steps.iter().enumerate() {
        let (step, rest) = cut_step(*kept, names);
        names = rest;
        if index >= start {
            steps.push(step)?;
        }
    }
    Ok(steps)
}
