//! Arrays whose elements are unique.

ghost use Rattle.std.specs.Prelude.{◌≡◌, ◌∷◌, IfOk, map, not};
ghost use Rattle.std.specs.List.{list_any};
ghost use Rattle.definitions.specs.Values.{integer, same, string};
ghost use Rattle.definitions.specs.Lists.{has_repeat};
ghost use Rattle.definitions.specs.Assertions.{is_unique};
ghost use Rattle.definition_laws.specs.Uniqueness.{has_same_neighbours};
ghost use Rattle.json_doc.specs.Docs.{value};
ghost use Rattle.value_order.specs.Sorts.{values_behind, AreSortedFrom};

use crate::ordering::compare;
use json_doc::{Doc, Whole, same};
use std::alloc::{AllocError, Global};

// So many elements are compared in pairs.
const MAX_PAIRED: usize = 16;

/// Whether no two elements of the list are equal (JSON Schema 2020-12 Validation, section 6.4.3): true of what is not a
/// list. Up to 16 elements are compared in pairs, and this takes no memory. More are sorted and neighbours compared, in a
/// time that grows with their number times its logarithm, and in memory for a reference to each. The only error is want of
/// that memory.
pub fn is_unique(alloc: Global, doc: &Doc) -> Result<bool, AllocError>
    ensures { IfOk result (λ b. b ≡ is_unique (value doc.now)) }
{
    match doc {
        Doc::List(items) => are_distinct(alloc, items.as_slice()),
        _ => Ok(true),
    }
}

fn are_distinct(alloc: Global, items: &[Doc]) -> Result<bool, AllocError>
    ensures { IfOk result (λ b. b ≡ not (has_repeat same (map value items.now))) }
{
    if items.len() <= MAX_PAIRED {
        return Ok(!has_repeat(items));
    }
    let docs = sorted(alloc, items)?;
    Ok(!has_same_neighbours(docs.as_slice()))
}

fn has_repeat(items: &[Doc]) -> bool
    ensures { result ≡ has_repeat same (map value items.now) }
{
    for (index, item) in items.iter().enumerate() {
        if has_same(item, &items[index + 1..]) {
            return true;
        }
    }
    false
}

/// Whether one of the values is equal to this one. This takes no memory.
pub fn has_same(doc: &Doc, others: &[Doc]) -> bool
    ensures { result ≡ list_any (λ d. same (value doc.now) (value d)) others.now }
{
    match doc {
        Doc::Int(number) => has_number(*number, others),
        Doc::Str(text) => has_text(text.as_str(), others),
        Doc::Short(text) => has_text(text.as_str(), others),
        _ => others.iter().any(|other| same(doc, other)),
    }
}

fn has_number(number: Whole, others: &[Doc]) -> bool
    ensures { result ≡ list_any (λ d. same (integer number) (value d)) others.now }
{
    others.iter().any(|other| is_number(other, number))
}

fn is_number(doc: &Doc, number: Whole) -> bool
    ensures { result ≡ same (integer number) (value doc.now) }
{
    match doc {
        Doc::Int(other) => *other == number,
        _ => false,
    }
}

fn has_text(text: &str, others: &[Doc]) -> bool
    ensures { result ≡ list_any (λ d. same (string text.now) (value d)) others.now }
{
    others.iter().any(|other| other.is_text(text))
}

/// The items in the order of their values.
pub(crate) fn sorted(alloc: Global, items: &[Doc]) -> Result<Vec<&Doc>, AllocError>
    ensures { IfOk result (λ docs. AreSortedFrom (map value items.now) docs.items) }
{
    let mut docs = references(alloc, items)?;
    docs.sort_unstable_by(|first, second| compare(first, second));
    Ok(docs)
}

fn references(alloc: Global, items: &[Doc]) -> Result<Vec<&Doc>, AllocError>
    ensures { IfOk result (λ docs. values_behind docs.items ≡ map value items.now) }
{
    let mut docs = Vec::with_capacity(alloc, items.len())?;
    for item in items {
        docs.push(item)?;
    }
    Ok(docs)
}

fn has_same_neighbours(docs: &[&Doc]) -> bool
    ensures { result ≡ has_same_neighbours (values_behind docs.now) }
{
    match docs.split_first() {
        Some((first, rest)) => is_some_like_the_last(first, rest),
        None => false,
    }
}

// Whether some document is the same as the one before it, the first being before the rest.
fn is_some_like_the_last(first: &Doc, rest: &[&Doc]) -> bool
    ensures { result ≡ has_same_neighbours (value first.now ∷ values_behind rest.now) }
{
    let mut last = first;
    for doc in rest {
        if same(last, doc) {
            return true;
        }
        last = doc;
    }
    false
}
