//! Anchors by number.

ghost use Rattle.std.specs.Prelude.{◌≡◌, IfOk, map, option_and_then, option_map, slice_get};
ghost use Rattle.std.specs.List.{position_from};
ghost use Rattle.definitions.specs.Values.{Text};
ghost use Rattle.schema_table.specs.PairNumbers.{pair_number};
ghost use Rattle.schema_table.specs.Gathering.{anchor_mark};
ghost use Rattle.schema_table.specs.Lookups.{has_mark};

use schema_table::{Anchor, add_pair, pair_number};
use std::alloc::{AllocError, Global};
use std::collections::BTreeMap;

/// The number of each anchor, by the URI of its resource and by its name. The first of those that share both counts.
pub(crate) fn anchor_numbers_of(
    alloc: Global,
    anchors: &[Anchor],
) -> Result<BTreeMap<String, BTreeMap<String, usize>>, AllocError>
    ensures { IfOk result (λ numbers. (u n : Text)
        → pair_number numbers u n
        ≡ position_from (has_mark u n) 0 (map anchor_mark anchors.now)) }
{
    let mut numbers = BTreeMap::new(alloc);
    let mut number = anchors.len();
    while number > 0 {
        number -= 1;
        let anchor = &anchors[number];
        add_pair(
            alloc,
            &mut numbers,
            anchor.resource.as_str(),
            anchor.name.as_str(),
            number,
        )?;
    }
    Ok(numbers)
}

/// The first anchor of this name in the resource with this URI.
pub(crate) fn find_anchor<'a>(
    anchors: &'a [Anchor],
    numbers: &BTreeMap<String, BTreeMap<String, usize>>,
    uri: &str,
    name: &str,
) -> Option<&'a Anchor>
    ensures { option_map (λ a. anchor_mark a.now) result
        ≡ option_and_then (slice_get (map anchor_mark anchors.now))
        (pair_number numbers.now uri.now name.now) }
{
    match pair_number(numbers, uri, name) {
        Some(number) => anchors.get(number),
        None => None,
    }
}
