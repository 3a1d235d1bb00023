//! Numbers by a URI and a name.

ghost use Rattle.std.specs.Prelude.{◌≡◌, ◌&&◌, false, OnOk, Some, if◌then◌else◌};
ghost use Rattle.std.specs.BTreeMap.{get_by_text};
ghost use Rattle.definitions.specs.Values.{Text, same_text};
ghost use Rattle.schema_table.specs.PairNumbers.{pair_number};

use std::alloc::{AllocError, Global};
use std::collections::BTreeMap;

/// Puts the number of a name in a resource of this URI in. Where it fails, for want of memory, some may be lost.
pub fn add_pair(
    alloc: Global,
    numbers: &mut BTreeMap<String, BTreeMap<String, usize>>,
    uri: &str,
    name: &str,
    number: usize,
) -> Result<(), AllocError>
    ensures { OnOk result ((u n : Text)
        → pair_number numbers.new u n
        ≡ (if same_text u uri.now
        && same_text n name.now then Some number else pair_number numbers.old u n)) }
{
    let mut names = take_names(alloc, numbers, uri);
    names.insert(String::from_str(alloc, name)?, number)?;
    numbers.insert(String::from_str(alloc, uri)?, names)?;
    Ok(())
}

// The numbers of a URI's names, which are taken out.
fn take_names(
    alloc: Global,
    numbers: &mut BTreeMap<String, BTreeMap<String, usize>>,
    uri: &str,
) -> BTreeMap<String, usize>
    ensures names { (n : Text) → get_by_text result n ≡ pair_number numbers.old uri.now n }
    ensures others { (u : Text) → same_text u uri.now ≡ false
        → get_by_text numbers.new u ≡ get_by_text numbers.old u }
{
    match numbers.remove(uri) {
        Some(names) => names,
        None => BTreeMap::new(alloc),
    }
}

/// The number of this name in the resource with this URI.
pub fn pair_number(
    numbers: &BTreeMap<String, BTreeMap<String, usize>>,
    uri: &str,
    name: &str,
) -> Option<usize>
    ensures { result ≡ pair_number numbers.now uri.now name.now }
{
    match numbers.get(uri) {
        Some(names) => names.get(name).copied(),
        None => None,
    }
}
