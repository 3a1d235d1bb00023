//! How deep arrays and objects nest.

ghost use Rattle.std.specs.Prelude.{◌≡◌, min, max, true, map};
ghost use Rattle.definitions.specs.Values.{nesting, elements_nesting, members_nesting, is_well_formed, are_well_formed, are_well_formed_members, to_elements};
ghost use Rattle.json_doc.specs.Docs.{value, members_view};

use crate::doc::Doc;
use crate::members::Members;

/// How deep arrays and objects nest: 0 for what holds no value, 1 for `[]`. This takes no memory.
///
/// The walk sees each number, text and name once, so its contract also says that every value that is held is well
/// formed.
#[cycle(nesting)]
pub fn nesting(doc: &Doc) -> usize
    ensures depth { result ≡ min (nesting (value doc.now)) usize.MAX }
    ensures well_formed { is_well_formed (value doc.now) ≡ true }
{
    match doc {
        Doc::Null => 0,
        Doc::Bool(_) => 0,
        Doc::Int(number) => {
            // Its bounds are known once it is read.
            let _number = number.number();
            0
        }
        Doc::Str(_) => 0,
        Doc::Short(_) => 0,
        Doc::List(items) => nesting_of_items(items.as_slice()).saturating_add(1),
        Doc::Dict(members) => nesting_of_members(members).saturating_add(1),
    }
}

#[cycle(nesting)]
fn nesting_of_items(items: &[Doc]) -> usize
    ensures depth { result ≡ min (elements_nesting (to_elements (map value items.now))) usize.MAX }
    ensures well_formed { are_well_formed (to_elements (map value items.now)) ≡ true }
{
    let mut most = 0;
    for item in items {
        most = larger(most, nesting(item));
    }
    most
}

#[cycle(nesting)]
fn nesting_of_members(members: &Members) -> usize
    ensures depth { result ≡ min (members_nesting (members_view members.now)) usize.MAX }
    ensures well_formed { are_well_formed_members (members_view members.now) ≡ true }
{
    let mut most = 0;
    for (_, member) in members.iter() {
        most = larger(most, nesting(member));
    }
    most
}

fn larger(first: usize, second: usize) -> usize
    ensures { result ≡ max first second }
{
    if first < second { second } else { first }
}
