//! Equality by content.

ghost use Rattle.std.specs.Prelude.{◌≡◌, ◌↔◌, IsTrue, map};
ghost use Rattle.definitions.specs.Values.{same, same_elements, same_members, to_elements};
ghost use Rattle.json_doc.specs.Docs.{value, members_view};

use crate::doc::Doc;
use crate::members::Members;

/// Whether two values are equal (JSON Schema 2020-12 Core, section 4.2.2): the same number, text, elements in their
/// order, or members by name. This takes no memory.
pub fn same(first: &Doc, second: &Doc) -> bool
    ensures same { result ≡ same (value first.now) (value second.now) }
    ensures equal { IsTrue result ↔ (value first.now ≡ value second.now) }
{
    are_same(first, second)
}

#[cycle(same)]
fn are_same(first: &Doc, second: &Doc) -> bool
    ensures { result ≡ same (value first.now) (value second.now) }
{
    match first {
        Doc::Null => matches!(second, Doc::Null),
        Doc::Bool(boolean) => match second {
            Doc::Bool(other) => boolean == other,
            _ => false,
        },
        Doc::Int(number) => match second {
            Doc::Int(other) => number == other,
            _ => false,
        },
        Doc::Str(text) => second.is_text(text.as_str()),
        Doc::Short(text) => second.is_text(text.as_str()),
        Doc::List(items) => match second {
            Doc::List(others) => are_items_same(items.as_slice(), others.as_slice()),
            _ => false,
        },
        Doc::Dict(members) => match second {
            Doc::Dict(others) => are_members_same(members, others),
            _ => false,
        },
    }
}

#[cycle(same)]
fn are_items_same(items: &[Doc], others: &[Doc]) -> bool
    ensures { result ≡ same_elements (to_elements (map value items.now))
        (to_elements (map value others.now)) }
{
    if items.len() != others.len() {
        return false;
    }
    for (index, item) in items.iter().enumerate() {
        if !are_same(item, &others[index]) {
            return false;
        }
    }
    true
}

#[cycle(same)]
fn are_members_same(members: &Members, others: &Members) -> bool
    ensures { result ≡ same_members (members_view members.now) (members_view others.now) }
{
    let mut left = others.iter();
    for (name, member) in members.iter() {
        match left.next() {
            Some((other_name, other)) => {
                if name != other_name || !are_same(member, other) {
                    return false;
                }
            }
            None => return false,
        }
    }
    left.next().is_none()
}
