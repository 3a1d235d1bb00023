//! An order of values.

ghost use Rattle.std.specs.Prelude.{◌≡◌, map};
ghost use Rattle.std.specs.Ordering.{is_eq, nat_cmp};
ghost use Rattle.definitions.specs.Values.{same, string, to_elements};
ghost use Rattle.json_doc.specs.Docs.{value, members_view};
ghost use Rattle.value_order.specs.Orders.{kind, compared, compared_elements, compared_members};

use json_doc::{Doc, Members};
use std::cmp::Ordering;

// The place of texts among the kinds.
const TEXT: u8 = 3;

/// The order of values: by kind (null, booleans, numbers, texts, lists, objects), then by content. Numbers stand in
/// their order, texts in that of their bytes, lists by their elements, the first that differ deciding, and objects so by
/// their names and values. Two values are alike exactly if they are equal. This takes no memory.
pub fn compare(first: &Doc, second: &Doc) -> Ordering
    ensures order { result ≡ compared (value first.now) (value second.now) }
    ensures equal { is_eq result ≡ same (value first.now) (value second.now) }
{
    compare_docs(first, second)
}

#[cycle(compare)]
fn compare_docs(first: &Doc, second: &Doc) -> Ordering
    ensures { result ≡ compared (value first.now) (value second.now) }
{
    match first {
        Doc::Null => compare_kinds(first, second),
        Doc::Bool(boolean) => match second {
            Doc::Bool(other) => boolean.cmp(other),
            _ => compare_kinds(first, second),
        },
        Doc::Int(number) => match second {
            Doc::Int(other) => number.number().cmp(&other.number()),
            _ => compare_kinds(first, second),
        },
        Doc::Str(text) => compare_text(text.as_str(), second),
        Doc::Short(text) => compare_text(text.as_str(), second),
        Doc::List(items) => match second {
            Doc::List(others) => compare_items(items.as_slice(), others.as_slice()),
            _ => compare_kinds(first, second),
        },
        Doc::Dict(members) => match second {
            Doc::Dict(others) => compare_members(members, others),
            _ => compare_kinds(first, second),
        },
    }
}

fn compare_text(text: &str, doc: &Doc) -> Ordering
    ensures { result ≡ compared (string text.now) (value doc.now) }
{
    match doc {
        Doc::Str(other) => text.cmp(other.as_str()),
        Doc::Short(other) => text.cmp(other.as_str()),
        _ => TEXT.cmp(&kind_of(doc)),
    }
}

#[cycle(compare)]
fn compare_items(items: &[Doc], others: &[Doc]) -> Ordering
    ensures { result ≡ compared_elements (to_elements (map value items.now))
        (to_elements (map value others.now)) }
{
    for (index, item) in items.iter().enumerate() {
        if index >= others.len() {
            return Ordering::Greater;
        }
        match compare_docs(item, &others[index]) {
            Ordering::Equal => {}
            order => return order,
        }
    }
    if items.len() < others.len() {
        Ordering::Less
    } else {
        Ordering::Equal
    }
}

#[cycle(compare)]
fn compare_members(members: &Members, others: &Members) -> Ordering
    ensures { result ≡ compared_members (members_view members.now) (members_view others.now) }
{
    let mut left = others.iter();
    for (name, member) in members.iter() {
        match left.next() {
            Some((other_name, other)) => match name.cmp(other_name) {
                Ordering::Equal => match compare_docs(member, other) {
                    Ordering::Equal => {}
                    order => return order,
                },
                order => return order,
            },
            None => return Ordering::Greater,
        }
    }
    match left.next() {
        Some(_) => Ordering::Less,
        None => Ordering::Equal,
    }
}

fn compare_kinds(first: &Doc, second: &Doc) -> Ordering
    ensures { result ≡ nat_cmp (kind (value first.now)) (kind (value second.now)) }
{
    kind_of(first).cmp(&kind_of(second))
}

// The place of the value's kind among the kinds.
fn kind_of(doc: &Doc) -> u8
    ensures { result ≡ kind (value doc.now) }
{
    match doc {
        Doc::Null => 0,
        Doc::Bool(_) => 1,
        Doc::Int(_) => 2,
        Doc::Str(_) | Doc::Short(_) => TEXT,
        Doc::List(_) => 4,
        Doc::Dict(_) => 5,
    }
}
