//! Members that are found by short texts, and members that are taken by name from those that are left.

use crate::expectations::expect_holds;
use json_doc::{Doc, Fault, Members, Name, NamedMembers, ShortText, Whole};
use std::alloc::Global;
use std::process::Abort;

// Names, of which those of 24 bytes are the longest that stand in the value itself.
const NAMES: &[&str] = &[
    "",
    "Type",
    "abcdefghijklmnopqrstuvw",
    "abcdefghijklmnopqrstuvwx",
    "abcdefghijklmnopqrstuvwxy",
    "abcdefghijklmnopqrstuvwxyz",
    "b",
    "type",
    "äääääääääääää",
];

// An object of these members, and of so many others.
fn object(alloc: Global, others: u64) -> Result<Doc, Fault> {
    let mut members = Members::new(alloc);
    for other in 0..others {
        let name = format!(in alloc; "other {other}")?;
        members.insert(alloc, name.as_str(), Doc::Null)?;
    }
    for name in NAMES {
        members.insert(alloc, name, Doc::string(alloc, name)?)?;
    }
    Ok(Doc::Dict(members))
}

// Why all names are found beside so many others, and how many.
const OTHERS: &[(&str, u64)] = &[
    ("few members are gone through one by one", 0),
    ("more members than that are searched by their order", 20),
];

fn is_found(doc: &Doc, name: &str) -> bool {
    match ShortText::of(name) {
        Some(short) => doc
            .get_short(&short)
            .is_some_and(|member| member.is_text(name)),
        None => name.len() > 24,
    }
}

fn are_all_found(doc: &Doc) -> bool {
    for name in NAMES {
        if !is_found(doc, name) {
            return false;
        }
    }
    true
}

fn is_absent(doc: &Doc) -> bool {
    ShortText::of("absent").is_some_and(|name| doc.get_short(&name).is_none())
}

fn are_found_among(alloc: Global, others: u64) -> Result<bool, Fault> {
    let doc = object(alloc, others)?;
    Ok(are_all_found(&doc) && is_absent(&doc) && is_absent(&Doc::Int(Whole::of(1))))
}

fn expect_found(rt: &impl Abort, alloc: Global, row: &(&str, u64)) {
    let (why, others) = *row;
    expect_holds(rt, are_found_among(alloc, others), why);
}

#[test]
fn members_are_found_by_short_texts(rt: HostRuntime) {
    for row in OTHERS {
        expect_found(&rt, rt.alloc(), row);
    }
}

// Whether this is the name of the first member that is left, or none is left.
fn is_first_left(left: &mut NamedMembers<'_>, first: Option<&str>) -> bool {
    match left.next() {
        Some((name, _)) => first == Some(name.as_str()),
        None => first.is_none(),
    }
}

// Whether the member of this name is taken, and this is the name of the first that is left then.
fn is_taken(members: &Members, name: Name<'_>, first: Option<&str>) -> bool {
    let mut left = members.iter().named();
    let taken = left.take_named(name);
    taken.is_some_and(|member| member.is_text(name.as_str())) && is_first_left(&mut left, first)
}

fn are_taken(members: &Members, others: &Members) -> bool {
    let mut above = NAMES.iter().skip(1);
    for (name, _) in others.iter().named() {
        if !is_taken(members, name, above.next().copied()) {
            return false;
        }
    }
    true
}

fn are_taken_in_order(alloc: Global) -> Result<bool, Fault> {
    let doc = object(alloc, 0)?;
    let again = object(alloc, 0)?;
    Ok(match (doc.as_dict(), again.as_dict()) {
        (Some(members), Some(others)) => are_taken(members, others),
        _ => false,
    })
}

#[test]
fn members_are_taken_in_order(rt: HostRuntime) {
    expect_holds(&rt, are_taken_in_order(rt.alloc()), "each name");
}

// Why the first of `NAMES` above a name that isn't there is this one, the name, and the first above, if there is one.
const ABSENT: &[(&str, &str, Option<&str>)] = &[
    (
        "`A` comes behind the empty name and before `T`",
        "A",
        Some("Type"),
    ),
    (
        "the last byte is less than in one of as many bytes",
        "abcdefghijklmnopqrstuvwxx",
        Some("abcdefghijklmnopqrstuvwxy"),
    ),
    ("`c` comes behind `b` and before `t`", "c", Some("type")),
    ("`ö` comes behind `ä`, the last of all", "ö", None),
];

fn is_not_taken(members: &Members, name: Name<'_>, first: Option<&str>) -> bool {
    let mut left = members.iter().named();
    left.take_named(name).is_none() && is_first_left(&mut left, first)
}

// Whether no member of this name is taken, and this is the name of the first that is left then.
fn is_left_alone(alloc: Global, name: &str, first: Option<&str>) -> Result<bool, Fault> {
    let doc = object(alloc, 0)?;
    let mut absent = Members::new(alloc);
    absent.insert(alloc, name, Doc::Null)?;
    Ok(match (doc.as_dict(), absent.iter().named().next()) {
        (Some(members), Some((name, _))) => is_not_taken(members, name, first),
        _ => false,
    })
}

fn expect_left_alone(rt: &impl Abort, alloc: Global, row: &(&str, &str, Option<&str>)) {
    let (why, name, first) = *row;
    expect_holds(rt, is_left_alone(alloc, name, first), why);
}

#[test]
fn what_is_not_there_is_not_taken(rt: HostRuntime) {
    for row in ABSENT {
        expect_left_alone(&rt, rt.alloc(), row);
    }
}

/// A text, and whether it is so many of these bytes.
struct Padded {
    why: &'static str,
    text: &'static str,
    len: u32,
    bytes: &'static [u8; 24],
    is_padded: bool,
}

const PADDED: &[Padded] = &[
    Padded {
        why: "the first two bytes are the text's, and zeros stand behind them",
        text: "ab",
        len: 2,
        bytes: b"ab\0\0\0\0\0\0\0\0\0\0\0\0\0\0\0\0\0\0\0\0\0\0",
        is_padded: true,
    },
    Padded {
        why: "a text of two bytes isn't the first byte",
        text: "ab",
        len: 1,
        bytes: b"ab\0\0\0\0\0\0\0\0\0\0\0\0\0\0\0\0\0\0\0\0\0\0",
        is_padded: false,
    },
    Padded {
        why: "the second byte is another",
        text: "ac",
        len: 2,
        bytes: b"ab\0\0\0\0\0\0\0\0\0\0\0\0\0\0\0\0\0\0\0\0\0\0",
        is_padded: false,
    },
    Padded {
        why: "an empty text is none of the bytes",
        text: "",
        len: 0,
        bytes: b"\0\0\0\0\0\0\0\0\0\0\0\0\0\0\0\0\0\0\0\0\0\0\0\0",
        is_padded: true,
    },
    Padded {
        why: "a text of 24 bytes needs no zeros behind it",
        text: "abcdefghijklmnopqrstuvwx",
        len: 24,
        bytes: b"abcdefghijklmnopqrstuvwx",
        is_padded: true,
    },
];

fn expect_padded(rt: &impl Abort, row: &Padded) {
    let (len, bytes) = (row.len, row.bytes);
    let found = ShortText::of(row.text).is_some_and(|short| short.is_padded(len, bytes));
    assert_eq!(rt; found, row.is_padded, "{}", row.why);
}

#[test]
fn short_texts_are_those_of_padded_bytes(rt: HostRuntime) {
    for row in PADDED {
        expect_padded(&rt, row);
    }
}
