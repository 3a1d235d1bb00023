//! Values, their members, their nesting, and equality.

use crate::expectations::expect_holds;
use json_doc::{Doc, Fault, Members, Whole, copy, nesting, read, same, write};
use std::alloc::Global;
use std::process::Abort;
use value_order::compare;

fn repeated(alloc: Global) -> Result<Members, Fault> {
    let mut members = Members::new(alloc);
    members.insert(alloc, "b", Doc::Int(Whole::of(1)))?;
    members.insert(alloc, "a", Doc::List(Vec::new(alloc)))?;
    members.insert(alloc, "b", Doc::Bool(true))?;
    Ok(members)
}

fn has_its_members(members: &Members) -> bool {
    let first = members.iter().next();
    let found = members.get_key_value("b");
    members.len() == 2
        && !members.is_empty()
        && first.is_some_and(|(name, _)| name == "a")
        && found.is_some_and(|(name, member)| name == "b" && member.as_bool() == Some(true))
        && members.get_key_value("c").is_none()
}

fn is_its_value(doc: &Doc) -> bool {
    doc.get("b").and_then(|member| member.as_bool()) == Some(true)
        && doc.get("c").is_none()
        && doc.as_dict().is_some()
        && doc.as_list().is_none()
}

fn last_wins(alloc: Global) -> Result<bool, Fault> {
    let members = repeated(alloc)?;
    let has_its_members = has_its_members(&members);
    Ok(has_its_members && is_its_value(&Doc::Dict(members)))
}

#[test]
fn the_last_of_repeated_names_wins(rt: HostRuntime) {
    expect_holds(&rt, last_wins(rt.alloc()), "b, a, b");
}

#[test]
fn whole_numbers_have_64_bits(rt: HostRuntime) {
    let largest = Whole::of(u64::MAX);
    let smallest = Whole::of_signed(i64::MIN);
    assert!(rt; largest.number() == 18446744073709551615 && largest.as_u64() == Some(u64::MAX));
    assert!(rt; smallest.number() == -9223372036854775808 && smallest.as_u64().is_none());
    assert!(rt; Doc::Null.as_bool().is_none());
}

fn tells_its_texts(alloc: Global) -> Result<bool, Fault> {
    let text = Doc::string(alloc, "a")?;
    let named = read(alloc, br#"{"$id":"s","title":1}"#)?;
    let is_text = text.as_str() == Some("a") && text.get("a").is_none();
    let has_id = named.text_at("$id") == Some("s");
    Ok(is_text && has_id && named.text_at("title").is_none() && named.text_at("a").is_none())
}

#[test]
fn a_value_tells_its_texts(rt: HostRuntime) {
    expect_holds(&rt, tells_its_texts(rt.alloc()), "a text and an object");
}

// Why a text is here, and the text, in byte order.
const TEXTS: &[(&str, &str)] = &[
    ("the empty text comes before all others", ""),
    (
        "a text of 23 bytes stands in the value itself",
        "abcdefghijklmnopqrstuvw",
    ),
    (
        "24 bytes are the most that stand in the value itself",
        "abcdefghijklmnopqrstuvwx",
    ),
    (
        "a text of 25 bytes doesn't stand in the value itself",
        "abcdefghijklmnopqrstuvwxy",
    ),
    (
        "a text comes behind the one that it goes on from",
        "abcdefghijklmnopqrstuvwxyz",
    ),
    (
        "12 characters of two bytes each are 24 bytes",
        "ääääääääääää",
    ),
    (
        "13 characters of two bytes each are more than 24 bytes",
        "äääääääääääää",
    ),
];

fn is_short_or_long(alloc: Global, text: &str) -> Result<bool, Fault> {
    let string = Doc::string(alloc, text)?;
    let is_text = string.as_str() == Some(text) && string.is_text(text);
    let is_no_other = !string.is_text("none of them");
    let mut members = Members::new(alloc);
    members.insert(alloc, text, string)?;
    let doc = Doc::Dict(members);
    Ok(is_text && is_no_other && doc.text_at(text) == Some(text) && is_kept(alloc, &doc)?)
}

// Whether the value is the same once it is written and read back, or copied.
fn is_kept(alloc: Global, doc: &Doc) -> Result<bool, Fault> {
    let again = read(alloc, write(alloc, doc)?.as_bytes())?;
    let copied = copy(alloc, doc)?;
    Ok(same(&again, doc) && same(&copied, doc))
}

fn expect_short_or_long(rt: &impl Abort, alloc: Global, row: &(&str, &str)) {
    let (why, text) = *row;
    expect_holds(rt, is_short_or_long(alloc, text), why);
}

#[test]
fn texts_and_names_are_short_or_long(rt: HostRuntime) {
    for row in TEXTS {
        expect_short_or_long(&rt, rt.alloc(), row);
    }
}

fn stands_so(
    alloc: Global,
    places: (usize, usize),
    text: &str,
    other: &str,
) -> Result<bool, Fault> {
    let string = Doc::of_string(String::from_str(alloc, text)?);
    let other = Doc::string(alloc, other)?;
    let is_same = same(&string, &other) == (places.0 == places.1);
    Ok(is_same && compare(&string, &other) == places.0.cmp(&places.1))
}

fn expect_among(rt: &impl Abort, alloc: Global, place: usize, row: &(&str, &str)) {
    let (why, text) = *row;
    for (other_place, other) in TEXTS.iter().enumerate() {
        let places = (place, other_place);
        expect_holds(rt, stands_so(alloc, places, text, other.1), why);
    }
}

#[test]
fn short_texts_stand_among_long_ones(rt: HostRuntime) {
    for (place, row) in TEXTS.iter().enumerate() {
        expect_among(&rt, rt.alloc(), place, row);
    }
}

// Why a value nests so deep, the value, and how deep.
const NESTINGS: &[(&str, &str, usize)] = &[
    ("arrays and objects alone nest", "true", 0),
    ("an array nests, though it be empty", "[]", 1),
    (
        "an object nests by one more than its deepest value",
        r#"{"a":[[null]]}"#,
        3,
    ),
];

fn nests(alloc: Global, text: &str, depth: usize) -> Result<bool, Fault> {
    let doc = read(alloc, text.as_bytes())?;
    Ok(nesting(&doc) == depth)
}

fn expect_nesting(rt: &impl Abort, alloc: Global, row: &(&str, &str, usize)) {
    let (why, text, depth) = *row;
    expect_holds(rt, nests(alloc, text, depth), why);
}

#[test]
fn lists_and_objects_nest(rt: HostRuntime) {
    for row in NESTINGS {
        expect_nesting(&rt, rt.alloc(), row);
    }
}

/// Two values that are equal or not, by Core, 4.2.2.
struct Pair {
    why: &'static str,
    text: &'static str,
    other: &'static str,
    wanted: bool,
}

const PAIRS: &[Pair] = &[
    Pair {
        why: "numbers are equal by their value",
        text: "0",
        other: "1",
        wanted: false,
    },
    Pair {
        why: "a number is no boolean",
        text: "0",
        other: "false",
        wanted: false,
    },
    Pair {
        why: "strings are equal by their characters",
        text: r#""a""#,
        other: r#""b""#,
        wanted: false,
    },
    Pair {
        why: "equal arrays have as many elements",
        text: "[null]",
        other: "[]",
        wanted: false,
    },
    Pair {
        why: "equal objects have the same names",
        text: r#"{"a":null}"#,
        other: r#"{"b":null}"#,
        wanted: false,
    },
    Pair {
        why: "objects of the same names and equal values are equal",
        text: r#"{"a":null}"#,
        other: r#"{"a":null}"#,
        wanted: true,
    },
    Pair {
        why: "values within values are compared by the same rule",
        text: r#"{"a":["b"]}"#,
        other: r#"{"a":["b"]}"#,
        wanted: true,
    },
];

fn are_same_as(alloc: Global, text: &str, other: &str, wanted: bool) -> Result<bool, Fault> {
    let doc = read(alloc, text.as_bytes())?;
    let other = read(alloc, other.as_bytes())?;
    let copied = copy(alloc, &doc)?;
    Ok(same(&doc, &other) == wanted && same(&copied, &doc))
}

fn expect_pair(rt: &impl Abort, alloc: Global, row: &Pair) {
    let holds = are_same_as(alloc, row.text, row.other, row.wanted);
    expect_holds(rt, holds, row.why);
}

#[test]
fn values_are_told_apart(rt: HostRuntime) {
    for row in PAIRS {
        expect_pair(&rt, rt.alloc(), row);
    }
}
