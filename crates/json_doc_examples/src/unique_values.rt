//! The order of values, and lists that hold a value twice.

use crate::expectations::expect_holds;
use json_doc::{Fault, read};
use std::alloc::Global;
use std::cmp::Ordering;
use std::process::Abort;
use value_order::{compare, has_same, is_unique};

// Why a value comes behind the one above, the value, and a text of the same value.
const ASCENDING: &[(&str, &str, &str)] = &[
    ("null's kind is the first", "null", "null"),
    (
        "booleans come behind null, and false first",
        "false",
        "false",
    ),
    ("true comes behind false", "true", "true"),
    ("numbers come behind booleans", "-2", "-2"),
    ("of two numbers below 0 the larger comes behind", "-1", "-1"),
    ("0 comes behind all below it", "0", "0"),
    ("numbers come in their order", "10", "10"),
    (
        "texts come behind numbers, and the empty one first",
        r#""""#,
        r#""""#,
    ),
    ("each text comes behind the empty one", r#""a""#, r#""a""#),
    ("a text comes behind its beginning", r#""ab""#, r#""ab""#),
    (
        "the first bytes that differ decide of texts",
        r#""b""#,
        r#""b""#,
    ),
    (
        "arrays come behind texts, and the empty one first",
        "[]",
        "[]",
    ),
    ("each array comes behind the empty one", "[1,[]]", "[1,[]]"),
    (
        "the first elements that differ decide, and no length",
        "[2]",
        "[2]",
    ),
    (
        "objects come behind arrays, and the empty one first",
        "{}",
        "{}",
    ),
    (
        "each object comes behind the empty one",
        r#"{"a":1}"#,
        r#"{"a":1}"#,
    ),
    (
        "an object comes behind one of its first members",
        r#"{"a":1,"b":0}"#,
        r#"{"b":0,"a":1}"#,
    ),
    (
        "under the same names the first values that differ decide",
        r#"{"a":1,"b":2}"#,
        r#"{"b":2,"a":1}"#,
    ),
    (
        "the first names that differ decide before any value",
        r#"{"b":0}"#,
        r#"{"b":0}"#,
    ),
];

fn order(alloc: Global, text: &str, other: &str) -> Result<Ordering, Fault> {
    let doc = read(alloc, text.as_bytes())?;
    let other = read(alloc, other.as_bytes())?;
    Ok(compare(&doc, &other))
}

fn stands_so(alloc: Global, text: &str, other: &str, wanted: Ordering) -> Result<bool, Fault> {
    Ok(order(alloc, text, other)? == wanted)
}

fn expect_order(rt: &impl Abort, alloc: Global, index: usize, row: &(&str, &str, &str)) {
    let (why, text, _) = *row;
    for (other_index, other) in ASCENDING.iter().enumerate() {
        let wanted = index.cmp(&other_index);
        expect_holds(rt, stands_so(alloc, text, other.2, wanted), why);
    }
}

#[test]
fn values_stand_by_kind_and_content(rt: HostRuntime) {
    for (index, row) in ASCENDING.iter().enumerate() {
        expect_order(&rt, rt.alloc(), index, row);
    }
}

// Why the elements of a value are unique or not, by the equality of Core, 4.2.2; the value, and whether they are.
const LISTS: &[(&str, &str, bool)] = &[
    ("no element stands twice in an empty array", "[]", true),
    ("one element alone is no other's equal", "[1]", true),
    ("a number is no string", r#"[1,"1"]"#, true),
    (
        "values of different kinds are never equal",
        r#"[false,0,null,"",[],{}]"#,
        true,
    ),
    ("an empty array is no empty object", "[[],{}]", true),
    (
        "arrays are equal by all their elements and their length",
        "[[1],[1,2],[2]]",
        true,
    ),
    (
        "objects are equal by their names and their values",
        r#"[{"a":1},{"b":1},{"a":2}]"#,
        true,
    ),
    ("a number equals itself", "[3,3]", false),
    (
        "others may stand between two equal elements",
        "[3,1,2,3]",
        false,
    ),
    (
        "the order of members doesn't count",
        r#"[{"a":1,"b":2},{"b":2,"a":1}]"#,
        false,
    ),
    (
        "arrays are equal where all their elements are",
        r#"[["a",[]],0,["a",[]]]"#,
        false,
    ),
    (
        "an object's values are no elements",
        r#"{"a":1,"b":1}"#,
        true,
    ),
    ("a string's characters are no elements", r#""aa""#, true),
];

fn is_unique_as(alloc: Global, text: &str, wanted: bool) -> Result<bool, Fault> {
    let doc = read(alloc, text.as_bytes())?;
    Ok(is_unique(alloc, &doc)? == wanted)
}

fn expect_unique(rt: &impl Abort, alloc: Global, row: &(&str, &str, bool)) {
    let (why, text, wanted) = *row;
    expect_holds(rt, is_unique_as(alloc, text, wanted), why);
}

#[test]
fn repeats_are_found(rt: HostRuntime) {
    for row in LISTS {
        expect_unique(&rt, rt.alloc(), row);
    }
}

// The numbers below `length`, and `last`.
fn numbers(alloc: Global, length: u64, last: u64) -> Result<String, Fault> {
    let mut text = String::from_str(alloc, "[")?;
    for number in 1..length {
        text.push_str(format!(in alloc; "{number},")?.as_str())?;
    }
    text.push_str(format!(in alloc; "{last}]")?.as_str())?;
    Ok(text)
}

// Lists of so many numbers, the last of which stands there once or twice.
fn are_told(alloc: Global, length: u64) -> Result<bool, Fault> {
    let once = numbers(alloc, length, length)?;
    let twice = numbers(alloc, length, 1)?;
    Ok(
        is_unique_as(alloc, once.as_str(), true)?
            && is_unique_as(alloc, twice.as_str(), length == 1)?,
    )
}

// Why lists of a length are told so, and the length.
const LENGTHS: &[(&str, u64)] = &[
    ("one element alone is no other's equal", 1),
    ("15 elements are few enough to compare each two", 15),
    (
        "16 elements are the most of which each two are compared",
        16,
    ),
    (
        "17 elements are sorted, and then neighbours are compared",
        17,
    ),
    ("longer lists are sorted, too", 40),
];

fn expect_length(rt: &impl Abort, alloc: Global, row: &(&str, u64)) {
    let (why, length) = *row;
    expect_holds(rt, are_told(alloc, length), why);
}

#[test]
fn short_and_long_lists_are_told_alike(rt: HostRuntime) {
    for row in LENGTHS {
        expect_length(&rt, rt.alloc(), row);
    }
}

fn is_found_among_others(alloc: Global) -> Result<bool, Fault> {
    let values = read(alloc, br#"[1,{"a":1,"b":2},"1"]"#)?;
    let swapped = read(alloc, br#"{"b":2,"a":1}"#)?;
    let other = read(alloc, b"2")?;
    let items = values.as_list().unwrap_or_default();
    Ok(match items.first_chunk::<1>() {
        Some(first) => has_same(&swapped, items)
            && !has_same(&swapped, first)
            && !has_same(&other, items),
        None => false,
    })
}

#[test]
fn an_equal_value_is_found(rt: HostRuntime) {
    expect_holds(&rt, is_found_among_others(rt.alloc()), "an object");
}

// 19,999 objects, no two of which are equal, and one with this number.
fn long_list(alloc: Global, last: u64) -> Result<String, Fault> {
    let mut text = String::from_str(alloc, "[")?;
    for number in 0..19_999_u64 {
        let number = number.wrapping_mul(7_919) % 20_011;
        text.push_str(format!(in alloc; r#"{{"a":{number},"b":"b","c":null}},"#)?.as_str())?;
    }
    text.push_str(format!(in alloc; r#"{{"a":{last},"b":"b","c":null}}]"#)?.as_str())?;
    Ok(text)
}

fn is_long_list_told(alloc: Global, last: u64, unique: bool) -> Result<bool, Fault> {
    is_unique_as(alloc, long_list(alloc, last)?.as_str(), unique)
}

// The numbers are the first 19,999 multiples of 7,919, modulo 20,011; the next multiple gives 5,027.
#[test]
fn repeats_in_long_lists_are_quickly_told(rt: HostRuntime) {
    expect_holds(&rt, is_long_list_told(rt.alloc(), 5_027, true), "5,027");
    expect_holds(&rt, is_long_list_told(rt.alloc(), 7_919, false), "7,919");
}
