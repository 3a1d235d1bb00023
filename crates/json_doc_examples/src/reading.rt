//! Texts that are read and written, and texts that are refused.

use crate::expectations::{expect_holds, expect_told};
use json_doc::{Doc, Fault, Scratch, Whole, read, read_with, write};
use std::alloc::Global;
use std::process::Abort;

// What the text is written as once it is read.
fn rewritten(alloc: Global, text: &[u8]) -> Result<String, Fault> {
    Ok(write(alloc, &read(alloc, text)?)?)
}

// Why a text is read so or refused, the text, and what it is written as, or the fault.
const TEXTS: &[(&str, &str, &str)] = &[
    (
        "2^64 - 1 is the largest whole number of 64 bits",
        "18446744073709551615",
        "18446744073709551615",
    ),
    (
        "-2^63 is the smallest whole number of 64 bits",
        "-9223372036854775808",
        "-9223372036854775808",
    ),
    (
        "members are written in byte order of their names, without blanks",
        r#"{"b":1, "a":[ ]}"#,
        r#"{"a":[],"b":1}"#,
    ),
    (
        "of repeated names the last one's value counts",
        r#"{"a":1,"a":2}"#,
        r#"{"a":2}"#,
    ),
    (
        "a number that a later repeated name replaced isn't judged",
        r#"{"a":1.0,"a":2}"#,
        r#"{"a":2}"#,
    ),
    (
        "names may be repeated with others between them",
        r#"{"c":1,"a":2,"b":[],"c":3}"#,
        r#"{"a":2,"b":[],"c":3}"#,
    ),
    (
        "an escaped name is the name that its characters spell (RFC 8259, 8.3)",
        r#"{"\u0061":1,"a":-2}"#,
        r#"{"a":-2}"#,
    ),
    (
        "only quotation marks, backslashes and controls are written as escapes",
        r#"[null,true,"\u00e4\n\"/"]"#,
        r#"[null,true,"ä\n\"/"]"#,
    ),
    (
        "2^64 has more than 64 bits",
        "18446744073709551616",
        "2 BadNumber",
    ),
    (
        "a number with a fraction is refused, even where it is zero",
        "1.0",
        "2 BadNumber",
    ),
    (
        "a number with an exponent is refused, even where it is whole",
        "1e308",
        "2 BadNumber",
    ),
    ("-0 is no whole number here", "-0", "2 BadNumber"),
    (
        "each number in a value is judged, however deep it stands",
        r#"[{"a":[1.5]}]"#,
        "2 BadNumber",
    ),
    (
        "an array ends by a bracket (RFC 8259, 5)",
        "[1",
        "1 BadJson",
    ),
    (
        "numbers are judged in a text that is JSON alone",
        "[1.5",
        "1 BadJson",
    ),
    (
        "a value follows each comma (RFC 8259, 5)",
        "[1,]",
        "1 BadJson",
    ),
    ("a brace ends no array (RFC 8259, 5)", "[1}", "1 BadJson"),
    (
        "a name has a colon and a value behind it (RFC 8259, 4)",
        r#"{"a"}"#,
        "1 BadJson",
    ),
    ("a name is a string (RFC 8259, 4)", "{1:2}", "1 BadJson"),
    (
        "a text is one value alone (RFC 8259, 2)",
        "1 2",
        "1 BadJson",
    ),
    (
        "a number begins with no zero (RFC 8259, 6)",
        "01",
        "1 BadJson",
    ),
    (
        "`serde_json` reads no number that is too large for a float",
        "1e400",
        "1 BadJson",
    ),
    ("an empty text has no value (RFC 8259, 2)", "", "1 BadJson"),
];

fn expect_rewritten(rt: &impl Abort, alloc: Global, row: &(&str, &str, &str)) {
    let (why, text, wanted) = *row;
    expect_told(rt, alloc, rewritten(alloc, text.as_bytes()), wanted, why);
}

#[test]
fn texts_are_read_or_refused(rt: HostRuntime) {
    let alloc = rt.alloc();
    for row in TEXTS {
        expect_rewritten(&rt, alloc, row);
    }
    let no_utf8 = b"\"\xff\"";
    expect_told(
        &rt,
        alloc,
        rewritten(alloc, no_utf8),
        "1 BadJson",
        "JSON is in UTF-8 (RFC 8259, 8.1)",
    );
}

// Lists in one another, so many.
fn nested(alloc: Global, depth: u32) -> Result<String, Fault> {
    let mut text = String::new(alloc);
    for _ in 0..depth {
        text.push('[')?;
    }
    for _ in 0..depth {
        text.push(']')?;
    }
    Ok(text)
}

fn is_read_as_it_stands(alloc: Global, depth: u32) -> Result<bool, Fault> {
    let text = nested(alloc, depth)?;
    let again = rewritten(alloc, text.as_bytes())?;
    Ok(again.as_str() == text.as_str())
}

fn is_refused(alloc: Global, depth: u32) -> Result<bool, Fault> {
    let text = nested(alloc, depth)?;
    Ok(read(alloc, text.as_bytes()).err() == Some(Fault::BadJson))
}

#[test]
fn a_nesting_of_127_is_read(rt: HostRuntime) {
    expect_holds(&rt, is_read_as_it_stands(rt.alloc(), 127), "127");
    expect_holds(&rt, is_refused(rt.alloc(), 128), "128");
}

// An object whose names fall in twos, and then once more with other values.
fn falling(alloc: Global, count: u32) -> Result<String, Fault> {
    let mut text = String::from_str(alloc, "{")?;
    for turn in 0..2 {
        for below in 0..count {
            let name = 1000 + (count - below) / 2;
            text.push_str(format!(in alloc; "\"{name}\":{turn},")?.as_str())?;
        }
    }
    text.push_str("\"\":null}")?;
    Ok(text)
}

fn is_one(doc: &Doc) -> bool {
    match doc {
        Doc::Int(number) => *number == Whole::of(1),
        _ => false,
    }
}

// Whether the object has so many members, each of them 1 but that of the empty name.
fn has_last_values(doc: &Doc, count: usize) -> bool {
    let Some(members) = doc.as_dict() else {
        return false;
    };
    for (name, member) in members.iter() {
        if !name.is_empty() && !is_one(member) {
            return false;
        }
    }
    members.len() == count
}

fn are_read(alloc: Global, scratch: &mut Scratch, count: u32) -> Result<bool, Fault> {
    let text = falling(alloc, count)?;
    let doc = read_with(alloc, scratch, text.as_bytes())?;
    let are_there = doc.get("1001").is_some() && doc.get("1000").is_some();
    Ok(are_there && doc.get("2000").is_none() && has_last_values(&doc, count as usize / 2 + 2))
}

#[test]
fn many_names_in_any_order_are_read(rt: HostRuntime) {
    let mut scratch = Scratch::new(rt.alloc());
    expect_holds(&rt, are_read(rt.alloc(), &mut scratch, 20), "20");
    expect_holds(&rt, are_read(rt.alloc(), &mut scratch, 300), "300");
}
