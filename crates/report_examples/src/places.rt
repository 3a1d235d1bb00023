//! Lines and columns of locations, and of what can't be read.

use crate::expectations::expect_told;
use std::alloc::Global;
use std::process::Abort;
use text_places::{Fault, Position, first_fault, position_of_location};

// `LINE:COLUMN`, `none`, or the fault.
fn told(alloc: Global, found: Result<Option<Position>, Fault>) -> Result<String, Fault> {
    match found? {
        Some(position) => Ok(format!(in alloc; "{}:{}", position.line, position.column)?),
        None => Ok(String::from_str(alloc, "none")?),
    }
}

const TWO_MEMBERS: &str = r#"{
  "b": [1, 22 , 3],
  "a": "x"
}"#;

const UMLAUTS: &str = r#"{"ä":"öö","\u00e4b":true}"#;

const STRINGS_OF_SIGNS: &str = r#"["]},\"","x , ",1]"#;

// Why a value begins there, the text, a location in it, and the position of the value's first character.
const LOCATIONS: &[(&str, &str, &str, &str)] = &[
    ("lines and columns count from 1 (CLI.md)", "7", "", "1:1"),
    (
        "blanks before a value are not its own (RFC 8259, 2)",
        " \n 7 ",
        "",
        "2:2",
    ),
    (
        "the empty pointer is the whole value's (RFC 6901, 5)",
        r#"{"a":1}"#,
        "",
        "1:1",
    ),
    (
        "a member's value begins behind its colon",
        r#"{"a":1}"#,
        "/a",
        "1:6",
    ),
    ("no member has the name", r#"{"a":1}"#, "/b", "none"),
    (
        "a line feed ends a line, and a blank counts as a column",
        TWO_MEMBERS,
        "/b",
        "2:8",
    ),
    (
        "the second element begins behind a comma and a blank",
        TWO_MEMBERS,
        "/b/1",
        "2:12",
    ),
    (
        "blanks may stand before a comma, too",
        TWO_MEMBERS,
        "/b/2",
        "2:17",
    ),
    (
        "an array of three has no fourth element",
        TWO_MEMBERS,
        "/b/3",
        "none",
    ),
    (
        "an index begins with no zero but `0` (RFC 6901, 4)",
        TWO_MEMBERS,
        "/b/01",
        "none",
    ),
    (
        "members are told by name, and not by their order",
        TWO_MEMBERS,
        "/a",
        "3:8",
    ),
    (
        "an inner array's commas part no elements of the outer one",
        "[[1,[2]],{\"a\":[3]},\r\n{\"a\":[4,5]}]",
        "/2/a/1",
        "2:9",
    ),
    (
        "empty arrays and objects are one element each",
        "[[],{},[[]],null]",
        "/3",
        "1:13",
    ),
    (
        "columns count characters, and not bytes (CLI.md)",
        UMLAUTS,
        "/ä",
        "1:6",
    ),
    (
        "an escaped name is the name that it spells (RFC 8259, 8.3)",
        UMLAUTS,
        "/äb",
        "1:21",
    ),
    (
        "`~1` is a slash, and `~0` a tilde (RFC 6901, 4)",
        r#"{"a/b":{"~":[0]}}"#,
        "/a~1b/~0/0",
        "1:14",
    ),
    (
        "brackets and an escaped quotation mark in a string end nothing",
        STRINGS_OF_SIGNS,
        "/1",
        "1:10",
    ),
    (
        "a comma in a string parts no elements",
        STRINGS_OF_SIGNS,
        "/2",
        "1:17",
    ),
    (
        "of repeated names the last one's value is meant (CLI.md)",
        r#"{"a":1,"b":2,"a":3}"#,
        "/a",
        "1:18",
    ),
    ("a text that is no JSON has no values", "[1,", "/0", "none"),
    (
        "a pointer that isn't empty begins with a slash (RFC 6901, 3)",
        "[1]",
        "0",
        "none",
    ),
];

fn expect_position(rt: &impl Abort, alloc: Global, row: &(&str, &str, &str, &str)) {
    let (why, text, location, wanted) = *row;
    let found = position_of_location(alloc, text.as_bytes(), location);
    expect_told(rt, alloc, told(alloc, found), wanted, why);
}

#[test]
fn locations_have_their_positions(rt: HostRuntime) {
    for row in LOCATIONS {
        expect_position(&rt, rt.alloc(), row);
    }
}

// Why a text can't be read there, the text, and the position.
const FAULTS: &[(&str, &str, &str)] = &[
    (
        "it is JSON with whole numbers alone",
        r#"{"a":[1]}"#,
        "none",
    ),
    ("an empty text ends too early", "", "1:1"),
    ("a text of blanks ends too early", "  \n ", "2:2"),
    ("the text ends before its object does", "{\"a\":\n1", "2:2"),
    ("a bracket can't stand behind a comma", "[1,]", "1:4"),
    ("no comma stands before the second element", "[1 2]", "1:4"),
    ("a brace ends no array", "[1}", "1:3"),
    (
        "a name without a colon is no member's beginning",
        r#"{"a" 1}"#,
        "1:2",
    ),
    ("a name is a string (RFC 8259, 4)", "{1:2}", "1:2"),
    ("a name alone is no member", r#"{"a"}"#, "1:2"),
    ("a value is missing behind the colon", r#"{"a":}"#, "1:6"),
    ("a text is one value alone (RFC 8259, 2)", "1 2", "1:3"),
    ("nothing was begun that a brace could end", "1}", "1:2"),
    (
        "nothing is left that a second bracket could end",
        "[]]",
        "1:3",
    ),
    (
        "a number begins with no zero (RFC 8259, 6)",
        "[\n01]",
        "2:1",
    ),
    (
        "a name of a value is `true`, `false` or `null` (RFC 8259, 3)",
        r#"["ä",tru]"#,
        "1:6",
    ),
    (
        "a string without an end begins at its quotation mark",
        r#"["ab]"#,
        "1:2",
    ),
    (
        "the first number that isn't whole is told",
        "[1,\n 1.5, 2.5]",
        "2:2",
    ),
    ("-0 is no whole number here", "-0", "1:1"),
    (
        "numbers are judged in a text that is JSON alone",
        "[1.5",
        "1:5",
    ),
];

fn expect_fault(rt: &impl Abort, alloc: Global, row: &(&str, &str, &str)) {
    let (why, text, wanted) = *row;
    let found = told(alloc, first_fault(alloc, text.as_bytes()));
    expect_told(rt, alloc, found, wanted, why);
}

#[test]
fn faults_have_their_positions(rt: HostRuntime) {
    for row in FAULTS {
        expect_fault(&rt, rt.alloc(), row);
    }
    let alloc = rt.alloc();
    let found = told(alloc, first_fault(alloc, b"[\"a\",\n\"\xff\"]"));
    expect_told(&rt, alloc, found, "2:2", "the first byte that is no UTF-8");
}
