//! Lists of names that units say one after the other, by RFC 8259, section 7.

use crate::expectations::{expect_same, expect_told};
use crate::places::{Places, root_of};
use basic_output::{Says, Units};
use json_doc::{Doc, Fault, Members, Name};
use output_texts::output_text;
use std::alloc::{AllocError, Global};
use std::process::Abort;

const ALPHABET: &str = "abcdefghijklmnopqrstuvwxyz";

// The longest that stands in the value itself.
const SHORT: &str = "abcdefghijklmnopqrstuvwx";

const ALPHABETS_AROUND_AN_A: &str =
    r#"["abcdefghijklmnopqrstuvwxyz","abcdefghijklmnopqrstuvwxyz","ä","abcdefghijklmnopqrstuvwxyz","abcdefghijklmnopqrstuvwxyz","abcdefghijklmnopqrstuvwxyz","abcdefghijklmnopqrstuvwxyz","abcdefghijklmnopqrstuvwxyz","abcdefghijklmnopqrstuvwxyz"]"#;

const ALPHABETS_AROUND_AN_O: &str =
    r#"["abcdefghijklmnopqrstuvwxyz","abcdefghijklmnopqrstuvwxyz","ö","abcdefghijklmnopqrstuvwxyz","abcdefghijklmnopqrstuvwxyz","abcdefghijklmnopqrstuvwxyz","abcdefghijklmnopqrstuvwxyz","abcdefghijklmnopqrstuvwxyz","abcdefghijklmnopqrstuvwxyz"]"#;

const SHORT_NAMES_AROUND_Y: &str =
    r#"["abcdefghijklmnopqrstuvwx","abcdefghijklmnopqrstuvwx","abcdefghijklmnopqrstuvwx","abcdefghijklmnopqrstuvwx","abcdefghijklmnopqrstuvwx","y","abcdefghijklmnopqrstuvwx","abcdefghijklmnopqrstuvwx","abcdefghijklmnopqrstuvwx","abcdefghijklmnopqrstuvwx","abcdefghijklmnopqrstuvwx"]"#;

const SHORT_NAMES_AROUND_Z: &str =
    r#"["abcdefghijklmnopqrstuvwx","abcdefghijklmnopqrstuvwx","abcdefghijklmnopqrstuvwx","abcdefghijklmnopqrstuvwx","abcdefghijklmnopqrstuvwx","z","abcdefghijklmnopqrstuvwx","abcdefghijklmnopqrstuvwx","abcdefghijklmnopqrstuvwx","abcdefghijklmnopqrstuvwx","abcdefghijklmnopqrstuvwx"]"#;

/// Why a list has its text behind those above, its names, and the text.
const LISTS: &[(&str, &[&str], &str)] = &[
    (
        "names are strings, in the order in which they are given",
        &["a", "b", "c"],
        r#"["a","b","c"]"#,
    ),
    (
        "a list that is said once more has the same text",
        &["a", "b", "c"],
        r#"["a","b","c"]"#,
    ),
    (
        "a list is told by the names between its ends, too",
        &["a", "x", "c"],
        r#"["a","x","c"]"#,
    ),
    (
        "a list that comes back behind another has its own text",
        &["a", "b", "c"],
        r#"["a","b","c"]"#,
    ),
    (
        "a list is told by its last name, too",
        &["a", "b", "d"],
        r#"["a","b","d"]"#,
    ),
    (
        "a list is told by its first name, too",
        &["b", "b", "c"],
        r#"["b","b","c"]"#,
    ),
    (
        "a name that goes on from another is no such name",
        &["a", "bx", "c"],
        r#"["a","bx","c"]"#,
    ),
    (
        "an empty name is written as an empty string",
        &["a", "", "c"],
        r#"["a","","c"]"#,
    ),
    (
        "a list is told by how many names it has",
        &["a", "b"],
        r#"["a","b"]"#,
    ),
    (
        "a quotation mark in a name ends no string (RFC 8259, 7)",
        &[r#"a","b"#],
        r#"["a\",\"b"]"#,
    ),
    (
        "two names are not the one that holds their quotation marks",
        &["a", "b"],
        r#"["a","b"]"#,
    ),
    (
        "a first name with quotation marks is one name",
        &[r#"a","b"#, "c"],
        r#"["a\",\"b","c"]"#,
    ),
    (
        "a last name with quotation marks is one name",
        &["a", r#"b","c"#],
        r#"["a","b\",\"c"]"#,
    ),
    (
        "a backslash in a name is escaped (RFC 8259, 7)",
        &["a", r#"b\"#, "c"],
        r#"["a","b\\","c"]"#,
    ),
    (
        "a comma within a name parts no names",
        &["a,b", "c"],
        r#"["a,b","c"]"#,
    ),
    ("a list may have one name", &["a"], r#"["a"]"#),
    ("the one name may be empty", &[""], r#"[""]"#),
    ("two empty names are two strings", &["", ""], r#"["",""]"#),
    ("no names are an empty array", &[], "[]"),
    (
        "names come back behind an empty array",
        &["", ""],
        r#"["",""]"#,
    ),
    (
        "characters beyond ASCII stand beside an escape as they are",
        &["a", r#"ä""#, ""],
        r#"["a","ä\"",""]"#,
    ),
    (
        "no escape is left of the list above",
        &["a", "ä", ""],
        r#"["a","ä",""]"#,
    ),
    (
        "names of several letters are written whole",
        &["length", "name"],
        r#"["length","name"]"#,
    ),
    (
        "names of the same letters in another order are others",
        &["lenght", "name"],
        r#"["lenght","name"]"#,
    ),
    (
        "a last name of the same length and ends is another",
        &["length", "nine"],
        r#"["length","nine"]"#,
    ),
    (
        "a blank in a name needs no escape",
        &["a", "a name of many words", "b"],
        r#"["a","a name of many words","b"]"#,
    ),
    (
        "one letter in a long name makes it another",
        &["a", "a name of many wards", "b"],
        r#"["a","a name of many wards","b"]"#,
    ),
    (
        "names are told by the case of their first letter",
        &["a", "A name of many words", "b"],
        r#"["a","A name of many words","b"]"#,
    ),
    (
        "a list of more than 200 bytes is written whole",
        &[
            ALPHABET, ALPHABET, "ä", ALPHABET, ALPHABET, ALPHABET, ALPHABET, ALPHABET, ALPHABET,
        ],
        ALPHABETS_AROUND_AN_A,
    ),
    (
        "one byte in a list of more than 200 makes it another",
        &[
            ALPHABET, ALPHABET, "ö", ALPHABET, ALPHABET, ALPHABET, ALPHABET, ALPHABET, ALPHABET,
        ],
        ALPHABETS_AROUND_AN_O,
    ),
    (
        "a list of more than 256 bytes is written whole",
        &[
            SHORT, SHORT, SHORT, SHORT, SHORT, "y", SHORT, SHORT, SHORT, SHORT, SHORT,
        ],
        SHORT_NAMES_AROUND_Y,
    ),
    (
        "one byte in a list of more than 256 makes it another",
        &[
            SHORT, SHORT, SHORT, SHORT, SHORT, "z", SHORT, SHORT, SHORT, SHORT, SHORT,
        ],
        SHORT_NAMES_AROUND_Z,
    ),
];

/// For each name an object with a member of it.
pub(crate) fn objects_of(alloc: Global, names: &[&str]) -> Result<Vec<Members>, Fault> {
    let mut objects = Vec::new(alloc);
    for name in names {
        let mut object = Members::new(alloc);
        object.insert(alloc, name, Doc::Null)?;
        objects.push(object)?;
    }
    Ok(objects)
}

/// The names of the members of these objects, one after the other.
pub(crate) fn names_of<'a>(
    alloc: Global,
    objects: &'a [Members],
) -> Result<Vec<Name<'a>>, AllocError> {
    let mut names = Vec::new(alloc);
    for object in objects {
        for (name, _) in object.iter().named() {
            names.push(name)?;
        }
    }
    Ok(names)
}

/// An annotation of these names at the root.
fn push_names(alloc: Global, units: &mut Units, names: &[&str]) -> Result<(), Fault> {
    let objects = objects_of(alloc, names)?;
    let names = names_of(alloc, &objects)?;
    let origin = root_of(alloc, "urn:x")?;
    Places::new(alloc)?.push(units, true, &origin, Says::Names(&names))
}

/// The text of an output of these names alone, by units whose memory is kept.
fn list_text(alloc: Global, units: &mut Units, names: &[&str]) -> Result<String, Fault> {
    units.clear();
    push_names(alloc, units, names)?;
    output_text(alloc, true, units)
}

fn wanted_text(alloc: Global, list: &str) -> Result<String, Fault> {
    let mut text = String::new(alloc);
    text.push_str(r#"{"annotations":[{"absoluteKeywordLocation":"urn:x#","annotation":"#)?;
    text.push_str(list)?;
    text.push_str(r#","instanceLocation":"","keywordLocation":""}],"valid":true}"#)?;
    Ok(text)
}

fn expect_list(rt: &impl Abort, alloc: Global, units: &mut Units, row: &(&str, &[&str], &str)) {
    let (why, names, list) = *row;
    let found = list_text(alloc, units, names);
    expect_same(rt, found, wanted_text(alloc, list), why);
}

fn expect_lists(rt: &impl Abort, alloc: Global, units: &mut Units) {
    for row in LISTS {
        expect_list(rt, alloc, units, row);
    }
}

// Each is written behind those before it, and all a second time.
#[test]
fn writes_lists_behind_others(rt: HostRuntime) {
    let mut units = Units::new(rt.alloc());
    expect_lists(&rt, rt.alloc(), &mut units);
    expect_lists(&rt, rt.alloc(), &mut units);
}

fn lists_text(alloc: Global) -> Result<String, Fault> {
    let mut units = Units::new(alloc);
    push_names(alloc, &mut units, &["a", "b", "c"])?;
    push_names(alloc, &mut units, &["a", "x", "c"])?;
    push_names(alloc, &mut units, &["a", "b", "c"])?;
    push_names(alloc, &mut units, &["a\",\"b", "c"])?;
    push_names(alloc, &mut units, &["a", "b", "c"])?;
    output_text(alloc, true, &units)
}

const BESIDE_OTHERS: &str =
    r#"{"annotations":[{"absoluteKeywordLocation":"urn:x#","annotation":["a","b","c"],"instanceLocation":"","keywordLocation":""},{"absoluteKeywordLocation":"urn:x#","annotation":["a","x","c"],"instanceLocation":"","keywordLocation":""},{"absoluteKeywordLocation":"urn:x#","annotation":["a","b","c"],"instanceLocation":"","keywordLocation":""},{"absoluteKeywordLocation":"urn:x#","annotation":["a\",\"b","c"],"instanceLocation":"","keywordLocation":""},{"absoluteKeywordLocation":"urn:x#","annotation":["a","b","c"],"instanceLocation":"","keywordLocation":""}],"valid":true}"#;

// Lists that stand side by side in one output.
#[test]
fn writes_lists_beside_others(rt: HostRuntime) {
    let alloc = rt.alloc();
    expect_told(&rt, alloc, lists_text(alloc), BESIDE_OTHERS, "five lists");
}
