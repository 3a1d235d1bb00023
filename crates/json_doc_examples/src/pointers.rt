//! Pointers, their texts, and what they find.

use crate::expectations::{expect_holds, expect_told};
use json_doc::{Doc, Fault, read, same};
use json_pointer::Pointer;
use locations::find;
use std::alloc::Global;
use std::process::Abort;

fn pushed(alloc: Global) -> Result<String, Fault> {
    let mut pointer = Pointer::new(alloc);
    for token in &["a/b", "m~n", "ä b"] {
        pointer.push(token)?;
    }
    Ok(pointer.text(alloc)?)
}

// Whether the pointer with no tokens has no text and finds the value itself.
fn leads_nowhere(alloc: Global) -> Result<bool, Fault> {
    let pointer = Pointer::new(alloc);
    let doc = Doc::List(vec![in alloc; Doc::Null]?);
    let finds_it = find(&doc, &pointer).is_some_and(|found| same(found, &doc));
    Ok(finds_it && pointer.text(alloc)?.is_empty())
}

#[test]
fn pushed_tokens_are_escaped(rt: HostRuntime) {
    let alloc = rt.alloc();
    expect_holds(&rt, leads_nowhere(alloc), "no tokens");
    expect_told(&rt, alloc, pushed(alloc), "/a~1b/m~0n/ä b", "three tokens");
}

// Why a text is a pointer or none, the text, and what it is written as, alone and as a fragment, or the fault.
const POINTERS: &[(&str, &str, &str)] = &[
    (
        "a fragment's characters beyond ASCII and blanks are percent-encoded (RFC 6901, 6)",
        "/a~1b/m~0n/ä b",
        "/a~1b/m~0n/ä b#/a~1b/m~0n/%C3%A4%20b",
    ),
    (
        "a tilde begins `~0` or `~1` alone (RFC 6901, 3)",
        "/~2",
        "3 BadPointer",
    ),
    (
        "a pointer that isn't empty begins with a slash (RFC 6901, 3)",
        "a",
        "3 BadPointer",
    ),
];

fn rewritten(alloc: Global, text: &str) -> Result<String, Fault> {
    let pointer = Pointer::parse(alloc, text)?;
    let mut text = pointer.text(alloc)?;
    text.push('#')?;
    text.push_str(pointer.fragment_text(alloc)?.as_str())?;
    Ok(text)
}

fn expect_rewritten(rt: &impl Abort, alloc: Global, row: &(&str, &str, &str)) {
    let (why, pointer, wanted) = *row;
    expect_told(rt, alloc, rewritten(alloc, pointer), wanted, why);
}

#[test]
fn pointers_are_read_and_written(rt: HostRuntime) {
    for row in POINTERS {
        expect_rewritten(&rt, rt.alloc(), row);
    }
}

// Why a pointer finds its number in `[7,[8]]` or none, the pointer, and the number.
const FOUND: &[(&str, &str, Option<u64>)] = &[
    ("elements are counted from 0 (RFC 6901, 4)", "/0", Some(7)),
    ("each token goes one value deeper", "/1/0", Some(8)),
    (
        "an index begins with no zero but `0` (RFC 6901, 4)",
        "/00",
        None,
    ),
    ("`-` is behind the last element (RFC 6901, 4)", "/-", None),
    ("an array of two has no third element", "/2", None),
];

fn number_of(doc: &Doc) -> Option<u64> {
    match doc {
        Doc::Int(number) => number.as_u64(),
        _ => None,
    }
}

fn finds(alloc: Global, text: &str, wanted: Option<u64>) -> Result<bool, Fault> {
    let doc = read(alloc, b"[7,[8]]")?;
    let pointer = Pointer::parse(alloc, text)?;
    let number = find(&doc, &pointer).and_then(|found| number_of(found));
    Ok(number == wanted)
}

fn expect_found(rt: &impl Abort, alloc: Global, row: &(&str, &str, Option<u64>)) {
    let (why, pointer, wanted) = *row;
    expect_holds(rt, finds(alloc, pointer, wanted), why);
}

#[test]
fn pointers_find_elements(rt: HostRuntime) {
    for row in FOUND {
        expect_found(&rt, rt.alloc(), row);
    }
}
