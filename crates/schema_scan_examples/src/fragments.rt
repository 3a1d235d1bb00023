//! What a fragment is: nothing, a pointer or a name.

use crate::expectations::expect_told;
use std::alloc::Global;
use std::process::Abort;
use uri_ref::{Fault, FragmentKind, fragment_kind};

// Why, a fragment, and what it is: nothing, a pointer after `at`, a name after `as`, or the fault.
const FRAGMENTS: &[(&str, Option<&str>, &str)] = &[
    (
        "a reference without `#` has no fragment (RFC 3986, 3.5)",
        None,
        "nothing",
    ),
    (
        "an empty fragment names what no fragment names",
        Some(""),
        "nothing",
    ),
    (
        "escapes of URIs and of pointers are undone (RFC 6901, 6)",
        Some("/a~1b/m~0n/%C3%A4%20b"),
        "at /a~1b/m~0n/ä b",
    ),
    (
        "an escaped `/` at the front makes a pointer, too",
        Some("%2Fa"),
        "at /a",
    ),
    (
        "small hexadecimal digits escape as capital ones (RFC 3986, 2.1)",
        Some("%2fa"),
        "at /a",
    ),
    (
        "what does not begin with `/` is a plain name (Core 8.2.2)",
        Some("foo"),
        "as foo",
    ),
    ("an escaped letter is that letter", Some("%66oo"), "as foo"),
    (
        "an escaped byte alone is no UTF-8",
        Some("%C3"),
        "4 BadFragment",
    ),
    (
        "`z` is no hexadecimal digit (RFC 3986, 2.1)",
        Some("%zz"),
        "4 BadFragment",
    ),
    (
        "an escape has two digits, not one",
        Some("%4"),
        "4 BadFragment",
    ),
    (
        "an escape has two digits, not none",
        Some("%"),
        "4 BadFragment",
    ),
    (
        "behind a letter an escape has two digits, too",
        Some("a%4"),
        "4 BadFragment",
    ),
    (
        "the first escape lacks a digit, before a whole one",
        Some("%4%41"),
        "4 BadFragment",
    ),
    (
        "the byte 255 stands in no UTF-8",
        Some("%FF"),
        "4 BadFragment",
    ),
    (
        "`~` is followed by 0 or 1 (RFC 6901, 3)",
        Some("/~2"),
        "3 BadPointer",
    ),
    (
        "`~` at the end has no digit (RFC 6901, 3)",
        Some("/~"),
        "3 BadPointer",
    ),
    (
        "a pointer is read once its percent escapes are undone",
        Some("%2F%7E2"),
        "3 BadPointer",
    ),
];

fn kind(alloc: Global, fragment: Option<&str>) -> Result<String, Fault> {
    let (mut text, rest) = match fragment_kind(alloc, fragment)? {
        FragmentKind::Empty => return Ok(String::from_str(alloc, "nothing")?),
        FragmentKind::Pointer(pointer) => (String::from_str(alloc, "at ")?, pointer.text(alloc)?),
        FragmentKind::Name(name) => (String::from_str(alloc, "as ")?, name),
    };
    text.push_str(rest.as_str())?;
    Ok(text)
}

fn expect_kind(rt: &impl Abort, alloc: Global, row: &(&str, Option<&str>, &str)) {
    let (why, fragment, wanted) = *row;
    expect_told(rt, alloc, kind(alloc, fragment), wanted, why);
}

#[test]
fn fragments_are_pointers_or_names(rt: HostRuntime) {
    for row in FRAGMENTS {
        expect_kind(&rt, rt.alloc(), row);
    }
}
