//! Scans: what is taken, and the first fault of what is refused.

use crate::expectations::expect_told;
use json_doc::read;
use schema_scan::{Fault, scan};
use std::alloc::Global;
use std::process::Abort;
use uri_ref::split;

// The base of the document that is scanned.
fn scanned(alloc: Global, base: &str, document: &str) -> Result<String, Fault> {
    let document = read(alloc, document.as_bytes())?;
    let scanned = scan(alloc, &split(base), &document)?;
    Ok(String::from_str(alloc, scanned.base())?)
}

const BASE: &str = "https://ex.org/s";

// Why, a base, a document, and the base again where the document is taken, or the fault.
const DOCUMENTS: &[(&str, &str, &str, &str)] = &[
    (
        "`$schema` is judged at the root of a resource alone (PROFILE.md)",
        BASE,
        r#"{"type":"object","required":["a"],"properties":{"a":{"$schema":1}}}"#,
        BASE,
    ),
    (
        "`$comment` is ignored, whatever its value (PROFILE.md)",
        BASE,
        r#"{"$comment":1}"#,
        BASE,
    ),
    (
        "the value of `not` is a schema (Core 10.2.1.4)",
        BASE,
        r#"{"not":5}"#,
        "8 BadKeyword /not",
    ),
    (
        "the list of `allOf` isn't empty (Core 10.2.1.1)",
        BASE,
        r#"{"allOf":[]}"#,
        "8 BadKeyword /allOf",
    ),
    (
        "the keywords of a schema come before those of the schemas below",
        BASE,
        r#"{"$defs":{"d":{"type":"int"}},"allOf":[]}"#,
        "8 BadKeyword /allOf",
    ),
    (
        "`type` takes names; a pointer escapes `/` and `~` (RFC 6901, 3)",
        BASE,
        r#"{"properties":{"a/~b":{"type":1}}}"#,
        "8 BadKeyword /properties/a~1~0b/type",
    ),
    (
        "`int` is no name of a type (Validation 6.1.1)",
        BASE,
        r#"{"$defs":{"d":{"type":"int"}}}"#,
        "8 BadKeyword /$defs/d/type",
    ),
    (
        "a reference's fragment has whole escapes (RFC 3986, 2.1), also deep below",
        BASE,
        r#"{"allOf":[true,{"items":{"not":{"$ref":"s#%"}}}]}"#,
        "8 BadKeyword /allOf/1/items/not/$ref",
    ),
    (
        "`definitions` holds schemas as `$defs` does (PROFILE.md)",
        BASE,
        r#"{"definitions":{"d":{"properties":{"p":{"type":"int"}}}}}"#,
        "8 BadKeyword /definitions/d/properties/p/type",
    ),
    (
        "a document is an object (PROFILE.md)",
        BASE,
        "[]",
        "6 NotObject",
    ),
    (
        "an `$id` has no fragment but an empty one (Core 8.2.1)",
        BASE,
        r#"{"$id":"a#b"}"#,
        "9 BadId",
    ),
    (
        "the name of an anchor doesn't begin with a digit (Core 8.2.2)",
        BASE,
        r#"{"$anchor":"1"}"#,
        "10 BadAnchor",
    ),
    (
        "the dialect is that of 2020-12 alone (PROFILE.md)",
        BASE,
        r#"{"$schema":"x:y"}"#,
        "11 Dialect",
    ),
    (
        "its path begins with `//`, without an authority, and is no identifier's",
        "x:/b",
        r#"{"$id":"/.//a"}"#,
        "9 BadId",
    ),
    (
        "an embedded `$id` opens the document's own URI once more",
        BASE,
        r#"{"$defs":{"d":{"$id":"s"}}}"#,
        "12 DuplicateUri",
    ),
    (
        "a name under both keywords of one resource is two anchors (Core 8.2.2)",
        BASE,
        r#"{"$anchor":"n","$defs":{"d":{"$dynamicAnchor":"n"}}}"#,
        "13 DuplicateAnchor",
    ),
    (
        "a boolean schema before it hides no repeated URI",
        BASE,
        r#"{"allOf":[true],"$defs":{"d":{"$id":"s"}}}"#,
        "12 DuplicateUri",
    ),
    (
        "repeated URIs are looked for before repeated anchors",
        BASE,
        r#"{"$anchor":"n","$defs":{"d":{"$anchor":"n","$defs":{"e":{"$id":"s"}}}}}"#,
        "12 DuplicateUri",
    ),
    (
        "an `$id` is resolved against the resource around it (Core 8.2.1)",
        BASE,
        r#"{"$defs":{"d":{"$id":"a/","$defs":{"e":{"$id":"b"}}},"f":{"$id":"a/b"}}}"#,
        "12 DuplicateUri",
    ),
    (
        "one name in two resources is two anchors",
        BASE,
        r#"{"$anchor":"n","$defs":{"d":{"$id":"e","$dynamicAnchor":"n"}}}"#,
        BASE,
    ),
    (
        "one name under both keywords of one schema is one anchor (DECISIONS.md)",
        BASE,
        r#"{"$anchor":"n","$dynamicAnchor":"n"}"#,
        BASE,
    ),
];

fn expect_scan(rt: &impl Abort, alloc: Global, row: &(&str, &str, &str, &str)) {
    let (why, base, document, wanted) = *row;
    expect_told(rt, alloc, scanned(alloc, base, document), wanted, why);
}

#[test]
fn scans_take_or_refuse(rt: HostRuntime) {
    for row in DOCUMENTS {
        expect_scan(&rt, rt.alloc(), row);
    }
}

// Why, how many lists stand in one another in a `const`, and what the scan answers.
const NESTINGS: &[(&str, u8, &str)] = &[
    (
        "121 levels with the schema are over 120 (LIMITS.md)",
        120,
        "7 TooNested",
    ),
    (
        "120 levels with the schema are the most (LIMITS.md)",
        119,
        BASE,
    ),
];

fn nested(alloc: Global, depth: u8) -> Result<String, Fault> {
    let mut document = String::from_str(alloc, r#"{"const":"#)?;
    for _ in 0..depth {
        document.push('[')?;
    }
    for _ in 0..depth {
        document.push(']')?;
    }
    document.push('}')?;
    Ok(document)
}

fn scanned_nested(alloc: Global, depth: u8) -> Result<String, Fault> {
    scanned(alloc, BASE, nested(alloc, depth)?.as_str())
}

fn expect_nesting(rt: &impl Abort, alloc: Global, row: &(&str, u8, &str)) {
    let (why, depth, wanted) = *row;
    expect_told(rt, alloc, scanned_nested(alloc, depth), wanted, why);
}

#[test]
fn what_nests_too_deep_is_refused(rt: HostRuntime) {
    for row in NESTINGS {
        expect_nesting(&rt, rt.alloc(), row);
    }
}
