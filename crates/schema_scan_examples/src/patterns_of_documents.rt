//! The patterns of compiled documents.

use crate::documents::compiled;
use crate::expectations::expect_holds;
use schema_scan::Fault;
use std::alloc::Global;
use std::process::Abort;

const NESTED: &str = r#"{"pattern":"^a","patternProperties":{"b+":{"pattern":"z"},"c":true}}"#;

const REPEATED: &str = r#"{"pattern":"^a","$defs":{"d":{"pattern":"b+"},"e":{"pattern":"^a"}}}"#;

// Why, a document, a pattern, and whether the document has it; where it hasn't, none of its patterns is as long.
const PATTERNS: &[(&str, &str, &str, bool)] = &[
    (
        "the value of `pattern` at the root is a pattern",
        NESTED,
        "^a",
        true,
    ),
    (
        "a name under `patternProperties` is a pattern (Core 10.3.2.2)",
        NESTED,
        "b+",
        true,
    ),
    (
        "each name under `patternProperties` is a pattern, the last, too",
        NESTED,
        "c",
        true,
    ),
    (
        "a schema under `patternProperties` has a pattern of its own",
        NESTED,
        "z",
        true,
    ),
    (
        "no schema of the document has this pattern",
        NESTED,
        "a+b",
        false,
    ),
    (
        "a pattern that stands in two schemas is found",
        REPEATED,
        "^a",
        true,
    ),
    (
        "a pattern between two that are alike is found",
        REPEATED,
        "b+",
        true,
    ),
    (
        "`c` stands in no schema of this document",
        REPEATED,
        "c",
        false,
    ),
    (
        "a document without patterns has none, also no empty one",
        r#"{"type":"string"}"#,
        "",
        false,
    ),
    (
        "the schema has a pattern beside a value that looks like one",
        r#"{"const":{"pattern":"("},"pattern":"a+"}"#,
        "a+",
        true,
    ),
    (
        "a value under `const` is no schema (Validation 6.1.3)",
        r#"{"const":{"pattern":"("},"pattern":"a+"}"#,
        "(",
        false,
    ),
];

fn has_pattern_as(alloc: Global, text: &str, pattern: &str, wanted: bool) -> Result<bool, Fault> {
    let document = compiled(alloc, "https://ex.org/s", text)?;
    let number = document.pattern_number(pattern);
    Ok(match document.numbered_pattern(number) {
        Some(found) => (found.text() == pattern) == wanted,
        None => !wanted,
    })
}

fn expect_pattern(rt: &impl Abort, alloc: Global, row: &(&str, &str, &str, bool)) {
    let (why, text, pattern, is_there) = *row;
    expect_holds(rt, has_pattern_as(alloc, text, pattern, is_there), why);
}

#[test]
fn a_compiled_document_has_each_of_its_patterns(rt: HostRuntime) {
    for row in PATTERNS {
        expect_pattern(&rt, rt.alloc(), row);
    }
}
