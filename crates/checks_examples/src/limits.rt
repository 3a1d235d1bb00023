//! How deep applications may nest, and how many there may be.

use crate::large_reports::zeros;
use crate::texts::{URI, answer, expect_beginning, expect_told};
use checks::Fault;
use std::alloc::Global;
use std::process::Abort;

// Appends the definition of this number: the form, with a reference to the next one between its pieces.
fn push_definition(
    alloc: Global,
    text: &mut String,
    form: &[&str],
    number: u32,
) -> Result<(), Fault> {
    text.push_str(format!(in alloc; r#""d{number}":"#)?.as_str())?;
    let reference = format!(in alloc; "#/$defs/d{}", number.saturating_add(1))?;
    for (index, piece) in form.iter().enumerate() {
        if index > 0 {
            text.push_str(reference.as_str())?;
        }
        text.push_str(piece)?;
    }
    text.push(',')?;
    Ok(())
}

// A schema with this member, and with so many definitions: each up to the last has this form.
fn chained(
    alloc: Global,
    member: &str,
    form: &[&str],
    count: u32,
    last: &str,
) -> Result<String, Fault> {
    let mut text = format!(in alloc; r#"{{{member},"$defs":{{"#)?;
    for number in 1..count {
        push_definition(alloc, &mut text, form, number)?;
    }
    text.push_str(format!(in alloc; r#""d{count}":{last}}}}}"#)?.as_str())?;
    Ok(text)
}

const FIRST: &str = r##""$ref":"#/$defs/d1""##;

const ONE: &[&str] = &[r#"{"$ref":""#, r#""}"#];

const BOTH: &[&str] = &[r#"{"$ref":""#, r#"","$dynamicRef":""#, r#""}"#];

const LISTED: &[&str] = &[r#"{"allOf":[{"$ref":""#, r#""},{"$ref":""#, r#""}]}"#];

const EMPTY_REPORT: &str = r#"{"annotations":[],"valid":true}"#;

const FIRST_AND_LOOP: &str = r##""$ref":"#/$defs/d1","$dynamicRef":"#""##;

// The first member, the form, how many definitions, the last one, and the answer.
struct Chain {
    why: &'static str,
    member: &'static str,
    form: &'static [&'static str],
    count: u32,
    last: &'static str,
    wanted: &'static str,
}

const CHAINS: &[Chain] = &[
    Chain {
        why: "with the root 1,000 applications nest, which is the limit (LIMITS.md)",
        member: FIRST,
        form: ONE,
        count: 999,
        last: "{}",
        wanted: EMPTY_REPORT,
    },
    Chain {
        why: "with the root 1,001 applications would nest (LIMITS.md)",
        member: FIRST,
        form: ONE,
        count: 1000,
        last: "{}",
        wanted: "18 Deep",
    },
    Chain {
        why: "a loop comes before what nests too deep (DECISIONS.md)",
        member: FIRST_AND_LOOP,
        form: ONE,
        count: 1000,
        last: "{}",
        wanted: "17 Loop",
    },
    Chain {
        why: "65,536 applications are within 100,000 (LIMITS.md)",
        member: FIRST,
        form: BOTH,
        count: 16,
        last: "{}",
        wanted: EMPTY_REPORT,
    },
    Chain {
        why: "131,072 applications are over 100,000 (LIMITS.md)",
        member: FIRST,
        form: BOTH,
        count: 17,
        last: "{}",
        wanted: "16 Costly",
    },
    Chain {
        why: "98,304 applications are within 100,000, so the loop is told (LIMITS.md)",
        member: FIRST,
        form: BOTH,
        count: 16,
        last: r##"{"$ref":"#"}"##,
        wanted: "17 Loop",
    },
    Chain {
        why: "what is too costly comes before a loop (DECISIONS.md)",
        member: FIRST,
        form: BOTH,
        count: 17,
        last: r##"{"$ref":"#"}"##,
        wanted: "16 Costly",
    },
    Chain {
        why: "`allOf` and the references within it count, over 100,000 in all (LIMITS.md)",
        member: FIRST,
        form: LISTED,
        count: 20,
        last: "{}",
        wanted: "16 Costly",
    },
];

fn chain_answer(alloc: Global, row: &Chain) -> Result<String, Fault> {
    let schema = chained(alloc, row.member, row.form, row.count, row.last)?;
    answer(alloc, URI, schema.as_str(), "1")
}

fn expect_chain(rt: &impl Abort, alloc: Global, row: &Chain) {
    expect_told(rt, alloc, chain_answer(alloc, row), row.wanted, row.why);
}

#[test]
fn applications_are_limited(rt: HostRuntime) {
    for row in CHAINS {
        expect_chain(&rt, rt.alloc(), row);
    }
}

// Why, the schema, how many elements, and the beginning of the answer.
const ELEMENTS: &[(&str, &str, u32, &str)] = &[
    (
        "the root and 99,999 elements are just 100,000 applications (LIMITS.md)",
        r#"{"items":true}"#,
        99_999,
        r#"{"annotations":["#,
    ),
    (
        "the root and 100,000 elements are one too many (LIMITS.md)",
        r#"{"items":true}"#,
        100_000,
        "16 Costly",
    ),
    (
        "an element whose schema has a keyword counts once, too (LIMITS.md)",
        r#"{"items":{"minimum":0}}"#,
        99_999,
        r#"{"annotations":["#,
    ),
    (
        "with a keyword, too, one element more is too many (LIMITS.md)",
        r#"{"items":{"minimum":0}}"#,
        100_000,
        "16 Costly",
    ),
    (
        "what is too costly is told in place of errors (LIMITS.md)",
        r#"{"items":{"minimum":1}}"#,
        100_000,
        "16 Costly",
    ),
];

fn zeros_answer(alloc: Global, schema: &str, count: u32) -> Result<String, Fault> {
    answer(alloc, URI, schema, zeros(alloc, count)?.as_str())
}

fn expect_elements(rt: &impl Abort, alloc: Global, row: &(&str, &str, u32, &str)) {
    let (why, schema, count, wanted) = *row;
    expect_beginning(rt, alloc, zeros_answer(alloc, schema, count), wanted, why);
}

#[test]
fn each_element_is_an_application(rt: HostRuntime) {
    for row in ELEMENTS {
        expect_elements(&rt, rt.alloc(), row);
    }
}

// Why, how many definitions, each with a reference to the next one, and the beginning of the answer.
const DEEPEST_ELEMENTS: &[(&str, u32, &str)] = &[
    (
        "an element's schema is the 1,000th that nests (LIMITS.md)",
        998,
        r#"{"annotations":["#,
    ),
    (
        "an element's schema would be the 1,001st that nests (LIMITS.md)",
        999,
        "18 Deep",
    ),
];

fn element_answer(alloc: Global, count: u32) -> Result<String, Fault> {
    let last = r#"{"items":{"type":"integer"}}"#;
    let schema = chained(alloc, FIRST, ONE, count, last)?;
    answer(alloc, URI, schema.as_str(), "[1]")
}

fn expect_deepest(rt: &impl Abort, alloc: Global, row: &(&str, u32, &str)) {
    let (why, count, wanted) = *row;
    expect_beginning(rt, alloc, element_answer(alloc, count), wanted, why);
}

#[test]
fn the_schema_of_an_element_nests(rt: HostRuntime) {
    for row in DEEPEST_ELEMENTS {
        expect_deepest(&rt, rt.alloc(), row);
    }
}
