//! What the patterns of a document may take together.

use crate::documents::compiled;
use crate::expectations::expect_holds;
use schema_scan::Fault;
use std::alloc::Global;
use std::process::Abort;

// Why, a document, and whether its patterns are built. Each copy of `\w` takes 14,000 bytes and a few: 32 MiB are for some
// 2,350.
const TOGETHER: &[(&str, &str, bool)] = &[
    (
        r"2,301 copies of `\w` stay within 32 MiB (LIMITS.md)",
        r#"{"allOf":[{"pattern":"\\w{1000}"},{"pattern":"\\w{1001}"},{"pattern":"\\w{300}"}]}"#,
        true,
    ),
    (
        r"2,401 copies of `\w` exceed 32 MiB (LIMITS.md)",
        r#"{"allOf":[{"pattern":"\\w{1000}"},{"pattern":"\\w{1001}"},{"pattern":"\\w{400}"}]}"#,
        false,
    ),
    (
        "a pattern that stands again takes room once",
        r#"{"allOf":[{"pattern":"\\w{1000}"},{"pattern":"\\w{1000}"},{"pattern":"\\w{1000}"}]}"#,
        true,
    ),
];

fn is_built_as(alloc: Global, document: &str, fits: bool) -> Result<bool, Fault> {
    match compiled(alloc, "https://ex.org/s", document).err() {
        None => Ok(fits),
        Some(Fault::BadPattern) => Ok(!fits),
        Some(fault) => Err(fault),
    }
}

fn expect_together(rt: &impl Abort, alloc: Global, row: &(&str, &str, bool)) {
    let (why, document, fits) = *row;
    expect_holds(rt, is_built_as(alloc, document, fits), why);
}

#[test]
fn patterns_share_a_room(rt: HostRuntime) {
    for row in TOGETHER {
        expect_together(&rt, rt.alloc(), row);
    }
}

// How many patterns a document has, what stands before and after the number of each, and whether they are built.
struct ManyPatterns {
    why: &'static str,
    count: u32,
    before: &'static str,
    after: &'static str,
    fits: bool,
}

// The class of the second is empty, so that all copies come to one state.
const MANY: &[ManyPatterns] = &[
    ManyPatterns {
        why: "5,000 small patterns stay within 32 MiB together (LIMITS.md)",
        count: 5_000,
        before: "^[a-z]{2}-",
        after: r#"$":{"type":"string"}"#,
        fits: true,
    },
    ManyPatterns {
        why: "each counts 1 MiB, a quarter of what it took to write",
        count: 40,
        before: r"(?:[^\\s\\S]x{1000}){1000}",
        after: r#"":true"#,
        fits: false,
    },
];

fn push_numbered(
    alloc: Global,
    text: &mut String,
    before: &str,
    number: u32,
    after: &str,
) -> Result<(), Fault> {
    text.push_str(format!(in alloc; r#","{before}{number}{after}"#)?.as_str())?;
    Ok(())
}

fn many(alloc: Global, count: u32, before: &str, after: &str) -> Result<String, Fault> {
    let mut text = String::from_str(alloc, r#"{"patternProperties":{"a":true"#)?;
    for number in 0..count {
        push_numbered(alloc, &mut text, before, number, after)?;
    }
    text.push_str("}}")?;
    Ok(text)
}

fn are_many_built(alloc: Global, row: &ManyPatterns) -> Result<bool, Fault> {
    let document = many(alloc, row.count, row.before, row.after)?;
    is_built_as(alloc, document.as_str(), row.fits)
}

#[test]
fn thousands_of_small_patterns_are_built(rt: HostRuntime) {
    for row in MANY {
        expect_holds(&rt, are_many_built(rt.alloc(), row), row.why);
    }
}
