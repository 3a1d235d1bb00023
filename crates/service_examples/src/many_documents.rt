//! A tenant with hundreds of documents.

use crate::talks::{VALID, answered, new_hub};
use crate::texts::expect_like;
use std::alloc::{AllocError, Global};
use std::process::Abort;
use tenant_hub::Hub;

const ROOM_FOR_A_THOUSAND: &str = r#"{"tenants":[{"bytes":1000000,"documents":1000,"key":"k1"}]}"#;

const MANY: u32 = 300;

// Why a line is answered so, what is asked for each document before the next line is, and what is told; `№` is the
// document's number.
const LINES: &[(&str, &str, &str)] = &[
    (
        "document № is new, with a resource inside",
        r#"put https://ex.org/№ {"$defs":{"e":{"$id":"e№"}},"const":№}"#,
        "stored https://ex.org/№",
    ),
    (
        "№ equals the `const` of document № (Validation, 6.1.3)",
        "validate https://ex.org/№ №",
        VALID,
    ),
    (
        "0 differs from the `const` of document № (Validation, 6.1.3)",
        "validate https://ex.org/№ 0",
        r#"{"errors":…"valid":false}"#,
    ),
    (
        "the resource inside document № asks for nothing",
        "validate https://ex.org/e№ 0",
        VALID,
    ),
    (
        "document № is replaced, by one without a resource inside",
        r#"put https://ex.org/№ {"maximum":№}"#,
        "replaced https://ex.org/№",
    ),
    (
        "0 is at most the `maximum` of document № (Validation, 6.2.2)",
        "validate https://ex.org/№ 0",
        VALID,
    ),
    (
        "the resource inside the old document № is gone (PROFILE.md, 14)",
        "validate https://ex.org/e№ 0",
        "14 NotFound",
    ),
    (
        "document № is deleted",
        "delete https://ex.org/№",
        "deleted https://ex.org/№",
    ),
    (
        "the deleted document № judges nothing (PROFILE.md, 14)",
        "validate https://ex.org/№ 0",
        "14 NotFound",
    ),
    (
        "document № is new once more",
        "put https://ex.org/№ {}",
        "stored https://ex.org/№",
    ),
];

fn numbered(alloc: Global, text: &str, number: u32) -> Result<String, AllocError> {
    let number = format!(in alloc; "{number}")?;
    text.replace(alloc, '№', number.as_str())
}

fn expect_asked(
    rt: &impl Abort,
    alloc: Global,
    hub: &mut Hub,
    why: &str,
    asked: &str,
    wanted: &str,
) {
    expect_like(rt, alloc, answered(alloc, hub, "k1", asked), wanted, why);
}

fn expect_numbered(
    rt: &impl Abort,
    alloc: Global,
    hub: &mut Hub,
    row: &(&str, &str, &str),
    number: u32,
) {
    let (why, asked, wanted) = *row;
    match (
        numbered(alloc, why, number),
        numbered(alloc, asked, number),
        numbered(alloc, wanted, number),
    ) {
        (Ok(why), Ok(asked), Ok(wanted)) => {
            expect_asked(
                rt,
                alloc,
                hub,
                why.as_str(),
                asked.as_str(),
                wanted.as_str(),
            );
        }
        _ => panic!(rt; "no room"),
    }
}

fn expect_line(rt: &impl Abort, alloc: Global, hub: &mut Hub, row: &(&str, &str, &str)) {
    for number in 1..=MANY {
        expect_numbered(rt, alloc, hub, row, number);
    }
}

fn expect_lines(rt: &impl Abort, alloc: Global, mut hub: Hub) {
    for row in LINES {
        expect_line(rt, alloc, &mut hub, row);
    }
}

#[test]
fn three_hundred_documents_are_kept(rt: HostRuntime) {
    match new_hub(rt.alloc(), ROOM_FOR_A_THOUSAND, None, 1) {
        Ok(hub) => expect_lines(&rt, rt.alloc(), hub),
        Err(fault) => panic!(rt; "{fault}"),
    }
}
