//! Hubs over a fixed library, whose documents every tenant reaches and none owns.

use crate::talks::{Line, TWO_TENANTS, Talk, VALID, expect_talk, new_hub};
use crate::texts::expect_like;
use std::alloc::Global;
use std::process::Abort;
use tenant_hub::Fault;

const LIBRARY: &str =
    r#"{"put":[{"schema":{"type":"integer"},"uri":"https://ex.org/lib"},{"schema":{"$ref":"own"},"uri":"https://ex.org/lib2"}]}"#;

const TENANTS: &str =
    r#"{"tenants":[{"bytes":100,"documents":2,"key":"k1"},{"bytes":100,"documents":2,"key":"k2"}]}"#;

const OWNED: &[Line] = &[
    Line {
        why: "a library's document is no tenant's to replace (PROFILE.md, 34)",
        key: "k1",
        asks: "put https://ex.org/lib {}",
        wanted: "34 LibraryOwned",
    },
    Line {
        why: "a library's document is no tenant's to delete (PROFILE.md, 34)",
        key: "k1",
        asks: "delete https://ex.org/lib",
        wanted: "34 LibraryOwned",
    },
    Line {
        why: "no entry of a batch replaces a library's document, either (PROFILE.md, 34)",
        key: "k1",
        asks: r#"batch {"put":[{"schema":{},"uri":"https://ex.org/t"},{"schema":{},"uri":"https://ex.org/lib"}]}"#,
        wanted: "34 LibraryOwned",
    },
    Line {
        why: "nothing of the refused batch is stored (PROFILE.md, 14)",
        key: "k1",
        asks: "bundle https://ex.org/t",
        wanted: "14 NotFound",
    },
    Line {
        why: "a library's URI is taken for a resource within a document, too (PROFILE.md, 27)",
        key: "k1",
        asks: r#"put https://ex.org/t {"$defs":{"e":{"$id":"lib"}}}"#,
        wanted: "27 Taken https://ex.org/lib",
    },
    Line {
        why: "in a batch a library's URI is taken as well (PROFILE.md, 27)",
        key: "k1",
        asks: r#"batch {"put":[{"schema":{"$defs":{"e":{"$id":"lib"}}},"uri":"https://ex.org/t"}]}"#,
        wanted: "27 Taken https://ex.org/lib",
    },
    Line {
        why: "each tenant reaches the library's documents (HTTP.md)",
        key: "k2",
        asks: "validate https://ex.org/lib 5",
        wanted: VALID,
    },
];

const NO_INTEGER: &str =
    r#"{"errors":[{"absoluteKeywordLocation":"https://ex.org/s#/$ref","error":"$ref is not met","instanceLocation":"","keywordLocation":"/$ref"},{"absoluteKeywordLocation":"https://ex.org/lib#/type","error":"type is not met","instanceLocation":"","keywordLocation":"/$ref/type"}],"valid":false}"#;

const NO_STRING: &str =
    r#"{"errors":[{"absoluteKeywordLocation":"https://ex.org/lib2#/$ref","error":"$ref is not met","instanceLocation":"","keywordLocation":"/$ref"},{"absoluteKeywordLocation":"https://ex.org/own#/type","error":"type is not met","instanceLocation":"","keywordLocation":"/$ref/type"}],"valid":false}"#;

const BUNDLE_OF_LIB2: &str =
    r#"{"$defs":{"https://ex.org/own":{"$id":"https://ex.org/own","type":"string"}},"$id":"https://ex.org/lib2","$ref":"own"}"#;

const BUNDLE_OF_S: &str =
    r#"{"$defs":{"https://ex.org/lib":{"$id":"https://ex.org/lib","type":"integer"}},"$id":"https://ex.org/s","$ref":"lib"}"#;

const REACHED: &[Line] = &[
    Line {
        why: "a tenant's document may refer to the library's",
        key: "k1",
        asks: r#"put https://ex.org/s {"$ref":"lib"}"#,
        wanted: "stored https://ex.org/s",
    },
    Line {
        why: "a tenant may have the document that the library refers to",
        key: "k1",
        asks: r#"put https://ex.org/own {"type":"string"}"#,
        wanted: "stored https://ex.org/own",
    },
    Line {
        why: "`s` leads to `lib`, which asks for an integer (Validation, 6.1.1)",
        key: "k1",
        asks: r#"validate https://ex.org/s "x""#,
        wanted: NO_INTEGER,
    },
    Line {
        why: "`lib2` leads to the tenant's `own`, which asks for a string (Validation, 6.1.1)",
        key: "k1",
        asks: "validate https://ex.org/lib2 5",
        wanted: NO_STRING,
    },
    Line {
        why: "the other tenant has no `own`, which `lib2` refers to (PROFILE.md, 15)",
        key: "k2",
        asks: "validate https://ex.org/lib2 5",
        wanted: "15 Unresolved https://ex.org/own",
    },
    Line {
        why: "the bundle of a library's document holds the tenant's that it reaches",
        key: "k1",
        asks: "bundle https://ex.org/lib2",
        wanted: BUNDLE_OF_LIB2,
    },
    Line {
        why: "the bundle of a tenant's document holds the library's that it reaches",
        key: "k1",
        asks: "bundle https://ex.org/s",
        wanted: BUNDLE_OF_S,
    },
    Line {
        why: "two documents are the most, and the library's don't count (HTTP.md)",
        key: "k1",
        asks: "put https://ex.org/t {}",
        wanted: "28 QuotaDocuments",
    },
];

const TALKS: &[Talk] = &[
    Talk {
        why: "a library's documents are no tenant's to change (PROFILE.md, 34)",
        tenants: TENANTS,
        library: Some(LIBRARY),
        capacities: &[256],
        lines: OWNED,
    },
    Talk {
        why: "references run from a tenant's documents into the library's and back",
        tenants: TENANTS,
        library: Some(LIBRARY),
        capacities: &[256],
        lines: REACHED,
    },
];

#[test]
fn hubs_over_a_library(rt: HostRuntime) {
    for talk in TALKS {
        expect_talk(&rt, rt.alloc(), talk);
    }
}

// Why a library is refused, a file of tenants, the library's batch, and what the hub is refused for.
const REFUSED_LIBRARIES: &[(&str, &str, &str, &str)] = &[
    ("a library is JSON (HTTP.md)", TWO_TENANTS, "{", "1 BadJson"),
    (
        "a library's numbers are whole numbers of 64 bits",
        TWO_TENANTS,
        "[0.5]",
        "2 BadNumber",
    ),
    (
        "a library is a batch of one entry at least (HTTP.md)",
        TWO_TENANTS,
        r#"{"put":[]}"#,
        "42 BadBatch",
    ),
    (
        "an entry's URI has a scheme (PROFILE.md, 25)",
        TWO_TENANTS,
        r#"{"put":[{"schema":{},"uri":"lib"}]}"#,
        "25 BadUri",
    ),
    (
        "a document is an object (PROFILE.md, 6)",
        TWO_TENANTS,
        r#"{"put":[{"schema":[],"uri":"https://ex.org/lib"}]}"#,
        "6 NotObject",
    ),
    (
        "a pattern is read by the grammar of `regex` (PROFILE.md, 5)",
        TWO_TENANTS,
        r#"{"put":[{"schema":{"pattern":"("},"uri":"https://ex.org/lib"}]}"#,
        "5 BadPattern",
    ),
    (
        "without dot segments both entries have one URI (RFC 3986, 5.2.4)",
        TWO_TENANTS,
        r#"{"put":[{"schema":{},"uri":"https://ex.org/lib"},{"schema":{},"uri":"https://ex.org/./lib"}]}"#,
        "43 SameDocument https://ex.org/lib",
    ),
    (
        "two documents open one URI (PROFILE.md, 27)",
        TWO_TENANTS,
        r#"{"put":[{"schema":{"$defs":{"e":{"$id":"b"}}},"uri":"https://ex.org/a"},{"schema":{},"uri":"https://ex.org/b"}]}"#,
        "27 Taken https://ex.org/b",
    ),
    (
        "tenants are judged before the library",
        r#"{"tenants":[{"bytes":1,"documents":1,"key":"k1"},{"bytes":1,"documents":1,"key":"k1"}]}"#,
        "{",
        "22 DuplicateTenant",
    ),
];

// The text of no hub's fault is empty.
fn refusal(alloc: Global, tenants: &str, library: &str) -> Result<String, Fault> {
    new_hub(alloc, tenants, Some(library), 256)?;
    Ok(String::new(alloc))
}

fn expect_refusal(rt: &impl Abort, alloc: Global, row: &(&str, &str, &str, &str)) {
    let (why, tenants, library, fault) = *row;
    expect_like(rt, alloc, refusal(alloc, tenants, library), fault, why);
}

#[test]
fn libraries_with_a_fault_are_refused(rt: HostRuntime) {
    for row in REFUSED_LIBRARIES {
        expect_refusal(&rt, rt.alloc(), row);
    }
}
