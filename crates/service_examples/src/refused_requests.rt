//! Documents, instances and batches that a registry refuses, each by its first fault.

use crate::talks::{Line, TWO_TENANTS, Talk, VALID, expect_talk};

const REFUSED_DOCUMENTS: &[Line] = &[
    Line {
        why: "an array ends by a bracket (RFC 8259, 5)",
        key: "k1",
        asks: "put https://ex.org/s [1",
        wanted: "1 BadJson",
    },
    Line {
        why: "numbers are judged before the document's shape (HTTP.md)",
        key: "k1",
        asks: "put https://ex.org/s [1.0]",
        wanted: "2 BadNumber",
    },
    Line {
        why: "a document is no array (PROFILE.md, 6)",
        key: "k1",
        asks: "put https://ex.org/s []",
        wanted: "6 NotObject",
    },
    Line {
        why: "`true` is a schema only within a document (PROFILE.md, 6)",
        key: "k1",
        asks: "put https://ex.org/s true",
        wanted: "6 NotObject",
    },
    Line {
        why: "the value of `not` is a schema (Core, 10.2.1.4)",
        key: "k1",
        asks: r#"put https://ex.org/s {"not":5}"#,
        wanted: "8 BadKeyword /not",
    },
    Line {
        why: "the keywords of a schema come before those of the schemas below",
        key: "k1",
        asks: r#"put https://ex.org/s {"$defs":{"d":{"type":"int"}},"allOf":[]}"#,
        wanted: "8 BadKeyword /allOf",
    },
    Line {
        why: "`int` is no name of a type (Validation, 6.1.1)",
        key: "k1",
        asks: r#"put https://ex.org/s {"$defs":{"d":{"type":"int"}}}"#,
        wanted: "8 BadKeyword /$defs/d/type",
    },
    Line {
        why: "an `$id` has no fragment but an empty one (Core, 8.2.1)",
        key: "k1",
        asks: r#"put https://ex.org/s {"$id":"a#b"}"#,
        wanted: "9 BadId",
    },
    Line {
        why: "the name of an anchor doesn't begin with a digit (Core, 8.2.2)",
        key: "k1",
        asks: r#"put https://ex.org/s {"$anchor":"1"}"#,
        wanted: "10 BadAnchor",
    },
    Line {
        why: "the dialect is that of 2020-12 alone (PROFILE.md, 11)",
        key: "k1",
        asks: r#"put https://ex.org/s {"$schema":"x:y"}"#,
        wanted: "11 Dialect",
    },
    Line {
        why: "an embedded `$id` opens the document's own URI once more (PROFILE.md, 12)",
        key: "k1",
        asks: r#"put https://ex.org/s {"$defs":{"d":{"$id":"s"}}}"#,
        wanted: "12 DuplicateUri",
    },
    Line {
        why: "a name under both keywords of one resource is two anchors (Core, 8.2.2)",
        key: "k1",
        asks: r#"put https://ex.org/s {"$anchor":"n","$defs":{"d":{"$dynamicAnchor":"n"}}}"#,
        wanted: "13 DuplicateAnchor",
    },
    Line {
        why: "nothing of what was refused is stored (PROFILE.md, 14)",
        key: "k1",
        asks: "validate https://ex.org/s null",
        wanted: "14 NotFound",
    },
    Line {
        why: "each resource has anchors of its own (Core, 8.2.2)",
        key: "k1",
        asks: r#"put https://ex.org/s {"$anchor":"n","$defs":{"d":{"$dynamicAnchor":"n","$id":"e"}}}"#,
        wanted: "stored https://ex.org/s",
    },
];

const REFUSED_VALIDATIONS: &[Line] = &[
    Line {
        why: "the URI is judged before the body (HTTP.md)",
        key: "k1",
        asks: "validate s [1",
        wanted: "25 BadUri",
    },
    Line {
        why: "the body is judged before the document is looked for (HTTP.md)",
        key: "k1",
        asks: "validate https://ex.org/s [1",
        wanted: "1 BadJson",
    },
    Line {
        why: "an instance's numbers are whole numbers of 64 bits (HTTP.md)",
        key: "k1",
        asks: "validate https://ex.org/s 1.5",
        wanted: "2 BadNumber",
    },
    Line {
        why: "no document has the URI (PROFILE.md, 14)",
        key: "k1",
        asks: "validate https://ex.org/s 1",
        wanted: "14 NotFound",
    },
    Line {
        why: "a document that refers to itself may be put",
        key: "k1",
        asks: r##"put https://ex.org/s {"$ref":"#"}"##,
        wanted: "stored https://ex.org/s",
    },
    Line {
        why: "the root is applied where it is being applied (Core, 9.4.1)",
        key: "k1",
        asks: "validate https://ex.org/s 1",
        wanted: "17 Loop",
    },
    Line {
        why: "a document may be put whose reference has no target",
        key: "k1",
        asks: r##"put https://ex.org/t {"$ref":"#/$defs/a"}"##,
        wanted: "stored https://ex.org/t",
    },
    Line {
        why: "the pointer leads to no schema of the document (PROFILE.md, 15)",
        key: "k1",
        asks: "validate https://ex.org/t 1",
        wanted: "15 Unresolved https://ex.org/t#/$defs/a",
    },
];

const LONG_BODIES: &[Line] = &[
    Line {
        why: "a schema of 1,048,576 bytes is the longest (LIMITS.md)",
        key: "k1",
        asks: "put https://ex.org/s {}«1048574* »",
        wanted: "stored https://ex.org/s",
    },
    Line {
        why: "an instance of 1,048,576 bytes is the longest (LIMITS.md)",
        key: "k1",
        asks: "validate https://ex.org/s {}«1048574* »",
        wanted: VALID,
    },
    Line {
        why: "a schema of 1,048,577 bytes is too long (LIMITS.md)",
        key: "k1",
        asks: "put https://ex.org/s {}«1048575* »",
        wanted: "26 TooLarge",
    },
    Line {
        why: "an instance of 1,048,577 bytes is too long (LIMITS.md)",
        key: "k1",
        asks: "validate https://ex.org/s {}«1048575* »",
        wanted: "26 TooLarge",
    },
    Line {
        why: "a batch of 1,048,577 bytes is too long (LIMITS.md)",
        key: "k1",
        asks: "batch {}«1048575* »",
        wanted: "26 TooLarge",
    },
];

const TALKS: &[Talk] = &[
    Talk {
        why: "documents with a fault are not stored",
        tenants: TWO_TENANTS,
        library: None,
        capacities: &[256],
        lines: REFUSED_DOCUMENTS,
    },
    Talk {
        why: "validations are refused by the first fault",
        tenants: TWO_TENANTS,
        library: None,
        capacities: &[256],
        lines: REFUSED_VALIDATIONS,
    },
    Talk {
        why: "bodies have 1,048,576 bytes at most (LIMITS.md)",
        tenants: TWO_TENANTS,
        library: None,
        capacities: &[1],
        lines: LONG_BODIES,
    },
];

#[test]
fn requests_are_refused_by_their_first_fault(rt: HostRuntime) {
    for talk in TALKS {
        expect_talk(&rt, rt.alloc(), talk);
    }
}
