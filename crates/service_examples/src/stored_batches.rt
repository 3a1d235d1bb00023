//! Batches that are stored, or not at all.

use crate::talks::{Line, SMALL_TENANT, TWO_TENANTS, Talk, VALID, expect_talk};

const GIVEN_UP: &[Line] = &[
    Line {
        why: "no document has a resource `w` yet",
        key: "k1",
        asks: r#"put https://ex.org/z {"$defs":{"e":{"$id":"w"}}}"#,
        wanted: "stored https://ex.org/z",
    },
    Line {
        why: "the first entry takes the URI that the second gives up (HTTP.md)",
        key: "k1",
        asks: r#"batch {"put":[{"schema":{},"uri":"https://ex.org/w"},{"schema":{},"uri":"https://ex.org/z"}]}"#,
        wanted: "stored https://ex.org/w, replaced https://ex.org/z",
    },
    Line {
        why: "`w` is a document by now, and may be deleted",
        key: "k1",
        asks: "delete https://ex.org/w",
        wanted: "deleted https://ex.org/w",
    },
    Line {
        why: "`w` is free, and a resource of `z` may take it",
        key: "k1",
        asks: r#"put https://ex.org/z {"$defs":{"e":{"$id":"w"}}}"#,
        wanted: "replaced https://ex.org/z",
    },
    Line {
        why: "the second entry takes the URI that the first gives up (HTTP.md)",
        key: "k1",
        asks: r#"batch {"put":[{"schema":{},"uri":"https://ex.org/z"},{"schema":{},"uri":"https://ex.org/w"}]}"#,
        wanted: "replaced https://ex.org/z, stored https://ex.org/w",
    },
    Line {
        why: "`w` is a document again, and asks for nothing",
        key: "k1",
        asks: "validate https://ex.org/w null",
        wanted: VALID,
    },
];

const REFUSED_ENTRIES: &[Line] = &[
    Line {
        why: "a document is an object, also that of the second entry (PROFILE.md, 6)",
        key: "k1",
        asks: r#"batch {"put":[{"schema":{},"uri":"https://ex.org/a"},{"schema":[],"uri":"https://ex.org/b"}]}"#,
        wanted: "entry 1: 6 NotObject",
    },
    Line {
        why: "the entry before the refused one isn't stored, either (HTTP.md)",
        key: "k1",
        asks: "validate https://ex.org/a null",
        wanted: "14 NotFound",
    },
    Line {
        why: "the first entry's fault is told before the second's (HTTP.md)",
        key: "k1",
        asks: r#"batch {"put":[{"schema":{},"uri":"a"},{"schema":[],"uri":"https://ex.org/b"}]}"#,
        wanted: "entry 0: 25 BadUri",
    },
    Line {
        why: "a fault is told with the pointer to its keyword (PROFILE.md, 8)",
        key: "k1",
        asks: r#"batch {"put":[{"schema":{"not":5},"uri":"https://ex.org/a"}]}"#,
        wanted: "entry 0: 8 BadKeyword /not",
    },
    Line {
        why: "look-around is no part of the grammar (PROFILE.md, 5)",
        key: "k1",
        asks: r#"batch {"put":[{"schema":{},"uri":"https://ex.org/a"},{"schema":{"pattern":"(?=a)"},"uri":"https://ex.org/b"}]}"#,
        wanted: "entry 1: 5 BadPattern",
    },
    Line {
        why: "a batch is JSON (HTTP.md)",
        key: "k1",
        asks: "batch [1",
        wanted: "1 BadJson",
    },
    Line {
        why: "numbers are judged before the batch's shape (HTTP.md)",
        key: "k1",
        asks: r#"batch {"put":1.5}"#,
        wanted: "2 BadNumber",
    },
    Line {
        why: "a batch has one entry at least (LIMITS.md)",
        key: "k1",
        asks: r#"batch {"put":[]}"#,
        wanted: "42 BadBatch",
    },
    Line {
        why: "the key is judged before the batch (HTTP.md)",
        key: "k3",
        asks: r#"batch {"put":[]}"#,
        wanted: "24 UnknownTenant",
    },
    Line {
        why: "without dot segments both entries have one URI (RFC 3986, 5.2.4)",
        key: "k1",
        asks: r#"batch {"put":[{"schema":{},"uri":"https://ex.org/a"},{"schema":{},"uri":"https://ex.org/x/../a"}]}"#,
        wanted: "43 SameDocument https://ex.org/a",
    },
    Line {
        why: "two documents of the batch open one URI (PROFILE.md, 27)",
        key: "k1",
        asks: r#"batch {"put":[{"schema":{"$defs":{"e":{"$id":"b"}}},"uri":"https://ex.org/a"},{"schema":{},"uri":"https://ex.org/b"}]}"#,
        wanted: "27 Taken https://ex.org/b",
    },
    Line {
        why: "no refused batch has stored `a` (PROFILE.md, 14)",
        key: "k1",
        asks: "bundle https://ex.org/a",
        wanted: "14 NotFound",
    },
    Line {
        why: "no refused batch has stored `b` (PROFILE.md, 14)",
        key: "k1",
        asks: "bundle https://ex.org/b",
        wanted: "14 NotFound",
    },
];

const QUOTAS: &[Line] = &[
    Line {
        why: "one document of 2 bytes is within both quotas",
        key: "k1",
        asks: "put https://ex.org/b {}",
        wanted: "stored https://ex.org/b",
    },
    Line {
        why: "one entry replaces a document, and the other is one too many (PROFILE.md, 28)",
        key: "k1",
        asks: r#"batch {"put":[{"schema":{},"uri":"https://ex.org/b"},{"schema":{},"uri":"https://ex.org/c"}]}"#,
        wanted: "28 QuotaDocuments",
    },
    Line {
        why: "22 bytes are more than 20 (PROFILE.md, 29)",
        key: "k1",
        asks: r#"batch {"put":[{"schema":{"minLength":10000000},"uri":"https://ex.org/b"}]}"#,
        wanted: "29 QuotaBytes",
    },
    Line {
        why: "20 bytes are just as many as there may be",
        key: "k1",
        asks: r#"batch {"put":[{"schema":{"minLength":100000},"uri":"https://ex.org/b"}]}"#,
        wanted: "replaced https://ex.org/b",
    },
];

const LENGTHS: &[Line] = &[
    Line {
        why: "a batch of 65 entries is too large (LIMITS.md)",
        key: "k1",
        asks: r#"batch {"put":[{"schema":{},"uri":"https://ex.org/0"}«64*,{"schema":{},"uri":"https://ex.org/№"}»]}"#,
        wanted: "42 BadBatch",
    },
    Line {
        why: "a batch of 64 entries is the largest (LIMITS.md)",
        key: "k1",
        asks: r#"batch {"put":[{"schema":{},"uri":"https://ex.org/0"}«63*,{"schema":{},"uri":"https://ex.org/№"}»]}"#,
        wanted: "stored https://ex.org/0«63*, stored https://ex.org/№»",
    },
];

const TALKS: &[Talk] = &[
    Talk {
        why: "one entry takes what another gives up",
        tenants: TWO_TENANTS,
        library: None,
        capacities: &[1],
        lines: GIVEN_UP,
    },
    Talk {
        why: "a refused batch stores nothing",
        tenants: TWO_TENANTS,
        library: None,
        capacities: &[256],
        lines: REFUSED_ENTRIES,
    },
    Talk {
        why: "quotas are judged on all entries",
        tenants: SMALL_TENANT,
        library: None,
        capacities: &[256],
        lines: QUOTAS,
    },
    Talk {
        why: "a batch stores 64 documents at most (LIMITS.md)",
        tenants: TWO_TENANTS,
        library: None,
        capacities: &[256],
        lines: LENGTHS,
    },
];

#[test]
fn batches_are_stored_whole(rt: HostRuntime) {
    for talk in TALKS {
        expect_talk(&rt, rt.alloc(), talk);
    }
}
