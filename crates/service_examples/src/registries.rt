//! One tenant's registry: what is stored, replaced and deleted, and what it has no room for.

use crate::talks::{Line, SMALL_TENANT, TWO_TENANTS, Talk, VALID, expect_talk};

const NO_MATCH: &str =
    r#"{"errors":[{"absoluteKeywordLocation":"https://ex.org/s#/pattern","error":"pattern is not met","instanceLocation":"","keywordLocation":"/pattern"}],"valid":false}"#;

const REFUSED_PUT: &[Line] = &[
    Line {
        why: "no document has the URI yet",
        key: "k1",
        asks: r#"put https://ex.org/s {"pattern":"a+"}"#,
        wanted: "stored https://ex.org/s",
    },
    Line {
        why: "`a+` matches within the text (Validation, 6.3.3)",
        key: "k1",
        asks: r#"validate https://ex.org/s "xaay""#,
        wanted: VALID,
    },
    Line {
        why: "look-around is no part of the grammar (PROFILE.md, 5)",
        key: "k1",
        asks: r#"put https://ex.org/s {"pattern":"(?=a)"}"#,
        wanted: "5 BadPattern",
    },
    Line {
        why: "`a+` matches as before the refused put",
        key: "k1",
        asks: r#"validate https://ex.org/s "xaay""#,
        wanted: VALID,
    },
    Line {
        why: "the text has no `a`, which the old pattern asks for (Validation, 6.3.3)",
        key: "k1",
        asks: r#"validate https://ex.org/s "xy""#,
        wanted: NO_MATCH,
    },
];

const TAKEN: &[Line] = &[
    Line {
        why: "no document has the URI yet",
        key: "k1",
        asks: "put https://ex.org/x {}",
        wanted: "stored https://ex.org/x",
    },
    Line {
        why: "`x` is another document's (PROFILE.md, 27)",
        key: "k1",
        asks: r#"put https://ex.org/y {"$defs":{"e":{"$id":"x"}}}"#,
        wanted: "27 Taken https://ex.org/x",
    },
    Line {
        why: "no document has a resource `w` yet",
        key: "k1",
        asks: r#"put https://ex.org/z {"$defs":{"e":{"$id":"w"}}}"#,
        wanted: "stored https://ex.org/z",
    },
    Line {
        why: "a resource inside a document judges by its own URI (HTTP.md)",
        key: "k1",
        asks: "validate https://ex.org/w null",
        wanted: VALID,
    },
    Line {
        why: "`w` is a resource inside `z` (PROFILE.md, 27)",
        key: "k1",
        asks: "put https://ex.org/w {}",
        wanted: "27 Taken https://ex.org/w",
    },
    Line {
        why: "of three URIs that are taken the least is told (PROFILE.md, 27)",
        key: "k1",
        asks: r#"put https://ex.org/v {"$defs":{"a":{"$id":"z"},"b":{"$id":"x"},"c":{"$id":"w"}}}"#,
        wanted: "27 Taken https://ex.org/w",
    },
    Line {
        why: "a bundle is of a whole document, and `w` is none (PROFILE.md, 14)",
        key: "k1",
        asks: "bundle https://ex.org/w",
        wanted: "14 NotFound",
    },
    Line {
        why: "a delete is of a whole document, and `w` is none (PROFILE.md, 14)",
        key: "k1",
        asks: "delete https://ex.org/w",
        wanted: "14 NotFound",
    },
    Line {
        why: "a document may take over the URI of the one that it replaces",
        key: "k1",
        asks: "put https://ex.org/z {}",
        wanted: "replaced https://ex.org/z",
    },
    Line {
        why: "with the old `z` the resource inside it is gone (PROFILE.md, 14)",
        key: "k1",
        asks: "validate https://ex.org/w null",
        wanted: "14 NotFound",
    },
    Line {
        why: "`w` is free again",
        key: "k1",
        asks: "put https://ex.org/w {}",
        wanted: "stored https://ex.org/w",
    },
];

const REFERENCES: &[Line] = &[
    Line {
        why: "a document may come before those that it refers to",
        key: "k1",
        asks: r#"put https://ex.org/s {"$defs":{"u":{"$ref":"q"},"v":{"$ref":"p"}}}"#,
        wanted: "stored https://ex.org/s",
    },
    Line {
        why: "of two references without a target the least is told (PROFILE.md, 15)",
        key: "k1",
        asks: "validate https://ex.org/s null",
        wanted: "15 Unresolved https://ex.org/p",
    },
    Line {
        why: "a bundle needs each target as a validation does (PROFILE.md, 15)",
        key: "k1",
        asks: "bundle https://ex.org/s",
        wanted: "15 Unresolved https://ex.org/p",
    },
    Line {
        why: "`p` is the target of one of the references",
        key: "k1",
        asks: "put https://ex.org/p {}",
        wanted: "stored https://ex.org/p",
    },
    Line {
        why: "the other reference is left without its target (PROFILE.md, 15)",
        key: "k1",
        asks: "validate https://ex.org/s null",
        wanted: "15 Unresolved https://ex.org/q",
    },
    Line {
        why: "`q` is the target of the other reference",
        key: "k1",
        asks: "put https://ex.org/q {}",
        wanted: "stored https://ex.org/q",
    },
    Line {
        why: "each reference has its target, and none is applied",
        key: "k1",
        asks: "validate https://ex.org/s null",
        wanted: VALID,
    },
    Line {
        why: "a document may go that another one refers to",
        key: "k1",
        asks: "delete https://ex.org/p",
        wanted: "deleted https://ex.org/p",
    },
    Line {
        why: "the reference to the deleted document has no target (PROFILE.md, 15)",
        key: "k1",
        asks: "validate https://ex.org/s null",
        wanted: "15 Unresolved https://ex.org/p",
    },
];

const QUOTAS: &[Line] = &[
    Line {
        why: "one document of 2 bytes is within both quotas",
        key: "k1",
        asks: "put https://ex.org/a {}",
        wanted: "stored https://ex.org/a",
    },
    Line {
        why: "a second document is more than one (PROFILE.md, 28)",
        key: "k1",
        asks: "put https://ex.org/b {}",
        wanted: "28 QuotaDocuments",
    },
    Line {
        why: "a document that replaces another is none more, and 17 bytes are within 20",
        key: "k1",
        asks: r#"put https://ex.org/a {"type":"string"}"#,
        wanted: "replaced https://ex.org/a",
    },
    Line {
        why: "22 bytes are more than 20 (PROFILE.md, 29)",
        key: "k1",
        asks: r#"put https://ex.org/a {"minLength":10000000}"#,
        wanted: "29 QuotaBytes",
    },
    Line {
        why: "without its blanks the document has 20 bytes (HTTP.md)",
        key: "k1",
        asks: r#"put https://ex.org/a {"minLength" : 100000}"#,
        wanted: "replaced https://ex.org/a",
    },
    Line {
        why: "a document may be deleted where the quotas are used up",
        key: "k1",
        asks: "delete https://ex.org/a",
        wanted: "deleted https://ex.org/a",
    },
    Line {
        why: "the document is gone (PROFILE.md, 14)",
        key: "k1",
        asks: "delete https://ex.org/a",
        wanted: "14 NotFound",
    },
    Line {
        why: "a deleted document counts no more",
        key: "k1",
        asks: "put https://ex.org/b {}",
        wanted: "stored https://ex.org/b",
    },
];

const URIS: &[Line] = &[
    Line {
        why: "a `..` segment is removed, with the one before it (RFC 3986, 5.2.4)",
        key: "k1",
        asks: "put https://ex.org/x/../a {}",
        wanted: "stored https://ex.org/a",
    },
    Line {
        why: "a `.` segment is removed from a validation's URI, too (RFC 3986, 5.2.4)",
        key: "k1",
        asks: "validate https://ex.org/./a null",
        wanted: VALID,
    },
    Line {
        why: "a bundle's document is found without dot segments, and has its canonical URI",
        key: "k1",
        asks: "bundle https://ex.org/y/../a",
        wanted: r#"{"$id":"https://ex.org/a"}"#,
    },
    Line {
        why: "a URI has a scheme (PROFILE.md, 25)",
        key: "k1",
        asks: "put s {}",
        wanted: "25 BadUri",
    },
    Line {
        why: "a URI has no fragment, also no empty one (PROFILE.md, 25)",
        key: "k1",
        asks: "put https://ex.org/a# {}",
        wanted: "25 BadUri",
    },
    Line {
        why: "without `/.` the path begins with `//`, without an authority (PROFILE.md, 25)",
        key: "k1",
        asks: "put x:/.//a {}",
        wanted: "25 BadUri",
    },
    Line {
        why: "a delete's URI has a scheme (PROFILE.md, 25)",
        key: "k1",
        asks: "delete s",
        wanted: "25 BadUri",
    },
    Line {
        why: "a validation's URI has no fragment (PROFILE.md, 25)",
        key: "k1",
        asks: "validate https://ex.org/a#/$defs/b null",
        wanted: "25 BadUri",
    },
    Line {
        why: "a bundle's URI has a scheme, and not only an authority (PROFILE.md, 25)",
        key: "k1",
        asks: "bundle //ex.org/a",
        wanted: "25 BadUri",
    },
    Line {
        why: "an `$id` is resolved against the URI that it is put under (Core, 8.2.1)",
        key: "k1",
        asks: r#"put https://ex.org/a/c/x {"$id":"../b"}"#,
        wanted: "stored https://ex.org/a/b",
    },
    Line {
        why: "a document judges by its canonical URI (HTTP.md)",
        key: "k1",
        asks: "validate https://ex.org/a/b null",
        wanted: VALID,
    },
    Line {
        why: "the URI that a document is put under is none of its own where it has an `$id`",
        key: "k1",
        asks: "validate https://ex.org/a/c/x null",
        wanted: "14 NotFound",
    },
    Line {
        why: "the same `$id` makes it the same document, under whichever URI it is put",
        key: "k1",
        asks: r#"put https://ex.org/other {"$id":"https://ex.org/a/b"}"#,
        wanted: "replaced https://ex.org/a/b",
    },
    Line {
        why: "dot segments are removed from a delete's URI, too (RFC 3986, 5.2.4)",
        key: "k1",
        asks: "delete https://ex.org/x/../a",
        wanted: "deleted https://ex.org/a",
    },
    Line {
        why: "the deleted document judges nothing (PROFILE.md, 14)",
        key: "k1",
        asks: "validate https://ex.org/a null",
        wanted: "14 NotFound",
    },
];

const STORING: &[Talk] = &[
    Talk {
        why: "a refused put leaves the old document",
        tenants: TWO_TENANTS,
        library: None,
        capacities: &[256],
        lines: REFUSED_PUT,
    },
    Talk {
        why: "a resource belongs to one document",
        tenants: TWO_TENANTS,
        library: None,
        capacities: &[1, 2, 4096],
        lines: TAKEN,
    },
    Talk {
        why: "each reference of a reached document has a target",
        tenants: TWO_TENANTS,
        library: None,
        capacities: &[1],
        lines: REFERENCES,
    },
];

const QUOTAS_AND_URIS: &[Talk] = &[
    Talk {
        why: "quotas are judged on what is left",
        tenants: SMALL_TENANT,
        library: None,
        capacities: &[256],
        lines: QUOTAS,
    },
    Talk {
        why: "documents are named by their canonical URIs",
        tenants: TWO_TENANTS,
        library: None,
        capacities: &[256],
        lines: URIS,
    },
];

#[test]
fn what_one_tenant_stores(rt: HostRuntime) {
    for talk in STORING {
        expect_talk(&rt, rt.alloc(), talk);
    }
}

#[test]
fn what_quotas_and_uris_decide(rt: HostRuntime) {
    for talk in QUOTAS_AND_URIS {
        expect_talk(&rt, rt.alloc(), talk);
    }
}
