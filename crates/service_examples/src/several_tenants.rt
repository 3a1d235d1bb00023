//! Several tenants: none sees what another has or does.

use crate::talks::{Line, TWO_TENANTS, Talk, VALID, expect_talk};

const ONE_URI: &[Line] = &[
    Line {
        why: "the first tenant has no document of the URI yet",
        key: "k1",
        asks: r#"put https://ex.org/s {"type":"string"}"#,
        wanted: "stored https://ex.org/s",
    },
    Line {
        why: "the first tenant's document takes no URI from the second",
        key: "k2",
        asks: r#"put https://ex.org/s {"type":"integer"}"#,
        wanted: "stored https://ex.org/s",
    },
    Line {
        why: "5 is no string, which the first tenant's document asks for",
        key: "k1",
        asks: "validate https://ex.org/s 5",
        wanted: FAILS,
    },
    Line {
        why: "5 is an integer, which the second tenant's document asks for",
        key: "k2",
        asks: "validate https://ex.org/s 5",
        wanted: VALID,
    },
    Line {
        why: "the second tenant's answer changes none of the first's",
        key: "k1",
        asks: "validate https://ex.org/s 5",
        wanted: FAILS,
    },
    Line {
        why: "the first tenant's answer changes none of the second's",
        key: "k2",
        asks: "validate https://ex.org/s 5",
        wanted: VALID,
    },
    Line {
        why: "the first tenant's third answer is that of its first",
        key: "k1",
        asks: "validate https://ex.org/s 5",
        wanted: FAILS,
    },
    Line {
        why: "the second tenant's third answer is that of its first",
        key: "k2",
        asks: "validate https://ex.org/s 5",
        wanted: VALID,
    },
    Line {
        why: "no tenant has the key (PROFILE.md, 24)",
        key: "k3",
        asks: "validate https://ex.org/s 5",
        wanted: "24 UnknownTenant",
    },
    Line {
        why: "the key is judged before the URI and the body (HTTP.md)",
        key: "k3",
        asks: "put s [1",
        wanted: "24 UnknownTenant",
    },
    Line {
        why: "an empty key is no tenant's (PROFILE.md, 24)",
        key: "",
        asks: "delete https://ex.org/s",
        wanted: "24 UnknownTenant",
    },
    Line {
        why: "the second tenant deletes a document of its own",
        key: "k2",
        asks: "delete https://ex.org/s",
        wanted: "deleted https://ex.org/s",
    },
    Line {
        why: "the first tenant's document is still there",
        key: "k1",
        asks: "validate https://ex.org/s 5",
        wanted: FAILS,
    },
    Line {
        why: "the second tenant's document is gone (PROFILE.md, 14)",
        key: "k2",
        asks: "validate https://ex.org/s 5",
        wanted: "14 NotFound",
    },
];

const FAILS: &str =
    r#"{"errors":[{"absoluteKeywordLocation":"https://ex.org/s#/type","error":"type is not met","instanceLocation":"","keywordLocation":"/type"}],"valid":false}"#;

const ONE_DOCUMENT_EACH: &str =
    r#"{"tenants":[{"bytes":20,"documents":1,"key":"k1"},{"bytes":20,"documents":1,"key":"k2"}]}"#;

const APART: &[Line] = &[
    Line {
        why: "a document may come before the one that it refers to",
        key: "k1",
        asks: r#"put https://ex.org/s {"$ref":"t"}"#,
        wanted: "stored https://ex.org/s",
    },
    Line {
        why: "the second tenant has a document of the URI that the first one's refers to",
        key: "k2",
        asks: r#"put https://ex.org/t {"not":true}"#,
        wanted: "stored https://ex.org/t",
    },
    Line {
        why: "no reference reaches another tenant's document (HTTP.md)",
        key: "k1",
        asks: "validate https://ex.org/s 1",
        wanted: "15 Unresolved https://ex.org/t",
    },
    Line {
        why: "no URI reaches another tenant's document (HTTP.md)",
        key: "k2",
        asks: "validate https://ex.org/s 1",
        wanted: "14 NotFound",
    },
    Line {
        why: "by its `$id` the document is `s`, and replaces it (Core, 8.2.1)",
        key: "k1",
        asks: r#"put https://ex.org/t {"$id":"s"}"#,
        wanted: "replaced https://ex.org/s",
    },
    Line {
        why: "a second document of one tenant is more than one (PROFILE.md, 28)",
        key: "k1",
        asks: "put https://ex.org/t {}",
        wanted: "28 QuotaDocuments",
    },
    Line {
        why: "no bundle is made of another tenant's document (HTTP.md)",
        key: "k1",
        asks: "bundle https://ex.org/t",
        wanted: "14 NotFound",
    },
];

// A validation sees each change of what its schema reaches, and none of another tenant's.
const CHANGES: &[Line] = &[
    Line {
        why: "a document may come before the one that it refers to",
        key: "k1",
        asks: r#"put https://ex.org/s {"$ref":"t"}"#,
        wanted: "stored https://ex.org/s",
    },
    Line {
        why: "`t` is the target of the reference",
        key: "k1",
        asks: r#"put https://ex.org/t {"type":"integer"}"#,
        wanted: "stored https://ex.org/t",
    },
    Line {
        why: "5 is an integer, which `t` asks for (Validation, 6.1.1)",
        key: "k1",
        asks: "validate https://ex.org/s 5",
        wanted: VALID,
    },
    Line {
        why: "what was asked already has the same answer",
        key: "k1",
        asks: "validate https://ex.org/s 5",
        wanted: VALID,
    },
    Line {
        why: "the other tenant puts a `t` of its own",
        key: "k2",
        asks: r#"put https://ex.org/t {"$ref":"u"}"#,
        wanted: "stored https://ex.org/t",
    },
    Line {
        why: "the other tenant's put changes no answer",
        key: "k1",
        asks: "validate https://ex.org/s 5",
        wanted: VALID,
    },
    Line {
        why: "`t` asks by another reference now",
        key: "k1",
        asks: r#"put https://ex.org/t {"$ref":"u"}"#,
        wanted: "replaced https://ex.org/t",
    },
    Line {
        why: "the new `t` refers to no document that is there (PROFILE.md, 15)",
        key: "k1",
        asks: "validate https://ex.org/s 5",
        wanted: "15 Unresolved https://ex.org/u",
    },
    Line {
        why: "`u` is the target of the new reference",
        key: "k1",
        asks: r#"put https://ex.org/u {"type":"integer"}"#,
        wanted: "stored https://ex.org/u",
    },
    Line {
        why: "5 is an integer, which `u` asks for (Validation, 6.1.1)",
        key: "k1",
        asks: "validate https://ex.org/s 5",
        wanted: VALID,
    },
    Line {
        why: "the other tenant deletes its own `t`",
        key: "k2",
        asks: "delete https://ex.org/t",
        wanted: "deleted https://ex.org/t",
    },
    Line {
        why: "the other tenant's delete changes no answer",
        key: "k1",
        asks: "validate https://ex.org/s 5",
        wanted: VALID,
    },
    Line {
        why: "a document may go that another one refers to",
        key: "k1",
        asks: "delete https://ex.org/t",
        wanted: "deleted https://ex.org/t",
    },
    Line {
        why: "the reference to the deleted document has no target (PROFILE.md, 15)",
        key: "k1",
        asks: "validate https://ex.org/s 5",
        wanted: "15 Unresolved https://ex.org/t",
    },
    Line {
        why: "a deleted document may be stored anew",
        key: "k1",
        asks: r#"put https://ex.org/t {"type":"integer"}"#,
        wanted: "stored https://ex.org/t",
    },
    Line {
        why: "5 is an integer, which the new `t` asks for (Validation, 6.1.1)",
        key: "k1",
        asks: "validate https://ex.org/s 5",
        wanted: VALID,
    },
    Line {
        why: "an array ends by a bracket (RFC 8259, 5)",
        key: "k1",
        asks: "put https://ex.org/t [1",
        wanted: "1 BadJson",
    },
    Line {
        why: "a refused put changes no answer",
        key: "k1",
        asks: "validate https://ex.org/s 5",
        wanted: VALID,
    },
];

const TALKS: &[Talk] = &[
    Talk {
        why: "one URI means each tenant's own document",
        tenants: TWO_TENANTS,
        library: None,
        capacities: &[1, 2, 4096],
        lines: ONE_URI,
    },
    Talk {
        why: "neither references nor quotas reach over to another tenant",
        tenants: ONE_DOCUMENT_EACH,
        library: None,
        capacities: &[256],
        lines: APART,
    },
    Talk {
        why: "a validation sees each change of what it reaches",
        tenants: TWO_TENANTS,
        library: None,
        capacities: &[1, 2, 4096],
        lines: CHANGES,
    },
    Talk {
        why: "no calls have no replies",
        tenants: TWO_TENANTS,
        library: None,
        capacities: &[256],
        lines: &[],
    },
];

#[test]
fn tenants_are_apart(rt: HostRuntime) {
    for talk in TALKS {
        expect_talk(&rt, rt.alloc(), talk);
    }
}
