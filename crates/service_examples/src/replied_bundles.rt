//! Bundles of a tenant's documents, and what they say in a registry that has nothing else.

use crate::talks::{Line, TWO_TENANTS, Talk, answered, expect_talk, new_hub};
use crate::texts::{expect_holds, expect_same};
use std::alloc::Global;
use std::process::Abort;
use tenant_hub::{Fault, Hub};

const BUNDLE_OF_ROOT: &str =
    r#"{"$defs":{"https://ex.org/b":{"$id":"https://ex.org/b","type":"integer"}},"$id":"https://ex.org/root","properties":{"a":{"$ref":"b"}}}"#;

const BUNDLES: &[Line] = &[
    Line {
        why: "no document has the URI yet",
        key: "k1",
        asks: "put https://ex.org/s {}",
        wanted: "stored https://ex.org/s",
    },
    Line {
        why: "a document's canonical URI stands in its bundle as `$id`",
        key: "k1",
        asks: "bundle https://ex.org/s",
        wanted: r#"{"$id":"https://ex.org/s"}"#,
    },
    Line {
        why: "a document may come before the one that it refers to",
        key: "k1",
        asks: r#"put https://ex.org/root {"properties":{"a":{"$ref":"b"}}}"#,
        wanted: "stored https://ex.org/root",
    },
    Line {
        why: "a bundle needs the target of each reference (PROFILE.md, 15)",
        key: "k1",
        asks: "bundle https://ex.org/root",
        wanted: "15 Unresolved https://ex.org/b",
    },
    Line {
        why: "`b` is the target of the reference",
        key: "k1",
        asks: r#"put https://ex.org/b {"type":"integer"}"#,
        wanted: "stored https://ex.org/b",
    },
    Line {
        why: "a document that is referred to stands in `$defs`, under its URI (CLI.md)",
        key: "k1",
        asks: "bundle https://ex.org/root",
        wanted: BUNDLE_OF_ROOT,
    },
    Line {
        why: "a key in `$defs` may look like another document's URI",
        key: "k1",
        asks: r#"put https://ex.org/root {"$defs":{"https://ex.org/b":{}},"$ref":"b"}"#,
        wanted: "replaced https://ex.org/root",
    },
    Line {
        why: "the key for `b` is taken (PROFILE.md, 19)",
        key: "k1",
        asks: "bundle https://ex.org/root",
        wanted: "19 BundleClash https://ex.org/b",
    },
    Line {
        why: "a resource inside may refer to a document that isn't there",
        key: "k1",
        asks: r#"put https://ex.org/z {"$defs":{"e":{"$id":"w","$ref":"unknown"}}}"#,
        wanted: "stored https://ex.org/z",
    },
    Line {
        why: "an embedded resource has no bundle of its own (PROFILE.md, 14)",
        key: "k1",
        asks: "bundle https://ex.org/w",
        wanted: "14 NotFound",
    },
    Line {
        why: "the other tenant has no document of this URI (PROFILE.md, 14)",
        key: "k2",
        asks: "bundle https://ex.org/s",
        wanted: "14 NotFound",
    },
];

const NESTED: &[Line] = &[
    Line {
        why: "the root of the bundle refers to one document",
        key: "k1",
        asks: r#"put https://ex.org/root {"$ref":"b"}"#,
        wanted: "stored https://ex.org/root",
    },
    Line {
        why: "117 arrays and their document nest 118 deep, within 120 (LIMITS.md)",
        key: "k1",
        asks: r#"put https://ex.org/b {"const":«117*[»«117*]»}"#,
        wanted: "stored https://ex.org/b",
    },
    Line {
        why: "with `$defs` and the root the bundle nests 120 deep, which is the limit (LIMITS.md)",
        key: "k1",
        asks: "bundle https://ex.org/root",
        wanted: r#"{"$defs":{"https://ex.org/b":{"$id":"https://ex.org/b","const":«117*[»«117*]»}},"$id":"https://ex.org/root","$ref":"b"}"#,
    },
    Line {
        why: "118 arrays and their document nest 119 deep, within 120 (LIMITS.md)",
        key: "k1",
        asks: r#"put https://ex.org/b {"const":«118*[»«118*]»}"#,
        wanted: "replaced https://ex.org/b",
    },
    Line {
        why: "with `$defs` and the root the bundle would nest 121 deep (LIMITS.md)",
        key: "k1",
        asks: "bundle https://ex.org/root",
        wanted: "20 BundleTooLarge",
    },
];

const TALKS: &[Talk] = &[
    Talk {
        why: "a bundle is of a document whose references all lead somewhere",
        tenants: TWO_TENANTS,
        library: None,
        capacities: &[1],
        lines: BUNDLES,
    },
    Talk {
        why: "a replied bundle nests 120 deep at most (LIMITS.md)",
        tenants: TWO_TENANTS,
        library: None,
        capacities: &[1],
        lines: NESTED,
    },
];

#[test]
fn bundles_are_replied_or_refused(rt: HostRuntime) {
    for talk in TALKS {
        expect_talk(&rt, rt.alloc(), talk);
    }
}

/// What the first tenant puts, the canonical URI that it bundles, and instances that both ask of.
struct StandingAlone {
    why: &'static str,
    puts: &'static [&'static str],
    uri: &'static str,
    instances: &'static [&'static str],
}

const STANDING_ALONE: &[StandingAlone] = &[
    StandingAlone {
        why: "a document in `$defs` is found by its `$id` (Core, 9.3)",
        puts: &[
            r#"put https://ex.org/root {"properties":{"a":{"$ref":"b"}}}"#,
            r#"put https://ex.org/b {"type":"integer"}"#,
        ],
        uri: "https://ex.org/root",
        instances: &[r#"{"a":"x"}"#, r#"{"a":1}"#, "null", "[1"],
    },
    StandingAlone {
        why: "two documents may refer to one another",
        puts: &[
            r#"put https://ex.org/root {"$ref":"b"}"#,
            r#"put https://ex.org/b {"$ref":"root"}"#,
        ],
        uri: "https://ex.org/root",
        instances: &["1", "{}"],
    },
    StandingAlone {
        why: "the outermost dynamic anchor is the root's (Core, 8.2.3.2)",
        puts: &[
            r##"put https://example.com/tree {"$dynamicAnchor":"node","type":"object","properties":{"data":true,"children":{"type":"array","items":{"$dynamicRef":"#node"}}}}"##,
            r#"put https://example.com/strict-tree {"$dynamicAnchor":"node","$ref":"tree","unevaluatedProperties":false}"#,
        ],
        uri: "https://example.com/strict-tree",
        instances: &[
            r#"{"children":[{"daat":1}]}"#,
            r#"{"data":1,"children":[{"data":2},{"children":[]}]}"#,
            "7",
        ],
    },
    StandingAlone {
        why: "a `$dynamicRef` leads to a document in `$defs`, too",
        puts: &[
            r##"put https://ex.org/root {"$dynamicRef":"d#n"}"##,
            r#"put https://ex.org/d {"$dynamicAnchor":"n","type":"null"}"#,
        ],
        uri: "https://ex.org/root",
        instances: &["1", "null"],
    },
    StandingAlone {
        why: "references lead to resources and anchors within another document",
        puts: &[
            r##"put https://ex.org/a/order {"$id":"https://ex.org/order","properties":{"by":{"$ref":"people/customer"},"to":{"$ref":"people/address#place"}}}"##,
            r#"put https://ex.org/people {"$defs":{"c":{"$id":"people/customer","required":["name"]},"a":{"$id":"people/address","$anchor":"place","properties":{"town":{"type":"string"}}}}}"#,
        ],
        uri: "https://ex.org/order",
        instances: &[
            r#"{"by":{},"to":{"town":1}}"#,
            r#"{"by":{"name":"x"},"to":{"town":"y"}}"#,
        ],
    },
];

// Whether each is stored by the first tenant.
fn are_put(alloc: Global, hub: &mut Hub, puts: &[&str]) -> Result<bool, Fault> {
    for put in puts {
        if !answered(alloc, hub, "k1", put)?.starts_with("stored ") {
            return Ok(false);
        }
    }
    Ok(true)
}

// Whether the second tenant may put the bundle of the first one's document alone, under a URI of its own.
fn is_bundle_put(alloc: Global, hub: &mut Hub, uri: &str) -> Result<bool, Fault> {
    let ask = format!(in alloc; "bundle {uri}")?;
    let bundle = answered(alloc, hub, "k1", ask.as_str())?;
    let put = format!(in alloc; "put urn:x {bundle}")?;
    let reply = answered(alloc, hub, "k2", put.as_str())?;
    let wanted = format!(in alloc; "stored {uri}")?;
    Ok(reply.as_str() == wanted.as_str())
}

fn said(
    alloc: Global,
    hub: &mut Hub,
    key: &str,
    uri: &str,
    instance: &str,
) -> Result<String, Fault> {
    let ask = format!(in alloc; "validate {uri} {instance}")?;
    answered(alloc, hub, key, ask.as_str())
}

// Both tenants are told the same of each instance.
fn expect_said(rt: &impl Abort, alloc: Global, hub: &mut Hub, row: &StandingAlone) {
    for instance in row.instances {
        let alone = said(alloc, hub, "k2", row.uri, instance);
        expect_same(
            rt,
            alone,
            said(alloc, hub, "k1", row.uri, instance),
            row.why,
        );
    }
}

fn expect_alone(rt: &impl Abort, alloc: Global, row: &StandingAlone) {
    match new_hub(alloc, TWO_TENANTS, None, 2) {
        Ok(mut hub) => {
            expect_holds(rt, are_put(alloc, &mut hub, row.puts), row.why);
            expect_holds(rt, is_bundle_put(alloc, &mut hub, row.uri), row.why);
            expect_said(rt, alloc, &mut hub, row);
        }
        Err(fault) => panic!(rt; "{}: {fault}", row.why),
    }
}

#[test]
fn bundles_stand_alone(rt: HostRuntime) {
    for row in STANDING_ALONE {
        expect_alone(&rt, rt.alloc(), row);
    }
}
