//! The texts of bundles, refusals, and what bundles say, put alone under some other URI.

use crate::bundled_documents::{answer, bundle_text};
use crate::texts::{expect_like, expect_same};
use bundler::Fault;
use std::alloc::Global;
use std::process::Abort;

const ROOT: &str = "https://ex.org/root";

const BY_PROPERTY: &[(&str, &str)] = &[
    (ROOT, r#"{"properties":{"a":{"$ref":"b"}}}"#),
    ("https://ex.org/b", r#"{"type":"integer"}"#),
];

const ROUND: &[(&str, &str)] = &[
    (ROOT, r#"{"$ref":"b"}"#),
    ("https://ex.org/b", r#"{"$ref":"root"}"#),
];

const STAYING: &[(&str, &str)] = &[
    (
        ROOT,
        r##"{"$defs":{"zz":{},"https://ex.org/bb":{}},"allOf":[{"$ref":"c"},{"$ref":"b"},{"$ref":"#/$defs/zz"}]}"##,
    ),
    ("https://ex.org/b", "{}"),
    ("https://ex.org/c", r#"{"$id":"c#"}"#),
];

const CLASHING: &[(&str, &str)] = &[
    (
        ROOT,
        r#"{"$defs":{"https://ex.org/b":{},"https://ex.org/c":{}},"$ref":"c","allOf":[{"$ref":"b"}]}"#,
    ),
    ("https://ex.org/b", "{}"),
    ("https://ex.org/c", "{}"),
];

const STRICT_TREE: &str = "https://example.com/strict-tree";

const TREES: &[(&str, &str)] = &[
    (
        "https://example.com/tree",
        r##"{"$dynamicAnchor":"node","type":"object","properties":{"data":true,"children":{"type":"array","items":{"$dynamicRef":"#node"}}}}"##,
    ),
    (
        STRICT_TREE,
        r#"{"$dynamicAnchor":"node","$ref":"tree","unevaluatedProperties":false}"#,
    ),
];

const BY_DYNAMIC_REFERENCE: &[(&str, &str)] = &[
    (ROOT, r##"{"$dynamicRef":"d#n"}"##),
    (
        "https://ex.org/d",
        r#"{"$dynamicAnchor":"n","type":"null"}"#,
    ),
];

const NESTED_117: &[(&str, &str)] = &[
    (ROOT, r#"{"$ref":"b"}"#),
    ("https://ex.org/b", r#"{"const":«117*[»«117*]»}"#),
];

const NESTED_118: &[(&str, &str)] = &[
    (ROOT, r#"{"$ref":"b"}"#),
    ("https://ex.org/b", r#"{"const":«118*[»«118*]»}"#),
];

// Documents, each with the URI that it stands under.
type Documents = &'static [(&'static str, &'static str)];

const OF_A_DOCUMENT_ALONE: &str = r#"{"$id":"https://ex.org/s"}"#;

const OF_BY_PROPERTY: &str =
    r#"{"$defs":{"https://ex.org/b":{"$id":"https://ex.org/b","type":"integer"}},"$id":"https://ex.org/root","properties":{"a":{"$ref":"b"}}}"#;

const OF_ROUND: &str =
    r#"{"$defs":{"https://ex.org/b":{"$id":"https://ex.org/b","$ref":"root"}},"$id":"https://ex.org/root","$ref":"b"}"#;

const OF_STAYING: &str =
    r##"{"$defs":{"https://ex.org/b":{"$id":"https://ex.org/b"},"https://ex.org/bb":{},"https://ex.org/c":{"$id":"https://ex.org/c"},"zz":{}},"$id":"https://ex.org/root","allOf":[{"$ref":"c"},{"$ref":"b"},{"$ref":"#/$defs/zz"}]}"##;

const OF_TREES: &str =
    r##"{"$defs":{"https://example.com/tree":{"$dynamicAnchor":"node","$id":"https://example.com/tree","properties":{"children":{"items":{"$dynamicRef":"#node"},"type":"array"},"data":true},"type":"object"}},"$dynamicAnchor":"node","$id":"https://example.com/strict-tree","$ref":"tree","unevaluatedProperties":false}"##;

const OF_BY_DYNAMIC_REFERENCE: &str =
    r##"{"$defs":{"https://ex.org/d":{"$dynamicAnchor":"n","$id":"https://ex.org/d","type":"null"}},"$dynamicRef":"d#n","$id":"https://ex.org/root"}"##;

// Why a bundle is made so or refused, documents, a URI, and the text of the bundle of what it reaches, or the fault. Beside
// the letters of its title the longest has 26 bytes.
const BUNDLES: &[(&str, Documents, &str, &str)] = &[
    (
        "a document's canonical URI stands in its bundle as `$id`",
        &[("https://ex.org/s", "{}")],
        "https://ex.org/s",
        OF_A_DOCUMENT_ALONE,
    ),
    (
        "a document that is referred to stands in `$defs`, under its URI (CLI.md)",
        BY_PROPERTY,
        ROOT,
        OF_BY_PROPERTY,
    ),
    (
        "the root stands in no `$defs`, though it is referred to",
        ROUND,
        ROOT,
        OF_ROUND,
    ),
    (
        "what stood in `$defs` stays, and no reference is changed (CLI.md)",
        STAYING,
        ROOT,
        OF_STAYING,
    ),
    (
        "of the keys that are taken the least is told (PROFILE.md, 19)",
        CLASHING,
        ROOT,
        "19 BundleClash https://ex.org/b",
    ),
    (
        "an embedded resource has no bundle of its own (PROFILE.md, 14)",
        &[("https://ex.org/z", r#"{"$defs":{"e":{"$id":"w"}}}"#)],
        "https://ex.org/w",
        "14 NotFound",
    ),
    (
        "dynamic anchors and references stay as they are",
        TREES,
        STRICT_TREE,
        OF_TREES,
    ),
    (
        "a document is reached by a dynamic reference, too",
        BY_DYNAMIC_REFERENCE,
        ROOT,
        OF_BY_DYNAMIC_REFERENCE,
    ),
    (
        "117 arrays, their document, `$defs` and the root nest 120 deep (LIMITS.md)",
        NESTED_117,
        ROOT,
        "{…",
    ),
    (
        "a bundle that nests 121 deep is too large (LIMITS.md)",
        NESTED_118,
        ROOT,
        "20 BundleTooLarge",
    ),
    (
        "a bundle of 1,048,576 bytes is the longest (LIMITS.md)",
        &[("urn:x", r#"{"title":"«1048550*t»"}"#)],
        "urn:x",
        r#"{"$id":"urn:x","title":"«1048550*t»"}"#,
    ),
    (
        "a bundle of 1,048,577 bytes is too large (LIMITS.md)",
        &[("urn:x", r#"{"title":"«1048551*t»"}"#)],
        "urn:x",
        "20 BundleTooLarge",
    ),
];

fn expect_bundle(rt: &impl Abort, alloc: Global, row: &(&str, Documents, &str, &str)) {
    let (why, documents, uri, wanted) = *row;
    expect_like(rt, alloc, bundle_text(alloc, documents, uri), wanted, why);
}

#[test]
fn bundles_have_their_texts(rt: HostRuntime) {
    for row in BUNDLES {
        expect_bundle(&rt, rt.alloc(), row);
    }
}

const NO_NULL: &str =
    r##"{"errors":[{"absoluteKeywordLocation":"https://ex.org/root#/$dynamicRef","error":"$dynamicRef is not met","instanceLocation":"","keywordLocation":"/$dynamicRef"},{"absoluteKeywordLocation":"https://ex.org/d#/type","error":"type is not met","instanceLocation":"","keywordLocation":"/$dynamicRef/type"}],"valid":false}"##;

/// Documents, the URI whose bundle is put alone, an instance, and what both say of it, or the fault.
struct StandingAlone {
    why: &'static str,
    documents: Documents,
    uri: &'static str,
    instance: &'static str,
    wanted: &'static str,
}

const STANDING_ALONE: &[StandingAlone] = &[
    StandingAlone {
        why: "a document in `$defs` is found by its `$id` (Core, 9.3)",
        documents: BY_PROPERTY,
        uri: ROOT,
        instance: r#"{"a":"x"}"#,
        wanted: r#"…"valid":false}"#,
    },
    StandingAlone {
        why: "two documents that refer to one another loop alone, too",
        documents: ROUND,
        uri: ROOT,
        instance: "1",
        wanted: "17 Loop",
    },
    StandingAlone {
        why: "the outermost dynamic anchor is the root's (Core, 8.2.3.2)",
        documents: TREES,
        uri: STRICT_TREE,
        instance: r#"{"children":[{"daat":1}]}"#,
        wanted: r#"…"/$ref/properties/children/items/$dynamicRef/unevaluatedProperties"…"#,
    },
    StandingAlone {
        why: "without an outer dynamic anchor the named one counts (Core, 8.2.3.2)",
        documents: BY_DYNAMIC_REFERENCE,
        uri: ROOT,
        instance: "1",
        wanted: NO_NULL,
    },
];

// What the bundle alone says, put under a URI of its own.
fn alone(
    alloc: Global,
    documents: &[(&str, &str)],
    uri: &str,
    instance: &str,
) -> Result<String, Fault> {
    let bundle = bundle_text(alloc, documents, uri)?;
    answer(alloc, &[("urn:x", bundle.as_str())], uri, instance)
}

fn expect_alone(rt: &impl Abort, alloc: Global, row: &StandingAlone) {
    let before = answer(alloc, row.documents, row.uri, row.instance);
    expect_like(rt, alloc, before, row.wanted, row.why);
    let before = answer(alloc, row.documents, row.uri, row.instance);
    let after = alone(alloc, row.documents, row.uri, row.instance);
    expect_same(rt, after, before, row.why);
}

#[test]
fn bundles_say_what_their_documents_say(rt: HostRuntime) {
    for row in STANDING_ALONE {
        expect_alone(&rt, rt.alloc(), row);
    }
}
