//! Compiled documents: their canonical URIs, and the schemas that fragments name.

use crate::expectations::{expect_holds, expect_told};
use json_doc::read;
use schema_scan::{Compiled, Fault, canonical, compile, scan};
use std::alloc::Global;
use std::process::Abort;
use uri_ref::{fragment_kind, split};

/// The document under this base, compiled.
pub fn compiled(alloc: Global, base: &str, document: &str) -> Result<Compiled, Fault> {
    let document = read(alloc, document.as_bytes())?;
    compile(alloc, scan(alloc, &split(base), &document)?)
}

fn canonical_uri(alloc: Global, base: &str, document: &str) -> Result<String, Fault> {
    let document = compiled(alloc, base, document)?;
    Ok(String::from_str(alloc, canonical(&document))?)
}

// Why, a base, a document, and its canonical URI or the fault.
const DOCUMENTS: &[(&str, &str, &str, &str)] = &[
    (
        "without an `$id` the canonical URI is the base (Core 9.1.1)",
        "https://ex.org/a/c/x",
        "{}",
        "https://ex.org/a/c/x",
    ),
    (
        "a relative `$id` is resolved against the base (Core 8.2.1)",
        "https://ex.org/a/c/x",
        r#"{"$id":"../b"}"#,
        "https://ex.org/a/b",
    ),
    (
        "an empty fragment is dropped (Core 8.2.1)",
        "https://ex.org/a/c/x",
        r#"{"$id":"y#"}"#,
        "https://ex.org/a/c/y",
    ),
    (
        "look-around is no part of the grammar (PROFILE.md)",
        "https://ex.org/s",
        r#"{"pattern":"(?=a)"}"#,
        "5 BadPattern",
    ),
    (
        "a name under `patternProperties` is a pattern, deep below, too",
        "https://ex.org/s",
        r#"{"properties":{"a":{"patternProperties":{"(":true}}}}"#,
        "5 BadPattern",
    ),
    (
        "a pattern below is built as one at the root is",
        "https://ex.org/s",
        r#"{"properties":{"p":{"pattern":"(?=a)"}}}"#,
        "5 BadPattern",
    ),
    (
        "a good pattern at the root hides no bad one below",
        "https://ex.org/s",
        r#"{"pattern":"a","properties":{"p":{"pattern":"(?=a)"}}}"#,
        "5 BadPattern",
    ),
];

fn expect_document(rt: &impl Abort, alloc: Global, row: &(&str, &str, &str, &str)) {
    let (why, base, document, wanted) = *row;
    expect_told(rt, alloc, canonical_uri(alloc, base, document), wanted, why);
}

#[test]
fn documents_have_canonical_uris(rt: HostRuntime) {
    for row in DOCUMENTS {
        expect_document(&rt, rt.alloc(), row);
    }
}

/// `https://ex.org/s`, with an embedded resource `https://ex.org/in/e`, anchors, and values that only look like schemas.
pub const DOCUMENT: &str = r##"{
    "$defs": {
        "e": {"$id": "in/e", "$anchor": "n", "allOf": [{"type": "null"}, {"$dynamicAnchor": "d", "$ref": "#n"}]},
        "f": {"$anchor": "n", "const": {"$ref": "no", "$id": "no"}, "$dynamicRef": "in/e#d"}
    },
    "enum": [{"$ref": "no"}],
    "$ref": "#/$defs/f"
}"##;

const OUTER: &str = "https://ex.org/s";

const INNER: &str = "https://ex.org/in/e";

// A resource and a fragment, and the resource of the schema that is found and how many steps lead to it; no resource where
// none is found.
struct Target {
    why: &'static str,
    uri: &'static str,
    fragment: &'static str,
    resource: &'static str,
    steps: usize,
}

const TARGETS: &[Target] = &[
    Target {
        why: "an empty fragment names the root of the resource",
        uri: OUTER,
        fragment: "",
        resource: OUTER,
        steps: 0,
    },
    Target {
        why: "an empty fragment names an embedded resource's root, too",
        uri: INNER,
        fragment: "",
        resource: INNER,
        steps: 0,
    },
    Target {
        why: "an anchor belongs to the resource around it (Core 8.2.2)",
        uri: OUTER,
        fragment: "n",
        resource: OUTER,
        steps: 2,
    },
    Target {
        why: "an embedded resource has its own anchor of this name (Core 8.2.2)",
        uri: INNER,
        fragment: "n",
        resource: INNER,
        steps: 0,
    },
    Target {
        why: "a dynamic anchor is a plain name, too (Core 8.2.2)",
        uri: INNER,
        fragment: "d",
        resource: INNER,
        steps: 2,
    },
    Target {
        why: "the dynamic anchor stands in the embedded resource alone",
        uri: OUTER,
        fragment: "d",
        resource: "",
        steps: 0,
    },
    Target {
        why: "a pointer leads to a schema in `$defs` (Core 8.2.4)",
        uri: OUTER,
        fragment: "/$defs/f",
        resource: OUTER,
        steps: 2,
    },
    Target {
        why: "a pointer may lead into an embedded resource (Core 9.2.1)",
        uri: OUTER,
        fragment: "/$defs/e/allOf/1",
        resource: INNER,
        steps: 2,
    },
    Target {
        why: "a pointer begins at the embedded resource's own root (Core 9.2.1)",
        uri: INNER,
        fragment: "/allOf/1",
        resource: INNER,
        steps: 2,
    },
    Target {
        why: "an index has no zero before it (RFC 6901, 4)",
        uri: INNER,
        fragment: "/allOf/01",
        resource: "",
        steps: 0,
    },
    Target {
        why: "a list of two has no index 2",
        uri: INNER,
        fragment: "/allOf/2",
        resource: "",
        steps: 0,
    },
    Target {
        why: "`$defs` holds schemas and is none (Core 8.2.4)",
        uri: OUTER,
        fragment: "/$defs",
        resource: "",
        steps: 0,
    },
    Target {
        why: "the value of `const` is no schema (Validation 6.1.3)",
        uri: OUTER,
        fragment: "/$defs/f/const",
        resource: "",
        steps: 0,
    },
    Target {
        why: "an element of `enum` is no schema (Validation 6.1.2)",
        uri: OUTER,
        fragment: "/enum/0",
        resource: "",
        steps: 0,
    },
    Target {
        why: "no resource of the document has this URI",
        uri: "https://ex.org/no",
        fragment: "",
        resource: "",
        steps: 0,
    },
];

// Whether the fragment names a schema of the row's resource, so many steps from its root; no schema for no resource.
fn names(alloc: Global, row: &Target) -> Result<bool, Fault> {
    let document = compiled(alloc, OUTER, DOCUMENT)?;
    let kind = fragment_kind(alloc, Some(row.fragment))?;
    match document.target(alloc, row.uri, &kind)? {
        Some(located) => Ok(located.resource == row.resource && located.steps.len() == row.steps),
        None => Ok(row.resource.is_empty()),
    }
}

fn expect_named(rt: &impl Abort, alloc: Global, row: &Target) {
    expect_holds(rt, names(alloc, row), row.why);
}

#[test]
fn fragments_name_schemas(rt: HostRuntime) {
    for row in TARGETS {
        expect_named(&rt, rt.alloc(), row);
    }
}
