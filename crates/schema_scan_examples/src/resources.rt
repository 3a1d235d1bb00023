//! The resources, dynamic anchors and references of a document.

use crate::documents::{DOCUMENT, compiled};
use crate::expectations::{expect_holds, expect_told};
use crate::pointers::{RESOURCES, shown};
use schema_scan::Fault;
use std::alloc::Global;
use std::process::Abort;

const BASE: &str = "https://ex.org/a/base";

const OTHER: &str = "https://ex.org/s";

// The texts, each after a space.
fn joined(alloc: Global, texts: &[String]) -> Result<String, Fault> {
    let mut line = String::new(alloc);
    for text in texts {
        line.push(' ')?;
        line.push_str(text.as_str())?;
    }
    Ok(line)
}

fn uris(alloc: Global, base: &str, document: &str) -> Result<String, Fault> {
    joined(alloc, compiled(alloc, base, document)?.resource_uris())
}

fn references(alloc: Global, base: &str, document: &str) -> Result<String, Fault> {
    joined(alloc, compiled(alloc, base, document)?.references())
}

fn keeps_base(alloc: Global, base: &str, document: &str) -> Result<bool, Fault> {
    Ok(compiled(alloc, base, document)?.base() == base)
}

// A document under this base, the URIs of its resources, and its references.
struct Gathered {
    why: &'static str,
    base: &'static str,
    document: &'static str,
    uris: &'static str,
    references: &'static str,
}

const GATHERED: &[Gathered] = &[
    Gathered {
        why: "each `$id` and reference is resolved by its resource (Core 8.2.1, 8.2.3)",
        base: BASE,
        document: RESOURCES,
        uris: " https://ex.org/a/base https://ex.org/b/inner https://ex.org/b/deep",
        references: " https://ex.org/b/deep https://ex.org/a/base#y",
    },
    Gathered {
        why: "values of `const` and `enum` have no references (Validation 6.1.2, 6.1.3)",
        base: OTHER,
        document: DOCUMENT,
        uris: " https://ex.org/s https://ex.org/in/e",
        references: " https://ex.org/s#/$defs/f https://ex.org/in/e#n https://ex.org/in/e#d",
    },
    Gathered {
        why: "an empty schema is one resource, and refers to nothing",
        base: BASE,
        document: "{}",
        uris: " https://ex.org/a/base",
        references: "",
    },
];

fn expect_gathered(rt: &impl Abort, alloc: Global, row: &Gathered) {
    let (base, document) = (row.base, row.document);
    expect_holds(rt, keeps_base(alloc, base, document), row.why);
    let uris = uris(alloc, base, document);
    expect_told(rt, alloc, uris, row.uris, row.why);
    let references = references(alloc, base, document);
    expect_told(rt, alloc, references, row.references, row.why);
}

#[test]
fn uris_and_references_are_gathered(rt: HostRuntime) {
    for row in GATHERED {
        expect_gathered(&rt, rt.alloc(), row);
    }
}

const EMBEDDED_ROOT: &str =
    r##"https://ex.org/in/e# {"$anchor":"n","$id":"in/e","allOf":[{"type":"null"},{"$dynamicAnchor":"d","$ref":"#n"}]}"##;

// A document under this base, and the root of the resource with this URI; nothing where it opens none.
struct ResourceRoot {
    why: &'static str,
    base: &'static str,
    document: &'static str,
    uri: &'static str,
    wanted: &'static str,
}

const ROOTS: &[ResourceRoot] = &[
    ResourceRoot {
        why: "`deep` is resolved against `../b/inner#` around it (Core 8.2.1)",
        base: BASE,
        document: RESOURCES,
        uri: "https://ex.org/b/deep",
        wanted: r#"https://ex.org/b/deep# {"$anchor":"x","$id":"deep"}"#,
    },
    ResourceRoot {
        why: "`deep` is not resolved against the document's base (Core 8.2.1)",
        base: BASE,
        document: RESOURCES,
        uri: "https://ex.org/a/deep",
        wanted: "",
    },
    ResourceRoot {
        why: "an embedded resource's root is the schema with its `$id`",
        base: OTHER,
        document: DOCUMENT,
        uri: "https://ex.org/in/e",
        wanted: EMBEDDED_ROOT,
    },
    ResourceRoot {
        why: "an `$id` within `const` opens no resource (Validation 6.1.3)",
        base: OTHER,
        document: DOCUMENT,
        uri: "https://ex.org/no",
        wanted: "",
    },
    ResourceRoot {
        why: "without an `$id` the base is the root's URI (Core 9.1.1)",
        base: BASE,
        document: "{}",
        uri: BASE,
        wanted: "https://ex.org/a/base# {}",
    },
];

fn root(alloc: Global, base: &str, document: &str, uri: &str) -> Result<String, Fault> {
    let document = compiled(alloc, base, document)?;
    shown(alloc, document.resource_root(alloc, uri))
}

fn opens_as(
    alloc: Global,
    base: &str,
    document: &str,
    uri: &str,
    wanted: bool,
) -> Result<bool, Fault> {
    let document = compiled(alloc, base, document)?;
    Ok((document.resource_uri(uri) == Some(uri)) == wanted)
}

fn expect_root(rt: &impl Abort, alloc: Global, row: &ResourceRoot) {
    let (base, document, uri) = (row.base, row.document, row.uri);
    let is_there = !row.wanted.is_empty();
    let opens = opens_as(alloc, base, document, uri, is_there);
    expect_holds(rt, opens, row.why);
    let found = root(alloc, base, document, uri);
    expect_told(rt, alloc, found, row.wanted, row.why);
}

#[test]
fn roots_are_found_by_uri(rt: HostRuntime) {
    for row in ROOTS {
        expect_root(&rt, rt.alloc(), row);
    }
}

// A document under this base, a resource, a name, and what the name names there dynamically; nothing for no dynamic anchor.
struct DynamicAnchor {
    why: &'static str,
    base: &'static str,
    document: &'static str,
    uri: &'static str,
    name: &'static str,
    wanted: &'static str,
}

const DYNAMIC: &[DynamicAnchor] = &[
    DynamicAnchor {
        why: "the resource has a dynamic anchor of this name (Core 8.2.2)",
        base: OTHER,
        document: DOCUMENT,
        uri: "https://ex.org/in/e",
        name: "d",
        wanted: r##"https://ex.org/in/e#/allOf/1 {"$dynamicAnchor":"d","$ref":"#n"}"##,
    },
    DynamicAnchor {
        why: "a plain anchor is no dynamic one (Core 8.2.2)",
        base: OTHER,
        document: DOCUMENT,
        uri: "https://ex.org/in/e",
        name: "n",
        wanted: "",
    },
    DynamicAnchor {
        why: "the anchor is the embedded resource's, not that of the one around",
        base: OTHER,
        document: DOCUMENT,
        uri: OTHER,
        name: "d",
        wanted: "",
    },
    DynamicAnchor {
        why: "the anchor below `items` is the inner resource's (Core 8.2.2)",
        base: BASE,
        document: RESOURCES,
        uri: "https://ex.org/b/inner",
        name: "y",
        wanted: r#"https://ex.org/b/inner#/items {"$dynamicAnchor":"y","$ref":"deep"}"#,
    },
    DynamicAnchor {
        why: "the root's plain anchor `x` is no dynamic one (Core 8.2.2)",
        base: BASE,
        document: RESOURCES,
        uri: BASE,
        name: "x",
        wanted: "",
    },
    DynamicAnchor {
        why: "an empty schema has no anchor at all",
        base: BASE,
        document: "{}",
        uri: BASE,
        name: "x",
        wanted: "",
    },
];

fn anchored(
    alloc: Global,
    base: &str,
    document: &str,
    uri: &str,
    name: &str,
) -> Result<String, Fault> {
    let document = compiled(alloc, base, document)?;
    shown(alloc, document.dynamically_anchored(alloc, uri, name)?)
}

fn expect_anchored(rt: &impl Abort, alloc: Global, row: &DynamicAnchor) {
    let found = anchored(alloc, row.base, row.document, row.uri, row.name);
    expect_told(rt, alloc, found, row.wanted, row.why);
}

#[test]
fn dynamic_anchors_are_found_by_their_resource(rt: HostRuntime) {
    for row in DYNAMIC {
        expect_anchored(&rt, rt.alloc(), row);
    }
}
