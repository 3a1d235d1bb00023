//! The schemas that pointers and anchors lead to.

use crate::documents::compiled;
use crate::expectations::expect_told;
use json_doc::write;
use locations::push_pointer;
use schema_scan::{Fault, Located};
use std::alloc::Global;
use std::process::Abort;
use uri_ref::fragment_kind;

/// The URI of the schema's resource, the pointer from its root, and the schema; nothing for no schema.
pub fn shown(alloc: Global, located: Option<Located<'_>>) -> Result<String, Fault> {
    let mut text = String::new(alloc);
    if let Some(located) = located {
        text.push_str(located.resource)?;
        text.push('#')?;
        push_pointer(&mut text, &located.steps)?;
        text.push(' ')?;
        text.push_str(write(alloc, located.schema)?.as_str())?;
    }
    Ok(text)
}

const BASE: &str = "https://ex.org/a/base";

/// A document under `https://ex.org/a/base` with two embedded resources.
pub const RESOURCES: &str = r##"{
    "$defs": {
        "inner": {
            "$id": "../b/inner#",
            "$defs": {"deep": {"$id": "deep", "$anchor": "x"}},
            "items": {"$dynamicAnchor": "y", "$ref": "deep"}
        }
    },
    "allOf": [true, {"$anchor": "x", "$dynamicRef": "#y"}],
    "const": {"$ref": "not/one", "$anchor": "z"},
    "enum": [{"$ref": "not/one"}]
}"##;

// Why, a document, a fragment, and what it leads to from the root of the document; nothing for no schema.
const TARGETS: &[(&str, &str, &str, &str)] = &[
    (
        "the value of `not` is a schema (Core 10.2.1.4)",
        r#"{"not":true}"#,
        "/not",
        "https://ex.org/a/base#/not true",
    ),
    (
        "the value of `items` is a schema (Core 10.3.1.2)",
        r#"{"items":true}"#,
        "/items",
        "https://ex.org/a/base#/items true",
    ),
    (
        "`~1` in a pointer is a `/` of the name (RFC 6901, 4)",
        r#"{"$defs":{"a/b":true}}"#,
        "/$defs/a~1b",
        "https://ex.org/a/base#/$defs/a~1b true",
    ),
    (
        "each element of `allOf` is a schema (Core 10.2.1.1)",
        r#"{"allOf":[false,true]}"#,
        "/allOf/1",
        "https://ex.org/a/base#/allOf/1 true",
    ),
    (
        "the first element of a list has the index 0 (RFC 6901, 4)",
        r#"{"allOf":[false,true]}"#,
        "/allOf/0",
        "https://ex.org/a/base#/allOf/0 false",
    ),
    (
        "a pointer leads on below an element of `allOf`",
        r#"{"allOf":[false,{"if":true}]}"#,
        "/allOf/1/if",
        "https://ex.org/a/base#/allOf/1/if true",
    ),
    (
        "the value of `const` is no schema (Validation 6.1.3)",
        r#"{"const":true}"#,
        "/const",
        "",
    ),
    (
        "a name that is no keyword holds no schema",
        r#"{"x":true}"#,
        "/x",
        "",
    ),
    (
        "`$defs` holds schemas and is none (Core 8.2.4)",
        r#"{"$defs":{"a":true}}"#,
        "/$defs",
        "",
    ),
    (
        "no member of `$defs` has this name",
        r#"{"$defs":{"a":true}}"#,
        "/$defs/b",
        "",
    ),
    (
        "a boolean schema has no schema below it (Core 4.3.2)",
        r#"{"$defs":{"a":true}}"#,
        "/$defs/a/not",
        "",
    ),
    (
        "nothing stands two steps below a boolean schema, either (Core 4.3.2)",
        r#"{"$defs":{"a/b":true}}"#,
        "/$defs/a~1b/c/d",
        "",
    ),
    (
        "`allOf` holds schemas and is none (Core 10.2.1.1)",
        r#"{"allOf":[true,true]}"#,
        "/allOf",
        "",
    ),
    (
        "a list of two has no index 2",
        r#"{"allOf":[true,true]}"#,
        "/allOf/2",
        "",
    ),
    (
        "an index has no zero before it (RFC 6901, 4)",
        r#"{"allOf":[true,true]}"#,
        "/allOf/01",
        "",
    ),
    (
        "an index has no sign (RFC 6901, 4)",
        r#"{"allOf":[true,true]}"#,
        "/allOf/+1",
        "",
    ),
    (
        "the element is a boolean schema, and has no `if`",
        r#"{"allOf":[false,true]}"#,
        "/allOf/1/if",
        "",
    ),
    (
        "the schema at the pointer's end opens a resource of its own (Core 8.2.1)",
        r#"{"$defs":{"d":{"$id":"c#"}}}"#,
        "/$defs/d",
        r##"https://ex.org/a/c# {"$id":"c#"}"##,
    ),
    (
        "an empty fragment is the root of the resource",
        "{}",
        "",
        "https://ex.org/a/base# {}",
    ),
    (
        "the root's anchor, not the embedded resource's of one name (Core 8.2.2)",
        RESOURCES,
        "x",
        r##"https://ex.org/a/base#/allOf/1 {"$anchor":"x","$dynamicRef":"#y"}"##,
    ),
    (
        "an anchor within `const` is a value, and names nothing",
        RESOURCES,
        "z",
        "",
    ),
];

fn pointed(alloc: Global, document: &str, fragment: &str) -> Result<String, Fault> {
    let document = compiled(alloc, BASE, document)?;
    let kind = fragment_kind(alloc, Some(fragment))?;
    shown(alloc, document.target(alloc, BASE, &kind)?)
}

fn expect_target(rt: &impl Abort, alloc: Global, row: &(&str, &str, &str, &str)) {
    let (why, document, fragment, wanted) = *row;
    expect_told(rt, alloc, pointed(alloc, document, fragment), wanted, why);
}

#[test]
fn fragments_lead_to_schemas(rt: HostRuntime) {
    for row in TARGETS {
        expect_target(&rt, rt.alloc(), row);
    }
}
