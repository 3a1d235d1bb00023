//! What is found in a schema document that no rule forbids.

use crate::expectations::expect_told;
use json_doc::{Fault, read};
use schema_hints::{Anchor, Findings, Hint, look_over};
use std::alloc::Global;
use std::process::Abort;

fn found(alloc: Global, schema: &str) -> Result<Findings, Fault> {
    Ok(look_over(alloc, &read(alloc, schema.as_bytes())?, false)?)
}

// Why a schema has its warnings, the schema, and the warnings with `; ` between them.
const WARNINGS: &[(&str, &str, &str)] = &[
    (
        "two letters of a keyword are exchanged",
        r#"{"requried":["a"]}"#,
        "/requried: requried is no keyword; did you mean required?",
    ),
    (
        "a property's name is its own, and the names in its schema are looked at",
        r#"{"properties":{"requried":{"tpye":"string"}}}"#,
        "/properties/requried/tpye: tpye is no keyword; did you mean type?",
    ),
    (
        "a long name may be two edits away from a keyword's",
        r#"{"additionalPropertys":false}"#,
        "/additionalPropertys: additionalPropertys is no keyword; did you mean additionalProperties?",
    ),
    (
        "`ref` lacks its `$`, `x-` begins one's own names, and the others look like none",
        r#"{"ref":"a","x-type":1,"notes":1,"summary":2}"#,
        "/ref: ref is no keyword; did you mean $ref?",
    ),
    (
        "values of these keywords are no schemas (Validation, 6.1.2, 6.1.3, 9.2, 9.5)",
        r#"{"enum":[{"tpye":1}],"const":{"tpye":1},"default":{"tpye":1},"examples":[{"tpye":1}]}"#,
        "",
    ),
    (
        "the standard has each of these names (Core, 8.3; Validation, 9)",
        r#"{"$comment":"a","title":"b","description":"c","readOnly":true,"deprecated":false}"#,
        "",
    ),
    (
        "each element of `allOf` is a schema (Core, 10.2.1.1)",
        r#"{"allOf":[{},{"a/b":1,"formt":"date"}]}"#,
        "/allOf/1/formt: formt is no keyword; did you mean format?",
    ),
    (
        "`format` may annotate alone (Validation, 7.2.1)",
        r#"{"items":{"format":"date"}}"#,
        "/items/format: format annotates, and asserts nothing here",
    ),
    (
        "older drafts had each of these keywords, and they are told in byte order",
        r##"{"dependencies":{},"$recursiveRef":"#","id":"a"}"##,
        "/$recursiveRef: $recursiveRef is of an older draft, and not looked at; write $dynamicRef; /dependencies: dependencies is of an older draft, and not looked at; write dependentRequired or dependentSchemas; /id: id is of an older draft, and not looked at; write $id",
    ),
    ("the `id` of older drafts was a text", r#"{"id":7}"#, ""),
    (
        "nothing refers into `definitions`, and `~0` is a tilde (RFC 6901, 4)",
        r#"{"definitions":{"a~b":{"nto":{}}}}"#,
        "/definitions: definitions is $defs by now, and nothing here refers into it; /definitions/a~0b/nto: nto is no keyword; did you mean not?",
    ),
    (
        "what has an anchor may be referred to by it (Core, 8.2.2)",
        r#"{"definitions":{"a":{"$anchor":"a"}}}"#,
        "",
    ),
    (
        "what has an `$id` may be referred to by its URI (Core, 8.2.1)",
        r#"{"definitions":{"a":{"$id":"https://ex.org/a"}}}"#,
        "",
    ),
];

fn push_hint(alloc: Global, text: &mut String, hint: &Hint) -> Result<(), Fault> {
    if !text.is_empty() {
        text.push_str("; ")?;
    }
    text.push_str(&format!(in alloc; "{hint}")?)?;
    Ok(())
}

fn warnings(alloc: Global, schema: &str) -> Result<String, Fault> {
    let findings = found(alloc, schema)?;
    let mut text = String::new(alloc);
    for hint in &findings.hints {
        push_hint(alloc, &mut text, hint)?;
    }
    Ok(text)
}

fn expect_warnings(rt: &impl Abort, alloc: Global, row: &(&str, &str, &str)) {
    let (why, schema, wanted) = *row;
    expect_told(rt, alloc, warnings(alloc, schema), wanted, why);
}

#[test]
fn schemas_have_their_warnings(rt: HostRuntime) {
    for row in WARNINGS {
        expect_warnings(&rt, rt.alloc(), row);
    }
}

fn count_referred(alloc: Global) -> Result<usize, Fault> {
    let schema = read(alloc, br#"{"definitions":{"a":{}}}"#)?;
    Ok(look_over(alloc, &schema, true)?.hints.len())
}

#[test]
fn definitions_that_are_referred_to_are_passed_over(rt: HostRuntime) {
    assert_eq!(rt; count_referred(rt.alloc()), Ok(0));
}

fn push_anchor(alloc: Global, text: &mut String, anchor: &Anchor) -> Result<(), Fault> {
    let (location, name) = (&anchor.location, &anchor.name);
    let told = format!(in alloc; "{location} {name} {};", anchor.is_dynamic)?;
    text.push_str(&told)?;
    Ok(())
}

fn anchors(alloc: Global, schema: &str) -> Result<String, Fault> {
    let findings = found(alloc, schema)?;
    let mut text = String::new(alloc);
    for anchor in &findings.anchors {
        push_anchor(alloc, &mut text, anchor)?;
    }
    Ok(text)
}

const ANCHORED: &str =
    r#"{"$anchor":"top","$defs":{"a":{"$dynamicAnchor":"node"}},"const":{"$anchor":"b"}}"#;

#[test]
fn anchors_are_found(rt: HostRuntime) {
    let wanted = " top false;/$defs/a node true;";
    expect_told(
        &rt,
        rt.alloc(),
        anchors(rt.alloc(), ANCHORED),
        wanted,
        ANCHORED,
    );
}
