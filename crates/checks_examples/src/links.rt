//! What links reach, and what they refuse.

use crate::documents::{SEVEN, compiled, listed};
use crate::texts::{expect_holds, expect_told};
use linker::{Both, Fault, ListSource, Source, asked, link, reached, value_of};
use std::alloc::Global;
use std::process::Abort;

// `a` refers to `b`, and `b` to `a`; `c` refers to `a`, and nothing refers to `c`.
const THREE: &[(&str, &str)] = &[
    ("https://ex.org/c", r#"{"$ref":"a"}"#),
    (
        "https://ex.org/b",
        r##"{"$defs":{"d":{"$ref":"a#/$defs/e"}}}"##,
    ),
    (
        "https://ex.org/a",
        r##"{"$ref":"b","$defs":{"e":{"$id":"inner"}}}"##,
    ),
];

// The least reference without a target is named.
const MISSING: &[(&str, &str)] = &[
    (
        "https://ex.org/a",
        r##"{"$defs":{"d":{"$ref":"z"},"e":{"$ref":"b"}}}"##,
    ),
    ("https://ex.org/b", r##"{"$ref":"a#/$defs/f"}"##),
];

// A document with two references, alone, with the document that one names, and with both.
const ONE_OF_THREE: &[(&str, &str)] = &[(
    "https://ex.org/s",
    r#"{"$defs":{"u":{"$ref":"q"},"v":{"$ref":"p"}}}"#,
)];

const TWO_OF_THREE: &[(&str, &str)] = &[
    (
        "https://ex.org/s",
        r#"{"$defs":{"u":{"$ref":"q"},"v":{"$ref":"p"}}}"#,
    ),
    ("https://ex.org/p", "{}"),
];

const ALL_THREE: &[(&str, &str)] = &[
    (
        "https://ex.org/s",
        r#"{"$defs":{"u":{"$ref":"q"},"v":{"$ref":"p"}}}"#,
    ),
    ("https://ex.org/p", "{}"),
    ("https://ex.org/q", "{}"),
];

// Why, documents, the URI that is linked, and the URI with the canonical URIs that are reached, or the fault.
type Row = (
    &'static str,
    &'static [(&'static str, &'static str)],
    &'static str,
    &'static str,
);

const ALL_SEVEN_AND_THE_FIRST: &str =
    "https://ex.org/m https://ex.org/d0 https://ex.org/d1 https://ex.org/d2 https://ex.org/d3 https://ex.org/d4 https://ex.org/d5 https://ex.org/d6 https://ex.org/m";

const LINKS: &[Row] = &[
    (
        "there is no document, so none has the URI (PROFILE.md)",
        &[],
        "https://ex.org/a",
        "14 NotFound",
    ),
    (
        "`b` and `a` refer to each other, and neither to `c`",
        THREE,
        "https://ex.org/b",
        "https://ex.org/b https://ex.org/a https://ex.org/b",
    ),
    (
        "an embedded resource reaches its whole document, and what that refers to",
        THREE,
        "https://ex.org/inner",
        "https://ex.org/inner https://ex.org/a https://ex.org/b",
    ),
    (
        "no document of the three has the URI (PROFILE.md)",
        THREE,
        "https://ex.org/d",
        "14 NotFound",
    ),
    (
        "of two references that lead nowhere the lesser is told (PROFILE.md)",
        MISSING,
        "https://ex.org/a",
        "15 Unresolved https://ex.org/a#/$defs/f",
    ),
    (
        "both references lead nowhere, and the lesser is told (PROFILE.md)",
        ONE_OF_THREE,
        "https://ex.org/s",
        "15 Unresolved https://ex.org/p",
    ),
    (
        "the other reference is left without its document (PROFILE.md)",
        TWO_OF_THREE,
        "https://ex.org/s",
        "15 Unresolved https://ex.org/q",
    ),
    (
        "each reference reaches its document, in byte order (DECISIONS.md)",
        ALL_THREE,
        "https://ex.org/s",
        "https://ex.org/s https://ex.org/p https://ex.org/q https://ex.org/s",
    ),
    (
        "the first document refers to a resource in each of the seven",
        SEVEN,
        "https://ex.org/m",
        ALL_SEVEN_AND_THE_FIRST,
    ),
    (
        "an embedded resource reaches its own document, which refers to no other",
        SEVEN,
        "https://ex.org/e6",
        "https://ex.org/e6 https://ex.org/d6",
    ),
    (
        "no document of the seven embeds it (PROFILE.md)",
        SEVEN,
        "https://ex.org/e7",
        "14 NotFound",
    ),
];

fn linked<S: Source>(alloc: Global, source: &mut S, uri: &str) -> Result<String, Fault> {
    let linked = link(alloc, source, uri)?;
    let mut text = String::from_str(alloc, asked(&linked))?;
    for uri in &reached(alloc, &linked)? {
        text.push(' ')?;
        text.push_str(uri)?;
    }
    Ok(text)
}

fn links(alloc: Global, documents: &[(&str, &str)], uri: &str) -> Result<String, Fault> {
    let mut source = listed(alloc, documents)?;
    linked(alloc, &mut source, uri)
}

fn expect_links(rt: &impl Abort, alloc: Global, row: &Row) {
    let (why, documents, uri, wanted) = *row;
    expect_told(rt, alloc, links(alloc, documents, uri), wanted, why);
}

#[test]
fn links_what_is_reached(rt: HostRuntime) {
    for row in LINKS {
        expect_links(&rt, rt.alloc(), row);
    }
}

// Whether what `a` reaches has the value of `b`, and neither that of `c` nor that of an embedded resource.
fn has_value_of_its_canonical_uri(alloc: Global) -> Result<bool, Fault> {
    let mut source = listed(alloc, THREE)?;
    let linked = link(alloc, &mut source, "https://ex.org/a")?;
    let is_there = value_of(&linked, "https://ex.org/b").is_some();
    let is_unreached = value_of(&linked, "https://ex.org/c").is_none();
    let is_embedded = value_of(&linked, "https://ex.org/inner").is_none();
    Ok(is_there && is_unreached && is_embedded)
}

#[test]
fn values_have_canonical_uris(rt: HostRuntime) {
    expect_holds(
        &rt,
        has_value_of_its_canonical_uri(rt.alloc()),
        "values are those of reached documents, by their canonical URIs",
    );
}

// Why, a document that is added to the three, and whether it is: none of its resources may be held already.
const ADDED: &[(&str, &str, &str, bool)] = &[
    (
        "one of the three has this URI already",
        "https://ex.org/a",
        "{}",
        false,
    ),
    (
        "one of the three embeds `inner` already",
        "https://ex.org/d",
        r#"{"$defs":{"d":{"$id":"inner"}}}"#,
        false,
    ),
    (
        "none of the three holds `d`",
        "https://ex.org/d",
        "{}",
        true,
    ),
    (
        "`d` is held since the row before",
        "https://ex.org/d",
        "{}",
        false,
    ),
];

fn is_added_as(
    alloc: Global,
    source: &mut ListSource,
    row: &(&str, &str, &str, bool),
) -> Result<bool, Fault> {
    let (_, base, text, wanted) = *row;
    Ok(source.add(compiled(alloc, base, text)?)? == wanted)
}

fn expect_added(
    rt: &impl Abort,
    alloc: Global,
    source: &mut ListSource,
    rows: &[(&str, &str, &str, bool)],
) {
    for row in rows {
        expect_holds(rt, is_added_as(alloc, source, row), row.0);
    }
}

fn has_d_alone(alloc: Global, source: &mut ListSource) -> Result<bool, Fault> {
    let is_held = source.holding(alloc, "https://ex.org/d")?.is_some();
    let is_refused = source.holding(alloc, "https://ex.org/t")?.is_none();
    Ok(is_held && is_refused)
}

fn expect_added_to_three(rt: &impl Abort, alloc: Global, source: &mut ListSource) {
    expect_added(rt, alloc, source, ADDED);
    expect_holds(rt, has_d_alone(alloc, source), "`d` was added, and no `t`");
}

#[test]
fn a_list_holds_each_resource_once(rt: HostRuntime) {
    match listed(rt.alloc(), THREE) {
        Ok(mut source) => expect_added_to_three(&rt, rt.alloc(), &mut source),
        Err(fault) => panic!(rt; "{fault}"),
    }
}

// The same columns, of the seven.
const ADDED_TO_SEVEN: &[(&str, &str, &str, bool)] = &[
    (
        "the first of the seven embeds `e0` already",
        "https://ex.org/d",
        r#"{"$defs":{"d":{"$id":"e0"}}}"#,
        false,
    ),
    (
        "the last of the seven embeds `e6` already",
        "https://ex.org/d",
        r#"{"$defs":{"d":{"$id":"e6"}}}"#,
        false,
    ),
    (
        "the sixth of the seven embeds `e5` already",
        "https://ex.org/e5",
        "{}",
        false,
    ),
    (
        "none of the seven holds `d` or `e7`",
        "https://ex.org/d",
        r#"{"$defs":{"d":{"$id":"e7"}}}"#,
        true,
    ),
    (
        "`e7` is held since the row before",
        "https://ex.org/e7",
        "{}",
        false,
    ),
];

#[test]
fn a_long_list_holds_each_resource_once(rt: HostRuntime) {
    match listed(rt.alloc(), SEVEN) {
        Ok(mut source) => expect_added(&rt, rt.alloc(), &mut source, ADDED_TO_SEVEN),
        Err(fault) => panic!(rt; "{fault}"),
    }
}

fn both_links(alloc: Global) -> Result<String, Fault> {
    let first = listed(alloc, THREE)?;
    let mut both = Both::new(&first, ListSource::new(alloc));
    linked(alloc, &mut both, "https://ex.org/b")
}

fn is_in_neither(alloc: Global) -> Result<bool, Fault> {
    let first = listed(alloc, THREE)?;
    let mut both = Both::new(&first, ListSource::new(alloc));
    linked(alloc, &mut both, "https://ex.org/b")?;
    Ok(both.holding(alloc, "https://ex.org/d")?.is_none())
}

#[test]
fn two_sources_are_linked_as_one(rt: HostRuntime) {
    let wanted = "https://ex.org/b https://ex.org/a https://ex.org/b";
    expect_told(
        &rt,
        rt.alloc(),
        both_links(rt.alloc()),
        wanted,
        "an empty source beside the three changes nothing",
    );
    expect_holds(
        &rt,
        is_in_neither(rt.alloc()),
        "`d` is in neither of the two sources",
    );
}
