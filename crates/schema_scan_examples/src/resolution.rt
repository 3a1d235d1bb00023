//! The parts of a text, the examples of RFC 3986, section 5.4, base forms, and parts that are an identifier's.

use crate::expectations::{expect_holds, expect_told};
use std::alloc::Global;
use std::process::Abort;
use uri_ref::{
    Fault, base_form, is_identifier, opened_uri, recompose, resolve, resolved_uri, split,
};

const BASE: &str = "http://a/b/c/d;p?q";

// Why, by the sections of RFC 3986, a base, a reference, and what it is resolved to.
const REFERENCES: &[(&str, &str, &str, &str)] = &[
    (
        "a reference with a scheme of its own takes nothing over (5.2.2)",
        BASE,
        "g:h",
        "g:h",
    ),
    (
        "a name comes in place of the last segment (5.2.3)",
        BASE,
        "g",
        "http://a/b/c/g",
    ),
    (
        "a `.` segment at the front goes (5.2.4)",
        BASE,
        "./g",
        "http://a/b/c/g",
    ),
    ("a slash at the end stays", BASE, "g/", "http://a/b/c/g/"),
    (
        "an absolute path comes in place of the whole path (5.2.2)",
        BASE,
        "/g",
        "http://a/g",
    ),
    (
        "beside an authority of its own only the scheme is taken over (5.2.2)",
        BASE,
        "//g",
        "http://g",
    ),
    (
        "a query alone keeps the base's path (5.2.2)",
        BASE,
        "?y",
        "http://a/b/c/d;p?y",
    ),
    (
        "a path comes without the base's query, with its own (5.2.2)",
        BASE,
        "g?y",
        "http://a/b/c/g?y",
    ),
    (
        "a fragment alone keeps the base's path and query (5.2.2)",
        BASE,
        "#s",
        "http://a/b/c/d;p?q#s",
    ),
    (
        "a path comes without the base's query, with its own fragment (5.2.2)",
        BASE,
        "g#s",
        "http://a/b/c/g#s",
    ),
    (
        "query and fragment are both the reference's (5.2.2)",
        BASE,
        "g?y#s",
        "http://a/b/c/g?y#s",
    ),
    (
        "`;x` is a segment like any other (3.3)",
        BASE,
        ";x",
        "http://a/b/c/;x",
    ),
    (
        "`;x` is a part of the segment `g;x` (3.3)",
        BASE,
        "g;x",
        "http://a/b/c/g;x",
    ),
    (
        "a segment with `;x`, a query and a fragment are the reference's (5.2.2)",
        BASE,
        "g;x?y#s",
        "http://a/b/c/g;x?y#s",
    ),
    (
        "an empty reference is the base without its fragment (5.2.2)",
        BASE,
        "",
        "http://a/b/c/d;p?q",
    ),
    (
        "`.` is all up to the last slash (5.2.4)",
        BASE,
        ".",
        "http://a/b/c/",
    ),
    (
        "`./` is all up to the last slash, too (5.2.4)",
        BASE,
        "./",
        "http://a/b/c/",
    ),
    (
        "`..` takes one segment more (5.2.4)",
        BASE,
        "..",
        "http://a/b/",
    ),
    (
        "`../` takes one segment more, too (5.2.4)",
        BASE,
        "../",
        "http://a/b/",
    ),
    (
        "a name behind `../` stands one level up (5.2.4)",
        BASE,
        "../g",
        "http://a/b/g",
    ),
    (
        "each of two `..` takes a segment (5.2.4)",
        BASE,
        "../..",
        "http://a/",
    ),
    (
        "each of two `..` takes a segment, before a slash, too (5.2.4)",
        BASE,
        "../../",
        "http://a/",
    ),
    (
        "a name behind two `../` stands two levels up (5.2.4)",
        BASE,
        "../../g",
        "http://a/g",
    ),
    (
        "at the root a `..` takes nothing (5.4.2)",
        BASE,
        "../../../g",
        "http://a/g",
    ),
    (
        "at the root each further `..` takes nothing (5.4.2)",
        BASE,
        "../../../../g",
        "http://a/g",
    ),
    (
        "a `.` segment goes from an absolute path (5.4.2)",
        BASE,
        "/./g",
        "http://a/g",
    ),
    (
        "a `..` segment at the front of an absolute path takes nothing (5.4.2)",
        BASE,
        "/../g",
        "http://a/g",
    ),
    (
        "a dot behind a name is a part of it (5.4.2)",
        BASE,
        "g.",
        "http://a/b/c/g.",
    ),
    (
        "a dot before a name is a part of it (5.4.2)",
        BASE,
        ".g",
        "http://a/b/c/.g",
    ),
    (
        "two dots behind a name are a part of it (5.4.2)",
        BASE,
        "g..",
        "http://a/b/c/g..",
    ),
    (
        "two dots before a name are a part of it (5.4.2)",
        BASE,
        "..g",
        "http://a/b/c/..g",
    ),
    (
        "`.` goes, and then `..` takes a segment (5.4.2)",
        BASE,
        "./../g",
        "http://a/b/g",
    ),
    (
        "a `.` at the end leaves the slash before it (5.4.2)",
        BASE,
        "./g/.",
        "http://a/b/c/g/",
    ),
    (
        "a `.` between two segments goes (5.4.2)",
        BASE,
        "g/./h",
        "http://a/b/c/g/h",
    ),
    (
        "a `..` takes the segment before it (5.4.2)",
        BASE,
        "g/../h",
        "http://a/b/c/h",
    ),
    (
        "a `.` goes also behind a segment with `;x=1` (5.4.2)",
        BASE,
        "g;x=1/./y",
        "http://a/b/c/g;x=1/y",
    ),
    (
        "a `..` takes a segment with `;x=1` as a whole (5.4.2)",
        BASE,
        "g;x=1/../y",
        "http://a/b/c/y",
    ),
    (
        "a `.` in a query is no segment (5.4.2)",
        BASE,
        "g?y/./x",
        "http://a/b/c/g?y/./x",
    ),
    (
        "a `..` in a query is no segment (5.4.2)",
        BASE,
        "g?y/../x",
        "http://a/b/c/g?y/../x",
    ),
    (
        "a `.` in a fragment is no segment (5.4.2)",
        BASE,
        "g#s/./x",
        "http://a/b/c/g#s/./x",
    ),
    (
        "a `..` in a fragment is no segment (5.4.2)",
        BASE,
        "g#s/../x",
        "http://a/b/c/g#s/../x",
    ),
    (
        "a scheme counts, also one that is the base's (5.4.2, strict)",
        BASE,
        "http:g",
        "http:g",
    ),
    (
        "without a slash the whole path of the base goes (5.2.3)",
        "urn:x:y",
        "b",
        "urn:b",
    ),
];

fn resolved(alloc: Global, base: &str, reference: &str) -> Result<String, Fault> {
    let resolved = resolve(alloc, &split(base), &split(reference))?;
    Ok(recompose(alloc, &resolved.parts())?)
}

fn resolved_text(alloc: Global, base: &str, reference: &str) -> Result<String, Fault> {
    Ok(resolved_uri(alloc, base, reference)?)
}

fn expect_resolved(rt: &impl Abort, alloc: Global, row: &(&str, &str, &str, &str)) {
    let (why, base, reference, wanted) = *row;
    expect_told(rt, alloc, resolved(alloc, base, reference), wanted, why);
    expect_told(
        rt,
        alloc,
        resolved_text(alloc, base, reference),
        wanted,
        why,
    );
}

#[test]
fn references_are_resolved(rt: HostRuntime) {
    for row in REFERENCES {
        expect_resolved(&rt, rt.alloc(), row);
    }
}

// Why, a base, an `$id`, and the resource that it opens.
const OPENED: &[(&str, &str, &str, &str)] = &[
    (
        "an `$id` is resolved against the base around it (Core 8.2.1)",
        "https://ex.org/a/s",
        "t",
        "https://ex.org/a/t",
    ),
    (
        "an empty fragment is dropped (Core 8.2.1)",
        "https://ex.org/a/s",
        "https://ex.org/b#",
        "https://ex.org/b",
    ),
    (
        "an `$id` that is an empty fragment opens the base itself",
        "https://ex.org/a/s",
        "#",
        "https://ex.org/a/s",
    ),
    (
        "without a slash the whole path of the base goes (RFC 3986, 5.2.3)",
        "urn:x:y",
        "b",
        "urn:b",
    ),
];

fn opened(alloc: Global, base: &str, id: &str) -> Result<String, Fault> {
    Ok(opened_uri(alloc, base, id)?)
}

fn expect_opened(rt: &impl Abort, alloc: Global, row: &(&str, &str, &str, &str)) {
    let (why, base, id, wanted) = *row;
    expect_told(rt, alloc, opened(alloc, base, id), wanted, why);
}

#[test]
fn identifiers_open_resources(rt: HostRuntime) {
    for row in OPENED {
        expect_opened(&rt, rt.alloc(), row);
    }
}

// Why, a URI, and its base form or the fault.
const BASE_FORMS: &[(&str, &str, &str)] = &[
    (
        "dot segments go, and the query stays (RFC 3986, 5.2.4)",
        "https://ex.org/x/../s?q",
        "https://ex.org/s?q",
    ),
    (
        "a path without slashes or dots stays as it is",
        "urn:schemareg:root",
        "urn:schemareg:root",
    ),
    (
        "a URI has no fragment, also no empty one (PROFILE.md)",
        "https://ex.org/a#",
        "25 BadUri",
    ),
    ("a URI has a scheme (PROFILE.md)", "s", "25 BadUri"),
    (
        "an empty text has no scheme, either (PROFILE.md)",
        "",
        "25 BadUri",
    ),
    (
        "without `/.` the path begins with `//`, without an authority (PROFILE.md)",
        "x:/.//a",
        "25 BadUri",
    ),
    (
        "without `/b/..` the path begins with `//`, without an authority (PROFILE.md)",
        "x:/b/..//a",
        "25 BadUri",
    ),
];

fn expect_base_form(rt: &impl Abort, alloc: Global, row: &(&str, &str, &str)) {
    let (why, uri, wanted) = *row;
    expect_told(rt, alloc, base_form(alloc, uri), wanted, why);
}

#[test]
fn uris_have_base_forms(rt: HostRuntime) {
    for row in BASE_FORMS {
        expect_base_form(&rt, rt.alloc(), row);
    }
}

// Why, a text, and whether its parts are an identifier's.
const IDENTIFIERS: &[(&str, &str, bool)] = &[
    (
        "a scheme, no fragment and no dot segment identify",
        "https://ex.org/a?b",
        true,
    ),
    ("an identifier may lack an authority", "urn:x:y", true),
    ("a `.` segment is not resolved yet", "http://a/./b", false),
    (
        "an empty fragment is a fragment, behind a short path, too",
        "http://a/b#",
        false,
    ),
    ("a path alone has no scheme", "a", false),
    (
        "a name that could be a scheme is none without a colon",
        "s",
        false,
    ),
    (
        "an empty fragment is a fragment",
        "https://ex.org/a#",
        false,
    ),
    (
        "a `..` segment is not resolved yet",
        "https://ex.org/x/../a",
        false,
    ),
];

fn expect_identifier(rt: &impl Abort, row: &(&str, &str, bool)) {
    let (why, text, is_one) = *row;
    assert_eq!(rt; is_identifier(&split(text)), is_one, "{why}");
}

fn moves_to_no_identifier(alloc: Global) -> Result<bool, Fault> {
    let moved = resolve(alloc, &split("x:/b"), &split("/.//a"))?;
    Ok(!is_identifier(&moved.parts()))
}

#[test]
fn parts_that_identify(rt: HostRuntime) {
    for row in IDENTIFIERS {
        expect_identifier(&rt, row);
    }
    expect_holds(
        &rt,
        moves_to_no_identifier(rt.alloc()),
        "without its dots the path begins with `//`, and no authority is before it",
    );
}

#[test]
fn parts_of_a_text(rt: HostRuntime) {
    let parts = split("foo://example.com:8042/over/there?name=ferret#nose");
    assert!(rt; parts.scheme() == Some("foo"));
    assert!(rt; parts.authority() == Some("example.com:8042"));
    assert!(rt; parts.path() == "/over/there");
    assert!(rt; parts.query() == Some("name=ferret"));
    assert!(rt; parts.fragment() == Some("nose"));
}
