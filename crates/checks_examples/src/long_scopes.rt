//! Dynamic references in resources with long URIs, which an evaluation numbers once it has compared them often.

use crate::documents::answer;
use crate::texts::{expect_holds, expect_same};
use checks::Fault;
use std::alloc::Global;

// A piece of a long URI.
const PIECE: &str =
    "uuuuuuuuuuuuuuuuuuuuuuuuuuuuuuuuuuuuuuuuuuuuuuuuuuuuuuuuuuuuuuuuuuuuuuuuuuuuuuuuuuuuuuuuuuuuuuuuuuuu";

// A URI of some 100,000 bytes.
fn long_uri(alloc: Global) -> Result<String, Fault> {
    let mut uri = String::from_str(alloc, "https://ex.org/")?;
    for _ in 0..1_000 {
        uri.push_str(PIECE)?;
    }
    Ok(uri)
}

// 300 rows of the three letters, and one more row.
fn rows(alloc: Global, last: &str) -> Result<String, Fault> {
    let mut rows = String::new(alloc);
    for _ in 0..300 {
        rows.push_str(r#"["a","b","c"],"#)?;
    }
    Ok(format!(in alloc; "[{rows}{last}]")?)
}

// A resource of the URI that ends with this letter, which its dynamic anchor asks for, and with this keyword.
fn resource(alloc: Global, uri: &str, letter: &str, keyword: &str) -> Result<String, Fault> {
    Ok(format!(in alloc;
        r#""{letter}":{{"$id":"{uri}{letter}",{keyword},"$defs":{{"n":{{"$dynamicAnchor":"n","const":"{letter}"}}}}}}"#
    )?)
}

// The answer to these rows of three resources: two have a dynamic reference to an anchor of their own, and the third refers to
// the first one, so that its own anchor is the outermost there (JSON Schema 2020-12 Core, 8.2.3.2).
fn answer_to(alloc: Global, uri: &str, last: &str) -> Result<String, Fault> {
    let dynamic = r##""$dynamicRef":"#n""##;
    let one = resource(alloc, uri, "a", dynamic)?;
    let two = resource(alloc, uri, "b", dynamic)?;
    let other = format!(in alloc; r#""$ref":"{uri}a""#)?;
    let three = resource(alloc, uri, "c", other.as_str())?;
    let schema = format!(in alloc;
        r#"{{"items":{{"prefixItems":[{{"$ref":"{uri}a"}},{{"$ref":"{uri}b"}},{{"$ref":"{uri}c"}}]}},"$defs":{{{one},{two},{three}}}}}"#
    )?;
    let documents = [("https://ex.org/m", schema.as_str())];
    let instance = rows(alloc, last)?;
    answer(alloc, &documents, "https://ex.org/m", instance.as_str())
}

// The answer where the last row's letter of this place isn't the one that is asked for: the units below its reference.
fn failing(alloc: Global, place: usize, below: &str) -> Result<String, Fault> {
    let row = "https://ex.org/m#/items";
    Ok(format!(in alloc;
        r#"{{"errors":[{{"absoluteKeywordLocation":"{row}","error":"items is not met","instanceLocation":"","keywordLocation":"/items"}},{{"absoluteKeywordLocation":"{row}/prefixItems","error":"prefixItems is not met","instanceLocation":"/300","keywordLocation":"/items/prefixItems"}},{{"absoluteKeywordLocation":"{row}/prefixItems/{place}/$ref","error":"$ref is not met","instanceLocation":"/300/{place}","keywordLocation":"/items/prefixItems/{place}/$ref"}}{below}],"valid":false}}"#
    )?)
}

// The unit of a keyword that isn't met, at this place of the last row.
fn unit(
    alloc: Global,
    place: usize,
    absolute: &str,
    keyword: &str,
    path: &str,
) -> Result<String, Fault> {
    Ok(format!(in alloc;
        r#",{{"absoluteKeywordLocation":"{absolute}/{keyword}","error":"{keyword} is not met","instanceLocation":"/300/{place}","keywordLocation":"/items/prefixItems/{place}/$ref{path}/{keyword}"}}"#
    )?)
}

fn answer_to_long(alloc: Global, last: &str) -> Result<String, Fault> {
    answer_to(alloc, long_uri(alloc)?.as_str(), last)
}

fn is_valid(alloc: Global, last: &str) -> Result<bool, Fault> {
    Ok(
        answer_to_long(alloc, last)?
            .as_str()
            .ends_with(r#""valid":true}"#),
    )
}

// The answer where the second letter isn't that of its own resource.
fn second_fails(alloc: Global) -> Result<String, Fault> {
    let uri = long_uri(alloc)?;
    let second = format!(in alloc; "{uri}b#")?;
    let anchor = format!(in alloc; "{uri}b#/$defs/n")?;
    let mut below = unit(alloc, 1, second.as_str(), "$dynamicRef", "")?;
    below.push_str(unit(alloc, 1, anchor.as_str(), "const", "/$dynamicRef")?.as_str())?;
    failing(alloc, 1, below.as_str())
}

// The answer where the third letter isn't that of its own resource, by way of the first one.
fn third_fails(alloc: Global) -> Result<String, Fault> {
    let uri = long_uri(alloc)?;
    let third = format!(in alloc; "{uri}c#")?;
    let anchor = format!(in alloc; "{uri}c#/$defs/n")?;
    let inner = format!(in alloc; "{uri}a#")?;
    let mut below = unit(alloc, 2, third.as_str(), "$ref", "")?;
    below.push_str(unit(alloc, 2, inner.as_str(), "$dynamicRef", "/$ref")?.as_str())?;
    below.push_str(unit(alloc, 2, anchor.as_str(), "const", "/$ref/$dynamicRef")?.as_str())?;
    failing(alloc, 2, below.as_str())
}

#[test]
fn the_outermost_resource_of_the_scope_is_asked(rt: HostRuntime) {
    let alloc = rt.alloc();
    expect_holds(
        &rt,
        is_valid(alloc, r#"["a"]"#),
        "each letter is the outermost anchor's (Core 8.2.3.2)",
    );
    let second = answer_to_long(alloc, r#"["a","a"]"#);
    expect_same(
        &rt,
        second,
        second_fails(alloc),
        "the second resource's own anchor asks for `b`",
    );
    let third = answer_to_long(alloc, r#"["a","b","a"]"#);
    expect_same(
        &rt,
        third,
        third_fails(alloc),
        "the third resource's anchor is outside the first one's, and asks for `c`",
    );
}
