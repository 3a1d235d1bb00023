//! Resources with long URIs, of several documents, whose texts an evaluation numbers once it has compared them often.

use crate::documents::answer;
use crate::texts::{expect_holds, expect_same};
use checks::Fault;
use std::alloc::Global;
use std::process::Abort;

// A piece of a long `$id`.
const PIECE: &str =
    "iiiiiiiiiiiiiiiiiiiiiiiiiiiiiiiiiiiiiiiiiiiiiiiiiiiiiiiiiiiiiiiiiiiiiiiiiiiiiiiiiiiiiiiiiiiiiiiiiiii";

// Three resources open one by the same `$id`, two of them in one document, and each asks for another letter.
const MAIN: &str =
    r##"{"items":{"prefixItems":[{"$ref":"a/one"},{"$ref":"b/two"},{"$ref":"b/c/"}]}}"##;

// An `$id` of 400,000 bytes.
fn long_identifier(alloc: Global) -> Result<String, Fault> {
    let mut id = String::new(alloc);
    for _ in 0..4_000 {
        id.push_str(PIECE)?;
    }
    Ok(id)
}

// 200 rows of the three letters, and one more row.
fn rows(alloc: Global, last: &str) -> Result<String, Fault> {
    let mut rows = String::new(alloc);
    for _ in 0..200 {
        rows.push_str(r#"["a","b","c"],"#)?;
    }
    Ok(format!(in alloc; "[{rows}{last}]")?)
}

// The answer to these rows.
fn answer_to(alloc: Global, id: &str, last: &str) -> Result<String, Fault> {
    let opens = format!(in alloc;
        r##""allOf":[{{"$id":"{id}","$ref":"#/$defs/p","$defs":{{"p":{{"pattern":"##
    )?;
    let one = format!(in alloc; r#"{{{opens}"a"}}}}}}]}}"#)?;
    let two = format!(in alloc;
        r#"{{{opens}"b"}}}}}}],"$defs":{{"o":{{"$id":"c/",{opens}"c"}}}}}}]}}}}}}"#
    )?;
    let documents = [
        ("https://ex.org/m", MAIN),
        ("https://ex.org/a/one", one.as_str()),
        ("https://ex.org/b/two", two.as_str()),
    ];
    let instance = rows(alloc, last)?;
    answer(alloc, &documents, "https://ex.org/m", instance.as_str())
}

// The answer where the last row's letter of this place isn't the one that its resource asks for: the URI of the resource around,
// and that of the long one.
fn failing(alloc: Global, place: usize, around: &str, opened: &str) -> Result<String, Fault> {
    let row = "https://ex.org/m#/items";
    let path = format!(in alloc; "/items/prefixItems/{place}/$ref")?;
    let above = format!(in alloc;
        r#"{{"errors":[{{"absoluteKeywordLocation":"{row}","error":"items is not met","instanceLocation":"","keywordLocation":"/items"}},{{"absoluteKeywordLocation":"{row}/prefixItems","error":"prefixItems is not met","instanceLocation":"/200","keywordLocation":"/items/prefixItems"}},{{"absoluteKeywordLocation":"https://ex.org/m#{path}","error":"$ref is not met""#
    )?;
    let at = format!(in alloc; r#""instanceLocation":"/200/{place}","keywordLocation":"{path}"#)?;
    Ok(format!(in alloc;
        r#"{above},{at}"}},{{"absoluteKeywordLocation":"{around}#/allOf","error":"allOf is not met",{at}/allOf"}},{{"absoluteKeywordLocation":"{opened}#/$ref","error":"$ref is not met",{at}/allOf/0/$ref"}},{{"absoluteKeywordLocation":"{opened}#/$defs/p/pattern","error":"pattern is not met",{at}/allOf/0/$ref/pattern"}}],"valid":false}}"#
    )?)
}

fn answer_to_long(alloc: Global, last: &str) -> Result<String, Fault> {
    answer_to(alloc, long_identifier(alloc)?.as_str(), last)
}

fn failing_long(alloc: Global, place: usize, around: &str, base: &str) -> Result<String, Fault> {
    let mut opened = String::from_str(alloc, base)?;
    opened.push_str(long_identifier(alloc)?.as_str())?;
    failing(alloc, place, around, opened.as_str())
}

// The last row, the place of the letter that fails, the URI of the resource around, and the base of the long one.
struct FailingLetter {
    why: &'static str,
    last: &'static str,
    place: usize,
    around: &'static str,
    base: &'static str,
}

const FAILING: &[FailingLetter] = &[
    FailingLetter {
        why: "the resource below `a/one` asks for `a` (Core 8.2.1)",
        last: r#"["b"]"#,
        place: 0,
        around: "https://ex.org/a/one",
        base: "https://ex.org/a/",
    },
    FailingLetter {
        why: "the resource below `b/two` asks for `b` (Core 8.2.1)",
        last: r#"["a","c"]"#,
        place: 1,
        around: "https://ex.org/b/two",
        base: "https://ex.org/b/",
    },
    FailingLetter {
        why: "the resource below `c/` within `b/two` asks for `c` (Core 8.2.1)",
        last: r#"["a","b","a"]"#,
        place: 2,
        around: "https://ex.org/b/c/",
        base: "https://ex.org/b/c/",
    },
];

fn expect_failing(rt: &impl Abort, alloc: Global, row: &FailingLetter) {
    let wanted = failing_long(alloc, row.place, row.around, row.base);
    expect_same(rt, answer_to_long(alloc, row.last), wanted, row.why);
}

fn is_valid(alloc: Global, last: &str) -> Result<bool, Fault> {
    Ok(
        answer_to_long(alloc, last)?
            .as_str()
            .ends_with(r#""valid":true}"#),
    )
}

#[test]
fn an_identifier_opens_the_resource_of_its_base(rt: HostRuntime) {
    expect_holds(
        &rt,
        is_valid(rt.alloc(), r#"["a"]"#),
        "each resource asks for its own letter, and gets it",
    );
    for row in FAILING {
        expect_failing(&rt, rt.alloc(), row);
    }
}
