//! Long patterns that are searched for again, which an evaluation holds.

use crate::texts::{URI, answer, expect_told};
use checks::Fault;
use std::alloc::Global;

// The beginning of each pattern and of each text: with it a pattern is long.
const BEGINNING: &str =
    "abcdefghijklmnopqrstuvwxyzabcdefghijklmnopqrstuvwxyzabcdefghijklmnopqrstuvwxyz";

// So many schemas, each of a pattern that matches the text of its number alone.
fn patterns(alloc: Global, count: usize) -> Result<String, Fault> {
    let mut schemas = String::new(alloc);
    for number in 0..count {
        let schema = format!(in alloc; r#",{{"pattern":"^{BEGINNING}-{number}$"}}"#)?;
        schemas.push_str(schema.as_str())?;
    }
    Ok(schemas)
}

// The texts of as many numbers, of which the first is this one.
fn texts(alloc: Global, first: usize, count: usize) -> Result<String, Fault> {
    let mut texts = format!(in alloc; r#","{BEGINNING}-{first}""#)?;
    for number in 1..count {
        texts.push_str(format!(in alloc; r#","{BEGINNING}-{number}""#)?.as_str())?;
    }
    Ok(texts)
}

// The answer to 130 texts and once more as many, of which the first is that of this number, by 130 patterns in two turns.
fn two_turns(alloc: Global, first: usize) -> Result<String, Fault> {
    let turn = patterns(alloc, 130)?;
    let schema = format!(in alloc; r#"{{"prefixItems":[true{turn}{turn}]}}"#)?;
    let texts_of_their_own = texts(alloc, 0, 130)?;
    let others = texts(alloc, first, 130)?;
    let instance = format!(in alloc; "[0{texts_of_their_own}{others}]")?;
    answer(alloc, URI, schema.as_str(), instance.as_str())
}

const ALL_MATCH: &str =
    r##"{"annotations":[{"absoluteKeywordLocation":"https://ex.org/s#/prefixItems","annotation":true,"instanceLocation":"","keywordLocation":"/prefixItems"}],"valid":true}"##;

const FIRST_FAILS: &str =
    r##"{"errors":[{"absoluteKeywordLocation":"https://ex.org/s#/prefixItems","error":"prefixItems is not met","instanceLocation":"","keywordLocation":"/prefixItems"},{"absoluteKeywordLocation":"https://ex.org/s#/prefixItems/131/pattern","error":"pattern is not met","instanceLocation":"/131","keywordLocation":"/prefixItems/131/pattern"}],"valid":false}"##;

#[test]
fn long_patterns_are_searched_for_again(rt: HostRuntime) {
    let alloc = rt.alloc();
    expect_told(
        &rt,
        alloc,
        two_turns(alloc, 0),
        ALL_MATCH,
        "in the second turn each pattern matches its own text again",
    );
    expect_told(
        &rt,
        alloc,
        two_turns(alloc, 64),
        FIRST_FAILS,
        "in the second turn the first pattern asks for 0, not for 64",
    );
}
