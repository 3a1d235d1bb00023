//! Long `enum`s that are applied so often that an evaluation sorts them.

use crate::texts::{URI, answer, expect_told};
use checks::Fault;
use std::alloc::Global;
use std::process::Abort;

// The numbers from one up to another, with commas between them.
fn numbers(alloc: Global, from: u32, to: u32) -> Result<String, Fault> {
    let mut text = format!(in alloc; "{from}")?;
    for number in from..to {
        let next = number + 1;
        text.push_str(format!(in alloc; ",{next}")?.as_str())?;
    }
    Ok(text)
}

// Two resources, each with a list of its own at the same pointer: the elements have to be in both.
fn listed_twice(alloc: Global) -> Result<String, Fault> {
    let first = numbers(alloc, 0, 1999)?;
    let second = numbers(alloc, 1, 2000)?;
    Ok(format!(in alloc;
        r#"{{"$defs":{{"a":{{"$id":"a","items":{{"enum":[{first}]}}}},"b":{{"$id":"b","items":{{"enum":[{second}]}}}}}},"allOf":[{{"$ref":"a"}},{{"$ref":"b"}}]}}"#
    )?)
}

const BOTH_HOLD: &str =
    r#"{"annotations":[{"absoluteKeywordLocation":"https://ex.org/a#/items","annotation":true,"instanceLocation":"","keywordLocation":"/allOf/0/$ref/items"},{"absoluteKeywordLocation":"https://ex.org/b#/items","annotation":true,"instanceLocation":"","keywordLocation":"/allOf/1/$ref/items"}],"valid":true}"#;

const NOT_IN_B: &str =
    r#"{"errors":[{"absoluteKeywordLocation":"https://ex.org/s#/allOf","error":"allOf is not met","instanceLocation":"","keywordLocation":"/allOf"},{"absoluteKeywordLocation":"https://ex.org/s#/allOf/1/$ref","error":"$ref is not met","instanceLocation":"","keywordLocation":"/allOf/1/$ref"},{"absoluteKeywordLocation":"https://ex.org/b#/items","error":"items is not met","instanceLocation":"","keywordLocation":"/allOf/1/$ref/items"},{"absoluteKeywordLocation":"https://ex.org/b#/items/enum","error":"enum is not met","instanceLocation":"/600","keywordLocation":"/allOf/1/$ref/items/enum"}],"valid":false}"#;

const NOT_IN_A: &str =
    r#"{"errors":[{"absoluteKeywordLocation":"https://ex.org/s#/allOf","error":"allOf is not met","instanceLocation":"","keywordLocation":"/allOf"},{"absoluteKeywordLocation":"https://ex.org/s#/allOf/0/$ref","error":"$ref is not met","instanceLocation":"","keywordLocation":"/allOf/0/$ref"},{"absoluteKeywordLocation":"https://ex.org/a#/items","error":"items is not met","instanceLocation":"","keywordLocation":"/allOf/0/$ref/items"},{"absoluteKeywordLocation":"https://ex.org/a#/items/enum","error":"enum is not met","instanceLocation":"/600","keywordLocation":"/allOf/0/$ref/items/enum"}],"valid":false}"#;

// Why, the last element, and the answer.
const ANSWERS: &[(&str, u32, &str)] = &[
    (
        "1 to 1,999 stand in the lists of both resources",
        1999,
        BOTH_HOLD,
    ),
    (
        "0 stands in the list of `a` alone (Validation 6.1.2)",
        0,
        NOT_IN_B,
    ),
    (
        "2,000 stands in the list of `b` alone (Validation 6.1.2)",
        2000,
        NOT_IN_A,
    ),
];

fn answer_to(alloc: Global, last: u32) -> Result<String, Fault> {
    let schema = listed_twice(alloc)?;
    let elements = numbers(alloc, 1, 600)?;
    let instance = format!(in alloc; "[{elements},{last}]")?;
    answer(alloc, URI, schema.as_str(), instance.as_str())
}

fn expect_last(rt: &impl Abort, alloc: Global, row: &(&str, u32, &str)) {
    let (why, last, wanted) = *row;
    expect_told(rt, alloc, answer_to(alloc, last), wanted, why);
}

#[test]
fn sorted_lists_are_those_of_their_schemas(rt: HostRuntime) {
    for row in ANSWERS {
        expect_last(&rt, rt.alloc(), row);
    }
}
