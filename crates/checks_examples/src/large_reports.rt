//! Reports of over a million bytes.

use crate::texts::{URI, answer, expect_holds};
use checks::Fault;
use std::alloc::Global;

// The number of elements, none of which is null.
const COUNT: u32 = 10_000;

const HEAD: &str =
    r#"{"errors":[{"absoluteKeywordLocation":"https://ex.org/s#/items","error":"items is not met","instanceLocation":"","keywordLocation":"/items"}"#;

const FIRST: &str =
    r#",{"absoluteKeywordLocation":"https://ex.org/s#/items/type","error":"type is not met","instanceLocation":"/0","keywordLocation":"/items/type"}"#;

const SECOND: &str =
    r#",{"absoluteKeywordLocation":"https://ex.org/s#/items/type","error":"type is not met","instanceLocation":"/1","keywordLocation":"/items/type"}"#;

const LAST: &str =
    r#",{"absoluteKeywordLocation":"https://ex.org/s#/items/type","error":"type is not met","instanceLocation":"/9999","keywordLocation":"/items/type"}],"valid":false}"#;

// The head has 140 bytes, the end 16; a unit and the comma before it have 140 bytes and the digits of the index. The ten
// indexes below 10 have one digit, 90 have two, 900 three and 9,000 four.
const LENGTH: usize = 140 + 10_000 * 140 + (10 + 90 * 2 + 900 * 3 + 9_000 * 4) + 16;

/// An array of so many zeros, of one at least.
pub fn zeros(alloc: Global, count: u32) -> Result<String, Fault> {
    let mut zeros = String::from_str(alloc, "[0")?;
    for _ in 1..count {
        zeros.push_str(",0")?;
    }
    zeros.push(']')?;
    Ok(zeros)
}

fn is_each_reported(alloc: Global) -> Result<bool, Fault> {
    let instance = zeros(alloc, COUNT)?;
    let text = answer(
        alloc,
        URI,
        r#"{"items":{"type":"null"}}"#,
        instance.as_str(),
    )?;
    let head = format!(in alloc; "{HEAD}{FIRST}{SECOND}")?;
    let begins_so = text.as_str().starts_with(head.as_str());
    Ok(text.len() == LENGTH && begins_so && text.as_str().ends_with(LAST))
}

#[test]
fn each_element_is_reported(rt: HostRuntime) {
    expect_holds(
        &rt,
        is_each_reported(rt.alloc()),
        "each of 10,000 elements that fail has its unit (OUTPUT.md)",
    );
}
