//! Texts of over a million bytes.

use crate::expectations::expect_holds;
use json_doc::{Doc, Fault, read, same, write};
use std::alloc::Global;

fn list(alloc: Global) -> Result<Doc, Fault> {
    let mut items = Vec::new(alloc);
    for _ in 0..160_000 {
        items.push(Doc::string(alloc, "a\"b")?)?;
    }
    Ok(Doc::List(items))
}

// Each element has six bytes and is followed by a comma or the last bracket; the first bracket stands before all.
fn is_list(text: &str) -> bool {
    text.len() == 160_000 * 7 + 1
        && text.starts_with(r#"["a\"b","a\"b","#)
        && text.ends_with(r#","a\"b","a\"b"]"#)
}

fn is_written_and_read_back(alloc: Global) -> Result<bool, Fault> {
    let doc = list(alloc)?;
    let text = write(alloc, &doc)?;
    let again = read(alloc, text.as_bytes())?;
    Ok(is_list(text.as_str()) && same(&again, &doc))
}

#[test]
fn a_large_value_is_written_and_read_back(rt: HostRuntime) {
    expect_holds(&rt, is_written_and_read_back(rt.alloc()), "160,000 texts");
}
