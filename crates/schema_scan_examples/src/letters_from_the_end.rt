//! A letter that a pattern asks for at a place counted from the end: a search of more states than its table may keep.

use crate::expectations::expect_holds;
use patterns::{Fault, Pattern};
use std::alloc::Global;

// Whether the pattern matches where a text of 200 letters, cut behind any of them, has an `a` eleven letters before its
// end. Its table has a row for each order of the last eleven letters.
fn is_found_behind_each_letter(alloc: Global) -> Result<bool, Fault> {
    let pattern = Pattern::build(alloc, "^(a|b)*a(a|b){10}$")?;
    let mut text = String::new(alloc);
    let mut seed = 1_u32;
    let mut letters = 0_u32;
    for _ in 0..200 {
        seed = seed.wrapping_mul(1_103_515_245).wrapping_add(12_345);
        let is_a = seed & 0x1_0000 != 0;
        text.push(if is_a { 'a' } else { 'b' })?;
        letters = (letters << 1) & 0x7FF | is_a as u32;
        let eleventh = text.len() > 10 && letters & 0x400 != 0;
        if pattern.matches(alloc, text.as_str())? != eleventh {
            return Ok(false);
        }
    }
    Ok(true)
}

#[test]
fn a_table_that_grows_too_large_gives_way(rt: HostRuntime) {
    expect_holds(
        &rt,
        is_found_behind_each_letter(rt.alloc()),
        "a table that is cleared changes no answer",
    );
}
