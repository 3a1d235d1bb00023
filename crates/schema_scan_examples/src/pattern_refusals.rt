//! Patterns that are not built: those that the grammar does not read, and those that are too big.

use patterns::{Fault, Pattern};
use std::alloc::Global;
use std::process::Abort;

// Why, a pattern, and whether it is built.
const PATTERNS: &[(&str, &str, bool)] = &[
    (
        "look-around is no part of the grammar (PROFILE.md)",
        "(?=a)",
        false,
    ),
    (
        "back-references are no part of the grammar (PROFILE.md)",
        r"(a)\1",
        false,
    ),
    ("a group that is opened has to be closed", "(", false),
    ("`)` closes no group", "a)", false),
    ("a class that is opened has to be closed", "[a", false),
    ("a repetition has something before it to repeat", "*", false),
    ("an escape has a character behind it", r"\", false),
    ("the least count is not above the greatest", "a{2,1}", false),
    (
        "a billion copies take more than 16 MiB (LIMITS.md)",
        "a{1000000000}",
        false,
    ),
    (
        "1,170 copies of some 14,200 bytes stay within 16 MiB (LIMITS.md)",
        r"\w{1170}",
        true,
    ),
    (
        "1,181 copies of some 14,200 bytes exceed 16 MiB (LIMITS.md)",
        r"\w{1181}",
        false,
    ),
];

fn expect_build(rt: &impl Abort, alloc: Global, row: &(&str, &str, bool)) {
    let (why, source, is_built) = *row;
    match Pattern::build(alloc, source) {
        Ok(_) => assert!(rt; is_built, "{why}"),
        Err(fault) => assert!(rt; !is_built && fault == Fault::BadPattern, "{why}"),
    }
}

#[test]
fn what_is_no_pattern_or_too_big_is_refused(rt: HostRuntime) {
    for row in PATTERNS {
        expect_build(&rt, rt.alloc(), row);
    }
}
