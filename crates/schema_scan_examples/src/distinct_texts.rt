//! Texts that are known to be there, found by their numbers: each of distinct ones, and one that stands twice.

use std::alloc::{AllocError, Global};
use std::process::Abort;
use text_numbers::TextNumbers;

// Why each text is told from the others, and the texts, each of which has its place as its number.
const DISTINCT: &[(&str, &[&str])] = &[
    ("there is no other text", &["a"]),
    ("the only byte is another one", &["a", "b"]),
    (
        "a text ends where a longer one goes on",
        &["", "a", "ab", "abc", "b"],
    ),
    (
        "a byte differs behind a common beginning, or the length does",
        &[
            "#/$defs/a",
            "#/$defs/b",
            "#/$defs/ab",
            "https://ex.org/a",
            "#a",
        ],
    ),
    (
        "the first byte parts them in two, and the second each half",
        &[
            "x0", "x1", "x2", "x3", "x4", "x5", "x6", "x7", "x8", "x9", "y0", "y1", "y2", "y3",
        ],
    ),
];

fn numbers_of(alloc: Global, texts: &[&str]) -> Result<TextNumbers, AllocError> {
    let mut owned = Vec::new(alloc);
    for text in texts {
        owned.push(String::from_str(alloc, text)?)?;
    }
    TextNumbers::of(alloc, &owned)
}

fn expect_numbers(rt: &impl Abort, numbers: &TextNumbers, why: &str, texts: &[&str]) {
    for (place, text) in texts.iter().enumerate() {
        assert_eq!(rt; numbers.number(text), place, "{why}");
        assert_eq!(rt; numbers.only_number(text), Some(place), "{why}");
    }
}

fn expect_distinct(rt: &impl Abort, alloc: Global, row: &(&str, &[&str])) {
    let (why, texts) = *row;
    match numbers_of(alloc, texts) {
        Ok(numbers) => expect_numbers(rt, &numbers, why, texts),
        Err(_) => panic!(rt; "no room"),
    }
}

#[test]
fn each_of_distinct_texts_has_its_place_as_its_number(rt: HostRuntime) {
    for row in DISTINCT {
        expect_distinct(&rt, rt.alloc(), row);
    }
}

fn expect_twice(rt: &impl Abort, numbers: &TextNumbers) {
    let first = numbers.number("a");
    assert!(rt; first == 0 || first == 2);
    assert_eq!(rt; numbers.only_number("a"), None);
    assert_eq!(rt; numbers.only_number("b"), Some(1));
    assert_eq!(rt; numbers.only_number("c"), Some(3));
}

#[test]
fn a_text_that_stands_twice_has_no_number_alone(rt: HostRuntime) {
    match numbers_of(rt.alloc(), &["a", "b", "a", "c"]) {
        Ok(numbers) => expect_twice(&rt, &numbers),
        Err(_) => panic!(rt; "no room"),
    }
}
