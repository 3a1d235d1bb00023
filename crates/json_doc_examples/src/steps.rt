//! Equality of steps, by their tokens; and ways through a value.

use crate::expectations::expect_holds;
use json_doc::{Fault, read, same};
use keywords::Keyword;
use locations::{Step, follow, own, same_steps, steps_after};
use std::alloc::Global;

#[test]
fn compares_tokens(rt: HostRuntime) {
    let named = [Step::Name("items"), Step::Name("10")];
    let indexed = [Step::Name("items"), Step::Index(10)];
    let other = [Step::Name("items"), Step::Index(1)];
    assert!(rt; same_steps(&named, &indexed));
    assert!(rt; same_steps(&indexed, &named));
    assert!(rt; !same_steps(&indexed, &other));
    assert!(rt; !same_steps(&named, &named[..1]));
}

#[test]
fn keywords_are_their_names(rt: HostRuntime) {
    let named = [Step::Name("items"), Step::Name("not")];
    let steps = [Step::Keyword(Keyword::Items), Step::Keyword(Keyword::Not)];
    assert!(rt; same_steps(&steps, &named) && same_steps(&named, &steps));
    assert!(rt; same_steps(&steps, &steps) && !same_steps(&steps[..1], &steps[1..]));
    assert!(rt; !same_steps(&steps[..1], &[Step::Index(1)]));
}

// Whether the way of these steps, once it is kept, leads to this value and from there to none, and has those steps after
// the first one, and none after more than there are.
fn leads(
    alloc: Global,
    text: &[u8],
    steps: &[Step<'_>],
    after: &[Step<'_>],
    value: &[u8],
) -> Result<bool, Fault> {
    let doc = read(alloc, text)?;
    let wanted = read(alloc, value)?;
    let way = own(alloc, steps)?;
    let left = steps_after(alloc, &way, 1)?;
    let none = steps_after(alloc, &way, 4)?;
    let is_found = follow(&way, &doc).is_some_and(|found| same(found, &wanted));
    Ok(is_found && same_steps(&left, after) && none.is_empty() && follow(&way, &wanted).is_none())
}

const BY_NAMES: &[Step<'static>] = &[Step::Name("a"), Step::Name("b"), Step::Index(1)];

const BY_KEYWORDS: &[Step<'static>] = &[Step::Keyword(Keyword::Items), Step::Keyword(Keyword::Not)];

#[test]
fn ways_are_kept_and_followed(rt: HostRuntime) {
    let alloc = rt.alloc();
    let text = br#"{"a":{"b":[1,{"c":2}]}}"#;
    let after = [Step::Name("b"), Step::Index(1)];
    let by_names = leads(alloc, text, BY_NAMES, &after, br#"{"c":2}"#);
    expect_holds(&rt, by_names, "by names and an index");
    let text = br#"{"items":{"not":true}}"#;
    let by_keywords = leads(alloc, text, BY_KEYWORDS, &[Step::Name("not")], b"true");
    expect_holds(&rt, by_keywords, "by keywords");
}
