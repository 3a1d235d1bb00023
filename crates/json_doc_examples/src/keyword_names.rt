//! Names of members that are keywords' names, in what is read and in copies of it.

use crate::expectations::{expect_holds, expect_told};
use json_doc::{Doc, Fault, copy, read, same, write};
use keywords::Keyword;
use std::alloc::Global;
use std::process::Abort;

const NAMES: &str = r#"{"$id":"a","Type":2,"title":3,"type":"string","typed":5}"#;

// Why a name of `NAMES` is a keyword's or none's, the name, and the keyword.
const KEYWORDS: &[(&str, &str, Option<Keyword>)] = &[
    ("`$id` is a keyword (Core, 8.2.1)", "$id", Some(Keyword::Id)),
    (
        "names of keywords are told by the case of each letter",
        "Type",
        None,
    ),
    ("what annotates alone is no keyword here", "title", None),
    (
        "`type` is a keyword (Validation, 6.1.1)",
        "type",
        Some(Keyword::Type),
    ),
    (
        "a name that goes on from a keyword's is another",
        "typed",
        None,
    ),
];

// Whether the value has a member of this name, which says its keyword.
fn says_keyword(doc: &Doc, text: &str, keyword: Option<Keyword>) -> bool {
    let Some(members) = doc.as_dict() else {
        return false;
    };
    for (name, _) in members.iter().named() {
        if name.as_str() == text {
            return name.keyword() == keyword;
        }
    }
    false
}

// Whether the name says its keyword in the value, in a copy of it and in a copy of that.
fn copies_say_keyword(alloc: Global, text: &str, keyword: Option<Keyword>) -> Result<bool, Fault> {
    let doc = read(alloc, NAMES.as_bytes())?;
    let copied = copy(alloc, &doc)?;
    let again = copy(alloc, &copied)?;
    let are_said = says_keyword(&doc, text, keyword) && says_keyword(&copied, text, keyword);
    Ok(are_said && says_keyword(&again, text, keyword))
}

fn expect_keyword(rt: &impl Abort, alloc: Global, row: &(&str, &str, Option<Keyword>)) {
    let (why, text, keyword) = *row;
    expect_holds(rt, copies_say_keyword(alloc, text, keyword), why);
}

#[test]
fn names_say_their_keywords(rt: HostRuntime) {
    for row in KEYWORDS {
        expect_keyword(&rt, rt.alloc(), row);
    }
}

// Whether a copy of the value and a copy of that are the same.
fn are_copies_same(alloc: Global) -> Result<bool, Fault> {
    let doc = read(alloc, NAMES.as_bytes())?;
    let copied = copy(alloc, &doc)?;
    let again = copy(alloc, &copied)?;
    Ok(same(&copied, &doc) && same(&doc, &copied) && same(&again, &copied))
}

fn rewritten_copy(alloc: Global, text: &str) -> Result<String, Fault> {
    let doc = read(alloc, text.as_bytes())?;
    Ok(write(alloc, &copy(alloc, &doc)?)?)
}

#[test]
fn copies_have_the_same_names(rt: HostRuntime) {
    let alloc = rt.alloc();
    expect_holds(&rt, are_copies_same(alloc), "copies");
    expect_told(&rt, alloc, rewritten_copy(alloc, NAMES), NAMES, "a copy");
}

// Whether the value has a type and minItems, but no maxItems.
fn has_its_values(doc: &Doc) -> bool {
    let kind = doc.keyword_value(Keyword::Type);
    let least = doc.keyword_value(Keyword::MinItems);
    kind.is_some_and(|kind| kind.as_str() == Some("array"))
        && least.is_some_and(|least| matches!(least, Doc::Int(_)))
        && doc.keyword_value(Keyword::MaxItems).is_none()
}

// Why both keywords are found in an object, and the object.
const OBJECTS: &[(&str, &str)] = &[
    (
        "the first name is a keyword's, and so is the last",
        r#"{"minItems":1,"type":"array"}"#,
    ),
    (
        "names that have a keyword's within them are others, and a value is no name",
        r#"{"aminItems":0,"minItems":1,"minItemsa":2,"title":"type","type":"array"}"#,
    ),
    (
        "more members than are gone through one by one are searched by their order",
        r#"{"a":0,"b":0,"c":0,"d":0,"e":0,"f":0,"g":0,"h":0,"i":0,"j":0,"k":0,"l":0,"m":0,"minItems":1,"n":0,"o":0,"p":0,"type":"array"}"#,
    ),
];

// Whether each position gives the value that the search gives.
fn is_found_from_everywhere(doc: &Doc, keyword: Keyword) -> bool {
    let found = doc.keyword_value(keyword);
    (0..20).all(|position| match doc.keyword_value_near(keyword, position) {
        Some(near) => found.is_some_and(|found| same(near, found)),
        None => found.is_none(),
    })
}

fn are_found(doc: &Doc) -> bool {
    has_its_values(doc)
        && is_found_from_everywhere(doc, Keyword::Type)
        && is_found_from_everywhere(doc, Keyword::MinItems)
        && is_found_from_everywhere(doc, Keyword::MaxItems)
}

fn are_found_in_copies(alloc: Global, text: &str) -> Result<bool, Fault> {
    let doc = read(alloc, text.as_bytes())?;
    let copied = copy(alloc, &doc)?;
    Ok(are_found(&doc) && are_found(&copied))
}

fn expect_found(rt: &impl Abort, alloc: Global, row: &(&str, &str)) {
    let (why, text) = *row;
    expect_holds(rt, are_found_in_copies(alloc, text), why);
}

#[test]
fn keywords_values_are_found_from_everywhere(rt: HostRuntime) {
    for row in OBJECTS {
        expect_found(&rt, rt.alloc(), row);
    }
    assert!(rt; Doc::Null.keyword_value(Keyword::Type).is_none());
    assert!(rt; Doc::Null.keyword_value_near(Keyword::Type, 0).is_none());
}
