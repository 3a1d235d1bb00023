//! What keywords look at, their names, and how they annotate.

use crate::texts::expect_holds;
use applicators::{Evaluated, Subject, annotate, distinct_names};
use basic_output::Says;
use json_doc::{Doc, Fault, Name, read};
use keywords::Keyword;
use std::alloc::{AllocError, Global};

fn is_array(alloc: Global) -> Result<bool, Fault> {
    let doc = read(alloc, b"[null,true]")?;
    let array = Subject::Value(&doc);
    Ok(array.elements().len() == 2 && array.is_array() && array.as_str().is_none())
}

fn is_object(alloc: Global) -> Result<bool, Fault> {
    let doc = read(alloc, br#"{"a":null}"#)?;
    let object = Subject::Value(&doc);
    let has_members = object.is_object() && object.members().is_some();
    Ok(has_members && object.get("a").is_some() && object.get("b").is_none())
}

fn is_string(name: Subject<'_>) -> bool {
    name.as_str() == Some("a")
        && name.members().is_none()
        && name.get("a").is_none()
        && name.elements().is_empty()
        && !name.is_array()
        && !name.is_object()
}

fn is_name_a_string(alloc: Global) -> Result<bool, Fault> {
    let doc = read(alloc, br#"{"a":null}"#)?;
    Ok(match first_name(&doc) {
        Some(name) => is_string(Subject::Name(name)),
        None => false,
    })
}

#[test]
fn subjects_are_strings_arrays_or_objects(rt: HostRuntime) {
    expect_holds(&rt, is_array(rt.alloc()), "an array has elements alone");
    expect_holds(&rt, is_object(rt.alloc()), "an object has members alone");
    expect_holds(
        &rt,
        is_name_a_string(rt.alloc()),
        "a name is judged as a string (Core 10.3.2.4)",
    );
}

fn first_name(doc: &Doc) -> Option<Name<'_>> {
    let mut members = doc.as_dict()?.iter().named();
    match members.next() {
        Some((name, _)) => Some(name),
        None => None,
    }
}

#[test]
fn keywords_have_their_names(rt: HostRuntime) {
    assert!(rt; Keyword::Ref.name() == "$ref");
    assert!(rt; Keyword::UnevaluatedProperties.name() == "unevaluatedProperties");
}

fn names_b_and_a(alloc: Global) -> Result<bool, Fault> {
    let objects = read(alloc, br#"[{"b":0},{"a":0},{"b":0}]"#)?;
    let names = names_of(alloc, &objects)?;
    let doc = read(alloc, b"{}")?;
    let distinct = distinct_names(alloc, &names)?;
    let evaluated = Evaluated {
        names: &distinct,
        indexes: &[],
    };
    let keyword = Keyword::PatternProperties;
    Ok(
        match annotate(keyword, Subject::Value(&doc), 3, evaluated) {
            Some(Says::Names([first, second])) => first.as_str() == "b" && second.as_str() == "a",
            _ => false,
        },
    )
}

#[test]
fn pattern_properties_names_each_member_once(rt: HostRuntime) {
    expect_holds(
        &rt,
        names_b_and_a(rt.alloc()),
        "a name that two patterns match is annotated once",
    );
}

// The first name of each of the objects.
fn names_of<'a>(alloc: Global, objects: &'a Doc) -> Result<Vec<Name<'a>>, AllocError> {
    let mut names = Vec::new(alloc);
    if let Doc::List(objects) = objects {
        for object in objects {
            if let Some(name) = first_name(object) {
                names.push(name)?;
            }
        }
    }
    Ok(names)
}

fn says_largest_index(alloc: Global) -> Result<bool, Fault> {
    let doc = read(alloc, b"[null,null,null]")?;
    let evaluated = Evaluated {
        names: &[],
        indexes: &[0, 1],
    };
    let keyword = Keyword::PrefixItems;
    Ok(
        match annotate(keyword, Subject::Value(&doc), 2, evaluated) {
            Some(Says::Index(index)) => index == 1,
            _ => false,
        },
    )
}

#[test]
fn prefix_items_annotates_with_the_largest_index(rt: HostRuntime) {
    expect_holds(
        &rt,
        says_largest_index(rt.alloc()),
        "the annotation is the largest index (Core 10.3.1.1)",
    );
}
