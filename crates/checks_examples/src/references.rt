//! References that are followed again, and what they name then.

use crate::documents::listed;
use crate::texts::{URI, answer, expect_holds, expect_same, expect_told};
use keyword_plans::DynamicScope;
use linker::{Fault, Linked, link};
use std::alloc::{AllocError, Global};
use std::process::Abort;

// Eighteen references, each of which names the schema of one number: all of them in turn, and then all of them again.
const ROUNDS: &str =
    r##"{"$defs":{"0":{"const":0},"1":{"const":1},"2":{"const":2},"3":{"const":3},"4":{"const":4},"5":{"const":5},"6":{"const":6},"7":{"const":7},"8":{"const":8},"9":{"const":9},"10":{"const":10},"11":{"const":11},"12":{"const":12},"13":{"const":13},"14":{"const":14},"15":{"const":15},"16":{"const":16},"17":{"const":17}},"prefixItems":[{"$ref":"#/$defs/0"},{"$ref":"#/$defs/1"},{"$ref":"#/$defs/2"},{"$ref":"#/$defs/3"},{"$ref":"#/$defs/4"},{"$ref":"#/$defs/5"},{"$ref":"#/$defs/6"},{"$ref":"#/$defs/7"},{"$ref":"#/$defs/8"},{"$ref":"#/$defs/9"},{"$ref":"#/$defs/10"},{"$ref":"#/$defs/11"},{"$ref":"#/$defs/12"},{"$ref":"#/$defs/13"},{"$ref":"#/$defs/14"},{"$ref":"#/$defs/15"},{"$ref":"#/$defs/16"},{"$ref":"#/$defs/17"},{"$ref":"#/$defs/0"},{"$ref":"#/$defs/1"},{"$ref":"#/$defs/2"},{"$ref":"#/$defs/3"},{"$ref":"#/$defs/4"},{"$ref":"#/$defs/5"},{"$ref":"#/$defs/6"},{"$ref":"#/$defs/7"},{"$ref":"#/$defs/8"},{"$ref":"#/$defs/9"},{"$ref":"#/$defs/10"},{"$ref":"#/$defs/11"},{"$ref":"#/$defs/12"},{"$ref":"#/$defs/13"},{"$ref":"#/$defs/14"},{"$ref":"#/$defs/15"},{"$ref":"#/$defs/16"},{"$ref":"#/$defs/17"}]}"##;

// The same, each of them twice before the next.
const PAIRS: &str =
    r##"{"$defs":{"0":{"const":0},"1":{"const":1},"2":{"const":2},"3":{"const":3},"4":{"const":4},"5":{"const":5},"6":{"const":6},"7":{"const":7},"8":{"const":8},"9":{"const":9},"10":{"const":10},"11":{"const":11},"12":{"const":12},"13":{"const":13},"14":{"const":14},"15":{"const":15},"16":{"const":16},"17":{"const":17}},"prefixItems":[{"$ref":"#/$defs/0"},{"$ref":"#/$defs/0"},{"$ref":"#/$defs/1"},{"$ref":"#/$defs/1"},{"$ref":"#/$defs/2"},{"$ref":"#/$defs/2"},{"$ref":"#/$defs/3"},{"$ref":"#/$defs/3"},{"$ref":"#/$defs/4"},{"$ref":"#/$defs/4"},{"$ref":"#/$defs/5"},{"$ref":"#/$defs/5"},{"$ref":"#/$defs/6"},{"$ref":"#/$defs/6"},{"$ref":"#/$defs/7"},{"$ref":"#/$defs/7"},{"$ref":"#/$defs/8"},{"$ref":"#/$defs/8"},{"$ref":"#/$defs/9"},{"$ref":"#/$defs/9"},{"$ref":"#/$defs/10"},{"$ref":"#/$defs/10"},{"$ref":"#/$defs/11"},{"$ref":"#/$defs/11"},{"$ref":"#/$defs/12"},{"$ref":"#/$defs/12"},{"$ref":"#/$defs/13"},{"$ref":"#/$defs/13"},{"$ref":"#/$defs/14"},{"$ref":"#/$defs/14"},{"$ref":"#/$defs/15"},{"$ref":"#/$defs/15"},{"$ref":"#/$defs/16"},{"$ref":"#/$defs/16"},{"$ref":"#/$defs/17"},{"$ref":"#/$defs/17"}]}"##;

// One text that names a schema of its own in each of two resources.
const SAME_TEXT: &str =
    r##"{"$defs":{"x":{"type":"string"},"e":{"$id":"e","$defs":{"x":{"type":"integer"}},"$ref":"#/$defs/x"}},"prefixItems":[{"$ref":"#/$defs/x"},{"$ref":"#/$defs/e"},{"$ref":"#/$defs/x"},{"$ref":"e"}]}"##;

const TWO_TURNS: &str =
    "[0,1,2,3,4,5,6,7,8,9,10,11,12,13,14,15,16,17,0,1,2,3,4,5,6,7,8,9,10,11,12,13,14,15,16,17]";

const ALL_HOLD: &str =
    r#"{"annotations":[{"absoluteKeywordLocation":"https://ex.org/s#/prefixItems","annotation":true,"instanceLocation":"","keywordLocation":"/prefixItems"}],"valid":true}"#;

const TWO_TURNS_BUT_ONE: &str =
    "[0,1,2,3,4,5,6,7,8,9,10,11,12,13,14,15,16,17,0,1,1,3,4,5,6,7,8,9,10,11,12,13,14,15,16,17]";

const THIRD_FAILS: &str =
    r#"{"errors":[{"absoluteKeywordLocation":"https://ex.org/s#/prefixItems","error":"prefixItems is not met","instanceLocation":"","keywordLocation":"/prefixItems"},{"absoluteKeywordLocation":"https://ex.org/s#/prefixItems/20/$ref","error":"$ref is not met","instanceLocation":"/20","keywordLocation":"/prefixItems/20/$ref"},{"absoluteKeywordLocation":"https://ex.org/s#/$defs/2/const","error":"const is not met","instanceLocation":"/20","keywordLocation":"/prefixItems/20/$ref/const"}],"valid":false}"#;

const IN_PAIRS: &str =
    "[0,0,1,1,2,2,3,3,4,4,5,5,6,6,7,7,8,8,9,9,10,10,11,11,12,12,13,13,14,14,15,15,16,16,17,17]";

const IN_PAIRS_BUT_ONE: &str =
    "[0,0,1,1,2,2,3,3,4,4,5,5,6,6,7,7,8,8,9,9,10,10,11,11,12,12,13,13,14,14,15,15,16,16,17,16]";

const LAST_FAILS: &str =
    r#"{"errors":[{"absoluteKeywordLocation":"https://ex.org/s#/prefixItems","error":"prefixItems is not met","instanceLocation":"","keywordLocation":"/prefixItems"},{"absoluteKeywordLocation":"https://ex.org/s#/prefixItems/35/$ref","error":"$ref is not met","instanceLocation":"/35","keywordLocation":"/prefixItems/35/$ref"},{"absoluteKeywordLocation":"https://ex.org/s#/$defs/17/const","error":"const is not met","instanceLocation":"/35","keywordLocation":"/prefixItems/35/$ref/const"}],"valid":false}"#;

const BOTH_RESOURCES_FAIL: &str =
    r#"{"errors":[{"absoluteKeywordLocation":"https://ex.org/s#/prefixItems","error":"prefixItems is not met","instanceLocation":"","keywordLocation":"/prefixItems"},{"absoluteKeywordLocation":"https://ex.org/s#/prefixItems/1/$ref","error":"$ref is not met","instanceLocation":"/1","keywordLocation":"/prefixItems/1/$ref"},{"absoluteKeywordLocation":"https://ex.org/e#/$ref","error":"$ref is not met","instanceLocation":"/1","keywordLocation":"/prefixItems/1/$ref/$ref"},{"absoluteKeywordLocation":"https://ex.org/e#/$defs/x/type","error":"type is not met","instanceLocation":"/1","keywordLocation":"/prefixItems/1/$ref/$ref/type"},{"absoluteKeywordLocation":"https://ex.org/s#/prefixItems/2/$ref","error":"$ref is not met","instanceLocation":"/2","keywordLocation":"/prefixItems/2/$ref"},{"absoluteKeywordLocation":"https://ex.org/s#/$defs/x/type","error":"type is not met","instanceLocation":"/2","keywordLocation":"/prefixItems/2/$ref/type"}],"valid":false}"#;

// Why, a schema, an instance, and the answer.
const ANSWERS: &[(&str, &str, &str, &str)] = &[
    (
        "in the second turn each reference names the number of the first",
        ROUNDS,
        TWO_TURNS,
        ALL_HOLD,
    ),
    (
        "in the second turn `#/$defs/2` asks for 2, not for 1",
        ROUNDS,
        TWO_TURNS_BUT_ONE,
        THIRD_FAILS,
    ),
    (
        "each reference names the same number right again",
        PAIRS,
        IN_PAIRS,
        ALL_HOLD,
    ),
    (
        "the last reference asks for 17 again, not for 16",
        PAIRS,
        IN_PAIRS_BUT_ONE,
        LAST_FAILS,
    ),
    (
        "`#/$defs/x` names a schema of its own in each resource (Core 8.2.3.1)",
        SAME_TEXT,
        r#"["a",1,"b",2]"#,
        ALL_HOLD,
    ),
    (
        "the embedded resource asks for an integer, the root for a string",
        SAME_TEXT,
        r#"["a","b",1,2]"#,
        BOTH_RESOURCES_FAIL,
    ),
];

fn expect_answer(rt: &impl Abort, alloc: Global, row: &(&str, &str, &str, &str)) {
    let (why, schema, instance, wanted) = *row;
    expect_told(rt, alloc, answer(alloc, URI, schema, instance), wanted, why);
}

#[test]
fn references_name_the_same_again(rt: HostRuntime) {
    for row in ANSWERS {
        expect_answer(&rt, rt.alloc(), row);
    }
}

// A schema of so many references, each of which names the schema of one number, whose name begins so: all of them in turn, and
// then all of them again; and an instance that has these numbers, in the second turn with this one in place of the first.
fn turns(
    alloc: Global,
    name: &str,
    count: usize,
    first: usize,
) -> Result<(String, String), AllocError> {
    let mut schema = String::from_str(alloc, r#"{"$defs":{"x":true"#)?;
    push_definitions(alloc, &mut schema, name, count)?;
    schema.push_str(r##"},"prefixItems":[{"$ref":"#/$defs/x"}"##)?;
    let mut instance = String::from_str(alloc, "[0")?;
    push_turn(alloc, &mut schema, &mut instance, name, count, 0)?;
    push_turn(alloc, &mut schema, &mut instance, name, count, first)?;
    schema.push_str("]}")?;
    instance.push_str("]")?;
    Ok((schema, instance))
}

fn push_definitions(
    alloc: Global,
    schema: &mut String,
    name: &str,
    count: usize,
) -> Result<(), AllocError> {
    for number in 0..count {
        let member = format!(in alloc; r#","{name}{number}":{{"const":{number}}}"#)?;
        schema.push_str(member.as_str())?;
    }
    Ok(())
}

fn push_turn(
    alloc: Global,
    schema: &mut String,
    instance: &mut String,
    name: &str,
    count: usize,
    first: usize,
) -> Result<(), AllocError> {
    for number in 0..count {
        let element = format!(in alloc; r##",{{"$ref":"#/$defs/{name}{number}"}}"##)?;
        schema.push_str(element.as_str())?;
        let given = if number == 0 { first } else { number };
        instance.push_str(format!(in alloc; ",{given}")?.as_str())?;
    }
    Ok(())
}

// Short names, and names with which no reference is short.
const NAMES: &[&str] = &[
    "",
    "a_name_of_more_than_a_hundred_and_twenty_eight_bytes_which_begins_as_all_the_others_do_and_ends_with_a_number_of_its_own_that_comes_here_",
];

// Up to the name of the schema that fails, and from its number on.
const FIRST_FAILS: &str =
    r##"{"errors":[{"absoluteKeywordLocation":"https://ex.org/s#/prefixItems","error":"prefixItems is not met","instanceLocation":"","keywordLocation":"/prefixItems"},{"absoluteKeywordLocation":"https://ex.org/s#/prefixItems/131/$ref","error":"$ref is not met","instanceLocation":"/131","keywordLocation":"/prefixItems/131/$ref"},{"absoluteKeywordLocation":"https://ex.org/s#/$defs/"##;

const FAILING_NUMBER: &str =
    r##"0/const","error":"const is not met","instanceLocation":"/131","keywordLocation":"/prefixItems/131/$ref/const"}],"valid":false}"##;

fn turns_answer(alloc: Global, name: &str, first: usize) -> Result<String, Fault> {
    let (schema, instance) = turns(alloc, name, 130, first)?;
    answer(alloc, URI, schema.as_str(), instance.as_str())
}

fn first_fails(alloc: Global, name: &str) -> Result<String, Fault> {
    Ok(format!(in alloc; "{FIRST_FAILS}{name}{FAILING_NUMBER}")?)
}

fn expect_turns(rt: &impl Abort, alloc: Global, name: &str) {
    expect_told(
        rt,
        alloc,
        turns_answer(alloc, name, 0),
        ALL_HOLD,
        "in the second turn each reference names the number of the first",
    );
    expect_same(
        rt,
        turns_answer(alloc, name, 64),
        first_fails(alloc, name),
        "in the second turn the first reference asks for 0, not for 64",
    );
}

#[test]
fn many_references_name_their_own(rt: HostRuntime) {
    for name in NAMES {
        expect_turns(&rt, rt.alloc(), name);
    }
}

// Why, the URI of a resource, the text of a reference in it, and the resource and the number of steps of what it names.
type Named = (
    &'static str,
    &'static str,
    &'static str,
    Option<(&'static str, usize)>,
);

const NAMED: &[Named] = &[
    (
        "the root's `x` is two steps below the root",
        URI,
        "#/$defs/x",
        Some((URI, 2)),
    ),
    (
        "the same text names the embedded resource's `x` (Core 8.2.3.1)",
        "https://ex.org/e",
        "#/$defs/x",
        Some(("https://ex.org/e", 2)),
    ),
    (
        "a pointer leads to the root of the embedded resource (Core 9.2.1)",
        URI,
        "#/$defs/e",
        Some(("https://ex.org/e", 0)),
    ),
    (
        "a relative reference names the resource by its URI (Core 8.2.3.1)",
        URI,
        "e",
        Some(("https://ex.org/e", 0)),
    ),
];

// Whether the reference names what stands so many steps below the root of this resource, or nothing.
fn names<'a>(
    alloc: Global,
    scope: &mut DynamicScope<'a>,
    resource: &'a str,
    reference: &'a str,
    named: Option<(&str, usize)>,
) -> Result<bool, Fault> {
    match scope.target(alloc, resource, reference)? {
        Some(target) => match named {
            Some((uri, steps)) => {
                let origin = &target.origin;
                Ok(origin.resource() == uri && origin.steps().len() == steps)
            }
            None => Ok(false),
        },
        None => Ok(named.is_none()),
    }
}

fn expect_named(rt: &impl Abort, alloc: Global, scope: &mut DynamicScope<'_>) {
    for row in NAMED {
        let (why, resource, reference, named) = *row;
        let is_named = names(alloc, scope, resource, reference, named);
        expect_holds(rt, is_named, why);
    }
}

// Each is followed, and once more.
fn expect_followed(rt: &impl Abort, alloc: Global, linked: &Linked) {
    let mut scope = DynamicScope::new(alloc, linked);
    expect_named(rt, alloc, &mut scope);
    expect_named(rt, alloc, &mut scope);
}

fn linked(alloc: Global) -> Result<Linked, Fault> {
    let mut source = listed(alloc, &[(URI, SAME_TEXT)])?;
    link(alloc, &mut source, URI)
}

#[test]
fn references_are_followed_in_their_resources(rt: HostRuntime) {
    match linked(rt.alloc()) {
        Ok(linked) => expect_followed(&rt, rt.alloc(), &linked),
        Err(fault) => panic!(rt; "{fault}"),
    }
}
