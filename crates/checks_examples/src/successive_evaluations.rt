//! Evaluations one after the other in the same memory: none depends on those before it.

use crate::documents::listed;
use crate::texts::{expect_holds, expect_told};
use evaluator::{EvaluationMemory, Evaluator, Fault, Report, evaluate, evaluate_with};
use json_doc::{Doc, read};
use linker::{Linked, link};
use std::alloc::Global;
use std::process::Abort;

const ITEM: &[(&str, &str)] = &[
    (
        "https://ex.org/item",
        r#"{"properties":{"name":{"type":"string"},"size":{"$ref":"size"}},"required":["name"]}"#,
    ),
    (
        "https://ex.org/size",
        r#"{"properties":{"width":{"minimum":1}}}"#,
    ),
];

const UNMET: &str =
    r##"{"errors":[{"absoluteKeywordLocation":"https://ex.org/item#/properties","error":"properties is not met","instanceLocation":"","keywordLocation":"/properties"},{"absoluteKeywordLocation":"https://ex.org/item#/properties/size/$ref","error":"$ref is not met","instanceLocation":"/size","keywordLocation":"/properties/size/$ref"},{"absoluteKeywordLocation":"https://ex.org/size#/properties","error":"properties is not met","instanceLocation":"/size","keywordLocation":"/properties/size/$ref/properties"},{"absoluteKeywordLocation":"https://ex.org/size#/properties/width/minimum","error":"minimum is not met","instanceLocation":"/size/width","keywordLocation":"/properties/size/$ref/properties/width/minimum"}],"valid":false}"##;

const MET: &str =
    r##"{"annotations":[{"absoluteKeywordLocation":"https://ex.org/item#/properties","annotation":["name","size"],"instanceLocation":"","keywordLocation":"/properties"},{"absoluteKeywordLocation":"https://ex.org/size#/properties","annotation":["width"],"instanceLocation":"/size","keywordLocation":"/properties/size/$ref/properties"}],"valid":true}"##;

const LACKING: &str =
    r##"{"errors":[{"absoluteKeywordLocation":"https://ex.org/item#/required","error":"required is not met","instanceLocation":"","keywordLocation":"/required"}],"valid":false}"##;

// Why, an instance, which is evaluated in what the one before it left, and the answer.
const ANSWERS: &[(&str, &str, &str)] = &[
    (
        "0 is below the minimum that `$ref` leads to",
        r#"{"name":"lamp","size":{"width":0}}"#,
        UNMET,
    ),
    (
        "2 meets the minimum, and no error is left of the instance before",
        r#"{"name":"lamp","size":{"width":2}}"#,
        MET,
    ),
    (
        "`name` is required, and no annotation is left of the instance before",
        "{}",
        LACKING,
    ),
    (
        "2 meets the minimum as it did before",
        r#"{"name":"lamp","size":{"width":2}}"#,
        MET,
    ),
    (
        "0 is below the minimum as it was at first",
        r#"{"name":"lamp","size":{"width":0}}"#,
        UNMET,
    ),
];

fn linked(alloc: Global, documents: &[(&str, &str)], uri: &str) -> Result<Linked, Fault> {
    let mut source = listed(alloc, documents)?;
    link(alloc, &mut source, uri)
}

fn kept_answer(
    alloc: Global,
    linked: &Linked,
    memory: &mut EvaluationMemory,
    text: &str,
) -> Result<String, Fault> {
    let instance = read(alloc, text.as_bytes())?;
    Ok(evaluate_with(alloc, linked, &instance, memory)?.into_text())
}

fn expect_kept_answers(rt: &impl Abort, alloc: Global, linked: &Linked) {
    let mut memory = EvaluationMemory::new(alloc);
    for row in ANSWERS {
        let found = kept_answer(alloc, linked, &mut memory, row.1);
        expect_told(rt, alloc, found, row.2, row.0);
    }
}

#[test]
fn no_answer_depends_on_what_is_kept(rt: HostRuntime) {
    match linked(rt.alloc(), ITEM, "https://ex.org/item") {
        Ok(linked) => expect_kept_answers(&rt, rt.alloc(), &linked),
        Err(fault) => panic!(rt; "{fault}"),
    }
}

fn instances(alloc: Global) -> Result<Vec<Doc>, Fault> {
    let mut instances = Vec::new(alloc);
    for row in ANSWERS {
        instances.push(read(alloc, row.1.as_bytes())?)?;
    }
    Ok(instances)
}

fn text_of(outcome: Result<Report, Fault>) -> Result<String, Fault> {
    Ok(outcome?.into_text())
}

fn expect_each_answer<'a>(
    rt: &impl Abort,
    alloc: Global,
    evaluator: &mut Evaluator<'a>,
    instances: &'a [Doc],
) {
    for (instance, row) in instances.iter().zip(ANSWERS.iter()) {
        let found = text_of(evaluator.evaluate(instance));
        expect_told(rt, alloc, found, row.2, row.0);
    }
}

fn expect_answers<'a>(rt: &impl Abort, alloc: Global, linked: &'a Linked, instances: &'a [Doc]) {
    match Evaluator::new(alloc, linked) {
        Ok(mut evaluator) => expect_each_answer(rt, alloc, &mut evaluator, instances),
        Err(_) => panic!(rt; "no room"),
    }
}

fn expect_answers_of(rt: &impl Abort, alloc: Global, linked: &Linked) {
    match instances(alloc) {
        Ok(instances) => expect_answers(rt, alloc, linked, &instances),
        Err(fault) => panic!(rt; "{fault}"),
    }
}

#[test]
fn one_evaluator_answers_each_instance(rt: HostRuntime) {
    match linked(rt.alloc(), ITEM, "https://ex.org/item") {
        Ok(linked) => expect_answers_of(&rt, rt.alloc(), &linked),
        Err(fault) => panic!(rt; "{fault}"),
    }
}

// What is under `again` is applied where it is being applied; each element is one application.
const HALTING: &[(&str, &str)] = &[(
    "https://ex.org/halting",
    r##"{"$defs":{"a":{"$ref":"#/$defs/a"}},"properties":{"again":{"$ref":"#/$defs/a"}},"items":{"minimum":2}}"##,
)];

const EMPTY_REPORT: &str = r#"{"annotations":[],"valid":true}"#;

const ALL_MET: &str =
    r##"{"annotations":[{"absoluteKeywordLocation":"https://ex.org/halting#/items","annotation":true,"instanceLocation":"","keywordLocation":"/items"}],"valid":true}"##;

// Why, an instance of that many twos or, of none, a text, and the answer.
const TURNS: &[(&str, usize, &str, &str)] = &[
    ("2 meets the minimum of each element", 1, "", ALL_MET),
    (
        "`again` is applied where it is being applied (Core 9.4.1)",
        0,
        r#"{"again":1}"#,
        "17 Loop",
    ),
    ("no loop is left of the instance before", 2, "", ALL_MET),
    (
        "100,000 elements and the root are over 100,000 applications (LIMITS.md)",
        100_000,
        "",
        "16 Costly",
    ),
    ("no count is left of the instance before", 1, "", ALL_MET),
    (
        "after a valid instance 100,000 elements are too many as before",
        100_000,
        "",
        "16 Costly",
    ),
    (
        "right behind it 100,000 elements are too many once more",
        100_000,
        "",
        "16 Costly",
    ),
    (
        "a loop is told behind what was too costly",
        0,
        r#"{"again":1}"#,
        "17 Loop",
    ),
    (
        "a loop is told behind a loop",
        0,
        r#"{"again":1}"#,
        "17 Loop",
    ),
    (
        "a number has neither members nor elements to judge",
        0,
        "1",
        EMPTY_REPORT,
    ),
    (
        "99,999 elements and the root are just 100,000 applications (LIMITS.md)",
        99_999,
        "",
        ALL_MET,
    ),
];

fn turns(alloc: Global) -> Result<Vec<Doc>, Fault> {
    let mut instances = Vec::new(alloc);
    for row in TURNS {
        instances.push(turn(alloc, row.1, row.2)?)?;
    }
    Ok(instances)
}

fn expect_each_turn<'a>(
    rt: &impl Abort,
    alloc: Global,
    evaluator: &mut Evaluator<'a>,
    instances: &'a [Doc],
) {
    for (instance, row) in instances.iter().zip(TURNS.iter()) {
        let found = text_of(evaluator.evaluate(instance));
        expect_told(rt, alloc, found, row.3, row.0);
    }
}

fn expect_turns<'a>(rt: &impl Abort, alloc: Global, linked: &'a Linked, instances: &'a [Doc]) {
    match Evaluator::new(alloc, linked) {
        Ok(mut evaluator) => expect_each_turn(rt, alloc, &mut evaluator, instances),
        Err(_) => panic!(rt; "no room"),
    }
}

fn expect_turns_of(rt: &impl Abort, alloc: Global, linked: &Linked) {
    match turns(alloc) {
        Ok(instances) => expect_turns(rt, alloc, linked, &instances),
        Err(fault) => panic!(rt; "{fault}"),
    }
}

#[test]
fn an_evaluator_answers_after_a_fault_as_before(rt: HostRuntime) {
    match linked(rt.alloc(), HALTING, "https://ex.org/halting") {
        Ok(linked) => expect_turns_of(&rt, rt.alloc(), &linked),
        Err(fault) => panic!(rt; "{fault}"),
    }
}

// So many twos or, of none, what the text spells.
fn turn(alloc: Global, length: usize, text: &str) -> Result<Doc, Fault> {
    if length == 0 {
        return read(alloc, text.as_bytes());
    }
    read(alloc, twos(alloc, length)?.as_bytes())
}

// Its first element is evaluated; the others are not, and have to be 1 at most.
const PAIR: &[(&str, &str)] = &[(
    "https://ex.org/pair",
    r#"{"prefixItems":[{"minimum":2}],"unevaluatedItems":{"maximum":1}}"#,
)];

// Why an instance comes there, and how many elements it has.
const LENGTHS: &[(&str, usize)] = &[
    ("nothing was evaluated before", 3),
    ("a longer output takes more than the one before", 300),
    ("no error is left of the 299 before", 1),
    ("the longest output takes more than is kept", 10_000),
    ("a short output comes behind one that wasn't kept", 2),
    ("an empty array has no element to judge", 0),
    ("the answer is that of the first instance", 3),
];

// Whether the answer in kept memory is the one in new memory, and as it should be.
fn is_as_new(
    alloc: Global,
    linked: &Linked,
    memory: &mut EvaluationMemory,
    length: usize,
) -> Result<bool, Fault> {
    let instance = read(alloc, twos(alloc, length)?.as_bytes())?;
    let kept = evaluate_with(alloc, linked, &instance, memory)?;
    let new = evaluate(alloc, linked, &instance)?;
    Ok(kept.text() == new.text() && kept.valid() == (length < 2))
}

fn expect_as_new(rt: &impl Abort, alloc: Global, linked: &Linked) {
    let mut memory = EvaluationMemory::new(alloc);
    for row in LENGTHS {
        let (why, length) = *row;
        expect_holds(rt, is_as_new(alloc, linked, &mut memory, length), why);
    }
}

#[test]
fn short_and_long_answers_are_those_of_new_memory(rt: HostRuntime) {
    match linked(rt.alloc(), PAIR, "https://ex.org/pair") {
        Ok(linked) => expect_as_new(&rt, rt.alloc(), &linked),
        Err(fault) => panic!(rt; "{fault}"),
    }
}

// An array of so many twos.
fn twos(alloc: Global, length: usize) -> Result<String, Fault> {
    let mut text = String::new(alloc);
    text.push_str("[")?;
    for index in 0..length {
        text.push_str(if index == 0 { "2" } else { ",2" })?;
    }
    text.push_str("]")?;
    Ok(text)
}
