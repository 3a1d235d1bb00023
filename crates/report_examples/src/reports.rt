//! What is told of an instance that was judged.

use crate::expectations::expect_told;
use json_doc::{Doc, read};
use plain_reports::{
    Fault, Instance, Schemas, Style, error_lines, json_line, json_refusal, refusal_command,
    shown_text,
};
use std::alloc::Global;
use std::process::Abort;

// The output of a check of `{"name":7,"lines":[{"price":"twelve"},{}]}` and the like.
const OUTPUT: &str =
    r##"{"errors":[{"absoluteKeywordLocation":"https://ex.org/order#/required","error":"required is not met","instanceLocation":"","keywordLocation":"/required"},{"absoluteKeywordLocation":"https://ex.org/order#/properties","error":"properties is not met","instanceLocation":"","keywordLocation":"/properties"},{"absoluteKeywordLocation":"https://ex.org/order#/properties/lines/items","error":"items is not met","instanceLocation":"/lines","keywordLocation":"/properties/lines/items"},{"absoluteKeywordLocation":"https://ex.org/order#/properties/lines/items/$ref","error":"$ref is not met","instanceLocation":"/lines/0","keywordLocation":"/properties/lines/items/$ref"},{"absoluteKeywordLocation":"https://ex.org/line#/properties","error":"properties is not met","instanceLocation":"/lines/0","keywordLocation":"/properties/lines/items/$ref/properties"},{"absoluteKeywordLocation":"https://ex.org/line#/properties/price/type","error":"type is not met","instanceLocation":"/lines/0/price","keywordLocation":"/properties/lines/items/$ref/properties/price/type"},{"absoluteKeywordLocation":"https://ex.org/order#/additionalProperties","error":"additionalProperties is not met","instanceLocation":"","keywordLocation":"/additionalProperties"},{"absoluteKeywordLocation":"https://ex.org/order#/additionalProperties","error":"no value is allowed","instanceLocation":"/note","keywordLocation":"/additionalProperties"}],"valid":false}"##;

const TEXT: &str = r#"{
  "lines": [
    { "price": "twelve" }
  ],
  "note": [
    1,
    2
  ]
}
"#;

// The value of each keyword, wherever it stands.
#[derive(Drop)]
struct OneValue(Option<Doc>);

impl Schemas for OneValue {
    fn keyword_value(&self, _alloc: Global, _location: &str) -> Option<&Doc> {
        self.0.as_ref()
    }
}

fn told(alloc: Global, line: Option<usize>, style: Style) -> Result<String, Fault> {
    told_by(alloc, &OneValue(None), line, style)
}

fn told_by(
    alloc: Global,
    schemas: &OneValue,
    line: Option<usize>,
    style: Style,
) -> Result<String, Fault> {
    let instance = Instance {
        path: "orders/7,a.json",
        line,
        text: TEXT.as_bytes(),
    };
    Ok(error_lines(alloc, schemas, instance, OUTPUT, style)?)
}

const CAUSES: &str =
    r#"orders/7,a.json:1:1: (root): {"lines": [{ "price": "twelve" }],"note": [1,2]} lacks a member that is required
    by /required
    at https://ex.org/order#/required
orders/7,a.json:3:16: /lines/0/price: "twelve" is of another type than the schema allows
    by /properties/lines/items/$ref/properties/price/type
    at https://ex.org/line#/properties/price/type
orders/7,a.json:5:11: /note: [1,2] is not allowed here
    by /additionalProperties
    at https://ex.org/order#/additionalProperties
"#;

#[test]
fn causes_are_told(rt: HostRuntime) {
    let found = told(rt.alloc(), None, Style::Text { colours: false });
    expect_told(&rt, rt.alloc(), found, CAUSES, "the causes");
}

const FIRST_ANNOTATION: &str =
    r#"::error file=orders/7%2Ca.json,line=40,col=1,title=required is not met::(root): {"lines": [{ "price": "twelve" }],"note": [1,2]} lacks a member that is required%0A    by /required%0A    at https://ex.org/order#/required"#;

const SECOND_ANNOTATION: &str =
    "::error file=orders/7%2Ca.json,line=42,col=16,title=type is not met::";

fn expect_annotations(rt: &impl Abort, text: &str) {
    let mut lines = text.lines();
    assert!(rt; lines.next() == Some(FIRST_ANNOTATION), "{text}");
    let second = lines.next().unwrap_or("");
    assert!(rt;
        second.starts_with(SECOND_ANNOTATION) && lines.count() == 1,
        "{text}"
    );
}

#[test]
fn causes_are_annotations(rt: HostRuntime) {
    match told(rt.alloc(), Some(40), Style::Github) {
        Ok(text) => expect_annotations(&rt, text.as_str()),
        Err(fault) => panic!(rt; "{fault}"),
    }
}

const VALID: &str = r#"{"annotations":[],"valid":true}"#;

fn line_of_json(alloc: Global) -> Result<String, Fault> {
    let instance = Instance {
        path: r#"a "b".json"#,
        line: Some(3),
        text: b"1",
    };
    Ok(json_line(alloc, instance, VALID)?)
}

#[test]
fn lines_of_json_begin_with_the_instance(rt: HostRuntime) {
    let wanted = r#"{"instance":"a \"b\".json","line":3,"annotations":[],"valid":true}"#;
    expect_told(
        &rt,
        rt.alloc(),
        line_of_json(rt.alloc()),
        wanted,
        "a line of JSON",
    );
}

#[test]
fn lines_of_json_tell_why_an_instance_is_refused(rt: HostRuntime) {
    let wanted = r#"{"instance":"a,\"b\".json","line":3,"refused":"25 BadUri \"x\""}"#;
    let found = json_refusal(rt.alloc(), r#"a,"b".json"#, Some(3), r#"25 BadUri "x""#);
    expect_told(&rt, rt.alloc(), found, wanted, "a refused line");
}

fn command(alloc: Global, line: Option<usize>, column: Option<usize>) -> Result<String, Fault> {
    Ok(refusal_command(
        alloc,
        "a:b,c.json",
        line,
        column,
        "1 BadJson, 5%",
        "no:\n5%, JSON",
    )?)
}

#[test]
fn annotations_tell_why_an_instance_is_refused(rt: HostRuntime) {
    let whole =
        "::error file=a%3Ab%2Cc.json,line=4,col=2,title=1 BadJson%2C 5%25::no:%0A5%25, JSON\n";
    let found = command(rt.alloc(), Some(4), Some(2));
    expect_told(&rt, rt.alloc(), found, whole, "with its place");
    let bare = "::error file=a%3Ab%2Cc.json,title=1 BadJson%2C 5%25::no:%0A5%25, JSON\n";
    let found = command(rt.alloc(), None, None);
    expect_told(&rt, rt.alloc(), found, bare, "without a place");
}

// With `["lines","id"]` as the value of each keyword.
const WANTED: &str =
    r#"orders/7,a.json:1:1: (root): {"lines": [{ "price": "twelve" }],"note": [1,2]} lacks a member that is required: "id"
    by /required
    at https://ex.org/order#/required
orders/7,a.json:3:16: /lines/0/price: "twelve" is of another type than the schema allows: ["lines","id"]
    by /properties/lines/items/$ref/properties/price/type
    at https://ex.org/line#/properties/price/type
orders/7,a.json:5:11: /note: [1,2] is not allowed here
    by /additionalProperties
    at https://ex.org/order#/additionalProperties
"#;

fn told_with_values(alloc: Global) -> Result<String, Fault> {
    let schemas = OneValue(Some(read(alloc, br#"["lines","id"]"#)?));
    told_by(alloc, &schemas, None, Style::Text { colours: false })
}

#[test]
fn what_is_wanted_is_told(rt: HostRuntime) {
    let found = told_with_values(rt.alloc());
    expect_told(&rt, rt.alloc(), found, WANTED, "what is wanted");
}

#[test]
fn a_terminal_obeys_nothing_that_is_shown(rt: HostRuntime) {
    let text = "a\u{1b}[1m\u{7f}\u{9b}\n\u{202a}\u{202e}\u{2066}\u{2069} \u{2065}é\u{200d}";
    let wanted =
        "a\u{fffd}[1m\u{fffd}\u{fffd}\u{fffd}\u{fffd}\u{fffd}\u{fffd}\u{fffd} \u{2065}é\u{200d}";
    let found = shown(rt.alloc(), text);
    expect_told(&rt, rt.alloc(), found, wanted, "what is shown");
}

fn shown(alloc: Global, text: &str) -> Result<String, Fault> {
    Ok(shown_text(alloc, text)?)
}
