//! The examples in `examples/strict-tree`, written by `examples/write_tests.py`.

use crate::answers::{FileCheck, expect_files};
use checks::DEFAULT_URI;

const SCHEMA: &str = r##"{
  "$id": "https://example.com/strict-tree",
  "$dynamicAnchor": "node",
  "$ref": "tree",
  "unevaluatedProperties": false,
  "$defs": {
    "tree": {
      "$id": "https://example.com/tree",
      "$dynamicAnchor": "node",
      "type": "object",
      "properties": {
        "data": true,
        "children": {
          "type": "array",
          "items": { "$dynamicRef": "#node" }
        }
      }
    }
  }
}"##;

const MISSPELT_ANSWER: &str =
    r#"{"errors":[{"absoluteKeywordLocation":"https://example.com/strict-tree#/$ref","error":"$ref is not met","instanceLocation":"","keywordLocation":"/$ref"},{"absoluteKeywordLocation":"https://example.com/tree#/properties","error":"properties is not met","instanceLocation":"","keywordLocation":"/$ref/properties"},{"absoluteKeywordLocation":"https://example.com/tree#/properties/children/items","error":"items is not met","instanceLocation":"/children","keywordLocation":"/$ref/properties/children/items"},{"absoluteKeywordLocation":"https://example.com/tree#/properties/children/items/$dynamicRef","error":"$dynamicRef is not met","instanceLocation":"/children/0","keywordLocation":"/$ref/properties/children/items/$dynamicRef"},{"absoluteKeywordLocation":"https://example.com/strict-tree#/unevaluatedProperties","error":"unevaluatedProperties is not met","instanceLocation":"/children/0","keywordLocation":"/$ref/properties/children/items/$dynamicRef/unevaluatedProperties"},{"absoluteKeywordLocation":"https://example.com/strict-tree#/unevaluatedProperties","error":"no value is allowed","instanceLocation":"/children/0/daat","keywordLocation":"/$ref/properties/children/items/$dynamicRef/unevaluatedProperties"},{"absoluteKeywordLocation":"https://example.com/strict-tree#/unevaluatedProperties","error":"unevaluatedProperties is not met","instanceLocation":"","keywordLocation":"/unevaluatedProperties"},{"absoluteKeywordLocation":"https://example.com/strict-tree#/unevaluatedProperties","error":"no value is allowed","instanceLocation":"/children","keywordLocation":"/unevaluatedProperties"}],"valid":false}"#;

const TREE: &str = r#"{ "data": 1, "children": [{ "data": 2 }, { "children": [] }] }"#;

const TREE_ANSWER: &str =
    r#"{"annotations":[{"absoluteKeywordLocation":"https://example.com/tree#/properties","annotation":["children","data"],"instanceLocation":"","keywordLocation":"/$ref/properties"},{"absoluteKeywordLocation":"https://example.com/tree#/properties/children/items","annotation":true,"instanceLocation":"/children","keywordLocation":"/$ref/properties/children/items"},{"absoluteKeywordLocation":"https://example.com/tree#/properties","annotation":["data"],"instanceLocation":"/children/0","keywordLocation":"/$ref/properties/children/items/$dynamicRef/$ref/properties"},{"absoluteKeywordLocation":"https://example.com/strict-tree#/unevaluatedProperties","annotation":[],"instanceLocation":"/children/0","keywordLocation":"/$ref/properties/children/items/$dynamicRef/unevaluatedProperties"},{"absoluteKeywordLocation":"https://example.com/tree#/properties","annotation":["children"],"instanceLocation":"/children/1","keywordLocation":"/$ref/properties/children/items/$dynamicRef/$ref/properties"},{"absoluteKeywordLocation":"https://example.com/strict-tree#/unevaluatedProperties","annotation":[],"instanceLocation":"/children/1","keywordLocation":"/$ref/properties/children/items/$dynamicRef/unevaluatedProperties"},{"absoluteKeywordLocation":"https://example.com/strict-tree#/unevaluatedProperties","annotation":[],"instanceLocation":"","keywordLocation":"/unevaluatedProperties"}],"valid":true}"#;

const FILES: &[FileCheck] = &[
    FileCheck {
        why: "the outermost anchor is the strict tree's, at every level (Core 8.2.3.2)",
        uri: DEFAULT_URI,
        schema: SCHEMA,
        instance: r#"{ "children": [{ "daat": 1 }] }"#,
        wanted: MISSPELT_ANSWER,
    },
    FileCheck {
        why: "the tree evaluates all members, at every level (Core 11.3)",
        uri: DEFAULT_URI,
        schema: SCHEMA,
        instance: TREE,
        wanted: TREE_ANSWER,
    },
];

#[test]
fn files_have_their_answers(rt: HostRuntime) {
    for row in FILES {
        expect_files(&rt, rt.alloc(), row);
    }
}
