//! The examples in `examples/generic-list`, written by `examples/write_tests.py`.

use crate::answers::{FileCheck, expect_files};
use checks::DEFAULT_URI;

const SCHEMA: &str = r##"{
  "$id": "https://example.com/list-of-dates",
  "$ref": "list-of-t",
  "$defs": {
    "date": {
      "$dynamicAnchor": "t",
      "type": "string",
      "pattern": "^[0-9]{4}-[0-9]{2}-[0-9]{2}$"
    },
    "list-of-t": {
      "$id": "list-of-t",
      "type": "object",
      "required": ["items"],
      "properties": {
        "items": {
          "type": "array",
          "items": { "$dynamicRef": "#t" }
        }
      },
      "$defs": {
        "anything": { "$dynamicAnchor": "t" }
      }
    }
  }
}"##;

const DATES_ANSWER: &str =
    r#"{"annotations":[{"absoluteKeywordLocation":"https://example.com/list-of-t#/properties","annotation":["items"],"instanceLocation":"","keywordLocation":"/$ref/properties"},{"absoluteKeywordLocation":"https://example.com/list-of-t#/properties/items/items","annotation":true,"instanceLocation":"/items","keywordLocation":"/$ref/properties/items/items"}],"valid":true}"#;

const NO_DATE_ANSWER: &str =
    r#"{"errors":[{"absoluteKeywordLocation":"https://example.com/list-of-dates#/$ref","error":"$ref is not met","instanceLocation":"","keywordLocation":"/$ref"},{"absoluteKeywordLocation":"https://example.com/list-of-t#/properties","error":"properties is not met","instanceLocation":"","keywordLocation":"/$ref/properties"},{"absoluteKeywordLocation":"https://example.com/list-of-t#/properties/items/items","error":"items is not met","instanceLocation":"/items","keywordLocation":"/$ref/properties/items/items"},{"absoluteKeywordLocation":"https://example.com/list-of-t#/properties/items/items/$dynamicRef","error":"$dynamicRef is not met","instanceLocation":"/items/1","keywordLocation":"/$ref/properties/items/items/$dynamicRef"},{"absoluteKeywordLocation":"https://example.com/list-of-dates#/$defs/date/pattern","error":"pattern is not met","instanceLocation":"/items/1","keywordLocation":"/$ref/properties/items/items/$dynamicRef/pattern"}],"valid":false}"#;

const FILES: &[FileCheck] = &[
    FileCheck {
        why: "`$dynamicRef` finds the outermost anchor, that of dates (Core 8.2.3.2)",
        uri: DEFAULT_URI,
        schema: SCHEMA,
        instance: r#"{ "items": ["2024-02-29", "2025-01-01"] }"#,
        wanted: DATES_ANSWER,
    },
    FileCheck {
        why: "the outermost anchor asks for a date, not for anything (Core 8.2.3.2)",
        uri: DEFAULT_URI,
        schema: SCHEMA,
        instance: r#"{ "items": ["2024-02-29", "tomorrow"] }"#,
        wanted: NO_DATE_ANSWER,
    },
];

#[test]
fn files_have_their_answers(rt: HostRuntime) {
    for row in FILES {
        expect_files(&rt, rt.alloc(), row);
    }
}
