//! The examples in `examples/committee`, written by `examples/write_tests.py`.

use crate::answers::{FileCheck, expect_files};
use checks::DEFAULT_URI;

const SCHEMA: &str = r##"{
  "$id": "https://example.com/committee",
  "type": "object",
  "properties": {
    "members": {
      "type": "array",
      "minItems": 3,
      "contains": {
        "properties": { "role": { "const": "chair" } },
        "required": ["role"]
      },
      "maxContains": 1
    },
    "next_meeting": {
      "$anchor": "date",
      "type": "array",
      "prefixItems": [
        { "type": "integer", "minimum": 2000 },
        { "type": "integer", "minimum": 1, "maximum": 12 },
        { "type": "integer", "minimum": 1, "maximum": 31 }
      ],
      "minItems": 3,
      "unevaluatedItems": false
    },
    "last_meeting": { "$ref": "#date" }
  }
}"##;

const COMPLETE: &str =
    r#"{ "members": [{ "role": "chair" }, { "role": "clerk" }, {}], "next_meeting": [2025, 3, 31] }"#;

const COMPLETE_ANSWER: &str =
    r#"{"annotations":[{"absoluteKeywordLocation":"https://example.com/committee#/properties","annotation":["members","next_meeting"],"instanceLocation":"","keywordLocation":"/properties"},{"absoluteKeywordLocation":"https://example.com/committee#/properties/members/contains","annotation":[0],"instanceLocation":"/members","keywordLocation":"/properties/members/contains"},{"absoluteKeywordLocation":"https://example.com/committee#/properties/members/contains/properties","annotation":["role"],"instanceLocation":"/members/0","keywordLocation":"/properties/members/contains/properties"},{"absoluteKeywordLocation":"https://example.com/committee#/properties/next_meeting/prefixItems","annotation":true,"instanceLocation":"/next_meeting","keywordLocation":"/properties/next_meeting/prefixItems"}],"valid":true}"#;

const MISTAKES: &str =
    r#"{ "members": [{ "role": "chair" }, { "role": "chair" }], "next_meeting": [2025, 13, 31, 9], "last_meeting": [2024, 12] }"#;

const MISTAKES_ANSWER: &str =
    r#"{"errors":[{"absoluteKeywordLocation":"https://example.com/committee#/properties","error":"properties is not met","instanceLocation":"","keywordLocation":"/properties"},{"absoluteKeywordLocation":"https://example.com/committee#/properties/last_meeting/$ref","error":"$ref is not met","instanceLocation":"/last_meeting","keywordLocation":"/properties/last_meeting/$ref"},{"absoluteKeywordLocation":"https://example.com/committee#/properties/next_meeting/minItems","error":"minItems is not met","instanceLocation":"/last_meeting","keywordLocation":"/properties/last_meeting/$ref/minItems"},{"absoluteKeywordLocation":"https://example.com/committee#/properties/members/minItems","error":"minItems is not met","instanceLocation":"/members","keywordLocation":"/properties/members/minItems"},{"absoluteKeywordLocation":"https://example.com/committee#/properties/members/maxContains","error":"maxContains is not met","instanceLocation":"/members","keywordLocation":"/properties/members/maxContains"},{"absoluteKeywordLocation":"https://example.com/committee#/properties/next_meeting/prefixItems","error":"prefixItems is not met","instanceLocation":"/next_meeting","keywordLocation":"/properties/next_meeting/prefixItems"},{"absoluteKeywordLocation":"https://example.com/committee#/properties/next_meeting/prefixItems/1/maximum","error":"maximum is not met","instanceLocation":"/next_meeting/1","keywordLocation":"/properties/next_meeting/prefixItems/1/maximum"},{"absoluteKeywordLocation":"https://example.com/committee#/properties/next_meeting/unevaluatedItems","error":"unevaluatedItems is not met","instanceLocation":"/next_meeting","keywordLocation":"/properties/next_meeting/unevaluatedItems"},{"absoluteKeywordLocation":"https://example.com/committee#/properties/next_meeting/unevaluatedItems","error":"no value is allowed","instanceLocation":"/next_meeting/3","keywordLocation":"/properties/next_meeting/unevaluatedItems"}],"valid":false}"#;

const FILES: &[FileCheck] = &[
    FileCheck {
        why: "one member is the chair, and three numbers are a date (Validation 6.4.4)",
        uri: DEFAULT_URI,
        schema: SCHEMA,
        instance: COMPLETE,
        wanted: COMPLETE_ANSWER,
    },
    FileCheck {
        why: "asked for are one chair, three members, three numbers, months up to 12",
        uri: DEFAULT_URI,
        schema: SCHEMA,
        instance: MISTAKES,
        wanted: MISTAKES_ANSWER,
    },
];

#[test]
fn files_have_their_answers(rt: HostRuntime) {
    for row in FILES {
        expect_files(&rt, rt.alloc(), row);
    }
}
