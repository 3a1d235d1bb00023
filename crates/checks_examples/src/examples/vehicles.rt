//! The examples in `examples/vehicles`, written by `examples/write_tests.py`.

use crate::answers::{FileCheck, expect_files};
use checks::DEFAULT_URI;

const SCHEMA: &str = r##"{
  "$id": "https://example.com/lorry",
  "allOf": [
    { "$ref": "#/$defs/vehicle" },
    { "$ref": "#/$defs/insured" }
  ],
  "properties": {
    "load": { "type": "integer", "minimum": 0 }
  },
  "required": ["load"],
  "unevaluatedProperties": false,
  "$defs": {
    "vehicle": {
      "type": "object",
      "required": ["plate"],
      "properties": {
        "plate": { "type": "string" },
        "wheels": { "type": "integer", "multipleOf": 2 }
      }
    },
    "insured": {
      "anyOf": [
        { "properties": { "policy": { "type": "string" } }, "required": ["policy"] },
        { "properties": { "fleet": { "const": true } }, "required": ["fleet"] }
      ]
    }
  }
}"##;

const INSURED: &str = r#"{ "plate": "B-LK 12", "wheels": 6, "load": 7500, "policy": "P-1" }"#;

const INSURED_ANSWER: &str =
    r#"{"annotations":[{"absoluteKeywordLocation":"https://example.com/lorry#/$defs/vehicle/properties","annotation":["plate","wheels"],"instanceLocation":"","keywordLocation":"/allOf/0/$ref/properties"},{"absoluteKeywordLocation":"https://example.com/lorry#/$defs/insured/anyOf/0/properties","annotation":["policy"],"instanceLocation":"","keywordLocation":"/allOf/1/$ref/anyOf/0/properties"},{"absoluteKeywordLocation":"https://example.com/lorry#/properties","annotation":["load"],"instanceLocation":"","keywordLocation":"/properties"},{"absoluteKeywordLocation":"https://example.com/lorry#/unevaluatedProperties","annotation":[],"instanceLocation":"","keywordLocation":"/unevaluatedProperties"}],"valid":true}"#;

const ODD_WHEELS: &str = r#"{ "plate": "B-LK 12", "wheels": 5, "load": 7500, "policy": "P-1" }"#;

const ODD_WHEELS_ANSWER: &str =
    r#"{"errors":[{"absoluteKeywordLocation":"https://example.com/lorry#/allOf","error":"allOf is not met","instanceLocation":"","keywordLocation":"/allOf"},{"absoluteKeywordLocation":"https://example.com/lorry#/allOf/0/$ref","error":"$ref is not met","instanceLocation":"","keywordLocation":"/allOf/0/$ref"},{"absoluteKeywordLocation":"https://example.com/lorry#/$defs/vehicle/properties","error":"properties is not met","instanceLocation":"","keywordLocation":"/allOf/0/$ref/properties"},{"absoluteKeywordLocation":"https://example.com/lorry#/$defs/vehicle/properties/wheels/multipleOf","error":"multipleOf is not met","instanceLocation":"/wheels","keywordLocation":"/allOf/0/$ref/properties/wheels/multipleOf"},{"absoluteKeywordLocation":"https://example.com/lorry#/unevaluatedProperties","error":"unevaluatedProperties is not met","instanceLocation":"","keywordLocation":"/unevaluatedProperties"},{"absoluteKeywordLocation":"https://example.com/lorry#/unevaluatedProperties","error":"no value is allowed","instanceLocation":"/plate","keywordLocation":"/unevaluatedProperties"},{"absoluteKeywordLocation":"https://example.com/lorry#/unevaluatedProperties","error":"no value is allowed","instanceLocation":"/wheels","keywordLocation":"/unevaluatedProperties"}],"valid":false}"#;

const UNKNOWN_MEMBER: &str =
    r#"{ "plate": "B-LK 12", "wheels": 6, "load": 7500, "fleet": true, "owner": "A. Lovelace" }"#;

const UNKNOWN_MEMBER_ANSWER: &str =
    r#"{"errors":[{"absoluteKeywordLocation":"https://example.com/lorry#/unevaluatedProperties","error":"unevaluatedProperties is not met","instanceLocation":"","keywordLocation":"/unevaluatedProperties"},{"absoluteKeywordLocation":"https://example.com/lorry#/unevaluatedProperties","error":"no value is allowed","instanceLocation":"/owner","keywordLocation":"/unevaluatedProperties"}],"valid":false}"#;

const FILES: &[FileCheck] = &[
    FileCheck {
        why: "`allOf`, `anyOf` and `properties` evaluate all members (Core 11.3)",
        uri: DEFAULT_URI,
        schema: SCHEMA,
        instance: INSURED,
        wanted: INSURED_ANSWER,
    },
    FileCheck {
        why: "5 is no multiple of 2, and what fails evaluates nothing (Core 11.3)",
        uri: DEFAULT_URI,
        schema: SCHEMA,
        instance: ODD_WHEELS,
        wanted: ODD_WHEELS_ANSWER,
    },
    FileCheck {
        why: "no schema evaluates `owner` (Core 11.3)",
        uri: DEFAULT_URI,
        schema: SCHEMA,
        instance: UNKNOWN_MEMBER,
        wanted: UNKNOWN_MEMBER_ANSWER,
    },
];

#[test]
fn files_have_their_answers(rt: HostRuntime) {
    for row in FILES {
        expect_files(&rt, rt.alloc(), row);
    }
}
