//! The examples in `examples/refusals`, written by `examples/write_tests.py`.

use crate::answers::{FileCheck, expect_files, expect_standard_input};
use checks::DEFAULT_URI;

const BAD_ANCHOR: &str = r#"{
  "$defs": {
    "line": { "$anchor": "1st-line", "type": "string" }
  }
}"#;

const BAD_ID: &str = r#"{
  "$id": "https://example.com/person#adult",
  "type": "object"
}"#;

const BAD_INPUT_INPUT: &str = r#"{
  "schema": { "type": "object" },
  "data": {}
}"#;

const BAD_JSON: &str = r#"{
  "type": "object",
  "required": ["name"],
}"#;

const BAD_JSON_IN_INSTANCE: &str = r#"{ "type": "object" }"#;

const BAD_KEYWORD: &str = r#"{
  "properties": {
    "age": { "type": "int" }
  }
}"#;

const BAD_NUMBER: &str = r#"{
  "properties": {
    "share": { "minimum": 0.5 }
  }
}"#;

const BAD_NUMBER_IN_INSTANCE: &str = r#"{
  "properties": {
    "price": { "minimum": 0 }
  }
}"#;

const BAD_PATTERN: &str = r#"{
  "properties": {
    "password": { "pattern": "^(?=.*[0-9]).{12,}$" }
  }
}"#;

const BAD_URI: &str = r#"{ "type": "object" }"#;

const COSTLY: &str = r##"{
  "$ref": "#/$defs/1",
  "$defs": {
    "1": { "allOf": [{ "$ref": "#/$defs/2" }, { "$ref": "#/$defs/2" }] },
    "2": { "allOf": [{ "$ref": "#/$defs/3" }, { "$ref": "#/$defs/3" }] },
    "3": { "allOf": [{ "$ref": "#/$defs/4" }, { "$ref": "#/$defs/4" }] },
    "4": { "allOf": [{ "$ref": "#/$defs/5" }, { "$ref": "#/$defs/5" }] },
    "5": { "allOf": [{ "$ref": "#/$defs/6" }, { "$ref": "#/$defs/6" }] },
    "6": { "allOf": [{ "$ref": "#/$defs/7" }, { "$ref": "#/$defs/7" }] },
    "7": { "allOf": [{ "$ref": "#/$defs/8" }, { "$ref": "#/$defs/8" }] },
    "8": { "allOf": [{ "$ref": "#/$defs/9" }, { "$ref": "#/$defs/9" }] },
    "9": { "allOf": [{ "$ref": "#/$defs/10" }, { "$ref": "#/$defs/10" }] },
    "10": { "allOf": [{ "$ref": "#/$defs/11" }, { "$ref": "#/$defs/11" }] },
    "11": { "allOf": [{ "$ref": "#/$defs/12" }, { "$ref": "#/$defs/12" }] },
    "12": { "allOf": [{ "$ref": "#/$defs/13" }, { "$ref": "#/$defs/13" }] },
    "13": { "allOf": [{ "$ref": "#/$defs/14" }, { "$ref": "#/$defs/14" }] },
    "14": { "allOf": [{ "$ref": "#/$defs/15" }, { "$ref": "#/$defs/15" }] },
    "15": { "allOf": [{ "$ref": "#/$defs/16" }, { "$ref": "#/$defs/16" }] },
    "16": {}
  }
}"##;

const DEEP: &str = r##"{
  "$ref": "#/$defs/box",
  "$defs": {
    "box": { "$ref": "#/$defs/named" },
    "named": { "$ref": "#/$defs/sized" },
    "sized": { "$ref": "#/$defs/dated" },
    "dated": { "$ref": "#/$defs/signed" },
    "signed": { "$ref": "#/$defs/stored" },
    "stored": { "$ref": "#/$defs/within" },
    "within": {
      "properties": {
        "inner": { "allOf": [{ "$ref": "#/$defs/box" }] }
      }
    }
  }
}"##;

const DEEP_INSTANCE: &str =
    r#"{"inner":{"inner":{"inner":{"inner":{"inner":{"inner":{"inner":{"inner":{"inner":{"inner":{"inner":{"inner":{"inner":{"inner":{"inner":{"inner":{"inner":{"inner":{"inner":{"inner":{"inner":{"inner":{"inner":{"inner":{"inner":{"inner":{"inner":{"inner":{"inner":{"inner":{"inner":{"inner":{"inner":{"inner":{"inner":{"inner":{"inner":{"inner":{"inner":{"inner":{"inner":{"inner":{"inner":{"inner":{"inner":{"inner":{"inner":{"inner":{"inner":{"inner":{"inner":{"inner":{"inner":{"inner":{"inner":{"inner":{"inner":{"inner":{"inner":{"inner":{"inner":{"inner":{"inner":{"inner":{"inner":{"inner":{"inner":{"inner":{"inner":{"inner":{"inner":{"inner":{"inner":{"inner":{"inner":{"inner":{"inner":{"inner":{"inner":{"inner":{"inner":{"inner":{"inner":{"inner":{"inner":{"inner":{"inner":{"inner":{"inner":{"inner":{"inner":{"inner":{"inner":{"inner":{"inner":{"inner":{"inner":{"inner":{"inner":{"inner":{"inner":{"inner":{"inner":{"inner":{"inner":{"inner":{"inner":{"inner":{"inner":{"inner":{"inner":{"inner":{"inner":{"inner":{"inner":{"inner":{"inner":{"inner":{"inner":{"inner":{"inner":{"inner":{"inner":{"inner":{"inner":{"inner":{}}}}}}}}}}}}}}}}}}}}}}}}}}}}}}}}}}}}}}}}}}}}}}}}}}}}}}}}}}}}}}}}}}}}}}}}}}}}}}}}}}}}}}}}}}}}}}}}}}}}}}}}}}}}}}}}}}}}}}}}}}}}}}}"#;

const DIALECT: &str = r#"{
  "$schema": "http://json-schema.org/draft-07/schema#",
  "type": "object"
}"#;

const DUPLICATE_ANCHOR: &str = r#"{
  "$defs": {
    "home": { "$anchor": "address", "type": "object" },
    "work": { "$dynamicAnchor": "address", "type": "object" }
  }
}"#;

const DUPLICATE_URI: &str = r#"{
  "$id": "https://example.com/order",
  "$defs": {
    "home": { "$id": "address", "type": "object" },
    "work": { "$id": "https://example.com/address", "type": "object" }
  }
}"#;

const LOOP: &str = r##"{
  "$ref": "#/$defs/chicken",
  "$defs": {
    "chicken": { "$ref": "#/$defs/egg" },
    "egg": { "$ref": "#/$defs/chicken" }
  }
}"##;

const NOT_OBJECT: &str = "true";

const TOO_NESTED: &str = r#"{
  "const": [[[[[[[[[[[[[[[[[[[[[[[[[[[[[[[[[[[[[[[[[[[[[[[[[[[[[[[[[[[[[[[[[[[[[[[[[[[[[[[[[[[[[[[[[[[[[[[[[[[[[[[[[[[[[[[[[[[[[[[[]]]]]]]]]]]]]]]]]]]]]]]]]]]]]]]]]]]]]]]]]]]]]]]]]]]]]]]]]]]]]]]]]]]]]]]]]]]]]]]]]]]]]]]]]]]]]]]]]]]]]]]]]]]]]]]]]]]]]]]]
}"#;

const UNRESOLVED: &str = r#"{
  "$id": "https://example.com/order",
  "properties": {
    "from": { "$ref": "person" },
    "to": { "$ref": "address#town" }
  }
}"#;

const FILES: &[FileCheck] = &[
    FileCheck {
        why: "the name of an anchor doesn't begin with a digit (Core 8.2.2)",
        uri: DEFAULT_URI,
        schema: BAD_ANCHOR,
        instance: "{}",
        wanted: "refused: 10 BadAnchor",
    },
    FileCheck {
        why: "an `$id` has no fragment but an empty one (Core 8.2.1)",
        uri: DEFAULT_URI,
        schema: BAD_ID,
        instance: "{}",
        wanted: "refused: 9 BadId",
    },
    FileCheck {
        why: "no comma stands behind the last member (RFC 8259, 4)",
        uri: DEFAULT_URI,
        schema: BAD_JSON,
        instance: r#"{ "name": "Ada" }"#,
        wanted: "refused: 1 BadJson",
    },
    FileCheck {
        why: "strings stand in double quotes (RFC 8259, 7)",
        uri: DEFAULT_URI,
        schema: BAD_JSON_IN_INSTANCE,
        instance: "{ 'name': 'Ada' }",
        wanted: "refused: 1 BadJson",
    },
    FileCheck {
        why: "`int` is no name of a type (Validation 6.1.1)",
        uri: DEFAULT_URI,
        schema: BAD_KEYWORD,
        instance: r#"{ "age": 36 }"#,
        wanted: "refused: 8 BadKeyword /properties/age/type",
    },
    FileCheck {
        why: "0.5 in a schema is no whole number (PROFILE.md)",
        uri: DEFAULT_URI,
        schema: BAD_NUMBER,
        instance: r#"{ "share": 1 }"#,
        wanted: "refused: 2 BadNumber",
    },
    FileCheck {
        why: "9.99 in an instance is no whole number (PROFILE.md)",
        uri: DEFAULT_URI,
        schema: BAD_NUMBER_IN_INSTANCE,
        instance: r#"{ "price": 9.99 }"#,
        wanted: "refused: 2 BadNumber",
    },
    FileCheck {
        why: "look-around is no part of the grammar (PROFILE.md)",
        uri: DEFAULT_URI,
        schema: BAD_PATTERN,
        instance: r#"{ "password": "correct horse 1" }"#,
        wanted: "refused: 5 BadPattern",
    },
    FileCheck {
        why: "`person.json` has no scheme (PROFILE.md)",
        uri: "person.json",
        schema: BAD_URI,
        instance: "{}",
        wanted: "refused: 25 BadUri",
    },
    FileCheck {
        why: "131,070 applications are over 100,000 (LIMITS.md)",
        uri: DEFAULT_URI,
        schema: COSTLY,
        instance: "{}",
        wanted: "refused: 16 Costly",
    },
    FileCheck {
        why: "more than 1,000 applications nest (LIMITS.md)",
        uri: DEFAULT_URI,
        schema: DEEP,
        instance: DEEP_INSTANCE,
        wanted: "refused: 18 Deep",
    },
    FileCheck {
        why: "the dialect is that of 2020-12 alone (PROFILE.md)",
        uri: DEFAULT_URI,
        schema: DIALECT,
        instance: "{}",
        wanted: "refused: 11 Dialect",
    },
    FileCheck {
        why: "a name under both keywords of one resource is two anchors (Core 8.2.2)",
        uri: DEFAULT_URI,
        schema: DUPLICATE_ANCHOR,
        instance: "{}",
        wanted: "refused: 13 DuplicateAnchor",
    },
    FileCheck {
        why: "a relative `$id` and a full one open one URI (Core 8.2.1)",
        uri: DEFAULT_URI,
        schema: DUPLICATE_URI,
        instance: "{}",
        wanted: "refused: 12 DuplicateUri",
    },
    FileCheck {
        why: "two schemas that name each other don't end (Core 9.4.1)",
        uri: DEFAULT_URI,
        schema: LOOP,
        instance: "{}",
        wanted: "refused: 17 Loop",
    },
    FileCheck {
        why: "a document is an object, though `true` is a schema (PROFILE.md)",
        uri: DEFAULT_URI,
        schema: NOT_OBJECT,
        instance: "null",
        wanted: "refused: 6 NotObject",
    },
    FileCheck {
        why: "the schema nests deeper than 120 (LIMITS.md)",
        uri: DEFAULT_URI,
        schema: TOO_NESTED,
        instance: "[]",
        wanted: "refused: 7 TooNested",
    },
    FileCheck {
        why: "of two references that lead nowhere the lesser is told (PROFILE.md)",
        uri: DEFAULT_URI,
        schema: UNRESOLVED,
        instance: "{}",
        wanted: "refused: 15 Unresolved https://example.com/address#town",
    },
];

#[test]
fn files_have_their_answers(rt: HostRuntime) {
    for row in FILES {
        expect_files(&rt, rt.alloc(), row);
    }
}

// Why, input and answer.
const INPUTS: &[(&str, &str, &str)] = &[(
    "an input has an `instance`, under this name (PROFILE.md)",
    BAD_INPUT_INPUT,
    "refused: 41 BadInput",
)];

#[test]
fn inputs_have_their_answers(rt: HostRuntime) {
    for row in INPUTS {
        expect_standard_input(&rt, rt.alloc(), row);
    }
}
