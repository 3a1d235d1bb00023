//! The examples in `examples/folders`, written by `examples/write_tests.py`.

use crate::answers::{FileCheck, expect_files};
use checks::DEFAULT_URI;

const SCHEMA: &str = r##"{
  "type": "object",
  "required": ["name"],
  "properties": {
    "name": { "type": "string", "minLength": 1 },
    "bytes": { "type": "integer", "minimum": 0 },
    "entries": {
      "type": "array",
      "items": { "$ref": "#" }
    }
  },
  "oneOf": [
    { "required": ["bytes"] },
    { "required": ["entries"] }
  ]
}"##;

const HOME: &str = r#"{
  "name": "home",
  "entries": [
    { "name": "notes.txt", "bytes": 120 },
    { "name": "pictures", "entries": [{ "name": "cat.png", "bytes": 48213 }] },
    { "name": "empty", "entries": [] }
  ]
}"#;

const HOME_ANSWER: &str =
    r#"{"annotations":[{"absoluteKeywordLocation":"urn:schemareg:root#/properties","annotation":["entries","name"],"instanceLocation":"","keywordLocation":"/properties"},{"absoluteKeywordLocation":"urn:schemareg:root#/properties/entries/items","annotation":true,"instanceLocation":"/entries","keywordLocation":"/properties/entries/items"},{"absoluteKeywordLocation":"urn:schemareg:root#/properties","annotation":["bytes","name"],"instanceLocation":"/entries/0","keywordLocation":"/properties/entries/items/$ref/properties"},{"absoluteKeywordLocation":"urn:schemareg:root#/properties","annotation":["entries","name"],"instanceLocation":"/entries/1","keywordLocation":"/properties/entries/items/$ref/properties"},{"absoluteKeywordLocation":"urn:schemareg:root#/properties/entries/items","annotation":true,"instanceLocation":"/entries/1/entries","keywordLocation":"/properties/entries/items/$ref/properties/entries/items"},{"absoluteKeywordLocation":"urn:schemareg:root#/properties","annotation":["bytes","name"],"instanceLocation":"/entries/1/entries/0","keywordLocation":"/properties/entries/items/$ref/properties/entries/items/$ref/properties"},{"absoluteKeywordLocation":"urn:schemareg:root#/properties","annotation":["entries","name"],"instanceLocation":"/entries/2","keywordLocation":"/properties/entries/items/$ref/properties"}],"valid":true}"#;

const NEITHER_FILE_NOR_FOLDER: &str = r#"{
  "name": "home",
  "entries": [
    { "name": "pictures", "entries": [{ "name": "cat.png" }] },
    { "name": "both", "bytes": 0, "entries": [] }
  ]
}"#;

const NEITHER_FILE_NOR_FOLDER_ANSWER: &str =
    r#"{"errors":[{"absoluteKeywordLocation":"urn:schemareg:root#/properties","error":"properties is not met","instanceLocation":"","keywordLocation":"/properties"},{"absoluteKeywordLocation":"urn:schemareg:root#/properties/entries/items","error":"items is not met","instanceLocation":"/entries","keywordLocation":"/properties/entries/items"},{"absoluteKeywordLocation":"urn:schemareg:root#/properties/entries/items/$ref","error":"$ref is not met","instanceLocation":"/entries/0","keywordLocation":"/properties/entries/items/$ref"},{"absoluteKeywordLocation":"urn:schemareg:root#/properties","error":"properties is not met","instanceLocation":"/entries/0","keywordLocation":"/properties/entries/items/$ref/properties"},{"absoluteKeywordLocation":"urn:schemareg:root#/properties/entries/items","error":"items is not met","instanceLocation":"/entries/0/entries","keywordLocation":"/properties/entries/items/$ref/properties/entries/items"},{"absoluteKeywordLocation":"urn:schemareg:root#/properties/entries/items/$ref","error":"$ref is not met","instanceLocation":"/entries/0/entries/0","keywordLocation":"/properties/entries/items/$ref/properties/entries/items/$ref"},{"absoluteKeywordLocation":"urn:schemareg:root#/oneOf","error":"oneOf is not met","instanceLocation":"/entries/0/entries/0","keywordLocation":"/properties/entries/items/$ref/properties/entries/items/$ref/oneOf"},{"absoluteKeywordLocation":"urn:schemareg:root#/oneOf/0/required","error":"required is not met","instanceLocation":"/entries/0/entries/0","keywordLocation":"/properties/entries/items/$ref/properties/entries/items/$ref/oneOf/0/required"},{"absoluteKeywordLocation":"urn:schemareg:root#/oneOf/1/required","error":"required is not met","instanceLocation":"/entries/0/entries/0","keywordLocation":"/properties/entries/items/$ref/properties/entries/items/$ref/oneOf/1/required"},{"absoluteKeywordLocation":"urn:schemareg:root#/properties/entries/items/$ref","error":"$ref is not met","instanceLocation":"/entries/1","keywordLocation":"/properties/entries/items/$ref"},{"absoluteKeywordLocation":"urn:schemareg:root#/oneOf","error":"oneOf is not met","instanceLocation":"/entries/1","keywordLocation":"/properties/entries/items/$ref/oneOf"}],"valid":false}"#;

const FILES: &[FileCheck] = &[
    FileCheck {
        why: "each entry is a file or a folder, by `$ref` to the root",
        uri: DEFAULT_URI,
        schema: SCHEMA,
        instance: HOME,
        wanted: HOME_ANSWER,
    },
    FileCheck {
        why: "`oneOf` takes `bytes` or `entries`, not both and not none (Core 10.2.1.3)",
        uri: DEFAULT_URI,
        schema: SCHEMA,
        instance: NEITHER_FILE_NOR_FOLDER,
        wanted: NEITHER_FILE_NOR_FOLDER_ANSWER,
    },
];

#[test]
fn files_have_their_answers(rt: HostRuntime) {
    for row in FILES {
        expect_files(&rt, rt.alloc(), row);
    }
}
