//! The examples in `examples/annotations`, written by `examples/write_tests.py`.

use crate::answers::{FileCheck, expect_files};
use checks::DEFAULT_URI;

const SCHEMA: &str = r#"{
  "title": "Account",
  "description": "What a form generator needs is in the annotations.",
  "type": "object",
  "properties": {
    "email": { "type": "string", "format": "email", "title": "E-mail" },
    "avatar": {
      "type": "string",
      "contentEncoding": "base64",
      "contentMediaType": "image/png"
    },
    "language": { "type": "string", "default": "en", "examples": ["en", "de"] },
    "nickname": { "type": "string", "deprecated": true }
  }
}"#;

const ACCOUNT: &str =
    r#"{ "email": "ada@example.com", "avatar": "iVBORw0KGgo=", "nickname": "ada" }"#;

const ACCOUNT_ANSWER: &str =
    r#"{"annotations":[{"absoluteKeywordLocation":"urn:schemareg:root#/properties","annotation":["avatar","email","nickname"],"instanceLocation":"","keywordLocation":"/properties"},{"absoluteKeywordLocation":"urn:schemareg:root#/properties/avatar/contentEncoding","annotation":"base64","instanceLocation":"/avatar","keywordLocation":"/properties/avatar/contentEncoding"},{"absoluteKeywordLocation":"urn:schemareg:root#/properties/avatar/contentMediaType","annotation":"image/png","instanceLocation":"/avatar","keywordLocation":"/properties/avatar/contentMediaType"},{"absoluteKeywordLocation":"urn:schemareg:root#/properties/email/format","annotation":"email","instanceLocation":"/email","keywordLocation":"/properties/email/format"},{"absoluteKeywordLocation":"urn:schemareg:root#/properties/email/title","annotation":"E-mail","instanceLocation":"/email","keywordLocation":"/properties/email/title"},{"absoluteKeywordLocation":"urn:schemareg:root#/properties/nickname/deprecated","annotation":true,"instanceLocation":"/nickname","keywordLocation":"/properties/nickname/deprecated"},{"absoluteKeywordLocation":"urn:schemareg:root#/description","annotation":"What a form generator needs is in the annotations.","instanceLocation":"","keywordLocation":"/description"},{"absoluteKeywordLocation":"urn:schemareg:root#/title","annotation":"Account","instanceLocation":"","keywordLocation":"/title"}],"valid":true}"#;

const WRONG_TYPE_ANSWER: &str =
    r#"{"errors":[{"absoluteKeywordLocation":"urn:schemareg:root#/properties","error":"properties is not met","instanceLocation":"","keywordLocation":"/properties"},{"absoluteKeywordLocation":"urn:schemareg:root#/properties/language/type","error":"type is not met","instanceLocation":"/language","keywordLocation":"/properties/language/type"}],"valid":false}"#;

const FILES: &[FileCheck] = &[
    FileCheck {
        why: "what passes annotates, up to the root, and `language` is absent (OUTPUT.md)",
        uri: DEFAULT_URI,
        schema: SCHEMA,
        instance: ACCOUNT,
        wanted: ACCOUNT_ANSWER,
    },
    FileCheck {
        why: "5 is no string, and what fails annotates nothing (OUTPUT.md)",
        uri: DEFAULT_URI,
        schema: SCHEMA,
        instance: r#"{ "email": "ada@example.com", "language": 5 }"#,
        wanted: WRONG_TYPE_ANSWER,
    },
];

#[test]
fn files_have_their_answers(rt: HostRuntime) {
    for row in FILES {
        expect_files(&rt, rt.alloc(), row);
    }
}
