//! The examples in `examples/settings-file`, written by `examples/write_tests.py`.

use crate::answers::{FileCheck, expect_files};
use checks::DEFAULT_URI;

const SCHEMA: &str = r#"{
  "type": "object",
  "properties": {
    "version": { "type": "string", "pattern": "^[0-9]+\\.[0-9]+$" }
  },
  "patternProperties": {
    "^[A-Z][A-Z0-9_]*$": { "type": "string" },
    "_PORT$": { "pattern": "^[0-9]{1,5}$" }
  },
  "additionalProperties": { "type": "boolean" },
  "propertyNames": { "maxLength": 20 }
}"#;

const MISTAKES: &str =
    r#"{ "version": "1", "DATABASE": 5, "DATABASE_PORT": "five", "verbose": "yes", "a_name_of_many_letters": false }"#;

const MISTAKES_ANSWER: &str =
    r#"{"errors":[{"absoluteKeywordLocation":"urn:schemareg:root#/properties","error":"properties is not met","instanceLocation":"","keywordLocation":"/properties"},{"absoluteKeywordLocation":"urn:schemareg:root#/properties/version/pattern","error":"pattern is not met","instanceLocation":"/version","keywordLocation":"/properties/version/pattern"},{"absoluteKeywordLocation":"urn:schemareg:root#/patternProperties","error":"patternProperties is not met","instanceLocation":"","keywordLocation":"/patternProperties"},{"absoluteKeywordLocation":"urn:schemareg:root#/patternProperties/%5E%5BA-Z%5D%5BA-Z0-9_%5D*$/type","error":"type is not met","instanceLocation":"/DATABASE","keywordLocation":"/patternProperties/^[A-Z][A-Z0-9_]*$/type"},{"absoluteKeywordLocation":"urn:schemareg:root#/patternProperties/_PORT$/pattern","error":"pattern is not met","instanceLocation":"/DATABASE_PORT","keywordLocation":"/patternProperties/_PORT$/pattern"},{"absoluteKeywordLocation":"urn:schemareg:root#/additionalProperties","error":"additionalProperties is not met","instanceLocation":"","keywordLocation":"/additionalProperties"},{"absoluteKeywordLocation":"urn:schemareg:root#/additionalProperties/type","error":"type is not met","instanceLocation":"/verbose","keywordLocation":"/additionalProperties/type"},{"absoluteKeywordLocation":"urn:schemareg:root#/propertyNames","error":"propertyNames is not met","instanceLocation":"","keywordLocation":"/propertyNames"},{"absoluteKeywordLocation":"urn:schemareg:root#/propertyNames/maxLength","error":"maxLength is not met","instanceLocation":"","keywordLocation":"/propertyNames/maxLength"}],"valid":false}"#;

const OTHER_LETTERS_ANSWER: &str =
    r#"{"annotations":[{"absoluteKeywordLocation":"urn:schemareg:root#/properties","annotation":[],"instanceLocation":"","keywordLocation":"/properties"},{"absoluteKeywordLocation":"urn:schemareg:root#/patternProperties","annotation":["LABEL"],"instanceLocation":"","keywordLocation":"/patternProperties"},{"absoluteKeywordLocation":"urn:schemareg:root#/additionalProperties","annotation":["größe"],"instanceLocation":"","keywordLocation":"/additionalProperties"}],"valid":true}"#;

const SETTINGS: &str =
    r#"{ "version": "1.2", "DATABASE": "db.example.com", "DATABASE_PORT": "5432", "verbose": true }"#;

const SETTINGS_ANSWER: &str =
    r#"{"annotations":[{"absoluteKeywordLocation":"urn:schemareg:root#/properties","annotation":["version"],"instanceLocation":"","keywordLocation":"/properties"},{"absoluteKeywordLocation":"urn:schemareg:root#/patternProperties","annotation":["DATABASE","DATABASE_PORT"],"instanceLocation":"","keywordLocation":"/patternProperties"},{"absoluteKeywordLocation":"urn:schemareg:root#/additionalProperties","annotation":["verbose"],"instanceLocation":"","keywordLocation":"/additionalProperties"}],"valid":true}"#;

const FILES: &[FileCheck] = &[
    FileCheck {
        why: "each of five members breaks a rule for its name or value",
        uri: DEFAULT_URI,
        schema: SCHEMA,
        instance: MISTAKES,
        wanted: MISTAKES_ANSWER,
    },
    FileCheck {
        why: "`größe` matches no pattern, so it is additional, and a boolean (Core 10.3.2.3)",
        uri: DEFAULT_URI,
        schema: SCHEMA,
        instance: r#"{ "größe": true, "LABEL": "Ελλάδα" }"#,
        wanted: OTHER_LETTERS_ANSWER,
    },
    FileCheck {
        why: "each name is taken by `properties`, a pattern or `additionalProperties` (Core 10.3.2)",
        uri: DEFAULT_URI,
        schema: SCHEMA,
        instance: SETTINGS,
        wanted: SETTINGS_ANSWER,
    },
];

#[test]
fn files_have_their_answers(rt: HostRuntime) {
    for row in FILES {
        expect_files(&rt, rt.alloc(), row);
    }
}
