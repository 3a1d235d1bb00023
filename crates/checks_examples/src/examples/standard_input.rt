//! The examples in `examples/standard-input`, written by `examples/write_tests.py`.

use crate::answers::expect_standard_input;

const INPUT: &str = r#"{
  "schema": {
    "type": "object",
    "required": ["name"],
    "properties": { "name": { "type": "string" } }
  },
  "instance": { "nmae": "Ada" }
}"#;

const INPUT_ANSWER: &str =
    r#"{"errors":[{"absoluteKeywordLocation":"urn:schemareg:root#/required","error":"required is not met","instanceLocation":"","keywordLocation":"/required"}],"valid":false}"#;

const WITH_URI: &str = r#"{
  "uri": "https://example.com/person",
  "schema": {
    "type": "object",
    "required": ["name"],
    "properties": { "name": { "type": "string" } }
  },
  "instance": { "name": "Ada" }
}"#;

const WITH_URI_ANSWER: &str =
    r#"{"annotations":[{"absoluteKeywordLocation":"https://example.com/person#/properties","annotation":["name"],"instanceLocation":"","keywordLocation":"/properties"}],"valid":true}"#;

// Why, input and answer.
const INPUTS: &[(&str, &str, &str)] = &[
    (
        "`name` is required, and `nmae` is another name (Validation 6.5.3)",
        INPUT,
        INPUT_ANSWER,
    ),
    (
        "the schema stands under the `uri` of the input (Core 9.1.1)",
        WITH_URI,
        WITH_URI_ANSWER,
    ),
];

#[test]
fn inputs_have_their_answers(rt: HostRuntime) {
    for row in INPUTS {
        expect_standard_input(&rt, rt.alloc(), row);
    }
}
