//! The examples in `examples/checkout`, written by `examples/write_tests.py`.

use crate::answers::{FileCheck, expect_files};
use checks::DEFAULT_URI;

const SCHEMA: &str = r#"{
  "$id": "https://example.com/checkout",
  "type": "object",
  "required": ["country", "payment"],
  "properties": {
    "country": { "enum": ["DE", "GB", "US"] },
    "postcode": { "type": "string" },
    "payment": { "enum": ["card", "invoice"] },
    "card": { "type": "string", "pattern": "^[0-9]{12,19}$" },
    "company": { "type": "string" }
  },
  "if": {
    "properties": { "country": { "const": "US" } },
    "required": ["country"]
  },
  "then": {
    "properties": { "postcode": { "pattern": "^[0-9]{5}(-[0-9]{4})?$" } },
    "required": ["postcode"]
  },
  "else": {
    "properties": { "postcode": { "minLength": 3 } }
  },
  "dependentRequired": { "card": ["holder"] },
  "dependentSchemas": {
    "company": {
      "properties": { "tax_number": { "type": "string" } },
      "required": ["tax_number"]
    }
  },
  "allOf": [
    {
      "anyOf": [
        { "properties": { "payment": { "const": "invoice" } } },
        { "required": ["card"] }
      ]
    }
  ]
}"#;

const AMERICAN: &str =
    r#"{ "country": "US", "postcode": "94103-1234", "payment": "card", "card": "4111111111111111", "holder": "A. Lovelace" }"#;

const AMERICAN_ANSWER: &str =
    r#"{"annotations":[{"absoluteKeywordLocation":"https://example.com/checkout#/if/properties","annotation":["country"],"instanceLocation":"","keywordLocation":"/if/properties"},{"absoluteKeywordLocation":"https://example.com/checkout#/then/properties","annotation":["postcode"],"instanceLocation":"","keywordLocation":"/then/properties"},{"absoluteKeywordLocation":"https://example.com/checkout#/properties","annotation":["card","country","payment","postcode"],"instanceLocation":"","keywordLocation":"/properties"}],"valid":true}"#;

const COMPANY: &str =
    r#"{ "country": "DE", "payment": "invoice", "company": "Rechner AG", "tax_number": "DE 129" }"#;

const COMPANY_ANSWER: &str =
    r#"{"annotations":[{"absoluteKeywordLocation":"https://example.com/checkout#/allOf/0/anyOf/0/properties","annotation":["payment"],"instanceLocation":"","keywordLocation":"/allOf/0/anyOf/0/properties"},{"absoluteKeywordLocation":"https://example.com/checkout#/else/properties","annotation":[],"instanceLocation":"","keywordLocation":"/else/properties"},{"absoluteKeywordLocation":"https://example.com/checkout#/dependentSchemas/company/properties","annotation":["tax_number"],"instanceLocation":"","keywordLocation":"/dependentSchemas/company/properties"},{"absoluteKeywordLocation":"https://example.com/checkout#/properties","annotation":["company","country","payment"],"instanceLocation":"","keywordLocation":"/properties"}],"valid":true}"#;

const INCOMPLETE: &str =
    r#"{ "country": "US", "postcode": "SW1A 1AA", "payment": "card", "company": "Engines Ltd" }"#;

const INCOMPLETE_ANSWER: &str =
    r#"{"errors":[{"absoluteKeywordLocation":"https://example.com/checkout#/allOf","error":"allOf is not met","instanceLocation":"","keywordLocation":"/allOf"},{"absoluteKeywordLocation":"https://example.com/checkout#/allOf/0/anyOf","error":"anyOf is not met","instanceLocation":"","keywordLocation":"/allOf/0/anyOf"},{"absoluteKeywordLocation":"https://example.com/checkout#/allOf/0/anyOf/0/properties","error":"properties is not met","instanceLocation":"","keywordLocation":"/allOf/0/anyOf/0/properties"},{"absoluteKeywordLocation":"https://example.com/checkout#/allOf/0/anyOf/0/properties/payment/const","error":"const is not met","instanceLocation":"/payment","keywordLocation":"/allOf/0/anyOf/0/properties/payment/const"},{"absoluteKeywordLocation":"https://example.com/checkout#/allOf/0/anyOf/1/required","error":"required is not met","instanceLocation":"","keywordLocation":"/allOf/0/anyOf/1/required"},{"absoluteKeywordLocation":"https://example.com/checkout#/then","error":"then is not met","instanceLocation":"","keywordLocation":"/then"},{"absoluteKeywordLocation":"https://example.com/checkout#/then/properties","error":"properties is not met","instanceLocation":"","keywordLocation":"/then/properties"},{"absoluteKeywordLocation":"https://example.com/checkout#/then/properties/postcode/pattern","error":"pattern is not met","instanceLocation":"/postcode","keywordLocation":"/then/properties/postcode/pattern"},{"absoluteKeywordLocation":"https://example.com/checkout#/dependentSchemas","error":"dependentSchemas is not met","instanceLocation":"","keywordLocation":"/dependentSchemas"},{"absoluteKeywordLocation":"https://example.com/checkout#/dependentSchemas/company/required","error":"required is not met","instanceLocation":"","keywordLocation":"/dependentSchemas/company/required"}],"valid":false}"#;

const SHORT_POSTCODE: &str =
    r#"{ "country": "GB", "postcode": "SW", "payment": "card", "card": "4111 1111" }"#;

const SHORT_POSTCODE_ANSWER: &str =
    r#"{"errors":[{"absoluteKeywordLocation":"https://example.com/checkout#/dependentRequired","error":"dependentRequired is not met","instanceLocation":"","keywordLocation":"/dependentRequired"},{"absoluteKeywordLocation":"https://example.com/checkout#/else","error":"else is not met","instanceLocation":"","keywordLocation":"/else"},{"absoluteKeywordLocation":"https://example.com/checkout#/else/properties","error":"properties is not met","instanceLocation":"","keywordLocation":"/else/properties"},{"absoluteKeywordLocation":"https://example.com/checkout#/else/properties/postcode/minLength","error":"minLength is not met","instanceLocation":"/postcode","keywordLocation":"/else/properties/postcode/minLength"},{"absoluteKeywordLocation":"https://example.com/checkout#/properties","error":"properties is not met","instanceLocation":"","keywordLocation":"/properties"},{"absoluteKeywordLocation":"https://example.com/checkout#/properties/card/pattern","error":"pattern is not met","instanceLocation":"/card","keywordLocation":"/properties/card/pattern"}],"valid":false}"#;

const FILES: &[FileCheck] = &[
    FileCheck {
        why: "`if` passes, so `then` asks for an American postcode (Core 10.2.2.2)",
        uri: DEFAULT_URI,
        schema: SCHEMA,
        instance: AMERICAN,
        wanted: AMERICAN_ANSWER,
    },
    FileCheck {
        why: "`company` asks for a tax number, and an invoice for no card (Core 10.2.2.4)",
        uri: DEFAULT_URI,
        schema: SCHEMA,
        instance: COMPANY,
        wanted: COMPANY_ANSWER,
    },
    FileCheck {
        why: "neither card nor tax number is there, and the postcode isn't American",
        uri: DEFAULT_URI,
        schema: SCHEMA,
        instance: INCOMPLETE,
        wanted: INCOMPLETE_ANSWER,
    },
    FileCheck {
        why: "`else` asks for three characters, `card` for digits and a holder (Core 10.2.2.3)",
        uri: DEFAULT_URI,
        schema: SCHEMA,
        instance: SHORT_POSTCODE,
        wanted: SHORT_POSTCODE_ANSWER,
    },
];

#[test]
fn files_have_their_answers(rt: HostRuntime) {
    for row in FILES {
        expect_files(&rt, rt.alloc(), row);
    }
}
