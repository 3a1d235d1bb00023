//! The examples in `examples/order-bundle`, written by `examples/write_tests.py`.

use crate::answers::{FileCheck, expect_files};
use checks::DEFAULT_URI;

const SCHEMA: &str = r##"{
  "$id": "https://example.com/orders/order",
  "type": "object",
  "required": ["customer", "lines"],
  "properties": {
    "customer": { "$ref": "../people/customer" },
    "deliver_to": { "$ref": "../people/customer#address" },
    "lines": {
      "type": "array",
      "items": { "$ref": "line" },
      "minItems": 1
    }
  },
  "$defs": {
    "https://example.com/people/customer": {
      "$id": "https://example.com/people/customer",
      "type": "object",
      "required": ["name"],
      "properties": {
        "name": { "type": "string" },
        "home": { "$ref": "#/$defs/address" }
      },
      "$defs": {
        "address": {
          "$anchor": "address",
          "type": "object",
          "required": ["street", "town"]
        }
      }
    },
    "https://example.com/orders/line": {
      "$id": "https://example.com/orders/line",
      "type": "object",
      "required": ["sku", "count"],
      "properties": {
        "count": { "type": "integer", "minimum": 1 }
      }
    }
  }
}"##;

const MISTAKES: &str = r#"{
  "customer": { "home": { "street": "Main Street 1" } },
  "deliver_to": "London",
  "lines": [{ "sku": "LA-0042", "count": 0 }]
}"#;

const MISTAKES_ANSWER: &str =
    r#"{"errors":[{"absoluteKeywordLocation":"https://example.com/orders/order#/properties","error":"properties is not met","instanceLocation":"","keywordLocation":"/properties"},{"absoluteKeywordLocation":"https://example.com/orders/order#/properties/customer/$ref","error":"$ref is not met","instanceLocation":"/customer","keywordLocation":"/properties/customer/$ref"},{"absoluteKeywordLocation":"https://example.com/people/customer#/required","error":"required is not met","instanceLocation":"/customer","keywordLocation":"/properties/customer/$ref/required"},{"absoluteKeywordLocation":"https://example.com/people/customer#/properties","error":"properties is not met","instanceLocation":"/customer","keywordLocation":"/properties/customer/$ref/properties"},{"absoluteKeywordLocation":"https://example.com/people/customer#/properties/home/$ref","error":"$ref is not met","instanceLocation":"/customer/home","keywordLocation":"/properties/customer/$ref/properties/home/$ref"},{"absoluteKeywordLocation":"https://example.com/people/customer#/$defs/address/required","error":"required is not met","instanceLocation":"/customer/home","keywordLocation":"/properties/customer/$ref/properties/home/$ref/required"},{"absoluteKeywordLocation":"https://example.com/orders/order#/properties/deliver_to/$ref","error":"$ref is not met","instanceLocation":"/deliver_to","keywordLocation":"/properties/deliver_to/$ref"},{"absoluteKeywordLocation":"https://example.com/people/customer#/$defs/address/type","error":"type is not met","instanceLocation":"/deliver_to","keywordLocation":"/properties/deliver_to/$ref/type"},{"absoluteKeywordLocation":"https://example.com/orders/order#/properties/lines/items","error":"items is not met","instanceLocation":"/lines","keywordLocation":"/properties/lines/items"},{"absoluteKeywordLocation":"https://example.com/orders/order#/properties/lines/items/$ref","error":"$ref is not met","instanceLocation":"/lines/0","keywordLocation":"/properties/lines/items/$ref"},{"absoluteKeywordLocation":"https://example.com/orders/line#/properties","error":"properties is not met","instanceLocation":"/lines/0","keywordLocation":"/properties/lines/items/$ref/properties"},{"absoluteKeywordLocation":"https://example.com/orders/line#/properties/count/minimum","error":"minimum is not met","instanceLocation":"/lines/0/count","keywordLocation":"/properties/lines/items/$ref/properties/count/minimum"}],"valid":false}"#;

const ORDER: &str = r#"{
  "customer": { "name": "Ada", "home": { "street": "Main Street 1", "town": "London" } },
  "lines": [{ "sku": "LA-0042", "count": 2 }]
}"#;

const ORDER_ANSWER: &str =
    r#"{"annotations":[{"absoluteKeywordLocation":"https://example.com/orders/order#/properties","annotation":["customer","lines"],"instanceLocation":"","keywordLocation":"/properties"},{"absoluteKeywordLocation":"https://example.com/people/customer#/properties","annotation":["home","name"],"instanceLocation":"/customer","keywordLocation":"/properties/customer/$ref/properties"},{"absoluteKeywordLocation":"https://example.com/orders/order#/properties/lines/items","annotation":true,"instanceLocation":"/lines","keywordLocation":"/properties/lines/items"},{"absoluteKeywordLocation":"https://example.com/orders/line#/properties","annotation":["count"],"instanceLocation":"/lines/0","keywordLocation":"/properties/lines/items/$ref/properties"}],"valid":true}"#;

const EMBEDDED: &str = r#"{
  "$id": "https://example.com/shop/order",
  "type": "object",
  "required": ["customer"],
  "properties": {
    "customer": { "$ref": "people/customer" },
    "deliver_to": { "$ref": "people/address#place" },
    "lines": {
      "type": "array",
      "items": { "$id": "line", "required": ["sku"] }
    },
    "gift": { "$ref": "line" }
  },
  "$defs": {
    "https://example.com/shop/people": {
      "$id": "https://example.com/shop/people",
      "$defs": {
        "customer": {
          "$id": "people/customer",
          "type": "object",
          "required": ["name"],
          "properties": { "home": { "$ref": "address" } }
        },
        "address": {
          "$id": "people/address",
          "$anchor": "place",
          "type": "object",
          "required": ["town"]
        }
      }
    }
  }
}"#;

const EMBEDDED_MISTAKES: &str =
    r#"{ "customer": { "name": "Ada", "home": {} }, "deliver_to": 7, "lines": [{}], "gift": {} }"#;

const EMBEDDED_MISTAKES_ANSWER: &str =
    r#"{"errors":[{"absoluteKeywordLocation":"https://example.com/shop/order#/properties","error":"properties is not met","instanceLocation":"","keywordLocation":"/properties"},{"absoluteKeywordLocation":"https://example.com/shop/order#/properties/customer/$ref","error":"$ref is not met","instanceLocation":"/customer","keywordLocation":"/properties/customer/$ref"},{"absoluteKeywordLocation":"https://example.com/shop/people/customer#/properties","error":"properties is not met","instanceLocation":"/customer","keywordLocation":"/properties/customer/$ref/properties"},{"absoluteKeywordLocation":"https://example.com/shop/people/customer#/properties/home/$ref","error":"$ref is not met","instanceLocation":"/customer/home","keywordLocation":"/properties/customer/$ref/properties/home/$ref"},{"absoluteKeywordLocation":"https://example.com/shop/people/address#/required","error":"required is not met","instanceLocation":"/customer/home","keywordLocation":"/properties/customer/$ref/properties/home/$ref/required"},{"absoluteKeywordLocation":"https://example.com/shop/order#/properties/deliver_to/$ref","error":"$ref is not met","instanceLocation":"/deliver_to","keywordLocation":"/properties/deliver_to/$ref"},{"absoluteKeywordLocation":"https://example.com/shop/people/address#/type","error":"type is not met","instanceLocation":"/deliver_to","keywordLocation":"/properties/deliver_to/$ref/type"},{"absoluteKeywordLocation":"https://example.com/shop/order#/properties/gift/$ref","error":"$ref is not met","instanceLocation":"/gift","keywordLocation":"/properties/gift/$ref"},{"absoluteKeywordLocation":"https://example.com/shop/line#/required","error":"required is not met","instanceLocation":"/gift","keywordLocation":"/properties/gift/$ref/required"},{"absoluteKeywordLocation":"https://example.com/shop/order#/properties/lines/items","error":"items is not met","instanceLocation":"/lines","keywordLocation":"/properties/lines/items"},{"absoluteKeywordLocation":"https://example.com/shop/line#/required","error":"required is not met","instanceLocation":"/lines/0","keywordLocation":"/properties/lines/items/required"}],"valid":false}"#;

const EMBEDDED_ORDER: &str =
    r#"{ "customer": { "name": "Ada", "home": { "town": "London" } }, "lines": [{ "sku": "LA-0042" }], "gift": { "sku": "B" } }"#;

const EMBEDDED_ORDER_ANSWER: &str =
    r#"{"annotations":[{"absoluteKeywordLocation":"https://example.com/shop/order#/properties","annotation":["customer","gift","lines"],"instanceLocation":"","keywordLocation":"/properties"},{"absoluteKeywordLocation":"https://example.com/shop/people/customer#/properties","annotation":["home"],"instanceLocation":"/customer","keywordLocation":"/properties/customer/$ref/properties"},{"absoluteKeywordLocation":"https://example.com/shop/order#/properties/lines/items","annotation":true,"instanceLocation":"/lines","keywordLocation":"/properties/lines/items"}],"valid":true}"#;

const MUTUAL: &str = r#"{
  "$id": "https://example.com/person",
  "type": "object",
  "required": ["name"],
  "properties": {
    "name": { "type": "string" },
    "employer": { "$ref": "company" }
  },
  "$defs": {
    "https://example.com/company": {
      "$id": "https://example.com/company",
      "type": "object",
      "required": ["name"],
      "properties": {
        "staff": {
          "type": "array",
          "items": { "$ref": "person" }
        }
      }
    }
  }
}"#;

const MUTUAL_EMPLOYED: &str =
    r#"{ "name": "Ada", "employer": { "name": "Engines", "staff": [{ "name": "Charles" }] } }"#;

const MUTUAL_EMPLOYED_ANSWER: &str =
    r#"{"annotations":[{"absoluteKeywordLocation":"https://example.com/person#/properties","annotation":["employer","name"],"instanceLocation":"","keywordLocation":"/properties"},{"absoluteKeywordLocation":"https://example.com/company#/properties","annotation":["staff"],"instanceLocation":"/employer","keywordLocation":"/properties/employer/$ref/properties"},{"absoluteKeywordLocation":"https://example.com/company#/properties/staff/items","annotation":true,"instanceLocation":"/employer/staff","keywordLocation":"/properties/employer/$ref/properties/staff/items"},{"absoluteKeywordLocation":"https://example.com/person#/properties","annotation":["name"],"instanceLocation":"/employer/staff/0","keywordLocation":"/properties/employer/$ref/properties/staff/items/$ref/properties"}],"valid":true}"#;

const MUTUAL_MISTAKES_ANSWER: &str =
    r#"{"errors":[{"absoluteKeywordLocation":"https://example.com/person#/properties","error":"properties is not met","instanceLocation":"","keywordLocation":"/properties"},{"absoluteKeywordLocation":"https://example.com/person#/properties/employer/$ref","error":"$ref is not met","instanceLocation":"/employer","keywordLocation":"/properties/employer/$ref"},{"absoluteKeywordLocation":"https://example.com/company#/required","error":"required is not met","instanceLocation":"/employer","keywordLocation":"/properties/employer/$ref/required"},{"absoluteKeywordLocation":"https://example.com/company#/properties","error":"properties is not met","instanceLocation":"/employer","keywordLocation":"/properties/employer/$ref/properties"},{"absoluteKeywordLocation":"https://example.com/company#/properties/staff/items","error":"items is not met","instanceLocation":"/employer/staff","keywordLocation":"/properties/employer/$ref/properties/staff/items"},{"absoluteKeywordLocation":"https://example.com/company#/properties/staff/items/$ref","error":"$ref is not met","instanceLocation":"/employer/staff/0","keywordLocation":"/properties/employer/$ref/properties/staff/items/$ref"},{"absoluteKeywordLocation":"https://example.com/person#/properties","error":"properties is not met","instanceLocation":"/employer/staff/0","keywordLocation":"/properties/employer/$ref/properties/staff/items/$ref/properties"},{"absoluteKeywordLocation":"https://example.com/person#/properties/name/type","error":"type is not met","instanceLocation":"/employer/staff/0/name","keywordLocation":"/properties/employer/$ref/properties/staff/items/$ref/properties/name/type"}],"valid":false}"#;

const STRICT_TREE: &str = r##"{
  "$id": "https://example.com/strict-tree",
  "$dynamicAnchor": "node",
  "$ref": "tree",
  "unevaluatedProperties": false,
  "$defs": {
    "https://example.com/tree": {
      "$id": "https://example.com/tree",
      "$dynamicAnchor": "node",
      "type": "object",
      "properties": {
        "data": true,
        "children": {
          "type": "array",
          "items": { "$dynamicRef": "#node" }
        }
      }
    }
  }
}"##;

const STRICT_TREE_MISSPELT_ANSWER: &str =
    r#"{"errors":[{"absoluteKeywordLocation":"https://example.com/strict-tree#/$ref","error":"$ref is not met","instanceLocation":"","keywordLocation":"/$ref"},{"absoluteKeywordLocation":"https://example.com/tree#/properties","error":"properties is not met","instanceLocation":"","keywordLocation":"/$ref/properties"},{"absoluteKeywordLocation":"https://example.com/tree#/properties/children/items","error":"items is not met","instanceLocation":"/children","keywordLocation":"/$ref/properties/children/items"},{"absoluteKeywordLocation":"https://example.com/tree#/properties/children/items/$dynamicRef","error":"$dynamicRef is not met","instanceLocation":"/children/0","keywordLocation":"/$ref/properties/children/items/$dynamicRef"},{"absoluteKeywordLocation":"https://example.com/strict-tree#/unevaluatedProperties","error":"unevaluatedProperties is not met","instanceLocation":"/children/0","keywordLocation":"/$ref/properties/children/items/$dynamicRef/unevaluatedProperties"},{"absoluteKeywordLocation":"https://example.com/strict-tree#/unevaluatedProperties","error":"no value is allowed","instanceLocation":"/children/0/daat","keywordLocation":"/$ref/properties/children/items/$dynamicRef/unevaluatedProperties"},{"absoluteKeywordLocation":"https://example.com/strict-tree#/unevaluatedProperties","error":"unevaluatedProperties is not met","instanceLocation":"","keywordLocation":"/unevaluatedProperties"},{"absoluteKeywordLocation":"https://example.com/strict-tree#/unevaluatedProperties","error":"no value is allowed","instanceLocation":"/children","keywordLocation":"/unevaluatedProperties"}],"valid":false}"#;

const STRICT_TREE_TREE: &str = r#"{ "data": 1, "children": [{ "data": 2 }, { "children": [] }] }"#;

const STRICT_TREE_TREE_ANSWER: &str =
    r#"{"annotations":[{"absoluteKeywordLocation":"https://example.com/tree#/properties","annotation":["children","data"],"instanceLocation":"","keywordLocation":"/$ref/properties"},{"absoluteKeywordLocation":"https://example.com/tree#/properties/children/items","annotation":true,"instanceLocation":"/children","keywordLocation":"/$ref/properties/children/items"},{"absoluteKeywordLocation":"https://example.com/tree#/properties","annotation":["data"],"instanceLocation":"/children/0","keywordLocation":"/$ref/properties/children/items/$dynamicRef/$ref/properties"},{"absoluteKeywordLocation":"https://example.com/strict-tree#/unevaluatedProperties","annotation":[],"instanceLocation":"/children/0","keywordLocation":"/$ref/properties/children/items/$dynamicRef/unevaluatedProperties"},{"absoluteKeywordLocation":"https://example.com/tree#/properties","annotation":["children"],"instanceLocation":"/children/1","keywordLocation":"/$ref/properties/children/items/$dynamicRef/$ref/properties"},{"absoluteKeywordLocation":"https://example.com/strict-tree#/unevaluatedProperties","annotation":[],"instanceLocation":"/children/1","keywordLocation":"/$ref/properties/children/items/$dynamicRef/unevaluatedProperties"},{"absoluteKeywordLocation":"https://example.com/strict-tree#/unevaluatedProperties","annotation":[],"instanceLocation":"","keywordLocation":"/unevaluatedProperties"}],"valid":true}"#;

const FILES: &[FileCheck] = &[
    FileCheck {
        why: "resources of one document are found by their URIs, and fail (Core 9.3)",
        uri: DEFAULT_URI,
        schema: SCHEMA,
        instance: MISTAKES,
        wanted: MISTAKES_ANSWER,
    },
    FileCheck {
        why: "resources of one document are found by their URIs, and pass (Core 9.3)",
        uri: DEFAULT_URI,
        schema: SCHEMA,
        instance: ORDER,
        wanted: ORDER_ANSWER,
    },
    FileCheck {
        why: "resources within embedded ones are found by their URIs, and fail (Core 9.3)",
        uri: DEFAULT_URI,
        schema: EMBEDDED,
        instance: EMBEDDED_MISTAKES,
        wanted: EMBEDDED_MISTAKES_ANSWER,
    },
    FileCheck {
        why: "resources within embedded ones are found by their URIs, and pass (Core 9.3)",
        uri: DEFAULT_URI,
        schema: EMBEDDED,
        instance: EMBEDDED_ORDER,
        wanted: EMBEDDED_ORDER_ANSWER,
    },
    FileCheck {
        why: "documents refer to each other at other places: no loop (Core 9.4.1)",
        uri: DEFAULT_URI,
        schema: MUTUAL,
        instance: MUTUAL_EMPLOYED,
        wanted: MUTUAL_EMPLOYED_ANSWER,
    },
    FileCheck {
        why: "the employer lacks a name, and that of its employee is no string",
        uri: DEFAULT_URI,
        schema: MUTUAL,
        instance: r#"{ "name": "Ada", "employer": { "staff": [{ "name": 7 }] } }"#,
        wanted: MUTUAL_MISTAKES_ANSWER,
    },
    FileCheck {
        why: "the outermost anchor is the strict tree's, at every level (Core 8.2.3.2)",
        uri: DEFAULT_URI,
        schema: STRICT_TREE,
        instance: r#"{ "children": [{ "daat": 1 }] }"#,
        wanted: STRICT_TREE_MISSPELT_ANSWER,
    },
    FileCheck {
        why: "the tree evaluates all members, at every level (Core 11.3)",
        uri: DEFAULT_URI,
        schema: STRICT_TREE,
        instance: STRICT_TREE_TREE,
        wanted: STRICT_TREE_TREE_ANSWER,
    },
];

#[test]
fn files_have_their_answers(rt: HostRuntime) {
    for row in FILES {
        expect_files(&rt, rt.alloc(), row);
    }
}
