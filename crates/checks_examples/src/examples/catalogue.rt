//! The examples in `examples/catalogue`, written by `examples/write_tests.py`.

use crate::answers::{FileCheck, expect_files};
use checks::DEFAULT_URI;

const SCHEMA: &str = r##"{
  "$schema": "https://json-schema.org/draft/2020-12/schema",
  "$id": "https://example.com/catalogue",
  "type": "object",
  "required": ["products"],
  "properties": {
    "products": {
      "type": "array",
      "items": { "$ref": "#/$defs/product" }
    }
  },
  "additionalProperties": false,
  "$defs": {
    "product": {
      "type": "object",
      "required": ["sku", "name", "price"],
      "properties": {
        "sku": { "type": "string", "pattern": "^[A-Z]{2}-[0-9]{4}$" },
        "name": { "type": "string", "minLength": 1, "maxLength": 80 },
        "price": { "$ref": "#/$defs/money" },
        "stock": { "type": "integer", "minimum": 0 },
        "tags": {
          "type": "array",
          "items": { "type": "string" },
          "uniqueItems": true
        },
        "size": {
          "type": "object",
          "required": ["width", "height"],
          "properties": {
            "width": { "$ref": "#/$defs/millimetres" },
            "height": { "$ref": "#/$defs/millimetres" }
          }
        }
      },
      "additionalProperties": false
    },
    "money": {
      "type": "object",
      "required": ["cents", "currency"],
      "properties": {
        "cents": { "type": "integer", "minimum": 0 },
        "currency": { "enum": ["EUR", "GBP", "USD"] }
      }
    },
    "millimetres": { "type": "integer", "exclusiveMinimum": 0 }
  }
}"##;

const MISTAKES: &str = r#"{
  "products": [
    {
      "sku": "la-42",
      "name": "",
      "price": { "cents": -1, "currency": "EUR" },
      "tags": ["light", "office", "light"],
      "size": { "width": 0 },
      "colour": "red"
    },
    { "sku": "CH-1200", "name": "Chair" }
  ],
  "page": 1
}"#;

const MISTAKES_ANSWER: &str =
    r#"{"errors":[{"absoluteKeywordLocation":"https://example.com/catalogue#/properties","error":"properties is not met","instanceLocation":"","keywordLocation":"/properties"},{"absoluteKeywordLocation":"https://example.com/catalogue#/properties/products/items","error":"items is not met","instanceLocation":"/products","keywordLocation":"/properties/products/items"},{"absoluteKeywordLocation":"https://example.com/catalogue#/properties/products/items/$ref","error":"$ref is not met","instanceLocation":"/products/0","keywordLocation":"/properties/products/items/$ref"},{"absoluteKeywordLocation":"https://example.com/catalogue#/$defs/product/properties","error":"properties is not met","instanceLocation":"/products/0","keywordLocation":"/properties/products/items/$ref/properties"},{"absoluteKeywordLocation":"https://example.com/catalogue#/$defs/product/properties/name/minLength","error":"minLength is not met","instanceLocation":"/products/0/name","keywordLocation":"/properties/products/items/$ref/properties/name/minLength"},{"absoluteKeywordLocation":"https://example.com/catalogue#/$defs/product/properties/price/$ref","error":"$ref is not met","instanceLocation":"/products/0/price","keywordLocation":"/properties/products/items/$ref/properties/price/$ref"},{"absoluteKeywordLocation":"https://example.com/catalogue#/$defs/money/properties","error":"properties is not met","instanceLocation":"/products/0/price","keywordLocation":"/properties/products/items/$ref/properties/price/$ref/properties"},{"absoluteKeywordLocation":"https://example.com/catalogue#/$defs/money/properties/cents/minimum","error":"minimum is not met","instanceLocation":"/products/0/price/cents","keywordLocation":"/properties/products/items/$ref/properties/price/$ref/properties/cents/minimum"},{"absoluteKeywordLocation":"https://example.com/catalogue#/$defs/product/properties/size/required","error":"required is not met","instanceLocation":"/products/0/size","keywordLocation":"/properties/products/items/$ref/properties/size/required"},{"absoluteKeywordLocation":"https://example.com/catalogue#/$defs/product/properties/size/properties","error":"properties is not met","instanceLocation":"/products/0/size","keywordLocation":"/properties/products/items/$ref/properties/size/properties"},{"absoluteKeywordLocation":"https://example.com/catalogue#/$defs/product/properties/size/properties/width/$ref","error":"$ref is not met","instanceLocation":"/products/0/size/width","keywordLocation":"/properties/products/items/$ref/properties/size/properties/width/$ref"},{"absoluteKeywordLocation":"https://example.com/catalogue#/$defs/millimetres/exclusiveMinimum","error":"exclusiveMinimum is not met","instanceLocation":"/products/0/size/width","keywordLocation":"/properties/products/items/$ref/properties/size/properties/width/$ref/exclusiveMinimum"},{"absoluteKeywordLocation":"https://example.com/catalogue#/$defs/product/properties/sku/pattern","error":"pattern is not met","instanceLocation":"/products/0/sku","keywordLocation":"/properties/products/items/$ref/properties/sku/pattern"},{"absoluteKeywordLocation":"https://example.com/catalogue#/$defs/product/properties/tags/uniqueItems","error":"uniqueItems is not met","instanceLocation":"/products/0/tags","keywordLocation":"/properties/products/items/$ref/properties/tags/uniqueItems"},{"absoluteKeywordLocation":"https://example.com/catalogue#/$defs/product/additionalProperties","error":"additionalProperties is not met","instanceLocation":"/products/0","keywordLocation":"/properties/products/items/$ref/additionalProperties"},{"absoluteKeywordLocation":"https://example.com/catalogue#/$defs/product/additionalProperties","error":"no value is allowed","instanceLocation":"/products/0/colour","keywordLocation":"/properties/products/items/$ref/additionalProperties"},{"absoluteKeywordLocation":"https://example.com/catalogue#/properties/products/items/$ref","error":"$ref is not met","instanceLocation":"/products/1","keywordLocation":"/properties/products/items/$ref"},{"absoluteKeywordLocation":"https://example.com/catalogue#/$defs/product/required","error":"required is not met","instanceLocation":"/products/1","keywordLocation":"/properties/products/items/$ref/required"},{"absoluteKeywordLocation":"https://example.com/catalogue#/additionalProperties","error":"additionalProperties is not met","instanceLocation":"","keywordLocation":"/additionalProperties"},{"absoluteKeywordLocation":"https://example.com/catalogue#/additionalProperties","error":"no value is allowed","instanceLocation":"/page","keywordLocation":"/additionalProperties"}],"valid":false}"#;

const TWO_PRODUCTS: &str = r#"{
  "products": [
    {
      "sku": "LA-0042",
      "name": "Desk lamp",
      "price": { "cents": 3495, "currency": "EUR" },
      "stock": 12,
      "tags": ["light", "office"],
      "size": { "width": 180, "height": 450 }
    },
    {
      "sku": "CH-1200",
      "name": "Chair",
      "price": { "cents": 12900, "currency": "GBP" }
    }
  ]
}"#;

const TWO_PRODUCTS_ANSWER: &str =
    r#"{"annotations":[{"absoluteKeywordLocation":"https://example.com/catalogue#/properties","annotation":["products"],"instanceLocation":"","keywordLocation":"/properties"},{"absoluteKeywordLocation":"https://example.com/catalogue#/properties/products/items","annotation":true,"instanceLocation":"/products","keywordLocation":"/properties/products/items"},{"absoluteKeywordLocation":"https://example.com/catalogue#/$defs/product/properties","annotation":["name","price","size","sku","stock","tags"],"instanceLocation":"/products/0","keywordLocation":"/properties/products/items/$ref/properties"},{"absoluteKeywordLocation":"https://example.com/catalogue#/$defs/money/properties","annotation":["cents","currency"],"instanceLocation":"/products/0/price","keywordLocation":"/properties/products/items/$ref/properties/price/$ref/properties"},{"absoluteKeywordLocation":"https://example.com/catalogue#/$defs/product/properties/size/properties","annotation":["height","width"],"instanceLocation":"/products/0/size","keywordLocation":"/properties/products/items/$ref/properties/size/properties"},{"absoluteKeywordLocation":"https://example.com/catalogue#/$defs/product/properties/tags/items","annotation":true,"instanceLocation":"/products/0/tags","keywordLocation":"/properties/products/items/$ref/properties/tags/items"},{"absoluteKeywordLocation":"https://example.com/catalogue#/$defs/product/additionalProperties","annotation":[],"instanceLocation":"/products/0","keywordLocation":"/properties/products/items/$ref/additionalProperties"},{"absoluteKeywordLocation":"https://example.com/catalogue#/$defs/product/properties","annotation":["name","price","sku"],"instanceLocation":"/products/1","keywordLocation":"/properties/products/items/$ref/properties"},{"absoluteKeywordLocation":"https://example.com/catalogue#/$defs/money/properties","annotation":["cents","currency"],"instanceLocation":"/products/1/price","keywordLocation":"/properties/products/items/$ref/properties/price/$ref/properties"},{"absoluteKeywordLocation":"https://example.com/catalogue#/$defs/product/additionalProperties","annotation":[],"instanceLocation":"/products/1","keywordLocation":"/properties/products/items/$ref/additionalProperties"},{"absoluteKeywordLocation":"https://example.com/catalogue#/additionalProperties","annotation":[],"instanceLocation":"","keywordLocation":"/additionalProperties"}],"valid":true}"#;

const FILES: &[FileCheck] = &[
    FileCheck {
        why: "each keyword that fails has its unit, in the order of evaluation (OUTPUT.md)",
        uri: DEFAULT_URI,
        schema: SCHEMA,
        instance: MISTAKES,
        wanted: MISTAKES_ANSWER,
    },
    FileCheck {
        why: "each reference is met, and `properties` takes every member (Core 10.3.2.3)",
        uri: DEFAULT_URI,
        schema: SCHEMA,
        instance: TWO_PRODUCTS,
        wanted: TWO_PRODUCTS_ANSWER,
    },
];

#[test]
fn files_have_their_answers(rt: HostRuntime) {
    for row in FILES {
        expect_files(&rt, rt.alloc(), row);
    }
}
