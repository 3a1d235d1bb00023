//! Evaluations over several linked documents.

use crate::documents::{Evaluation, expect_answer};

const EMPTY_REPORT: &str = r#"{"annotations":[],"valid":true}"#;

// A tree, and the same tree without other members.
const TREES: &[(&str, &str)] = &[
    (
        "https://example.com/tree",
        r##"{"$dynamicAnchor":"node","type":"object","properties":{"data":true,"children":{"type":"array","items":{"$dynamicRef":"#node"}}}}"##,
    ),
    (
        "https://example.com/strict-tree",
        r##"{"$dynamicAnchor":"node","$ref":"tree","unevaluatedProperties":false}"##,
    ),
];

// What a schema that refers to another one asks for is asked for below it, too.
const EXTENDED: &[(&str, &str)] = &[
    (
        "https://example.com/base",
        r##"{"$dynamicAnchor":"node","properties":{"c":{"$dynamicRef":"#node"}}}"##,
    ),
    (
        "https://example.com/ext",
        r##"{"$dynamicAnchor":"node","$ref":"base","required":["x"]}"##,
    ),
];

// Each reference needs its document: the first alone, the first two, and all.
const ALONE: &[(&str, &str)] = &[(
    "https://ex.org/s",
    r#"{"$defs":{"u":{"$ref":"q"},"v":{"$ref":"p"}}}"#,
)];

const TWO: &[(&str, &str)] = &[
    (
        "https://ex.org/s",
        r#"{"$defs":{"u":{"$ref":"q"},"v":{"$ref":"p"}}}"#,
    ),
    ("https://ex.org/p", "{}"),
];

const THREE: &[(&str, &str)] = &[
    (
        "https://ex.org/s",
        r#"{"$defs":{"u":{"$ref":"q"},"v":{"$ref":"p"}}}"#,
    ),
    ("https://ex.org/p", "{}"),
    ("https://ex.org/q", "{}"),
];

// Two documents that refer to one another at the same place.
const LOOPING: &[(&str, &str)] = &[
    ("https://ex.org/root", r#"{"$ref":"b"}"#),
    ("https://ex.org/b", r#"{"$ref":"root"}"#),
];

// An embedded resource can be asked for, and what is asked for decides alone.
const EMBEDDED: &[(&str, &str)] = &[(
    "https://ex.org/s",
    r#"{"type":"null","$defs":{"e":{"$id":"e","type":"integer"}}}"#,
)];

const TREE_IS_VALID: &str =
    r#"{"annotations":[{"absoluteKeywordLocation":"https://example.com/tree#/properties","annotation":["children"],"instanceLocation":"","keywordLocation":"/properties"},{"absoluteKeywordLocation":"https://example.com/tree#/properties/children/items","annotation":true,"instanceLocation":"/children","keywordLocation":"/properties/children/items"},{"absoluteKeywordLocation":"https://example.com/tree#/properties","annotation":[],"instanceLocation":"/children/0","keywordLocation":"/properties/children/items/$dynamicRef/properties"}],"valid":true}"#;

const MISSPELT_BELOW: &str =
    r#"{"errors":[{"absoluteKeywordLocation":"https://example.com/strict-tree#/$ref","error":"$ref is not met","instanceLocation":"","keywordLocation":"/$ref"},{"absoluteKeywordLocation":"https://example.com/tree#/properties","error":"properties is not met","instanceLocation":"","keywordLocation":"/$ref/properties"},{"absoluteKeywordLocation":"https://example.com/tree#/properties/children/items","error":"items is not met","instanceLocation":"/children","keywordLocation":"/$ref/properties/children/items"},{"absoluteKeywordLocation":"https://example.com/tree#/properties/children/items/$dynamicRef","error":"$dynamicRef is not met","instanceLocation":"/children/0","keywordLocation":"/$ref/properties/children/items/$dynamicRef"},{"absoluteKeywordLocation":"https://example.com/strict-tree#/unevaluatedProperties","error":"unevaluatedProperties is not met","instanceLocation":"/children/0","keywordLocation":"/$ref/properties/children/items/$dynamicRef/unevaluatedProperties"},{"absoluteKeywordLocation":"https://example.com/strict-tree#/unevaluatedProperties","error":"no value is allowed","instanceLocation":"/children/0/daat","keywordLocation":"/$ref/properties/children/items/$dynamicRef/unevaluatedProperties"},{"absoluteKeywordLocation":"https://example.com/strict-tree#/unevaluatedProperties","error":"unevaluatedProperties is not met","instanceLocation":"","keywordLocation":"/unevaluatedProperties"},{"absoluteKeywordLocation":"https://example.com/strict-tree#/unevaluatedProperties","error":"no value is allowed","instanceLocation":"/children","keywordLocation":"/unevaluatedProperties"}],"valid":false}"#;

const BASE_IS_VALID: &str =
    r#"{"annotations":[{"absoluteKeywordLocation":"https://example.com/base#/properties","annotation":["c"],"instanceLocation":"","keywordLocation":"/properties"},{"absoluteKeywordLocation":"https://example.com/base#/properties","annotation":[],"instanceLocation":"/c","keywordLocation":"/properties/c/$dynamicRef/properties"}],"valid":true}"#;

const NO_X_BELOW_C: &str =
    r#"{"errors":[{"absoluteKeywordLocation":"https://example.com/ext#/$ref","error":"$ref is not met","instanceLocation":"","keywordLocation":"/$ref"},{"absoluteKeywordLocation":"https://example.com/base#/properties","error":"properties is not met","instanceLocation":"","keywordLocation":"/$ref/properties"},{"absoluteKeywordLocation":"https://example.com/base#/properties/c/$dynamicRef","error":"$dynamicRef is not met","instanceLocation":"/c","keywordLocation":"/$ref/properties/c/$dynamicRef"},{"absoluteKeywordLocation":"https://example.com/ext#/required","error":"required is not met","instanceLocation":"/c","keywordLocation":"/$ref/properties/c/$dynamicRef/required"}],"valid":false}"#;

const NO_INTEGER_IN_E: &str =
    r#"{"errors":[{"absoluteKeywordLocation":"https://ex.org/e#/type","error":"type is not met","instanceLocation":"","keywordLocation":"/type"}],"valid":false}"#;

const ANSWERS: &[Evaluation] = &[
    Evaluation {
        why: "asked for itself, the tree's own anchor is the outermost (Core 8.2.3.2)",
        documents: TREES,
        uri: "https://example.com/tree",
        instance: r#"{"children":[{"daat":1}]}"#,
        wanted: TREE_IS_VALID,
    },
    Evaluation {
        why: "the strict tree's anchor is the outermost, at every level (Core 8.2.3.2)",
        documents: TREES,
        uri: "https://example.com/strict-tree",
        instance: r#"{"children":[{"daat":1}]}"#,
        wanted: MISSPELT_BELOW,
    },
    Evaluation {
        why: "asked for itself, the base asks for no `x` below (Core 8.2.3.2)",
        documents: EXTENDED,
        uri: "https://example.com/base",
        instance: r#"{"c":{},"x":1}"#,
        wanted: BASE_IS_VALID,
    },
    Evaluation {
        why: "below `c` the outermost anchor asks for `x`, too (Core 8.2.3.2)",
        documents: EXTENDED,
        uri: "https://example.com/ext",
        instance: r#"{"c":{},"x":1}"#,
        wanted: NO_X_BELOW_C,
    },
    Evaluation {
        why: "both references lead nowhere, and the lesser is told (PROFILE.md)",
        documents: ALONE,
        uri: "https://ex.org/s",
        instance: "null",
        wanted: "15 Unresolved https://ex.org/p",
    },
    Evaluation {
        why: "the other reference is left without its document (PROFILE.md)",
        documents: TWO,
        uri: "https://ex.org/s",
        instance: "null",
        wanted: "15 Unresolved https://ex.org/q",
    },
    Evaluation {
        why: "each reference has its document, and none is applied",
        documents: THREE,
        uri: "https://ex.org/s",
        instance: "null",
        wanted: EMPTY_REPORT,
    },
    Evaluation {
        why: "two documents that refer to each other at one place loop (Core 9.4.1)",
        documents: LOOPING,
        uri: "https://ex.org/root",
        instance: "1",
        wanted: "17 Loop",
    },
    Evaluation {
        why: "an embedded resource is asked for, and an integer is one (Validation 6.1.1)",
        documents: EMBEDDED,
        uri: "https://ex.org/e",
        instance: "1",
        wanted: EMPTY_REPORT,
    },
    Evaluation {
        why: "what is asked for decides alone, not the document around it",
        documents: EMBEDDED,
        uri: "https://ex.org/e",
        instance: "null",
        wanted: NO_INTEGER_IN_E,
    },
    Evaluation {
        why: "no document has a resource of this URI (PROFILE.md)",
        documents: EMBEDDED,
        uri: "https://ex.org/t",
        instance: "1",
        wanted: "14 NotFound",
    },
];

#[test]
fn linked_documents_answer(rt: HostRuntime) {
    for row in ANSWERS {
        expect_answer(&rt, rt.alloc(), row);
    }
}
