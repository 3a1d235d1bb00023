//! References, `$id`s and patterns that several linked documents have.

use crate::documents::{Evaluation, SEVEN, expect_answer};

// The same relative `$id` in two documents, and one in the third alone; a pattern of two documents, and one of the third.
const IDENTIFIED: &[(&str, &str)] = &[
    (
        "https://ex.org/m",
        r##"{"prefixItems":[{"$ref":"a/one"},{"$ref":"b/two"},{"$id":"own","pattern":"^a"},{"$ref":"b/inner"}]}"##,
    ),
    (
        "https://ex.org/a/one",
        r##"{"items":{"$id":"inner","pattern":"^a"}}"##,
    ),
    (
        "https://ex.org/b/two",
        r##"{"items":{"$id":"inner","pattern":"^b"}}"##,
    ),
];

// One text that refers to another schema in each of four resources, two of them in each document.
const SAME_TEXT: &[(&str, &str)] = &[
    (
        "https://ex.org/a/one",
        r##"{"$defs":{"x":{"const":1}},"prefixItems":[{"$ref":"#/$defs/x"},{"$id":"in","$defs":{"x":{"const":2}},"$ref":"#/$defs/x"},{"$ref":"../b/two"}]}"##,
    ),
    (
        "https://ex.org/b/two",
        r##"{"$defs":{"x":{"const":3}},"prefixItems":[{"$ref":"#/$defs/x"},{"$id":"in","$defs":{"x":{"const":4}},"$ref":"#/$defs/x"}]}"##,
    ),
];

// Long patterns in two documents, which differ at their ends alone.
const LONG: &[(&str, &str)] = &[
    (
        "https://ex.org/m",
        r##"{"prefixItems":[{"$ref":"one"},{"$ref":"two"}]}"##,
    ),
    (
        "https://ex.org/one",
        r##"{"items":{"pattern":"^xxxxxxxxxxxxxxxxxxxxxxxxxxxxxxxxxxxxxxxxxxxxxxxxxxxxxxxxxxxxxxxxxxxxxxa$"}}"##,
    ),
    (
        "https://ex.org/two",
        r##"{"items":{"pattern":"^xxxxxxxxxxxxxxxxxxxxxxxxxxxxxxxxxxxxxxxxxxxxxxxxxxxxxxxxxxxxxxxxxxxxxxb$"}}"##,
    ),
];

const ALL_SEVEN_HOLD: &str =
    r#"{"annotations":[{"absoluteKeywordLocation":"https://ex.org/m#/prefixItems","annotation":true,"instanceLocation":"","keywordLocation":"/prefixItems"}],"valid":true}"#;

const LAST_OF_SEVEN_FAILS: &str =
    r#"{"errors":[{"absoluteKeywordLocation":"https://ex.org/m#/prefixItems","error":"prefixItems is not met","instanceLocation":"","keywordLocation":"/prefixItems"},{"absoluteKeywordLocation":"https://ex.org/m#/prefixItems/6/$ref","error":"$ref is not met","instanceLocation":"/6","keywordLocation":"/prefixItems/6/$ref"},{"absoluteKeywordLocation":"https://ex.org/e6#/$ref","error":"$ref is not met","instanceLocation":"/6","keywordLocation":"/prefixItems/6/$ref/$ref"},{"absoluteKeywordLocation":"https://ex.org/e6#/$defs/n/const","error":"const is not met","instanceLocation":"/6","keywordLocation":"/prefixItems/6/$ref/$ref/const"}],"valid":false}"#;

const EACH_HAS_ITS_INNER: &str =
    r#"{"annotations":[{"absoluteKeywordLocation":"https://ex.org/m#/prefixItems","annotation":true,"instanceLocation":"","keywordLocation":"/prefixItems"},{"absoluteKeywordLocation":"https://ex.org/a/one#/items","annotation":true,"instanceLocation":"/0","keywordLocation":"/prefixItems/0/$ref/items"},{"absoluteKeywordLocation":"https://ex.org/b/two#/items","annotation":true,"instanceLocation":"/1","keywordLocation":"/prefixItems/1/$ref/items"}],"valid":true}"#;

const NONE_HAS_THE_OTHERS: &str =
    r#"{"errors":[{"absoluteKeywordLocation":"https://ex.org/m#/prefixItems","error":"prefixItems is not met","instanceLocation":"","keywordLocation":"/prefixItems"},{"absoluteKeywordLocation":"https://ex.org/m#/prefixItems/0/$ref","error":"$ref is not met","instanceLocation":"/0","keywordLocation":"/prefixItems/0/$ref"},{"absoluteKeywordLocation":"https://ex.org/a/one#/items","error":"items is not met","instanceLocation":"/0","keywordLocation":"/prefixItems/0/$ref/items"},{"absoluteKeywordLocation":"https://ex.org/a/inner#/pattern","error":"pattern is not met","instanceLocation":"/0/1","keywordLocation":"/prefixItems/0/$ref/items/pattern"},{"absoluteKeywordLocation":"https://ex.org/m#/prefixItems/1/$ref","error":"$ref is not met","instanceLocation":"/1","keywordLocation":"/prefixItems/1/$ref"},{"absoluteKeywordLocation":"https://ex.org/b/two#/items","error":"items is not met","instanceLocation":"/1","keywordLocation":"/prefixItems/1/$ref/items"},{"absoluteKeywordLocation":"https://ex.org/b/inner#/pattern","error":"pattern is not met","instanceLocation":"/1/0","keywordLocation":"/prefixItems/1/$ref/items/pattern"},{"absoluteKeywordLocation":"https://ex.org/own#/pattern","error":"pattern is not met","instanceLocation":"/2","keywordLocation":"/prefixItems/2/pattern"},{"absoluteKeywordLocation":"https://ex.org/m#/prefixItems/3/$ref","error":"$ref is not met","instanceLocation":"/3","keywordLocation":"/prefixItems/3/$ref"},{"absoluteKeywordLocation":"https://ex.org/b/inner#/pattern","error":"pattern is not met","instanceLocation":"/3","keywordLocation":"/prefixItems/3/$ref/pattern"}],"valid":false}"#;

const EACH_HAS_ITS_NUMBER: &str =
    r#"{"annotations":[{"absoluteKeywordLocation":"https://ex.org/a/one#/prefixItems","annotation":true,"instanceLocation":"","keywordLocation":"/prefixItems"},{"absoluteKeywordLocation":"https://ex.org/b/two#/prefixItems","annotation":true,"instanceLocation":"/2","keywordLocation":"/prefixItems/2/$ref/prefixItems"}],"valid":true}"#;

const IT_HAS_NOT_THE_OTHERS: &str =
    r#"{"errors":[{"absoluteKeywordLocation":"https://ex.org/a/one#/prefixItems","error":"prefixItems is not met","instanceLocation":"","keywordLocation":"/prefixItems"},{"absoluteKeywordLocation":"https://ex.org/a/one#/prefixItems/2/$ref","error":"$ref is not met","instanceLocation":"/2","keywordLocation":"/prefixItems/2/$ref"},{"absoluteKeywordLocation":"https://ex.org/b/two#/prefixItems","error":"prefixItems is not met","instanceLocation":"/2","keywordLocation":"/prefixItems/2/$ref/prefixItems"},{"absoluteKeywordLocation":"https://ex.org/b/in#/$ref","error":"$ref is not met","instanceLocation":"/2/1","keywordLocation":"/prefixItems/2/$ref/prefixItems/1/$ref"},{"absoluteKeywordLocation":"https://ex.org/b/in#/$defs/x/const","error":"const is not met","instanceLocation":"/2/1","keywordLocation":"/prefixItems/2/$ref/prefixItems/1/$ref/const"}],"valid":false}"#;

const LONG_TEXTS: &str =
    r#"[["xxxxxxxxxxxxxxxxxxxxxxxxxxxxxxxxxxxxxxxxxxxxxxxxxxxxxxxxxxxxxxxxxxxxxxa","xxxxxxxxxxxxxxxxxxxxxxxxxxxxxxxxxxxxxxxxxxxxxxxxxxxxxxxxxxxxxxxxxxxxxxa"],["xxxxxxxxxxxxxxxxxxxxxxxxxxxxxxxxxxxxxxxxxxxxxxxxxxxxxxxxxxxxxxxxxxxxxxb","xxxxxxxxxxxxxxxxxxxxxxxxxxxxxxxxxxxxxxxxxxxxxxxxxxxxxxxxxxxxxxxxxxxxxxa"]]"#;

const LAST_LETTER_FAILS: &str =
    r#"{"errors":[{"absoluteKeywordLocation":"https://ex.org/m#/prefixItems","error":"prefixItems is not met","instanceLocation":"","keywordLocation":"/prefixItems"},{"absoluteKeywordLocation":"https://ex.org/m#/prefixItems/1/$ref","error":"$ref is not met","instanceLocation":"/1","keywordLocation":"/prefixItems/1/$ref"},{"absoluteKeywordLocation":"https://ex.org/two#/items","error":"items is not met","instanceLocation":"/1","keywordLocation":"/prefixItems/1/$ref/items"},{"absoluteKeywordLocation":"https://ex.org/two#/items/pattern","error":"pattern is not met","instanceLocation":"/1/1","keywordLocation":"/prefixItems/1/$ref/items/pattern"}],"valid":false}"#;

const ANSWERS: &[Evaluation] = &[
    Evaluation {
        why: "each embedded resource asks for the number of its own document",
        documents: SEVEN,
        uri: "https://ex.org/m",
        instance: "[0,1,2,3,4,5,6]",
        wanted: ALL_SEVEN_HOLD,
    },
    Evaluation {
        why: "the resource of the seventh document asks for 6, not for 0",
        documents: SEVEN,
        uri: "https://ex.org/m",
        instance: "[0,1,2,3,4,5,0]",
        wanted: LAST_OF_SEVEN_FAILS,
    },
    Evaluation {
        why: "one relative `$id` opens a resource for each base (Core 8.2.1)",
        documents: IDENTIFIED,
        uri: "https://ex.org/m",
        instance: r#"[["a1"],["b1"],"a","b"]"#,
        wanted: EACH_HAS_ITS_INNER,
    },
    Evaluation {
        why: "each resource has the pattern of its own document, for each element",
        documents: IDENTIFIED,
        uri: "https://ex.org/m",
        instance: r#"[["a1","b"],["a"],"b","a"]"#,
        wanted: NONE_HAS_THE_OTHERS,
    },
    Evaluation {
        why: "one text of a reference names a schema in each resource (Core 8.2.3.1)",
        documents: SAME_TEXT,
        uri: "https://ex.org/a/one",
        instance: "[1,2,[3,4]]",
        wanted: EACH_HAS_ITS_NUMBER,
    },
    Evaluation {
        why: "the resource in the second document asks for 4, not for 2",
        documents: SAME_TEXT,
        uri: "https://ex.org/a/one",
        instance: "[1,2,[3,2]]",
        wanted: IT_HAS_NOT_THE_OTHERS,
    },
    Evaluation {
        why: "patterns that differ at their ends alone are two",
        documents: LONG,
        uri: "https://ex.org/m",
        instance: LONG_TEXTS,
        wanted: LAST_LETTER_FAILS,
    },
];

#[test]
fn several_documents_answer(rt: HostRuntime) {
    for row in ANSWERS {
        expect_answer(&rt, rt.alloc(), row);
    }
}
