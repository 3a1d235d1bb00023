//! The text of the output: its units, their order and their locations.

use crate::answers::FileCheck;
use crate::texts::{URI, answer, expect_told, input_answer};
use crate::{keyword_outputs, refusals};
use std::alloc::Global;
use std::process::Abort;

const REQUIRED_IS_NOT_MET: &str =
    r#"{"errors":[{"absoluteKeywordLocation":"https://ex.org/s#/required","error":"required is not met","instanceLocation":"","keywordLocation":"/required"}],"valid":false}"#;

const THREE_MEMBERS: &str =
    r#"{"properties":{"a":false,"b":{"type":["null","integer"]},"c":{"required":["d"]}},"required":["e"]}"#;

const THREE_MEMBERS_FAIL: &str =
    r#"{"errors":[{"absoluteKeywordLocation":"https://ex.org/s#/required","error":"required is not met","instanceLocation":"","keywordLocation":"/required"},{"absoluteKeywordLocation":"https://ex.org/s#/properties","error":"properties is not met","instanceLocation":"","keywordLocation":"/properties"},{"absoluteKeywordLocation":"https://ex.org/s#/properties/a","error":"no value is allowed","instanceLocation":"/a","keywordLocation":"/properties/a"},{"absoluteKeywordLocation":"https://ex.org/s#/properties/b/type","error":"type is not met","instanceLocation":"/b","keywordLocation":"/properties/b/type"},{"absoluteKeywordLocation":"https://ex.org/s#/properties/c/required","error":"required is not met","instanceLocation":"/c","keywordLocation":"/properties/c/required"}],"valid":false}"#;

const NAMES_B_AND_C: &str =
    r#"{"annotations":[{"absoluteKeywordLocation":"https://ex.org/s#/properties","annotation":["b","c"],"instanceLocation":"","keywordLocation":"/properties"}],"valid":true}"#;

const NAMES_WITH_SIGNS: &str =
    r#"{"properties":{"a":{"properties":{"x/y":{},"z~":true}},"b":{"type":"null"}}}"#;

const NAMES_AT_TWO_LEVELS: &str =
    r#"{"annotations":[{"absoluteKeywordLocation":"https://ex.org/s#/properties","annotation":["a","b"],"instanceLocation":"","keywordLocation":"/properties"},{"absoluteKeywordLocation":"https://ex.org/s#/properties/a/properties","annotation":["x/y"],"instanceLocation":"/a","keywordLocation":"/properties/a/properties"}],"valid":true}"#;

const B_IS_NO_NULL: &str =
    r#"{"errors":[{"absoluteKeywordLocation":"https://ex.org/s#/properties","error":"properties is not met","instanceLocation":"","keywordLocation":"/properties"},{"absoluteKeywordLocation":"https://ex.org/s#/properties/b/type","error":"type is not met","instanceLocation":"/b","keywordLocation":"/properties/b/type"}],"valid":false}"#;

const FOUR_ERRORS: &str =
    r#"{"errors":[{"absoluteKeywordLocation":"https://ex.org/s#/type","error":"type is not met","instanceLocation":"","keywordLocation":"/type"},{"absoluteKeywordLocation":"https://ex.org/s#/enum","error":"enum is not met","instanceLocation":"","keywordLocation":"/enum"},{"absoluteKeywordLocation":"https://ex.org/s#/const","error":"const is not met","instanceLocation":"","keywordLocation":"/const"},{"absoluteKeywordLocation":"https://ex.org/s#/minimum","error":"minimum is not met","instanceLocation":"","keywordLocation":"/minimum"}],"valid":false}"#;

const SIGNS_ARE_ESCAPED: &str =
    r#"{"errors":[{"absoluteKeywordLocation":"https://ex.org/s#/properties","error":"properties is not met","instanceLocation":"","keywordLocation":"/properties"},{"absoluteKeywordLocation":"https://ex.org/s#/properties/a~1~0%22","error":"no value is allowed","instanceLocation":"/a~1~0\"","keywordLocation":"/properties/a~1~0\""}],"valid":false}"#;

const SPACE_IS_ENCODED: &str =
    r#"{"errors":[{"absoluteKeywordLocation":"https://ex.org/s#/properties","error":"properties is not met","instanceLocation":"","keywordLocation":"/properties"},{"absoluteKeywordLocation":"https://ex.org/s#/properties/a%20b","error":"no value is allowed","instanceLocation":"/a b","keywordLocation":"/properties/a b"}],"valid":false}"#;

const BYTES_ARE_ENCODED: &str =
    r#"{"errors":[{"absoluteKeywordLocation":"https://ex.org/s#/properties","error":"properties is not met","instanceLocation":"","keywordLocation":"/properties"},{"absoluteKeywordLocation":"https://ex.org/s#/properties/%C3%A4%25","error":"no value is allowed","instanceLocation":"/ä%","keywordLocation":"/properties/ä%"}],"valid":false}"#;

const PATTERNS_WITH_BACKSLASHES: &str =
    r#"{"patternProperties":{"^\\$r$":{"patternProperties":{"^\\w$":{"title":"t","type":"integer"}}}}}"#;

const BACKSLASHES_ARE_ENCODED: &str =
    r#"{"annotations":[{"absoluteKeywordLocation":"https://ex.org/s#/patternProperties","annotation":["$r"],"instanceLocation":"","keywordLocation":"/patternProperties"},{"absoluteKeywordLocation":"https://ex.org/s#/patternProperties/%5E%5C$r$/patternProperties","annotation":["a"],"instanceLocation":"/$r","keywordLocation":"/patternProperties/^\\$r$/patternProperties"},{"absoluteKeywordLocation":"https://ex.org/s#/patternProperties/%5E%5C$r$/patternProperties/%5E%5Cw$/title","annotation":"t","instanceLocation":"/$r/a","keywordLocation":"/patternProperties/^\\$r$/patternProperties/^\\w$/title"}],"valid":true}"#;

const REFERENCE_BELOW_A_QUOTE: &str =
    r##"{"properties":{"\"":{"$ref":"#/$defs/%C3%A9"}},"$defs":{"é":{"items":{"type":"integer"}}}}"##;

const QUOTE_IS_ENCODED: &str =
    r#"{"errors":[{"absoluteKeywordLocation":"https://ex.org/s#/properties","error":"properties is not met","instanceLocation":"","keywordLocation":"/properties"},{"absoluteKeywordLocation":"https://ex.org/s#/properties/%22/$ref","error":"$ref is not met","instanceLocation":"/\"","keywordLocation":"/properties/\"/$ref"},{"absoluteKeywordLocation":"https://ex.org/s#/$defs/%C3%A9/items","error":"items is not met","instanceLocation":"/\"","keywordLocation":"/properties/\"/$ref/items"},{"absoluteKeywordLocation":"https://ex.org/s#/$defs/%C3%A9/items/type","error":"type is not met","instanceLocation":"/\"/0","keywordLocation":"/properties/\"/$ref/items/type"}],"valid":false}"#;

const NAMES_ARE_ESCAPED: &str =
    r#"{"annotations":[{"absoluteKeywordLocation":"https://ex.org/s#/items","annotation":true,"instanceLocation":"","keywordLocation":"/items"},{"absoluteKeywordLocation":"https://ex.org/s#/items/additionalProperties","annotation":["a\"b","c\td","é\\"],"instanceLocation":"/0","keywordLocation":"/items/additionalProperties"},{"absoluteKeywordLocation":"https://ex.org/s#/items/additionalProperties","annotation":["a\"b","c\td","é\\"],"instanceLocation":"/1","keywordLocation":"/items/additionalProperties"},{"absoluteKeywordLocation":"https://ex.org/s#/items/additionalProperties","annotation":["a\"b"],"instanceLocation":"/2","keywordLocation":"/items/additionalProperties"}],"valid":true}"#;

const THREE_ELEMENTS_FAIL: &str =
    r#"{"errors":[{"absoluteKeywordLocation":"https://ex.org/s#/items","error":"items is not met","instanceLocation":"","keywordLocation":"/items"},{"absoluteKeywordLocation":"https://ex.org/s#/items/type","error":"type is not met","instanceLocation":"/1","keywordLocation":"/items/type"},{"absoluteKeywordLocation":"https://ex.org/s#/items/type","error":"type is not met","instanceLocation":"/4","keywordLocation":"/items/type"},{"absoluteKeywordLocation":"https://ex.org/s#/items/type","error":"type is not met","instanceLocation":"/5","keywordLocation":"/items/type"}],"valid":false}"#;

const ONE_WITH_A_TITLE: &str =
    r#"{"properties":{"a":{"type":"integer"},"b":{"title":"B","type":"integer"},"c":{"type":"integer"}}}"#;

const ONE_TITLE: &str =
    r#"{"annotations":[{"absoluteKeywordLocation":"https://ex.org/s#/properties","annotation":["a","b","c"],"instanceLocation":"","keywordLocation":"/properties"},{"absoluteKeywordLocation":"https://ex.org/s#/properties/b/title","annotation":"B","instanceLocation":"/b","keywordLocation":"/properties/b/title"}],"valid":true}"#;

const EMBEDDED_TYPE_IS_NOT_MET: &str =
    r#"{"errors":[{"absoluteKeywordLocation":"https://ex.org/s#/items","error":"items is not met","instanceLocation":"","keywordLocation":"/items"},{"absoluteKeywordLocation":"https://ex.org/i#/type","error":"type is not met","instanceLocation":"/1","keywordLocation":"/items/type"}],"valid":false}"#;

// Why, a schema, an instance, and the answer.
const OUTPUTS: &[(&str, &str, &str, &str)] = &[
    (
        "a keyword that fails has its unit (Core 12.4.2)",
        r#"{"type":"object","required":["a"]}"#,
        "{}",
        REQUIRED_IS_NOT_MET,
    ),
    (
        "each keyword comes before what it applied, in the order of evaluation (OUTPUT.md)",
        THREE_MEMBERS,
        r#"{"c":{},"b":"x","a":1}"#,
        THREE_MEMBERS_FAIL,
    ),
    (
        "`properties` tells the names that it applied a schema to (Core 10.3.2.1)",
        THREE_MEMBERS,
        r#"{"e":1,"b":7,"c":[]}"#,
        NAMES_B_AND_C,
    ),
    (
        "an annotation has names as they are, below a member behind its own (OUTPUT.md)",
        NAMES_WITH_SIGNS,
        r#"{"a":{"x/y":1},"b":null}"#,
        NAMES_AT_TWO_LEVELS,
    ),
    (
        "what passes beside what fails has no unit (OUTPUT.md)",
        NAMES_WITH_SIGNS,
        r#"{"a":{"x/y":1},"b":0}"#,
        B_IS_NO_NULL,
    ),
    (
        "errors come in the order of evaluation, not of names (OUTPUT.md)",
        r#"{"const":1,"enum":[1],"minimum":1,"properties":{},"type":"string","uniqueItems":true}"#,
        "0",
        FOUR_ERRORS,
    ),
    (
        "pointers escape `/` and `~`, strings of JSON quotes, fragments both (RFC 6901, 6)",
        r#"{"properties":{"a/~\"":false}}"#,
        r#"{"a/~\"":1}"#,
        SIGNS_ARE_ESCAPED,
    ),
    (
        "a space is percent-encoded in the absolute location alone (RFC 3986, 3.5)",
        r#"{"properties":{"a b":false}}"#,
        r#"{"a b":1}"#,
        SPACE_IS_ENCODED,
    ),
    (
        "bytes beyond ASCII and `%` are percent-encoded, in the fragment alone (RFC 3986, 3.5)",
        r#"{"properties":{"ä%":false}}"#,
        r#"{"ä%":1}"#,
        BYTES_ARE_ENCODED,
    ),
    (
        "backslashes are escaped in strings, and percent-encoded in fragments, at each level",
        PATTERNS_WITH_BACKSLASHES,
        r#"{"$r":{"a":1}}"#,
        BACKSLASHES_ARE_ENCODED,
    ),
    (
        "behind a reference the absolute location is that of its target (OUTPUT.md)",
        REFERENCE_BELOW_A_QUOTE,
        r#"{"\"":["x"]}"#,
        QUOTE_IS_ENCODED,
    ),
    (
        "names in annotations are escaped as strings are (RFC 8259, 7)",
        r#"{"items":{"additionalProperties":true}}"#,
        r#"[{"a\"b":1,"c\td":2,"é\\":3},{"a\"b":1,"c\td":2,"é\\":3},{"a\"b":1}]"#,
        NAMES_ARE_ESCAPED,
    ),
    (
        "each element that fails has a unit, those that pass none (OUTPUT.md)",
        r#"{"items":{"type":"integer"}}"#,
        r#"[1,"a",2,3,"b","c",4]"#,
        THREE_ELEMENTS_FAIL,
    ),
    (
        "what only asserts passes without a unit; a title annotates (OUTPUT.md)",
        ONE_WITH_A_TITLE,
        r#"{"a":1,"b":2,"c":3}"#,
        ONE_TITLE,
    ),
    (
        "the absolute location has the URI of the embedded resource (OUTPUT.md)",
        r#"{"items":{"$id":"https://ex.org/i","type":"integer"}}"#,
        r#"[1,"a"]"#,
        EMBEDDED_TYPE_IS_NOT_MET,
    ),
];

fn expect_answers(rt: &impl Abort, alloc: Global, rows: &[(&str, &str, &str, &str)]) {
    for row in rows {
        expect_told(rt, alloc, answer(alloc, URI, row.1, row.2), row.3, row.0);
    }
}

#[test]
fn texts_have_their_answers(rt: HostRuntime) {
    expect_answers(&rt, rt.alloc(), OUTPUTS);
    expect_answers(&rt, rt.alloc(), keyword_outputs::UNEVALUATED);
    expect_answers(&rt, rt.alloc(), keyword_outputs::REFERENCES);
    expect_answers(&rt, rt.alloc(), keyword_outputs::CONTAINS);
    expect_answers(&rt, rt.alloc(), keyword_outputs::PATTERNS);
    expect_answers(&rt, rt.alloc(), keyword_outputs::ANNOTATIONS);
    expect_answers(&rt, rt.alloc(), keyword_outputs::IN_PLACE);
    expect_answers(&rt, rt.alloc(), refusals::SCHEMAS);
}

const A_IS_NOT_ALLOWED: &str =
    r#"{"errors":[{"absoluteKeywordLocation":"https://ex.org/a/b#/properties","error":"properties is not met","instanceLocation":"","keywordLocation":"/properties"},{"absoluteKeywordLocation":"https://ex.org/a/b#/properties/a","error":"no value is allowed","instanceLocation":"/a","keywordLocation":"/properties/a"}],"valid":false}"#;

// Schemas stand under the base form of the URI and under their own `$id`.
const UNDER_URIS: &[FileCheck] = &[
    FileCheck {
        why: "a schema stands under the base form of its URI (DECISIONS.md)",
        uri: "https://ex.org/x/../s",
        schema: r#"{"type":"object","required":["a"]}"#,
        instance: "{}",
        wanted: REQUIRED_IS_NOT_MET,
    },
    FileCheck {
        why: "an `$id` at the root is the URI that locations have (Core 8.2.1)",
        uri: "https://ex.org/a/c/x",
        schema: r#"{"$id":"../b","properties":{"a":false}}"#,
        instance: r#"{"a":1}"#,
        wanted: A_IS_NOT_ALLOWED,
    },
];

fn expect_under_uris(rt: &impl Abort, alloc: Global, rows: &[FileCheck]) {
    for row in rows {
        let found = answer(alloc, row.uri, row.schema, row.instance);
        expect_told(rt, alloc, found, row.wanted, row.why);
    }
}

#[test]
fn schemas_stand_under_uris(rt: HostRuntime) {
    expect_under_uris(&rt, rt.alloc(), UNDER_URIS);
    expect_under_uris(&rt, rt.alloc(), refusals::ORDER);
}

const TITLE_UNDER_THE_ROOT: &str =
    r#"{"annotations":[{"absoluteKeywordLocation":"urn:schemareg:root#/title","annotation":"t","instanceLocation":"","keywordLocation":"/title"}],"valid":true}"#;

// Why, one text that holds both, and the answer.
const INPUTS: &[(&str, &str, &str)] = &[
    (
        "the empty schema takes every instance, also `null` (Core 4.3.2)",
        r#"{"instance":null,"schema":{},"uri":"https://ex.org/s"}"#,
        r#"{"annotations":[],"valid":true}"#,
    ),
    (
        "without a `uri` the schema stands under `urn:schemareg:root`",
        r#"{"instance":1,"schema":{"title":"t"}}"#,
        TITLE_UNDER_THE_ROOT,
    ),
];

fn expect_inputs(rt: &impl Abort, alloc: Global, rows: &[(&str, &str, &str)]) {
    for row in rows {
        expect_told(rt, alloc, input_answer(alloc, row.1), row.2, row.0);
    }
}

#[test]
fn inputs_have_their_answers(rt: HostRuntime) {
    expect_inputs(&rt, rt.alloc(), INPUTS);
    expect_inputs(&rt, rt.alloc(), refusals::INPUTS);
}
