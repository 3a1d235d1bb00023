//! What keywords say: tables of schemas, instances and answers, for the tests of outputs.

const EMPTY_REPORT: &str = r#"{"annotations":[],"valid":true}"#;

const ALL_OF_WITH_A: &str =
    r#"{"allOf":[{"properties":{"a":true}}],"unevaluatedProperties":false}"#;

const B_IS_UNEVALUATED: &str =
    r#"{"errors":[{"absoluteKeywordLocation":"https://ex.org/s#/unevaluatedProperties","error":"unevaluatedProperties is not met","instanceLocation":"","keywordLocation":"/unevaluatedProperties"},{"absoluteKeywordLocation":"https://ex.org/s#/unevaluatedProperties","error":"no value is allowed","instanceLocation":"/b","keywordLocation":"/unevaluatedProperties"}],"valid":false}"#;

const ANY_OF_WITH_A_OR_B: &str =
    r#"{"anyOf":[{"properties":{"a":true}},{"properties":{"b":true},"required":["c"]}],"unevaluatedProperties":false}"#;

/// Why, a schema, an instance, and the answer: unevaluated members are those of no passing schema.
pub const UNEVALUATED: &[(&str, &str, &str, &str)] = &[
    (
        "no schema of `allOf` evaluates `b` (Core 11.3)",
        ALL_OF_WITH_A,
        r#"{"a":1,"b":2}"#,
        B_IS_UNEVALUATED,
    ),
    (
        "a branch that fails evaluates nothing, so `b` is left (Core 11.3)",
        ANY_OF_WITH_A_OR_B,
        r#"{"a":1,"b":2}"#,
        B_IS_UNEVALUATED,
    ),
];

const A_AT_TWO_LEVELS: &str =
    r#"{"annotations":[{"absoluteKeywordLocation":"https://ex.org/s#/properties","annotation":["a"],"instanceLocation":"","keywordLocation":"/properties"},{"absoluteKeywordLocation":"https://ex.org/s#/properties","annotation":["a"],"instanceLocation":"/a","keywordLocation":"/properties/a/$ref/properties"}],"valid":true}"#;

const POINTER_INTO_E: &str =
    r##"{"$defs":{"e":{"$id":"e","$defs":{"f":{"type":"null"}}}},"$ref":"#/$defs/e/$defs/f"}"##;

const NO_NULL_IN_E: &str =
    r#"{"errors":[{"absoluteKeywordLocation":"https://ex.org/s#/$ref","error":"$ref is not met","instanceLocation":"","keywordLocation":"/$ref"},{"absoluteKeywordLocation":"https://ex.org/e#/$defs/f/type","error":"type is not met","instanceLocation":"","keywordLocation":"/$ref/type"}],"valid":false}"#;

/// The same columns: references apply what they name.
pub const REFERENCES: &[(&str, &str, &str, &str)] = &[
    (
        "the root is applied where it is being applied (Core 9.4.1)",
        r##"{"$ref":"#"}"##,
        "1",
        "17 Loop",
    ),
    (
        "a schema that names itself is applied within itself (Core 9.4.1)",
        r##"{"allOf":[{"$ref":"#/allOf/0"}]}"##,
        "1",
        "17 Loop",
    ),
    (
        "two schemas that name each other don't end (Core 9.4.1)",
        r##"{"$ref":"#/$defs/x1","$defs":{"x1":{"$ref":"#/$defs/y1"},"y1":{"$ref":"#/$defs/x1"}}}"##,
        "1",
        "17 Loop",
    ),
    (
        "a reference may lead on to another (Core 8.2.3.1)",
        r##"{"$ref":"#/$defs/x1","$defs":{"x1":{"$ref":"#/$defs/y1"},"y1":{"type":"integer"}}}"##,
        "1",
        EMPTY_REPORT,
    ),
    (
        "below a member the root is applied at another place (Core 9.4.1)",
        r##"{"properties":{"a":{"$ref":"#"}}}"##,
        r#"{"a":{"a":1}}"#,
        A_AT_TWO_LEVELS,
    ),
    (
        "a name is another place than its object (DECISIONS.md)",
        r##"{"propertyNames":{"$ref":"#"}}"##,
        r#"{"a":1}"#,
        EMPTY_REPORT,
    ),
    (
        "behind a pointer the absolute location has the embedded resource's URI (Core 9.2.1)",
        POINTER_INTO_E,
        "1",
        NO_NULL_IN_E,
    ),
    (
        "what `$ref` names decides, and `null` is of type `null`",
        r##"{"$ref":"#/$defs/a","$defs":{"a":{"type":"null"}}}"##,
        "null",
        EMPTY_REPORT,
    ),
    (
        "a reference leads to no schema of the document (PROFILE.md)",
        r#"{"$ref":"urn:other"}"#,
        "null",
        "15 Unresolved urn:other",
    ),
    (
        "of two references that lead nowhere the lesser is told (PROFILE.md)",
        r#"{"$defs":{"u":{"$ref":"q"},"v":{"$ref":"p"}}}"#,
        "null",
        "15 Unresolved https://ex.org/p",
    ),
];

const NONE_IS_CONTAINED: &str =
    r#"{"annotations":[{"absoluteKeywordLocation":"https://ex.org/s#/contains","annotation":[],"instanceLocation":"","keywordLocation":"/contains"}],"valid":true}"#;

const CONTAINS_IS_NOT_MET: &str =
    r#"{"errors":[{"absoluteKeywordLocation":"https://ex.org/s#/contains","error":"contains is not met","instanceLocation":"","keywordLocation":"/contains"}],"valid":false}"#;

const BOTH_ARE_NOT_MET: &str =
    r#"{"errors":[{"absoluteKeywordLocation":"https://ex.org/s#/contains","error":"contains is not met","instanceLocation":"","keywordLocation":"/contains"},{"absoluteKeywordLocation":"https://ex.org/s#/contains/type","error":"type is not met","instanceLocation":"/0","keywordLocation":"/contains/type"},{"absoluteKeywordLocation":"https://ex.org/s#/minContains","error":"minContains is not met","instanceLocation":"","keywordLocation":"/minContains"}],"valid":false}"#;

/// The same columns: `contains` counts what passes.
pub const CONTAINS: &[(&str, &str, &str, &str)] = &[
    (
        "with `minContains` 0 no element has to pass (Validation 6.4.5)",
        r#"{"contains":{"type":"string"},"minContains":0}"#,
        "[]",
        NONE_IS_CONTAINED,
    ),
    (
        "one element at least has to pass (Core 10.3.1.3)",
        r#"{"contains":{"type":"string"}}"#,
        "[]",
        CONTAINS_IS_NOT_MET,
    ),
    (
        "neither one nor two elements pass, and each keyword says so (OUTPUT.md)",
        r#"{"contains":{"type":"string"},"minContains":2}"#,
        "[1]",
        BOTH_ARE_NOT_MET,
    ),
];

const PATTERN_IS_NOT_MET: &str =
    r#"{"errors":[{"absoluteKeywordLocation":"https://ex.org/s#/pattern","error":"pattern is not met","instanceLocation":"","keywordLocation":"/pattern"}],"valid":false}"#;

/// The same columns: patterns match somewhere.
pub const PATTERNS: &[(&str, &str, &str, &str)] = &[
    (
        "a match within the text is enough (Validation 6.3.3)",
        r#"{"pattern":"a+"}"#,
        r#""xaay""#,
        EMPTY_REPORT,
    ),
    (
        "`a` stands nowhere in the text (Validation 6.3.3)",
        r#"{"pattern":"a+"}"#,
        r#""xy""#,
        PATTERN_IS_NOT_MET,
    ),
    (
        "`pattern` asks for nothing of a number (Core 7.6.1)",
        r#"{"pattern":"a+"}"#,
        "5",
        EMPTY_REPORT,
    ),
    (
        "look-around is no part of the grammar (PROFILE.md)",
        r#"{"pattern":"(?=a)"}"#,
        r#""xaay""#,
        "5 BadPattern",
    ),
];

const TITLED: &str =
    r#"{"title":"t","properties":{"a":{"format":"date"}},"patternProperties":{"^b":true},"additionalProperties":{"type":"integer"},"contentSchema":{}}"#;

const NAMES_AND_TITLE: &str =
    r#"{"annotations":[{"absoluteKeywordLocation":"https://ex.org/s#/properties","annotation":["a"],"instanceLocation":"","keywordLocation":"/properties"},{"absoluteKeywordLocation":"https://ex.org/s#/properties/a/format","annotation":"date","instanceLocation":"/a","keywordLocation":"/properties/a/format"},{"absoluteKeywordLocation":"https://ex.org/s#/patternProperties","annotation":["b1"],"instanceLocation":"","keywordLocation":"/patternProperties"},{"absoluteKeywordLocation":"https://ex.org/s#/additionalProperties","annotation":["c"],"instanceLocation":"","keywordLocation":"/additionalProperties"},{"absoluteKeywordLocation":"https://ex.org/s#/title","annotation":"t","instanceLocation":"","keywordLocation":"/title"}],"valid":true}"#;

const UP_TO_INDEX_1: &str =
    r#"{"annotations":[{"absoluteKeywordLocation":"https://ex.org/s#/prefixItems","annotation":1,"instanceLocation":"","keywordLocation":"/prefixItems"},{"absoluteKeywordLocation":"https://ex.org/s#/items","annotation":true,"instanceLocation":"","keywordLocation":"/items"}],"valid":true}"#;

const ALL_BY_PREFIX: &str =
    r#"{"annotations":[{"absoluteKeywordLocation":"https://ex.org/s#/prefixItems","annotation":true,"instanceLocation":"","keywordLocation":"/prefixItems"}],"valid":true}"#;

/// The same columns: keywords of all kinds annotate.
pub const ANNOTATIONS: &[(&str, &str, &str, &str)] = &[
    (
        "keywords annotate in the order of evaluation, other names behind them (OUTPUT.md)",
        TITLED,
        r#"{"a":"x","b1":null,"c":5}"#,
        NAMES_AND_TITLE,
    ),
    (
        "`prefixItems` tells its last index where elements are left (Core 10.3.1.1)",
        r#"{"prefixItems":[true,true],"items":{"type":"integer"}}"#,
        "[1,2,3]",
        UP_TO_INDEX_1,
    ),
    (
        "`prefixItems` tells `true` where it took all elements (Core 10.3.1.1)",
        r#"{"prefixItems":[true,true],"items":{"type":"integer"}}"#,
        "[1,2]",
        ALL_BY_PREFIX,
    ),
    (
        "a keyword that is applied to no element annotates nothing (Core 10.3.1.1)",
        r#"{"prefixItems":[true,true],"items":{"type":"integer"}}"#,
        "[]",
        EMPTY_REPORT,
    ),
];

const ONE_OF_IS_NOT_MET: &str =
    r#"{"errors":[{"absoluteKeywordLocation":"https://ex.org/s#/oneOf","error":"oneOf is not met","instanceLocation":"","keywordLocation":"/oneOf"}],"valid":false}"#;

const NOT_IS_NOT_MET: &str =
    r#"{"errors":[{"absoluteKeywordLocation":"https://ex.org/s#/not","error":"not is not met","instanceLocation":"","keywordLocation":"/not"}],"valid":false}"#;

/// The same columns: schemas in place are counted.
pub const IN_PLACE: &[(&str, &str, &str, &str)] = &[
    (
        "both schemas pass where one may (Core 10.2.1.3)",
        r#"{"oneOf":[{"type":"integer"},{"minimum":3}]}"#,
        "5",
        ONE_OF_IS_NOT_MET,
    ),
    (
        "only `minimum` passes, as it asks for nothing of a string (Core 7.6.1)",
        r#"{"oneOf":[{"type":"integer"},{"minimum":3}]}"#,
        r#""x""#,
        EMPTY_REPORT,
    ),
    (
        "the schema under `not` passes (Core 10.2.1.4)",
        r#"{"not":{"type":"null"}}"#,
        "null",
        NOT_IS_NOT_MET,
    ),
];
