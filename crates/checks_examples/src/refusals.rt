//! What is refused, and by which fault.

use crate::answers::FileCheck;

/// Why, a schema, an instance, and the answer: schemas that are refused, and one that isn't.
pub const SCHEMAS: &[(&str, &str, &str, &str)] = &[
    (
        "the value of `not` is a schema (Core 10.2.1.4)",
        r#"{"not":5}"#,
        "1",
        "8 BadKeyword /not",
    ),
    (
        "the keywords of a schema come before those of the schemas below",
        r#"{"$defs":{"d":{"type":"int"}},"allOf":[]}"#,
        "1",
        "8 BadKeyword /allOf",
    ),
    (
        "`int` is no name of a type (Validation 6.1.1)",
        r#"{"$defs":{"d":{"type":"int"}}}"#,
        "1",
        "8 BadKeyword /$defs/d/type",
    ),
    (
        "a document is an object (PROFILE.md)",
        "[]",
        "1",
        "6 NotObject",
    ),
    (
        "an `$id` has no fragment but an empty one (Core 8.2.1)",
        r#"{"$id":"a#b"}"#,
        "1",
        "9 BadId",
    ),
    (
        "the name of an anchor doesn't begin with a digit (Core 8.2.2)",
        r#"{"$anchor":"1"}"#,
        "1",
        "10 BadAnchor",
    ),
    (
        "the dialect is that of 2020-12 alone (PROFILE.md)",
        r#"{"$schema":"x:y"}"#,
        "1",
        "11 Dialect",
    ),
    (
        "an embedded `$id` opens the document's own URI once more (PROFILE.md)",
        r#"{"$defs":{"d":{"$id":"s"}}}"#,
        "1",
        "12 DuplicateUri",
    ),
    (
        "a boolean schema before it hides no repeated URI",
        r#"{"allOf":[true],"$defs":{"d":{"$id":"s"}}}"#,
        "1",
        "12 DuplicateUri",
    ),
    (
        "the list of `allOf` isn't empty (Core 10.2.1.1)",
        r#"{"allOf":[]}"#,
        "1",
        "8 BadKeyword /allOf",
    ),
    (
        "a name under both keywords of one resource is two anchors (Core 8.2.2)",
        r#"{"$anchor":"n","$defs":{"d":{"$dynamicAnchor":"n"}}}"#,
        "1",
        "13 DuplicateAnchor",
    ),
    (
        "one name in two resources is two anchors (Core 8.2.2)",
        r#"{"$anchor":"n","$defs":{"d":{"$dynamicAnchor":"n","$id":"e"}}}"#,
        "1",
        r#"{"annotations":[],"valid":true}"#,
    ),
];

/// The faults of a URI come before those of the schema, and these before those of the instance.
pub const ORDER: &[FileCheck] = &[
    FileCheck {
        why: "the schema is no object, which comes before the instance's number",
        uri: "https://ex.org/s",
        schema: "[]",
        instance: "1.0",
        wanted: "6 NotObject",
    },
    FileCheck {
        why: "`1.0` isn't written as a whole number (DECISIONS.md)",
        uri: "https://ex.org/s",
        schema: "{}",
        instance: "1.0",
        wanted: "2 BadNumber",
    },
    FileCheck {
        why: "a keyword's fault comes before the instance's broken JSON",
        uri: "https://ex.org/s",
        schema: r#"{"type":"int"}"#,
        instance: "[",
        wanted: "8 BadKeyword /type",
    },
    FileCheck {
        why: "the URI comes first: its path becomes `//a`, without an authority (PROFILE.md)",
        uri: "x:/.//a",
        schema: "[",
        instance: "[",
        wanted: "25 BadUri",
    },
    FileCheck {
        why: "the URI comes first: it has no scheme (PROFILE.md)",
        uri: "s",
        schema: "[",
        instance: "[",
        wanted: "25 BadUri",
    },
    FileCheck {
        why: "the URI comes first: it has a fragment (PROFILE.md)",
        uri: "https://ex.org/a#",
        schema: "[",
        instance: "[",
        wanted: "25 BadUri",
    },
];

/// Why, one text that holds both, and the fault.
pub const INPUTS: &[(&str, &str, &str)] = &[
    (
        "an input has an `instance` (PROFILE.md)",
        r#"{"schema":{}}"#,
        "41 BadInput",
    ),
    (
        "an input's `uri` is a text (PROFILE.md)",
        r#"{"instance":1,"schema":{},"uri":5}"#,
        "41 BadInput",
    ),
    ("an input is an object (PROFILE.md)", "[]", "41 BadInput"),
    (
        "a list that doesn't end is no JSON (RFC 8259, 5)",
        "[1",
        "1 BadJson",
    ),
    (
        "a number that isn't whole comes before the missing schema",
        r#"{"instance":1.5}"#,
        "2 BadNumber",
    ),
    (
        "a `uri` without a scheme comes before the schema's fault",
        r#"{"instance":1,"schema":[],"uri":"s"}"#,
        "25 BadUri",
    ),
    (
        "a missing `instance` comes before the fault of the `uri`",
        r#"{"schema":[],"uri":"s"}"#,
        "41 BadInput",
    ),
];
