//! Keywords on texts: whether an instance is valid.

use crate::texts::{URI, expect_holds};
use checks::{Fault, check_bytes};
use std::alloc::Global;
use std::process::Abort;

const TWO_PATTERNS: &str = r#"{"patternProperties":{"^a":{"type":"integer"},"b$":{"minimum":3}}}"#;

const LONG_PATTERN: &str =
    r#"{"patternProperties":{"^a":true,"^(bcdefghijklmnopqrstuvwxyz|cdefghijklmnopqrstuvwxyz|defghijklmnopqrstuvwxyz)$":{"type":"integer"}},"additionalProperties":false}"#;

const LONG_NAMES: &str =
    r#"{"a":0,"bcdefghijklmnopqrstuvwxyz":1,"cdefghijklmnopqrstuvwxyz":2,"defghijklmnopqrstuvwxyz":3}"#;

const ADDITIONAL: &str =
    r#"{"properties":{"c":true},"patternProperties":{"^a":true,"^b":true},"additionalProperties":{"type":"string"}}"#;

// Why, a schema, an instance, and whether it is valid.
const VALID: &[(&str, &str, &str, bool)] = &[
    (
        "-2^63 is no multiple of 7 (Validation 6.2.1)",
        r#"{"multipleOf":7}"#,
        "-9223372036854775808",
        false,
    ),
    (
        "-2^63 is a multiple of 8 (Validation 6.2.1)",
        r#"{"multipleOf":8}"#,
        "-9223372036854775808",
        true,
    ),
    (
        "0 is a multiple of every number (Validation 6.2.1)",
        r#"{"multipleOf":18446744073709551615}"#,
        "0",
        true,
    ),
    (
        "2^64 - 1 is a multiple of itself (Validation 6.2.1)",
        r#"{"multipleOf":18446744073709551615}"#,
        "18446744073709551615",
        true,
    ),
    (
        "`multipleOf` asks for nothing of a string (Core 7.6.1)",
        r#"{"multipleOf":18446744073709551615}"#,
        r#""x""#,
        true,
    ),
    (
        "-2^63 is no multiple of 2^64 - 1 (Validation 6.2.1)",
        r#"{"multipleOf":18446744073709551615}"#,
        "-9223372036854775808",
        false,
    ),
    (
        "`exclusiveMaximum` asks for nothing of `null` (Core 7.6.1)",
        r#"{"exclusiveMaximum":-9223372036854775808}"#,
        "null",
        true,
    ),
    (
        "the exclusive maximum itself isn't allowed (Validation 6.2.3)",
        r#"{"exclusiveMaximum":-9223372036854775808}"#,
        "-9223372036854775808",
        false,
    ),
    (
        "`ä` is one character of two bytes (Validation 6.3.1)",
        r#"{"maxLength":1}"#,
        r#""ä""#,
        true,
    ),
    (
        "two characters are more than one (Validation 6.3.1)",
        r#"{"maxLength":1}"#,
        r#""ab""#,
        false,
    ),
    (
        "an empty array has no two elements (Validation 6.4.3)",
        r#"{"uniqueItems":true}"#,
        "[]",
        true,
    ),
    (
        "a number and a string are two (Core 4.2.2)",
        r#"{"uniqueItems":true}"#,
        r#"[1,"1"]"#,
        true,
    ),
    (
        "two objects are equal in any order of members (Core 4.2.2)",
        r#"{"uniqueItems":true}"#,
        r#"[{"a":1,"b":2},{"b":2,"a":1}]"#,
        false,
    ),
    (
        "each name meets all patterns that it matches, and `c` none (Core 10.3.2.2)",
        TWO_PATTERNS,
        r#"{"a":1,"ab":3,"b":5,"c":"x"}"#,
        true,
    ),
    (
        "`ab` matches both patterns, and 2 is below 3 (Core 10.3.2.2)",
        TWO_PATTERNS,
        r#"{"ab":2}"#,
        false,
    ),
    (
        r#"`a` matches `^a`, and "x" is no integer (Core 10.3.2.2)"#,
        TWO_PATTERNS,
        r#"{"a":"x","ab":3}"#,
        false,
    ),
    (
        "`xb` matches `b$`, and 2 is below 3 (Core 10.3.2.2)",
        TWO_PATTERNS,
        r#"{"ab":3,"xb":2}"#,
        false,
    ),
    (
        "an empty object has no additional member (Core 10.3.2.3)",
        LONG_PATTERN,
        "{}",
        true,
    ),
    (
        "each name matches a pattern, three of them the long one (Core 10.3.2.2)",
        LONG_PATTERN,
        LONG_NAMES,
        true,
    ),
    (
        r#"a long name matches the long pattern, and "x" is no integer (Core 10.3.2.2)"#,
        LONG_PATTERN,
        r#"{"bcdefghijklmnopqrstuvwxyz":1,"cdefghijklmnopqrstuvwxyz":"x"}"#,
        false,
    ),
    (
        "a long name without its last letter matches no pattern (Core 10.3.2.3)",
        LONG_PATTERN,
        r#"{"a":0,"bcdefghijklmnopqrstuvwxy":1}"#,
        false,
    ),
    (
        "only `d` is additional, and a string (Core 10.3.2.3)",
        ADDITIONAL,
        r#"{"a1":1,"b1":2,"c":3,"d":"x"}"#,
        true,
    ),
    (
        "only `d` is additional, and no string (Core 10.3.2.3)",
        ADDITIONAL,
        r#"{"a1":1,"b1":2,"d":4}"#,
        false,
    ),
    (
        "`C` is another name than `c`, so additional, and no string (Core 10.3.2.3)",
        ADDITIONAL,
        r#"{"a1":1,"b1":2,"C":3}"#,
        false,
    ),
    (
        "without `a` nothing is asked for (Validation 6.5.4)",
        r#"{"dependentRequired":{"a":["b"]}}"#,
        "{}",
        true,
    ),
    (
        "`a` asks for `b`, which is there (Validation 6.5.4)",
        r#"{"dependentRequired":{"a":["b"]}}"#,
        r#"{"a":1,"b":1}"#,
        true,
    ),
    (
        "`a` asks for `b`, which isn't there (Validation 6.5.4)",
        r#"{"dependentRequired":{"a":["b"]}}"#,
        r#"{"a":1}"#,
        false,
    ),
    (
        "an empty list has no element to equal (Validation 6.1.2)",
        r#"{"enum":[]}"#,
        "null",
        false,
    ),
    (
        "the order of members doesn't count (Core 4.2.2)",
        r#"{"const":{"a":1,"b":2}}"#,
        r#"{"b":2,"a":1}"#,
        true,
    ),
    (
        "two elements are more than one (Validation 6.4.1)",
        r#"{"minItems":1,"maxItems":1}"#,
        "[0,0]",
        false,
    ),
    (
        "one member is enough, and not too many (Validation 6.5.1, 6.5.2)",
        r#"{"minProperties":1,"maxProperties":1}"#,
        r#"{"a":0}"#,
        true,
    ),
];

// The same columns, of texts of 24 letters and of 25: the former stand in the value itself.
const LENGTHS: &[(&str, &str, &str, bool)] = &[
    (
        "the same 24 letters are equal (Core 4.2.2)",
        r#"{"const":"abcdefghijklmnopqrstuvwx"}"#,
        r#""abcdefghijklmnopqrstuvwx""#,
        true,
    ),
    (
        "24 letters and one more are another text (Core 4.2.2)",
        r#"{"const":"abcdefghijklmnopqrstuvwx"}"#,
        r#""abcdefghijklmnopqrstuvwxy""#,
        false,
    ),
    (
        "the same 25 letters are equal (Core 4.2.2)",
        r#"{"const":"abcdefghijklmnopqrstuvwxy"}"#,
        r#""abcdefghijklmnopqrstuvwxy""#,
        true,
    ),
    (
        "25 letters without the last are another text (Core 4.2.2)",
        r#"{"const":"abcdefghijklmnopqrstuvwxy"}"#,
        r#""abcdefghijklmnopqrstuvwx""#,
        false,
    ),
    (
        "the text equals the second element (Validation 6.1.2)",
        r#"{"enum":["abcdefghijklmnopqrstuvwx","abcdefghijklmnopqrstuvwxy"]}"#,
        r#""abcdefghijklmnopqrstuvwxy""#,
        true,
    ),
    (
        "24 letters are just allowed (Validation 6.3.1)",
        r#"{"type":"string","maxLength":24}"#,
        r#""abcdefghijklmnopqrstuvwx""#,
        true,
    ),
    (
        "25 letters are more than 24 (Validation 6.3.1)",
        r#"{"type":"string","maxLength":24}"#,
        r#""abcdefghijklmnopqrstuvwxy""#,
        false,
    ),
    (
        "24 letters are less than 25 (Validation 6.3.2)",
        r#"{"minLength":25}"#,
        r#""abcdefghijklmnopqrstuvwx""#,
        false,
    ),
    (
        "25 letters are just enough (Validation 6.3.2)",
        r#"{"minLength":25}"#,
        r#""abcdefghijklmnopqrstuvwxy""#,
        true,
    ),
    (
        "a text and a longer one that begins so are two (Validation 6.4.3)",
        r#"{"uniqueItems":true}"#,
        r#"["abcdefghijklmnopqrstuvwx","abcdefghijklmnopqrstuvwxy"]"#,
        true,
    ),
    (
        "two texts of the same 25 letters are equal (Validation 6.4.3)",
        r#"{"uniqueItems":true}"#,
        r#"["abcdefghijklmnopqrstuvwxy","abcdefghijklmnopqrstuvwxy"]"#,
        false,
    ),
    (
        "two texts of the same 24 letters are equal (Validation 6.4.3)",
        r#"{"uniqueItems":true}"#,
        r#"["abcdefghijklmnopqrstuvwx","abcdefghijklmnopqrstuvwx"]"#,
        false,
    ),
    (
        "a name of 25 letters is there (Validation 6.5.3)",
        r#"{"required":["abcdefghijklmnopqrstuvwxy"]}"#,
        r#"{"abcdefghijklmnopqrstuvwxy":1}"#,
        true,
    ),
    (
        "a name without its last letter is another (Validation 6.5.3)",
        r#"{"required":["abcdefghijklmnopqrstuvwxy"]}"#,
        r#"{"abcdefghijklmnopqrstuvwx":1}"#,
        false,
    ),
    (
        "no value is allowed under the name of 25 letters (Core 10.3.2.1)",
        r#"{"properties":{"abcdefghijklmnopqrstuvwxy":false}}"#,
        r#"{"abcdefghijklmnopqrstuvwxy":1}"#,
        false,
    ),
    (
        "a name without its last letter is another, and free (Core 10.3.2.1)",
        r#"{"properties":{"abcdefghijklmnopqrstuvwxy":false}}"#,
        r#"{"abcdefghijklmnopqrstuvwx":1}"#,
        true,
    ),
];

fn is_valid_as(alloc: Global, schema: &str, instance: &str, wanted: bool) -> Result<bool, Fault> {
    let report = check_bytes(alloc, URI, schema.as_bytes(), instance.as_bytes())?;
    Ok(report.valid() == wanted)
}

fn expect_verdict(rt: &impl Abort, alloc: Global, row: &(&str, &str, &str, bool)) {
    let (why, schema, instance, valid) = *row;
    expect_holds(rt, is_valid_as(alloc, schema, instance, valid), why);
}

#[test]
fn keywords_on_one_value(rt: HostRuntime) {
    for row in VALID {
        expect_verdict(&rt, rt.alloc(), row);
    }
}

#[test]
fn keywords_on_texts_of_24_letters_and_of_25(rt: HostRuntime) {
    for row in LENGTHS {
        expect_verdict(&rt, rt.alloc(), row);
    }
}
