//! Each keyword that looks at its own value and the instance, on both sides of its bound.

use crate::texts::expect_holds;
use assertions::{Assertion, holds, is_at_least, is_at_most};
use json_doc::{Fault, read};
use std::alloc::Global;
use std::process::Abort;

// A keyword, its value, an instance, and whether the keyword holds of it.
struct Bound {
    why: &'static str,
    keyword: Assertion,
    value: &'static str,
    instance: &'static str,
    holds: bool,
}

const BOUNDS: &[Bound] = &[
    Bound {
        why: "a whole number is an integer (Validation 6.1.1)",
        keyword: Assertion::TypeIs,
        value: r#""integer""#,
        instance: "1",
        holds: true,
    },
    Bound {
        why: "a whole number is a number, too (Validation 6.1.1)",
        keyword: Assertion::TypeIs,
        value: r#""number""#,
        instance: "1",
        holds: true,
    },
    Bound {
        why: "a number is no string (Validation 6.1.1)",
        keyword: Assertion::TypeIs,
        value: r#""string""#,
        instance: "1",
        holds: false,
    },
    Bound {
        why: "one type of a list is enough (Validation 6.1.1)",
        keyword: Assertion::TypeIs,
        value: r#"["null","object"]"#,
        instance: "{}",
        holds: true,
    },
    Bound {
        why: "an array has none of the types of the list (Validation 6.1.1)",
        keyword: Assertion::TypeIs,
        value: r#"["null","object"]"#,
        instance: "[]",
        holds: false,
    },
    Bound {
        why: "no list of types is empty, so it asks for nothing (DECISIONS.md)",
        keyword: Assertion::TypeIs,
        value: "[]",
        instance: "1",
        holds: true,
    },
    Bound {
        why: "the value equals an element (Validation 6.1.2)",
        keyword: Assertion::EnumOf,
        value: "[1,null]",
        instance: "null",
        holds: true,
    },
    Bound {
        why: "`false` equals neither 1 nor `null` (Validation 6.1.2)",
        keyword: Assertion::EnumOf,
        value: "[1,null]",
        instance: "false",
        holds: false,
    },
    Bound {
        why: "an empty list has no element to equal (Validation 6.1.2)",
        keyword: Assertion::EnumOf,
        value: "[]",
        instance: "1",
        holds: false,
    },
    Bound {
        why: "the order of members doesn't count (Core 4.2.2)",
        keyword: Assertion::ConstIs,
        value: r#"{"a":1,"b":2}"#,
        instance: r#"{"b":2,"a":1}"#,
        holds: true,
    },
    Bound {
        why: "a number and its digits in a string differ (Core 4.2.2)",
        keyword: Assertion::ConstIs,
        value: "1",
        instance: r#""1""#,
        holds: false,
    },
    Bound {
        why: "an empty array has no two elements (Validation 6.4.3)",
        keyword: Assertion::UniqueItems,
        value: "true",
        instance: "[]",
        holds: true,
    },
    Bound {
        why: "a number and a string are two (Core 4.2.2)",
        keyword: Assertion::UniqueItems,
        value: "true",
        instance: r#"[1,"1"]"#,
        holds: true,
    },
    Bound {
        why: "two objects are equal in any order of members (Core 4.2.2)",
        keyword: Assertion::UniqueItems,
        value: "true",
        instance: r#"[{"a":1,"b":2},{"b":2,"a":1}]"#,
        holds: false,
    },
    Bound {
        why: "equal elements need not be neighbours (Validation 6.4.3)",
        keyword: Assertion::UniqueItems,
        value: "true",
        instance: "[0,1,2,1]",
        holds: false,
    },
    Bound {
        why: "`false` asks for nothing (Validation 6.4.3)",
        keyword: Assertion::UniqueItems,
        value: "false",
        instance: "[1,1]",
        holds: true,
    },
    Bound {
        why: "-2^63 is no multiple of 7 (Validation 6.2.1)",
        keyword: Assertion::MultipleOf,
        value: "7",
        instance: "-9223372036854775808",
        holds: false,
    },
    Bound {
        why: "-2^63 is a multiple of 8 (Validation 6.2.1)",
        keyword: Assertion::MultipleOf,
        value: "8",
        instance: "-9223372036854775808",
        holds: true,
    },
    Bound {
        why: "0 is a multiple of every number (Validation 6.2.1)",
        keyword: Assertion::MultipleOf,
        value: "18446744073709551615",
        instance: "0",
        holds: true,
    },
    Bound {
        why: "2^64 - 1 is a multiple of itself (Validation 6.2.1)",
        keyword: Assertion::MultipleOf,
        value: "18446744073709551615",
        instance: "18446744073709551615",
        holds: true,
    },
    Bound {
        why: "`multipleOf` asks for nothing of a string (Core 7.6.1)",
        keyword: Assertion::MultipleOf,
        value: "18446744073709551615",
        instance: r#""x""#,
        holds: true,
    },
    Bound {
        why: "-2^63 is no multiple of 2^64 - 1 (Validation 6.2.1)",
        keyword: Assertion::MultipleOf,
        value: "18446744073709551615",
        instance: "-9223372036854775808",
        holds: false,
    },
    Bound {
        why: "a divisor is above 0, so 0 asks for nothing (DECISIONS.md)",
        keyword: Assertion::MultipleOf,
        value: "0",
        instance: "1",
        holds: true,
    },
    Bound {
        why: "the maximum itself is allowed (Validation 6.2.2)",
        keyword: Assertion::Maximum,
        value: "18446744073709551614",
        instance: "18446744073709551614",
        holds: true,
    },
    Bound {
        why: "one above the maximum isn't allowed, beyond 63 bits, too (Validation 6.2.2)",
        keyword: Assertion::Maximum,
        value: "18446744073709551614",
        instance: "18446744073709551615",
        holds: false,
    },
    Bound {
        why: "`exclusiveMaximum` asks for nothing of `null` (Core 7.6.1)",
        keyword: Assertion::ExclusiveMaximum,
        value: "-9223372036854775808",
        instance: "null",
        holds: true,
    },
    Bound {
        why: "the exclusive maximum itself isn't allowed (Validation 6.2.3)",
        keyword: Assertion::ExclusiveMaximum,
        value: "-9223372036854775808",
        instance: "-9223372036854775808",
        holds: false,
    },
    Bound {
        why: "one below the exclusive maximum is allowed (Validation 6.2.3)",
        keyword: Assertion::ExclusiveMaximum,
        value: "0",
        instance: "-1",
        holds: true,
    },
    Bound {
        why: "the minimum itself is allowed, also below 0 (Validation 6.2.4)",
        keyword: Assertion::Minimum,
        value: "-1",
        instance: "-1",
        holds: true,
    },
    Bound {
        why: "one below the minimum isn't allowed (Validation 6.2.4)",
        keyword: Assertion::Minimum,
        value: "-1",
        instance: "-2",
        holds: false,
    },
    Bound {
        why: "the least number is below 0 (Validation 6.2.4)",
        keyword: Assertion::Minimum,
        value: "0",
        instance: "-9223372036854775808",
        holds: false,
    },
    Bound {
        why: "one above the exclusive minimum is allowed, beyond 63 bits, too (Validation 6.2.5)",
        keyword: Assertion::ExclusiveMinimum,
        value: "18446744073709551614",
        instance: "18446744073709551615",
        holds: true,
    },
    Bound {
        why: "the exclusive minimum itself isn't allowed (Validation 6.2.5)",
        keyword: Assertion::ExclusiveMinimum,
        value: "18446744073709551614",
        instance: "18446744073709551614",
        holds: false,
    },
    Bound {
        why: "`ä` is one character of two bytes (Validation 6.3.1)",
        keyword: Assertion::MaxLength,
        value: "1",
        instance: r#""ä""#,
        holds: true,
    },
    Bound {
        why: "two characters are more than one (Validation 6.3.1)",
        keyword: Assertion::MaxLength,
        value: "1",
        instance: r#""ab""#,
        holds: false,
    },
    Bound {
        why: "one character beyond 16 bits is more than none (Validation 6.3.1)",
        keyword: Assertion::MaxLength,
        value: "0",
        instance: r#""\ud83d\ude00""#,
        holds: false,
    },
    Bound {
        why: "two escapes of 16 bits are one character (Validation 6.3.1)",
        keyword: Assertion::MaxLength,
        value: "1",
        instance: r#""\ud83d\ude00""#,
        holds: true,
    },
    Bound {
        why: "no size is below 0, so -1 asks for nothing (DECISIONS.md)",
        keyword: Assertion::MaxLength,
        value: "-1",
        instance: r#""ab""#,
        holds: true,
    },
    Bound {
        why: "two bytes are not two characters (Validation 6.3.2)",
        keyword: Assertion::MinLength,
        value: "2",
        instance: r#""ä""#,
        holds: false,
    },
    Bound {
        why: "two characters are just enough (Validation 6.3.2)",
        keyword: Assertion::MinLength,
        value: "2",
        instance: r#""ab""#,
        holds: true,
    },
    Bound {
        why: "two escapes of 16 bits are not two characters (Validation 6.3.2)",
        keyword: Assertion::MinLength,
        value: "2",
        instance: r#""\ud83d\ude00""#,
        holds: false,
    },
    Bound {
        why: "`minLength` asks for nothing of an array (Core 7.6.1)",
        keyword: Assertion::MinLength,
        value: "2",
        instance: "[]",
        holds: true,
    },
    Bound {
        why: "one element is just allowed (Validation 6.4.1)",
        keyword: Assertion::MaxItems,
        value: "1",
        instance: "[1]",
        holds: true,
    },
    Bound {
        why: "two elements are more than one, equal or not (Validation 6.4.1)",
        keyword: Assertion::MaxItems,
        value: "1",
        instance: "[1,1]",
        holds: false,
    },
    Bound {
        why: "two elements are just enough, equal or not (Validation 6.4.2)",
        keyword: Assertion::MinItems,
        value: "2",
        instance: "[1,1]",
        holds: true,
    },
    Bound {
        why: "one element is less than two (Validation 6.4.2)",
        keyword: Assertion::MinItems,
        value: "2",
        instance: "[1]",
        holds: false,
    },
    Bound {
        why: "one member is just allowed (Validation 6.5.1)",
        keyword: Assertion::MaxProperties,
        value: "1",
        instance: r#"{"a":1}"#,
        holds: true,
    },
    Bound {
        why: "two members are more than one (Validation 6.5.1)",
        keyword: Assertion::MaxProperties,
        value: "1",
        instance: r#"{"a":1,"b":1}"#,
        holds: false,
    },
    Bound {
        why: "two members are just enough (Validation 6.5.2)",
        keyword: Assertion::MinProperties,
        value: "2",
        instance: r#"{"a":1,"b":1}"#,
        holds: true,
    },
    Bound {
        why: "one member is less than two (Validation 6.5.2)",
        keyword: Assertion::MinProperties,
        value: "2",
        instance: r#"{"a":1}"#,
        holds: false,
    },
    Bound {
        why: "both names are there (Validation 6.5.3)",
        keyword: Assertion::Required,
        value: r#"["a","b"]"#,
        instance: r#"{"a":1,"b":1}"#,
        holds: true,
    },
    Bound {
        why: "`b` isn't there (Validation 6.5.3)",
        keyword: Assertion::Required,
        value: r#"["a","b"]"#,
        instance: r#"{"a":1}"#,
        holds: false,
    },
    Bound {
        why: "`required` asks for nothing of an array (Core 7.6.1)",
        keyword: Assertion::Required,
        value: r#"["a","b"]"#,
        instance: "[]",
        holds: true,
    },
    Bound {
        why: "without `a` nothing is asked for (Validation 6.5.4)",
        keyword: Assertion::DependentRequired,
        value: r#"{"a":["b"]}"#,
        instance: "{}",
        holds: true,
    },
    Bound {
        why: "`a` asks for `b`, which is there (Validation 6.5.4)",
        keyword: Assertion::DependentRequired,
        value: r#"{"a":["b"]}"#,
        instance: r#"{"a":1,"b":1}"#,
        holds: true,
    },
    Bound {
        why: "`a` asks for `b`, which isn't there (Validation 6.5.4)",
        keyword: Assertion::DependentRequired,
        value: r#"{"a":["b"]}"#,
        instance: r#"{"a":1}"#,
        holds: false,
    },
    Bound {
        why: "names stand in a list, so one alone asks for nothing (DECISIONS.md)",
        keyword: Assertion::DependentRequired,
        value: r#"{"a":"b"}"#,
        instance: r#"{"a":1}"#,
        holds: true,
    },
];

fn holds_as_told(alloc: Global, row: &Bound) -> Result<bool, Fault> {
    let value = read(alloc, row.value.as_bytes())?;
    let subject = read(alloc, row.instance.as_bytes())?;
    Ok(holds(alloc, row.keyword, &value, &subject)? == row.holds)
}

fn expect_bound(rt: &impl Abort, alloc: Global, row: &Bound) {
    expect_holds(rt, holds_as_told(alloc, row), row.why);
}

#[test]
fn keywords_hold_up_to_their_bounds(rt: HostRuntime) {
    for row in BOUNDS {
        expect_bound(&rt, rt.alloc(), row);
    }
}

fn are_told_apart(alloc: Global) -> Result<bool, Fault> {
    let six = read(alloc, b"-6")?;
    let three = read(alloc, b"3")?;
    let divides = holds(alloc, Assertion::MultipleOf, &three, &six)?;
    let are_at_most = is_at_most(3, &three) && !is_at_most(4, &three) && is_at_most(4, &six);
    let are_at_least = is_at_least(3, &three) && !is_at_least(2, &three) && is_at_least(0, &six);
    Ok(divides && are_at_most && are_at_least)
}

#[test]
fn two_values_alone(rt: HostRuntime) {
    expect_holds(
        &rt,
        are_told_apart(rt.alloc()),
        "-6 is a multiple of 3, and as a size it asks for nothing",
    );
}
