//! The shapes that values have.

use crate::expectations::expect_holds;
use json_doc::{Fault, read};
use keyword_shapes::fits;
use keywords::Shape;
use std::alloc::Global;
use std::process::Abort;

// Why, a shape, a value, and whether it has the shape.
const SHAPES: &[(&str, Shape, &str, bool)] = &[
    (
        "`integer` is one of the seven names of types (Validation 6.1.1)",
        Shape::TypeNames,
        r#""integer""#,
        true,
    ),
    (
        "`int` is none of the seven names of types (Validation 6.1.1)",
        Shape::TypeNames,
        r#""int""#,
        false,
    ),
    (
        "a text is no object of schemas",
        Shape::SchemaMap,
        r#""integer""#,
        false,
    ),
    (
        "a list of types names at least one",
        Shape::TypeNames,
        "[]",
        false,
    ),
    (
        "a list of texts may be empty (Validation 6.5.3)",
        Shape::TextList,
        "[]",
        true,
    ),
    (
        "a list of types may name several (Validation 6.1.1)",
        Shape::TypeNames,
        r#"["integer","null"]"#,
        true,
    ),
    (
        "each element of the list is a text",
        Shape::TextList,
        r#"["integer","null"]"#,
        true,
    ),
    (
        "each member is a schema, and `false` is one (Core 4.3.2)",
        Shape::SchemaMap,
        r#"{"a":false}"#,
        true,
    ),
    (
        "a boolean is a schema (Core 4.3.2)",
        Shape::OneSchema,
        "false",
        true,
    ),
    (
        "`null` is neither an object nor a boolean (Core 4.3)",
        Shape::OneSchema,
        "null",
        false,
    ),
    (
        "a list of schemas has at least one (Core 10.2.1.1)",
        Shape::SchemaList,
        "[]",
        false,
    ),
    (
        "one schema is enough for a list of schemas",
        Shape::SchemaList,
        "[true]",
        true,
    ),
    (
        "a schema alone is no list of schemas",
        Shape::SchemaList,
        "true",
        false,
    ),
    ("an empty text is a text", Shape::AnyText, r#""""#, true),
    ("`null` is no text", Shape::AnyText, "null", false),
];

fn fits_as(alloc: Global, shape: Shape, text: &str, wanted: bool) -> Result<bool, Fault> {
    let value = read(alloc, text.as_bytes())?;
    Ok(fits(shape, &value) == wanted)
}

fn expect_shape(rt: &impl Abort, alloc: Global, row: &(&str, Shape, &str, bool)) {
    let (why, shape, text, has_it) = *row;
    expect_holds(rt, fits_as(alloc, shape, text, has_it), why);
}

#[test]
fn values_have_shapes(rt: HostRuntime) {
    for row in SHAPES {
        expect_shape(&rt, rt.alloc(), row);
    }
}
