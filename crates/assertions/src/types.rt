//! The types of instances (Validation, section 6.1.1).

ghost use Rattle.std.specs.Prelude.{◌≡◌, IsTrue, take, true};
ghost use Rattle.std.specs.List.{list_any};
ghost use Rattle.definitions.specs.Values.{same_text};
ghost use Rattle.definitions.specs.Assertions.{is_of_types, is_of_type, types_of};
ghost use Rattle.json_doc.specs.Docs.{value};
ghost use Rattle.json_doc.specs.SmallTexts.{short_text};

use json_doc::{Doc, ShortText};

// The names of the types, with zeros behind them.
const NULL: &[u8; 24] = b"null\0\0\0\0\0\0\0\0\0\0\0\0\0\0\0\0\0\0\0\0";

const BOOLEAN: &[u8; 24] = b"boolean\0\0\0\0\0\0\0\0\0\0\0\0\0\0\0\0\0";

const INTEGER: &[u8; 24] = b"integer\0\0\0\0\0\0\0\0\0\0\0\0\0\0\0\0\0";

const NUMBER: &[u8; 24] = b"number\0\0\0\0\0\0\0\0\0\0\0\0\0\0\0\0\0\0";

const STRING: &[u8; 24] = b"string\0\0\0\0\0\0\0\0\0\0\0\0\0\0\0\0\0\0";

const ARRAY: &[u8; 24] = b"array\0\0\0\0\0\0\0\0\0\0\0\0\0\0\0\0\0\0\0";

const OBJECT: &[u8; 24] = b"object\0\0\0\0\0\0\0\0\0\0\0\0\0\0\0\0\0\0";

/// Whether the instance is of the type, or of one of the types.
pub(crate) fn is_of_types(instance: &Doc, types: &Doc) -> bool
    ensures { result ≡ is_of_types (value instance.now) (value types.now) }
{
    match types {
        Doc::List(types) => is_of_one(instance, types),
        _ => is_of_type(instance, types),
    }
}

/// Whether the instance surely is of the type that this value names, which is told without a call.
#[inline(always)]
pub(crate) fn is_surely_of_type(instance: &Doc, name: &Doc) -> bool
    ensures { IsTrue result → is_of_types (value instance.now) (value name.now) ≡ true }
{
    match name {
        Doc::Short(name) => surely_has_type(instance, name),
        _ => false,
    }
}

fn is_of_one(instance: &Doc, types: &[Doc]) -> bool
    ensures { result ≡ list_any (λ d. is_of_type (value instance.now) (value d)) types.now }
{
    types.iter().any(|name| is_of_type(instance, name))
}

#[inline(always)]
fn is_of_type(instance: &Doc, name: &Doc) -> bool
    ensures { result ≡ is_of_type (value instance.now) (value name.now) }
{
    match name {
        Doc::Str(name) => has_type(instance, name.as_str()),
        Doc::Short(name) => surely_has_type(instance, name) || has_type(instance, name.as_str()),
        _ => false,
    }
}

// Whether the instance surely has a type of this name, which is told without a call.
#[inline(always)]
fn surely_has_type(instance: &Doc, name: &ShortText) -> bool
    ensures { IsTrue result
        → list_any (same_text (short_text name.now)) (types_of (value instance.now)) ≡ true }
{
    match instance {
        Doc::Null => is_named(name, 4, NULL),
        Doc::Bool(_) => is_named(name, 7, BOOLEAN),
        Doc::Int(_) => is_named(name, 7, INTEGER) || is_named(name, 6, NUMBER),
        Doc::Str(_) | Doc::Short(_) => is_named(name, 6, STRING),
        Doc::List(_) => is_named(name, 5, ARRAY),
        Doc::Dict(_) => is_named(name, 6, OBJECT),
    }
}

// Whether the name surely is that of so many of these bytes. It is inlined for its size: to ask for it would count all that the
// comparison is written as, for each type.
fn is_named(name: &ShortText, len: u32, padded: &[u8; 24]) -> bool
    ensures { IsTrue result → short_text name.now ≡ take len padded.now }
{
    name.is_padded(len, padded)
}

// Whether the instance has a type of this name. A whole number is both `number` and `integer`.
fn has_type(instance: &Doc, name: &str) -> bool
    ensures { result ≡ list_any (same_text name.now) (types_of (value instance.now)) }
{
    match instance {
        Doc::Null => name == "null",
        Doc::Bool(_) => name == "boolean",
        Doc::Int(_) => name == "number" || name == "integer",
        Doc::Str(_) | Doc::Short(_) => name == "string",
        Doc::List(_) => name == "array",
        Doc::Dict(_) => name == "object",
    }
}
