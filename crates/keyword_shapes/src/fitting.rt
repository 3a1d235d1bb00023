//! The test of the shapes of keywords' values (JSON Schema 2020-12 Core, sections 8 to 10; Validation, section 6).

ghost use Rattle.std.specs.Prelude.{◌≡◌, ◌&&◌, nat_lt, length};
ghost use Rattle.std.specs.List.{list_any, list_all};
ghost use Rattle.definitions.specs.Bytes.{is_letter};
ghost use Rattle.definitions.specs.Values.{integer, same_text, is_boolean, is_integer, is_string, is_array};
ghost use Rattle.definitions.specs.Shapes.{types, is_size, is_divisor, is_type_name, are_type_names, is_text_list, are_text_lists, is_schema, is_schema_list, is_schema_map, is_anchor_name, is_anchor_text, is_anchor_byte};
ghost use Rattle.json_doc.specs.Docs.{value};
ghost use Rattle.keywords.specs.Shapes.{fits_shape, shape_view};

use json_doc::{Doc, Whole};
use keywords::Shape;

/// Whether the value has the shape, as far as the value tells by itself and with no memory: a reference is only tested to
/// be a text, as an identifier is, and any value may stand for the dialect.
pub fn fits(shape: Shape, doc: &Doc) -> bool
    ensures { result ≡ fits_shape (shape_view shape) (value doc.now) }
{
    match shape {
        Shape::AnyValue => true,
        Shape::Truth => is_truth(doc),
        Shape::WholeNumber => is_whole_number(doc),
        Shape::Size => is_size(doc),
        Shape::Divisor => is_divisor(doc),
        Shape::AnyText => is_text(doc),
        Shape::ValueList => is_list(doc),
        Shape::TextList => is_text_list(doc),
        Shape::TextLists => are_text_lists(doc),
        Shape::TypeNames => are_type_names(doc),
        Shape::Reference => is_text(doc),
        Shape::OneSchema => is_schema(doc),
        Shape::SchemaList => is_schema_list(doc),
        Shape::SchemaMap => is_schema_map(doc),
        Shape::Identifier => is_text(doc),
        Shape::AnchorName => is_anchor_name(doc),
        Shape::Dialect => true,
    }
}

fn is_truth(doc: &Doc) -> bool
    ensures { result ≡ is_boolean (value doc.now) }
{
    matches!(doc, Doc::Bool(_))
}

fn is_whole_number(doc: &Doc) -> bool
    ensures { result ≡ is_integer (value doc.now) }
{
    matches!(doc, Doc::Int(_))
}

fn is_size(doc: &Doc) -> bool
    ensures { result ≡ is_size (value doc.now) }
{
    match doc {
        Doc::Int(number) => is_at_least_zero(*number),
        _ => false,
    }
}

fn is_at_least_zero(number: Whole) -> bool
    ensures { result ≡ is_size (integer number) }
{
    number.as_u64().is_some()
}

fn is_divisor(doc: &Doc) -> bool
    ensures { result ≡ is_divisor (value doc.now) }
{
    match doc {
        Doc::Int(number) => is_above_zero(*number),
        _ => false,
    }
}

fn is_above_zero(number: Whole) -> bool
    ensures { result ≡ is_divisor (integer number) }
{
    match number.as_u64() {
        Some(natural) => natural > 0,
        None => false,
    }
}

fn is_list(doc: &Doc) -> bool
    ensures { result ≡ is_array (value doc.now) }
{
    matches!(doc, Doc::List(_))
}

// One name of a type, or a list of at least one.
fn are_type_names(doc: &Doc) -> bool
    ensures { result ≡ are_type_names (value doc.now) }
{
    match doc {
        Doc::List(names) => is_list_of_type_names(names),
        _ => is_type_name(doc),
    }
}

// At least one value, and names of types alone.
fn is_list_of_type_names(docs: &[Doc]) -> bool
    ensures { result ≡ (nat_lt 0 (length docs.now)
        && list_all (λ d. is_type_name (value d)) docs.now) }
{
    !docs.is_empty() && all_type_names(docs)
}

fn all_type_names(docs: &[Doc]) -> bool
    ensures { result ≡ list_all (λ d. is_type_name (value d)) docs.now }
{
    docs.iter().all(|doc| is_type_name(doc))
}

fn is_type_name(doc: &Doc) -> bool
    ensures { result ≡ is_type_name (value doc.now) }
{
    match doc {
        Doc::Str(name) => is_type(name.as_str()),
        Doc::Short(name) => is_type(name.as_str()),
        _ => false,
    }
}

// Whether a type has this name.
fn is_type(name: &str) -> bool
    ensures { result ≡ list_any (same_text name.now) types }
{
    name == "null"
        || name == "boolean"
        || name == "object"
        || name == "array"
        || name == "number"
        || name == "string"
        || name == "integer"
}

fn is_text_list(doc: &Doc) -> bool
    ensures { result ≡ is_text_list (value doc.now) }
{
    match doc {
        Doc::List(texts) => all_texts(texts),
        _ => false,
    }
}

fn all_texts(docs: &[Doc]) -> bool
    ensures { result ≡ list_all (λ d. is_string (value d)) docs.now }
{
    docs.iter().all(|doc| is_text(doc))
}

fn is_text(doc: &Doc) -> bool
    ensures { result ≡ is_string (value doc.now) }
{
    matches!(doc, Doc::Str(_) | Doc::Short(_))
}

fn are_text_lists(doc: &Doc) -> bool
    ensures { result ≡ are_text_lists (value doc.now) }
{
    match doc {
        Doc::Dict(lists) => lists.iter().all(|(_name, list)| is_text_list(list)),
        _ => false,
    }
}

fn is_schema_list(doc: &Doc) -> bool
    ensures { result ≡ is_schema_list (value doc.now) }
{
    match doc {
        Doc::List(schemas) => is_list_of_schemas(schemas),
        _ => false,
    }
}

// At least one value, and schemas alone.
fn is_list_of_schemas(docs: &[Doc]) -> bool
    ensures { result ≡ (nat_lt 0 (length docs.now)
        && list_all (λ d. is_schema (value d)) docs.now) }
{
    !docs.is_empty() && all_schemas(docs)
}

fn all_schemas(docs: &[Doc]) -> bool
    ensures { result ≡ list_all (λ d. is_schema (value d)) docs.now }
{
    docs.iter().all(|doc| is_schema(doc))
}

fn is_schema_map(doc: &Doc) -> bool
    ensures { result ≡ is_schema_map (value doc.now) }
{
    match doc {
        Doc::Dict(schemas) => schemas.iter().all(|(_name, schema)| is_schema(schema)),
        _ => false,
    }
}

// Whether the value is a schema: an object or a boolean.
fn is_schema(doc: &Doc) -> bool
    ensures { result ≡ is_schema (value doc.now) }
{
    matches!(doc, Doc::Bool(_) | Doc::Dict(_))
}

// Whether the value is the name of an anchor (Core, section 8.2.2).
fn is_anchor_name(doc: &Doc) -> bool
    ensures { result ≡ is_anchor_name (value doc.now) }
{
    match doc {
        Doc::Str(name) => is_anchor_text(name.as_str()),
        Doc::Short(name) => is_anchor_text(name.as_str()),
        _ => false,
    }
}

// Whether the text is a letter or `_`, and then letters, digits, `-`, `.` and `_`.
fn is_anchor_text(text: &str) -> bool
    ensures { result ≡ is_anchor_text text.now }
{
    match text.as_bytes() {
        [] => false,
        [first, rest @ ..] => (is_letter(*first) || *first == b'_') && are_anchor_bytes(rest),
    }
}

fn is_letter(byte: u8) -> bool
    ensures { result ≡ is_letter byte }
{
    byte.is_ascii_alphabetic()
}

fn are_anchor_bytes(bytes: &[u8]) -> bool
    ensures { result ≡ list_all is_anchor_byte bytes.now }
{
    bytes.iter().all(|byte| is_anchor_byte(*byte))
}

fn is_anchor_byte(byte: u8) -> bool
    ensures { result ≡ is_anchor_byte byte }
{
    byte.is_ascii_alphanumeric() || byte == b'-' || byte == b'.' || byte == b'_'
}
