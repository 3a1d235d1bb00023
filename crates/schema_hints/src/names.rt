//! Names that are no keywords.

ghost use Rattle.std.specs.Bool.{OnTrue};
ghost use Rattle.std.specs.Prelude.{◌≡◌, ◌≤◌, None, IfOk, IfSome, IsSome, IsTrue};
ghost use Rattle.keywords.specs.Rows.{row_named};
ghost use Rattle.schema_hints.specs.NearNames.{edits_between};

use keywords::Keyword;
use std::alloc::{AllocError, Global};
use strsim::osa_distance;

// The names that annotate and are no keywords of the table (Core, section 8.3; Validation, sections 7 to 9).
const ANNOTATIONS: &[&str] = &[
    "$comment",
    "$vocabulary",
    "contentEncoding",
    "contentMediaType",
    "default",
    "deprecated",
    "description",
    "examples",
    "format",
    "readOnly",
    "title",
    "writeOnly",
];

// The names of the keywords of the table.
const KEYWORDS: &[&str] = &[
    "$anchor",
    "$defs",
    "$dynamicAnchor",
    "$dynamicRef",
    "$id",
    "$ref",
    "$schema",
    "additionalProperties",
    "allOf",
    "anyOf",
    "const",
    "contains",
    "contentSchema",
    "definitions",
    "dependentRequired",
    "dependentSchemas",
    "else",
    "enum",
    "exclusiveMaximum",
    "exclusiveMinimum",
    "if",
    "items",
    "maxContains",
    "maxItems",
    "maxLength",
    "maxProperties",
    "maximum",
    "minContains",
    "minItems",
    "minLength",
    "minProperties",
    "minimum",
    "multipleOf",
    "not",
    "oneOf",
    "pattern",
    "patternProperties",
    "prefixItems",
    "properties",
    "propertyNames",
    "required",
    "then",
    "type",
    "unevaluatedItems",
    "unevaluatedProperties",
    "uniqueItems",
];

// From how many bytes on a name may differ in two edits.
const LONG_NAME: usize = 8;

/// The keyword, or the name of an annotation, that a name looks like which is neither: one that is one edit away, or two
/// where it has at least eight bytes. An edit puts in, takes away or changes one letter, or exchanges two that follow each
/// other. Names that begin with `x-` look like none. The only error is want of memory.
pub(crate) fn looked_like(alloc: Global, name: &str) -> Result<Option<&'static str>, AllocError>
    ensures keyword { IsSome (row_named name.now) → IfOk result (λ k. k ≡ None) }
    ensures near { IfOk result (λ k. IfSome k (λ k. edits_between name.now k.now ≤ 2)) }
{
    if is_known(name) || name.starts_with("x-") {
        return Ok(None);
    }
    match nearest_in(alloc, name, KEYWORDS)? {
        Some(keyword) => Ok(Some(keyword)),
        None => nearest_in(alloc, name, ANNOTATIONS),
    }
}

// Whether the name is a keyword's or an annotation's.
fn is_known(name: &str) -> bool
    ensures { IsSome (row_named name.now) → IsTrue result }
{
    Keyword::named(name).is_some() || ANNOTATIONS.contains(&name)
}

// The first of the names that are near.
fn nearest_in(
    alloc: Global,
    name: &str,
    names: &'static [&'static str],
) -> Result<Option<&'static str>, AllocError>
    ensures { IfOk result (λ k. IfSome k (λ k. edits_between name.now k.now ≤ 2)) }
{
    for known in names {
        if is_near(alloc, name, known)? {
            return Ok(Some(*known));
        }
    }
    Ok(None)
}

// Whether the name is so few edits away.
fn is_near(alloc: Global, name: &str, known: &str) -> Result<bool, AllocError>
    ensures { IfOk result (λ b. OnTrue b (edits_between name.now known.now ≤ 2)) }
{
    let most = most_edits(name, known);
    if name.len().abs_diff(known.len()) > most {
        return Ok(false);
    }
    Ok(osa_distance(alloc, name, known)? <= most)
}

// How many edits may lie between them; in names of two letters and three none, or an exchange.
fn most_edits(name: &str, known: &str) -> usize
    ensures { result ≤ 2 }
{
    match known.len() {
        0..=2 => 0,
        3 if name.len() != 3 => 0,
        3..LONG_NAME => 1,
        _ => 2,
    }
}

/// What stands in the place of a keyword of an older draft that 2020-12 doesn't look at.
pub(crate) fn successor(name: &str) -> Option<&'static str> {
    match name {
        "dependencies" => Some("dependentRequired or dependentSchemas"),
        "$recursiveRef" => Some("$dynamicRef"),
        "$recursiveAnchor" => Some("$dynamicAnchor"),
        "id" => Some("$id"),
        "additionalItems" => Some("items, beside prefixItems"),
        "divisibleBy" => Some("multipleOf"),
        "extends" => Some("allOf"),
        "disallow" => Some("not"),
        _ => None,
    }
}
