//! The keywords, and what each asks of the instance.

ghost use Rattle.std.specs.Prelude.{◌≡◌, IfOk, option_map};
ghost use Rattle.definitions.specs.Assertions.{shape_of, assertion_holds, holds};
ghost use Rattle.definitions.specs.Keywords.{assertion_row};
ghost use Rattle.definitions.specs.Shapes.{has_shape};
ghost use Rattle.json_doc.specs.Docs.{value};
ghost use Rattle.keywords.specs.Shapes.{shape_view};
ghost use Rattle.keywords.specs.Rows.{row_of};
ghost use Rattle.assertions.specs.AssertionView.{assertion_in, assertion_view};

use crate::equality::{is_one_of, is_unique_if};
use crate::lengths::{
    has_elements_at_least, has_elements_at_most, has_length_at_least, has_length_at_most,
    has_members_at_least, has_members_at_most,
};
use crate::names::{has_dependents, has_names};
use crate::numbers::{is_below, is_multiple_if, is_not_above};
use crate::types::{is_of_types, is_surely_of_type};
use json_doc::{Doc, same};
use keyword_shapes::fits;
use keywords::{Keyword, Shape};
use std::alloc::{AllocError, Global};

/// A keyword that looks at its own value and the instance.
#[derive(Clone, Copy, Debug, Drop, PartialEq, Eq)]
pub enum Assertion {
    /// `type` (6.1.1): the instance is of the type, or of one of the types.
    TypeIs,
    /// `enum` (6.1.2): the instance is one of the values.
    EnumOf,
    /// `const` (6.1.3): the instance is the value.
    ConstIs,
    /// `multipleOf` (6.2.1): the number divides the instance.
    MultipleOf,
    /// `maximum` (6.2.2): the instance is not above the number.
    Maximum,
    /// `exclusiveMaximum` (6.2.3): the instance is below the number.
    ExclusiveMaximum,
    /// `minimum` (6.2.4): the instance is not below the number.
    Minimum,
    /// `exclusiveMinimum` (6.2.5): the instance is above the number.
    ExclusiveMinimum,
    /// `maxLength` (6.3.1): the instance has at most so many code points.
    MaxLength,
    /// `minLength` (6.3.2): the instance has at least so many code points.
    MinLength,
    /// `maxProperties` (6.5.1): the instance has at most so many members.
    MaxProperties,
    /// `minProperties` (6.5.2): the instance has at least so many members.
    MinProperties,
    /// `required` (6.5.3): the instance has a member of each of the names.
    Required,
    /// `dependentRequired` (6.5.4): for each name that the instance has, it has those that this one asks for.
    DependentRequired,
    /// `maxItems` (6.4.1): the instance has at most so many elements.
    MaxItems,
    /// `minItems` (6.4.2): the instance has at least so many elements.
    MinItems,
    /// `uniqueItems` (6.4.3): no two elements of the instance are equal.
    UniqueItems,
}

impl Assertion {
    /// The assertion that the keyword makes, if it is one that looks at its own value and the instance.
    pub fn of(keyword: Keyword) -> Option<Assertion>
        ensures { option_map assertion_view result ≡ assertion_in (row_of keyword).meaning }
    {
        match keyword {
            Keyword::Type => Some(Assertion::TypeIs),
            Keyword::Enum => Some(Assertion::EnumOf),
            Keyword::Const => Some(Assertion::ConstIs),
            Keyword::MultipleOf => Some(Assertion::MultipleOf),
            Keyword::Maximum => Some(Assertion::Maximum),
            Keyword::ExclusiveMaximum => Some(Assertion::ExclusiveMaximum),
            Keyword::Minimum => Some(Assertion::Minimum),
            Keyword::ExclusiveMinimum => Some(Assertion::ExclusiveMinimum),
            Keyword::MaxLength => Some(Assertion::MaxLength),
            Keyword::MinLength => Some(Assertion::MinLength),
            Keyword::MaxProperties => Some(Assertion::MaxProperties),
            Keyword::MinProperties => Some(Assertion::MinProperties),
            Keyword::Required => Some(Assertion::Required),
            Keyword::DependentRequired => Some(Assertion::DependentRequired),
            Keyword::MaxItems => Some(Assertion::MaxItems),
            Keyword::MinItems => Some(Assertion::MinItems),
            Keyword::UniqueItems => Some(Assertion::UniqueItems),
            _ => None,
        }
    }

    /// The keyword that makes it.
    pub fn keyword(self) -> Keyword
        ensures { row_of result ≡ assertion_row (row_of result).name (assertion_view self) }
    {
        match self {
            Assertion::TypeIs => Keyword::Type,
            Assertion::EnumOf => Keyword::Enum,
            Assertion::ConstIs => Keyword::Const,
            Assertion::MultipleOf => Keyword::MultipleOf,
            Assertion::Maximum => Keyword::Maximum,
            Assertion::ExclusiveMaximum => Keyword::ExclusiveMaximum,
            Assertion::Minimum => Keyword::Minimum,
            Assertion::ExclusiveMinimum => Keyword::ExclusiveMinimum,
            Assertion::MaxLength => Keyword::MaxLength,
            Assertion::MinLength => Keyword::MinLength,
            Assertion::MaxProperties => Keyword::MaxProperties,
            Assertion::MinProperties => Keyword::MinProperties,
            Assertion::Required => Keyword::Required,
            Assertion::DependentRequired => Keyword::DependentRequired,
            Assertion::MaxItems => Keyword::MaxItems,
            Assertion::MinItems => Keyword::MinItems,
            Assertion::UniqueItems => Keyword::UniqueItems,
        }
    }
}

/// Whether the keyword, with this value, holds of the instance (Validation, section 6). An instance of a kind that the
/// keyword does not speak of passes, and a value that lacks the keyword's shape asks for nothing. The only error is want of
/// memory, which `uniqueItems` alone takes, and only for an array of more than 16 elements.
#[inline(always)]
pub fn holds(
    alloc: Global,
    assertion: Assertion,
    keyword_value: &Doc,
    instance: &Doc,
) -> Result<bool, AllocError>
    ensures { IfOk result (λ b. b
        ≡ holds (assertion_view assertion) (value keyword_value.now) (value instance.now)) }
{
    match assertion {
        Assertion::TypeIs if is_surely_of_type(instance, keyword_value) => Ok(true),
        _ => holds_in_full(alloc, assertion, keyword_value, instance),
    }
}

// Whether the keyword, with this value, holds of the instance, whatever the keyword. It is called apart: what most objects ask is
// a type. What compares numbers and counts is judged in place, which calls nothing where it holds.
#[inline(never)]
fn holds_in_full(
    alloc: Global,
    assertion: Assertion,
    keyword_value: &Doc,
    instance: &Doc,
) -> Result<bool, AllocError>
    ensures { IfOk result (λ b. b
        ≡ holds (assertion_view assertion) (value keyword_value.now) (value instance.now)) }
{
    match assertion {
        Assertion::MultipleOf
        | Assertion::Maximum
        | Assertion::ExclusiveMaximum
        | Assertion::Minimum
        | Assertion::ExclusiveMinimum
        | Assertion::MaxLength
        | Assertion::MinLength
        | Assertion::MaxProperties
        | Assertion::MinProperties => holds_in_place(alloc, assertion, keyword_value, instance),
        Assertion::MaxItems | Assertion::MinItems => {
            holds_in_place(alloc, assertion, keyword_value, instance)
        }
        _ => holds_apart(alloc, assertion, keyword_value, instance),
    }
}

// Whether the keyword, with this value, holds of the instance. It is judged in a call of its own.
#[inline(never)]
fn holds_apart(
    alloc: Global,
    assertion: Assertion,
    keyword_value: &Doc,
    instance: &Doc,
) -> Result<bool, AllocError>
    ensures { IfOk result (λ b. b
        ≡ holds (assertion_view assertion) (value keyword_value.now) (value instance.now)) }
{
    holds_in_place(alloc, assertion, keyword_value, instance)
}

// Whether the keyword, with this value, holds of the instance. It is judged in the caller's own code.
#[inline(always)]
fn holds_in_place(
    alloc: Global,
    assertion: Assertion,
    keyword_value: &Doc,
    instance: &Doc,
) -> Result<bool, AllocError>
    ensures { IfOk result (λ b. b
        ≡ holds (assertion_view assertion) (value keyword_value.now) (value instance.now)) }
{
    if is_asserted(alloc, assertion, keyword_value, instance)? {
        Ok(true)
    } else {
        Ok(!has_its_shape(assertion, keyword_value))
    }
}

// Whether the value has the keyword's shape.
#[inline(never)]
fn has_its_shape(assertion: Assertion, keyword_value: &Doc) -> bool
    ensures { result ≡ has_shape (shape_of (assertion_view assertion)) (value keyword_value.now) }
{
    fits(shape_of(assertion), keyword_value)
}

// The shape that the assertion's value has to have.
fn shape_of(assertion: Assertion) -> Shape
    ensures { shape_view result ≡ shape_of (assertion_view assertion) }
{
    assertion.keyword().shape()
}

// What the keyword asks. Of a value of another shape the answer tells nothing.
#[inline(always)]
fn is_asserted(
    alloc: Global,
    assertion: Assertion,
    keyword_value: &Doc,
    instance: &Doc,
) -> Result<bool, AllocError>
    ensures { IfOk result (λ b. b
        ≡ assertion_holds (assertion_view assertion) (value keyword_value.now)
        (value instance.now)) }
{
    Ok(match assertion {
        Assertion::TypeIs => is_of_types(instance, keyword_value),
        Assertion::EnumOf => is_one_of(instance, keyword_value),
        Assertion::ConstIs => same(keyword_value, instance),
        Assertion::MultipleOf => is_multiple_if(instance, keyword_value),
        Assertion::Maximum => is_not_above(instance, keyword_value),
        Assertion::ExclusiveMaximum => is_below(instance, keyword_value),
        Assertion::Minimum => is_not_above(keyword_value, instance),
        Assertion::ExclusiveMinimum => is_below(keyword_value, instance),
        Assertion::MaxLength => has_length_at_most(instance, keyword_value),
        Assertion::MinLength => has_length_at_least(instance, keyword_value),
        Assertion::MaxProperties => has_members_at_most(instance, keyword_value),
        Assertion::MinProperties => has_members_at_least(instance, keyword_value),
        Assertion::Required => has_names(instance, keyword_value),
        Assertion::DependentRequired => has_dependents(instance, keyword_value),
        Assertion::MaxItems => has_elements_at_most(instance, keyword_value),
        Assertion::MinItems => has_elements_at_least(instance, keyword_value),
        Assertion::UniqueItems => is_unique_if(alloc, keyword_value, instance)?,
    })
}
