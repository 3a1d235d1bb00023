//! Numbers (Validation, section 6.2): whole, from -2^63 to 2^64 - 1.

ghost use Rattle.std.specs.Prelude.{◌≡◌, nat_abs, int_le, int_lt};
ghost use Rattle.definitions.specs.Values.{integer};
ghost use Rattle.definitions.specs.Assertions.{is_multiple, on_integer, are_ordered};
ghost use Rattle.json_doc.specs.Docs.{value};

use json_doc::{Doc, Whole};

/// Whether both are numbers and the divisor, above 0, divides the instance (Validation, section 6.2.1).
#[inline(always)]
pub(crate) fn is_multiple(instance: &Doc, divisor: &Doc) -> bool
    ensures { result ≡ is_multiple (value instance.now) (value divisor.now) }
{
    match instance {
        Doc::Int(number) => is_number_multiple(*number, divisor),
        _ => false,
    }
}

#[inline(always)]
fn is_number_multiple(number: Whole, divisor: &Doc) -> bool
    ensures { result ≡ is_multiple (integer number) (value divisor.now) }
{
    match divisor {
        Doc::Int(divisor) => divides(*divisor, number),
        _ => false,
    }
}

#[inline(always)]
fn divides(divisor: Whole, number: Whole) -> bool
    ensures { result ≡ is_multiple (integer number) (integer divisor) }
{
    match divisor.as_u64() {
        Some(divisor) => divisor > 0 && magnitude(number) % divisor == 0,
        None => false,
    }
}

// The number without its sign.
#[inline(always)]
fn magnitude(number: Whole) -> u64
    ensures { result ≡ nat_abs number }
{
    number.number().unsigned_abs() as u64
}

/// Whether the instance, where it is a number, is a multiple of the divisor.
#[inline(always)]
pub(crate) fn is_multiple_if(instance: &Doc, divisor: &Doc) -> bool
    ensures { result ≡ on_integer (λ y. is_multiple y (value divisor.now)) (value instance.now) }
{
    match instance {
        Doc::Int(_) => is_multiple(instance, divisor),
        _ => true,
    }
}

/// Whether the first number is not above the second, where both are numbers.
#[inline(always)]
pub(crate) fn is_not_above(first: &Doc, second: &Doc) -> bool
    ensures { result ≡ are_ordered int_le (value first.now) (value second.now) }
{
    match first {
        Doc::Int(number) => match second {
            Doc::Int(other) => number.number() <= other.number(),
            _ => true,
        },
        _ => true,
    }
}

/// Whether the first number is below the second, where both are numbers.
#[inline(always)]
pub(crate) fn is_below(first: &Doc, second: &Doc) -> bool
    ensures { result ≡ are_ordered int_lt (value first.now) (value second.now) }
{
    match first {
        Doc::Int(number) => match second {
            Doc::Int(other) => number.number() < other.number(),
            _ => true,
        },
        _ => true,
    }
}
