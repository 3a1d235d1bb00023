//! How many code points, elements or members an instance has (Validation, sections 6.3 to 6.5).

ghost use Rattle.std.specs.Prelude.{◌≡◌, length, chars, nat_le};
ghost use Rattle.definitions.specs.Assertions.{is_at_most, is_at_least, on_length, on_elements, on_members};
ghost use Rattle.json_doc.specs.Docs.{value};

use crate::limits::{is_at_least, is_at_most, size_of};
use json_doc::Doc;

/// Whether the instance, where it is a string, has at most so many code points.
#[inline(always)]
pub(crate) fn has_length_at_most(instance: &Doc, limit: &Doc) -> bool
    ensures { result ≡ on_length (is_at_most (value limit.now)) (value instance.now) }
{
    match instance {
        Doc::Str(text) => is_length_at_most(text.as_str(), limit),
        Doc::Short(text) => is_length_at_most(text.as_str(), limit),
        _ => true,
    }
}

#[inline(always)]
fn is_length_at_most(text: &str, limit: &Doc) -> bool
    ensures { result ≡ is_at_most (value limit.now) (length (chars text.now)) }
{
    match size_of(limit) {
        Some(size) => has_at_most(text, size),
        None => true,
    }
}

// A code point has one to four bytes, so the code points are counted only where the bytes leave it open.
#[inline(always)]
fn has_at_most(text: &str, size: u64) -> bool
    ensures { result ≡ nat_le (length (chars text.now)) size }
{
    let bytes = text.len() as u64;
    if bytes <= size {
        true
    } else if bytes.div_ceil(4) > size {
        false
    } else {
        count_of(text) <= size
    }
}

/// Whether the instance, where it is a string, has at least so many code points.
#[inline(always)]
pub(crate) fn has_length_at_least(instance: &Doc, limit: &Doc) -> bool
    ensures { result ≡ on_length (is_at_least (value limit.now)) (value instance.now) }
{
    match instance {
        Doc::Str(text) => is_length_at_least(text.as_str(), limit),
        Doc::Short(text) => is_length_at_least(text.as_str(), limit),
        _ => true,
    }
}

#[inline(always)]
fn is_length_at_least(text: &str, limit: &Doc) -> bool
    ensures { result ≡ is_at_least (value limit.now) (length (chars text.now)) }
{
    match size_of(limit) {
        Some(size) => has_at_least(text, size),
        None => true,
    }
}

#[inline(always)]
fn has_at_least(text: &str, size: u64) -> bool
    ensures { result ≡ nat_le size (length (chars text.now)) }
{
    let bytes = text.len() as u64;
    if bytes < size {
        false
    } else if bytes.div_ceil(4) >= size {
        true
    } else {
        count_of(text) >= size
    }
}

// The number of code points.
fn count_of(text: &str) -> u64
    ensures { result ≡ length (chars text.now) }
{
    text.chars().count() as u64
}

/// Whether the instance, where it is a list, has at most so many elements.
#[inline(always)]
pub(crate) fn has_elements_at_most(instance: &Doc, limit: &Doc) -> bool
    ensures { result ≡ on_elements (is_at_most (value limit.now)) (value instance.now) }
{
    match instance {
        Doc::List(items) => is_at_most(items.len() as u64, limit),
        _ => true,
    }
}

/// Whether the instance, where it is a list, has at least so many elements.
#[inline(always)]
pub(crate) fn has_elements_at_least(instance: &Doc, limit: &Doc) -> bool
    ensures { result ≡ on_elements (is_at_least (value limit.now)) (value instance.now) }
{
    match instance {
        Doc::List(items) => is_at_least(items.len() as u64, limit),
        _ => true,
    }
}

/// Whether the instance, where it is an object, has at most so many members.
#[inline(always)]
pub(crate) fn has_members_at_most(instance: &Doc, limit: &Doc) -> bool
    ensures { result ≡ on_members (is_at_most (value limit.now)) (value instance.now) }
{
    match instance {
        Doc::Dict(members) => is_at_most(members.len() as u64, limit),
        _ => true,
    }
}

/// Whether the instance, where it is an object, has at least so many members.
#[inline(always)]
pub(crate) fn has_members_at_least(instance: &Doc, limit: &Doc) -> bool
    ensures { result ≡ on_members (is_at_least (value limit.now)) (value instance.now) }
{
    match instance {
        Doc::Dict(members) => is_at_least(members.len() as u64, limit),
        _ => true,
    }
}
