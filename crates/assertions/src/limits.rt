//! Limits on a count (Validation, sections 6.3 to 6.5).

ghost use Rattle.std.specs.Prelude.{◌≡◌};
ghost use Rattle.definitions.specs.Assertions.{is_at_most, is_at_least};
ghost use Rattle.json_doc.specs.Docs.{value};
ghost use Rattle.assertions.specs.Limits.{size_of};

use json_doc::Doc;

/// Whether the count is at most the limit: true where that is no whole number of at least 0.
#[inline(always)]
pub fn is_at_most(count: u64, limit: &Doc) -> bool
    ensures { result ≡ is_at_most (value limit.now) count }
{
    match size_of(limit) {
        Some(size) => count <= size,
        None => true,
    }
}

/// Whether the count is at least the limit: true where that is no whole number of at least 0.
#[inline(always)]
pub fn is_at_least(count: u64, limit: &Doc) -> bool
    ensures { result ≡ is_at_least (value limit.now) count }
{
    match size_of(limit) {
        Some(size) => count >= size,
        None => true,
    }
}

/// The number, where it is one of at least 0.
#[inline(always)]
pub(crate) fn size_of(limit: &Doc) -> Option<u64>
    ensures { result ≡ size_of (value limit.now) }
{
    match limit {
        Doc::Int(number) => number.as_u64(),
        _ => None,
    }
}
