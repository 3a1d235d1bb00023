//! The order of names.

ghost use Rattle.std.specs.Prelude.{◌≡◌, slice_index_or};
ghost use Rattle.std.specs.Cmp.Lexicographic.{slice_cmp};
ghost use Rattle.std.specs.Ordering.{nat_cmp};

use std::cmp::Ordering;

/// The byte order of two names, as `cmp` tells it. Of names that differ mostly the first bytes tell.
#[inline(always)]
pub fn compare_names(name: &str, other: &str) -> Ordering
    ensures { result ≡ slice_cmp nat_cmp name.now other.now }
{
    let first = first_byte(name);
    let other_first = first_byte(other);
    if first < other_first {
        Ordering::Less
    } else if other_first < first {
        Ordering::Greater
    } else {
        name.cmp(other)
    }
}

// The first byte, or 0 of no bytes.
#[inline(always)]
fn first_byte(text: &str) -> u8
    ensures { result ≡ slice_index_or text.now 0 0 }
{
    match text.as_bytes().first() {
        Some(byte) => *byte,
        None => 0,
    }
}
