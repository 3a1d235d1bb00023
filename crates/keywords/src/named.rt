//! The keyword of a name.

ghost use Rattle.std.specs.Prelude.{◌≡◌, ◌≤◌, length, option_map};
ghost use Rattle.keywords.specs.declared.keyword.Keyword.{Keyword};
ghost use Rattle.keywords.specs.Rows.{row_named, row_of, shape_named};
ghost use Rattle.keywords.specs.Shapes.{shape_view};

use crate::keyword::{Keyword, LIKELY};
use crate::shape::Shape;

/// How many bytes the shortest names have, and the longest.
const SHORTEST: usize = 2;

const LONGEST: usize = 21;

impl Keyword {
    /// The keyword of this name, if there is one. It is compared with one keyword's name at most.
    pub fn named(name: &str) -> Option<Keyword>
        ensures { option_map row_of result ≡ row_named name.now }
    {
        if name.len() < SHORTEST || name.len() > LONGEST {
            return None;
        }
        let keyword = likely(name);
        let likely_name = keyword.name();
        // Of names that are no keyword's most differ in their lengths, which are compared here without a call.
        if likely_name.len() == name.len() && likely_name == name {
            Some(keyword)
        } else {
            None
        }
    }
}

// The one keyword that may have this name.
fn likely(name: &str) -> Keyword
    requires shortest { 2 ≤ length name.now }
    requires longest { length name.now ≤ 21 }
    ensures { (k : Keyword) → name.now ≡ (row_of k).name → result ≡ k }
{
    let bytes = name.as_bytes();
    let len = bytes.len();
    let second = bytes[1] as usize;
    let fifth_last = bytes[len.saturating_sub(5)] as usize;
    LIKELY[(74 * len + 106 * second + fifth_last) % LIKELY.len()]
}

/// The shape that the keyword of this name asks of its value: any, where there is no such keyword.
pub fn shape_named(name: &str) -> Shape
    ensures { shape_view result ≡ shape_named name.now }
{
    match Keyword::named(name) {
        Some(keyword) => keyword.shape(),
        None => Shape::AnyValue,
    }
}
