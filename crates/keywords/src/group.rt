//! The keywords that are evaluated, in groups.

ghost use Rattle.std.specs.Prelude.{◌≡◌, flat_map, filter};
ghost use Rattle.definitions.specs.Keywords.{keywords};
ghost use Rattle.keywords.specs.Groups.{in_order, is_evaluated, rows_of};

use crate::keyword::{GROUPS, Keyword};

/// Keywords that stand one after the other in the order of evaluation, and know of each other.
#[derive(Clone, Copy, Debug, Drop, PartialEq, Eq)]
pub enum Group {
    /// A keyword that needs no other.
    One(Keyword),
    /// `if`, and then `then` and `else` by what it said.
    Conditional,
    /// `contains`, and then `minContains` and `maxContains` by what it found.
    Counted,
    /// No keyword: no group begins where a keyword stands that is evaluated with another, or not at all.
    Empty,
}

/// The group that begins with each keyword, in the order of evaluation.
#[tactic(auto, unfolding(crate::specs::Groups::in_order))]
pub fn groups() -> &'static [Group]
    ensures groups { result.now ≡ in_order }
    ensures order { flat_map rows_of result.now ≡ filter is_evaluated keywords }
{
    &GROUPS
}
