//! The groups of keywords that every schema object is judged by.

ghost use Rattle.std.specs.Prelude.{◌≡◌};
ghost use Rattle.evaluator.specs.Groups.{first_groups};

use keywords::{Group, Keyword, groups};

/// All groups but of the keywords that look at what others evaluated, which come last.
pub(crate) fn first_groups() -> &'static [Group]
    ensures { result.now ≡ first_groups }
{
    &groups()[..Keyword::UnevaluatedItems.group_number()]
}
