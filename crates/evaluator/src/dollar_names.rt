//! The members of a schema object whose names begin with `$`: all but those of a few keywords are ignored (Core,
//! section 6.5).

ghost use Rattle.std.specs.Prelude.{◌≡◌, ◌++◌, false, true, codes, length, nat_lt};
ghost use Rattle.std.specs.List.{AllByRecursion};
ghost use Rattle.definitions.specs.Uris.{begins};
ghost use Rattle.json_doc.specs.Docs.{members_value};
ghost use Rattle.json_doc.specs.Members.{members_left};

use crate::tuning::FEW_MEMBERS;
use json_doc::{Cut, Members};

/// Whether there are so many members that those whose names begin with `$` should be passed over together.
pub(crate) fn are_many(members: &Members) -> bool
    ensures { result ≡ nat_lt 64 (length (members_value members.now)) }
{
    members.len() > FEW_MEMBERS
}

/// The members cut before and after those whose names begin with `$`. The time grows with the logarithm of the number
/// of members.
pub(crate) fn cut_at_dollar_names(members: &Members) -> Cut<'_>
    ensures all { members_left result.before
        ++ (members_left result.within ++ members_left result.after)
        ≡ members_value members.now }
    ensures before { AllByRecursion (λ m. begins m.0 (codes "$") ≡ false)
        (members_left result.before) }
    ensures within { AllByRecursion (λ m. begins m.0 (codes "$") ≡ true)
        (members_left result.within) }
    ensures after { AllByRecursion (λ m. begins m.0 (codes "$") ≡ false)
        (members_left result.after) }
{
    members.cut_between("$", "%")
}
