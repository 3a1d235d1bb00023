//! A way that owns its names.

ghost use Rattle.std.specs.Prelude.{◌≡◌, true, string_bytes};
ghost use Rattle.std.specs.Str.{IsUtf8};
ghost use Rattle.locations.specs.Hops.{step_hop};
ghost use Rattle.locations.specs.OwnedSteps.{are_cut, is_cut, names_after, owned_hop};

use crate::step::Step;

/// A way from a document's root to a value in it, which owns its names. However many steps it has, it takes two pieces
/// of memory: one for all names, and one for the steps.
///
/// Contracts see the hops, by `owned_hops`.
#[derive(Debug, Drop)]
pub struct OwnedWay {
    // The names of the steps, one after the other.
    pub(crate) names: String,
    pub(crate) steps: Vec<OwnedStep>,
    ghost cut: { are_cut steps.items (string_bytes names) ≡ true },
}

/// One step of such a way.
#[derive(Clone, Copy, Debug)]
pub(crate) enum OwnedStep {
    /// To the member whose name takes so many bytes of the names.
    Name(u32),
    /// To the element of this index.
    Index(u32),
}

// What a step takes, beside its name.
const _: () = prove!(size_of::<OwnedStep>() == 8);

/// The step whose name begins the names, and the names of those that follow it.
pub(crate) fn cut_step<'a>(kept: OwnedStep, names: &'a str) -> (Step<'a>, &'a str)
    requires { is_cut kept names.now ≡ true }
    ensures step { step_hop result.0 ≡ owned_hop kept names.now }
    ensures rest { result.1.now ≡ names_after kept names.now }
    ensures text { IsUtf8 result.1.now }
{
    match kept {
        OwnedStep::Name(len) => {
            let end = len as usize;
            (Step::Name(&names[..end]), &names[end..])
        }
        OwnedStep::Index(index) => (Step::Index(index as usize), names),
    }
}
