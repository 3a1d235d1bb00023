//! Why an evaluation halts before its end.

ghost use Rattle.std.specs.Prelude.{◌≡◌};
ghost use Rattle.evaluator.specs.Applying.{halt_fault};
ghost use Rattle.evaluator.specs.declared.halt.Halt.TheVariants.{NoRoom};

use faults::Fault;
use std::alloc::AllocError;

/// Why an evaluation halts before its end. It takes a byte, where a [`Fault`] may carry a text: each keyword and each
/// application answers with it.
#[derive(Clone, Copy, Debug, Drop)]
pub(crate) enum Halt {
    /// There were as many applications as there may be.
    Costly,
    /// Memory ran out.
    NoRoom,
}

impl From<AllocError> for Halt {
    ghost from_gives = { λ _ h. h ≡ NoRoom };

    fn from(_refused: AllocError) -> Halt {
        Halt::NoRoom
    }
}

impl Halt {
    /// The fault that an evaluation answers with which halts so.
    pub(crate) fn fault(self) -> Fault
        ensures { result ≡ halt_fault self }
    {
        match self {
            Halt::Costly => Fault::Costly,
            Halt::NoRoom => Fault::NoRoom,
        }
    }
}
