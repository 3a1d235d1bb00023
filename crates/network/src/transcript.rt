//! What was moved, which stands in proofs alone.

ghost use Rattle.std.specs.Prelude.{◌≡◌, List, [], ◌∷◌, ◌++◌, Option, Some, None};
ghost use base.Fml.{ftrue};
ghost use Rattle.network.specs.Traffic.{Moved};
ghost use Rattle.network.specs.Codes.{calls_code};

use std::marker::Model;

/// The calls that moved bytes, or failed, up to now. It is empty when the program runs.
#[derive(Drop)]
pub struct Transcript {
    // None of a call that failed.
    ghost calls: { List (Option Moved) } by { calls_code },
}

impl Model for Transcript {
    ghost also_owns = { λ _. ftrue };
}

/// One call.
#[derive(Clone, Copy, Drop)]
pub enum Note<'a> {
    /// These bytes were moved on the connection.
    Moved(u64, &'a [u8]),
    /// The call failed.
    Failed,
}

impl Transcript {
    ghost use Rattle.network.specs.Notes.{call_in};
    ghost use Rattle.network.specs.Transcripts.{moves_of, ids_of, transfers_of};

    /// No call.
    pub fn new() -> Transcript
        ensures { result.calls ≡ [] }
    {
        Transcript {}
    }

    // One more.
    fn then(&self, _note: &Note<'_>) -> Transcript
        ensures { result.calls ≡ self.now.calls ++ (call_in _note.now ∷ []) }
    {
        Transcript {}
    }

    /// One more, which moved these bytes on the connection.
    pub fn moved(&self, id: u64, bytes: &[u8]) -> Transcript
        ensures moves { moves_of result ≡ moves_of self.now ++ ((id, bytes.now) ∷ []) }
        ensures transfers { transfers_of result ≡ transfers_of self.now ++ (Some bytes.now ∷ []) }
    {
        self.then(&Note::Moved(id, bytes))
    }

    /// One more, which told something of the connection and moved no bytes.
    pub fn named(&self, id: u64) -> Transcript
        ensures { ids_of result ≡ ids_of self.now ++ (id ∷ []) }
    {
        self.moved(id, &[])
    }

    /// One more, which failed.
    pub fn failed(&self) -> Transcript
        ensures moves { moves_of result ≡ moves_of self.now }
        ensures transfers { transfers_of result ≡ transfers_of self.now ++ (None ∷ []) }
    {
        self.then(&Note::Failed)
    }
}
