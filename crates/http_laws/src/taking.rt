//! What a connection takes, step by step.

ghost use Rattle.http_laws.specs.Taking.{PiecesAreTakenAsOne, WaitingBytesAreHeld, LineEndsAreDropped, HopelessBytesClose, LastRequestsClose, RequestsAreAnswered};

use crate::answering::Answering;

/// A connection that takes two pieces one after the other takes them as one.
pub fn pieces_are_taken_as_one<A: Answering>()
    ensures { PiecesAreTakenAsOne A.answers }
{}

/// Bytes that wait for more are held, and nothing is answered.
pub fn waiting_bytes_are_held<A: Answering>()
    ensures { WaitingBytesAreHeld A.answers }
{}

/// Line ends alone are dropped, and nothing is answered.
pub fn line_ends_are_dropped<A: Answering>()
    ensures { LineEndsAreDropped A.answers }
{}

/// Bytes past hope are answered by the closing fault alone.
pub fn hopeless_bytes_close<A: Answering>()
    ensures { HopelessBytesClose A.answers }
{}

/// A last request is answered and closes the connection, whatever follows it.
pub fn last_requests_close<A: Answering>()
    ensures { LastRequestsClose A.answers }
{}

/// A request behind which nothing stands is answered, and nothing is held.
pub fn requests_are_answered<A: Answering>()
    ensures { RequestsAreAnswered A.answers }
{}
