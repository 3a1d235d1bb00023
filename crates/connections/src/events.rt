//! What comes of all that happens on many connections.

ghost use Rattle.connections.specs.Events.{EventsAreAnswered, CutsDecideNothing};

use crate::handlers::Handler;

/// Whatever happens on connections of which none is open at first, in any order: each is opened, fed pieces of its
/// stream, and ended, and memory may lack for any piece and at any end. All requests are answered one after the other.
/// Those of each connection are what its stream spells, however it was cut, and it is sent their replies, and the closing
/// fault where its stream is past hope. Where memory lacked on a connection, that holds of a first part of its stream and
/// of what it is sent, and of all other connections as if it hadn't.
///
/// Connections are told apart by numbers, none of which is given twice.
pub fn events_are_answered<H: Handler>()
    ensures { EventsAreAnswered H.answers }
{}

/// Two ways of cutting the same streams, and of feeding the pieces in turn, in which the same whole requests come in
/// the same order: where each request has one answer, the same state is left and each connection on which memory lacked
/// in neither way is sent the same bytes, save that one may be closed already while it still waits in the other way.
pub fn cuts_decide_nothing<H: Handler>()
    ensures { CutsDecideNothing H.answers }
{}
