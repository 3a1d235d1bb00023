//! The loop.

ghost use Rattle.std.specs.Prelude.{◌≡◌, ℕ, None, Err, OnOk};
ghost use Rattle.connections.specs.Connected.{connection_at, handler_of};
ghost use Rattle.connections.specs.Found.{FindsOnly};
ghost use Rattle.serving_many.specs.Serving.{IsServed};

use crate::meeting::{Round, meet};
use crate::observers::Observer;
use crate::sending::end_round;
use connections::{Handler, Outage, Sessions, Unsettled};
use network::{Network, Occasion, Outbox};
use std::alloc::Global;

/// Serves connections side by side, in whatever order they come and are ready, until nothing more is to be served. All
/// together may keep some `most_memory` bytes: those that they hold of requests that aren't whole, and those that are
/// still to be sent.
///
/// - [`Outage::Broken`] where [`Network::wait`] failed.
/// - [`Outage::Unsettled`] where what was answered couldn't be made durable: no reply of that round is written.
///
/// A connection is read in pieces of at most 4,096 bytes, each of which is answered as it comes, and its replies are
/// written at the end of the round, once all that was answered in it is durable. It isn't read while bytes are to be sent
/// on it, nor while all others together keep more than `most_memory`. It is parted with as soon as all is sent behind
/// a last request or the closing fault, or, at the end of its stream, behind what is told at last. It alone is ended, and what is
/// still to be sent on it dropped, where one of its reads or writes fails, where a write takes nothing, where it takes too
/// long, and where memory lacks.
pub fn serve_all<H: Handler, N: Network, O: Observer>(
    alloc: Global,
    sessions: &mut Sessions<H>,
    network: &mut N,
    observer: &mut O,
    most_memory: usize,
) -> Result<(), Outage>
    requires { (k : ℕ) → connection_at sessions.old k ≡ None }
    ensures served { IsServed H.state H.finds H.answers sessions.old
        (N.reads network.old) (N.writes network.old) (N.client network.old)
        sessions.new (N.reads network.new) (N.writes network.new) (N.client network.new) }
    ensures durable { OnOk result
        (FindsOnly H.finds (handler_of sessions.new) (H.state (handler_of sessions.new))) }
    ensures keeps { (why : Unsettled) → result ≡ Err (Outage.Unsettled why) → H.keeps }
{
    let mut outbox = Outbox::new(alloc, most_memory);
    let mut round = Round::new(alloc);
    for _ in 0..u64::MAX {
        match network.next() {
            Some(Occasion::Over) => break,
            Some(occasion) => {
                meet(
                    sessions,
                    &mut outbox,
                    network,
                    observer,
                    &mut round,
                    occasion,
                );
            }
            None => {
                match end_round(sessions, &mut outbox, network, observer, &mut round.waiting) {
                    Ok(()) => {}
                    Err(outage) => return Err(outage),
                }
                match network.wait(&outbox) {
                    Ok(()) => {}
                    Err(_) => return Err(Outage::Broken),
                }
            }
        }
    }
    end_round(sessions, &mut outbox, network, observer, &mut round.waiting)
}
