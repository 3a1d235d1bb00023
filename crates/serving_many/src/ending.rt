//! Ending a connection.

ghost use Rattle.std.specs.Prelude.{◌≡◌, [], false, Some, None};
ghost use Rattle.definitions.specs.Values.{Text};
ghost use Rattle.connections.specs.Connected.{handler_of, connection_at, is_closed_at};
ghost use Rattle.network.specs.Outboxes.{unsent_at};
ghost use Rattle.network.specs.Readiness.{has_bytes};
ghost use Rattle.serving_many.specs.Needed.{IsNeeded};
ghost use Rattle.serving_many.specs.Present.{client_of};
ghost use Rattle.serving_many.specs.Steps.{Step};

use crate::observers::Observer;
use connections::{Handler, Sessions};
use network::{Client, Fault, Network, Outbox};

/// Ends a connection at once: what it holds and what was still to be sent is dropped. One that isn't open is let be.
pub fn cut_off<H: Handler, N: Network, O: Observer>(
    sessions: &mut Sessions<H>,
    outbox: &mut Outbox,
    network: &mut N,
    observer: &mut O,
    id: u64,
    fault: Option<Fault>,
)
    ensures step { Step H.Handler N.Network id
        sessions.old outbox.old network.old sessions.new outbox.new network.new }
    ensures handler { handler_of sessions.new ≡ handler_of sessions.old }
    ensures way { N.gave_way network.new ≡ N.gave_way network.old }
    ensures gone { connection_at sessions.new id ≡ None }
    ensures none { unsent_at outbox.new id ≡ None }
    ensures client { N.client network.new id ≡ Client.Absent }
{
    let was_open = outbox.end(id);
    let _ = sessions.end(outbox.alloc(), id);
    network.close(id);
    if was_open {
        observer.ended(id, fault.as_ref());
    }
}

/// Goes on with a connection on which nothing is to be sent: at its end it is parted with, and else it will be told ready
/// once it can be read.
pub fn part_or_await<H: Handler, N: Network, O: Observer>(
    sessions: &mut Sessions<H>,
    outbox: &mut Outbox,
    network: &mut N,
    observer: &mut O,
    id: u64,
)
    requires { unsent_at outbox.old id ≡ Some [] }
    ensures step { Step H.Handler N.Network id
        sessions.old outbox.old network.old sessions.new outbox.new network.new }
    ensures handler { handler_of sessions.new ≡ handler_of sessions.old }
    ensures way { N.gave_way network.new ≡ N.gave_way network.old }
    ensures open { is_closed_at (connection_at sessions.old id) ≡ false
        → unsent_at outbox.new id ≡ Some [] }
    ensures own { (bytes : Text) → unsent_at outbox.new id ≡ Some bytes
        → N.due network.new (has_bytes bytes) id }
    ensures needed { IsNeeded (connection_at sessions.new id) (unsent_at outbox.new id) }
    ensures present { N.client network.old id ≡ client_of (unsent_at outbox.old id)
        → N.client network.new id ≡ client_of (unsent_at outbox.new id) }
{
    if sessions.is_closed(id) {
        cut_off(sessions, outbox, network, observer, id, None);
    } else {
        network.await_more(id);
    }
}
