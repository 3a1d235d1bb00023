//! Reading a piece of a connection's stream and answering it.

ghost use Rattle.std.specs.Prelude.{◌≡◌, ◌≢◌, ◌≤◌, ◌+◌, ◌++◌, ◌∷◌, [], Some, None, false, List};
ghost use Rattle.definitions.specs.Values.{Text};
ghost use Rattle.connections.specs.Connected.{connection_at, is_closed_at};
ghost use Rattle.network.specs.Traffic.{Moved};
ghost use Rattle.network.specs.Outboxes.{unsent_at, memory_of, size_at, most_of};
ghost use Rattle.network.specs.Readiness.{has_bytes};
ghost use Rattle.serving_many.specs.Needed.{IsNeeded};
ghost use Rattle.serving_many.specs.Present.{client_of};
ghost use Rattle.serving_many.specs.Steps.{Step, StepFrom, MayGiveWay};

use crate::ending::{cut_off, part_or_await};
use crate::observers::Observer;
use connections::{Handler, Sessions};
use network::{Fault, Network, Outbox};

// Goes on with a connection that was answered. Whether something is to be sent; where nothing is, it is parted with at its
// end, and else it will be told ready once it can be read.
fn has_reply<H: Handler, N: Network, O: Observer>(
    sessions: &mut Sessions<H>,
    outbox: &mut Outbox,
    network: &mut N,
    observer: &mut O,
    id: u64,
) -> bool
    requires { unsent_at outbox.old id ≢ None }
    ensures step { Step H.Handler N.Network id
        sessions.old outbox.old network.old sessions.new outbox.new network.new }
    ensures way { N.gave_way network.new ≡ N.gave_way network.old }
    ensures own { result ≡ false → (bytes : Text) → unsent_at outbox.new id ≡ Some bytes
        → N.due network.new (has_bytes bytes) id }
    ensures needed { IsNeeded (connection_at sessions.new id) (unsent_at outbox.new id) }
    ensures present { N.client network.old id ≡ client_of (unsent_at outbox.old id)
        → N.client network.new id ≡ client_of (unsent_at outbox.new id) }
{
    match outbox.unsent(id) {
        None => false,
        Some([]) => {
            part_or_await(sessions, outbox, network, observer, id);
            false
        }
        Some(_) => true,
    }
}

// Answers a piece that was read last. Whether something is to be sent.
fn answer_piece<H: Handler, N: Network, O: Observer>(
    sessions: &mut Sessions<H>,
    outbox: &mut Outbox,
    network: &mut N,
    observer: &mut O,
    id: u64,
    piece: &[u8],
) -> bool
    requires silent { unsent_at outbox.old id ≡ Some [] }
    requires open { is_closed_at (connection_at sessions.old id) ≡ false }
    ensures step { (before : List Moved)
        → N.reads network.old ≡ before ++ ((id, piece.now) ∷ [])
        → StepFrom H.Handler N.Network id before
        sessions.old outbox.old network.old sessions.new outbox.new network.new }
    ensures way { N.gave_way network.new ≡ N.gave_way network.old }
    ensures own { result ≡ false → (bytes : Text) → unsent_at outbox.new id ≡ Some bytes
        → N.due network.new (has_bytes bytes) id }
    ensures needed { IsNeeded (connection_at sessions.new id) (unsent_at outbox.new id) }
    ensures present { N.client network.old id ≡ client_of (unsent_at outbox.old id)
        → N.client network.new id ≡ client_of (unsent_at outbox.new id) }
{
    let mut out = outbox.lend(id);
    match sessions.feed_into(outbox.alloc(), id, piece, &mut out) {
        Ok(()) => {
            outbox.fill(id, out.into_bytes(), sessions.held_len(id));
            has_reply(sessions, outbox, network, observer, id)
        }
        Err(fault) => {
            cut_off(sessions, outbox, network, observer, id, Some(fault));
            false
        }
    }
}

// Ends the stream of a connection. Whether something is to be sent at last.
fn answer_end<H: Handler, N: Network, O: Observer>(
    sessions: &mut Sessions<H>,
    outbox: &mut Outbox,
    network: &mut N,
    observer: &mut O,
    id: u64,
) -> bool
    requires silent { unsent_at outbox.old id ≡ Some [] }
    ensures step { Step H.Handler N.Network id
        sessions.old outbox.old network.old sessions.new outbox.new network.new }
    ensures way { N.gave_way network.new ≡ N.gave_way network.old }
    ensures own { result ≡ false → (bytes : Text) → unsent_at outbox.new id ≡ Some bytes
        → N.due network.new (has_bytes bytes) id }
    ensures needed { IsNeeded (connection_at sessions.new id) (unsent_at outbox.new id) }
    ensures present { N.client network.old id ≡ client_of (unsent_at outbox.old id)
        → N.client network.new id ≡ client_of (unsent_at outbox.new id) }
{
    match sessions.end(outbox.alloc(), id) {
        Ok(words) => {
            outbox.fill(id, words, 0);
            has_reply(sessions, outbox, network, observer, id)
        }
        Err(fault) => {
            cut_off(sessions, outbox, network, observer, id, Some(fault));
            false
        }
    }
}

/// Reads a piece of a connection that has nothing to be sent, and answers it. Where that granted changes, it gives way.
/// Whether something is to be sent.
pub fn receive<H: Handler, N: Network, O: Observer>(
    sessions: &mut Sessions<H>,
    outbox: &mut Outbox,
    network: &mut N,
    observer: &mut O,
    id: u64,
    buffer: &mut [u8],
) -> bool
    requires silent { unsent_at outbox.old id ≡ Some [] }
    requires open { is_closed_at (connection_at sessions.old id) ≡ false }
    requires room { memory_of outbox.old ≤ size_at outbox.old id + most_of outbox.old }
    ensures step { Step H.Handler N.Network id
        sessions.old outbox.old network.old sessions.new outbox.new network.new }
    ensures way { MayGiveWay id (N.gave_way network.old) (N.gave_way network.new) }
    ensures own { result ≡ false → (bytes : Text) → unsent_at outbox.new id ≡ Some bytes
        → N.due network.new (has_bytes bytes) id }
    ensures needed { IsNeeded (connection_at sessions.new id) (unsent_at outbox.new id) }
    ensures present { N.client network.old id ≡ client_of (unsent_at outbox.old id)
        → N.client network.new id ≡ client_of (unsent_at outbox.new id) }
{
    match network.read(id, buffer) {
        Ok(None) => false,
        Ok(Some(0)) => answer_end(sessions, outbox, network, observer, id),
        Ok(Some(count)) => {
            let changes = sessions.changes();
            let replies = answer_piece(sessions, outbox, network, observer, id, &buffer[..count]);
            if sessions.changes() != changes {
                network.give_way(id);
            }
            replies
        }
        Err(_) => {
            let fault = Some(Fault::ReadFailed);
            cut_off(sessions, outbox, network, observer, id, fault);
            false
        }
    }
}
