//! Writing what is to be sent.

ghost use Rattle.std.specs.Prelude.{◌≡◌, ◌≢◌, [], true, Some, None, OnOk, OnErr};
ghost use Rattle.definitions.specs.Values.{Text};
ghost use Rattle.connections.specs.Connected.{handler_of, connection_at};
ghost use Rattle.connections.specs.Found.{FindsOnly};
ghost use Rattle.network.specs.Outboxes.{unsent_at};
ghost use Rattle.network.specs.Readiness.{has_bytes, AllDue};
ghost use Rattle.serving_many.specs.Going.{Keeps, state_of};
ghost use Rattle.serving_many.specs.Needed.{IsNeeded, AllNeeded};
ghost use Rattle.serving_many.specs.Present.{client_of, AllPresent};
ghost use Rattle.serving_many.specs.Steps.{Step};

use crate::ending::{cut_off, part_or_await};
use crate::observers::Observer;
use connections::{Handler, Outage, Sessions};
use network::{Fault, Network, Outbox};

// Has a connection be told ready again: once it can be written where bytes are to be sent, and else once it can be read.
// Where all is sent and it is at its end, it is parted with.
fn await_turn<H: Handler, N: Network, O: Observer>(
    sessions: &mut Sessions<H>,
    outbox: &mut Outbox,
    network: &mut N,
    observer: &mut O,
    id: u64,
)
    requires { unsent_at outbox.old id ≢ None }
    ensures step { Step H.Handler N.Network id
        sessions.old outbox.old network.old sessions.new outbox.new network.new }
    ensures handler { handler_of sessions.new ≡ handler_of sessions.old }
    ensures way { N.gave_way network.new ≡ N.gave_way network.old }
    ensures rest { (bytes : Text) → has_bytes bytes ≡ true
        → unsent_at outbox.old id ≡ Some bytes → unsent_at outbox.new id ≡ Some bytes }
    ensures own { (bytes : Text) → unsent_at outbox.new id ≡ Some bytes
        → N.due network.new (has_bytes bytes) id }
    ensures needed { IsNeeded (connection_at sessions.new id) (unsent_at outbox.new id) }
    ensures present { N.client network.old id ≡ client_of (unsent_at outbox.old id)
        → N.client network.new id ≡ client_of (unsent_at outbox.new id) }
{
    match outbox.unsent(id) {
        Some([]) => part_or_await(sessions, outbox, network, observer, id),
        _ => network.again(id),
    }
}

// Writes some of what is to be sent on a connection, which is durable. One whose write fails is ended.
fn send<H: Handler, N: Network, O: Observer>(
    sessions: &mut Sessions<H>,
    outbox: &mut Outbox,
    network: &mut N,
    observer: &mut O,
    id: u64,
)
    requires { FindsOnly H.finds (handler_of sessions.old) (H.state (handler_of sessions.old)) }
    ensures step { Step H.Handler N.Network id
        sessions.old outbox.old network.old sessions.new outbox.new network.new }
    ensures handler { handler_of sessions.new ≡ handler_of sessions.old }
    ensures way { N.gave_way network.new ≡ N.gave_way network.old }
    ensures own { (bytes : Text) → unsent_at outbox.new id ≡ Some bytes
        → N.due network.new (has_bytes bytes) id }
    ensures needed { IsNeeded (connection_at sessions.old id) (unsent_at outbox.old id)
        → IsNeeded (connection_at sessions.new id) (unsent_at outbox.new id) }
    ensures present { N.client network.old id ≡ client_of (unsent_at outbox.old id)
        → N.client network.new id ≡ client_of (unsent_at outbox.new id) }
{
    let Some(bytes) = outbox.unsent(id) else {
        return;
    };
    if bytes.is_empty() {
        part_or_await(sessions, outbox, network, observer, id);
        return;
    }
    let failed = Some(Fault::WriteFailed);
    match network.write(id, bytes) {
        Ok(None) => {}
        Ok(Some(0)) => {
            cut_off(sessions, outbox, network, observer, id, failed);
        }
        Err(_) => {
            cut_off(sessions, outbox, network, observer, id, failed);
        }
        Ok(Some(count)) => {
            outbox.advance(id, count);
            await_turn(sessions, outbox, network, observer, id);
        }
    }
}

// Writes some of what is to be sent on each of these connections, which is durable.
fn send_all<H: Handler, N: Network, O: Observer>(
    sessions: &mut Sessions<H>,
    outbox: &mut Outbox,
    network: &mut N,
    observer: &mut O,
    ids: &[u64],
)
    requires { FindsOnly H.finds (handler_of sessions.old) (H.state (handler_of sessions.old)) }
    ensures kept { Keeps H.state H.finds H.answers
        (state_of sessions.old outbox.old (N.reads network.old) (N.writes network.old))
        (state_of sessions.new outbox.new (N.reads network.new) (N.writes network.new)) }
    ensures handler { handler_of sessions.new ≡ handler_of sessions.old }
    ensures way { N.gave_way network.new ≡ N.gave_way network.old }
    ensures due { AllDue (unsent_at outbox.old) (N.due network.old) ids.now
        → AllDue (unsent_at outbox.new) (N.due network.new) [] }
    ensures needed { AllNeeded (connection_at sessions.old) (unsent_at outbox.old)
        → AllNeeded (connection_at sessions.new) (unsent_at outbox.new) }
    ensures present { AllPresent (N.client network.old) (unsent_at outbox.old)
        → AllPresent (N.client network.new) (unsent_at outbox.new) }
{
    for id in ids {
        send(sessions, outbox, network, observer, *id);
    }
}

/// Ends a round: makes durable what was answered in it, and then writes some of what is to be sent on the connections that
/// wait. Where it can't be made durable, nothing is written.
pub fn end_round<H: Handler, N: Network, O: Observer>(
    sessions: &mut Sessions<H>,
    outbox: &mut Outbox,
    network: &mut N,
    observer: &mut O,
    waiting: &mut Vec<u64>,
) -> Result<(), Outage>
    ensures kept { Keeps H.state H.finds H.answers
        (state_of sessions.old outbox.old (N.reads network.old) (N.writes network.old))
        (state_of sessions.new outbox.new (N.reads network.new) (N.writes network.new)) }
    ensures due { OnOk result
        (AllDue (unsent_at outbox.old) (N.due network.old) waiting.old.items
        → AllDue (unsent_at outbox.new) (N.due network.new) []) }
    ensures sent { OnOk result (waiting.new.items ≡ []) }
    ensures untold { OnErr result (N.writes network.new ≡ N.writes network.old) }
    ensures way { N.gave_way network.new ≡ N.gave_way network.old }
    ensures durable { OnOk result
        (FindsOnly H.finds (handler_of sessions.new) (H.state (handler_of sessions.new))) }
    ensures keeps { OnErr result H.keeps }
    ensures needed { AllNeeded (connection_at sessions.old) (unsent_at outbox.old)
        → AllNeeded (connection_at sessions.new) (unsent_at outbox.new) }
    ensures present { AllPresent (N.client network.old) (unsent_at outbox.old)
        → AllPresent (N.client network.new) (unsent_at outbox.new) }
{
    match sessions.settle() {
        Err(unsettled) => Err(Outage::Unsettled(unsettled)),
        Ok(()) => {
            send_all(sessions, outbox, network, observer, waiting);
            waiting.clear();
            Ok(())
        }
    }
}
