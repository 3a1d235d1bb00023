//! Meeting what happens.

ghost use Rattle.std.specs.Prelude.{◌≡◌, ◌≢◌, ◌⊎◌, ℕ, Bool, Some, None, [], false};
ghost use Rattle.definitions.specs.Values.{Text};
ghost use Rattle.connections.specs.Connected.{connection_at, is_closed_at};
ghost use Rattle.network.specs.Outboxes.{unsent_at};
ghost use Rattle.network.specs.Readiness.{has_bytes, IsAmong, AllDue};
ghost use Rattle.serving_many.specs.Rounds.{IsDueBut, MayGiveWayAt};
ghost use Rattle.serving_many.specs.Going.{Keeps, state_of};
ghost use Rattle.serving_many.specs.Needed.{IsNeeded, AllNeeded};
ghost use Rattle.serving_many.specs.Present.{client_of, AllPresent, ArePresentAt};
ghost use Rattle.serving_many.specs.Steps.{Step, MayGiveWay};

use crate::answering::receive;
use crate::ending::cut_off;
use crate::observers::Observer;
use connections::{Handler, Sessions};
use network::{Client, Fault, Network, Occasion, Outbox};
use std::alloc::Global;

/// How many bytes a read is given room for.
const MOST_PIECE: usize = 4096;

/// What a round has at hand.
#[derive(Drop)]
pub struct Round {
    /// The connections that have something to be sent at the end of the round. One may stand there more than once.
    pub waiting: Vec<u64>,
    /// Where pieces are read to.
    pub buffer: [u8; MOST_PIECE],
}

impl Round {
    /// None waits. This takes no memory.
    pub fn new(alloc: Global) -> Round
        ensures { result.waiting.items ≡ [] }
    {
        Round {
            waiting: Vec::new(alloc),
            buffer: [0; MOST_PIECE],
        }
    }
}

// Opens a connection. Where that fails, its client is let go.
fn open<H: Handler, N: Network, O: Observer>(
    sessions: &mut Sessions<H>,
    outbox: &mut Outbox,
    network: &mut N,
    observer: &mut O,
    id: u64,
)
    ensures step { Step H.Handler N.Network id
        sessions.old outbox.old network.old sessions.new outbox.new network.new }
    ensures way { N.gave_way network.new ≡ N.gave_way network.old }
    ensures own { ((d : Bool) → N.due network.old d id) → (bytes : Text)
        → unsent_at outbox.new id ≡ Some bytes → N.due network.new (has_bytes bytes) id }
    ensures needed { IsNeeded (connection_at sessions.new id) (unsent_at outbox.new id) }
    ensures present { N.client network.old id ≡ Client.Present
        → N.client network.new id ≡ client_of (unsent_at outbox.new id) }
{
    match outbox.open(id) {
        Err(fault) => cut_off(sessions, outbox, network, observer, id, Some(fault)),
        Ok(()) => {
            observer.opened(id);
            match sessions.open(id) {
                Err(fault) => cut_off(sessions, outbox, network, observer, id, Some(fault)),
                Ok(()) => {}
            }
        }
    }
}

// The fault of a connection that took too long.
fn lateness(outbox: &Outbox, id: u64) -> Fault {
    match outbox.unsent(id) {
        None | Some([]) => Fault::ReadFailed,
        Some(_) => Fault::WriteFailed,
    }
}

// Goes on with a connection that has nothing to be sent and isn't closed: it is read, or read later where memory is short.
// Whether something is to be sent then.
fn go_on<H: Handler, N: Network, O: Observer>(
    sessions: &mut Sessions<H>,
    outbox: &mut Outbox,
    network: &mut N,
    observer: &mut O,
    id: u64,
    buffer: &mut [u8],
) -> bool
    requires silent { unsent_at outbox.old id ≡ Some [] }
    requires open { is_closed_at (connection_at sessions.old id) ≡ false }
    ensures step { Step H.Handler N.Network id
        sessions.old outbox.old network.old sessions.new outbox.new network.new }
    ensures way { MayGiveWay id (N.gave_way network.old) (N.gave_way network.new) }
    ensures own { result ≡ false → (bytes : Text) → unsent_at outbox.new id ≡ Some bytes
        → N.due network.new (has_bytes bytes) id }
    ensures needed { IsNeeded (connection_at sessions.new id) (unsent_at outbox.new id) }
    ensures present { N.client network.old id ≡ client_of (unsent_at outbox.old id)
        → N.client network.new id ≡ client_of (unsent_at outbox.new id) }
{
    if !outbox.may_grow(id) {
        network.later(id);
        return false;
    }
    receive(sessions, outbox, network, observer, id, buffer)
}

// Takes a turn of a connection that is told ready. Whether something is to be sent then.
fn take_turn<H: Handler, N: Network, O: Observer>(
    sessions: &mut Sessions<H>,
    outbox: &mut Outbox,
    network: &mut N,
    observer: &mut O,
    id: u64,
    buffer: &mut [u8],
) -> bool
    requires { IsNeeded (connection_at sessions.old id) (unsent_at outbox.old id) }
    ensures step { Step H.Handler N.Network id
        sessions.old outbox.old network.old sessions.new outbox.new network.new }
    ensures way { MayGiveWay id (N.gave_way network.old) (N.gave_way network.new) }
    ensures own { result ≡ false → (bytes : Text) → unsent_at outbox.new id ≡ Some bytes
        → N.due network.new (has_bytes bytes) id }
    ensures needed { IsNeeded (connection_at sessions.new id) (unsent_at outbox.new id) }
    ensures present { N.client network.old id ≡ client_of (unsent_at outbox.old id)
        → N.client network.new id ≡ client_of (unsent_at outbox.new id) }
{
    match outbox.unsent(id) {
        None => false,
        Some([]) => go_on(sessions, outbox, network, observer, id, buffer),
        Some(_) => true,
    }
}

// Notes that a connection has something to be sent. Where memory lacks for that, it is ended.
fn wait_for<H: Handler, N: Network, O: Observer>(
    sessions: &mut Sessions<H>,
    outbox: &mut Outbox,
    network: &mut N,
    observer: &mut O,
    waiting: &mut Vec<u64>,
    id: u64,
)
    ensures step { Step H.Handler N.Network id
        sessions.old outbox.old network.old sessions.new outbox.new network.new }
    ensures way { N.gave_way network.new ≡ N.gave_way network.old }
    ensures noted { IsAmong id waiting.new.items ⊎ (unsent_at outbox.new id ≡ None) }
    ensures waiting { (k : ℕ) → IsAmong k waiting.old.items → IsAmong k waiting.new.items }
    ensures needed { IsNeeded (connection_at sessions.old id) (unsent_at outbox.old id)
        → IsNeeded (connection_at sessions.new id) (unsent_at outbox.new id) }
    ensures present { N.client network.old id ≡ client_of (unsent_at outbox.old id)
        → N.client network.new id ≡ client_of (unsent_at outbox.new id) }
{
    match waiting.push(id) {
        Ok(()) => {}
        Err(_) => {
            let fault = Some(Fault::NoRoom);
            cut_off(sessions, outbox, network, observer, id, fault);
        }
    }
}

/// Meets what happens. What is to be sent then is sent at the end of the round.
pub fn meet<H: Handler, N: Network, O: Observer>(
    sessions: &mut Sessions<H>,
    outbox: &mut Outbox,
    network: &mut N,
    observer: &mut O,
    round: &mut Round,
    occasion: Occasion,
)
    requires opens { (k : ℕ) (d : Bool) → occasion ≡ Occasion.Opens k → N.due network.old d k }
    requires comes { (k : ℕ) → occasion ≡ Occasion.Opens k
        → N.client network.old k ≡ Client.Present }
    requires needed { AllNeeded (connection_at sessions.old) (unsent_at outbox.old) }
    ensures kept { Keeps H.state H.finds H.answers
        (state_of sessions.old outbox.old (N.reads network.old) (N.writes network.old))
        (state_of sessions.new outbox.new (N.reads network.new) (N.writes network.new)) }
    ensures due { IsDueBut occasion
        (unsent_at outbox.old) (N.due network.old) round.old.waiting.items
        → AllDue (unsent_at outbox.new) (N.due network.new) round.new.waiting.items }
    ensures needed { AllNeeded (connection_at sessions.new) (unsent_at outbox.new) }
    ensures present { ArePresentAt occasion (N.client network.old) (unsent_at outbox.old)
        → AllPresent (N.client network.new) (unsent_at outbox.new) }
    ensures way { MayGiveWayAt occasion (N.gave_way network.old) (N.gave_way network.new) }
{
    match occasion {
        Occasion::Over => {}
        Occasion::Opens(id) => open(sessions, outbox, network, observer, id),
        Occasion::Late(id) => {
            let fault = lateness(outbox, id);
            cut_off(sessions, outbox, network, observer, id, Some(fault));
        }
        Occasion::Ready(id) => {
            if take_turn(sessions, outbox, network, observer, id, &mut round.buffer) {
                wait_for(sessions, outbox, network, observer, &mut round.waiting, id);
            }
        }
    }
}
