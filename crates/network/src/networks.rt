//! What tells which of many connections are ready, and moves their bytes.

ghost use Rattle.std.specs.Prelude.{◌≡◌, ◌≢◌, ◌≤◌, ◌++◌, ◌∷◌, [], ℕ, Bool, true, false, Some, None, Ok, List, IfOk, IfSome, OnOk, length};
ghost use Rattle.network.specs.Traffic.{Moved, moved_of};
ghost use Rattle.network.specs.Readiness.{has_bytes, AllDue, OthersDue};
ghost use Rattle.network.specs.Clients.{failed, client_behind, AllAreSame, OthersAreSame};
ghost use Rattle.network.specs.Outboxes.{unsent_at};

use crate::clients::Client;
use crate::outbox::Outbox;

/// A call that failed and moved no bytes.
#[derive(Clone, Copy, Debug, Drop, PartialEq)]
pub struct Broken;

/// What happens next.
#[derive(Clone, Copy, Debug, Drop, PartialEq)]
pub enum Occasion {
    /// A client has come, under this number, which is greater than all before.
    Opens(u64),
    /// The connection may be read or written. It may also be one that can be neither, or that has ended.
    Ready(u64),
    /// The connection took too long.
    Late(u64),
    /// Nothing more is to be served.
    Over,
}

/// Many connections, told apart by numbers.
///
/// Contracts know what each read and each write moved, and on which connection; which connections are due: those that will
/// be told ready, of which one that is told ready is due no longer; which have a client; and which gave way.
pub trait Network {
    ghost use Rattle.network.specs.declared.clients.Client.{Client};

    /// What the reads up to now gave, in order.
    ghost reads: { Self → List Moved };

    /// What the writes up to now took, in order.
    ghost writes: { Self → List Moved };

    /// The connection will be told ready, once it can be read, or (`true`) once it can be written.
    ghost due: { Self → Bool → ℕ → Type 0 };

    /// Whether the connection has a client.
    ghost client: { Self → ℕ → Client };

    /// Which connections gave way up to now, in order.
    ghost gave_way: { Self → List ℕ };

    /// What happened next; none where no more is known.
    fn next(&mut self) -> Option<Occasion>
        ensures reads { reads self.new ≡ reads self.old }
        ensures writes { writes self.new ≡ writes self.old }
        ensures gave_way { gave_way self.new ≡ gave_way self.old }
        ensures due { (k : ℕ) (d : Bool) → result ≢ Some (Occasion.Ready k)
            → due self.old d k → due self.new d k }
        ensures opened { (k : ℕ) (d : Bool) → result ≡ Some (Occasion.Opens k)
            → due self.new d k }
        ensures comes { (k : ℕ) → result ≡ Some (Occasion.Opens k)
            → client self.new k ≡ Client.Present }
        ensures late { (k : ℕ) → result ≡ Some (Occasion.Late k)
            → client self.new k ≡ failed (client self.old k) }
        ensures clients { (k : ℕ) → result ≢ Some (Occasion.Opens k)
            → result ≢ Some (Occasion.Late k) → client self.new k ≡ client self.old k };

    /// Waits until something happens. Each open connection is due: once it can be written where it has bytes to be sent,
    /// else once it can be read. Where it fails, nobody is due any more.
    fn wait(&mut self, outbox: &Outbox) -> Result<(), Broken>
        requires { AllDue (unsent_at outbox.now) (due self.old) [] }
        ensures reads { reads self.new ≡ reads self.old }
        ensures writes { writes self.new ≡ writes self.old }
        ensures gave_way { gave_way self.new ≡ gave_way self.old }
        ensures due { OnOk result ((k : ℕ) (d : Bool) → due self.old d k → due self.new d k) }
        ensures clients { AllAreSame (client self.old) (client self.new) };

    /// Reads some bytes of a connection into the front of a buffer, and answers how many: none (`Some(0)`) at the end of
    /// its stream, and `None` where it would have to wait; then it is due.
    fn read(&mut self, id: u64, buffer: &mut [u8]) -> Result<Option<usize>, Broken>
        ensures fits { IfOk result (λ n. IfSome n (λ count. count ≤ length buffer.new)) }
        ensures told { reads self.new ≡ reads self.old ++ moved_of id result buffer.new }
        ensures writes { writes self.new ≡ writes self.old }
        ensures gave_way { gave_way self.new ≡ gave_way self.old }
        ensures waits { result ≡ Ok None → due self.new false id }
        ensures others { OthersDue id (due self.old) (due self.new) }
        ensures client { client self.new id ≡ client_behind result (client self.old id) }
        ensures clients { OthersAreSame id (client self.old) (client self.new) };

    /// Takes some of the first of the bytes, which are not none, and answers how many; `None` where it would have to wait;
    /// then the connection is due.
    fn write(&mut self, id: u64, bytes: &[u8]) -> Result<Option<usize>, Broken>
        requires { has_bytes bytes.now ≡ true }
        ensures fits { IfOk result (λ n. IfSome n (λ count. count ≤ length bytes.now)) }
        ensures told { writes self.new ≡ writes self.old ++ moved_of id result bytes.now }
        ensures reads { reads self.new ≡ reads self.old }
        ensures gave_way { gave_way self.new ≡ gave_way self.old }
        ensures waits { result ≡ Ok None → due self.new true id }
        ensures others { OthersDue id (due self.old) (due self.new) }
        ensures client { client self.new id ≡ client_behind result (client self.old id) }
        ensures clients { OthersAreSame id (client self.old) (client self.new) };

    /// Has the connection be told ready, after those that are ready.
    fn again(&mut self, id: u64)
        ensures reads { reads self.new ≡ reads self.old }
        ensures writes { writes self.new ≡ writes self.old }
        ensures gave_way { gave_way self.new ≡ gave_way self.old }
        ensures due { (d : Bool) → due self.new d id }
        ensures others { OthersDue id (due self.old) (due self.new) }
        ensures clients { AllAreSame (client self.old) (client self.new) };

    /// Has the connection be told ready once it can be read.
    fn await_more(&mut self, id: u64)
        ensures reads { reads self.new ≡ reads self.old }
        ensures writes { writes self.new ≡ writes self.old }
        ensures gave_way { gave_way self.new ≡ gave_way self.old }
        ensures due { due self.new false id }
        ensures others { OthersDue id (due self.old) (due self.new) }
        ensures clients { AllAreSame (client self.old) (client self.new) };

    /// Has the connection be told ready once some time has passed, a second at most.
    fn later(&mut self, id: u64)
        ensures reads { reads self.new ≡ reads self.old }
        ensures writes { writes self.new ≡ writes self.old }
        ensures gave_way { gave_way self.new ≡ gave_way self.old }
        ensures due { (d : Bool) → due self.new d id }
        ensures others { OthersDue id (due self.old) (due self.new) }
        ensures clients { AllAreSame (client self.old) (client self.new) };

    /// Has the connection give way: its request has made the end of the round long, so that its next ones may be told behind
    /// others.
    fn give_way(&mut self, id: u64)
        ensures reads { reads self.new ≡ reads self.old }
        ensures writes { writes self.new ≡ writes self.old }
        ensures gave_way { gave_way self.new ≡ gave_way self.old ++ id ∷ [] }
        ensures due { (k : ℕ) (d : Bool) → due self.old d k → due self.new d k }
        ensures clients { AllAreSame (client self.old) (client self.new) };

    /// Ends a connection: its client is let go. One that isn't open is let be.
    fn close(&mut self, id: u64)
        ensures reads { reads self.new ≡ reads self.old }
        ensures writes { writes self.new ≡ writes self.old }
        ensures gave_way { gave_way self.new ≡ gave_way self.old }
        ensures others { OthersDue id (due self.old) (due self.new) }
        ensures client { client self.new id ≡ Client.Absent }
        ensures clients { OthersAreSame id (client self.old) (client self.new) };
}
