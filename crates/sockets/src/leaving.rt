//! Connections that are over.

ghost use Rattle.std.specs.Prelude.{◌≡◌, false};
ghost use Rattle.sockets.specs.Socket.{is_open, is_queued};
ghost use Rattle.sockets.specs.Table.{socket_at, client_at, StaysDue, KeepsClients, OthersStay};

use crate::sockets::Sockets;
use crate::tuning::MOST_READS;
use network::Client;
use std::io::{ErrorKind, Read};
use std::net::Shutdown;
use std::time::Clock;

/// What comes from a client whose connection is over.
#[derive(Clone, Copy)]
enum Remainder {
    /// Some bytes.
    Comes,
    /// Nothing yet.
    Waits,
    /// Nothing more.
    Ends,
}

impl<C: Clock> Sockets<'_, C> {
    ghost use Rattle.sockets.specs.Sockets.{MovesNothing};

    /// Parts with a client: what is sent ends, and what still comes is let go for a short while. One that isn't open is let
    /// be.
    #[tactic(auto, using(crate::proofs::Taken::absent_where_closed))]
    pub(crate) fn part(&mut self, id: u64)
        ensures moves { MovesNothing self.old self.new }
        ensures due { StaysDue self.old.table self.new.table }
        ensures others { OthersStay id self.old.table self.new.table }
        ensures client { client_at self.new.table id ≡ Client.Absent }
        ensures count { self.new.table.count ≡ self.old.table.count }
    {
        if !self.table.is_open(id) {
            return;
        }
        let until = self.now.checked_add(self.limits.parting);
        let reads_left = self.reads_left(id);
        self.table.part(id, until, reads_left);
    }

    /// Ends what is sent, and answers how many reads a client that is still sending has.
    fn reads_left(&self, id: u64) -> u32 {
        match self.table.stream(id) {
            Some(stream) if stream.shutdown(Shutdown::Write).is_ok() => MOST_READS,
            _ => 0,
        }
    }

    /// Closes the socket of a connection that is over. A client may be accepted in its place.
    #[tactic(auto, using(crate::proofs::Taken::absent_where_closed))]
    pub(crate) fn release(&mut self, id: u64)
        requires over { is_open (socket_at self.old.table id) ≡ false }
        requires unqueued { is_queued (socket_at self.old.table id) ≡ false }
        ensures moves { MovesNothing self.old self.new }
        ensures due { StaysDue self.old.table self.new.table }
        ensures others { OthersStay id self.old.table self.new.table }
        ensures clients { KeepsClients self.old.table self.new.table }
        ensures count { self.new.table.count ≡ self.old.table.count }
    {
        self.table.remove(id);
        if self.is_short {
            self.is_short = false;
            self.may_accept = true;
        }
    }

    /// Reads some of what still comes from a client whose connection is over.
    fn remainder(&self, id: u64) -> Remainder {
        let Some(stream) = self.table.stream(id) else {
            return Remainder::Ends;
        };
        let mut stream = stream;
        let mut room = [0; 4096];
        match stream.read(&mut room) {
            Ok(0) => Remainder::Ends,
            Ok(_) => Remainder::Comes,
            Err(error) if error.kind() == ErrorKind::WouldBlock => Remainder::Waits,
            Err(_) => Remainder::Ends,
        }
    }

    /// Lets go some of what still comes on a connection that is over, and ends it once nothing comes.
    #[tactic(auto, using(crate::proofs::Taken::closed_alike))]
    pub(crate) fn drain(&mut self, id: u64)
        requires over { is_open (socket_at self.old.table id) ≡ false }
        requires unqueued { is_queued (socket_at self.old.table id) ≡ false }
        ensures moves { MovesNothing self.old self.new }
        ensures due { StaysDue self.old.table self.new.table }
        ensures others { OthersStay id self.old.table self.new.table }
        ensures clients { KeepsClients self.old.table self.new.table }
        ensures count { self.new.table.count ≡ self.old.table.count }
    {
        let Some(status) = self.table.status(id) else {
            return;
        };
        if status.reads_left == 0 {
            self.release(id);
            return;
        }
        match self.remainder(id) {
            Remainder::Ends => self.release(id),
            Remainder::Waits => {}
            Remainder::Comes => self.table.part(id, status.whole, status.reads_left - 1),
        }
    }
}
