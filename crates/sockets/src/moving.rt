//! Bytes that are read and written on many connections.

ghost use Rattle.std.specs.Prelude.{◌≡◌, ◌≢◌, ◌≤◌, ◌++◌, ◌∷◌, [], true, false, None, Ok, IfOk, IfSome, length, option_map};
ghost use Rattle.std.specs.Io.{ReadsAtMost, WritesAtMost};
ghost use Rattle.network.specs.Readiness.{OthersDue};
ghost use Rattle.network.specs.Traffic.{moved_of};
ghost use Rattle.network.specs.Transcripts.{moves_of, ids_of};
ghost use Rattle.sockets.specs.Socket.{is_queued, as_giving_way};
ghost use Rattle.network.specs.Clients.{failed, client_behind, AllAreSame, OthersAreSame};
ghost use Rattle.sockets.specs.Table.{socket_at, client_at, OthersStay, IsDue, StaysDue, KeepsClients};

use crate::sockets::Sockets;
use crate::supply::Supply;
use network::{Broken, Network, Occasion, Outbox};
use std::io::{self, ErrorKind, Read, Write};
use std::time::Clock;

impl<C: Clock> Sockets<'_, C> {
    /// Reads of an open connection.
    fn read_some(&self, id: u64, buffer: &mut [u8]) -> io::Result<usize>
        ensures { ReadsAtMost result buffer.new }
    {
        match self.table.open_stream(id) {
            Some(stream) => {
                let mut stream = stream;
                stream.read(buffer)
            }
            None => Err(io::Error::from(ErrorKind::NotConnected)),
        }
    }

    /// A read would wait. Once no more clients are accepted, that is the end of what the client says.
    fn wait_to_read(&mut self, id: u64) -> Option<usize>
        ensures none { result ≡ None → self.new.reads ≡ self.old.reads }
        ensures some { IfSome result (λ n. (n ≡ 0)
            × (moves_of self.new.reads ≡ moves_of self.old.reads ++ (id, []) ∷ [])) }
        ensures writes { self.new.writes ≡ self.old.writes }
        ensures ways { self.new.ways ≡ self.old.ways }
        ensures waits { result ≡ None → IsDue self.new.table false id }
        ensures due { StaysDue self.old.table self.new.table }
        ensures clients { KeepsClients self.old.table self.new.table }
        ensures count { self.new.table.count ≡ self.old.table.count }
    {
        if self.ends() {
            self.reads = self.reads.moved(id, &[]);
            return Some(0);
        }
        self.table.wait_to_read(id);
        None
    }

    /// Writes to an open connection.
    fn write_some(&self, id: u64, bytes: &[u8]) -> io::Result<usize>
        ensures { WritesAtMost result bytes.now }
    {
        match self.table.open_stream(id) {
            Some(stream) => {
                let mut stream = stream;
                stream.write(bytes)
            }
            None => Err(io::Error::from(ErrorKind::NotConnected)),
        }
    }
}

impl<C> Sockets<'_, C> {
    ghost use Rattle.sockets.specs.Sockets.{MovesNothing};

    /// A read or a write failed.
    fn fail(&mut self, id: u64) -> Broken
        ensures client { client_at self.new.table id ≡ failed (client_at self.old.table id) }
        ensures moves { MovesNothing self.old self.new }
        ensures due { StaysDue self.old.table self.new.table }
        ensures others { OthersStay id self.old.table self.new.table }
    {
        self.table.fail(id);
        Broken
    }
}

impl<C: Clock> Network for Sockets<'_, C> {
    ghost reads = { λ s. moves_of s.reads };

    ghost writes = { λ s. moves_of s.writes };

    ghost due = { λ s d k. IsDue s.table d k };

    ghost client = { λ s k. client_at s.table k };

    ghost gave_way = { λ s. ids_of s.ways };

    fn next(&mut self) -> Option<Occasion> {
        self.happens()
    }

    fn wait(&mut self, _outbox: &Outbox) -> Result<(), Broken> {
        match self.ask() {
            Ok(()) => Ok(()),
            Err(_) => Err(Broken),
        }
    }

    fn read(&mut self, id: u64, buffer: &mut [u8]) -> Result<Option<usize>, Broken> {
        match self.read_some(id, buffer) {
            Ok(count) => {
                let until = self.idle_until();
                self.table.was_read(id, until, count < buffer.len());
                self.reads = self.reads.moved(id, &buffer[..count]);
                Ok(Some(count))
            }
            Err(error) if error.kind() == ErrorKind::WouldBlock => Ok(self.wait_to_read(id)),
            Err(_) => Err(self.fail(id)),
        }
    }

    fn write(&mut self, id: u64, bytes: &[u8]) -> Result<Option<usize>, Broken>
        ensures fits { IfOk result (λ n. IfSome n (λ count. count ≤ length bytes.now)) }
        ensures told { moves_of self.new.writes
            ≡ moves_of self.old.writes ++ moved_of id result bytes.now }
        ensures reads { moves_of self.new.reads ≡ moves_of self.old.reads }
        ensures gave_way { ids_of self.new.ways ≡ ids_of self.old.ways }
        ensures waits { result ≡ Ok None → IsDue self.new.table true id }
        ensures others { OthersDue id
            (λ d k. IsDue self.old.table d k) (λ d k. IsDue self.new.table d k) }
        ensures client { client_at self.new.table id
            ≡ client_behind result (client_at self.old.table id) }
        ensures clients { OthersAreSame id
            (λ k. client_at self.old.table k) (λ k. client_at self.new.table k) }
        ensures stay { OthersStay id self.old.table self.new.table }
    {
        match self.write_some(id, bytes) {
            Ok(0) => Err(self.fail(id)),
            Ok(count) => {
                let until = self.idle_until();
                self.rest_behind_end(id);
                self.table.was_written(id, until);
                self.writes = self.writes.moved(id, &bytes[..count]);
                Ok(Some(count))
            }
            Err(error) if error.kind() == ErrorKind::WouldBlock => {
                self.table.wait_to_write(id);
                Ok(None)
            }
            Err(_) => Err(self.fail(id)),
        }
    }

    fn again(&mut self, id: u64) {
        self.table.call(id);
    }

    fn await_more(&mut self, id: u64)
        ensures reads { moves_of self.new.reads ≡ moves_of self.old.reads }
        ensures writes { moves_of self.new.writes ≡ moves_of self.old.writes }
        ensures gave_way { ids_of self.new.ways ≡ ids_of self.old.ways }
        ensures due { IsDue self.new.table false id }
        ensures others { OthersDue id
            (λ d k. IsDue self.old.table d k) (λ d k. IsDue self.new.table d k) }
        ensures clients { AllAreSame
            (λ k. client_at self.old.table k) (λ k. client_at self.new.table k) }
        ensures next { IfSome (socket_at self.old.table id)
            (λ s. s.status.supply ≢ Supply.Drained
            → is_queued (socket_at self.new.table id) ≡ true) }
    {
        self.table.await_more(id);
    }

    fn later(&mut self, id: u64) {
        self.table.put_off(id);
    }

    fn give_way(&mut self, id: u64)
        ensures reads { moves_of self.new.reads ≡ moves_of self.old.reads }
        ensures writes { moves_of self.new.writes ≡ moves_of self.old.writes }
        ensures gave_way { ids_of self.new.ways ≡ ids_of self.old.ways ++ id ∷ [] }
        ensures due { StaysDue self.old.table self.new.table }
        ensures clients { AllAreSame
            (λ k. client_at self.old.table k) (λ k. client_at self.new.table k) }
        ensures own { socket_at self.new.table id
            ≡ option_map as_giving_way (socket_at self.old.table id) }
        ensures stay { OthersStay id self.old.table self.new.table }
    {
        self.is_long = true;
        self.plain_turns = self.plain_turns.wrapping_sub(1);
        self.table.give_way(id);
        self.ways = self.ways.named(id);
    }

    fn close(&mut self, id: u64) {
        self.part(id);
    }
}
