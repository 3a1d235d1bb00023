//! What happens to the sockets of a table.

ghost use Rattle.std.specs.Prelude.{◌≡◌, ◌≢◌, ℕ, Bool, true, false, IfSome, option_map};
ghost use Rattle.network.specs.Clients.{failed};
ghost use Rattle.sockets.specs.Socket.{is_queued, is_open, with_rest, as_giving_way};
ghost use Rattle.sockets.specs.Table.{socket_at, client_at, OthersStay, IsDue, StaysDue, KeepsClients};

use crate::rest::Rest;
use crate::status::Status;
use crate::supply::Supply;
use crate::table::Table;
use std::time::Instant;

impl Table {
    /// Some was read of a connection, which may be idle until then; with `is_short` fewer bytes than there was room for. It is
    /// amid a request, unless a write follows.
    pub(crate) fn was_read(&mut self, id: u64, until: Option<Instant>, is_short: bool)
        ensures due { StaysDue self.old self.new }
        ensures clients { KeepsClients self.old self.new }
        ensures count { self.new.count ≡ self.old.count }
    {
        if let Some(socket) = self.sockets.get_mut(&id) {
            socket.status.idle = until;
            socket.status.supply = socket.status.supply.read(is_short);
            socket.status.is_amid = true;
        }
    }

    /// Some was written on a connection, which may be idle until then. It isn't amid a request.
    pub(crate) fn was_written(&mut self, id: u64, until: Option<Instant>)
        ensures due { StaysDue self.old self.new }
        ensures others { OthersStay id self.old self.new }
        ensures clients { KeepsClients self.old self.new }
        ensures count { self.new.count ≡ self.old.count }
    {
        if let Some(socket) = self.sockets.get_mut(&id) {
            socket.status.idle = until;
            socket.status.is_amid = false;
            socket.status.gives_way = false;
        }
    }

    /// A connection may be idle until then.
    pub(crate) fn renew(&mut self, id: u64, until: Option<Instant>)
        ensures due { StaysDue self.old self.new }
        ensures others { OthersStay id self.old self.new }
        ensures clients { KeepsClients self.old self.new }
        ensures count { self.new.count ≡ self.old.count }
    {
        if let Some(status) = self.status(id) {
            self.set(
                id,
                Status {
                    idle: until,
                    ..status
                },
            );
        }
    }

    /// A connection gives way.
    pub(crate) fn give_way(&mut self, id: u64)
        ensures own { socket_at self.new id ≡ option_map as_giving_way (socket_at self.old id) }
        ensures others { OthersStay id self.old self.new }
        ensures due { StaysDue self.old self.new }
        ensures clients { KeepsClients self.old self.new }
        ensures count { self.new.count ≡ self.old.count }
    {
        if let Some(socket) = self.sockets.get_mut(&id) {
            socket.status.gives_way = true;
        }
    }

    /// A connection rests so from now on, if it does.
    pub(crate) fn set_rest(&mut self, id: u64, rest: Option<Rest>)
        ensures own { socket_at self.new id
            ≡ option_map (with_rest rest) (socket_at self.old id) }
        ensures others { OthersStay id self.old self.new }
        ensures due { StaysDue self.old self.new }
        ensures clients { KeepsClients self.old self.new }
        ensures count { self.new.count ≡ self.old.count }
    {
        if let Some(socket) = self.sockets.get_mut(&id) {
            socket.status.rest = rest;
        }
    }

    /// A read would have waited.
    pub(crate) fn wait_to_read(&mut self, id: u64)
        ensures own { IsDue self.new false id }
        ensures due { StaysDue self.old self.new }
        ensures clients { KeepsClients self.old self.new }
        ensures count { self.new.count ≡ self.old.count }
    {
        if let Some(status) = self.status(id) {
            let waits = Status {
                waits_to_read: true,
                ..status
            };
            self.set(id, waits);
        }
    }

    /// A write would have waited.
    pub(crate) fn wait_to_write(&mut self, id: u64)
        ensures own { IsDue self.new true id }
        ensures due { StaysDue self.old self.new }
        ensures others { OthersStay id self.old self.new }
        ensures clients { KeepsClients self.old self.new }
        ensures count { self.new.count ≡ self.old.count }
    {
        if let Some(status) = self.status(id) {
            let waits = Status {
                waits_to_write: true,
                is_amid: false,
                gives_way: false,
                ..status
            };
            self.set(id, waits);
        }
    }

    /// A connection is to be told ready after a while.
    pub(crate) fn put_off(&mut self, id: u64)
        ensures own { (d : Bool) → IsDue self.new d id }
        ensures due { StaysDue self.old self.new }
        ensures clients { KeepsClients self.old self.new }
        ensures count { self.new.count ≡ self.old.count }
    {
        if let Some(socket) = self.sockets.get_mut(&id) {
            socket.status.is_put_off = true;
        }
    }

    /// A connection is to be told ready, after those that are.
    pub(crate) fn call(&mut self, id: u64)
        ensures own { (d : Bool) → IsDue self.new d id }
        ensures due { StaysDue self.old self.new }
        ensures others { OthersStay id self.old self.new }
        ensures clients { KeepsClients self.old self.new }
        ensures count { self.new.count ≡ self.old.count }
    {
        self.queue(id);
    }

    /// The system told something of a connection, and with `interrupts` what ends a read early: it is to be told ready, after
    /// those that are.
    pub(crate) fn wake(&mut self, id: u64, interrupts: bool)
        ensures own { (d : Bool) → IsDue self.new d id }
        ensures undrained { IfSome (socket_at self.new id)
            (λ s. s.status.supply ≢ Supply.Drained) }
        ensures due { StaysDue self.old self.new }
        ensures clients { KeepsClients self.old self.new }
        ensures count { self.new.count ≡ self.old.count }
    {
        if let Some(socket) = self.sockets.get_mut(&id) {
            socket.status.supply = socket.status.supply.told(interrupts);
        }
        self.queue(id);
    }

    /// Whether all that had come on a connection was read; then it waits to be read.
    fn waits_where_drained(&mut self, id: u64) -> bool
        ensures own { result ≡ true → IsDue self.new false id }
        ensures drained { result ≡ true → IfSome (socket_at self.old id)
            (λ s. s.status.supply ≡ Supply.Drained) }
        ensures same { result ≡ false → socket_at self.new id ≡ socket_at self.old id }
        ensures due { StaysDue self.old self.new }
        ensures clients { KeepsClients self.old self.new }
        ensures count { self.new.count ≡ self.old.count }
    {
        match self.sockets.get_mut(&id) {
            Some(socket) if socket.status.supply.is_drained() => {
                socket.status.waits_to_read = true;
                true
            }
            _ => false,
        }
    }

    /// A connection is to be told ready once it can be read: after those that are, unless all that had come was read.
    pub(crate) fn await_more(&mut self, id: u64)
        ensures own { IsDue self.new false id }
        ensures next { IfSome (socket_at self.old id) (λ s. s.status.supply ≢ Supply.Drained
            → is_queued (socket_at self.new id) ≡ true) }
        ensures due { StaysDue self.old self.new }
        ensures clients { KeepsClients self.old self.new }
        ensures count { self.new.count ≡ self.old.count }
    {
        if !self.waits_where_drained(id) {
            self.queue(id);
        }
    }

    /// A read or a write of a connection failed, or it took too long.
    pub(crate) fn fail(&mut self, id: u64)
        ensures client { client_at self.new id ≡ failed (client_at self.old id) }
        ensures due { StaysDue self.old self.new }
        ensures others { OthersStay id self.old self.new }
        ensures count { self.new.count ≡ self.old.count }
    {
        if let Some(status) = self.status(id) {
            let client = status.client.failed();
            self.set(id, Status { client, ..status });
        }
    }

    /// A connection is over: for so many reads and until then what still comes is let go.
    pub(crate) fn part(&mut self, id: u64, until: Option<Instant>, reads_left: u32)
        ensures due { StaysDue self.old self.new }
        ensures closed { is_open (socket_at self.new id) ≡ false }
        ensures others { OthersStay id self.old self.new }
        ensures count { self.new.count ≡ self.old.count }
    {
        self.set(id, Status::parting(until, reads_left));
        self.queue(id);
    }
}
