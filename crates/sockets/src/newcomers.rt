//! Clients that come.

ghost use Rattle.std.specs.Prelude.{◌≡◌, ◌+◌, Bool, IfOk, IfSome, IfNone, OnErr};
ghost use Rattle.network.specs.Clients.{OthersAreSame};
ghost use Rattle.sockets.specs.Table.{client_at, IsDue, StaysDue, KeepsClients, KeepsClientsBut};

use crate::sockets::{INPUT, Sockets};
use crate::status::Status;
use mio::{Interest, Token};
use network::Client;
use std::io::{self, ErrorKind};
use std::time::Clock;

impl<C: Clock> Sockets<'_, C> {
    ghost use Rattle.sockets.specs.Sockets.{MovesNothing};

    /// Accepts a client, and answers its number. One that can't be taken in is let go.
    fn accept(&mut self) -> io::Result<u64>
        ensures moves { MovesNothing self.old self.new }
        ensures due { StaysDue self.old.table self.new.table }
        ensures others { IfOk result (λ id.
            OthersAreSame id (client_at self.old.table) (client_at self.new.table)) }
        ensures clients { OnErr result (KeepsClients self.old.table self.new.table) }
        ensures number { IfOk result (λ id. (id ≡ self.old.table.count)
            × (self.new.table.count ≡ id + 1)) }
        ensures comes { IfOk result (λ id. client_at self.new.table id ≡ Client.Present) }
        ensures told { IfOk result (λ id. (d : Bool) → IsDue self.new.table d id) }
        ensures count { OnErr result (self.new.table.count ≡ self.old.table.count) }
    {
        self.table.reserve()?;
        let (mut stream, _peer) = match &self.listener {
            Some(listener) => listener.accept()?,
            None => return Err(io::Error::from(ErrorKind::NotConnected)),
        };
        let _ = stream.set_nodelay(true);
        let id = self.table.count();
        let all = Interest::READABLE | Interest::WRITABLE | Interest::PRIORITY;
        self.poll
            .registry()
            .register(&mut stream, Token(id as usize), all)?;
        let status = Status::new(self.idle_until(), self.now.checked_add(self.limits.whole));
        self.table.add(stream, status)?;
        Ok(id)
    }

    /// Accepts a client, where one may wait and there is room, and answers its number.
    pub(crate) fn newcomer(&mut self) -> Option<u64>
        ensures moves { MovesNothing self.old self.new }
        ensures due { StaysDue self.old.table self.new.table }
        ensures clients { KeepsClientsBut result self.old.table self.new.table }
        ensures number { IfSome result (λ id. (id ≡ self.old.table.count)
            × (self.new.table.count ≡ id + 1)) }
        ensures comes { IfSome result (λ id. client_at self.new.table id ≡ Client.Present) }
        ensures told { IfSome result (λ id. (d : Bool) → IsDue self.new.table d id) }
        ensures count { IfNone result (self.new.table.count ≡ self.old.table.count) }
    {
        if !self.may_accept || self.ends() {
            return None;
        }
        if self.table.len() >= self.connections || self.table.count() >= INPUT {
            self.may_accept = false;
            self.is_short = true;
            return None;
        }
        match self.accept() {
            Ok(id) => Some(id),
            Err(error) => {
                let kind = error.kind();
                self.may_accept = kind == ErrorKind::ConnectionAborted;
                self.is_short = kind != ErrorKind::WouldBlock;
                None
            }
        }
    }
}
