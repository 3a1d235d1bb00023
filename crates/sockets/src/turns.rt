//! The turns of connections, and which of them rest.

ghost use Rattle.std.specs.Prelude.{◌≡◌, ◌||◌, Bool, true, false, Some, None, IfSome, is_some};
ghost use Rattle.sockets.specs.Socket.{gives_way_in, rest_in};
ghost use Rattle.sockets.specs.Table.{socket_at, OthersStay, OnlyRests, IsDue, StaysDue, KeepsClients};

use crate::rest::Rest;
use crate::sockets::Sockets;
use crate::status::Status;
use std::time::{Clock, Instant};

/// The last turn of a connection that was told ready.
#[derive(Clone, Copy, Debug)]
pub struct Turn {
    pub id: u64,
    /// When it began, where it goes on amid a request.
    pub start: Option<Instant>,
}

impl<C: Clock> Sockets<'_, C> {
    ghost use Rattle.sockets.specs.Sockets.{MovesNothing};

    /// Begins the turn of a connection, which is told ready. Its time is taken only where it is amid a request.
    pub(crate) fn begin_turn(&mut self, id: u64, is_amid: bool)
        ensures moves { MovesNothing self.old self.new }
        ensures table { self.new.table ≡ self.old.table }
        ensures turn { self.new.turn.id ≡ id }
    {
        if self.turn.id != id {
            self.changes = self.changes.wrapping_add(1);
        }
        self.plain_turns = self.plain_turns.wrapping_add(1);
        let start = if is_amid {
            Instant::now(self.clock).ok()
        } else {
            None
        };
        self.turn = Turn { id, start };
    }

    /// Ends the turn that goes on, if one does. Where it took long, its connection rests from now on.
    #[tactic(auto, using(crate::proofs::Taken::rests_only))]
    pub(crate) fn end_turn(&mut self)
        ensures moves { MovesNothing self.old self.new }
        ensures rests { OnlyRests self.old.turn.id self.old.table self.new.table }
        ensures none { self.old.turn.start ≡ None → self.new.table ≡ self.old.table }
        ensures due { StaysDue self.old.table self.new.table }
        ensures clients { KeepsClients self.old.table self.new.table }
        ensures count { self.new.table.count ≡ self.old.table.count }
    {
        let Some(start) = self.turn.start.take() else {
            return;
        };
        let Ok(now) = Instant::now(self.clock) else {
            return;
        };
        let took = now.duration_since(start);
        if let Some(rest) = Rest::behind_turn(now, took, self.changes) {
            self.table.set_rest(self.turn.id, Some(rest));
        }
    }

    /// The end of a round begins. Its time is taken only where a connection gave way.
    pub(crate) fn begin_end(&mut self)
        ensures moves { MovesNothing self.old self.new }
        ensures table { self.new.table ≡ self.old.table }
    {
        self.end = if self.is_long {
            Instant::now(self.clock).ok()
        } else {
            None
        };
        self.is_long = false;
    }

    /// A connection is written to: where it gave way, it rests from now on.
    #[tactic(auto, using(crate::proofs::Taken::rests_only))]
    pub(crate) fn rest_behind_end(&mut self, id: u64)
        ensures moves { MovesNothing self.old self.new }
        ensures rests { OnlyRests id self.old.table self.new.table }
        ensures none { gives_way_in (socket_at self.old.table id) ≡ false
            → self.new.table ≡ self.old.table }
        ensures due { StaysDue self.old.table self.new.table }
        ensures clients { KeepsClients self.old.table self.new.table }
        ensures count { self.new.table.count ≡ self.old.table.count }
    {
        let Some(start) = self.end else {
            return;
        };
        if !self.table.gives_way(id) {
            return;
        }
        let Ok(now) = Instant::now(self.clock) else {
            return;
        };
        let took = now.duration_since(start);
        if let Some(rest) = Rest::behind_end(now, took, self.plain_turns) {
            self.table.set_rest(id, Some(rest));
        }
    }

    /// How many turns there were of those beside whom the connection rests: of others behind a turn that took long, and of
    /// those that don't give way behind an end.
    fn turns_beside(&self, rest: &Rest) -> u64 {
        if rest.gives_way {
            self.plain_turns
        } else {
            self.changes
        }
    }

    /// Whether a connection that was taken out of the queue rests on, which is counted then. A rest that doesn't go on is over.
    #[tactic(auto, using(crate::proofs::Taken::rests_only, crate::proofs::Taken::no_rest))]
    pub(crate) fn is_resting(&mut self, id: u64, status: &Status) -> bool
        ensures moves { MovesNothing self.old self.new }
        ensures rests { OnlyRests id self.old.table self.new.table }
        ensures on { result ≡ true → is_some status.now.rest ≡ true }
        ensures over { result ≡ false → IfSome status.now.rest (λ rest.
            (status.now.is_amid || rest.gives_way) ≡ true
            → rest_in (socket_at self.new.table id) ≡ None) }
        ensures due { StaysDue self.old.table self.new.table }
        ensures clients { KeepsClients self.old.table self.new.table }
        ensures count { self.new.table.count ≡ self.old.table.count }
    {
        match status.rest {
            Some(rest) if status.is_amid || rest.gives_way => {
                if rest.goes_on(self.now, self.turns_beside(&rest), self.quiet_since) {
                    self.resting.note(rest);
                    return true;
                }
                self.table.set_rest(id, None);
                false
            }
            _ => false,
        }
    }

    /// Puts a connection that rests back into the queue. It isn't idle meanwhile.
    pub(crate) fn put_back(&mut self, id: u64)
        ensures own { (d : Bool) → IsDue self.new.table d id }
        ensures moves { MovesNothing self.old self.new }
        ensures others { OthersStay id self.old.table self.new.table }
        ensures due { StaysDue self.old.table self.new.table }
        ensures clients { KeepsClients self.old.table self.new.table }
        ensures count { self.new.table.count ≡ self.old.table.count }
    {
        let until = self.idle_until();
        self.table.renew(id, until);
        self.table.call(id);
    }
}
