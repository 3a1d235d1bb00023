//! What happens on many connections, one after the other.

ghost use Rattle.std.specs.Prelude.{◌≡◌, ◌≢◌, ℕ, Bool, true, false, Some, IfSome};
ghost use Rattle.sockets.specs.Socket.{is_queued};
ghost use Rattle.network.specs.Clients.{failed};
ghost use Rattle.sockets.specs.Table.{socket_at, client_at, OthersStay, IsDue, StaysDue, StaysDueBut, KeepsClients, KeepsClientsBut};

use crate::sockets::Sockets;
use crate::tuning::TICK;
use network::{Client, Occasion};
use std::time::{Clock, Duration};

impl<C: Clock> Sockets<'_, C> {
    ghost use Rattle.sockets.specs.Sockets.{MovesNothing};
    ghost use Rattle.sockets.specs.Numbers.{count_after};

    /// What happened next.
    pub(crate) fn happens(&mut self) -> Option<Occasion>
        ensures moves { MovesNothing self.old self.new }
        ensures due { (k : ℕ) (d : Bool) → result ≢ Some (Occasion.Ready k)
            → IsDue self.old.table d k → IsDue self.new.table d k }
        ensures told { (k : ℕ) (d : Bool) → result ≡ Some (Occasion.Opens k)
            → IsDue self.new.table d k }
        ensures comes { (k : ℕ) → result ≡ Some (Occasion.Opens k)
            → client_at self.new.table k ≡ Client.Present }
        ensures late { (k : ℕ) → result ≡ Some (Occasion.Late k)
            → client_at self.new.table k ≡ failed (client_at self.old.table k) }
        ensures clients { (k : ℕ) → result ≢ Some (Occasion.Opens k)
            → result ≢ Some (Occasion.Late k)
            → client_at self.new.table k ≡ client_at self.old.table k }
        ensures number { (k : ℕ) → result ≡ Some (Occasion.Opens k) → k ≡ self.old.table.count }
        ensures count { self.new.table.count ≡ count_after result self.old.table.count }
    {
        self.end_turn();
        if let Some(id) = self.newcomer() {
            return Some(Occasion::Opens(id));
        }
        if let Some(id) = self.ready() {
            return Some(Occasion::Ready(id));
        }
        if let Some(id) = self.late() {
            return Some(Occasion::Late(id));
        }
        if self.ends() && self.table.len() == 0 {
            return Some(Occasion::Over);
        }
        self.begin_end();
        None
    }

    /// Whether a connection that was taken out of the queue takes a turn now, which begins. Else it rests on; or it is over,
    /// and some of what still comes is let go.
    fn takes_turn(&mut self, id: u64) -> bool
        requires { is_queued (socket_at self.old.table id) ≡ false }
        ensures moves { MovesNothing self.old self.new }
        ensures own { result ≡ false → (d : Bool) → IsDue self.new.table d id }
        ensures turn { result ≡ true → self.new.turn.id ≡ id }
        ensures others { OthersStay id self.old.table self.new.table }
        ensures due { StaysDue self.old.table self.new.table }
        ensures clients { KeepsClients self.old.table self.new.table }
        ensures count { self.new.table.count ≡ self.old.table.count }
    {
        let Some(status) = self.table.status(id) else {
            return false;
        };
        if status.client.is_absent() {
            self.drain(id);
            return false;
        }
        if self.is_resting(id, &status) {
            self.put_back(id);
            return false;
        }
        self.begin_turn(id, status.is_amid);
        true
    }

    /// The next of the queue that is to be told ready.
    fn ready(&mut self) -> Option<u64>
        ensures moves { MovesNothing self.old self.new }
        ensures due { StaysDueBut result self.old.table self.new.table }
        ensures turn { IfSome result (λ id. self.new.turn.id ≡ id) }
        ensures clients { KeepsClients self.old.table self.new.table }
        ensures count { self.new.table.count ≡ self.old.table.count }
    {
        for _ in 0..self.left {
            self.left = self.left.saturating_sub(1);
            match self.table.pop() {
                None => return None,
                Some(id) => {
                    if self.takes_turn(id) {
                        return Some(id);
                    }
                }
            }
        }
        None
    }

    /// Does what has to be done about a connection, where its time isn't over. Whether it is.
    fn is_over(&mut self, id: u64) -> bool
        ensures moves { MovesNothing self.old self.new }
        ensures due { StaysDue self.old.table self.new.table }
        ensures late { result ≡ true
            → client_at self.new.table id ≡ failed (client_at self.old.table id) }
        ensures in_time { result ≡ false → KeepsClients self.old.table self.new.table }
        ensures clients { KeepsClientsBut (Some id) self.old.table self.new.table }
        ensures count { self.new.table.count ≡ self.old.table.count }
    {
        let Some(status) = self.table.status(id) else {
            return false;
        };
        if status.client.is_absent() {
            if !self.table.is_queued(id) {
                self.release(id);
            }
            return false;
        }
        if status.is_late(self.now) {
            self.table.fail(id);
            return true;
        }
        self.table.call(id);
        false
    }

    /// Whether it is time to look at all connections.
    fn is_time_to_look(&self) -> bool {
        match self.look {
            Some(look) => self.ends() || self.now >= look,
            None => true,
        }
    }

    /// A connection whose time is over, of those that weren't looked at since it is time to look.
    fn late(&mut self) -> Option<u64>
        ensures moves { MovesNothing self.old self.new }
        ensures due { StaysDue self.old.table self.new.table }
        ensures late { IfSome result (λ id.
            client_at self.new.table id ≡ failed (client_at self.old.table id)) }
        ensures clients { KeepsClientsBut result self.old.table self.new.table }
        ensures count { self.new.table.count ≡ self.old.table.count }
    {
        if !self.is_time_to_look() {
            return None;
        }
        for _ in 0..self.table.len() {
            let ends = self.ends();
            match self.table.next_to_look_at(self.look_from, self.now, ends) {
                None => break,
                Some(id) => {
                    self.look_from = id.saturating_add(1);
                    if self.is_over(id) {
                        return Some(id);
                    }
                }
            }
        }
        self.look_from = 0;
        self.look = self.now.checked_add(Duration::from_millis(TICK));
        self.may_accept = self.may_accept || self.is_short;
        self.is_short = false;
        None
    }
}
