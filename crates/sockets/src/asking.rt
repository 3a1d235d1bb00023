//! What the system tells.

ghost use Rattle.std.specs.Prelude.{◌≡◌};
ghost use Rattle.sockets.specs.Table.{StaysDue, KeepsClients};

use crate::rest::Resting;
use crate::sockets::{INPUT, LISTENER, Sockets};
use crate::table::Table;
use crate::tuning::TICK;
use mio::Events;
use mio::event::Event;
use std::io;
use std::time::{Clock, Duration, Instant};

/// What the system told beside which connections are ready.
#[derive(Clone, Copy)]
struct News {
    /// A client has come.
    is_asked: bool,
    /// Standard input has ended.
    is_ended: bool,
}

/// Whether the system told of an end, of a failure or of urgent data, each of which ends a read early.
fn interrupts(event: &Event) -> bool {
    event.is_read_closed() || event.is_error() || event.is_priority()
}

/// Has each connection of which the system told something be told ready.
fn hear(events: &Events, table: &mut Table) -> News
    ensures due { StaysDue table.old table.new }
    ensures clients { KeepsClients table.old table.new }
    ensures count { table.new.count ≡ table.old.count }
{
    let mut news = News {
        is_asked: false,
        is_ended: false,
    };
    for event in events {
        let number = event.token().0 as u64;
        if number == LISTENER {
            news.is_asked = true;
        } else if number == INPUT {
            news.is_ended = event.is_read_closed();
        } else {
            table.wake(number, interrupts(event));
        }
    }
    news
}

impl<C: Clock> Sockets<'_, C> {
    ghost use Rattle.sockets.specs.Sockets.{MovesNothing};

    /// Whether a client may be accepted next.
    fn may_come(&self) -> bool {
        self.may_accept && !self.ends()
    }

    /// Whether some connections rest, and nobody else is ready.
    fn is_all_at_rest(&self) -> bool {
        self.resting.count > 0 && self.table.queue_len() == self.resting.count && !self.may_come()
    }

    /// How long the system may let it wait. Where nobody else is ready, until the first rest ends for that.
    fn patience(&self) -> Duration {
        let tick = Duration::from_millis(TICK);
        match self.quiet_since {
            Some(since) if self.is_all_at_rest() => {
                let quiet = self.now.duration_since(since);
                self.resting.lull.saturating_sub(quiet).min(tick)
            }
            _ if self.table.queue_len() > 0 || self.may_come() => Duration::ZERO,
            _ => tick,
        }
    }

    /// Asks the system what is ready, and reads the clock.
    pub(crate) fn ask(&mut self) -> io::Result<()>
        ensures moves { MovesNothing self.old self.new }
        ensures due { StaysDue self.old.table self.new.table }
        ensures clients { KeepsClients self.old.table self.new.table }
        ensures count { self.new.table.count ≡ self.old.table.count }
    {
        let patience = self.patience();
        self.poll.poll(&mut self.events, Some(patience))?;
        self.now = Instant::now(self.clock)?;
        let news = hear(&self.events, &mut self.table);
        self.may_accept = self.may_accept || news.is_asked;
        if news.is_ended {
            self.listener = None;
        }
        self.left = self.table.queue_len();
        self.quiet_since = if self.is_all_at_rest() {
            self.quiet_since.or(Some(self.now))
        } else {
            None
        };
        self.resting = Resting::none();
        Ok(())
    }
}
