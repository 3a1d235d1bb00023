//! What is known of a connection on a socket.

ghost use Rattle.std.specs.Prelude.{◌≡◌, false};

use crate::rest::Rest;
use crate::supply::Supply;
use network::Client;
use std::time::Instant;

/// What is known of a connection.
#[derive(Clone, Copy, Debug)]
pub struct Status {
    /// When it has waited for too long.
    pub idle: Option<Instant>,
    /// When it has taken too long as a whole.
    pub whole: Option<Instant>,
    pub supply: Supply,
    /// It is amid a request: it was read, and no write was tried since.
    pub is_amid: bool,
    /// It gave way, and no write was tried since.
    pub gives_way: bool,
    /// Its rest behind what took long.
    pub rest: Option<Rest>,
    /// It has to be read again only once something comes: its last read would have waited, or took all that had come. It
    /// wasn't told ready since.
    pub waits_to_read: bool,
    /// Its last write would have waited, and it wasn't told ready since.
    pub waits_to_write: bool,
    /// It is to be told ready after a while.
    pub is_put_off: bool,
    /// Its client. Where it is absent, the connection is over: what still comes is read and let go.
    pub client: Client,
    /// How many reads are left then.
    pub reads_left: u32,
}

impl Status {
    /// That of a new connection.
    pub(crate) fn new(idle: Option<Instant>, whole: Option<Instant>) -> Status
        ensures { result.client ≡ Client.Present }
    {
        Status {
            idle,
            whole,
            supply: Supply::Unknown,
            is_amid: false,
            gives_way: false,
            rest: None,
            waits_to_read: false,
            waits_to_write: false,
            is_put_off: false,
            client: Client::Present,
            reads_left: 0,
        }
    }

    /// That of a connection that is over.
    pub(crate) fn parting(until: Option<Instant>, reads_left: u32) -> Status
        ensures { result.client ≡ Client.Absent }
    {
        Status {
            idle: until,
            whole: until,
            supply: Supply::Unknown,
            is_amid: false,
            gives_way: false,
            rest: None,
            waits_to_read: false,
            waits_to_write: false,
            is_put_off: false,
            client: Client::Absent,
            reads_left,
        }
    }

    /// That of the connection once it was told ready: it waits for nothing.
    pub(crate) fn told(&self) -> Status
        ensures { result ≡ record self.now {
          waits_to_read = false;
          waits_to_write = false;
          is_put_off = false;
        } }
    {
        Status {
            waits_to_read: false,
            waits_to_write: false,
            is_put_off: false,
            ..*self
        }
    }

    /// Whether its time is over.
    pub(crate) fn is_late(&self, now: Instant) -> bool {
        has_come(self.idle, now) || has_come(self.whole, now)
    }
}

fn has_come(time: Option<Instant>, now: Instant) -> bool {
    match time {
        Some(time) => now >= time,
        None => false,
    }
}
