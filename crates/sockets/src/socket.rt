//! A connection's socket.

use crate::status::Status;
use mio::net::TcpStream;
use std::time::Instant;

/// A connection's socket.
#[derive(Drop)]
pub struct Socket {
    pub stream: TcpStream,
    pub status: Status,
    /// It stands in the queue of those that are told ready next.
    pub is_queued: bool,
}

impl Socket {
    /// Whether something has to be done about it: its time is over, or it was put off. With `ends` also where it waits
    /// for the client to say more.
    pub(crate) fn needs_a_look(&self, now: Instant, ends: bool) -> bool {
        let status = &self.status;
        let is_idle = status.waits_to_read && !self.is_queued && !status.client.is_absent();
        status.is_put_off || status.is_late(now) || ends && is_idle
    }
}
