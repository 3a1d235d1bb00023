//! A connection's bytes, in pieces.

ghost use Rattle.std.specs.Prelude.{◌<◌};

use crate::tenant::one_tenant;
use faults::Fault;
use http_front::{HubHandler, Sessions};
use std::alloc::Global;

/// The id of the one connection.
const ID: u64 = 1;

/// Feeds the bytes of one connection to a new server with one tenant, in pieces of so many bytes, and ends it. The answer is
/// how many bytes were sent.
pub fn feed_pieces(alloc: Global, bytes: &[u8], size: usize) -> Result<u64, Fault>
    requires { 0 < size }
{
    let mut sessions = Sessions::new(alloc, HubHandler::new(one_tenant(alloc)?));
    sessions.open(ID)?;
    let mut sent: u64 = 0;
    for piece in bytes.chunks(size) {
        let out = sessions.feed(alloc, ID, piece)?;
        sent = sent.saturating_add(out.len() as u64);
    }
    let last = sessions.end(alloc, ID)?;
    Ok(sent.saturating_add(last.len() as u64))
}
