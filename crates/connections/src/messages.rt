//! What a whole message asks.
ghost use Rattle.std.specs.Prelude.{◌≡◌, [], IfOk, IfErr, if◌then◌else◌};
ghost use Rattle.std.specs.Str.{is_utf8};
ghost use Rattle.http_definitions.specs.Heads.{key_of};
ghost use Rattle.http_definitions.specs.Streams.{Message};
ghost use Rattle.connections.specs.Messages.{HasMessage, IsMessage, IsAskedAt};

use faults::Fault;
use request_heads::{Heading, request_of};
use requests::Request;
use std::alloc::Global;
use std::str;

// The text that the bytes are, or none.
fn text_or_empty(bytes: &[u8]) -> &str
    ensures { result.now ≡ (if is_utf8 bytes.now then bytes.now else []) }
{
    match str::from_utf8(bytes) {
        Ok(text) => text,
        Err(_) => "",
    }
}

/// The tenant's key that the message tells; the empty one is no tenant's.
pub fn key_at(bytes: &[u8], heading: Heading) -> &str
    requires { HasMessage bytes.now heading }
    ensures { (m : Message) → IsMessage bytes.now heading m → result.now ≡ key_of m.head }
{
    match heading.key {
        Some(span) => text_or_empty(span.of(bytes)),
        None => "",
    }
}

/// The request of the message; none where its target is no route's. The only error is want of memory,
/// [`Fault::NoRoom`].
pub fn request_at(
    alloc: Global,
    bytes: &[u8],
    heading: Heading,
) -> Result<Option<Request<'_>>, Fault>
    requires { HasMessage bytes.now heading }
    ensures ok { IfOk result (IsAskedAt bytes.now heading) }
    ensures err { IfErr result (λ f. f ≡ Fault.NoRoom) }
{
    let target = heading.target.of(bytes);
    let end = heading.head_len + heading.body_len;
    request_of(alloc, heading.method, target, &bytes[heading.head_len..end])
}
