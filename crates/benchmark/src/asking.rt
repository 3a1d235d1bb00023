//! A tenant's requests, so often.

ghost use Rattle.std.specs.Prelude.{◌≡◌, map, IfOk};
ghost use Rattle.requests.specs.Views.{reply_view};
ghost use Rattle.tenant_hub.specs.Calls.{call_view};
ghost use Rattle.tenant_hub.specs.Hubs.{hub_view};
ghost use Rattle.benchmark.specs.Counts.{answered_count, is_refused, CountsAnswered};

use crate::calls::{bodies_of, calls_of};
use crate::tenant::one_tenant;
use faults::Fault;
use json_doc::Doc;
use std::alloc::{AllocError, Global};
use tenant_hub::{Hub, Reply, Request};

/// Has a new server with one tenant answer the requests of `before` once and those of `repeat` so often, and answers how many
/// of the latter were not refused.
pub fn repeat_calls(alloc: Global, before: &Doc, repeat: &Doc, times: u32) -> Result<u64, Fault> {
    let mut hub = one_tenant(alloc)?;
    let bodies = bodies_of(alloc, before)?;
    count_answered(alloc, &mut hub, &calls_of(alloc, before, &bodies)?)?;
    let bodies = bodies_of(alloc, repeat)?;
    let calls = calls_of(alloc, repeat, &bodies)?;
    let mut count: u64 = 0;
    for _ in 0..times {
        count = count.saturating_add(count_answered(alloc, &mut hub, &calls)?);
    }
    Ok(count)
}

/// Has the requests answered in turn, and answers how many of them were not refused.
pub fn count_answered(
    alloc: Global,
    hub: &mut Hub,
    calls: &[(String, Request<'_>)],
) -> Result<u64, Fault>
    ensures { IfOk result (λ count. CountsAnswered (hub_view hub.old)
        (map call_view calls.now) count (hub_view hub.new)) }
{
    let replies = hub.run(alloc, calls)?;
    Ok(answered(alloc, hub, replies)? as u64)
}

// How many of the replies are no refusals. Each is told, and given back.
fn answered(alloc: Global, hub: &mut Hub, replies: Vec<Reply>) -> Result<usize, AllocError>
    ensures count { IfOk result (λ count. count
        ≡ answered_count (map reply_view replies.items)) }
    ensures registries { hub_view hub.new ≡ hub_view hub.old }
{
    let mut count = 0;
    for reply in replies {
        if !is_refused(&reply) {
            count += 1;
        }
        tell(alloc, &reply)?;
        hub.reuse(reply);
    }
    Ok(count)
}

// Puts the text of an output together, as a connection does.
fn tell(alloc: Global, reply: &Reply) -> Result<(), AllocError> {
    if let Reply::Output(output) = reply {
        output.text(alloc)?;
    }
    Ok(())
}

fn is_refused(reply: &Reply) -> bool
    ensures { result ≡ is_refused (reply_view reply.now) }
{
    matches!(reply, Reply::Refused(_) | Reply::RefusedAt(_, _))
}
