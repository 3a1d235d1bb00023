//! All turns of a connection over the bytes that it has.
ghost use Rattle.std.specs.Prelude.{◌≡◌, IfOk, IfErr, OnErr, string_bytes};
ghost use Rattle.http_definitions.specs.Streams.{without_line_ends};
ghost use Rattle.connections.specs.Phases.{IsOn};
ghost use Rattle.connections.specs.Progress.{IsEnd, TakesSome};
ghost use Rattle.connections.specs.Found.{FindsNoMore};

use crate::buffers::behind;
use crate::handlers::Handler;
use crate::phases::Phase;
use crate::turns::{Turn, take_turn};
use faults::Fault;
use request_heads::Search;
use std::alloc::Global;

/// What became of all bytes.
#[derive(Clone, Copy)]
pub enum Ended {
    /// Behind so many bytes stands what is held, read so far.
    Holds(usize, Phase),
    /// The connection is closed.
    Closes,
}

/// Answers all requests that the bytes spell. The only error is want of memory, [`Fault::NoRoom`]; the first of the
/// requests may be answered then.
pub fn take_all<H: Handler>(
    alloc: Global,
    handler: &mut H,
    out: &mut String,
    bytes: &[u8],
    phase: Phase,
) -> Result<Ended, Fault>
    requires { IsOn (without_line_ends bytes.now) phase }
    ensures ok { IfOk result
        (λ x. IsEnd H.answers bytes.now (H.state handler.old) (string_bytes out.old)
        x (H.state handler.new) (string_bytes out.new)) }
    ensures err { IfErr result (λ f. f ≡ Fault.NoRoom) }
    ensures some { OnErr result
        (TakesSome H.answers bytes.now (H.state handler.old) (H.state handler.new)) }
    ensures found { FindsNoMore H.finds handler.old handler.new }
{
    let mut start = 0;
    let mut reached = phase;
    while start < bytes.len() {
        match take_turn(alloc, handler, out, behind(bytes, start), reached) {
            Err(fault) => return Err(fault),
            Ok(Turn::Took(taken)) => {
                start += taken;
                reached = Phase::Searching(Search::new());
            }
            Ok(Turn::Holds(dropped, held)) => return Ok(Ended::Holds(start + dropped, held)),
            Ok(Turn::Closes) => return Ok(Ended::Closes),
        }
    }
    Ok(Ended::Holds(bytes.len(), reached))
}
