//! One turn of a connection.
ghost use Rattle.std.specs.Prelude.{◌≡◌, IfOk, IfErr, OnErr, string_bytes};
ghost use Rattle.http_definitions.specs.Streams.{without_line_ends};
ghost use Rattle.connections.specs.Phases.{IsOn};
ghost use Rattle.connections.specs.Progress.{IsTurn, TakesSome};
ghost use Rattle.connections.specs.Found.{FindsNoMore};

use crate::answering::answer;
use crate::buffers::{behind, line_ends};
use crate::handlers::Handler;
use crate::phases::{Arrival, Phase, find};
use faults::Fault;
use reply_texts::write_closing;
use std::alloc::Global;

/// What a turn did.
#[derive(Clone, Copy)]
pub enum Turn {
    /// A request was answered, which ends behind so many bytes.
    Took(usize),
    /// No request is whole; behind so many bytes stands what is held, read so far.
    Holds(usize, Phase),
    /// The connection is closed.
    Closes,
}

/// Drops the line ends at the front and answers one request. The only error is want of memory, [`Fault::NoRoom`]; the
/// request may be answered then.
pub fn take_turn<H: Handler>(
    alloc: Global,
    handler: &mut H,
    out: &mut String,
    bytes: &[u8],
    phase: Phase,
) -> Result<Turn, Fault>
    requires { IsOn (without_line_ends bytes.now) phase }
    ensures ok { IfOk result
        (λ x. IsTurn H.answers bytes.now (H.state handler.old) (string_bytes out.old)
        x (H.state handler.new) (string_bytes out.new)) }
    ensures err { IfErr result (λ f. f ≡ Fault.NoRoom) }
    ensures some { OnErr result
        (TakesSome H.answers bytes.now (H.state handler.old) (H.state handler.new)) }
    ensures found { FindsNoMore H.finds handler.old handler.new }
{
    let skipped = line_ends(bytes);
    let front = behind(bytes, skipped);
    match find(front, phase) {
        Arrival::Waiting(reached) => Ok(Turn::Holds(skipped, reached)),
        Arrival::Hopeless => match write_closing(alloc, out) {
            Err(fault) => Err(fault),
            Ok(()) => Ok(Turn::Closes),
        },
        Arrival::Whole(heading) => match answer(alloc, handler, out, front, heading) {
            Err(fault) => Err(fault),
            Ok(()) => {
                if heading.is_last {
                    Ok(Turn::Closes)
                } else {
                    Ok(Turn::Took(skipped + heading.head_len + heading.body_len))
                }
            }
        },
    }
}
