//! Answering a whole message.
ghost use Rattle.std.specs.Prelude.{◌≡◌, ◌++◌, IfOk, IfErr, OnOk, OnErr, string_bytes};
ghost use Rattle.http_definitions.specs.ReplyTexts.{reply_text};
ghost use Rattle.requests.specs.Views.{reply_view};
ghost use Rattle.connections.specs.Messages.{HasMessage};
ghost use Rattle.connections.specs.Progress.{AnswersAt, MayAnswer, Replies};
ghost use Rattle.connections.specs.Found.{FindsNoMore};

use crate::handlers::{Exchange, Handler};
use crate::messages::{key_at, request_at};
use faults::Fault;
use reply_texts::write_reply;
use request_heads::Heading;
use requests::Reply;
use std::alloc::Global;

// The reply to the message at the front. A target that is no route's is answered without asking.
fn reply_to<H: Handler>(
    alloc: Global,
    handler: &mut H,
    bytes: &[u8],
    heading: Heading,
) -> Result<Reply, Fault>
    requires { HasMessage bytes.now heading }
    ensures ok { IfOk result
        (λ r. AnswersAt H.answers bytes.now heading (H.state handler.old) (reply_view r)
        (H.state handler.new)) }
    ensures err { IfErr result (λ f. f ≡ Fault.NoRoom) }
    ensures unasked { OnErr result (handler.new ≡ handler.old) }
    ensures found { FindsNoMore H.finds handler.old handler.new }
{
    match request_at(alloc, bytes, heading) {
        Err(fault) => Err(fault),
        Ok(None) => Ok(Reply::Refused(Fault::BadRoute)),
        Ok(Some(request)) => Ok(handler.apply(alloc, key_at(bytes, heading), &request)),
    }
}

// Has the handler note that the message at the front was answered.
fn note<H: Handler>(handler: &H, bytes: &[u8], heading: Heading, reply: &[u8])
    requires { HasMessage bytes.now heading }
{
    handler.note(&Exchange {
        key: key_at(bytes, heading),
        method: heading.method,
        target: heading.target.of(bytes),
        reply,
    });
}

// Appends the reply to the message at the front, and has the handler note it.
fn tell<H: Handler>(
    alloc: Global,
    handler: &H,
    out: &mut String,
    bytes: &[u8],
    heading: Heading,
    reply: &Reply,
) -> Result<(), Fault>
    requires { HasMessage bytes.now heading }
    ensures ok { OnOk result (string_bytes out.new
        ≡ string_bytes out.old ++ reply_text heading.is_last (reply_view reply.now)) }
    ensures err { IfErr result (λ f. f ≡ Fault.NoRoom) }
{
    let start = out.len();
    match write_reply(alloc, out, heading.is_last, reply) {
        Err(fault) => Err(fault),
        Ok(()) => {
            note(handler, bytes, heading, &out.as_bytes()[start..]);
            Ok(())
        }
    }
}

/// Answers the message at the front and appends the reply. The only error is want of memory, [`Fault::NoRoom`]; the
/// message may be answered then.
pub fn answer<H: Handler>(
    alloc: Global,
    handler: &mut H,
    out: &mut String,
    bytes: &[u8],
    heading: Heading,
) -> Result<(), Fault>
    requires { HasMessage bytes.now heading }
    ensures ok { OnOk result
        (Replies H.answers bytes.now heading (H.state handler.old) (string_bytes out.old)
        (H.state handler.new) (string_bytes out.new)) }
    ensures err { IfErr result (λ f. f ≡ Fault.NoRoom) }
    ensures some { OnErr result
        (MayAnswer H.answers bytes.now heading (H.state handler.old) (H.state handler.new)) }
    ensures found { FindsNoMore H.finds handler.old handler.new }
{
    match reply_to(alloc, handler, bytes, heading) {
        Err(fault) => Err(fault),
        Ok(reply) => {
            let told = tell(alloc, handler, out, bytes, heading, &reply);
            handler.reuse(reply);
            told
        }
    }
}
