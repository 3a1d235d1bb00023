//! One connection.

ghost use Rattle.std.specs.Prelude.{◌≡◌, Err, None};
ghost use Rattle.connections.specs.Found.{FindsOnly};
ghost use Rattle.http_front.specs.Running.{IsHubServed};
ghost use Rattle.serving.specs.Exchanges.{wire};
ghost use Rattle.serving.specs.Kept.{IsFound};
ghost use Rattle.serving.specs.Serving.{as_failure, IsServed, IsBounded};
ghost use Rattle.tenant_hub.specs.Hubs.{hub_view};

use crate::hub_handler::HubHandler;
use connections::{Handler, Sessions, Unsettled};
use serving::{ByteReader, ByteWriter, Failure, serve};
use std::alloc::Global;
use tenant_hub::{Fault, Hub};

/// Serves one connection, as [`serve`] does, whose error this is, and gives back what answered. What is written was made
/// durable before.
pub fn serve_connection<H: Handler, R: ByteReader, W: ByteWriter>(
    alloc: Global,
    handler: H,
    reader: &mut R,
    writer: &mut W,
) -> (H, Result<(), Failure>)
    ensures served { IsServed H.answers None
        (wire (H.state handler) (R.reads reader.old) (W.writes writer.old)) result.1
        (wire (H.state result.0) (R.reads reader.new) (W.writes writer.new)) }
    ensures bounded { IsBounded (R.reads reader.old) (R.reads reader.new) }
    ensures found { FindsOnly H.finds handler (H.state handler) → (s : H.State)
        → H.finds result.0 s → IsFound H.answers
        (wire (H.state handler) (R.reads reader.old) (W.writes writer.old)) result.1
        (wire (H.state result.0) (R.reads reader.new) (W.writes writer.new)) s }
    ensures keeps { (why : Unsettled) → result.1 ≡ Err (Failure.Unsettled why) → H.keeps }
{
    let mut sessions = Sessions::new(alloc, handler);
    let served = serve(alloc, &mut sessions, 1, reader, writer);
    (sessions.into_handler(), served)
}

/// Serves one connection by this hub, as [`serve`] does, whose error this is. The hub keeps nothing for an opening to find, so it is
/// never unsettled.
pub fn serve_hub<R: ByteReader, W: ByteWriter>(
    alloc: Global,
    hub: Hub,
    reader: &mut R,
    writer: &mut W,
) -> Result<(), Fault>
    ensures { IsHubServed (hub_view hub) (R.reads reader.old) (W.writes writer.old)
        (as_failure result) (R.reads reader.new) (W.writes writer.new) }
{
    let (_handler, served) = serve_connection(alloc, HubHandler::new(hub), reader, writer);
    match served {
        Ok(()) => Ok(()),
        Err(Failure::Fault(fault)) => Err(fault),
        Err(Failure::Unsettled(_)) => Err(Fault::NoRoom),
    }
}
