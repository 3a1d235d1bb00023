//! Many connections to one hub.

ghost use Rattle.std.specs.Prelude.{◌≡◌, Err, OnOk};
ghost use Rattle.connections.specs.Found.{FindsOnly};
ghost use Rattle.http_front.specs.SideBySide.{AreAnswered, AreServedSideBySide};
ghost use Rattle.tenant_hub.specs.Hubs.{hub_view};

use crate::hub_handler::{HasHub, HubHandler};
use crate::noted_hub::{Journal, NotedHub};
use connections::{Handler, Outage, Sessions, Unsettled};
use serving_many::{Broken, Network, Observer, serve_all};
use std::alloc::Global;
use tenant_hub::Hub;

/// Serves connections side by side by what answers by a hub, as [`serve_all`] does, whose error this is, and gives it back.
/// No reply is written before what was answered is durable, and at an end without an error all of it is.
pub fn serve_noted<H: Handler + HasHub, N: Network, O: Observer, J: Journal>(
    alloc: Global,
    handler: H,
    journal: &J,
    network: &mut N,
    observer: &mut O,
    most_memory: usize,
) -> (H, Result<(), Outage>)
    ensures served { AreAnswered H.state H.finds H.answers handler
        (N.reads network.old) (N.writes network.old)
        result.0 (N.reads network.new) (N.writes network.new) }
    ensures durable { OnOk result.1 (FindsOnly H.finds result.0 (H.state result.0)) }
    ensures keeps { (why : Unsettled) → result.1 ≡ Err (Outage.Unsettled why) → H.keeps }
{
    let mut sessions = Sessions::new(alloc, NotedHub::new(handler, journal));
    let served = serve_all(alloc, &mut sessions, network, observer, most_memory);
    (sessions.into_handler().into_handler(), served)
}

/// Serves connections side by side by this hub, which keeps nothing for an opening to find. The error is that of
/// [`Network::wait`]. Each tenant is served as if it were alone, whatever comes on the connections, in whatever order.
pub fn serve_side_by_side<N: Network, O: Observer, J: Journal>(
    alloc: Global,
    hub: Hub,
    journal: &J,
    network: &mut N,
    observer: &mut O,
    most_memory: usize,
) -> Result<(), Broken>
    ensures { AreServedSideBySide (hub_view hub) (N.reads network.old) (N.writes network.old)
        (N.reads network.new) (N.writes network.new) }
{
    let handler = HubHandler::new(hub);
    let (_handler, served) = serve_noted(alloc, handler, journal, network, observer, most_memory);
    match served {
        Ok(()) => Ok(()),
        Err(_) => Err(Broken),
    }
}
