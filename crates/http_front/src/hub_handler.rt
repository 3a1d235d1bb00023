//! A hub as what answers the requests of connections.

ghost use Rattle.std.specs.Prelude.{◌≡◌, List};
ghost use Rattle.definitions.specs.Services.{KeyedRegistry};
ghost use Rattle.http_front.specs.Calls.{call_answers};
ghost use Rattle.tenant_hub.specs.Hubs.{hub_view};

use connections::{Handler, Unsettled};
use requests::{Reply, Request};
use std::alloc::Global;
use tenant_hub::Hub;

/// What answers by a hub.
pub trait HasHub {
    /// The hub.
    fn hub(&self) -> &Hub;
}

/// A hub that answers the requests of connections, each by the registry of its key. It keeps nothing for an opening to
/// find.
#[derive(Drop)]
pub struct HubHandler {
    hub: Hub,
}

impl HubHandler {
    ghost use Rattle.http_front.specs.HubAnswers.{handler_view};

    /// Over this hub.
    pub fn new(hub: Hub) -> HubHandler
        ensures { handler_view result ≡ hub_view hub }
    {
        HubHandler { hub }
    }
}

impl HasHub for HubHandler {
    fn hub(&self) -> &Hub {
        &self.hub
    }
}

impl Handler for HubHandler {
    ghost State = { List KeyedRegistry };

    ghost state = { λ s. hub_view s.hub };

    ghost answers = { call_answers };

    ghost finds = { λ s ks. ⊥ };

    ghost keeps = { ⊥ };

    fn apply(&mut self, alloc: Global, key: &str, request: &Request<'_>) -> Reply {
        self.hub.apply(alloc, key, request)
    }

    fn settle(&mut self) -> Result<(), Unsettled> {
        Ok(())
    }

    fn reuse(&mut self, reply: Reply) {
        self.hub.reuse(reply);
    }
}
