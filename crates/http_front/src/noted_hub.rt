//! A hub that has each request noted.

ghost use Rattle.std.specs.Prelude.{◌≡◌};

use crate::hub_handler::HasHub;
use connections::{Exchange, Handler, Unsettled};
use requests::{Reply, Request};
use std::alloc::Global;
use tenant_hub::Hub;

/// Who is told of each request. What it does decides nothing.
pub trait Journal {
    /// What is told from here on is of this connection.
    fn take_up(&self, connection: u64);

    /// A request was answered by this hub.
    fn note(&self, hub: &Hub, exchange: &Exchange<'_>);
}

/// What answers by a hub, and tells a journal of each request.
#[derive(Drop)]
pub struct NotedHub<'a, H, J> {
    handler: H,
    journal: &'a J,
}

impl<'a, H, J> NotedHub<'a, H, J> {
    ghost use Rattle.http_front.specs.HubAnswers.{noted_handler};

    /// Over what answers.
    pub fn new(handler: H, journal: &'a J) -> NotedHub<'a, H, J>
        ensures { noted_handler result ≡ handler }
    {
        NotedHub { handler, journal }
    }

    /// What answers, once nothing more is to be noted.
    pub fn into_handler(self) -> H
        ensures { result ≡ noted_handler self.entry }
    {
        let NotedHub { handler, .. } = self;
        handler
    }
}

impl<H: Handler + HasHub, J: Journal> Handler for NotedHub<'_, H, J> {
    ghost State = { H.State };

    ghost state = { λ s. H.state s.handler };

    ghost answers = { H.answers };

    ghost finds = { λ s t. H.finds s.handler t };

    ghost keeps = { H.keeps };

    fn apply(&mut self, alloc: Global, key: &str, request: &Request<'_>) -> Reply {
        self.handler.apply(alloc, key, request)
    }

    fn settle(&mut self) -> Result<(), Unsettled> {
        self.handler.settle()
    }

    fn reuse(&mut self, reply: Reply) {
        self.handler.reuse(reply);
    }

    fn changes(&self) -> u64 {
        self.handler.changes()
    }

    fn take_up(&self, connection: u64) {
        self.journal.take_up(connection);
    }

    fn note(&self, exchange: &Exchange<'_>) {
        self.journal.note(self.handler.hub(), exchange);
    }
}
