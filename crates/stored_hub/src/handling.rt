//! A stored hub as what answers the requests of connections.

ghost use Rattle.std.specs.Prelude.{◌≡◌, List};
ghost use Rattle.definitions.specs.Patterns.{regular_search};
ghost use Rattle.definitions.specs.Services.{IsCallAnswer, KeyedRegistry};
ghost use Rattle.stored_hub.specs.Storing.{Finds};
ghost use Rattle.tenant_hub.specs.Hubs.{hub_view};

use crate::hub::StoredHub;
use crate::writing::{is_change, write_change};
use connections::{Handler, Unsettled};
use requests::{Reply, Request};
use std::alloc::Global;
use stored_rows::{DocumentStore, StoreFault};

impl<D: DocumentStore> Handler for StoredHub<D> {
    ghost State = { List KeyedRegistry };

    ghost state = { λ s. hub_view s.hub };

    ghost answers = { λ ks key q r ls. IsCallAnswer regular_search ks (key, q) r ls };

    ghost finds = { λ s ks. Finds D.recovers s.store (hub_view s.hub) ks };

    fn apply(&mut self, alloc: Global, key: &str, request: &Request<'_>) -> Reply {
        let reply = self.hub.apply(alloc, key, request);
        if is_change(&reply) {
            self.is_dirty = true;
            self.changes = self.changes.wrapping_add(1);
            if self.behind.is_none() {
                match write_change(alloc, &mut self.store, &self.hub, &self.keys, key, &reply) {
                    Ok(()) => {}
                    Err(fault) => self.behind = Some(unsettled(fault)),
                }
            }
        }
        reply
    }

    fn settle(&mut self) -> Result<(), Unsettled> {
        if let Some(why) = self.behind {
            return Err(why);
        }
        if !self.is_dirty {
            return Ok(());
        }
        match self.store.commit() {
            Ok(()) => {
                self.is_dirty = false;
                Ok(())
            }
            Err(fault) => {
                let why = unsettled(fault);
                self.behind = Some(why);
                Err(why)
            }
        }
    }

    fn reuse(&mut self, reply: Reply) {
        self.hub.reuse(reply);
    }

    fn changes(&self) -> u64 {
        self.changes
    }
}

// Why a change isn't kept.
fn unsettled(fault: StoreFault) -> Unsettled {
    match fault {
        StoreFault::NoRoom => Unsettled::NoRoom,
        StoreFault::Full => Unsettled::Full,
        StoreFault::Failed | StoreFault::Damaged => Unsettled::Failed,
    }
}
