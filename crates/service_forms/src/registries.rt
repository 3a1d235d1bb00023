//! Registries that serve connections side by side.
ghost use Rattle.std.specs.Prelude.{List, Result};
ghost use Rattle.connections.specs.declared.outage.Outage.{Outage};
ghost use Rattle.network.specs.Traffic.{Moved};
ghost use Rattle.service_forms.specs.Services.{ServesAlone};
ghost use Rattle.service_forms.specs.Stored.{ServesFound};
ghost use Rattle.tenant_hub.specs.Hubs.{hub_view};

use connections::Outage;
use http_front::{Hub, Journal, serve_side_by_side, serve_stored_side_by_side};
use serving_many::{Network, Observer};
use std::alloc::Global;
use stored_hub::{DocumentStore, StoredHub};

/// Registries that serve connections side by side.
pub trait Registries: Drop {
    // From what was read and written before, they serve up to such an end, and up to what was read and written then.
    ghost serves: { Self → List Moved → List Moved → Result (Unit {0}) Outage
        → List Moved → List Moved → Type 0 };

    /// Serves the connections of a network until they are over. A journal is told of each request.
    fn serve<N: Network, O: Observer, J: Journal>(
        self,
        alloc: Global,
        journal: &J,
        network: &mut N,
        observer: &mut O,
        most_memory: usize,
    ) -> Result<(), Outage>
        ensures { serves self (N.reads network.old) (N.writes network.old) result
            (N.reads network.new) (N.writes network.new) };
}

/// Each tenant is served as if it were alone.
impl Registries for Hub {
    ghost serves = { λ h. ServesAlone (hub_view h) };

    fn serve<N: Network, O: Observer, J: Journal>(
        self,
        alloc: Global,
        journal: &J,
        network: &mut N,
        observer: &mut O,
        most_memory: usize,
    ) -> Result<(), Outage> {
        match serve_side_by_side(alloc, self, journal, network, observer, most_memory) {
            Ok(()) => Ok(()),
            Err(_) => Err(Outage::Broken),
        }
    }
}

/// Each tenant is served as if it were alone. What an opening finds after a crash at any moment is behind a first part of
/// what happened, which sends all that was written; behind an end without an error it is behind all of it.
impl<D: DocumentStore + Drop> Registries for StoredHub<D> {
    ghost serves = { λ h. ServesFound D.recovers h.store (hub_view h.hub) };

    fn serve<N: Network, O: Observer, J: Journal>(
        self,
        alloc: Global,
        journal: &J,
        network: &mut N,
        observer: &mut O,
        most_memory: usize,
    ) -> Result<(), Outage> {
        let (mut hub, served) = serve_stored_side_by_side(
            alloc,
            self,
            journal,
            network,
            observer,
            most_memory,
        );
        match served {
            Ok(()) => {
                hub.close();
                Ok(())
            }
            Err(outage) => Err(outage),
        }
    }
}
