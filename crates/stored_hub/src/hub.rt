//! A hub whose documents a store keeps.

ghost use Rattle.std.specs.Prelude.{◌≡◌, List};
ghost use Rattle.definitions.specs.Services.{KeyedRegistry};
ghost use Rattle.stored_rows.specs.Restoring.{HaveDistinctDigests};
ghost use Rattle.stored_hub.specs.Storing.{Finds, IsSettled, IsSettled-prop, IsStored};
ghost use Rattle.tenant_hub.specs.Hubs.{hub_view};

use crate::digested_key::DigestedKey;
use connections::Unsettled;
use stored_rows::DocumentStore;
use tenant_hub::Hub;

/// The registries of all tenants, and a store that has a row for each of their documents.
///
/// A change is written into the store where it is granted, and is durable from the next settle on. Where it can't be
/// written, the store is behind the registries, and nothing is settled any more.
#[derive(Drop)]
pub struct StoredHub<D: DocumentStore> {
    pub(crate) hub: Hub,
    pub(crate) store: D,
    // The tenants' keys, with the digests that stand in the rows.
    pub(crate) keys: Vec<DigestedKey>,
    // Whether a change may have been written since the last commit.
    pub(crate) is_dirty: bool,
    // How many changes were granted, modulo 2^64.
    pub(crate) changes: u64,
    // Why a change couldn't be written or committed, where one couldn't.
    pub(crate) behind: Option<Unsettled>,
    ghost distinct: { HaveDistinctDigests (hub_view hub) },
    ghost stored: { ∥ IsStored D.holds store behind (hub_view hub) ∥₁ },
    ghost settled: { IsSettled D.recovers store is_dirty (hub_view hub) } by { IsSettled-prop D.recovers store is_dirty (hub_view hub) },
}

impl<D: DocumentStore> StoredHub<D> {
    /// The registries.
    pub fn hub(&self) -> &Hub
        ensures { hub_view result.now ≡ hub_view self.now.hub }
    {
        &self.hub
    }

    /// At a graceful end, behind the last settle: leaves the store's file alone with all that is kept, where that can be
    /// had. Nothing is settled from here on.
    pub fn close(&mut self)
        ensures state { hub_view self.new.hub ≡ hub_view self.old.hub }
        ensures found { (ks : List KeyedRegistry)
            → Finds D.recovers self.new.store (hub_view self.new.hub) ks
            → Finds D.recovers self.old.store (hub_view self.old.hub) ks }
    {
        self.behind = Some(Unsettled::Behind);
        self.is_dirty = true;
        self.store.close();
    }

    /// The store as it is, with what was written since the last settle, which isn't made durable.
    pub fn into_store(self) -> D
        ensures { result ≡ self.store }
    {
        let StoredHub { store, .. } = self;
        store
    }
}
