//! A tenant's documents, and the library's, as a source.

ghost use Rattle.std.specs.Prelude.{◌≡◌};
ghost use Rattle.definitions.specs.Registries.{documents_seen};
ghost use Rattle.tenant_documents.specs.Registries.{registry_view};

use crate::registry::Registry;
use crate::tenant_source::TenantSource;
use linker::{Both, ListSource, Source};
use shared_cache::Cache;

impl Registry {
    /// The documents that references run over: the tenant's, compiled by way of the cache, and the library's.
    pub fn source<'a>(&'a self, cache: &'a mut Cache) -> Both<TenantSource<'a>, &'a ListSource>
        ensures { ⟦<Both<TenantSource<'a>, &'a ListSource> as Source>⟧.documents result
            ≡ documents_seen (registry_view self.now) }
    {
        Both::new(TenantSource::new(&self.documents, cache), &self.library)
    }
}
