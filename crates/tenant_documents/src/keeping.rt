//! What holds of a registry between requests.

ghost use Rattle.definitions.specs.Keeping.{IsKept};
ghost use Rattle.definitions.specs.Patterns.{regular_search};
ghost use Rattle.tenant_documents.specs.Registries.{registry_view};

use crate::registry::Registry;

impl Registry {
    /// Its documents stand in byte order of canonical URIs, within the quotas; they and the library's have no fault, their
    /// patterns can be read, and no two of them hold a resource of one URI.
    pub fn kept(&self)
        ensures { IsKept regular_search (registry_view self.now) }
    {}
}
