//! A tenant's registry with its key.

ghost use Rattle.std.specs.Prelude.{◌≡◌, true};
ghost use Rattle.std.specs.List.{list_all};
ghost use Rattle.definitions.specs.Registries.{documents_seen};
ghost use Rattle.tenant_documents.specs.Registries.{registry_view};
ghost use Rattle.tenant_hub.specs.CachedLinks.{AreLinksOf, AreLinksOf-prop};
ghost use Rattle.tenant_hub.specs.RegisteredDocuments.{is_registered};

use crate::links::Links;
use tenant_documents::Registry;

// Each document was the body of a request, or stood in one. The links that are kept are those of its documents.
#[derive(Drop)]
pub(crate) struct KeyedRegistry {
    pub(crate) key: String,
    pub(crate) registry: Registry,
    pub(crate) links: Links,
    ghost registered: { list_all is_registered (documents_seen (registry_view registry)) ≡ true },
    ghost linked: { AreLinksOf (documents_seen (registry_view registry)) links } by { AreLinksOf-prop _ _ },
}
