//! A tenant's registry.

ghost use Rattle.std.specs.Prelude.{◌≡◌, false, length, nat_lt};
ghost use Rattle.std.specs.List.{list_any};
ghost use Rattle.definitions.specs.Documents.{bytes_of};
ghost use Rattle.linker.specs.ListedDocuments.{listed_documents};
ghost use Rattle.linker.specs.Sources.{shares_resource};
ghost use Rattle.stored_documents.specs.DocumentLists.{documents_in};
ghost use Rattle.stored_documents.specs.StaleClaims.{NoneIsStale, NoneIsStale-prop};

use linker::ListSource;
use std::alloc::Global;
use std::rc::Rc;
use stored_documents::Documents;

/// The documents of a tenant, within its quotas, beside a library that is every tenant's.
///
/// Contracts see it by `registry_view`.
#[derive(Drop)]
pub struct Registry {
    pub(crate) documents: Documents,
    pub(crate) library: Rc<ListSource>,
    pub(crate) most_documents: u32,
    pub(crate) most_bytes: u64,
    ghost few: { nat_lt most_documents (length (documents_in documents)) ≡ false },
    ghost small: { nat_lt most_bytes (bytes_of (documents_in documents)) ≡ false },
    ghost apart: { list_any (shares_resource (documents_in documents))
        (listed_documents library.value) ≡ false },
    ghost fresh: { NoneIsStale documents } by { NoneIsStale-prop _ },
}

impl Registry {
    ghost use Rattle.definitions.specs.Tenants.{empty_registry};
    ghost use Rattle.tenant_documents.specs.Registries.{registry_view, quotas};

    /// No documents yet. At most so many may be put, whose compact texts have at most so many bytes together; the library's
    /// don't count.
    #[tactic(auto, unfolding(crate::specs::Registries::registry_view))]
    pub fn new(
        library: Rc<ListSource>,
        most_documents: u32,
        most_bytes: u64,
        alloc: Global,
    ) -> Registry
        ensures { registry_view result
            ≡ empty_registry (listed_documents library.value) (quotas most_documents most_bytes) }
    {
        Registry {
            documents: Documents::new(alloc),
            library,
            most_documents,
            most_bytes,
        }
    }
}
