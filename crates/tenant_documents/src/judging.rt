//! What a document that is put is refused for.

ghost use Rattle.std.specs.Prelude.{◌≡◌, ◌≢◌, None, Some, IfErr, OnOk, option_map};
ghost use Rattle.definitions.specs.Documents.{documents_with};
ghost use Rattle.definitions.specs.Lists.{first};
ghost use Rattle.definitions.specs.Patterns.{regular_search};
ghost use Rattle.definitions.specs.Registries.{put_refusal, quota_faults};
ghost use Rattle.faults.specs.View.{fault_view};
ghost use Rattle.stored_documents.specs.StoredDocuments.{stored_view};
ghost use Rattle.tenant_documents.specs.Registries.{registry_view};

use crate::quotas::quota_fault;
use crate::registry::Registry;
use crate::taken_uris::taken_uri;
use requests::Fault;
use std::alloc::Global;
use stored_documents::Stored;

impl Registry {
    // Refuses a document of which the scan found no fault and whose patterns were built.
    pub(crate) fn judge(&self, alloc: Global, document: &Stored) -> Result<(), Fault>
        ensures ok { OnOk result (put_refusal regular_search (registry_view self.now)
            (stored_view document.now)
            (documents_with (stored_view document.now) (registry_view self.now).documents) ≡ None) }
        ensures err { IfErr result (λ f. f ≢ Fault.NoRoom
            → put_refusal regular_search (registry_view self.now)
            (stored_view document.now)
            (documents_with (stored_view document.now) (registry_view self.now).documents)
            ≡ Some (fault_view f)) }
    {
        if self.is_in_library(alloc, document.canonical())? {
            return Err(Fault::LibraryOwned);
        }
        if let Some(uri) = taken_uri(alloc, self, document)? {
            return Err(Fault::Taken(uri.to_owned(alloc)?));
        }
        match self.put_quota_fault(document) {
            Some(fault) => Err(fault),
            None => Ok(()),
        }
    }

    // The first quota that the documents with this one would be over.
    fn put_quota_fault(&self, document: &Stored) -> Option<Fault>
        ensures { option_map fault_view result ≡ first (quota_faults (registry_view self.now)
            (documents_with (stored_view document.now) (registry_view self.now).documents)) }
    {
        let length = document.length() as u64;
        let count = self.documents.len();
        let bytes = self.documents.bytes();
        match self.documents.find(document.canonical()) {
            Some(old) => {
                let others = bytes - old.length() as u64;
                quota_fault(self, count, others.checked_add(length))
            }
            None => quota_fault(self, count + 1, bytes.checked_add(length)),
        }
    }
}
