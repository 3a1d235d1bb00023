//! What documents that are put together are refused for.

ghost use Rattle.std.specs.Prelude.{◌≡◌, ◌≢◌, None, Some, IfErr, IfOk, OnOk};
ghost use Rattle.std.specs.List.{list_any};
ghost use Rattle.definitions.specs.Batches.{batch_refusal};
ghost use Rattle.definitions.specs.Documents.{documents_with_all};
ghost use Rattle.definitions.specs.Registries.{is_in_library};
ghost use Rattle.faults.specs.View.{fault_view};
ghost use Rattle.stored_documents.specs.SharedStored.{stored_documents};
ghost use Rattle.tenant_documents.specs.Registries.{registry_view};

use crate::batch_uris::repeated_uri;
use crate::registry::Registry;
use requests::Fault;
use std::alloc::Global;
use std::rc::Rc;
use stored_documents::Stored;

impl Registry {
    // Refuses documents of which the scan found no fault and whose patterns were built.
    pub(crate) fn judge_all(&self, alloc: Global, documents: &[Rc<Stored>]) -> Result<(), Fault>
        ensures ok { OnOk result
            (batch_refusal (registry_view self.now) (stored_documents documents.now)
            (documents_with_all (stored_documents documents.now) (registry_view self.now).documents)
            ≡ None) }
        ensures err { IfErr result (λ f. f ≢ Fault.NoRoom
            → batch_refusal (registry_view self.now) (stored_documents documents.now)
            (documents_with_all (stored_documents documents.now) (registry_view self.now).documents)
            ≡ Some (fault_view f)) }
    {
        if let Some(uri) = repeated_uri(alloc, documents)? {
            return Err(Fault::SameDocument(uri.to_owned(alloc)?));
        }
        if self.owns_any(alloc, documents)? {
            return Err(Fault::LibraryOwned);
        }
        if let Some(uri) = self.taken_together(alloc, documents)? {
            return Err(Fault::Taken(uri.to_owned(alloc)?));
        }
        match self.batch_quota_fault(documents) {
            Some(fault) => Err(fault),
            None => Ok(()),
        }
    }

    // Whether the library has a document with the canonical URI of one of these. The only error is want of memory.
    fn owns_any(&self, alloc: Global, documents: &[Rc<Stored>]) -> Result<bool, Fault>
        ensures ok { IfOk result (λ owned. owned
            ≡ list_any (λ d. is_in_library (registry_view self.now) d.canonical)
            (stored_documents documents.now)) }
        ensures err { IfErr result (λ f. f ≡ Fault.NoRoom) }
    {
        for document in documents {
            if self.is_in_library(alloc, document.canonical())? {
                return Ok(true);
            }
        }
        Ok(false)
    }
}
