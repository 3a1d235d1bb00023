//! Several documents are put together, or none of them.

ghost use Rattle.std.specs.Prelude.{◌≡◌, IfErr, IfOk, map};
ghost use Rattle.definitions.specs.Batches.{each_stored};
ghost use Rattle.definitions.specs.Patterns.{regular_search};
ghost use Rattle.definitions.specs.Registries.{batch, refused};
ghost use Rattle.definitions.specs.Runs.{IsAnswer};
ghost use Rattle.faults.specs.View.{fault_view};
ghost use Rattle.requests.specs.Views.{reply_view, stored_entry_view};
ghost use Rattle.stored_documents.specs.SharedStored.{stored_documents};
ghost use Rattle.stored_documents.specs.StoredDocuments.{stored_view};
ghost use Rattle.tenant_documents.specs.Batches.{IsPutTogether, stored_reply};
ghost use Rattle.tenant_documents.specs.Registries.{registry_view};

use crate::batch_entries::{EnteredBatch, entered};
use crate::registry::Registry;
use json_doc::Scratch;
use requests::{Fault, Reply, StoredEntry};
use shared_cache::Cache;
use std::alloc::Global;
use std::rc::Rc;
use stored_documents::Stored;
use tenants_file::{read_batch, read_body_with};

impl Registry {
    /// Stores the documents of a batch, `{"put":[{"schema":{},"uri":"https://ex.org/a"}]}`, each instead of the one with its
    /// canonical URI, where there is one, or none of them, and answers their canonical URIs.
    ///
    /// The first of these faults is answered, and then nothing changes: `TooLarge`, `BadJson` and `BadNumber` of the body;
    /// `BadBatch`; with the number of the entry, entry by entry, `BadUri`, the faults of the scan (JSON Schema 2020-12 Core,
    /// section 8) in their order, `BadPattern`; `SameDocument` with the least canonical URI that two entries have;
    /// `LibraryOwned` where the library has a document of one of these canonical URIs; `Taken` with the least resource URI
    /// that another document has after the batch, the tenant's or the library's; `QuotaDocuments` and `QuotaBytes` on the
    /// documents after the batch. `NoRoom` may take the place of any answer.
    ///
    /// The body is read in the memory of `scratch`, of which nothing shows in an answer.
    pub fn put_all(
        &mut self,
        alloc: Global,
        scratch: &mut Scratch,
        cache: &mut Cache,
        body: &[u8],
    ) -> Reply
        ensures { IsAnswer regular_search (registry_view self.old) (batch body.now)
            (reply_view result) (registry_view self.new) }
    {
        match self.stored_together(alloc, scratch, cache, body) {
            Ok(reply) => reply,
            Err(fault) => Reply::Refused(fault),
        }
    }

    fn stored_together(
        &mut self,
        alloc: Global,
        scratch: &mut Scratch,
        cache: &mut Cache,
        body: &[u8],
    ) -> Result<Reply, Fault>
        ensures ok { IfOk result (λ r. IsAnswer regular_search (registry_view self.old)
            (batch body.now) (reply_view r) (registry_view self.new)) }
        ensures err { IfErr result (λ f. IsAnswer regular_search (registry_view self.old)
            (batch body.now) (refused (fault_view f)) (registry_view self.new)) }
    {
        let batch = read_body_with(alloc, scratch, body)?;
        let entries = read_batch(alloc, &batch)?;
        match entered(alloc, cache, &entries)? {
            EnteredBatch::Documents(documents) => self.place_all(alloc, documents),
            EnteredBatch::Refused(number, fault) => Ok(Reply::RefusedAt(number, fault)),
        }
    }

    // Puts the documents in their places, unless they are refused there.
    fn place_all(&mut self, alloc: Global, documents: Vec<Rc<Stored>>) -> Result<Reply, Fault>
        ensures ok { IfOk result (λ r. IsPutTogether (registry_view self.old)
            (stored_documents documents.items) (reply_view r) (registry_view self.new)) }
        ensures err { IfErr result (λ f. IsPutTogether (registry_view self.old)
            (stored_documents documents.items) (refused (fault_view f)) (registry_view self.new)) }
    {
        // The number shows that what is within the quota fits 64 bits.
        let _ = self.byte_quota();
        self.judge_all(alloc, &documents)?;
        let replies = self.stored_replies(alloc, &documents)?;
        match self.documents.insert_all(alloc, documents) {
            Ok(()) => Ok(Reply::StoredAll(replies)),
            Err(fault) => Err(fault),
        }
    }

    // What is answered of documents that are put together. The only error is want of memory.
    fn stored_replies(
        &self,
        alloc: Global,
        documents: &[Rc<Stored>],
    ) -> Result<Vec<StoredEntry>, Fault>
        ensures ok { IfOk result (λ rs. map stored_entry_view rs.items
            ≡ each_stored (registry_view self.now) (stored_documents documents.now)) }
        ensures err { IfErr result (λ f. f ≡ Fault.NoRoom) }
    {
        let mut replies = Vec::with_capacity(alloc, documents.len())?;
        for document in documents {
            replies.push(self.stored_reply(alloc, document)?)?;
        }
        Ok(replies)
    }

    fn stored_reply(&self, alloc: Global, document: &Stored) -> Result<StoredEntry, Fault>
        ensures ok { IfOk result (λ r. stored_entry_view r
            ≡ stored_reply (registry_view self.now) (stored_view document.now)) }
        ensures err { IfErr result (λ f. f ≡ Fault.NoRoom) }
    {
        let canonical = document.canonical();
        Ok(StoredEntry {
            uri: canonical.to_owned(alloc)?,
            replaced: self.documents.find(canonical).is_some(),
        })
    }
}
