//! A document is put, or put back.

ghost use Rattle.std.specs.Prelude.{IfErr, IfOk};
ghost use Rattle.definitions.specs.Patterns.{regular_search};
ghost use Rattle.definitions.specs.Registries.{put, refused};
ghost use Rattle.definitions.specs.Resolution.{base_form};
ghost use Rattle.definitions.specs.Runs.{IsAnswer};
ghost use Rattle.faults.specs.View.{fault_view};
ghost use Rattle.json_doc.specs.Docs.{value};
ghost use Rattle.requests.specs.Views.{reply_view};
ghost use Rattle.stored_documents.specs.StoredDocuments.{stored_view};
ghost use Rattle.tenant_documents.specs.Puts.{IsPut, IsPutUnder};
ghost use Rattle.tenant_documents.specs.Registries.{registry_view};

use crate::accepting::{accept, accept_document};
use crate::registry::Registry;
use json_doc::{Doc, Scratch};
use requests::{Fault, Reply};
use shared_cache::Cache;
use std::alloc::Global;
use std::rc::Rc;
use stored_documents::Stored;

impl Registry {
    /// Stores the schema document that the body spells under the URI, instead of the one with its canonical URI, where there
    /// is one, and answers this canonical URI.
    ///
    /// The first of these faults is answered, and then nothing changes: `BadUri` for a URI that nothing may be put under;
    /// `TooLarge`, `BadJson` and `BadNumber` of the body; the faults of the scan (JSON Schema 2020-12 Core, section 8) in
    /// their order; `BadPattern`; `LibraryOwned` where the library has a document of this canonical URI; `Taken` with the
    /// least resource URI that another document has, the tenant's or the library's; `QuotaDocuments` and `QuotaBytes` on the
    /// documents as they would be. `NoRoom` may take the place of any answer.
    ///
    /// The body is read in the memory of `scratch`, of which nothing shows in an answer.
    pub fn put(
        &mut self,
        alloc: Global,
        scratch: &mut Scratch,
        cache: &mut Cache,
        uri: &str,
        body: &[u8],
    ) -> Reply
        ensures { IsAnswer regular_search (registry_view self.old) (put uri.now body.now)
            (reply_view result) (registry_view self.new) }
    {
        match self.stored(alloc, scratch, cache, uri, body) {
            Ok(reply) => reply,
            Err(fault) => Reply::Refused(fault),
        }
    }

    fn stored(
        &mut self,
        alloc: Global,
        scratch: &mut Scratch,
        cache: &mut Cache,
        uri: &str,
        body: &[u8],
    ) -> Result<Reply, Fault>
        ensures ok { IfOk result (λ r. IsAnswer regular_search (registry_view self.old)
            (put uri.now body.now) (reply_view r) (registry_view self.new)) }
        ensures err { IfErr result (λ f. IsAnswer regular_search (registry_view self.old)
            (put uri.now body.now) (refused (fault_view f)) (registry_view self.new)) }
    {
        let document = accept(alloc, scratch, cache, uri, body)?;
        self.insert(alloc, document)
    }

    /// Stores a document that was read already, as [`put`](Registry::put) stores the one that a body spells.
    ///
    /// The faults are those of a put but for the body's, in the same order: `BadUri`, and from the faults of the scan on.
    /// Where one is answered, nothing changes. `NoRoom` may take the place of any answer, and `BadPattern` may be for a
    /// pattern that can be read and is too big once it is built.
    pub fn restore(&mut self, alloc: Global, cache: &mut Cache, uri: &str, document: &Doc) -> Reply
        ensures { IsPutUnder (registry_view self.old) (base_form uri.now) (value document.now)
            (reply_view result) (registry_view self.new) }
    {
        match self.restored(alloc, cache, uri, document) {
            Ok(reply) => reply,
            Err(fault) => Reply::Refused(fault),
        }
    }

    fn restored(
        &mut self,
        alloc: Global,
        cache: &mut Cache,
        uri: &str,
        document: &Doc,
    ) -> Result<Reply, Fault>
        ensures ok { IfOk result (λ r. IsPutUnder (registry_view self.old) (base_form uri.now)
            (value document.now) (reply_view r) (registry_view self.new)) }
        ensures err { IfErr result (λ f. IsPutUnder (registry_view self.old) (base_form uri.now)
            (value document.now) (refused (fault_view f)) (registry_view self.new)) }
    {
        let document = accept_document(alloc, cache, uri, document)?;
        self.insert(alloc, document)
    }

    // Puts a document in its place, unless it is refused there.
    fn insert(&mut self, alloc: Global, document: Stored) -> Result<Reply, Fault>
        ensures ok { IfOk result (λ r. IsPut (registry_view self.old) (stored_view document)
            (reply_view r) (registry_view self.new)) }
        ensures err { IfErr result (λ f. IsPut (registry_view self.old) (stored_view document)
            (refused (fault_view f)) (registry_view self.new)) }
    {
        // The number shows that what is within the quota fits 64 bits.
        let _ = self.byte_quota();
        self.judge(alloc, &document)?;
        let uri = document.canonical().to_owned(alloc)?;
        let document = match Rc::new(alloc, document) {
            Ok(document) => document,
            Err(_) => return Err(Fault::NoRoom),
        };
        match self.documents.insert(alloc, document) {
            Ok(replaced) => Ok(Reply::Stored(uri, replaced)),
            Err(fault) => Err(fault),
        }
    }
}
