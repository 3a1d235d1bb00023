//! A document is deleted.

ghost use Rattle.std.specs.Prelude.{IfErr, IfOk, string_bytes};
ghost use Rattle.definitions.specs.Patterns.{regular_search};
ghost use Rattle.definitions.specs.Registries.{delete, refused};
ghost use Rattle.definitions.specs.Runs.{IsAnswer};
ghost use Rattle.faults.specs.View.{fault_view};
ghost use Rattle.requests.specs.Views.{reply_view};
ghost use Rattle.tenant_documents.specs.Puts.{IsDeleted};
ghost use Rattle.tenant_documents.specs.Registries.{registry_view};

use crate::registry::Registry;
use requests::{Fault, Reply};
use std::alloc::Global;
use uri_ref::base_form;

impl Registry {
    /// Removes the document whose canonical URI the text gives.
    ///
    /// The first of these faults is answered, and then nothing changes: `BadUri`; `LibraryOwned` where the library has the
    /// document; `NotFound`. `NoRoom` may take the place of any answer.
    pub fn delete(&mut self, alloc: Global, uri: &str) -> Reply
        ensures { IsAnswer regular_search (registry_view self.old) (delete uri.now)
            (reply_view result) (registry_view self.new) }
    {
        match self.deleted(alloc, uri) {
            Ok(reply) => reply,
            Err(fault) => Reply::Refused(fault),
        }
    }

    fn deleted(&mut self, alloc: Global, uri: &str) -> Result<Reply, Fault>
        ensures ok { IfOk result (λ r. IsAnswer regular_search (registry_view self.old)
            (delete uri.now) (reply_view r) (registry_view self.new)) }
        ensures err { IfErr result (λ f. IsAnswer regular_search (registry_view self.old)
            (delete uri.now) (refused (fault_view f)) (registry_view self.new)) }
    {
        let base = base_form(alloc, uri)?;
        self.remove(alloc, base)
    }

    // Removes the document with this canonical URI.
    fn remove(&mut self, alloc: Global, canonical: String) -> Result<Reply, Fault>
        ensures ok { IfOk result (λ r. IsDeleted (registry_view self.old) (string_bytes canonical)
            (reply_view r) (registry_view self.new)) }
        ensures err { IfErr result (λ f. IsDeleted (registry_view self.old) (string_bytes canonical)
            (refused (fault_view f)) (registry_view self.new)) }
    {
        if self.is_in_library(alloc, canonical.as_str())? {
            return Err(Fault::LibraryOwned);
        }
        if !self.documents.remove(canonical.as_str()) {
            return Err(Fault::NotFound);
        }
        Ok(Reply::Deleted(canonical))
    }
}
