//! Resource URIs of documents that are put together, and who else has them.

ghost use Rattle.std.specs.Prelude.{◌≡◌, ◌++◌, List, None, false, filter, IfErr, IfOk, map, option_map};
ghost use Rattle.std.specs.List.{list_any};
ghost use Rattle.definitions.specs.Batches.{repeated_uri, taken_by};
ghost use Rattle.definitions.specs.Documents.{canonicals, documents_of_both, documents_with_all, resource_uris_of};
ghost use Rattle.definitions.specs.Registries.{is_in_library};
ghost use Rattle.definitions.specs.Values.{Text};
ghost use Rattle.stored_documents.specs.SharedStored.{stored_documents};
ghost use Rattle.tenant_documents.specs.HeldBeside.{IsSetOf, is_held_beside};
ghost use Rattle.tenant_documents.specs.Registries.{registry_view};

use crate::batch_uris::{canonical_uris, has_text, resource_uris, text_set};
use crate::library_documents::library_holder;
use crate::registry::Registry;
use crate::repeated_texts::least_repeat;
use requests::Fault;
use std::alloc::Global;
use std::collections::BTreeSet;
use std::rc::Rc;
use stored_documents::Stored;

impl Registry {
    // The least resource URI of the documents that another document has once they are put. The only error is want of memory.
    pub(crate) fn taken_together<'a>(
        &'a self,
        alloc: Global,
        documents: &'a [Rc<Stored>],
    ) -> Result<Option<&'a str>, Fault>
        requires once { repeated_uri (stored_documents documents.now) ≡ None }
        requires unowned { list_any (λ d. is_in_library (registry_view self.now) d.canonical)
            (stored_documents documents.now) ≡ false }
        ensures ok { IfOk result (λ t. option_map (λ t. t.now) t
            ≡ taken_by (documents_of_both (registry_view self.now).library
            (documents_with_all (stored_documents documents.now)
            (registry_view self.now).documents))
            (stored_documents documents.now)) }
        ensures err { IfErr result (λ f. f ≡ Fault.NoRoom) }
    {
        let uris = self.claimed_uris(alloc, documents)?;
        Ok(least_repeat(alloc, &uris)?)
    }

    // All resource URIs of the documents, and then once more those that a document has that stays.
    fn claimed_uris<'a>(
        &'a self,
        alloc: Global,
        documents: &'a [Rc<Stored>],
    ) -> Result<Vec<&'a str>, Fault>
        ensures ok { IfOk result (λ uris. map (λ t. t.now) uris.items
            ≡ resource_uris_of (stored_documents documents.now)
            ++ filter (is_held_beside (registry_view self.now)
            (canonicals (stored_documents documents.now)))
            (resource_uris_of (stored_documents documents.now))) }
        ensures err { IfErr result (λ f. f ≡ Fault.NoRoom) }
    {
        let replaced = canonical_uris(alloc, documents)?;
        let replaced = text_set(alloc, &replaced)?;
        let mut uris = resource_uris(alloc, documents)?;
        let mut held = self.held_uris(alloc, &replaced, &uris)?;
        uris.append(&mut held)?;
        Ok(uris)
    }

    // Those of the URIs that a document has that stays, where documents with these canonical URIs are put.
    fn held_uris<'a>(
        &'a self,
        alloc: Global,
        replaced: &BTreeSet<&'a str>,
        uris: &[&'a str],
    ) -> Result<Vec<&'a str>, Fault>
        ensures ok { IfOk result (λ held. (texts : List Text) → IsSetOf replaced.now texts
            → map (λ t. t.now) held.items
            ≡ filter (is_held_beside (registry_view self.now) texts) (map (λ t. t.now) uris.now)) }
        ensures err { IfErr result (λ f. f ≡ Fault.NoRoom) }
    {
        let mut held = Vec::new(alloc);
        for uri in uris {
            if self.is_held_beside(alloc, replaced, uri)? {
                held.push(*uri)?;
            }
        }
        Ok(held)
    }

    // Whether a document that stays has a resource of the URI.
    fn is_held_beside<'a>(
        &'a self,
        alloc: Global,
        replaced: &BTreeSet<&'a str>,
        uri: &str,
    ) -> Result<bool, Fault>
        ensures ok { IfOk result (λ held. (texts : List Text) → IsSetOf replaced.now texts
            → held ≡ is_held_beside (registry_view self.now) texts uri.now) }
        ensures err { IfErr result (λ f. f ≡ Fault.NoRoom) }
    {
        match self.documents.holder(uri) {
            Some(own) => Ok(!has_text(replaced, own.canonical())),
            None => Ok(library_holder(&self.library, alloc, uri)?.is_some()),
        }
    }
}
