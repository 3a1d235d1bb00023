//! A stored document.

ghost use Rattle.std.specs.Prelude.{◌≡◌, ◌≢◌, true, None, IfErr, IfOk, OnErr, OnOk, length, map, string_bytes};
ghost use Rattle.definitions.specs.Caches.{IsUsed};
ghost use Rattle.definitions.specs.Documents.{resources_of};
ghost use Rattle.definitions.specs.Patterns.{regular_search};
ghost use Rattle.definitions.specs.Reach.{holds_resource};
ghost use Rattle.definitions.specs.Scanning.{scan_fault};
ghost use Rattle.definitions.specs.Schemas.{document_from};
ghost use Rattle.definitions.specs.Searches.{is_regular};
ghost use Rattle.definitions.specs.Texts.{text};
ghost use Rattle.definitions.specs.Uris.{recompose};
ghost use Rattle.faults.specs.View.{fault_view};
ghost use Rattle.json_doc.specs.Docs.{value};
ghost use Rattle.shared_cache.specs.Readings.{is_read_as, read_value};
ghost use Rattle.shared_cache.specs.Refusals.{Refuses};

use crate::resources::Resources;
use faults::Fault;
use json_doc::Doc;
use schema_scan::canonical;
use shared_cache::{Cache, Key};
use std::alloc::Global;
use std::rc::Rc;
use uri_ref::Parts;

/// A document that the scan found no fault in and whose patterns were built, as its key, with its resources' URIs.
///
/// The key's text is all that is held of its value: a cache is asked for what is compiled, by the key. Contracts see the
/// document by `stored_view`.
#[derive(Drop)]
pub struct Stored {
    key: Rc<Key>,
    canonical: String,
    // In the order of a walk.
    resources: Resources,
    ghost reads_back: { is_read_as key.value.1 (read_value key.value.1) ≡ true },
    ghost compact: { key.value.1 ≡ text (read_value key.value.1) },
    ghost faultless: { scan_fault key.value.0 (read_value key.value.1) ≡ None },
    ghost regular: { is_regular regular_search (read_value key.value.1) ≡ true },
    ghost named: { string_bytes canonical
        ≡ (document_from key.value.0 (read_value key.value.1)).canonical },
    ghost opened: { resources ≡ resources_of (document_from key.value.0 (read_value key.value.1)) },
}

impl Stored {
    ghost use Rattle.stored_documents.specs.StoredDocuments.{stored_view};

    /// The document under this base, as the cache scans and compiles it.
    ///
    /// The faults are those of [`Cache::compiled`], in the same order.
    pub fn of(
        alloc: Global,
        cache: &mut Cache,
        base: &Parts,
        document: &Doc,
    ) -> Result<Stored, Fault>
        ensures ok { IfOk result
            (λ s. stored_view s ≡ document_from (recompose base.now) (value document.now)) }
        ensures err { IfErr result
            (λ f. f ≢ Fault.NoRoom → Refuses (recompose base.now) (value document.now)
            (fault_view f)) }
        ensures used { OnOk result
            (IsUsed cache.old (recompose base.now, text (value document.now)) cache.new) }
    {
        let (key, compiled) = cache.compiled_with_key(alloc, base, document)?;
        let canonical = canonical(&compiled).to_owned(alloc)?;
        let resources = Resources::of(alloc, compiled.resource_uris())?;
        Ok(Stored {
            key,
            canonical,
            resources,
        })
    }

    /// The key under which a cache keeps what is compiled of it. Its text is read as the document's value, which has no fault.
    pub fn key(&self) -> &Rc<Key>
        ensures base { result.now.value.0 ≡ (stored_view self.now).base }
        ensures text { result.now.value.1 ≡ text (stored_view self.now).value }
        ensures spells { read_value result.now.value.1 ≡ (stored_view self.now).value }
        ensures reads_back { is_read_as result.now.value.1 (stored_view self.now).value ≡ true }
        ensures faultless { scan_fault (stored_view self.now).base
            (stored_view self.now).value ≡ None }
        ensures regular { is_regular regular_search (stored_view self.now).value ≡ true }
    {
        &self.key
    }

    /// Its canonical URI: that of its root's resource (JSON Schema 2020-12 Core, section 8.2.1).
    pub fn canonical(&self) -> &str
        ensures { result.now ≡ (stored_view self.now).canonical }
    {
        self.canonical.as_str()
    }

    /// The URIs of its resources, in the order of a walk.
    pub fn resource_uris(&self) -> &[String]
        ensures { map string_bytes result.now ≡ resources_of (stored_view self.now) }
    {
        self.resources.uris()
    }

    /// How many bytes its compact text has.
    pub fn length(&self) -> usize
        ensures { result ≡ length (text (stored_view self.now).value) }
    {
        self.key.text().len()
    }

    /// Whether one of its resources has this URI.
    pub fn holds(&self, uri: &str) -> bool
        ensures { result ≡ holds_resource uri.now (stored_view self.now) }
    {
        self.resources.contains(uri)
    }
}
