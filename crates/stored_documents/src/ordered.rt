//! Documents in order.

ghost use Rattle.std.specs.Prelude.{◌≡◌, ◌^◌, ◌<◌, [], None, false, length, option_map, IfErr, IfOk, OnErr, OnOk};
ghost use Rattle.std.specs.List.Sorted.{IsStrictlySortedBy-prop};
ghost use Rattle.definitions.specs.Batches.{repeated_uri, taken_by};
ghost use Rattle.definitions.specs.Documents.{bytes_of, document_of, others_of, documents_with, documents_with_all, resource_uris_of, taken_uri, Ascend};
ghost use Rattle.definitions.specs.Keeping.{AreKept};
ghost use Rattle.definitions.specs.Lists.{has_repeat};
ghost use Rattle.definitions.specs.Patterns.{regular_search};
ghost use Rattle.definitions.specs.Values.{same_text};
ghost use Rattle.stored_documents.specs.SharedStored.{stored_documents};
ghost use Rattle.stored_documents.specs.StoredDocuments.{stored_view};

use crate::insertion::{insert_in_order, position, take_out};
use crate::stored::Stored;
use crate::together::{place_all, total_length};
use faults::Fault;
use std::alloc::Global;
use std::rc::Rc;

/// Documents in byte order of their canonical URIs, no two of which hold a resource of one URI, and how many bytes their
/// compact texts have together.
///
/// Contracts see them by `ordered_documents`.
#[derive(Drop)]
pub(crate) struct OrderedDocuments {
    stored: Vec<Rc<Stored>>,
    bytes: u64,
    ghost ascend: { Ascend (stored_documents stored.items) } by { IsStrictlySortedBy-prop _ _ },
    ghost distinct: { has_repeat same_text (resource_uris_of (stored_documents stored.items))
        ≡ false },
    ghost measured: { bytes ≡ bytes_of (stored_documents stored.items) },
}

impl OrderedDocuments {
    ghost use Rattle.stored_documents.specs.OrderedDocuments.{ordered_documents};

    /// No documents.
    #[tactic(auto, unfolding(crate::specs::OrderedDocuments::ordered_documents, crate::specs::SharedStored::stored_documents))]
    pub fn new(alloc: Global) -> OrderedDocuments
        ensures { ordered_documents result ≡ [] }
    {
        OrderedDocuments {
            stored: Vec::new(alloc),
            bytes: 0,
        }
    }

    /// What holds of all of them: they are as a registry keeps its documents.
    pub fn kept(&self)
        ensures { AreKept regular_search (ordered_documents self.now) }
    {}

    /// How many documents there are.
    pub fn len(&self) -> usize
        ensures { result ≡ length (ordered_documents self.now) }
    {
        self.stored.as_slice().len()
    }

    /// How many bytes their compact texts have together.
    #[tactic(auto, unfolding(crate::specs::OrderedDocuments::ordered_documents))]
    pub fn bytes(&self) -> u64
        ensures { result ≡ bytes_of (ordered_documents self.now) }
    {
        self.bytes
    }

    /// The document with this canonical URI.
    pub fn find(&self, canonical: &str) -> Option<&Rc<Stored>>
        ensures { option_map (λ s. stored_view s.now.value) result
            ≡ document_of (ordered_documents self.now) canonical.now }
    {
        match position(&self.stored, canonical) {
            Ok(at) => Some(&self.stored[at]),
            Err(_) => None,
        }
    }

    /// Puts a document at its place, instead of the one with its canonical URI, which is answered. The only error is want of
    /// memory, and then nothing changes.
    pub fn insert(&mut self, document: Rc<Stored>) -> Result<Option<Rc<Stored>>, Fault>
        requires free { taken_uri (ordered_documents self.old) (stored_view document.value)
            ≡ None }
        requires fits { bytes_of
            (documents_with (stored_view document.value) (ordered_documents self.old)) < 2 ^ 64 }
        ensures placed { OnOk result
            (ordered_documents self.new
            ≡ documents_with (stored_view document.value) (ordered_documents self.old)) }
        ensures replaced { IfOk result
            (λ r. option_map (λ s. stored_view s.value) r
            ≡ document_of (ordered_documents self.old) (stored_view document.value).canonical) }
        ensures kept { OnErr result (ordered_documents self.new ≡ ordered_documents self.old) }
        ensures err { IfErr result (λ f. f ≡ Fault.NoRoom) }
    {
        let length = document.length() as u64;
        match insert_in_order(&mut self.stored, document)? {
            Some(replaced) => {
                self.bytes = self.bytes - replaced.length() as u64 + length;
                Ok(Some(replaced))
            }
            None => {
                self.bytes += length;
                Ok(None)
            }
        }
    }

    /// Puts several documents at their places, as one after the other, or none of them. The only error is want of memory, and
    /// then nothing changes.
    pub fn insert_all(&mut self, documents: Vec<Rc<Stored>>) -> Result<(), Fault>
        requires once { repeated_uri (stored_documents documents.items) ≡ None }
        requires free { taken_by
            (documents_with_all (stored_documents documents.items) (ordered_documents self.old))
            (stored_documents documents.items) ≡ None }
        requires fits { bytes_of
            (documents_with_all (stored_documents documents.items) (ordered_documents self.old))
            < 2 ^ 64 }
        ensures placed { OnOk result
            (ordered_documents self.new
            ≡ documents_with_all (stored_documents documents.items) (ordered_documents self.old)) }
        ensures kept { OnErr result (ordered_documents self.new ≡ ordered_documents self.old) }
        ensures err { IfErr result (λ f. f ≡ Fault.NoRoom) }
    {
        let before = self.bytes;
        self.stored.reserve(documents.as_slice().len())?;
        let added = total_length(&documents);
        let replaced = place_all(&mut self.stored, documents);
        self.bytes = before - replaced + added;
        Ok(())
    }

    /// Takes out the document with this canonical URI.
    pub fn remove(&mut self, canonical: &str) -> Option<Rc<Stored>>
        ensures others { ordered_documents self.new
            ≡ others_of canonical.now (ordered_documents self.old) }
        ensures removed { option_map (λ s. stored_view s.value) result
            ≡ document_of (ordered_documents self.old) canonical.now }
    {
        match take_out(&mut self.stored, canonical) {
            Some(removed) => {
                self.bytes -= removed.length() as u64;
                Some(removed)
            }
            None => None,
        }
    }
}
