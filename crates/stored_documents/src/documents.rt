//! The documents of a tenant.

ghost use Rattle.std.specs.Prelude.{◌≡◌, ◌^◌, ◌<◌, [], None, Some, find, if◌then◌else◌, is_some, length, option_and_then, option_map, IfErr, IfOk, OnErr, OnOk};
ghost use Rattle.definitions.specs.Batches.{repeated_uri, taken_by};
ghost use Rattle.definitions.specs.Documents.{bytes_of, document_of, documents_with, documents_with_all, others_of, taken_uri};
ghost use Rattle.definitions.specs.Keeping.{AreKept};
ghost use Rattle.definitions.specs.Patterns.{regular_search};
ghost use Rattle.definitions.specs.Reach.{holds_resource};
ghost use Rattle.stored_documents.specs.Claims.{AreClaimed, AreClaimed-prop};
ghost use Rattle.stored_documents.specs.OrderedDocuments.{ordered_documents};
ghost use Rattle.stored_documents.specs.SharedStored.{stored_documents};
ghost use Rattle.stored_documents.specs.StoredDocuments.{stored_view};

use crate::claims::{claims_to_make, make_claims, push_claims};
use crate::ordered::OrderedDocuments;
use crate::stored::Stored;
use faults::Fault;
use std::alloc::Global;
use std::collections::BTreeMap;
use std::rc::Rc;

/// Documents in byte order of their canonical URIs, no two of which hold a resource of one URI, and how many bytes their
/// compact texts have together.
///
/// A look-up by the URI of a resource doesn't grow with their number but by its logarithm. Contracts see them by
/// `documents_in`.
#[derive(Drop)]
pub struct Documents {
    ordered: OrderedDocuments,
    // By the URI of a resource, the document that claims to have it: never missing where one has it, and else stale, until
    // it is released.
    pub(crate) claims: BTreeMap<String, Rc<Stored>>,
    ghost claimed: { AreClaimed claims (ordered_documents ordered) } by { AreClaimed-prop _ _ },
}

impl Documents {
    ghost use Rattle.stored_documents.specs.DocumentLists.{documents_in};
    ghost use Rattle.stored_documents.specs.StaleClaims.{NoneIsStale, StaysFresh};

    /// No documents.
    pub fn new(alloc: Global) -> Documents
        ensures none { documents_in result ≡ [] }
        ensures fresh { NoneIsStale result }
    {
        Documents {
            ordered: OrderedDocuments::new(alloc),
            claims: BTreeMap::new(alloc),
        }
    }

    /// What holds of all of them: they are as a registry keeps its documents.
    pub fn kept(&self)
        ensures { AreKept regular_search (documents_in self.now) }
    {}

    /// How many documents there are.
    #[tactic(auto, unfolding(crate::specs::DocumentLists::documents_in))]
    pub fn len(&self) -> usize
        ensures { result ≡ length (documents_in self.now) }
    {
        self.ordered.len()
    }

    /// How many bytes their compact texts have together.
    #[tactic(auto, unfolding(crate::specs::DocumentLists::documents_in))]
    pub fn bytes(&self) -> u64
        ensures { result ≡ bytes_of (documents_in self.now) }
    {
        self.ordered.bytes()
    }

    /// The document with this canonical URI.
    #[tactic(auto, unfolding(crate::specs::DocumentLists::documents_in))]
    pub fn find(&self, canonical: &str) -> Option<&Rc<Stored>>
        ensures { option_map (λ s. stored_view s.now.value) result
            ≡ document_of (documents_in self.now) canonical.now }
    {
        self.ordered.find(canonical)
    }

    /// The document that has a resource of this URI.
    pub fn holder(&self, uri: &str) -> Option<&Rc<Stored>>
        ensures { option_map (λ s. stored_view s.now.value) result
            ≡ find (holds_resource uri.now) (documents_in self.now) }
    {
        match self.claims.get(uri) {
            Some(claim) => self.find_with(claim.canonical(), uri),
            None => None,
        }
    }

    // The document with this canonical URI, where it has a resource of the other URI.
    fn find_with(&self, canonical: &str, uri: &str) -> Option<&Rc<Stored>>
        ensures { option_map (λ s. stored_view s.now.value) result
            ≡ option_and_then (λ d. if holds_resource uri.now d then Some d else None)
            (document_of (documents_in self.now) canonical.now) }
    {
        match self.find(canonical) {
            Some(document) => {
                if document.holds(uri) {
                    Some(document)
                } else {
                    None
                }
            }
            None => None,
        }
    }

    /// Puts a document at its place, instead of the one with its canonical URI, and answers whether there was one. The only
    /// error is want of memory, and then nothing changes.
    pub fn insert(&mut self, alloc: Global, document: Rc<Stored>) -> Result<bool, Fault>
        requires free { taken_uri (documents_in self.old) (stored_view document.value) ≡ None }
        requires fits { bytes_of
            (documents_with (stored_view document.value) (documents_in self.old))
            < 2 ^ 64 }
        ensures placed { OnOk result
            (documents_in self.new ≡ documents_with (stored_view document.value)
            (documents_in self.old)) }
        ensures replaced { IfOk result
            (λ r. r ≡ is_some (document_of (documents_in self.old)
            (stored_view document.value).canonical)) }
        ensures kept { OnErr result (documents_in self.new ≡ documents_in self.old) }
        ensures err { IfErr result (λ f. f ≡ Fault.NoRoom) }
        ensures fresh { StaysFresh self.old self.new }
    {
        let mut new_claims = Vec::new(alloc);
        push_claims(alloc, &mut new_claims, &document)?;
        self.claim(alloc, &new_claims)?;
        match self.ordered.insert(document) {
            Ok(replaced) => {
                make_claims(&mut self.claims, new_claims);
                match replaced {
                    Some(replaced) => {
                        self.release_document(&replaced);
                        Ok(true)
                    }
                    None => Ok(false),
                }
            }
            Err(fault) => {
                self.release_new_claims(&new_claims);
                Err(fault)
            }
        }
    }

    /// Puts several documents at their places, as one after the other, or none of them. The only error is want of memory, and
    /// then nothing changes.
    pub fn insert_all(&mut self, alloc: Global, documents: Vec<Rc<Stored>>) -> Result<(), Fault>
        requires once { repeated_uri (stored_documents documents.items) ≡ None }
        requires free { taken_by
            (documents_with_all (stored_documents documents.items) (documents_in self.old))
            (stored_documents documents.items) ≡ None }
        requires fits { bytes_of
            (documents_with_all (stored_documents documents.items) (documents_in self.old))
            < 2 ^ 64 }
        ensures placed { OnOk result
            (documents_in self.new ≡ documents_with_all (stored_documents documents.items)
            (documents_in self.old)) }
        ensures kept { OnErr result (documents_in self.new ≡ documents_in self.old) }
        ensures err { IfErr result (λ f. f ≡ Fault.NoRoom) }
        ensures fresh { StaysFresh self.old self.new }
    {
        let replaced = self.standing(alloc, &documents)?;
        let new_claims = claims_to_make(alloc, &documents)?;
        self.claim(alloc, &new_claims)?;
        match self.ordered.insert_all(documents) {
            Ok(()) => {
                make_claims(&mut self.claims, new_claims);
                self.release_documents(&replaced);
                Ok(())
            }
            Err(fault) => {
                self.release_new_claims(&new_claims);
                Err(fault)
            }
        }
    }

    /// Takes out the document with this canonical URI, and answers whether there was one.
    pub fn remove(&mut self, canonical: &str) -> bool
        ensures others { documents_in self.new ≡ others_of canonical.now (documents_in self.old) }
        ensures removed { result ≡ is_some (document_of (documents_in self.old) canonical.now) }
        ensures fresh { StaysFresh self.old self.new }
    {
        match self.ordered.remove(canonical) {
            Some(removed) => {
                self.release_document(&removed);
                true
            }
            None => false,
        }
    }
}
