//! Claims that are made before documents are put, and that are released after documents were taken out.

ghost use Rattle.std.specs.Prelude.{◌≡◌, ◌∷◌, [], true, Contains, IfOk, OnErr, OnOk, is_some};
ghost use Rattle.definitions.specs.Documents.{resource_uris_of, resources_of};
ghost use Rattle.definitions.specs.Schemas.{Document};
ghost use Rattle.definitions.specs.Values.{Text};
ghost use Rattle.stored_documents.specs.Claims.{ClaimsOnly, claim_of, claimed_uris, claims_in};
ghost use Rattle.stored_documents.specs.DocumentLists.{documents_in};
ghost use Rattle.stored_documents.specs.SharedStored.{stored_documents};
ghost use Rattle.stored_documents.specs.StaleClaims.{Releases, StaysFresh};
ghost use Rattle.stored_documents.specs.StoredDocuments.{stored_view};

use crate::claims::claim_unclaimed;
use crate::documents::Documents;
use crate::stored::Stored;
use std::alloc::{AllocError, Global};
use std::rc::Rc;

impl Documents {
    // Makes those of the claims whose URIs nobody claims, or none of them.
    pub(crate) fn claim(
        &mut self,
        alloc: Global,
        new_claims: &[(String, Rc<Stored>)],
    ) -> Result<(), AllocError>
        ensures same { documents_in self.new ≡ documents_in self.old }
        ensures claimed { OnOk result
            ((uri claim : Text) → Contains (claims_in new_claims.now) (uri, claim)
            → is_some (claim_of self.new.claims uri) ≡ true) }
        ensures only { OnOk result
            (ClaimsOnly self.old.claims (claimed_uris new_claims.now) self.new.claims) }
        ensures fresh { OnErr result (StaysFresh self.old self.new) }
    {
        match claim_unclaimed(alloc, &mut self.claims, new_claims) {
            Ok(()) => Ok(()),
            Err(fault) => {
                self.release_new_claims(new_claims);
                Err(fault)
            }
        }
    }

    // Those that stand where the documents will be put.
    pub(crate) fn standing(
        &self,
        alloc: Global,
        documents: &[Rc<Stored>],
    ) -> Result<Vec<Rc<Stored>>, AllocError>
        ensures { IfOk result (λ found. (d e : Document)
            → Contains (documents_in self.now) d → Contains (stored_documents documents.now) e
            → e.canonical ≡ d.canonical → Contains (stored_documents found.items) d) }
    {
        let mut standing = Vec::new(alloc);
        for document in documents {
            if let Some(found) = self.find(document.canonical()) {
                standing.push(found.clone()?)?;
            }
        }
        Ok(standing)
    }

    // Releases claims that nobody has a resource for.
    pub(crate) fn release_new_claims(&mut self, new_claims: &[(String, Rc<Stored>)])
        ensures same { documents_in self.new ≡ documents_in self.old }
        ensures released { Releases self.old (claimed_uris new_claims.now) self.new }
    {
        for claim in new_claims {
            self.release(claim.0.as_str());
        }
    }

    pub(crate) fn release_documents(&mut self, documents: &[Rc<Stored>])
        ensures same { documents_in self.new ≡ documents_in self.old }
        ensures released { Releases self.old
            (resource_uris_of (stored_documents documents.now)) self.new }
    {
        for document in documents {
            self.release_document(document);
        }
    }

    pub(crate) fn release_document(&mut self, document: &Stored)
        ensures same { documents_in self.new ≡ documents_in self.old }
        ensures released { Releases self.old (resources_of (stored_view document.now)) self.new }
    {
        for uri in document.resource_uris() {
            self.release(uri.as_str());
        }
    }

    // Releases the claim of a URI where no document has a resource of it.
    #[tactic(auto, unfolding(crate::specs::DocumentLists::documents_in))]
    fn release(&mut self, uri: &str)
        ensures same { documents_in self.new ≡ documents_in self.old }
        ensures released { Releases self.old (uri.now ∷ []) self.new }
    {
        if self.holder(uri).is_none() {
            self.claims.remove(uri);
        }
    }
}
