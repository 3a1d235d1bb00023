//! References of linked documents by number.

ghost use Rattle.std.specs.Prelude.{◌≡◌, [], Contains, IfSome, IsTrue, Some, codes, find, is_some, option_and_then, option_map, slice_get, true};
ghost use Rattle.definitions.specs.Reach.{holds_resource};
ghost use Rattle.definitions.specs.Scanning.{resource_uris};
ghost use Rattle.definitions.specs.Schemas.{Schema};
ghost use Rattle.definitions.specs.Values.{text_at};
ghost use Rattle.linker.specs.LinkedDocuments.{linked_documents, linked_schemas};
ghost use Rattle.linker.specs.ReferenceNumbers.{StandsIn, document_at, pair_in, reference_pair};
ghost use Rattle.schema_scan.specs.ReferenceTexts.{HasReference};
ghost use Rattle.schema_scan.specs.CompiledDocuments.{compiled_schemas, compiled_texts};

use crate::holders::holder_number;
use crate::linked::Linked;
use schema_scan::Compiled;

/// A reference of linked documents: the number of the document that it stands in, and there those of its resource's URI and of
/// its text.
///
/// Contracts see the two texts, by `reference_pair`.
#[derive(Clone, Copy, Debug)]
pub struct ReferenceNumber {
    pub(crate) document: usize,
    pub(crate) resource: usize,
    pub(crate) text: usize,
}

impl ReferenceNumber {
    /// The number of the document that it stands in.
    #[inline(always)]
    pub fn document(self) -> usize
        ensures { result ≡ self.document }
    {
        self.document
    }

    /// The number of its text among the references of its document.
    #[inline(always)]
    pub fn text(self) -> usize
        ensures { result ≡ self.text }
    {
        self.text
    }

    /// The numbers of its document, its resource and its text, by which it can be kept in a map.
    pub fn parts(self) -> (usize, usize, usize)
        ensures { result ≡ (self.document, self.resource, self.text) }
    {
        (self.document, self.resource, self.text)
    }

    /// Whether it is the same reference.
    #[inline(always)]
    pub fn is(self, other: ReferenceNumber) -> bool
        ensures { result ≡ true → self ≡ other }
    {
        self.text == other.text
            && self.resource == other.resource
            && self.document == other.document
    }
}

impl Linked {
    /// The number of the only document, where one is linked.
    #[inline(always)]
    pub fn only_number(&self) -> Option<usize>
        ensures stands { (s : Schema) → Contains (linked_schemas self.now) s
            → IfSome result (StandsIn self.now s) }
        ensures there { IfSome result (λ n. IsTrue (is_some (document_at self.now n))) }
    {
        if self.documents.as_slice().len() == 1 {
            Some(0)
        } else {
            None
        }
    }

    /// The number of the document that has a resource with this URI, which is compared with those of the documents.
    pub fn document_number(&self, uri: &str) -> Option<usize>
        ensures { option_and_then (slice_get (linked_documents self.now)) result
            ≡ find (holds_resource uri.now) (linked_documents self.now) }
    {
        holder_number(self.documents.as_slice(), &self.compound, uri)
    }

    /// The number of a reference of the document's schemas: its text, and the URI of the resource that it stands in. Both are told
    /// by the bytes in which they differ from others of the document: of a reference that no schema of it has it answers nothing, or
    /// some number. It takes no memory.
    pub fn reference_number(
        &self,
        document: usize,
        resource: &str,
        reference: &str,
    ) -> Option<ReferenceNumber>
        ensures { (s : Schema) → StandsIn self.now s document → s.resource ≡ resource.now
            → HasReference s reference.now
            → IfSome result (λ n. reference_pair self.now n ≡ Some (resource.now, reference.now)) }
    {
        let compiled = self.document(document)?;
        Some(ReferenceNumber {
            document,
            resource: compiled.resource_number(resource),
            text: compiled.reference_number(reference),
        })
    }

    /// The URI of the resource that the reference of this number stands in, and its text.
    #[tactic(auto, unfolding(crate::specs::ReferenceNumbers::reference_pair))]
    pub fn reference(&self, number: ReferenceNumber) -> Option<(&str, &str)>
        ensures { option_map (λ r. (r.0.now, r.1.now)) result ≡ reference_pair self.now number }
    {
        match self.document(number.document) {
            Some(document) => pair_in(document, number.resource, number.text),
            None => None,
        }
    }

    /// The number of the document that the reference of this number leads to, where that was found when the documents were linked.
    pub fn target_document(&self, number: ReferenceNumber) -> Option<usize> {
        if number.resource == 0 {
            *self
                .target_documents
                .get(number.document)?
                .get(number.text)?
        } else {
            None
        }
    }

    /// The URI of the resource that a schema with this `$id` opens, where one document is linked, and the `$id` is told from all
    /// others by the bytes in which they differ.
    pub fn resource_identified(&self, id: &str) -> Option<&str>
        ensures { (s : Schema) → Contains (linked_schemas self.now) s → s.pointer ≡ []
            → text_at (codes "$id") s.value ≡ Some id.now
            → IfSome result (λ uri. uri.now ≡ s.resource) }
    {
        if self.documents.as_slice().len() != 1 {
            return None;
        }
        self.document(0)?.resource_identified(id)
    }

    // The document of this number.
    #[tactic(auto, unfolding(crate::specs::ReferenceNumbers::document_at))]
    pub(crate) fn document(&self, number: usize) -> Option<&Compiled>
        ensures { option_map (λ d. d.now) result ≡ document_at self.now number }
    {
        match self.documents.get(number) {
            Some(document) => Some(document),
            None => None,
        }
    }
}

// The resource's URI and the reference's text of these numbers.
#[tactic(auto, unfolding(crate::specs::ReferenceNumbers::pair_in))]
fn pair_in(document: &Compiled, resource: usize, text: usize) -> Option<(&str, &str)>
    ensures { option_map (λ r. (r.0.now, r.1.now)) result ≡ pair_in resource text document.now }
{
    match uri_in(document, resource) {
        Some(uri) => match text_in(document, text) {
            Some(text) => Some((uri, text)),
            None => None,
        },
        None => None,
    }
}

// The reference's text of this number.
fn text_in(document: &Compiled, number: usize) -> Option<&str>
    ensures { option_map (λ t. t.now) result ≡ slice_get (compiled_texts document.now) number }
{
    Some(document.reference_texts().get(number)?.as_str())
}

fn uri_in(document: &Compiled, number: usize) -> Option<&str>
    ensures { option_map (λ u. u.now) result
        ≡ slice_get (resource_uris (compiled_schemas document.now)) number }
{
    Some(document.resource_uris().get(number)?.as_str())
}
