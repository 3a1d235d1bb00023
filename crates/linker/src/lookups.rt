//! What the linked documents have under a URI and a reference (JSON Schema 2020-12 Core, section 8.2).

ghost use Rattle.std.specs.Prelude.{◌≡◌, List, false, true, Some, Ok, Err, IfOk, IfSome, IsTrue, Contains, codes, is_some, map, option_map, find, slice_get, unwrap_or, string_bytes};
ghost use Rattle.definitions.specs.Fragments.{plain_name, tokens};
ghost use Rattle.definitions.specs.Reach.{holds_resource};
ghost use Rattle.definitions.specs.Resolution.{target_uri};
ghost use Rattle.definitions.specs.Schemas.{Document, Schema, identity};
ghost use Rattle.definitions.specs.Targets.{is_dynamic_anchor, resource_root, target_by, schema_with_dynamic_anchor, dynamic_by};
ghost use Rattle.definitions.specs.Values.{Text, same_text, text_at};
ghost use Rattle.json_doc.specs.Docs.{value};
ghost use Rattle.linker.specs.DynamicTargets.{IsNamedBy, is_anchored, target_by_anchor};
ghost use Rattle.linker.specs.OpenedSchemas.{Opens};
ghost use Rattle.linker.specs.SharedDocuments.{shared_documents};
ghost use Rattle.linker.specs.LinkedDocuments.{linked_uri, linked_documents, linked_schemas};
ghost use Rattle.schema_scan.specs.Locateds.{located_view};
ghost use Rattle.schema_scan.specs.CompiledDocuments.{compiled_view};
ghost use Rattle.uri_ref.specs.AbsoluteReferences.{IsReadAs};
ghost use Rattle.uri_ref.specs.FragmentViews.{fragment_view};

use crate::holders::holder;
use crate::linked::Linked;
use crate::named::Named;
use crate::references::ReferenceNumber;
use json_doc::Doc;
use json_pointer::Pointer;
use schema_scan::{Compiled, Located};
use std::alloc::{AllocError, Global};
use uri_ref::{AbsoluteReference, FragmentKind, absolute_reference, opened_uri};

impl Linked {
    /// The root of the resource that was linked.
    pub fn root(&self, alloc: Global) -> Located<'_>
        ensures { resource_root (linked_schemas self.now) (linked_uri self.now)
            ≡ Some (located_view result) }
    {
        match self.document.numbered_root(alloc, self.number) {
            Some(root) => root,
            None => unreachable!(),
        }
    }

    /// What a reference names first (JSON Schema 2020-12 Core, section 8.2.3): the reference's text, and the URI of the
    /// resource that it stands in. By its number, where that is given, the document that it leads to is found. The only error
    /// is want of memory.
    pub fn named(
        &self,
        alloc: Global,
        number: Option<ReferenceNumber>,
        resource: &str,
        reference: &str,
    ) -> Result<Option<Named<'_>>, AllocError>
        ensures { IfOk result
            (IsNamedBy (linked_schemas self.now) (target_uri resource.now reference.now)) }
    {
        match self.known_target(number, resource, reference) {
            Some((document, named)) => self.named_in(alloc, document, named),
            None => self.named_by_texts(alloc, resource, reference),
        }
    }

    /// Whether the resource with this URI has this dynamic anchor (section 8.2.2).
    pub fn is_anchored(&self, uri: &str, name: &str) -> bool
        ensures { result ≡ is_anchored (linked_schemas self.now) name.now uri.now }
    {
        match self.dynamic_resources.get(name) {
            Some(uris) => uris.contains(uri),
            None => false,
        }
    }

    /// The schema with this dynamic anchor in the resource with this URI (section 8.2.2). The only error is want of memory.
    pub fn dynamically_anchored(
        &self,
        alloc: Global,
        uri: &str,
        name: &str,
    ) -> Result<Option<Located<'_>>, AllocError>
        ensures { IfOk result
            (λ t. option_map located_view t
            ≡ schema_with_dynamic_anchor (linked_schemas self.now) uri.now name.now) }
    {
        // Most resources are told by this look not to have it.
        if !self.is_anchored(uri, name) {
            return Ok(None);
        }
        match self.holder(uri) {
            Some(document) => document.dynamically_anchored(alloc, uri, name),
            None => Ok(None),
        }
    }

    /// The schema of this identity (section 8.2.1): the URI of the resource that it stands in, and the pointer from that
    /// resource's root. The only error is want of memory.
    pub fn schema_of(
        &self,
        alloc: Global,
        resource: &str,
        pointer: Pointer,
    ) -> Result<Option<Located<'_>>, AllocError>
        ensures ok { IfOk result
            (λ t. option_map located_view t
            ≡ target_by (linked_schemas self.now) resource.now (tokens pointer)) }
        ensures named { (s : Schema) → Contains (linked_schemas self.now) s
            → identity s ≡ (resource.now, pointer)
            → IfOk result (λ t. option_map located_view t ≡ Some s) }
    {
        self.target_by(alloc, resource, &FragmentKind::Pointer(pointer))
    }

    /// The URI of the resource that a schema opens by this `$id`, where the resource around it has this URI (section 8.2.1): both
    /// are compared with what was read. The only error is want of memory. Of texts that open no resource of these documents it
    /// answers some text.
    pub fn resource_opened(&self, alloc: Global, around: &str, id: &str) -> Result<&str, AllocError>
        ensures { (s : Schema) → Opens self.now s around.now id.now
            → IfOk result (λ uri. uri.now ≡ s.resource) }
    {
        if let Some(read) = self.absolute_reference(around, id) {
            return Ok(read.uri.as_str());
        }
        let uri = opened_uri(alloc, around, id)?;
        Ok(self.resource_uri(uri.as_str()))
    }

    // The document that has a resource with this URI.
    fn holder(&self, uri: &str) -> Option<&Compiled>
        ensures { option_map (λ d. compiled_view d.now) result
            ≡ find (holds_resource uri.now) (linked_documents self.now) }
    {
        match holder(self.documents.as_slice(), &self.compound, uri) {
            Some(document) => Some(document),
            None => None,
        }
    }

    // What a reference, or an `$id`, that stands in the resource with this URI is read as, where its document has kept that.
    fn absolute_reference(&self, resource: &str, reference: &str) -> Option<&AbsoluteReference>
        ensures { IfSome result
            (λ r. IsReadAs (target_uri resource.now reference.now) (Some r.now)) }
    {
        match self.holder(resource) {
            Some(document) => document.absolute_reference(resource, reference),
            None => None,
        }
    }

    // What an absolute reference names first.
    fn named_by(
        &self,
        alloc: Global,
        named: &AbsoluteReference,
    ) -> Result<Option<Named<'_>>, AllocError>
        ensures { (text : Text) → IsReadAs text (Some named.now)
            → IfOk result (IsNamedBy (linked_schemas self.now) text) }
    {
        match self.holder(named.uri.as_str()) {
            Some(document) => self.named_in(alloc, document, named),
            None => Ok(None),
        }
    }

    // What an absolute reference names first, whose resource this document has.
    fn named_in<'a>(
        &'a self,
        alloc: Global,
        document: &'a Compiled,
        named: &AbsoluteReference,
    ) -> Result<Option<Named<'a>>, AllocError>
        requires { Some (compiled_view document.now)
            ≡ find (holds_resource (string_bytes named.now.uri)) (linked_documents self.now) }
        ensures { (text : Text) → IsReadAs text (Some named.now)
            → IfOk result (IsNamedBy (linked_schemas self.entry.now) text) }
    {
        match self.target_in(alloc, document, named.uri.as_str(), &named.fragment)? {
            Some(target) => {
                let anchor = dynamic_anchor(&target, &named.fragment);
                Ok(Some(Named { target, anchor }))
            }
            None => Ok(None),
        }
    }

    // What a reference names first, by its texts alone.
    fn named_by_texts(
        &self,
        alloc: Global,
        resource: &str,
        reference: &str,
    ) -> Result<Option<Named<'_>>, AllocError>
        ensures { IfOk result
            (IsNamedBy (linked_schemas self.now) (target_uri resource.now reference.now)) }
    {
        if let Some(named) = self.absolute_reference(resource, reference) {
            return self.named_by(alloc, named);
        }
        match absolute_reference(alloc, resource, reference)? {
            Some(named) => self.named_by(alloc, &named),
            None => Ok(None),
        }
    }

    // What the reference with this number is read as, and the document that it leads to, where both are known.
    fn known_target(
        &self,
        number: Option<ReferenceNumber>,
        resource: &str,
        reference: &str,
    ) -> Option<(&Compiled, &AbsoluteReference)>
        ensures read { IfSome result
            (λ r. IsReadAs (target_uri resource.now reference.now) (Some r.1.now)) }
        ensures holder { IfSome result (λ r. Some (compiled_view r.0.now)
            ≡ find (holds_resource (string_bytes r.1.now.uri)) (linked_documents self.now)) }
    {
        let number = number?;
        let target = self.target_document(number)?;
        let standing = self.document(number.document)?;
        let named = standing.absolute_reference(resource, reference)?;
        let document = self.holder_at(target, named.uri.as_str())?;
        Some((document, named))
    }

    // The document of this number, where it has a resource with this URI.
    fn holder_at(&self, number: usize, uri: &str) -> Option<&Compiled>
        ensures numbered { IfSome result
            (λ d. slice_get (linked_documents self.now) number ≡ Some (compiled_view d.now)) }
        ensures holder { IfSome result (λ d. Some (compiled_view d.now)
            ≡ find (holds_resource uri.now) (linked_documents self.now)) }
    {
        let document = self.document(number)?;
        if document.resource_uri(uri).is_some() {
            Some(document)
        } else {
            None
        }
    }

    /// Whether the document of this number surely is the one that has a resource with this URI.
    pub fn is_holder(&self, number: usize, uri: &str) -> bool
        ensures { result ≡ true → slice_get (linked_documents self.now) number
            ≡ find (holds_resource uri.now) (linked_documents self.now) }
    {
        self.holder_at(number, uri).is_some()
    }

    // What the fragment names in the resource with this URI.
    fn target_by(
        &self,
        alloc: Global,
        uri: &str,
        fragment: &FragmentKind,
    ) -> Result<Option<Located<'_>>, AllocError>
        ensures { IfOk result
            (λ t. option_map located_view t
            ≡ target_by (linked_schemas self.now) uri.now (fragment_view fragment.now)) }
    {
        match self.holder(uri) {
            Some(document) => self.target_in(alloc, document, uri, fragment),
            None => Ok(None),
        }
    }

    // What the fragment names in the resource with this URI, which this document has.
    fn target_in<'a>(
        &'a self,
        alloc: Global,
        document: &'a Compiled,
        uri: &str,
        fragment: &FragmentKind,
    ) -> Result<Option<Located<'a>>, AllocError>
        requires { Some (compiled_view document.now)
            ≡ find (holds_resource uri.now) (linked_documents self.now) }
        ensures { IfOk result
            (λ t. option_map located_view t
            ≡ target_by (linked_schemas self.entry.now) uri.now (fragment_view fragment.now)) }
    {
        document.target(alloc, uri, fragment)
    }

    // The URI, as a text of the documents, where one of their resources has it, and else an empty text.
    fn resource_uri(&self, uri: &str) -> &str
        ensures { IsTrue (is_some (resource_root (linked_schemas self.now) uri.now))
            → result.now ≡ uri.now }
    {
        match self.holder(uri) {
            Some(document) => match document.resource_uri(uri) {
                Some(uri) => uri,
                None => "",
            },
            None => "",
        }
    }
}

// The dynamic anchor by which the fragment names the schema, where it does (section 8.2.3.2).
fn dynamic_anchor<'a>(target: &Located<'a>, fragment: &FragmentKind) -> Option<&'a str>
    ensures own { IfSome result (λ a. (fragment_view fragment.now ≡ plain_name a.now)
        × (is_dynamic_anchor a.now (located_view target.now) ≡ true)) }
    ensures named { (table : List Schema) (scope : List Text)
        → target_by_anchor table scope (option_map (λ a. a.now) result) (located_view target.now)
        ≡ dynamic_by table scope (located_view target.now) (Ok (fragment_view fragment.now)) }
{
    match fragment {
        FragmentKind::Name(name) => text_of_anchor(target.schema, name.as_str()),
        _ => None,
    }
}

// The schema's dynamic anchor, where it is this one (section 8.2.2).
fn text_of_anchor<'a>(schema: &'a Doc, name: &str) -> Option<&'a str>
    ensures same { IfSome result (λ a. a.now ≡ name.now) }
    ensures there { is_some result ≡ unwrap_or (option_map (same_text name.now)
        (text_at (codes "$dynamicAnchor") (value schema.now))) false }
{
    match schema.text_at("$dynamicAnchor") {
        Some(anchor) => { if anchor == name { Some(anchor) } else { None } }
        None => None,
    }
}
