//! Resources that are told by the numbers of their texts.

ghost use Rattle.std.specs.Prelude.{◌≡◌, Contains, IfOk, Some, option_map, slice_get};
ghost use Rattle.std.proofs.Props.{props};
ghost use Rattle.definitions.specs.Schemas.{Schema};
ghost use Rattle.definitions.specs.Targets.{schema_with_dynamic_anchor};
ghost use Rattle.linker.specs.LinkedDocuments.{linked_schemas};
ghost use Rattle.linker.specs.ValueSets.{value_set};
ghost use Rattle.linker.specs.NumberedTexts.{AreNumberedTexts, texts_of_linked};
ghost use Rattle.keyword_plans.specs.Followed.{target_view};
ghost use Rattle.keyword_plans.specs.LinkedResources.{HasAnchor, HasResource};
ghost use Rattle.keyword_plans.specs.OpenedResources.{AreAnchored, AreDocuments, AreOpened, IsDocument};
ghost use Rattle.linker.specs.OpenedSchemas.{Opens};

use crate::target::{Target, again, dynamically_anchored};
use linker::{Linked, LinkedTexts};
use std::alloc::{AllocError, Global};
use std::collections::BTreeMap;

/// What was asked of the resources of linked documents, under the numbers of their texts.
#[derive(Drop)]
pub(crate) struct NumberedResources<'a> {
    pub(crate) linked: &'a Linked,
    texts: LinkedTexts<'a>,
    // The URI that an `$id` opens, by the numbers of the URI around it and of the `$id`.
    opened: BTreeMap<(usize, usize), &'a str>,
    // The number of the document of a resource, by that of its URI.
    documents: BTreeMap<usize, usize>,
    // The schema with a dynamic anchor in a resource, by the numbers of the resource's URI and of the anchor.
    anchored: BTreeMap<(usize, usize), Option<Target<'a>>>,
    ghost are_numbered: { AreNumberedTexts linked.now texts },
    ghost opened_right: { AreOpened linked.now texts opened } by { Prim.hlevel (props, value_set) },
    ghost documents_right: { AreDocuments linked.now texts documents } by { Prim.hlevel (props, value_set) },
    ghost anchored_right: { AreAnchored linked.now texts anchored } by { Prim.hlevel (props, value_set) },
}

impl<'a> NumberedResources<'a> {
    /// Nothing was asked yet. The only error is want of memory.
    pub(crate) fn of(alloc: Global, linked: &'a Linked) -> Result<NumberedResources<'a>, AllocError>
        ensures { IfOk result (λ r. r.linked ≡ linked.entry) }
    {
        Ok(NumberedResources {
            linked,
            texts: linked.texts(alloc)?,
            opened: BTreeMap::new(alloc),
            documents: BTreeMap::new(alloc),
            anchored: BTreeMap::new(alloc),
        })
    }

    /// The URI of the resource that a schema opens by this `$id`, where the resource around it has this URI (JSON Schema 2020-12
    /// Core, section 8.2.1). The only error is want of memory.
    pub(crate) fn opened(
        &mut self,
        alloc: Global,
        around: &str,
        id: &str,
    ) -> Result<&'a str, AllocError>
        ensures ok { (p s : Schema) → Contains (linked_schemas self.old.linked.now) p
            → p.resource ≡ around.now → Opens self.old.linked.now s around.now id.now
            → IfOk result (λ uri. uri.now ≡ s.resource) }
        ensures linked { self.new.linked ≡ self.old.linked }
    {
        let numbers = (self.texts.number(around), self.texts.number(id));
        match self.opened.get(&numbers) {
            Some(uri) => Ok(*uri),
            None => self.open(alloc, around, id, numbers),
        }
    }

    // The URI of the resource that a schema opens by this `$id`, where the resource around it has this URI. It isn't kept yet,
    // and is kept from now on where the texts are those of these numbers.
    fn open(
        &mut self,
        alloc: Global,
        around: &str,
        id: &str,
        numbers: (usize, usize),
    ) -> Result<&'a str, AllocError>
        ensures ok { (s : Schema) → Opens self.old.linked.now s around.now id.now
            → IfOk result (λ uri. uri.now ≡ s.resource) }
        ensures linked { self.new.linked ≡ self.old.linked }
    {
        let uri = self.linked.resource_opened(alloc, around, id)?;
        if self.texts.is(numbers.0, around) && self.texts.is(numbers.1, id) {
            self.opened.insert(numbers, uri)?;
        }
        Ok(uri)
    }

    /// The number of the document of the resource with this URI. The only error is want of memory.
    pub(crate) fn document(&mut self, uri: &str) -> Result<Option<usize>, AllocError>
        ensures ok { (s : Schema) → Contains (linked_schemas self.old.linked.now) s
            → s.resource ≡ uri.now → IfOk result (IsDocument self.old.linked.now uri.now) }
        ensures linked { self.new.linked ≡ self.old.linked }
    {
        let number = self.texts.number(uri);
        match self.documents.get(&number) {
            Some(document) => Ok(Some(*document)),
            None => self.find(uri, number),
        }
    }

    // The number of the document of the resource with this URI. It isn't kept yet, and is kept from now on where the URI is that
    // of this number.
    fn find(&mut self, uri: &str, number: usize) -> Result<Option<usize>, AllocError>
        ensures ok { IfOk result (IsDocument self.old.linked.now uri.now) }
        ensures linked { self.new.linked ≡ self.old.linked }
    {
        match self.linked.document_number(uri) {
            Some(document) => {
                if self.texts.is(number, uri) {
                    self.documents.insert(number, document)?;
                }
                Ok(Some(document))
            }
            None => Ok(None),
        }
    }

    /// The number of a dynamic anchor of the documents.
    pub(crate) fn anchor_number(&self, name: &str) -> usize
        ensures { HasAnchor self.now.linked.now name.now
            → slice_get (texts_of_linked self.now.linked.now) result ≡ Some name.now }
    {
        self.texts.number(name)
    }

    /// The schema with this dynamic anchor, which one of the documents' resources has, in the resource with this URI (section
    /// 8.2.2). The only error is want of memory.
    pub(crate) fn anchored(
        &mut self,
        alloc: Global,
        uri: &str,
        name: &str,
    ) -> Result<Option<Target<'a>>, AllocError>
        ensures ok { HasResource self.old.linked.now uri.now
            → HasAnchor self.old.linked.now name.now → IfOk result (λ t. option_map target_view t
            ≡ schema_with_dynamic_anchor (linked_schemas self.old.linked.now) uri.now name.now) }
        ensures linked { self.new.linked ≡ self.old.linked }
    {
        let numbers = (self.texts.number(uri), self.texts.number(name));
        match self.anchored.get(&numbers) {
            Some(found) => again(found),
            None => self.find_anchored(alloc, uri, name, numbers),
        }
    }

    // The schema with this dynamic anchor in the resource with this URI. It isn't kept yet, and is kept from now on where the
    // texts are those of these numbers.
    fn find_anchored(
        &mut self,
        alloc: Global,
        uri: &str,
        name: &str,
        numbers: (usize, usize),
    ) -> Result<Option<Target<'a>>, AllocError>
        ensures ok { IfOk result
            (λ t. option_map target_view t
            ≡ schema_with_dynamic_anchor (linked_schemas self.old.linked.now) uri.now name.now) }
        ensures linked { self.new.linked ≡ self.old.linked }
    {
        let found = dynamically_anchored(alloc, self.linked, uri, name)?;
        if self.texts.is(numbers.0, uri) && self.texts.is(numbers.1, name) {
            let kept = again(&found)?;
            self.anchored.insert(numbers, kept)?;
        }
        Ok(found)
    }
}
