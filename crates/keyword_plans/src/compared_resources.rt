//! Resources that are told by their texts.

ghost use Rattle.std.specs.Prelude.{◌≡◌, Contains, IfOk, IfSome, IsTrue, is_some, option_and_then, option_map};
ghost use Rattle.std.proofs.Props.{props};
ghost use Rattle.definitions.specs.Schemas.{Schema};
ghost use Rattle.definitions.specs.Targets.{schema_with_dynamic_anchor};
ghost use Rattle.linker.specs.LinkedDocuments.{linked_schemas};
ghost use Rattle.linker.specs.NumberedTexts.{texts_of_linked};
ghost use Rattle.linker.specs.ReferenceNumbers.{StandsIn, document_at};
ghost use Rattle.linker.specs.ValueSets.{value_set};
ghost use Rattle.keyword_plans.specs.Followed.{target_view};
ghost use Rattle.keyword_plans.specs.LinkedResources.{HasAnchor, HasNumber, HasResource};
ghost use Rattle.keyword_plans.specs.OpenedResources.{IsDocument};
ghost use Rattle.linker.specs.OpenedSchemas.{Opens};

use crate::numbered_resources::NumberedResources;
use crate::target::{Target, dynamically_anchored};
use crate::tuning::{COMPARED_FIRST, COMPARED_TIMES};
use linker::Linked;
use std::alloc::{AllocError, Global};

/// The resources of linked documents, which are told by their URIs and by the `$id`s that open them.
///
/// These texts are compared until that was much: then they are numbered, and from there on few of their bytes are looked at.
/// Before that it takes no memory.
///
/// Contracts see the documents, by `compared_in`.
#[derive(Drop)]
pub(crate) struct ComparedResources<'a> {
    linked: &'a Linked,
    // How many bytes were compared, and with how many the texts are numbered, or it is asked how many they have.
    compared: usize,
    enough: usize,
    numbered: Option<Box<NumberedResources<'a>>>,
    // The number of the document that is tried first.
    likely: usize,
    ghost same: { IfSome numbered (λ n. n.value.linked ≡ linked) } by { Prim.hlevel (props, value_set) },
}

impl<'a> ComparedResources<'a> {
    ghost use Rattle.keyword_plans.specs.ComparedIn.{compared_in};

    /// Nothing was compared yet. This takes no memory.
    pub(crate) fn new(linked: &'a Linked) -> ComparedResources<'a>
        ensures { compared_in result ≡ linked.entry }
    {
        ComparedResources {
            linked,
            compared: 0,
            enough: COMPARED_FIRST,
            numbered: None,
            likely: 0,
        }
    }

    /// The URI of the resource that a schema opens by this `$id`, where the resource around it has this URI (JSON Schema 2020-12
    /// Core, section 8.2.1). The only error is want of memory. Of texts that open no resource of the documents it answers some text.
    #[inline(never)]
    pub(crate) fn opened(
        &mut self,
        alloc: Global,
        around: &str,
        id: &str,
    ) -> Result<&'a str, AllocError>
        ensures ok { (p s : Schema) → Contains (linked_schemas (compared_in self.old).now) p
            → p.resource ≡ around.now → Opens (compared_in self.old).now s around.now id.now
            → IfOk result (λ uri. uri.now ≡ s.resource) }
        ensures linked { compared_in self.new ≡ compared_in self.old }
    {
        self.compare(alloc, around.len().saturating_add(id.len()))?;
        match &mut self.numbered {
            Some(numbered) => numbered.opened(alloc, around, id),
            None => self.linked.resource_opened(alloc, around, id),
        }
    }

    /// The number of the document that the schemas of the resource with this URI stand in. The only error is want of memory.
    #[inline(always)]
    pub(crate) fn document(&mut self, alloc: Global, uri: &str) -> Result<Option<usize>, AllocError>
        ensures stands { (s : Schema) → Contains (linked_schemas (compared_in self.old).now) s
            → s.resource ≡ uri.now
            → IfOk result (λ n. IfSome n (StandsIn (compared_in self.old).now s)) }
        ensures there { (s : Schema) → Contains (linked_schemas (compared_in self.old).now) s
            → s.resource ≡ uri.now → IfOk result
            (λ n. IsTrue (is_some (option_and_then (document_at (compared_in self.old).now) n))) }
        ensures linked { compared_in self.new ≡ compared_in self.old }
    {
        match self.linked.only_number() {
            Some(number) => Ok(Some(number)),
            None => self.document_of_several(alloc, uri),
        }
    }

    // The number of the document that the schemas of the resource with this URI stand in, where several documents are linked. The
    // only error is want of memory.
    #[inline(never)]
    fn document_of_several(&mut self, alloc: Global, uri: &str) -> Result<Option<usize>, AllocError>
        ensures ok { (s : Schema) → Contains (linked_schemas (compared_in self.old).now) s
            → s.resource ≡ uri.now → IfOk result (IsDocument (compared_in self.old).now uri.now) }
        ensures linked { compared_in self.new ≡ compared_in self.old }
    {
        self.compare(alloc, uri.len())?;
        match &mut self.numbered {
            Some(numbered) => numbered.document(uri),
            None => Ok(self.document_compared(uri)),
        }
    }

    // The same by comparing: with the document that most likely has the resource first.
    fn document_compared(&self, uri: &str) -> Option<usize>
        ensures { IsDocument (compared_in self.now).now uri.now result }
    {
        if self.linked.is_holder(self.likely, uri) {
            Some(self.likely)
        } else {
            self.linked.document_number(uri)
        }
    }

    /// The document of this number, where there is one, is tried first from here on.
    pub(crate) fn expect(&mut self, document: Option<usize>)
        ensures { compared_in self.new ≡ compared_in self.old }
    {
        self.likely = document.unwrap_or(self.likely);
    }

    /// The number of a dynamic anchor of the documents, where the texts have numbers. The only error is want of memory.
    pub(crate) fn anchor_number(
        &mut self,
        alloc: Global,
        name: &str,
    ) -> Result<Option<usize>, AllocError>
        ensures ok { HasAnchor (compared_in self.old).now name.now → IfOk result
            (HasNumber (texts_of_linked (compared_in self.old).now) name.now) }
        ensures linked { compared_in self.new ≡ compared_in self.old }
    {
        self.compare(alloc, name.len())?;
        match &self.numbered {
            Some(numbered) => Ok(Some(numbered.anchor_number(name))),
            None => Ok(None),
        }
    }

    /// The schema with this dynamic anchor, which one of the documents' resources has, in the resource with this URI (section
    /// 8.2.2). The only error is want of memory.
    pub(crate) fn anchored(
        &mut self,
        alloc: Global,
        uri: &str,
        name: &str,
    ) -> Result<Option<Target<'a>>, AllocError>
        ensures ok { HasResource (compared_in self.old).now uri.now
            → HasAnchor (compared_in self.old).now name.now
            → IfOk result (λ t. option_map target_view t
            ≡ schema_with_dynamic_anchor (linked_schemas (compared_in self.old).now)
            uri.now name.now) }
        ensures linked { compared_in self.new ≡ compared_in self.old }
    {
        self.compare(alloc, uri.len().saturating_add(name.len()))?;
        match &mut self.numbered {
            Some(numbered) => numbered.anchored(alloc, uri, name),
            None => dynamically_anchored(alloc, self.linked, uri, name),
        }
    }

    // So many bytes more are compared, unless the texts have numbers.
    fn compare(&mut self, alloc: Global, bytes: usize) -> Result<(), AllocError>
        ensures linked { compared_in self.new ≡ compared_in self.old }
    {
        self.compared = self.compared.saturating_add(bytes);
        if self.compared >= self.enough && self.numbered.is_none() {
            self.number(alloc)?;
        }
        Ok(())
    }

    // The texts are numbered, where that is worth it.
    fn number(&mut self, alloc: Global) -> Result<(), AllocError>
        ensures linked { compared_in self.new ≡ compared_in self.old }
    {
        self.enough = self.linked.text_bytes().saturating_mul(COMPARED_TIMES);
        if self.compared >= self.enough {
            let numbered = NumberedResources::of(alloc, self.linked)?;
            self.numbered = Some(Box::new(alloc, numbered)?);
        }
        Ok(())
    }
}
