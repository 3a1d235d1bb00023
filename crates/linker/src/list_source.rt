//! A source that is a list.

ghost use Rattle.std.specs.Prelude.{◌≡◌, [], None, Some, IfOk, IfSome, OnErr, false, true, find, if◌then◌else◌, not, option_map};
ghost use Rattle.std.proofs.Props.{props};
ghost use Rattle.std.specs.List.{list_all, list_any};
ghost use Rattle.std.specs.List.Sorted.{IsStrictlySortedBy-prop};
ghost use Rattle.definitions.specs.Values.{same_text};
ghost use Rattle.definitions.specs.Lists.{has_repeat};
ghost use Rattle.definitions.specs.Documents.{documents_with, resource_uris_of, Ascend, is_faultless};
ghost use Rattle.definitions.specs.Reach.{holds_resource};
ghost use Rattle.definitions.specs.Scanning.{scan_fault};
ghost use Rattle.schema_scan.specs.CompiledDocuments.{compiled_base, compiled_value, compiled_view};
ghost use Rattle.linker.specs.CompoundDocuments.{compound_documents};
ghost use Rattle.linker.specs.SharedDocuments.{shared_documents};
ghost use Rattle.linker.specs.Sources.{shares_resource};
ghost use Rattle.linker.specs.ValueSets.{value_set};
ghost use Rattle.linker.specs.Visits.{EmbedAlike, with_compound};

use crate::compound_documents::CompoundDocuments;
use crate::holders::{asked_holder, holder};
use crate::insertion::insert_in_order;
use schema_scan::Compiled;
use std::alloc::{AllocError, Global};
use std::rc::Rc;

/// Documents in a list. A look-up by the URI of a resource doesn't grow with their number but by its logarithm.
///
/// Contracts see them by `listed_documents`.
#[derive(Drop)]
pub struct ListSource {
    // In byte order of canonical URIs.
    pub(crate) documents: Vec<Rc<Compiled>>,
    // Those of them that have several resources. Nothing once memory ran out for that, and then each document is asked.
    pub(crate) compound: Option<CompoundDocuments>,
    ghost ascend: { Ascend (shared_documents documents.items) } by { IsStrictlySortedBy-prop _ _ },
    ghost distinct: { has_repeat same_text (resource_uris_of (shared_documents documents.items))
        ≡ false },
    ghost known: { IfSome compound
        (λ c. EmbedAlike (shared_documents documents.items) (compound_documents c)) } by { Prim.hlevel (props, value_set) },
    ghost faultless: { list_all is_faultless (shared_documents documents.items) ≡ true },
}

impl ListSource {
    ghost use Rattle.linker.specs.ListedDocuments.{listed_documents};

    /// A source without documents.
    pub fn new(alloc: Global) -> ListSource
        ensures { listed_documents result ≡ [] }
    {
        ListSource {
            documents: Vec::new(alloc),
            compound: Some(CompoundDocuments::new(alloc)),
        }
    }

    /// Adds a document, and answers whether it was added: it isn't where one of its resources has the URI of a resource of
    /// a document that is there. The only error is want of memory. Where it isn't added nothing changes.
    pub fn add(&mut self, document: Rc<Compiled>) -> Result<bool, AllocError>
        ensures ok { IfOk result
            (λ added. added ≡ not (shares_resource (listed_documents self.old)
            (compiled_view document.value))) }
        ensures added { IfOk result
            (λ added. listed_documents self.new
            ≡ (if added then documents_with (compiled_view document.value)
            (listed_documents self.old) else listed_documents self.old)) }
        ensures kept { OnErr result (listed_documents self.new ≡ listed_documents self.old) }
    {
        if self.shares_resource(checked(&document)) {
            return Ok(false);
        }
        let again = document.clone()?;
        let compound = self.compound.take();
        let added = insert_in_order(&mut self.documents, document)?;
        self.compound = with_document(*self.documents.allocator(), compound, &again);
        Ok(added)
    }

    // Whether some resource of the document is held by one of these.
    fn shares_resource(&self, document: &Compiled) -> bool
        ensures { result
            ≡ shares_resource (listed_documents self.now) (compiled_view document.now) }
    {
        document.resource_uris().iter().any(|uri| self.is_held(uri))
    }

    fn is_held(&self, uri: &str) -> bool
        ensures { result ≡ list_any (holds_resource uri.now) (listed_documents self.now) }
    {
        self.holder(uri).is_some()
    }

    // The document that has a resource of this URI.
    pub(crate) fn holder(&self, resource: &str) -> Option<&Rc<Compiled>>
        ensures { option_map (λ d. compiled_view d.now.value) result
            ≡ find (holds_resource resource.now) (listed_documents self.now) }
    {
        match &self.compound {
            Some(compound) => holder(&self.documents, compound, resource),
            None => asked_holder(&self.documents, resource),
        }
    }
}

// The documents that have several resources, and also this one if it has several. Nothing where memory runs out, or did so
// before.
fn with_document(
    alloc: Global,
    compound: Option<CompoundDocuments>,
    document: &Rc<Compiled>,
) -> Option<CompoundDocuments>
    ensures { IfSome result (λ c. option_map
        (λ o. with_compound (compiled_view document.now.value) (compound_documents o)) compound
        ≡ Some (compound_documents c)) }
{
    let mut compound = compound?;
    match compound.add(alloc, document) {
        Ok(()) => Some(compound),
        Err(_) => None,
    }
}

// The document as it is. The contract says that the scan found no fault in it.
fn checked(document: &Compiled) -> &Compiled
    ensures same { result.now ≡ document.now }
    ensures faultless { scan_fault (compiled_base document.now) (compiled_value document.now)
        ≡ None }
{
    let _ = document.document();
    document
}
