//! The document of a list that holds a resource.

ghost use Rattle.std.specs.Prelude.{◌≡◌, Contains, Some, false, find, option_and_then, option_map, slice_get};
ghost use Rattle.std.specs.List.{list_any, position_from};
ghost use Rattle.definitions.specs.Documents.{Ascend};
ghost use Rattle.definitions.specs.Lists.{has_repeat};
ghost use Rattle.definitions.specs.Reach.{holds_resource};
ghost use Rattle.definitions.specs.Scanning.{resource_uris};
ghost use Rattle.definitions.specs.Schemas.{table_of};
ghost use Rattle.definitions.specs.Values.{same_text};
ghost use Rattle.schema_scan.specs.CompiledDocuments.{compiled_view};
ghost use Rattle.linker.specs.CompoundDocuments.{compound_documents};
ghost use Rattle.linker.specs.SharedDocuments.{shared_documents};
ghost use Rattle.linker.specs.Sources.{embeds};
ghost use Rattle.linker.specs.Visits.{AreCompound, AreSearchable};

use crate::compound_documents::CompoundDocuments;
use crate::insertion::position;
use schema_scan::{Compiled, canonical};
use std::rc::Rc;

// The document with a resource of this URI, where those of several resources are known: most often it is the document's
// canonical URI, so that is looked for first.
pub(crate) fn holder<'a>(
    documents: &'a [Rc<Compiled>],
    compound: &'a CompoundDocuments,
    uri: &str,
) -> Option<&'a Rc<Compiled>>
    requires { AreSearchable (shared_documents documents.now) (compound_documents compound.now) }
    ensures { option_map (λ d. compiled_view d.now.value) result
        ≡ find (holds_resource uri.now) (shared_documents documents.now) }
{
    match position(documents, uri) {
        Ok(at) => numbered(documents, Some(at)),
        Err(_) => compound.holder(uri),
    }
}

// Its number. It is called apart, since most often one document is linked.
#[inline(never)]
pub(crate) fn holder_number(
    documents: &[Rc<Compiled>],
    compound: &CompoundDocuments,
    uri: &str,
) -> Option<usize>
    requires { AreSearchable (shared_documents documents.now) (compound_documents compound.now) }
    ensures { option_and_then (slice_get (shared_documents documents.now)) result
        ≡ find (holds_resource uri.now) (shared_documents documents.now) }
{
    match position(documents, uri) {
        Ok(at) => Some(at),
        Err(_) => match compound.holder(uri) {
            Some(document) => number_of(documents, document),
            None => None,
        },
    }
}

// The number of one of the documents.
fn number_of(documents: &[Rc<Compiled>], document: &Compiled) -> Option<usize>
    requires ascend { Ascend (shared_documents documents.now) }
    requires distinct { has_repeat same_text
        (resource_uris (table_of (shared_documents documents.now))) ≡ false }
    requires inside { Contains (shared_documents documents.now) (compiled_view document.now) }
    ensures { option_and_then (slice_get (shared_documents documents.now)) result
        ≡ Some (compiled_view document.now) }
{
    match position(documents, canonical(document)) {
        Ok(at) => Some(at),
        Err(_) => None,
    }
}

// The document of a list with a resource of this URI: those of several resources are asked one after the other.
pub(crate) fn asked_holder<'a>(documents: &'a [Rc<Compiled>], uri: &str) -> Option<&'a Rc<Compiled>>
    requires ascend { Ascend (shared_documents documents.now) }
    requires distinct { has_repeat same_text
        (resource_uris (table_of (shared_documents documents.now))) ≡ false }
    ensures { option_map (λ d. compiled_view d.now.value) result
        ≡ find (holds_resource uri.now) (shared_documents documents.now) }
{
    numbered(documents, asked_number(documents, uri))
}

fn asked_number(documents: &[Rc<Compiled>], uri: &str) -> Option<usize>
    requires ascend { Ascend (shared_documents documents.now) }
    requires distinct { has_repeat same_text
        (resource_uris (table_of (shared_documents documents.now))) ≡ false }
    ensures { option_and_then (slice_get (shared_documents documents.now)) result
        ≡ find (holds_resource uri.now) (shared_documents documents.now) }
{
    match position(documents, uri) {
        Ok(at) => Some(at),
        Err(_) => embedding_number(documents, uri),
    }
}

// The number of the first document of several resources that has this one.
pub(crate) fn embedding_number(documents: &[Rc<Compiled>], uri: &str) -> Option<usize>
    ensures { result ≡ position_from (embeds uri.now) 0 (shared_documents documents.now) }
{
    documents.iter().position(|document| embeds(document, uri))
}

// The document of this number.
#[tactic(auto, unfolding(crate::specs::SharedDocuments::shared_documents))]
pub(crate) fn numbered<'a>(
    documents: &'a [Rc<Compiled>],
    number: Option<usize>,
) -> Option<&'a Rc<Compiled>>
    ensures { option_map (λ d. compiled_view d.now.value) result
        ≡ option_and_then (slice_get (shared_documents documents.now)) number }
{
    documents.get(number?)
}

fn embeds(document: &Rc<Compiled>, uri: &str) -> bool
    ensures { result ≡ embeds uri.now (compiled_view document.now.value) }
{
    document.resource_uris().len() > 1 && document.resource_uri(uri).is_some()
}

// Whether some document has a resource of this URI, where those of several resources are known.
pub(crate) fn is_reached(
    documents: &[Rc<Compiled>],
    compound: &CompoundDocuments,
    uri: &str,
) -> bool
    requires ascend { Ascend (shared_documents documents.now) }
    requires known { AreCompound (shared_documents documents.now)
        (compound_documents compound.now) }
    ensures { result ≡ list_any (holds_resource uri.now) (shared_documents documents.now) }
{
    match position(documents, uri) {
        Ok(_) => true,
        Err(_) => compound.holder(uri).is_some(),
    }
}
