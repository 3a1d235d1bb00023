//! The documents that references of linked documents lead to, by number.

ghost use Rattle.linker.specs.CompoundDocuments.{compound_documents};
ghost use Rattle.linker.specs.SharedDocuments.{shared_documents};
ghost use Rattle.linker.specs.Visits.{AreSearchable};

use crate::compound_documents::CompoundDocuments;
use crate::holders::holder_number;
use schema_scan::Compiled;
use std::alloc::{AllocError, Global};
use std::rc::Rc;

// For each document: for each reference of its first resource, by the number of its text, the number of the document that it
// leads to (JSON Schema 2020-12 Core, section 8.2.3). Where one document is linked, there is nothing to be told.
pub(crate) fn target_documents(
    alloc: Global,
    documents: &[Rc<Compiled>],
    compound: &CompoundDocuments,
) -> Result<Vec<Vec<Option<usize>>>, AllocError>
    requires { AreSearchable (shared_documents documents.now) (compound_documents compound.now) }
{
    let mut targets = Vec::new(alloc);
    if documents.len() > 1 {
        for document in documents {
            targets.push(targets_of(alloc, documents, compound, document)?)?;
        }
    }
    Ok(targets)
}

// Those of one document.
fn targets_of(
    alloc: Global,
    documents: &[Rc<Compiled>],
    compound: &CompoundDocuments,
    document: &Compiled,
) -> Result<Vec<Option<usize>>, AllocError>
    requires { AreSearchable (shared_documents documents.now) (compound_documents compound.now) }
{
    let mut numbers = Vec::new(alloc);
    if let Some(resource) = document.resource_uris().first() {
        for text in document.reference_texts() {
            numbers.push(target_document(
                documents,
                compound,
                document,
                resource.as_str(),
                text.as_str(),
            ))?;
        }
    }
    Ok(numbers)
}

// The number of the document that a reference in the resource with this URI leads to, where it was read and a document has it.
fn target_document(
    documents: &[Rc<Compiled>],
    compound: &CompoundDocuments,
    document: &Compiled,
    resource: &str,
    reference: &str,
) -> Option<usize>
    requires { AreSearchable (shared_documents documents.now) (compound_documents compound.now) }
{
    let named = document.absolute_reference(resource, reference)?;
    holder_number(documents, compound, named.uri.as_str())
}
