//! Documents in byte order of their canonical URIs.

ghost use Rattle.std.specs.Prelude.{◌≡◌, ◌+◌, ◌<◌, ◌≤◌, length, option_map, vec_len, IfErr, IfOk, IsOk, OnErr, OnOk};
ghost use Rattle.std.specs.Cmp.Lexicographic.{slice_cmp};
ghost use Rattle.std.specs.Ordering.{nat_cmp};
ghost use Rattle.std.specs.Vec.{vec_capacity};
ghost use Rattle.definitions.specs.Documents.{document_of, others_of, documents_with, Ascend};
ghost use Rattle.linker.specs.Positions.{StandsAt, IsGap};
ghost use Rattle.stored_documents.specs.SharedStored.{stored_documents};
ghost use Rattle.stored_documents.specs.StoredDocuments.{stored_view};

use crate::stored::Stored;
use std::alloc::AllocError;
use std::cmp::Ordering;
use std::mem;
use std::rc::Rc;

// Where the document with this canonical URI stands, or where one would be put.
pub(crate) fn position(documents: &[Rc<Stored>], uri: &str) -> Result<usize, usize>
    requires { Ascend (stored_documents documents.now) }
    ensures found { IfOk result (StandsAt (stored_documents documents.now) uri.now) }
    ensures absent { IfErr result (IsGap (stored_documents documents.now) uri.now) }
{
    documents.binary_search_by(|document| order(document, uri))
}

fn order(document: &Rc<Stored>, uri: &str) -> Ordering
    ensures { result ≡ slice_cmp nat_cmp (stored_view document.now.value).canonical uri.now }
{
    document.canonical().cmp(uri)
}

// Puts a document at its place, instead of the one with its canonical URI, which is answered. With room it can't fail.
pub(crate) fn insert_in_order(
    documents: &mut Vec<Rc<Stored>>,
    document: Rc<Stored>,
) -> Result<Option<Rc<Stored>>, AllocError>
    requires { Ascend (stored_documents documents.old.items) }
    ensures placed { OnOk result
        (stored_documents documents.new.items
        ≡ documents_with (stored_view document.value) (stored_documents documents.old.items)) }
    ensures replaced { IfOk result
        (λ o. option_map (λ s. stored_view s.value) o
        ≡ document_of (stored_documents documents.old.items)
        (stored_view document.value).canonical) }
    ensures kept { OnErr result
        (stored_documents documents.new.items ≡ stored_documents documents.old.items) }
    ensures succeeds { vec_len documents.old < vec_capacity documents.old → IsOk result }
    ensures capacity { vec_capacity documents.old ≤ vec_capacity documents.new }
    ensures len { vec_len documents.new ≤ vec_len documents.old + 1 }
{
    match position(documents, document.canonical()) {
        Ok(at) => Ok(Some(mem::replace(&mut documents[at], document))),
        Err(at) => {
            documents.insert(at, document)?;
            Ok(None)
        }
    }
}

// Takes out the document with this canonical URI.
pub(crate) fn take_out(documents: &mut Vec<Rc<Stored>>, uri: &str) -> Option<Rc<Stored>>
    requires { Ascend (stored_documents documents.old.items) }
    ensures others { stored_documents documents.new.items
        ≡ others_of uri.now (stored_documents documents.old.items) }
    ensures taken { option_map (λ s. stored_view s.value) result
        ≡ document_of (stored_documents documents.old.items) uri.now }
{
    match position(documents, uri) {
        Ok(at) => Some(documents.remove(at)),
        Err(_) => None,
    }
}
