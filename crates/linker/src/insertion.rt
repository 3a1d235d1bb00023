//! Documents in byte order of their canonical URIs.

ghost use Rattle.std.specs.Prelude.{◌≡◌, IfErr, IfOk, OnErr, if◌then◌else◌, is_none};
ghost use Rattle.std.specs.Cmp.Lexicographic.{slice_cmp};
ghost use Rattle.std.specs.Ordering.{nat_cmp};
ghost use Rattle.definitions.specs.Documents.{document_of, documents_with, Ascend};
ghost use Rattle.schema_scan.specs.CompiledDocuments.{compiled_view};
ghost use Rattle.linker.specs.Positions.{StandsAt, IsGap};
ghost use Rattle.linker.specs.SharedDocuments.{shared_documents};

use schema_scan::{Compiled, canonical};
use std::alloc::AllocError;
use std::cmp::Ordering;
use std::rc::Rc;

// Where the document with this canonical URI stands, or where one would be put.
pub(crate) fn position(documents: &[Rc<Compiled>], uri: &str) -> Result<usize, usize>
    requires { Ascend (shared_documents documents.now) }
    ensures found { IfOk result (StandsAt (shared_documents documents.now) uri.now) }
    ensures absent { IfErr result (IsGap (shared_documents documents.now) uri.now) }
{
    documents.binary_search_by(|document| order(document, uri))
}

// Puts a document at its place, unless one with its canonical URI stands there. Answers whether it was put.
pub(crate) fn insert_in_order(
    documents: &mut Vec<Rc<Compiled>>,
    document: Rc<Compiled>,
) -> Result<bool, AllocError>
    requires { Ascend (shared_documents documents.old.items) }
    ensures absent { IfOk result
        (λ put. put ≡ is_none (document_of (shared_documents documents.old.items)
        (compiled_view document.value).canonical)) }
    ensures put { IfOk result
        (λ put. shared_documents documents.new.items
        ≡ (if put then documents_with (compiled_view document.value)
        (shared_documents documents.old.items) else shared_documents documents.old.items)) }
    ensures kept { OnErr result
        (shared_documents documents.new.items ≡ shared_documents documents.old.items) }
{
    match position(documents, canonical(&document)) {
        Ok(_) => Ok(false),
        Err(at) => {
            documents.insert(at, document)?;
            Ok(true)
        }
    }
}

fn order(document: &Rc<Compiled>, uri: &str) -> Ordering
    ensures { result ≡ slice_cmp nat_cmp (compiled_view document.now.value).canonical uri.now }
{
    canonical(document).cmp(uri)
}
