//! What linked documents are.

ghost use Rattle.std.specs.Prelude.{◌≡◌, IfOk, map, option_map, string_bytes};
ghost use Rattle.std.specs.Cmp.Lexicographic.{slice_cmp};
ghost use Rattle.std.specs.List.Sorted.{IsStrictlySortedBy};
ghost use Rattle.std.specs.Ordering.{nat_cmp};
ghost use Rattle.definitions.specs.Documents.{document_of, canonicals};
ghost use Rattle.json_doc.specs.Docs.{value};
ghost use Rattle.linker.specs.LinkedDocuments.{linked_uri, linked_documents};
ghost use Rattle.linker.specs.SharedDocuments.{shared_documents};

use crate::insertion::position;
use crate::linked::Linked;
use json_doc::Doc;
use schema_scan::{Compiled, canonical};
use std::alloc::{AllocError, Global};
use std::rc::Rc;

/// The canonical URIs of the linked documents (JSON Schema 2020-12 Core, section 8.2.1), in byte order, each once. The only
/// error is want of memory.
pub fn reached(alloc: Global, linked: &Linked) -> Result<Vec<String>, AllocError>
    ensures ok { IfOk result
        (λ uris. map string_bytes uris.items ≡ canonicals (linked_documents linked.now)) }
    ensures ascending { IfOk result
        (λ uris. IsStrictlySortedBy (slice_cmp nat_cmp) (map string_bytes uris.items)) }
{
    canonical_uris(alloc, &linked.documents)
}

/// The linked documents, in byte order of their canonical URIs.
#[tactic(auto, unfolding(crate::specs::LinkedDocuments::linked_documents))]
pub fn documents(linked: &Linked) -> &[Rc<Compiled>]
    ensures { shared_documents result.now ≡ linked_documents linked.now }
{
    &linked.documents
}

/// The URI of the resource that was linked.
#[tactic(auto, unfolding(crate::specs::LinkedDocuments::linked_uri))]
pub fn asked(linked: &Linked) -> &str
    ensures { result.now ≡ linked_uri linked.now }
{
    &linked.uri
}

/// The value of the linked document that has this canonical URI, where one has.
pub fn value_of<'a>(linked: &'a Linked, canonical: &str) -> Option<&'a Doc>
    ensures { option_map (λ d. value d.now) result
        ≡ option_map (λ d. d.value) (document_of (linked_documents linked.now) canonical.now) }
{
    match position(&linked.documents, canonical) {
        Ok(at) => Some(linked.documents[at].document()),
        Err(_) => None,
    }
}

fn canonical_uris(alloc: Global, documents: &[Rc<Compiled>]) -> Result<Vec<String>, AllocError>
    ensures { IfOk result
        (λ uris. map string_bytes uris.items ≡ canonicals (shared_documents documents.now)) }
{
    let mut uris = Vec::with_capacity(alloc, documents.len())?;
    for document in documents {
        uris.push(canonical(document).to_owned(alloc)?)?;
    }
    Ok(uris)
}
