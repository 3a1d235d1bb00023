//! URIs that two documents of a library have.

ghost use Rattle.std.specs.Prelude.{◌≡◌, ◌++◌, None, true, [], IfOk, OnOk, map, option_map, string_bytes};
ghost use Rattle.std.specs.List.{list_all};
ghost use Rattle.definitions.specs.Batches.{repeated_uri, taken_by};
ghost use Rattle.definitions.specs.Documents.{canonicals, documents_with_all, is_faultless, resource_uris_of, resources_of};
ghost use Rattle.linker.specs.SharedDocuments.{shared_documents};
ghost use Rattle.schema_scan.specs.CompiledDocuments.{compiled_view};

use crate::repeated_texts::{least_repeat, push_texts};
use schema_scan::{Compiled, canonical};
use std::alloc::{AllocError, Global};
use std::rc::Rc;

// The least canonical URI that two of the documents have.
pub(crate) fn repeated_uri<'a>(
    alloc: Global,
    documents: &'a [Rc<Compiled>],
) -> Result<Option<&'a str>, AllocError>
    ensures { IfOk result (λ t. option_map (λ t. t.now) t
        ≡ repeated_uri (shared_documents documents.now)) }
{
    let uris = canonical_uris(alloc, documents)?;
    least_repeat(alloc, &uris)
}

// The least resource URI that two of the documents have.
pub(crate) fn shared_uri<'a>(
    alloc: Global,
    documents: &'a [Rc<Compiled>],
) -> Result<Option<&'a str>, AllocError>
    requires { repeated_uri (shared_documents documents.now) ≡ None }
    ensures { IfOk result (λ t. option_map (λ t. t.now) t
        ≡ taken_by (documents_with_all (shared_documents documents.now) [])
        (shared_documents documents.now)) }
{
    let uris = resource_uris(alloc, documents)?;
    least_repeat(alloc, &uris)
}

fn canonical_uris<'a>(
    alloc: Global,
    documents: &'a [Rc<Compiled>],
) -> Result<Vec<&'a str>, AllocError>
    ensures { IfOk result (λ uris. map (λ t. t.now) uris.items
        ≡ canonicals (shared_documents documents.now)) }
{
    let mut uris = Vec::with_capacity(alloc, documents.len())?;
    for document in documents {
        uris.push(canonical(document))?;
    }
    Ok(uris)
}

fn resource_uris<'a>(
    alloc: Global,
    documents: &'a [Rc<Compiled>],
) -> Result<Vec<&'a str>, AllocError>
    ensures uris { IfOk result (λ uris. map (λ t. t.now) uris.items
        ≡ resource_uris_of (shared_documents documents.now)) }
    ensures faultless { OnOk result (list_all is_faultless
        (shared_documents documents.now) ≡ true) }
{
    let mut uris = Vec::new(alloc);
    for document in documents {
        push_texts(&mut uris, resource_uris_in(document))?;
    }
    Ok(uris)
}

// A compiled document has no fault.
fn resource_uris_in(document: &Compiled) -> &[String]
    ensures uris { map string_bytes result.now ≡ resources_of (compiled_view document.now) }
    ensures faultless { is_faultless (compiled_view document.now) ≡ true }
{
    let _ = document.document();
    document.resource_uris()
}
