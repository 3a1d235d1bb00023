//! The URIs of documents that are put together.

ghost use Rattle.std.specs.Prelude.{◌≡◌, List, IfOk, map, option_map};
ghost use Rattle.std.specs.List.{list_any};
ghost use Rattle.definitions.specs.Batches.{repeated_uri};
ghost use Rattle.definitions.specs.Documents.{canonicals, resource_uris_of};
ghost use Rattle.definitions.specs.Values.{Text, same_text};
ghost use Rattle.stored_documents.specs.SharedStored.{stored_documents};
ghost use Rattle.tenant_documents.specs.HeldBeside.{IsSetOf};

use crate::repeated_texts::{least_repeat, push_texts};
use std::alloc::{AllocError, Global};
use std::collections::BTreeSet;
use std::rc::Rc;
use stored_documents::Stored;

// The least canonical URI that two of the documents have.
pub(crate) fn repeated_uri<'a>(
    alloc: Global,
    documents: &'a [Rc<Stored>],
) -> Result<Option<&'a str>, AllocError>
    ensures { IfOk result (λ t. option_map (λ t. t.now) t
        ≡ repeated_uri (stored_documents documents.now)) }
{
    let uris = canonical_uris(alloc, documents)?;
    least_repeat(alloc, &uris)
}

pub(crate) fn canonical_uris<'a>(
    alloc: Global,
    documents: &'a [Rc<Stored>],
) -> Result<Vec<&'a str>, AllocError>
    ensures { IfOk result (λ uris. map (λ t. t.now) uris.items
        ≡ canonicals (stored_documents documents.now)) }
{
    let mut uris = Vec::with_capacity(alloc, documents.len())?;
    for document in documents {
        uris.push(document.canonical())?;
    }
    Ok(uris)
}

pub(crate) fn resource_uris<'a>(
    alloc: Global,
    documents: &'a [Rc<Stored>],
) -> Result<Vec<&'a str>, AllocError>
    ensures { IfOk result (λ uris. map (λ t. t.now) uris.items
        ≡ resource_uris_of (stored_documents documents.now)) }
{
    let mut uris = Vec::new(alloc);
    for document in documents {
        push_texts(&mut uris, document.resource_uris())?;
    }
    Ok(uris)
}

// The texts in order, to look up.
pub(crate) fn text_set<'a>(
    alloc: Global,
    texts: &[&'a str],
) -> Result<BTreeSet<&'a str>, AllocError>
    ensures { IfOk result (λ set. IsSetOf set (map (λ t. t.now) texts.now)) }
{
    let mut set = BTreeSet::new(alloc);
    for text in texts {
        set.insert(*text)?;
    }
    Ok(set)
}

pub(crate) fn has_text<'a>(set: &BTreeSet<&'a str>, text: &'a str) -> bool
    ensures { (texts : List Text) → IsSetOf set.now texts
        → result ≡ list_any (same_text text.now) texts }
{
    set.contains(&text)
}
