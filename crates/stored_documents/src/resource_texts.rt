//! The texts of a document's resource URIs.

ghost use Rattle.std.specs.Prelude.{◌≡◌, IfOk, map, string_bytes};
ghost use Rattle.stored_documents.specs.TextSets.{IsSetOf};

use std::alloc::{AllocError, Global};
use std::collections::BTreeSet;

pub(crate) fn copied(alloc: Global, uris: &[String]) -> Result<Vec<String>, AllocError>
    ensures { IfOk result (λ copies. map string_bytes copies.items ≡ map string_bytes uris.now) }
{
    let mut copies = Vec::with_capacity(alloc, uris.len())?;
    for uri in uris {
        copies.push(uri.as_str().to_owned(alloc)?)?;
    }
    Ok(copies)
}

// The texts in order, to look up.
pub(crate) fn text_set(alloc: Global, uris: &[String]) -> Result<BTreeSet<String>, AllocError>
    ensures { IfOk result (λ set. IsSetOf set (map string_bytes uris.now)) }
{
    let mut set = BTreeSet::new(alloc);
    for uri in uris {
        set.insert(uri.as_str().to_owned(alloc)?)?;
    }
    Ok(set)
}
