//! The URIs of a document's resources.

ghost use Rattle.std.specs.Prelude.{◌≡◌, IfOk, map, string_bytes};
ghost use Rattle.std.specs.List.{list_any};
ghost use Rattle.definitions.specs.Values.{same_text};
ghost use Rattle.stored_documents.specs.TextSets.{IsLookedUp};

use crate::resource_texts::{copied, text_set};
use std::alloc::{AllocError, Global};
use std::collections::BTreeSet;
use std::marker::Model;

// How many URIs are looked through one by one. Most documents have fewer resources, and then need no set.
const FEW: usize = 8;

// Texts that can be looked up.
//
// Contracts see them as the list of them.
#[derive(Drop)]
pub(crate) struct Resources {
    uris: Vec<String>,
    // The URIs in byte order, where there are more than a few.
    set: BTreeSet<String>,
}

impl Model for Resources {
    ghost use Rattle.std.specs.Prelude.{List, length, map, string_bytes};
    ghost use Rattle.definitions.specs.Values.{Text};
    ghost use Rattle.stored_documents.specs.TextSets.{IsLookedUp};

    ghost Value = { List Text };

    ghost view = { λ r. map string_bytes r.uris.items };

    ghost invariant = { λ r. IsLookedUp r.set (map string_bytes r.uris.items) };
}

impl Resources {
    pub(crate) fn of(alloc: Global, uris: &[String]) -> Result<Resources, AllocError>
        ensures { IfOk result (λ r. r ≡ map string_bytes uris.now) }
    {
        let set = set_of(alloc, uris)?;
        let uris = copied(alloc, uris)?;
        Ok(Resources { uris, set })
    }

    pub(crate) fn uris(&self) -> &[String]
        ensures { map string_bytes result.now ≡ self.now }
    {
        self.uris.as_slice()
    }

    pub(crate) fn contains(&self, uri: &str) -> bool
        ensures { result ≡ list_any (same_text uri.now) self.now }
    {
        if self.uris.len() <= FEW {
            is_among(&self.uris, uri)
        } else {
            self.set.contains(uri)
        }
    }
}

// The texts in order, to look up, where there are more than a few.
fn set_of(alloc: Global, uris: &[String]) -> Result<BTreeSet<String>, AllocError>
    ensures { IfOk result (λ set. IsLookedUp set (map string_bytes uris.now)) }
{
    if uris.len() <= FEW {
        Ok(BTreeSet::new(alloc))
    } else {
        text_set(alloc, uris)
    }
}

fn is_among(uris: &[String], uri: &str) -> bool
    ensures { result ≡ list_any (λ u. same_text uri.now (string_bytes u)) uris.now }
{
    uris.iter().any(|own| uri == own.as_str())
}
