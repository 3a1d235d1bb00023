//! Documents of several resources, by the URIs of these (JSON Schema 2020-12 Core, section 9.3).

ghost use Rattle.std.specs.Prelude.{◌≡◌, ◌++◌, ◌∷◌, [], Some, None, OnOk, drop, find, if◌then◌else◌, length, map, nat_lt, option_map, string_bytes, take, true};
ghost use Rattle.std.specs.BTreeMap.{get_by_text};
ghost use Rattle.std.specs.List.{list_any, position_from};
ghost use Rattle.std.specs.Option.{option_or};
ghost use Rattle.definitions.specs.Documents.{resources_of};
ghost use Rattle.definitions.specs.Values.{Text, same_text};
ghost use Rattle.schema_scan.specs.CompiledDocuments.{compiled_view};
ghost use Rattle.linker.specs.SharedDocuments.{shared_documents};
ghost use Rattle.linker.specs.Sources.{embeds};
ghost use Rattle.linker.specs.Visits.{with_compound};

use crate::holders::{embedding_number, numbered};
use schema_scan::Compiled;
use std::alloc::{AllocError, Global};
use std::collections::BTreeMap;
use std::mem::replace;
use std::rc::Rc;

/// How many documents are asked one after the other.
const ASKED: usize = 4;

/// Documents of several resources, in the order in which they came. To find the one that has a resource takes hardly longer with a
/// thousand of them than with a few: the first four are asked one after the other, and of the others it is looked up.
///
/// Contracts see the documents by `compound_documents`.
#[derive(Drop)]
pub(crate) struct CompoundDocuments {
    documents: Vec<Rc<Compiled>>,
    /// Of those behind the first four, the number of the first that has a resource, by its URI.
    numbers: BTreeMap<String, usize>,
    ghost by_uri: { (uri : Text) → get_by_text numbers uri
        ≡ position_from (embeds uri) 4 (drop 4 (shared_documents documents.items)) },
}

impl CompoundDocuments {
    ghost use Rattle.linker.specs.CompoundDocuments.{compound_documents};

    /// None. This takes no memory.
    #[tactic(auto, unfolding(crate::specs::SharedDocuments::shared_documents, crate::specs::CompoundDocuments::compound_documents))]
    pub(crate) fn new(alloc: Global) -> CompoundDocuments
        ensures { compound_documents result ≡ [] }
    {
        CompoundDocuments {
            documents: Vec::new(alloc),
            numbers: BTreeMap::new(alloc),
        }
    }

    /// Adds a document, if it has several resources. The only error is want of memory, after which nothing is said of what is there:
    /// who meets it lets these go.
    pub(crate) fn add(&mut self, alloc: Global, document: &Rc<Compiled>) -> Result<(), AllocError>
        ensures ok { OnOk result (compound_documents self.new
            ≡ with_compound (compiled_view document.now.value) (compound_documents self.old)) }
    {
        if document.resource_uris().len() > 1 {
            self.push(alloc, document.clone()?)?;
        }
        Ok(())
    }

    // Adds a document of several resources.
    fn push(&mut self, alloc: Global, document: Rc<Compiled>) -> Result<(), AllocError>
        requires { nat_lt 1 (length (resources_of (compiled_view document.value))) ≡ true }
        ensures { OnOk result (compound_documents self.new
            ≡ compound_documents self.old ++ compiled_view document.value ∷ []) }
    {
        let CompoundDocuments {
            mut documents,
            mut numbers,
        } = replace(self, CompoundDocuments::new(alloc));
        let number = documents.len();
        if number >= ASKED {
            number_uris(alloc, &mut numbers, document.resource_uris(), number)?;
        }
        documents.push(document)?;
        *self = CompoundDocuments { documents, numbers };
        Ok(())
    }

    /// The first that has a resource of this URI.
    pub(crate) fn holder(&self, uri: &str) -> Option<&Rc<Compiled>>
        ensures { option_map (λ d. compiled_view d.now.value) result
            ≡ find (embeds uri.now) (compound_documents self.now) }
    {
        numbered(&self.documents, self.number(uri))
    }

    // Its number.
    fn number(&self, uri: &str) -> Option<usize>
        ensures { result ≡ position_from (embeds uri.now) 0 (compound_documents self.now) }
    {
        match self.asked_number(uri) {
            Some(number) => Some(number),
            None => self.numbers.get(uri).copied(),
        }
    }

    // The number of the first of those that are asked one after the other.
    fn asked_number(&self, uri: &str) -> Option<usize>
        ensures { result ≡ position_from (embeds uri.now) 0 (take 4 (compound_documents self.now)) }
    {
        embedding_number(&self.documents[..ASKED.min(self.documents.len())], uri)
    }
}

// Gives this number to those of the URIs that have none.
fn number_uris(
    alloc: Global,
    numbers: &mut BTreeMap<String, usize>,
    uris: &[String],
    number: usize,
) -> Result<(), AllocError>
    ensures { OnOk result ((uri : Text) → get_by_text numbers.new uri
        ≡ option_or (get_by_text numbers.old uri)
        (if list_any (same_text uri) (map string_bytes uris.now) then Some number else None)) }
{
    for uri in uris {
        number_uri(alloc, numbers, uri, number)?;
    }
    Ok(())
}

fn number_uri(
    alloc: Global,
    numbers: &mut BTreeMap<String, usize>,
    uri: &str,
    number: usize,
) -> Result<(), AllocError>
    ensures { OnOk result ((other : Text) → get_by_text numbers.new other
        ≡ option_or (get_by_text numbers.old other)
        (if same_text other uri.now then Some number else None)) }
{
    if !numbers.contains_key(uri) {
        numbers.insert(uri.to_owned(alloc)?, number)?;
    }
    Ok(())
}
