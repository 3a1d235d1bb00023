//! The library's documents, by their URIs.

ghost use Rattle.std.specs.Prelude.{◌≡◌, IfOk, find, option_map};
ghost use Rattle.definitions.specs.Reach.{holds_resource};
ghost use Rattle.definitions.specs.Registries.{is_in_library};
ghost use Rattle.linker.specs.ListedDocuments.{listed_documents};
ghost use Rattle.schema_scan.specs.CompiledDocuments.{compiled_view};
ghost use Rattle.tenant_documents.specs.Registries.{registry_view};

use crate::registry::Registry;
use linker::{ListSource, Source};
use requests::Fault;
use schema_scan::{Compiled, canonical};
use std::alloc::{AllocError, Global};
use std::rc::Rc;

impl Registry {
    // Whether the library has a document with this canonical URI. The only error is want of memory.
    pub(crate) fn is_in_library(
        &self,
        alloc: Global,
        canonical_uri: &str,
    ) -> Result<bool, AllocError>
        ensures { IfOk result (λ there. there
            ≡ is_in_library (registry_view self.now) canonical_uri.now) }
    {
        match library_holder(&self.library, alloc, canonical_uri)? {
            Some(document) => Ok(canonical_uri == canonical(&document)),
            None => Ok(false),
        }
    }
}

// The library's document that has a resource of this URI. The only error is want of memory.
pub(crate) fn library_holder(
    library: &ListSource,
    alloc: Global,
    uri: &str,
) -> Result<Option<Rc<Compiled>>, AllocError>
    ensures { IfOk result (λ d. option_map (λ it. compiled_view it.value) d
        ≡ find (holds_resource uri.now) (listed_documents library.now)) }
{
    let mut source = library;
    Source::holding(&mut source, alloc, uri)
}
