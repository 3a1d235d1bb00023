//! A tenant's own documents as a source.

ghost use Rattle.std.specs.Prelude.{◌≡◌};

use linker::Source;
use schema_scan::Compiled;
use shared_cache::Cache;
use std::alloc::{AllocError, Global};
use std::rc::Rc;
use stored_documents::Documents;

/// A tenant's documents, compiled by way of a cache, which is borrowed for as long.
#[derive(Drop)]
pub struct TenantSource<'a> {
    documents: &'a Documents,
    cache: &'a mut Cache,
}

impl<'a> TenantSource<'a> {
    pub(crate) fn new(documents: &'a Documents, cache: &'a mut Cache) -> TenantSource<'a>
        ensures { result.documents ≡ documents.entry }
    {
        TenantSource { documents, cache }
    }
}

impl<'a> Source for TenantSource<'a> {
    ghost use Rattle.tenant_documents.specs.Sources.{source_documents, source_sound};

    ghost documents = { source_documents };

    fn holding(
        &mut self,
        alloc: Global,
        resource: &str,
    ) -> Result<Option<Rc<Compiled>>, AllocError> {
        match self.documents.holder(resource) {
            Some(stored) => match self.cache.compiled_of_key(alloc, stored.key()) {
                Ok(compiled) => Ok(Some(compiled)),
                // A stored document has no fault, and its patterns can be read.
                Err(_) => Err(AllocError),
            },
            None => Ok(None),
        }
    }

    ghost sound = { source_sound };
}
