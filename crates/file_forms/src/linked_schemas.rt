//! The schemas that instances are judged by, as the lines of an error ask for them.

use json_doc::Doc;
use linker::Linked;
use plain_reports::Schemas;
use std::alloc::Global;

/// The schemas of the documents that were linked.
#[derive(Clone, Copy)]
pub(crate) struct LinkedSchemas<'a>(pub(crate) &'a Linked);

impl Schemas for LinkedSchemas<'_> {
    fn keyword_value(&self, alloc: Global, location: &str) -> Option<&Doc> {
        let (schema, keyword) = location.rsplit_once('/')?;
        let named = self.0.named(alloc, None, "", schema).ok()??;
        named.target.schema.get(keyword)
    }
}
