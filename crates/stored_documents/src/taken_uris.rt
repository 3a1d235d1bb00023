//! Resource URIs that other documents hold.

ghost use Rattle.std.specs.Prelude.{◌≡◌};
ghost use Rattle.std.specs.List.{list_any};
ghost use Rattle.definitions.specs.Documents.{others_of};
ghost use Rattle.definitions.specs.Reach.{holds_resource};
ghost use Rattle.stored_documents.specs.DocumentLists.{documents_in};

use crate::documents::Documents;

impl Documents {
    /// Whether a document with another canonical URI has a resource of this URI.
    pub fn is_held_by_another(&self, canonical: &str, uri: &str) -> bool
        ensures { result ≡ list_any (holds_resource uri.now)
            (others_of canonical.now (documents_in self.now)) }
    {
        match self.holder(uri) {
            Some(document) => canonical != document.canonical(),
            None => false,
        }
    }
}
