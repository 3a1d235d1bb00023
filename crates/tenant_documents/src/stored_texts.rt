//! The texts of a document that is stored.

ghost use Rattle.std.specs.Prelude.{◌≡◌, option_map};
ghost use Rattle.tenant_documents.specs.Registries.{registry_view};
ghost use Rattle.tenant_documents.specs.StoredTexts.{stored_texts};

use crate::registry::Registry;

impl Registry {
    /// The base and the compact text of the document with this canonical URI.
    #[tactic(auto, unfolding(crate::specs::Registries::registry_view))]
    pub fn texts_of(&self, canonical: &str) -> Option<(&str, &str)>
        ensures { option_map (λ t. (t.0.now, t.1.now)) result
            ≡ stored_texts (registry_view self.now) canonical.now }
    {
        match self.documents.find(canonical) {
            Some(document) => Some((document.key().base(), document.key().text())),
            None => None,
        }
    }
}
