//! The files in which documents are kept.
ghost use Rattle.std.specs.Prelude.{◌≡◌, Bool, false, OnOk};
ghost use Rattle.definitions.specs.Values.{Text};

use document_file::OpenFault;
use stored_hub::DocumentStore;

/// Files in which documents are kept, by their paths.
///
/// Contracts see by `is_shut` which files are known not to be opened.
pub trait Stores {
    type Store: DocumentStore + Drop;

    ghost is_shut: { Self → Text → Bool } = { λ _ _. false };

    /// The store in the file at `path`, which is made where there is none.
    fn open_store(&self, path: &str) -> Result<Self::Store, OpenFault>
        ensures { OnOk result (is_shut self.now path.now ≡ false) };
}
