//! Files and folders.

ghost use Rattle.std.specs.Prelude.{◌≡◌, ⊤, List, IfErr, IfOk, IfSome, OnOk, codes, map, string_bytes};
ghost use Rattle.definitions.specs.Values.{Text};
ghost use Rattle.file_forms.specs.Refusals.{IsUnread, IsUnwritten};

use crate::trouble::Trouble;
use std::alloc::Global;
use std::io::Read;

/// The files that a path names, and the folders below it that cannot be read, or not whole.
#[derive(Drop)]
pub struct Found {
    pub files: Vec<String>,
    pub unread: Vec<String>,
}

/// Files and folders, by their paths.
///
/// Contracts see whether the file at a path holds a text by `holds`, whether a path names files with some endings by `lists`,
/// whether the program runs in a folder by `runs_in`, and whether a file was given a text by `has_written`.
pub trait Folders {
    ghost holds: { Self → Text → Text → Type 0 } = { λ _ _ _. ⊤ };

    ghost lists: { Self → Text → List Text → List Text → Type 0 } = { λ _ _ _ _. ⊤ };

    ghost runs_in: { Self → Text → Type 0 } = { λ _ _. ⊤ };

    ghost has_written: { Self → Text → Text → Type 0 } = { λ _ _ _. ⊤ };

    /// A file that is open to be read.
    type File: Read + Drop;

    /// The file of the path; or, where that is a folder, the files below it whose names have one of these endings, in byte
    /// order of paths. Folders that are symbolic links aren't entered, files that are such links stand under their names, and
    /// pipes and devices are passed over. Want of memory ends it.
    fn files_of(&self, alloc: Global, path: &str, endings: &[&str]) -> Result<Found, Trouble>
        ensures ok { IfOk result (λ found. lists self.now path.now (map (λ e. e.now) endings.now)
            (map (λ f. string_bytes f) found.files.items)) }
        ensures err { IfErr result (IsUnread path.now) };

    /// The file at `path`, open to be read.
    fn open(&self, alloc: Global, path: &str) -> Result<Self::File, Trouble>
        ensures ok { IfOk result (λ file.
            IfSome (Self.File.remaining file) (holds self.now path.now)) }
        ensures err { IfErr result (IsUnread path.now) };

    /// All bytes of the file at `path`.
    fn read(&self, alloc: Global, path: &str) -> Result<Vec<u8>, Trouble>
        ensures ok { IfOk result (λ bytes. holds self.now path.now bytes.items) }
        ensures err { IfErr result (IsUnread path.now) };

    /// Writes a file, in place of what it held.
    fn write(&self, alloc: Global, path: &str, text: &str) -> Result<(), Trouble>
        ensures ok { OnOk result (has_written self.now path.now text.now) }
        ensures err { IfErr result (IsUnwritten path.now) };

    /// The path of the folder that the program runs in.
    fn current(&self, alloc: Global) -> Result<String, Trouble>
        ensures ok { IfOk result (λ folder. runs_in self.now (string_bytes folder)) }
        ensures err { IfErr result (IsUnread (codes ".")) };
}
