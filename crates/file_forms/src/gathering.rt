//! The documents that a schema's references run over.

ghost use Rattle.std.specs.Prelude.{◌≡◌, ◌≢◌, ◌⊎◌, None, Some, true, IfErr, IfOk, codes, map, option_map, string_bytes, unwrap_or};
ghost use Rattle.file_forms.specs.Gathered.{FileIsGathered, FilesAreGathered, IsAdded, IsAddedAt, IsBegun, IsFileTrouble, IsGathered, IsLibraryTrouble, IsPathTrouble, IsUnplaced, PathIsGathered, PathsAreGathered};
ghost use Rattle.file_forms.specs.Gathered.{IsLibrary, IsNoPlace, IsUnreadFolder, LiesAt};
ghost use Rattle.file_forms.specs.Refusals.{IsUnread};
ghost use Rattle.file_forms.specs.Told.{ToldUnless};
ghost use Rattle.file_checks.specs.FileSources.{file_documents};
ghost use Rattle.schema_scan.specs.CompiledDocuments.{compiled_view};

use crate::console::Console;
use crate::folders::{Folders, Found};
use crate::schema_file::SchemaFile;
use crate::trouble::Trouble;
use crate::walking::JSON;
use file_checks::{Fault, FileDocuments, absolute_path, file_uri};
use schema_scan::Compiled;
use std::alloc::{AllocError, Global};
use std::collections::BTreeSet;
use std::rc::Rc;
use uri_ref::base_form;

/// Documents, and the files that have them.
#[derive(Drop)]
pub(crate) struct Gathered {
    pub(crate) documents: FileDocuments,
    // The folder that the program runs in.
    folder: String,
    // The URIs of the files that were read, so that none is read twice.
    places: BTreeSet<String>,
    // Those that have the documents, without the library's, in the order in which they were added.
    pub(crate) files: Vec<SchemaFile>,
}

impl Gathered {
    ghost use Rattle.file_forms.specs.Roots.{folder_of, gathering_of};

    /// The documents of the library alone.
    pub(crate) fn new<F: Folders>(
        alloc: Global,
        files: &F,
        library: Option<&str>,
    ) -> Result<Gathered, Trouble>
        ensures ok { IfOk result (λ gathered. IsBegun (F.holds files.now) (F.runs_in files.now)
            (option_map (λ l. l.now) library.entry) (folder_of gathered) (gathering_of gathered)) }
        ensures err { IfErr result (λ trouble. IsLibraryTrouble (F.holds files.now)
            (option_map (λ l. l.now) library.entry) trouble ⊎ IsUnread (codes ".") trouble) }
    {
        let documents = match library_documents(alloc, files, library) {
            Ok(documents) => documents,
            Err(trouble) => return Err(trouble),
        };
        match files.current(alloc) {
            Ok(folder) => Ok(Gathered {
                documents,
                folder,
                places: BTreeSet::new(alloc),
                files: Vec::new(alloc),
            }),
            Err(trouble) => Err(trouble),
        }
    }

    /// Adds the document of the first file, under this URI or else where it lies.
    pub(crate) fn add_root<F: Folders>(
        &mut self,
        alloc: Global,
        files: &F,
        path: &str,
        uri: Option<&str>,
    ) -> Result<Rc<Compiled>, Trouble>
        ensures ok { IfOk result (λ root. IsAdded (F.holds files.now) (folder_of self.old)
            path.now (option_map (λ u. u.now) uri.entry) (compiled_view root.value)
            (gathering_of self.old) (gathering_of self.new)) }
        ensures err { IfErr result (IsFileTrouble (F.holds files.now) (folder_of self.old)
            path.now (option_map (λ u. u.now) uri.entry)) }
        ensures folder { folder_of self.new ≡ folder_of self.old }
    {
        match self.place_of(alloc, path) {
            Ok(place) => self.add_at(alloc, files, path, uri, place),
            Err(trouble) => Err(trouble),
        }
    }

    /// Adds the document of a file, where it lies, unless it was read already.
    pub(crate) fn add<F: Folders>(
        &mut self,
        alloc: Global,
        files: &F,
        path: &str,
    ) -> Result<Option<Rc<Compiled>>, Trouble>
        ensures ok { IfOk result (λ added. IsGathered (F.holds files.now) (folder_of self.old)
            path.now (option_map (λ d. compiled_view d.value) added)
            (gathering_of self.old) (gathering_of self.new)) }
        ensures err { IfErr result (IsFileTrouble (F.holds files.now) (folder_of self.old)
            path.now None) }
        ensures folder { folder_of self.new ≡ folder_of self.old }
    {
        let place = match self.place_of(alloc, path) {
            Ok(place) => place,
            Err(trouble) => return Err(trouble),
        };
        if self.places.contains(place.as_str()) {
            return Ok(None);
        }
        match self.add_at(alloc, files, path, None, place) {
            Ok(document) => Ok(Some(document)),
            Err(trouble) => Err(trouble),
        }
    }

    // Where a file lies.
    fn place_of(&self, alloc: Global, path: &str) -> Result<String, Trouble>
        ensures ok { IfOk result
            (λ place. LiesAt (folder_of self.now) path.now (string_bytes place)) }
        ensures err { IfErr result (IsUnplaced (folder_of self.now) path.now) }
    {
        match place_in(alloc, self.folder.as_str(), path) {
            Ok(place) => Ok(place),
            Err(fault) => Err(Trouble::refused(alloc, path, None, &[], fault)),
        }
    }

    // Adds the document of the file, which lies at this place, under this URI or else there.
    fn add_at<F: Folders>(
        &mut self,
        alloc: Global,
        files: &F,
        path: &str,
        uri: Option<&str>,
        place: String,
    ) -> Result<Rc<Compiled>, Trouble>
        requires { LiesAt (folder_of self.old) path.now (string_bytes place) }
        ensures ok { IfOk result (λ root. IsAddedAt (F.holds files.now) (folder_of self.old)
            path.now (string_bytes place) (option_map (λ u. u.now) uri.entry) (compiled_view root.value)
            (gathering_of self.old) (gathering_of self.new)) }
        ensures err { IfErr result (IsFileTrouble (F.holds files.now) (folder_of self.old)
            path.now (option_map (λ u. u.now) uri.entry)) }
        ensures folder { folder_of self.new ≡ folder_of self.old }
    {
        let text = match files.read(alloc, path) {
            Ok(text) => text,
            Err(trouble) => return Err(trouble),
        };
        let added = self
            .documents
            .add(alloc, uri_or(uri, place.as_str()), text.as_slice());
        match self.places.insert(place) {
            Ok(_) => {}
            Err(_) => return Err(Trouble::no_room()),
        }
        let document = match added {
            Ok(document) => document,
            Err(fault) => return Err(Trouble::refused(alloc, path, None, text.as_slice(), fault)),
        };
        match self.note(alloc, path, &document) {
            Ok(()) => Ok(document),
            Err(_) => Err(Trouble::no_room()),
        }
    }

    // Notes that the file has the document.
    fn note(&mut self, alloc: Global, path: &str, document: &Rc<Compiled>) -> Result<(), AllocError>
        ensures gathered { gathering_of self.new ≡ gathering_of self.old }
        ensures folder { folder_of self.new ≡ folder_of self.old }
    {
        let path = String::from_str(alloc, path)?;
        let document = document.clone()?;
        self.files.push(SchemaFile { path, document })?;
        Ok(())
    }

    /// Adds the documents of these files and folders, and tells of each that cannot be. Whether all were added.
    pub(crate) fn add_all<F: Folders, C: Console>(
        &mut self,
        alloc: Global,
        files: &F,
        console: &mut C,
        paths: &[&str],
    ) -> bool
        ensures gathered { result ≡ true → PathsAreGathered (F.holds files.now) (F.lists files.now)
            (folder_of self.old) (map (λ p. p.now) paths.now)
            (gathering_of self.old) (gathering_of self.new) }
        ensures told { ToldUnless (IsPathTrouble (F.holds files.now) (folder_of self.old)) result
            (C.told console.old) (C.told console.new) }
        ensures printed { C.printed console.new ≡ C.printed console.old }
    {
        let mut all = true;
        for path in paths {
            let added = self.add_path(alloc, files, console, path);
            all &= added;
        }
        all
    }

    // Adds the documents of the file or the folder, and tells of each that cannot be. Whether all were added.
    fn add_path<F: Folders, C: Console>(
        &mut self,
        alloc: Global,
        files: &F,
        console: &mut C,
        path: &str,
    ) -> bool
        ensures gathered { result ≡ true → PathIsGathered (F.holds files.now) (F.lists files.now)
            (folder_of self.old) path.now (gathering_of self.old) (gathering_of self.new) }
        ensures told { ToldUnless (IsPathTrouble (F.holds files.now) (folder_of self.old)) result
            (C.told console.old) (C.told console.new) }
        ensures folder { folder_of self.new ≡ folder_of self.old }
        ensures printed { C.printed console.new ≡ C.printed console.old }
    {
        match files.files_of(alloc, path, JSON) {
            Ok(found) => self.add_found(alloc, files, console, &found),
            Err(trouble) => {
                console.tell(&trouble);
                false
            }
        }
    }

    // Adds the documents of the files that were found, and tells of each that cannot be, and of each folder that can't be
    // read. Whether there was none.
    fn add_found<F: Folders, C: Console>(
        &mut self,
        alloc: Global,
        files: &F,
        console: &mut C,
        found: &Found,
    ) -> bool
        ensures gathered { result ≡ true → FilesAreGathered (F.holds files.now)
            (folder_of self.old) (map (λ f. string_bytes f) found.now.files.items)
            (gathering_of self.old) (gathering_of self.new) }
        ensures told { ToldUnless (IsPathTrouble (F.holds files.now) (folder_of self.old)) result
            (C.told console.old) (C.told console.new) }
        ensures folder { folder_of self.new ≡ folder_of self.old }
        ensures printed { C.printed console.new ≡ C.printed console.old }
    {
        let read = tell_unread(alloc, console, found.unread.as_slice());
        let added = self.add_files(alloc, files, console, found.files.as_slice());
        read & added
    }

    // Adds the documents of these files, and tells of each that cannot be. Whether all were added.
    fn add_files<F: Folders, C: Console>(
        &mut self,
        alloc: Global,
        files: &F,
        console: &mut C,
        paths: &[String],
    ) -> bool
        ensures gathered { result ≡ true → FilesAreGathered (F.holds files.now)
            (folder_of self.old) (map (λ p. string_bytes p) paths.now)
            (gathering_of self.old) (gathering_of self.new) }
        ensures told { ToldUnless (IsPathTrouble (F.holds files.now) (folder_of self.old)) result
            (C.told console.old) (C.told console.new) }
        ensures folder { folder_of self.new ≡ folder_of self.old }
        ensures printed { C.printed console.new ≡ C.printed console.old }
    {
        let mut all = true;
        for path in paths {
            let added = self.try_to_add(alloc, files, console, path.as_str());
            all &= added;
        }
        all
    }

    // Adds the document of the file, or tells why it cannot be. Whether it was added.
    fn try_to_add<F: Folders, C: Console>(
        &mut self,
        alloc: Global,
        files: &F,
        console: &mut C,
        path: &str,
    ) -> bool
        ensures gathered { result ≡ true → FileIsGathered (F.holds files.now)
            (folder_of self.old) path.now (gathering_of self.old) (gathering_of self.new) }
        ensures told { ToldUnless (IsPathTrouble (F.holds files.now) (folder_of self.old)) result
            (C.told console.old) (C.told console.new) }
        ensures folder { folder_of self.new ≡ folder_of self.old }
        ensures printed { C.printed console.new ≡ C.printed console.old }
    {
        match self.add(alloc, files, path) {
            Ok(_) => true,
            Err(trouble) => {
                console.tell(&trouble);
                false
            }
        }
    }
}

// Tells of each folder that it can't be read. Whether there was none.
fn tell_unread<C: Console>(alloc: Global, console: &mut C, folders: &[String]) -> bool
    ensures told { ToldUnless IsUnreadFolder result (C.told console.old) (C.told console.new) }
    ensures printed { C.printed console.new ≡ C.printed console.old }
{
    let mut all = true;
    for folder in folders {
        console.tell(&Trouble::cannot_read(alloc, folder.as_str()));
        all = false;
    }
    all
}

// The URI, or else the place.
fn uri_or<'a>(uri: Option<&'a str>, place: &'a str) -> &'a str
    ensures { result.now ≡ unwrap_or (option_map (λ u. u.now) uri.entry) place.now }
{
    match uri {
        Some(uri) => uri,
        None => place,
    }
}

// Where a file lies: its `file:` URI, without dot segments.
fn place_in(alloc: Global, folder: &str, path: &str) -> Result<String, Fault>
    ensures ok { IfOk result (λ place. LiesAt folder.now path.now (string_bytes place)) }
    ensures err { IfErr result (λ f. f ≢ Fault.NoRoom → IsNoPlace folder.now path.now f) }
{
    let path = absolute_path(alloc, folder, path)?;
    let uri = file_uri(alloc, path.as_str())?;
    base_form(alloc, uri.as_str())
}

// The documents of the library's batch, or none.
fn library_documents<F: Folders>(
    alloc: Global,
    files: &F,
    library: Option<&str>,
) -> Result<FileDocuments, Trouble>
    ensures ok { IfOk result (λ documents. IsLibrary (F.holds files.now)
        (option_map (λ l. l.now) library.entry) (file_documents documents)) }
    ensures err { IfErr result (IsLibraryTrouble (F.holds files.now)
        (option_map (λ l. l.now) library.entry)) }
{
    match library {
        None => Ok(FileDocuments::new(alloc)),
        Some(path) => documents_in(alloc, files, path),
    }
}

// The documents of the batch in the file.
fn documents_in<F: Folders>(alloc: Global, files: &F, path: &str) -> Result<FileDocuments, Trouble>
    ensures ok { IfOk result (λ documents. IsLibrary (F.holds files.now)
        (Some path.now) (file_documents documents)) }
    ensures err { IfErr result (IsLibraryTrouble (F.holds files.now) (Some path.now)) }
{
    let text = match files.read(alloc, path) {
        Ok(text) => text,
        Err(trouble) => return Err(trouble),
    };
    match FileDocuments::of_library(alloc, text.as_slice()) {
        Ok(documents) => Ok(documents),
        Err(fault) => Err(Trouble::refused(alloc, path, None, text.as_slice(), fault)),
    }
}
