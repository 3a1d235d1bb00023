//! The files of the file system.

use crate::reading;
use document_file::{DocumentFile, OpenFault};
use service_forms::{Logs, Stop, Stores, Texts};
use sqlite_std_file::File;
use sqlite_store::FileStore;
use std::alloc::Global;
use std::fs::OpenOptions;
use std::rt::Files;

/// Which of the program's streams are terminals.
#[derive(Clone, Copy, Debug)]
pub struct Terminals {
    pub output: bool,
    pub errors: bool,
}

/// The files of the file system. It isn't known what these hold, which of them can't be read, or where folders are.
#[derive(Drop)]
pub struct FileSystem<'r, R> {
    pub rt: &'r R,
    pub terminals: Terminals,
}

impl<R: Files> Texts for FileSystem<'_, R> {
    fn whole<'a>(&self, alloc: Global, path: &'a str) -> Result<Vec<u8>, Stop<'a>> {
        reading::file(alloc, self.rt, path)
    }

    fn is_folder(&self, path: &str) -> bool {
        file_forms::is_folder(self.rt, path)
    }
}

impl<R: Files> Logs for FileSystem<'_, R> {
    type Log = R::File;

    fn append<'a>(&self, path: &'a str) -> Result<R::File, Stop<'a>> {
        match OpenOptions::new()
            .append(true)
            .create(true)
            .open(self.rt, path)
        {
            Ok(file) => Ok(file),
            Err(_) => Err(Stop::CannotLog(path)),
        }
    }
}

impl Stores for FileSystem<'_, HostRuntime> {
    type Store = DocumentFile<FileStore<File>>;

    fn open_store(&self, path: &str) -> Result<DocumentFile<FileStore<File>>, OpenFault> {
        document_disk::open(self.rt, path)
    }
}
