//! The files and folders of the file system.

use crate::folders::{Folders, Found};
use crate::trouble::Trouble;
use crate::{reading, walking};
use std::alloc::Global;
use std::rt::{Env, Files};
use std::{env, fs};

/// The files and folders of the file system. It isn't known what these hold.
#[derive(Drop)]
pub struct SystemFolders<'r, R> {
    rt: &'r R,
}

impl<'r, R> SystemFolders<'r, R> {
    /// Those of this runtime.
    pub fn new(rt: &'r R) -> SystemFolders<'r, R> {
        SystemFolders { rt }
    }
}

impl<R: Files + Env + AllocGlobal + Clone + Drop> Folders for SystemFolders<'_, R> {
    type File = R::File;

    fn files_of(&self, alloc: Global, path: &str, endings: &[&str]) -> Result<Found, Trouble> {
        match walking::files_of(self.rt, path, endings) {
            Ok(found) => Ok(found),
            Err(error) => Err(reading::unread(alloc, &error, path)),
        }
    }

    fn open(&self, alloc: Global, path: &str) -> Result<R::File, Trouble> {
        match fs::open(self.rt, path) {
            Ok(file) => Ok(file),
            Err(error) => Err(reading::unread(alloc, &error, path)),
        }
    }

    fn read(&self, alloc: Global, path: &str) -> Result<Vec<u8>, Trouble> {
        match fs::open(self.rt, path) {
            Ok(mut file) => reading::whole(alloc, &mut file, path),
            Err(error) => Err(reading::unread(alloc, &error, path)),
        }
    }

    fn write(&self, alloc: Global, path: &str, text: &str) -> Result<(), Trouble> {
        match fs::write(self.rt, path, text) {
            Ok(()) => Ok(()),
            Err(_) => Err(Trouble::cannot_write(alloc, path)),
        }
    }

    fn current(&self, alloc: Global) -> Result<String, Trouble> {
        match env::current_dir(self.rt) {
            Ok(folder) => match String::from_str(alloc, folder.as_str()) {
                Ok(folder) => Ok(folder),
                Err(_) => Err(Trouble::no_room()),
            },
            Err(error) => Err(reading::unread(alloc, &error, ".")),
        }
    }
}
