//! The files below a folder.

use crate::folders::Found;
use std::fs::DirEntry;
use std::io::ErrorKind;
use std::rt::Files;
use std::{fs, io};

/// The endings of the names of JSON texts.
pub(crate) const JSON: &[&str] = &[".json"];

/// The endings of the names of texts of which each line is one.
pub(crate) const LINES: &[&str] = &[".ndjson", ".jsonl"];

/// The file of the path; or, where that is a folder, the files below it whose names have one of these endings, in byte order
/// of paths. Folders that are symbolic links aren't entered, files that are such links stand under their names, and pipes and
/// devices are passed over. A folder of which something can't be read, such as a name that isn't UTF-8, is among the unread,
/// with what could be read of it among the files. Want of memory ends it.
pub(crate) fn files_of<R: Files + AllocGlobal + Clone + Drop>(
    rt: &R,
    path: &str,
    endings: &[&str],
) -> io::Result<Found> {
    let alloc = rt.alloc();
    let mut found = Found {
        files: Vec::new(alloc),
        unread: Vec::new(alloc),
    };
    if is_folder(rt, path) {
        walk(rt, path, endings, &mut found)?;
        found.files.sort_unstable();
    } else {
        found.files.push(String::from_str(alloc, path)?)?;
    }
    Ok(found)
}

/// Whether a folder is at this path, or a symbolic link to one.
pub fn is_folder<R: Files>(rt: &R, path: &str) -> bool {
    match fs::metadata(rt, path) {
        Ok(metadata) => metadata.is_dir(),
        Err(_) => false,
    }
}

// Folder by folder.
fn walk<R: Files + AllocGlobal + Clone + Drop>(
    rt: &R,
    folder: &str,
    endings: &[&str],
    found: &mut Found,
) -> io::Result<()> {
    let alloc = rt.alloc();
    let mut folders = Vec::new(alloc);
    folders.push(String::from_str(alloc, folder)?)?;
    for _ in 0..u64::MAX {
        let Some(folder) = folders.pop() else {
            break;
        };
        if let Err(error) = read_folder(rt, folder.as_str(), endings, &mut folders, found) {
            if error.kind() == ErrorKind::OutOfMemory {
                return Err(error);
            }
            found.unread.push(folder)?;
        }
    }
    Ok(())
}

// Adds the files of the folder, and the folders in it. What can't be read of it, such as a name that isn't UTF-8, is passed
// over, and the last such error answered.
fn read_folder<R: Files + AllocGlobal + Clone + Drop>(
    rt: &R,
    folder: &str,
    endings: &[&str],
    folders: &mut Vec<String>,
    found: &mut Found,
) -> io::Result<()> {
    let mut read = Ok(());
    for entry in fs::read_dir(rt, folder)? {
        if let Err(error) = add_entry(rt, entry, endings, folders, found) {
            if error.kind() == ErrorKind::OutOfMemory {
                return Err(error);
            }
            read = Err(error);
        }
    }
    read
}

// Adds a file, or a folder.
fn add_entry<R: Files + AllocGlobal + Clone + Drop>(
    rt: &R,
    entry: io::Result<DirEntry<R>>,
    endings: &[&str],
    folders: &mut Vec<String>,
    found: &mut Found,
) -> io::Result<()> {
    let entry = entry?;
    let path = entry.path().as_str();
    if entry.file_type()?.is_dir() {
        folders.push(String::from_str(rt.alloc(), path)?)?;
    } else if has_ending(entry.file_name(), endings) && may_be_file(rt, path) {
        found.files.push(String::from_str(rt.alloc(), path)?)?;
    }
    Ok(())
}

// Whether a file is at this path, or what can't be looked at: that is told when it is read. A pipe is none, which would be
// waited for.
fn may_be_file<R: Files>(rt: &R, path: &str) -> bool {
    match fs::metadata(rt, path) {
        Ok(metadata) => metadata.is_file(),
        Err(_) => true,
    }
}

fn has_ending(name: &str, endings: &[&str]) -> bool {
    endings.iter().any(|ending| name.ends_with(*ending))
}
