//! A file of documents, found or made.

ghost use Rattle.std.specs.Prelude.{◌≡◌, ◌↔◌, [], IfErr, IfOk, IsTrue, List, ℕ};
ghost use Rattle.sqlite_wal.specs.Files.{seen_image};
ghost use Rattle.sqlite_wal.specs.PageSize.{bytes_of};
ghost use Rattle.sqlite_wal.specs.Reads.{AreClean, OnlyReads};
ghost use Rattle.sqlite_trees.specs.View.{IsClean};
ghost use Rattle.sqlite_store.specs.FileStore.{recovers, view};
ghost use Rattle.sqlite_store.specs.Unopened.{files_of};
ghost use Rattle.sqlite_pool.specs.Opening.{IsBlankFile};
ghost use Rattle.stored_rows.specs.Rows.{Row as StoredRow};
ghost use Rattle.document_file.specs.Files.{AreFoundAt, AreFoundIn, NamesPages};
ghost use Rattle.document_file.specs.Refusals.{IsFoundFault, IsHonest, IsMakingFault, IsOpenFault, IsReadingFault, IsRefusal, IsSizedFault};
ghost use Rattle.document_file.specs.Tables.{HoldsRows, IsKept, MayFind};

use crate::files::DocumentFile;
use crate::making::{SQL, Unmade, made, unopened};
use crate::open_faults::OpenFault;
use crate::versions::{fault_of, versioned};
use sqlite_disk::{Disk, Files, Tally};
use sqlite_pool::probe_blank;
use sqlite_store::{FileStore, OpenError, Unopened, name_fault};
use sqlite_value::row::Row;
use sqlite_value::value::ValueRef;
use sqlite_wal::{Error, PageSize, probe_page_size};
use std::alloc::Global;

/// How many bytes a page of a new file has. Most of a document stands in pages of its own, which are full but for the last,
/// and a tree's page, which is half empty at times, has a small part of it.
const PAGE_BYTES: usize = 1024;

/// The fault that a failed opening tells, where the files met this before it and after it.
fn opening_fault(error: OpenError, before: Tally, after: Tally) -> OpenFault
    ensures { IsReadingFault result }
{
    match error {
        OpenError::OutOfMemory => OpenFault::NoRoom,
        OpenError::Full => OpenFault::Full,
        OpenError::Refused => OpenFault::Damaged,
        OpenError::Io => fault_of(name_fault(before, after)),
    }
}

/// The files of a call that refused them.
fn files_again<D: Disk + Drop>(left: Unopened<D>) -> Result<Files<D>, OpenFault>
    ensures same { IfOk result (λ files. (files.log, files.db) ≡ files_of left) }
    ensures usable { IfOk result (λ files. IsTrue (D.is_usable files.log)
        × IsTrue (D.is_usable files.db)) }
    ensures err { IfErr result (λ fault. fault ≡ OpenFault.Failed) }
{
    let files = left.close();
    if files.may_be_used() {
        Ok(files)
    } else {
        Err(OpenFault::Failed)
    }
}

/// Whether the table of documents is all that has pages, by rows of `sqlite_schema`.
fn lists_documents_alone(rows: &[Row]) -> bool {
    for row in rows {
        let has_pages = match row.get(4) {
            ValueRef::Int(root) => root != 0,
            _ => true,
        };
        let is_table = match row.get(5) {
            ValueRef::Text(sql) => sql == SQL.as_bytes(),
            _ => false,
        };
        if has_pages && !is_table {
            return false;
        }
    }
    true
}

/// Why files that neither open nor can be made are refused.
fn refusal<D: Disk + Drop>(
    alloc: Global,
    files: Files<D>,
    size: PageSize,
    seed: u64,
    is_database: bool,
) -> OpenFault
    requires log { IsTrue (D.is_usable files.log) }
    requires db { IsTrue (D.is_usable files.db) }
    ensures { IsRefusal result }
{
    let before = files.tally();
    let mut found = match unopened(alloc, files, size, seed) {
        Ok(found) => found,
        Err(fault) => return fault,
    };
    let is_ours = match found.read_catalog() {
        Ok(rows) => lists_documents_alone(rows.as_slice()),
        Err(OpenError::Refused) => is_database,
        Err(error) => return opening_fault(error, before, found.tally()),
    };
    if is_ours {
        OpenFault::Damaged
    } else {
        OpenFault::Foreign
    }
}

/// The store in files whose database has no table yet.
fn finished<D: Disk + Drop>(
    alloc: Global,
    files: Files<D>,
    size: PageSize,
    seed: u64,
    is_database: bool,
) -> Result<FileStore<D>, OpenFault>
    requires log { IsTrue (D.is_usable files.log) }
    requires db { IsTrue (D.is_usable files.db) }
    ensures empty { IfOk result (λ store. IsClean (view store) → (view store).trees 0 ≡ []) }
    ensures kept { IfOk result (λ store. IsClean (view store)
        → IsKept (view store) (recovers store)) }
    ensures honest { IfOk result (λ store. IsClean (view store)
        → AreClean D.Disk files.log files.db) }
    ensures err { IfErr result IsRefusal }
{
    match made(unopened(alloc, files, size, seed)?) {
        Ok(store) => Ok(store),
        Err(Unmade::Failed(fault)) => Err(fault),
        Err(Unmade::Refused(left)) => {
            Err(refusal(alloc, files_again(left)?, size, seed, is_database))
        }
    }
}

/// The store in files that hold a database.
fn found<D: Disk + Drop>(
    alloc: Global,
    files: Files<D>,
    size: PageSize,
    seed: u64,
    is_database: bool,
) -> Result<FileStore<D>, OpenFault>
    requires log { IsTrue (D.is_usable files.log) }
    requires db { IsTrue (D.is_usable files.db) }
    ensures found { IfOk result (λ store. IsClean (view store)
        → AreFoundAt (bytes_of size) (seen_image D.Disk files.log files.db)
        ((view store).trees 0)) }
    ensures kept { IfOk result (λ store. IsClean (view store)
        → IsKept (view store) (recovers store)) }
    ensures honest { IfOk result (λ store. IsClean (view store)
        → AreClean D.Disk files.log files.db) }
    ensures err { IfErr result (IsFoundFault (IsHonest D.Disk) (bytes_of size)
        (seen_image D.Disk files.log files.db)) }
{
    let before = files.tally();
    match unopened(alloc, files, size, seed)?.open() {
        Ok(store) => versioned(store),
        Err((OpenError::Refused, left)) => {
            finished(alloc, files_again(left)?, size, seed, is_database)
        }
        Err((error, left)) => Err(opening_fault(error, before, left.tally())),
    }
}

/// Whether no database was made in the files: they are empty, or hold what is left of a making that was cut off. They are
/// only read.
fn are_blank<D: Disk>(
    alloc: Global,
    files: &mut Files<D>,
    size: PageSize,
) -> Result<bool, OpenFault>
    requires log { IsTrue (D.is_usable files.old.log) }
    requires db { IsTrue (D.is_usable files.old.db) }
    ensures blank { IfOk result (λ are_blank. AreClean D.Disk files.new.log files.new.db
        → (IsTrue are_blank
        ↔ IsBlankFile (bytes_of size) (seen_image D.Disk files.old.log files.old.db))) }
    ensures err { IfErr result IsMakingFault }
    ensures log { OnlyReads D.Disk files.old.log files.new.log }
    ensures db { OnlyReads D.Disk files.old.db files.new.db }
{
    match probe_blank(alloc, files, size, false) {
        Ok(are_blank) => Ok(are_blank),
        Err(Error::OutOfMemory) => Err(OpenFault::NoRoom),
        Err(Error::Full) => Err(OpenFault::Full),
        Err(_) => Err(OpenFault::Failed),
    }
}

/// A new store in blank files. They aren't refused, unless the disk answers otherwise than before.
fn made_in_blank<D: Disk + Drop>(
    alloc: Global,
    files: Files<D>,
    size: PageSize,
    seed: u64,
) -> Result<FileStore<D>, OpenFault>
    requires log { IsTrue (D.is_usable files.log) }
    requires db { IsTrue (D.is_usable files.db) }
    ensures empty { IfOk result (λ store. IsClean (view store) → (view store).trees 0 ≡ []) }
    ensures kept { IfOk result (λ store. IsClean (view store)
        → IsKept (view store) (recovers store)) }
    ensures honest { IfOk result (λ store. IsClean (view store)
        → AreClean D.Disk files.log files.db) }
    ensures err { IfErr result IsMakingFault }
{
    match made(unopened(alloc, files, size, seed)?) {
        Ok(store) => Ok(store),
        Err(Unmade::Failed(fault)) => Err(fault),
        Err(Unmade::Refused(_)) => Err(OpenFault::Failed),
    }
}

/// The store in the files, which is made where they are blank. What a cut making left is asked for first, since the opening of
/// a database writes the log by which it is known.
fn found_or_made<D: Disk + Drop>(
    alloc: Global,
    mut files: Files<D>,
    size: PageSize,
    seed: u64,
    is_database: bool,
) -> Result<FileStore<D>, OpenFault>
    requires log { IsTrue (D.is_usable files.log) }
    requires db { IsTrue (D.is_usable files.db) }
    ensures found { IfOk result (λ store. IsClean (view store)
        → AreFoundAt (bytes_of size) (seen_image D.Disk files.log files.db)
        ((view store).trees 0)) }
    ensures kept { IfOk result (λ store. IsClean (view store)
        → IsKept (view store) (recovers store)) }
    ensures honest { IfOk result (λ store. IsClean (view store)
        → AreClean D.Disk files.log files.db) }
    ensures err { IfErr result (IsSizedFault (IsHonest D.Disk) (bytes_of size)
        (seen_image D.Disk files.log files.db)) }
{
    if are_blank(alloc, &mut files, size)? {
        made_in_blank(alloc, files, size, seed)
    } else {
        found(alloc, files, size, seed, is_database)
    }
}

/// How many bytes a page of the files has, and whether they tell it; where they don't, those of a new file.
fn page_size<D: Disk>(files: &mut Files<D>) -> Result<(PageSize, bool), OpenFault>
    requires log { IsTrue (D.is_usable files.old.log) }
    requires db { IsTrue (D.is_usable files.old.db) }
    ensures names { IfOk result (λ told. AreClean D.Disk files.new.log files.new.db
        → (size : ℕ) → NamesPages (seen_image D.Disk files.old.log files.old.db) size
        → size ≡ bytes_of told.0) }
    ensures err { IfErr result (λ fault. fault ≡ OpenFault.Failed) }
    ensures log { OnlyReads D.Disk files.old.log files.new.log }
    ensures db { OnlyReads D.Disk files.old.db files.new.db }
{
    match probe_page_size(files) {
        Ok(Some(size)) => Ok((size, true)),
        Ok(None) => Ok((PageSize::new(PAGE_BYTES).unwrap(), false)),
        Err(_) => Err(OpenFault::Failed),
    }
}

/// The documents in these files, which are made where there are none: in files that are empty, or that hold what a crash
/// left of a making. What another process has written since `files` were opened isn't seen.
///
/// `Damaged` is for a database with the table of documents alone, or with none that can be read, whose pages don't add up;
/// `Foreign` for what is no database, or has other tables or indexes, which sqlite3 can drop again. A file whose first bytes
/// are overwritten can't be told from what is no database. A page may have any length that SQLite knows.
pub fn open<D: Disk + Drop>(
    alloc: Global,
    mut files: Files<D>,
    seed: u64,
) -> Result<DocumentFile<FileStore<D>>, OpenFault>
    requires log { IsTrue (D.is_usable files.log) }
    requires db { IsTrue (D.is_usable files.db) }
    ensures found { IfOk result (λ documents. IsClean (view documents.store)
        → AreFoundIn (seen_image D.Disk files.log files.db) ((view documents.store).trees 0)) }
    ensures kept { IfOk result (λ documents. (rows others : List StoredRow)
        → HoldsRows (view documents.store) rows
        → MayFind (view documents.store) (recovers documents.store) others → others ≡ rows) }
    ensures err { IfErr result (IsOpenFault (IsHonest D.Disk)
        (seen_image D.Disk files.log files.db)) }
{
    let (size, is_database) = page_size(&mut files)?;
    let store = found_or_made(alloc, files, size, seed, is_database)?;
    Ok(DocumentFile::over(alloc, store))
}
