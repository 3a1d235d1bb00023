//! A file of documents that is made.

ghost use Rattle.std.specs.Prelude.{◌≡◌, [], IfErr, IfOk, IsTrue};
ghost use Rattle.sqlite_wal.specs.PageSize.{bytes_of};
ghost use Rattle.sqlite_trees.specs.View.{IsClean};
ghost use Rattle.sqlite_store.specs.FileStore.{recovers, view};
ghost use Rattle.sqlite_store.specs.Unopened.{files_of, state_of, wanted_by, AreUsable};
ghost use Rattle.document_file.specs.Files.{schema};
ghost use Rattle.document_file.specs.Making.{IsUnmade};
ghost use Rattle.document_file.specs.Refusals.{IsMakingFault};
ghost use Rattle.document_file.specs.Tables.{IsKept};

use crate::open_faults::OpenFault;
use crate::versions::with_version;
use sqlite_disk::{Disk, Files, Tally};
use sqlite_pager::{Options, Pager};
use sqlite_store::{FileStore, OpenError, Unopened, name_fault};
use sqlite_trees::error::StoreError;
use sqlite_trees::schema::Object;
use sqlite_trees::store::Shape;
use sqlite_value::keys::Order;
use sqlite_wal::PageSize;
use std::alloc::Global;

/// The table, as sqlite3 lists it.
pub(crate) const SQL: &str =
    "CREATE TABLE document (tenant TEXT NOT NULL, uri TEXT NOT NULL, base TEXT, text TEXT NOT NULL, PRIMARY KEY (tenant, uri)) WITHOUT ROWID";

/// How many pages are kept in memory, and how many the log has before it is copied into the file.
const PAGES: usize = 8192;

/// Why no store is made.
#[derive(Drop)]
pub(crate) enum Unmade<D: Disk> {
    /// Memory ran out, or the disk failed or is full.
    Failed(OpenFault),
    /// The files hold a database already.
    Refused(Unopened<D>),
}

/// Files that weren't looked at yet.
pub(crate) fn unopened<D: Disk + Drop>(
    alloc: Global,
    files: Files<D>,
    size: PageSize,
    seed: u64,
) -> Result<Unopened<D>, OpenFault>
    ensures files { IfOk result (λ it. files_of it ≡ (files.log, files.db)) }
    ensures size { IfOk result (λ it. (state_of it).page_size ≡ bytes_of size) }
    ensures schema { IfOk result (λ it. wanted_by it ≡ schema) }
    ensures err { IfErr result (λ fault. fault ≡ OpenFault.NoRoom) }
{
    let options = Options {
        cache_pages: PAGES,
        spill_pages: PAGES,
        checkpoint_frames: PAGES,
        seed,
    };
    let Ok(pager) = Pager::new(alloc, files, size, options) else {
        return Err(OpenFault::NoRoom);
    };
    let table = Object {
        shape: Shape::Index(Order::PLAIN),
        kind: "table",
        name: "document",
        table: "document",
        reals: 0,
        sql: Some(SQL),
    };
    match Unopened::new(alloc, pager, &[table]) {
        Ok(found) => Ok(found),
        Err(_) => Err(OpenFault::NoRoom),
    }
}

/// The fault of a call that failed while a store was made, since what was read there was written there.
fn making_fault(error: StoreError) -> OpenFault
    ensures { IsMakingFault result }
{
    match error {
        StoreError::OutOfMemory => OpenFault::NoRoom,
        StoreError::Full | StoreError::Unstorable => OpenFault::Full,
        StoreError::Io | StoreError::Broken | StoreError::Corrupt => OpenFault::Failed,
    }
}

/// The fault of a making that failed, where the files met this before it and after it.
fn creation_fault(error: OpenError, before: Tally, after: Tally) -> OpenFault
    ensures { IsMakingFault result }
{
    match error {
        OpenError::OutOfMemory => OpenFault::NoRoom,
        OpenError::Full => OpenFault::Full,
        OpenError::Refused => OpenFault::Failed,
        OpenError::Io => making_fault(name_fault(before, after)),
    }
}

/// A new store, with its version, in files that hold no database or one without tables.
pub(crate) fn made<D: Disk + Drop>(files: Unopened<D>) -> Result<FileStore<D>, Unmade<D>>
    requires { AreUsable files }
    ensures empty { IfOk result (λ store. IsClean (view store) → (view store).trees 0 ≡ []) }
    ensures kept { IfOk result (λ store. IsClean (view store)
        → IsKept (view store) (recovers store)) }
    ensures honest { IfOk result (λ store. IsClean (view store)
        → IsTrue (state_of files).is_clean) }
    ensures err { IfErr result (IsUnmade files) }
{
    let before = files.tally();
    match files.create() {
        Ok(store) => match with_version(store) {
            Ok(store) => Ok(store),
            Err(error) => Err(Unmade::Failed(making_fault(error))),
        },
        Err((OpenError::Refused, left)) => Err(Unmade::Refused(left)),
        Err((error, left)) => Err(Unmade::Failed(creation_fault(error, before, left.tally()))),
    }
}
