//! Documents in a file of the system.
#![tactic(auto)]

ghost use Rattle.std.specs.Prelude.{◌≡◌, IfOk, List};
ghost use Rattle.stored_rows.specs.Rows.{Row};
ghost use Rattle.sqlite_store.specs.FileStore.{recovers, view};
ghost use Rattle.document_file.specs.Tables.{HoldsRows, MayFind};

use document_file::{DocumentFile, OpenFault};
use sqlite_std_file::{File, OpenError, Unknown};
use sqlite_store::FileStore;
use std::hash::{BuildHasher, RandomState};

// What the system's refusal is told as.
fn fault_of(error: OpenError) -> OpenFault
    ensures busy { error ≡ OpenError.Busy → result ≡ OpenFault.Busy }
    ensures interrupted { error ≡ OpenError.HotJournal → result ≡ OpenFault.Interrupted }
    ensures memory { error ≡ OpenError.OutOfMemory → result ≡ OpenFault.NoRoom }
{
    match error {
        OpenError::Io(_) => OpenFault::Unreachable,
        OpenError::OutOfMemory => OpenFault::NoRoom,
        OpenError::Busy => OpenFault::Busy,
        OpenError::HotJournal => OpenFault::Interrupted,
    }
}

/// The documents in the file at this path, and in its log beside it, whose name is the file's with `-wal` behind it. Both are
/// made where there are none. No other process can open them until the documents are dropped.
///
/// What is made durable outlasts a crash as long as the disk does what it answers, and leaves each byte of a write that is cut
/// off as it was or as it was to be.
pub fn open(rt: &HostRuntime, path: &str) -> Result<DocumentFile<FileStore<File>>, OpenFault>
    ensures kept { IfOk result (λ documents. (rows others : List Row)
        → HoldsRows (view documents.store) rows
        → MayFind (view documents.store) (recovers documents.store) others → others ≡ rows) }
{
    let Ok(random) = RandomState::new(rt) else {
        return Err(OpenFault::Failed);
    };
    match sqlite_std_file::open(rt, path, Unknown) {
        Ok(files) => document_file::open(rt.alloc(), files, random.hash_one(&0u8)),
        Err(error) => Err(fault_of(error)),
    }
}
