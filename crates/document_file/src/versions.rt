//! The version of a store.

ghost use Rattle.std.specs.Prelude.{◌≡◌, ◌≤◌, false, IfErr, IfOk, IsTrue, OnOk};
ghost use Rattle.sqlite_trees.specs.View.{doubt, IsClean};
ghost use Rattle.document_file.specs.Refusals.{IsReadingFault, IsVersionFault};
ghost use Rattle.document_file.specs.Tables.{IsKept};

use crate::open_faults::OpenFault;
use sqlite_trees::error::StoreError;
use sqlite_trees::store::Alter;

/// The version of the table, which stands in the file as SQLite's user version.
const VERSION: u32 = 1;

/// The fault that a failed call tells.
pub(crate) fn fault_of(error: StoreError) -> OpenFault
    ensures { IsReadingFault result }
{
    match error {
        StoreError::OutOfMemory => OpenFault::NoRoom,
        StoreError::Full | StoreError::Unstorable => OpenFault::Full,
        StoreError::Io | StoreError::Broken => OpenFault::Failed,
        StoreError::Corrupt => OpenFault::Damaged,
    }
}

/// Writes this version.
fn set_version<S: Alter + Drop>(store: &mut S) -> Result<(), StoreError>
    ensures rows { OnOk result (IsClean (S.Store.view store.new)
        → (S.Store.view store.new).trees 0 ≡ (S.Store.view store.old).trees 0) }
    ensures open { OnOk result (IsClean (S.Store.view store.new)
        → (S.Store.view store.new).is_open ≡ (S.Store.view store.old).is_open) }
    ensures sound { OnOk result (IsClean (S.Store.view store.new)
        → (S.Store.view store.new).is_broken ≡ false) }
    ensures settled { OnOk result (IsClean (S.Store.view store.new)
        → (S.Store.view store.new).trees ≡ (S.Store.view store.new).committed) }
    ensures clean { doubt (S.Store.view store.old).is_clean
        ≤ doubt (S.Store.view store.new).is_clean }
{
    store.set_version(VERSION)?;
    store.commit()
}

/// The store, with this version written.
pub(crate) fn with_version<S: Alter + Drop>(mut store: S) -> Result<S, StoreError>
    requires { IsClean (S.Store.view store) → IsTrue (S.Store.view store).is_open }
    ensures rows { IfOk result (λ new. IsClean (S.Store.view new)
        → (S.Store.view new).trees 0 ≡ (S.Store.view store).trees 0) }
    ensures kept { IfOk result (λ new. IsClean (S.Store.view new)
        → IsKept (S.Store.view new) (S.Store.recovers new)) }
    ensures clean { IfOk result (λ new. IsClean (S.Store.view new) → IsClean (S.Store.view store)) }
{
    set_version(&mut store)?;
    Ok(store)
}

/// The store, of this version. Where it has none, since a crash cut its making off or it was restored from a text, it is
/// given this one.
pub(crate) fn versioned<S: Alter + Drop>(store: S) -> Result<S, OpenFault>
    requires open { IsClean (S.Store.view store) → IsTrue (S.Store.view store).is_open }
    requires sound { IsClean (S.Store.view store) → (S.Store.view store).is_broken ≡ false }
    requires settled { (S.Store.view store).trees ≡ (S.Store.view store).committed }
    ensures rows { IfOk result (λ new. IsClean (S.Store.view new)
        → (S.Store.view new).trees 0 ≡ (S.Store.view store).trees 0) }
    ensures kept { IfOk result (λ new. IsClean (S.Store.view new)
        → IsKept (S.Store.view new) (S.Store.recovers new)) }
    ensures clean { IfOk result (λ new. IsClean (S.Store.view new) → IsClean (S.Store.view store)) }
    ensures err { IfErr result (IsVersionFault (S.Store.view store)) }
{
    let version = store.version();
    if version > VERSION {
        return Err(OpenFault::Later);
    }
    if version == VERSION {
        return Ok(store);
    }
    match with_version(store) {
        Ok(store) => Ok(store),
        Err(error) => Err(fault_of(error)),
    }
}
