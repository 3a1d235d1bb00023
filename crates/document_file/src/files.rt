//! A file of documents.

ghost use Rattle.std.specs.Prelude.{◌≡◌, IfOk, IsSome, IsTrue, List};
ghost use Rattle.sqlite_trees.specs.View.{IsClean};
ghost use Rattle.stored_rows.specs.Rows.{Row as StoredRow};
ghost use Rattle.document_file.specs.Tables.{HoldsRows, MayFind};

use crate::checkpoints::Checkpoint;
use crate::entries::entry_row;
use crate::tables::{CURSOR, TABLE, delete_row, has_table, insert_row, put_row};
use sqlite_trees::error::StoreError;
use sqlite_trees::store::{Direction, Reopen, Store};
use sqlite_value::row::Row;
use std::alloc::Global;
use stored_rows::{DocumentRow, DocumentStore, RowRef, StoreFault};

/// Documents as the rows of the table `document` in a file that sqlite3 reads.
///
/// A transaction is always open: what is put and deleted is seen at once, and a commit makes it durable. Where a put or a
/// delete fails, only a commit, which then fails too, ends the transaction; what was committed before stays.
#[derive(Drop)]
pub struct DocumentFile<S: Store> {
    pub(crate) store: S,
    alloc: Global,
    is_reading: bool,
    ghost reads: { IsTrue is_reading → IsSome ((S.view store).cursors 0) },
}

fn fault_of(error: StoreError) -> StoreFault {
    match error {
        StoreError::OutOfMemory => StoreFault::NoRoom,
        StoreError::Full | StoreError::Unstorable => StoreFault::Full,
        StoreError::Io | StoreError::Broken => StoreFault::Failed,
        StoreError::Corrupt => StoreFault::Damaged,
    }
}

impl<S: Store> DocumentFile<S> {
    /// The documents of a store. Where it has no table of documents, each call answers Damaged.
    pub(crate) fn over(alloc: Global, store: S) -> DocumentFile<S>
        ensures { result.store ≡ store }
    {
        DocumentFile {
            store,
            alloc,
            is_reading: false,
        }
    }
}

impl<S: Checkpoint> DocumentStore for DocumentFile<S> {
    ghost use Rattle.document_file.specs.Tables.{HasReadRows};
    ghost use Rattle.document_file.specs.Props.{one_way};

    ghost holds = { λ f. HoldsRows (S.Store.view f.store) };

    ghost recovers = { λ f. MayFind (S.Store.view f.store) (S.Store.recovers f.store) };

    ghost has_read = { λ f. HasReadRows (S.Store.view f.store) };

    ghost one = { λ f. one_way (S.Store.view f.store) };

    fn begin(&mut self) -> Result<(), StoreFault> {
        self.is_reading = false;
        if !has_table(&self.store) {
            return Err(StoreFault::Damaged);
        }
        let first = Row::new(self.alloc);
        match self.store.seek(CURSOR, TABLE, &first, Direction::Forward) {
            Ok(()) => {
                self.is_reading = true;
                Ok(())
            }
            Err(error) => Err(fault_of(error)),
        }
    }

    fn next(&mut self, alloc: Global) -> Result<Option<DocumentRow>, StoreFault> {
        if !self.is_reading {
            return Err(StoreFault::Failed);
        }
        self.is_reading = false;
        let mut entry = Row::new(alloc);
        match self.store.next(CURSOR, &mut entry) {
            Ok(true) => {
                self.is_reading = true;
                Ok(Some(entry_row(alloc, &entry)?))
            }
            Ok(false) => {
                self.is_reading = true;
                Ok(None)
            }
            Err(error) => Err(fault_of(error)),
        }
    }

    fn put(&mut self, row: RowRef<'_>) -> Result<(), StoreFault> {
        self.is_reading = false;
        match put_row(&mut self.store, self.alloc, row) {
            Ok(()) => Ok(()),
            Err(error) => Err(fault_of(error)),
        }
    }

    fn insert(&mut self, row: RowRef<'_>) -> Result<(), StoreFault> {
        self.is_reading = false;
        match insert_row(&mut self.store, self.alloc, row) {
            Ok(()) => Ok(()),
            Err(error) => Err(fault_of(error)),
        }
    }

    fn delete(&mut self, tenant: &str, uri: &str) -> Result<(), StoreFault> {
        self.is_reading = false;
        match delete_row(&mut self.store, self.alloc, tenant, uri) {
            Ok(()) => Ok(()),
            Err(error) => Err(fault_of(error)),
        }
    }

    fn commit(&mut self) -> Result<(), StoreFault> {
        self.is_reading = false;
        match self.store.commit() {
            Ok(()) => Ok(()),
            Err(error) => Err(fault_of(error)),
        }
    }

    fn close(&mut self) {
        self.is_reading = false;
        let _done = self.store.checkpoint();
    }
}

impl<S: Reopen + Drop> DocumentFile<S> {
    /// What an opening finds after a crash at this moment.
    pub fn reopened(self) -> Result<DocumentFile<S>, StoreFault>
        ensures found { IfOk result (λ new. (rows : List StoredRow)
            → IsClean (S.Store.view new.store) → HoldsRows (S.Store.view new.store) rows
            → MayFind (S.Store.view self.store) (S.Store.recovers self.store) rows) }
    {
        let DocumentFile {
            mut store,
            alloc,
            is_reading: _,
        } = self;
        match store.crash_and_reopen() {
            Ok(()) => Ok(DocumentFile::over(alloc, store)),
            Err(error) => Err(fault_of(error)),
        }
    }
}
