//! Rows outlast each call of the disk that fails.

use crate::written_rows::written_rows;
use document_file::{Checkpoint, DocumentFile, open, put_and_crash};
use sqlite_disk::{Files, Fuse, Memory};
use sqlite_trees::store::Reopen;
use std::alloc::Global;
use std::process::Abort;
use stored_rows::{DocumentStore, RowRef, StoreFault};

const FIRST: RowRef<'static> = RowRef {
    tenant: "t",
    uri: "https://ex.org/s",
    base: "https://ex.org/s",
    text: "{}",
};

const MORE: &[RowRef<'static>] = &[
    RowRef {
        tenant: "t",
        uri: "https://ex.org/a",
        base: "https://ex.org/b",
        text: "true",
    },
    RowRef {
        tenant: "t",
        uri: "https://ex.org/s",
        base: "https://ex.org/s",
        text: "false",
    },
];

const BEFORE: &str = r#"t https://ex.org/s https://ex.org/s {}
"#;

const AFTER: &str = r#"t https://ex.org/a https://ex.org/b true
t https://ex.org/s https://ex.org/s false
"#;

/// What is found after a crash.
#[derive(Clone, Copy, PartialEq)]
enum Found {
    /// The rows that were put last, whose commit was answered.
    Kept,
    /// The rows from before, or those that were put last.
    Whole,
    /// Other rows.
    Other,
    /// None, since a call failed before.
    Nothing,
}

fn outlasting<S: Reopen + Checkpoint + Drop>(
    alloc: Global,
    mut documents: DocumentFile<S>,
) -> Result<Found, StoreFault> {
    documents.put(FIRST)?;
    let (mut documents, is_kept) = put_and_crash(documents, MORE)?;
    let rows = written_rows(alloc, &mut documents)?;
    match (rows.as_str(), is_kept) {
        (AFTER, true) => Ok(Found::Kept),
        (BEFORE | AFTER, false) => Ok(Found::Whole),
        _ => Ok(Found::Other),
    }
}

/// What is found in files that fail from a call on: the log after so many calls, and the file after so many.
fn crashed(alloc: Global, log: u64, db: u64) -> Found {
    let files = Files {
        log: Fuse::new(Memory::new(alloc), log),
        db: Fuse::new(Memory::new(alloc), db),
    };
    match open(alloc, files, 7) {
        Ok(documents) => outlasting(alloc, documents).unwrap_or(Found::Nothing),
        Err(_) => Found::Nothing,
    }
}

/// What is found is whole at least; the log and the file have failed from such calls on.
fn expect_whole(rt: &impl Abort, found: Found, log: u64, db: u64) -> (bool, bool) {
    assert!(rt; found != Found::Other, "{log} {db}");
    (found == Found::Kept, found == Found::Whole)
}

fn expect_crashed(rt: &impl Abort, alloc: Global, calls: u64) -> (bool, bool) {
    let log = crashed(alloc, calls, u64::MAX);
    let (kept, whole) = expect_whole(rt, log, calls, u64::MAX);
    let db = crashed(alloc, u64::MAX, calls);
    let (db_kept, db_whole) = expect_whole(rt, db, u64::MAX, calls);
    (kept || db_kept, whole || db_whole)
}

#[test]
fn rows_outlast_each_failing_call(rt: HostRuntime) {
    let (mut kept, mut whole) = (false, false);
    for calls in 0..40u64 {
        let found = expect_crashed(&rt, rt.alloc(), calls);
        kept = kept || found.0;
        whole = whole || found.1;
    }
    assert!(rt; kept && whole);
}
