//! What is put and deleted is read back in order.

ghost use Rattle.std.specs.Prelude.{IfOk, IsTrue};
ghost use Rattle.sqlite_disk.specs.Memory.{memory_is_usable};

use crate::written_rows::written_rows;
use document_file::{Checkpoint, DocumentFile, OpenFault, open};
use sqlite_disk::{Disk, Files, Memory};
use sqlite_trees::store::Reopen;
use std::alloc::Global;
use std::io;
use std::process::Abort;
use stored_rows::{DocumentStore, RowRef, StoreFault};

// What is put, or deleted where there is no text, and why. Then the rows.
const CHANGES: &[RowRef<'static>] = &[
    // A first row, which a later one replaces.
    RowRef {
        tenant: "b",
        uri: "https://ex.org/s",
        base: "https://ex.org/s",
        text: "{}",
    },
    // By its URI it stands before the first one.
    RowRef {
        tenant: "b",
        uri: "https://ex.org/a",
        base: "https://ex.org/x",
        text: "true",
    },
    // By its tenant it stands before both, under a URI that both tenants have.
    RowRef {
        tenant: "a",
        uri: "https://ex.org/s",
        base: "https://ex.org/s",
        text: "false",
    },
    // It replaces base and text of the first one.
    RowRef {
        tenant: "b",
        uri: "https://ex.org/s",
        base: "https://ex.org/x",
        text: r#"{"type":"string"}"#,
    },
    // Its URI goes on from another one, and its base is empty.
    RowRef {
        tenant: "b",
        uri: "https://ex.org/s/t",
        base: "",
        text: "{}",
    },
    // A row that doesn't stay.
    RowRef {
        tenant: "a",
        uri: "https://ex.org/t",
        base: "https://ex.org/t",
        text: "{}",
    },
    // It is deleted.
    RowRef {
        tenant: "a",
        uri: "https://ex.org/t",
        base: "",
        text: "",
    },
    // Where there is no row, a delete changes nothing.
    RowRef {
        tenant: "a",
        uri: "https://ex.org/u",
        base: "",
        text: "",
    },
];

const ROWS: &str = r#"a https://ex.org/s https://ex.org/s false
b https://ex.org/a https://ex.org/x true
b https://ex.org/s https://ex.org/x {"type":"string"}
b https://ex.org/s/t  {}
"#;

// The header of a log in SQLite's format, section 4.1: for pages of 1,024 bytes, with a count of checkpoints that only a
// making writes, two salts and the checksum. Then the first bytes of a frame that isn't written.
const BEGUN: &[u8] =
    b"7\x7f\x06\x82\x00-\xe2\x18\x00\x00\x04\x00\xff\xff\xff\xff\x01\x02\x03\x04\x05\x06\x07\x08\xd8\xd2\x05\x13\x98\xb4\xe2\xbc\x00\x00\x00\x00\x00\x00\x00\x00\x00";

// The first page of a database whose first byte isn't written.
const UNFINISHED: &[u8] = &[0; 1024];

/// A log and a file, and whether they are no store.
struct Opening {
    why: &'static str,
    log: &'static [u8],
    db: &'static [u8],
    is_foreign: bool,
}

const OPENINGS: &[Opening] = &[
    Opening {
        why: "an empty file is a new store (STORE.md)",
        log: b"",
        db: b"",
        is_foreign: false,
    },
    Opening {
        why: "a text begins with the bytes of no database (STORE.md)",
        log: b"",
        db: b"The names of all who were there.",
        is_foreign: true,
    },
    Opening {
        why: "a making that was cut off is taken for new (STORE.md)",
        log: BEGUN,
        db: UNFINISHED,
        is_foreign: false,
    },
    Opening {
        why: "a making is known by the log that was begun for it (STORE.md)",
        log: b"",
        db: UNFINISHED,
        is_foreign: true,
    },
];

fn change<D: DocumentStore>(store: &mut D, row: &RowRef<'_>) -> Result<(), StoreFault> {
    if row.text.is_empty() {
        store.delete(row.tenant, row.uri)
    } else {
        store.put(*row)
    }
}

fn changed<D: DocumentStore>(store: &mut D) -> Result<(), StoreFault> {
    for row in CHANGES {
        change(store, row)?;
    }
    store.commit()
}

/// The rows that are read once all changes are made, and after a crash.
fn rows_of<S: Reopen + Checkpoint + Drop>(
    alloc: Global,
    mut documents: DocumentFile<S>,
) -> Result<(String, String), StoreFault> {
    changed(&mut documents)?;
    let rows = written_rows(alloc, &mut documents)?;
    let mut documents = documents.reopened()?;
    documents.close();
    Ok((rows, written_rows(alloc, &mut documents)?))
}

/// A log and a file with these bytes.
fn files(alloc: Global, log_bytes: &[u8], db_bytes: &[u8]) -> io::Result<Files<Memory>>
    ensures log { IfOk result (λ files. IsTrue (memory_is_usable files.log)) }
    ensures db { IfOk result (λ files. IsTrue (memory_is_usable files.db)) }
{
    let (mut log, mut db) = (Memory::new(alloc), Memory::new(alloc));
    log.write_at(0, log_bytes)?;
    db.write_at(0, db_bytes)?;
    Ok(Files { log, db })
}

fn read_back(alloc: Global, log: &[u8], db: &[u8]) -> Option<(String, String)> {
    let documents = open(alloc, files(alloc, log, db).ok()?, 7).ok()?;
    rows_of(alloc, documents).ok()
}

fn is_foreign(alloc: Global, log: &[u8], db: &[u8]) -> Option<bool> {
    let files = files(alloc, log, db).ok()?;
    Some(open(alloc, files, 7).is_err_and(|fault| fault == OpenFault::Foreign))
}

fn expect_rows(rt: &impl Abort, rows: Option<(String, String)>, why: &str) {
    match rows {
        Some((rows, others)) => {
            assert_eq!(rt; rows.as_str(), ROWS, "{why}");
            assert_eq!(rt; others.as_str(), ROWS, "{why}");
        }
        None => panic!(rt; "{why}: refused"),
    }
}

fn expect_opening(rt: &impl Abort, alloc: Global, row: &Opening) {
    if row.is_foreign {
        let is_foreign = is_foreign(alloc, row.log, row.db);
        assert!(rt; is_foreign == Some(true), "{}", row.why);
    } else {
        expect_rows(rt, read_back(alloc, row.log, row.db), row.why);
    }
}

#[test]
fn reads_back_in_order(rt: HostRuntime) {
    for row in OPENINGS {
        expect_opening(&rt, rt.alloc(), row);
    }
}
