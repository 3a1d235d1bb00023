//! Why no file of documents is opened.

ghost use Rattle.std.specs.Prelude.{Some};
ghost use Rattle.document_file.specs.OpenFaults.{printed_text};

use std::error::Error;
use std::fmt;
use stored_rows::StoreFault;

/// Why no file of documents is opened. What stood in the file stands there still.
#[derive(Clone, Copy, Debug, Drop, PartialEq)]
pub enum OpenFault {
    /// Memory ran out.
    NoRoom,
    /// The disk has no room, or the file is as large as it may be.
    Full,
    /// The disk failed.
    Failed,
    /// No file can be opened or made at the path: a folder is missing, something else than a file is there, or access is
    /// denied.
    Unreachable,
    /// Another process has the file open.
    Busy,
    /// Another program was cut off while it wrote, and only sqlite3 can mend that: the file has a rollback journal.
    Interrupted,
    /// The file is a database, and it isn't whole.
    Damaged,
    /// The file is no database, or one with other tables or indexes.
    Foreign,
    /// The file is of a later version.
    Later,
}

impl fmt::Display for OpenFault {
    ghost output = { λ fault. Some (printed_text fault) };

    fn fmt<W: fmt::Write>(&self, f: &mut fmt::Formatter<W>) -> fmt::Result {
        match self {
            OpenFault::NoRoom => write!(f, "{}", StoreFault::NoRoom),
            OpenFault::Full => write!(f, "{}", StoreFault::Full),
            OpenFault::Failed => write!(f, "{}", StoreFault::Failed),
            OpenFault::Unreachable => f.write_str("the file can't be opened or made"),
            OpenFault::Busy => f.write_str("another process has the file open"),
            OpenFault::Interrupted => {
                f.write_str("the file has a rollback journal: open it with sqlite3 first")
            }
            OpenFault::Damaged => write!(f, "{}", StoreFault::Damaged),
            OpenFault::Foreign => f.write_str("the file is no store of documents"),
            OpenFault::Later => f.write_str("the file is of a later version"),
        }
    }
}

impl Error for OpenFault {}
