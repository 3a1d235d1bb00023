//! Why a store fails.

ghost use Rattle.std.specs.Prelude.{Some};
ghost use Rattle.stored_rows.specs.StoreFaults.{printed_text};

use std::error::Error;
use std::fmt;

/// Why a call of a store failed.
#[derive(Clone, Copy, Debug, Drop, PartialEq)]
pub enum StoreFault {
    /// Memory ran out.
    NoRoom,
    /// The disk has no room, or the file is as large as it may be.
    Full,
    /// The disk failed, or did before: nothing can be written any more.
    Failed,
    /// What was read is no document's row.
    Damaged,
}

impl fmt::Display for StoreFault {
    ghost output = { λ f. Some (printed_text f) };

    fn fmt<W: fmt::Write>(&self, f: &mut fmt::Formatter<W>) -> fmt::Result {
        f.write_str(match self {
            StoreFault::NoRoom => "no room",
            StoreFault::Full => "the disk is full",
            StoreFault::Failed => "the disk failed",
            StoreFault::Damaged => "the file is damaged",
        })
    }
}

impl Error for StoreFault {}
