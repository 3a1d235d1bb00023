//! Why documents aren't kept.
ghost use Rattle.std.specs.Prelude.{Some};

use document_file::OpenFault;
use std::fmt;
use stored_hub::{OpenRefusal, StoreFault, Unsettled};

/// Why documents aren't kept in the file at this path. Its `Display` is what is printed, without the line feed.
#[derive(Debug, Drop)]
pub enum StoreStop<'a> {
    /// The file isn't opened.
    Unopened(&'a str, OpenFault),
    /// What stands in the file isn't put back.
    Unrestored(&'a str, OpenRefusal),
    /// What was answered last isn't durable.
    Unsettled(&'a str, Unsettled),
}

/// Why what was answered isn't durable.
#[derive(Clone, Copy)]
struct Why(Unsettled);

impl fmt::Display for Why {
    ghost use Rattle.service_forms.specs.StoreStops.{unsettled_text};

    ghost output = { λ why. Some (unsettled_text why.0) };

    fn fmt<W: fmt::Write>(&self, f: &mut fmt::Formatter<W>) -> fmt::Result {
        match self.0 {
            Unsettled::NoRoom => write!(f, "{}", StoreFault::NoRoom),
            Unsettled::Full => write!(f, "{}", StoreFault::Full),
            Unsettled::Failed => write!(f, "{}", StoreFault::Failed),
            Unsettled::Behind => f.write_str("an earlier change couldn't be written"),
        }
    }
}

impl fmt::Display for StoreStop<'_> {
    ghost use Rattle.service_forms.specs.StoreStops.{store_text};

    ghost output = { λ stop. Some (store_text stop) };

    fn fmt<W: fmt::Write>(&self, f: &mut fmt::Formatter<W>) -> fmt::Result {
        match self {
            StoreStop::Unopened(path, fault) => write!(f, "cannot open {path}: {fault}"),
            StoreStop::Unrestored(path, refusal) => write!(f, "cannot restore {path}: {refusal}"),
            StoreStop::Unsettled(path, unsettled) => {
                let why = Why(*unsettled);
                write!(f, "cannot keep the documents in {path}: {why}")
            }
        }
    }
}
