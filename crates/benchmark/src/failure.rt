//! Why the program ends without a number.

use faults::Fault;
use std::{fmt, io};

/// Why the program ends without a number. Its `Display` is what is printed.
#[derive(Debug, Drop)]
pub enum Failure {
    /// The words of the command line are not a workload and a number of at most 32 bits.
    Words,
    /// The words or standard input cannot be read, or standard output cannot be written.
    Unmoved,
    /// The check is refused.
    Refused(Fault),
}

impl fmt::Display for Failure {
    fn fmt<W: fmt::Write>(&self, f: &mut fmt::Formatter<W>) -> fmt::Result {
        match self {
            Failure::Words => f.write_str(
                "usage: benchmark syntax|read|compile|validate|evaluate|check|ask TIMES, benchmark feed SIZE",
            ),
            Failure::Unmoved => f.write_str("cannot read or write"),
            Failure::Refused(fault) => write!(f, "refused: {fault}"),
        }
    }
}

impl From<Fault> for Failure {
    fn from(fault: Fault) -> Self {
        Failure::Refused(fault)
    }
}

impl From<io::Error> for Failure {
    fn from(_error: io::Error) -> Self {
        Failure::Unmoved
    }
}
