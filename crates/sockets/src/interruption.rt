//! A connection that ended by a fault.
ghost use Rattle.std.specs.Prelude.{◌≡◌, Some, OnOk};
ghost use Rattle.std.specs.Io.KnownBytes.{Appends};
ghost use Rattle.sockets.specs.Interruptions.{line_of};

use faults::Fault;
use std::fmt;
use std::io::{self, Write};

/// A connection that ended by a fault, with its number. Its `Display` is the line that tells it.
#[derive(Debug, Drop)]
pub struct Interruption {
    pub number: u32,
    pub fault: Fault,
}

impl fmt::Display for Interruption {
    ghost use Rattle.std.specs.Prelude.{Some};
    ghost use Rattle.sockets.specs.Interruptions.{line_of};

    ghost output = { λ i. Some (line_of i) };

    fn fmt<W: fmt::Write>(&self, f: &mut fmt::Formatter<W>) -> fmt::Result {
        write!(f, "connection {}: {}\n", self.number, self.fault.name())
    }
}

/// Tells that a connection ended by a fault. Where that can't be written, there is nowhere to say so.
pub(crate) fn tell<E: Write>(errors: &mut E, interruption: &Interruption) -> io::Result<()>
    ensures { OnOk result (Appends (E.contents errors.old) (E.contents errors.new)
        (line_of interruption.now)) }
{
    errors.write_fmt(interruption)
}
