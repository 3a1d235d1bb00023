//! Writing all bytes.

ghost use Rattle.serving.specs.Writing.{IsWriting, TellsBytes};

use crate::failure::Failure;
use crate::streams::ByteWriter;
use faults::Fault;

/// Writes all bytes, by as many writes as it takes. The only error is [`Fault::WriteFailed`], where a write failed or
/// took none of some bytes: then a first part of the bytes is written.
pub fn write_all<W: ByteWriter>(writer: &mut W, bytes: &[u8]) -> Result<(), Fault>
    ensures { IsWriting (W.writes writer.old) bytes.now result (W.writes writer.new) }
{
    let mut start = 0;
    while start < bytes.len() {
        match writer.write(&bytes[start..]) {
            Ok(0) => return Err(Fault::WriteFailed),
            Ok(count) => start += count,
            Err(_) => return Err(Fault::WriteFailed),
        }
    }
    Ok(())
}

/// Writes all bytes that a connection is sent, by as many writes as it takes. The only error is the failure of
/// [`Fault::WriteFailed`], where a write failed or took none of some bytes: then a first part of the bytes is written.
pub fn tell_all<W: ByteWriter>(writer: &mut W, bytes: &[u8]) -> Result<(), Failure>
    ensures { TellsBytes (W.writes writer.old) bytes.now result (W.writes writer.new) }
{
    match write_all(writer, bytes) {
        Ok(()) => Ok(()),
        Err(fault) => Err(Failure::Fault(fault)),
    }
}
