//! All pieces of a connection's stream.

ghost use Rattle.std.specs.Prelude.{◌≡◌, [], Some, Err};
ghost use Rattle.http_definitions.specs.Connections.{holding};
ghost use Rattle.connections.specs.Connected.{handler_of, connection_at, OthersStay};
ghost use Rattle.connections.specs.Found.{FindsOnly};
ghost use Rattle.serving.specs.Exchanges.{wire};
ghost use Rattle.serving.specs.Kept.{IsFound};
ghost use Rattle.serving.specs.Serving.{IsBounded, IsExchanged};

use crate::failure::Failure;
use crate::pieces::{Progress, serve_piece};
use crate::streams::{ByteReader, ByteWriter};
use connections::{Handler, Sessions, Unsettled};
use faults::Fault;
use std::alloc::Global;

/// How many bytes a read is given room for.
const MOST_PIECE: usize = 4096;

/// How many reads a connection may take.
const MOST_READS: usize = 65_536;

/// Reads and answers pieces of a new connection, up to the end of the bytes or until the connection is closed.
pub fn exchange<H: Handler, R: ByteReader, W: ByteWriter>(
    alloc: Global,
    sessions: &mut Sessions<H>,
    id: u64,
    reader: &mut R,
    writer: &mut W,
) -> Result<(), Failure>
    requires { connection_at sessions.old id ≡ Some (holding []) }
    ensures exchanged { IsExchanged H.answers
        (wire (H.state (handler_of sessions.old)) (R.reads reader.old) (W.writes writer.old))
        result (connection_at sessions.new id)
        (wire (H.state (handler_of sessions.new)) (R.reads reader.new) (W.writes writer.new)) }
    ensures bounded { IsBounded (R.reads reader.old) (R.reads reader.new) }
    ensures others { OthersStay id sessions.old sessions.new }
    ensures found { FindsOnly H.finds (handler_of sessions.old) (H.state (handler_of sessions.old))
        → (s : H.State) → H.finds (handler_of sessions.new) s → IsFound H.answers
        (wire (H.state (handler_of sessions.old)) (R.reads reader.old) (W.writes writer.old))
        result
        (wire (H.state (handler_of sessions.new)) (R.reads reader.new) (W.writes writer.new)) s }
    ensures keeps { (why : Unsettled) → result ≡ Err (Failure.Unsettled why) → H.keeps }
{
    let mut buffer = [0u8; MOST_PIECE];
    let mut out = String::new(alloc);
    let mut reads = 0;
    while reads < MOST_READS {
        match serve_piece(alloc, sessions, id, &mut buffer, &mut out, reader, writer) {
            Ok(Progress::Goes) => reads += 1,
            Ok(Progress::Ends) => return Ok(()),
            Err(failure) => return Err(failure),
        }
    }
    Err(Failure::Fault(Fault::ReadBound))
}
