//! Answering a piece of a connection's stream.

ghost use Rattle.std.specs.Prelude.{◌≡◌, ◌≤◌, [], Some, Err, OnOk, length, string_bytes, string_capacity};
ghost use Rattle.definitions.specs.Values.{Text};
ghost use Rattle.http_definitions.specs.Connections.{holding};
ghost use Rattle.connections.specs.Connected.{handler_of, connection_at, OthersStay};
ghost use Rattle.connections.specs.Found.{FindsOnly};
ghost use Rattle.serving.specs.Exchanges.{Wire, wire, Tells};
ghost use Rattle.serving.specs.Kept.{IsFoundBehind, IsFound};
ghost use Rattle.serving.specs.Serving.{ReadsOnce};
ghost use Rattle.serving.specs.Writing.{TellsBytes};
ghost use Rattle.serving.specs.Turns.{IsPieceAnswered, IsTurn};

use crate::failure::Failure;
use crate::streams::{ByteReader, ByteWriter};
use crate::writing::tell_all;
use connections::{Handler, Sessions, Unsettled};
use faults::Fault;
use std::alloc::Global;

/// How much memory for replies stays from one piece to the next, in bytes.
const MOST_KEPT: usize = 1_048_576;

/// Whether a connection goes on behind a piece.
#[derive(Clone, Copy, Drop)]
pub enum Progress {
    /// A piece was read and answered, and the connection is open.
    Goes,
    /// The reader came to its end, or the connection is closed.
    Ends,
}

// Gives the memory for replies back, where it is more than stays.
fn give_back(out: &mut String)
    ensures { string_capacity out.new ≤ MOST_KEPT }
{
    if out.capacity() > MOST_KEPT {
        out.clear();
        out.shrink_to_fit();
    }
}

// Writes what a piece is answered.
fn tell<W: ByteWriter>(out: &mut String, writer: &mut W) -> Result<(), Failure>
    ensures told { TellsBytes (W.writes writer.old) (string_bytes out.old) result
        (W.writes writer.new) }
    ensures kept { string_capacity out.new ≤ MOST_KEPT }
{
    let written = tell_all(writer, out.as_bytes());
    give_back(out);
    written
}

// Answers a piece. Nothing of that is told before it is durable.
fn answer_piece<H: Handler, W: ByteWriter>(
    alloc: Global,
    sessions: &mut Sessions<H>,
    id: u64,
    piece: &[u8],
    out: &mut String,
    writer: &mut W,
) -> Result<(), Failure>
    ensures answered { IsPieceAnswered H.answers (connection_at sessions.old id) piece.now
        (H.state (handler_of sessions.old)) (W.writes writer.old) result
        (connection_at sessions.new id)
        (H.state (handler_of sessions.new)) (W.writes writer.new) }
    ensures kept { OnOk result (string_capacity out.new ≤ MOST_KEPT) }
    ensures others { OthersStay id sessions.old sessions.new }
    ensures found { FindsOnly H.finds (handler_of sessions.old) (H.state (handler_of sessions.old))
        → (s : H.State) → H.finds (handler_of sessions.new) s
        → IsFoundBehind (H.state (handler_of sessions.old)) result
        (H.state (handler_of sessions.new)) s }
    ensures keeps { (why : Unsettled) → result ≡ Err (Failure.Unsettled why) → H.keeps }
{
    let fed = sessions.feed_into(alloc, id, piece, out);
    match sessions.settle() {
        Err(unsettled) => Err(Failure::Unsettled(unsettled)),
        Ok(()) => match fed {
            Err(fault) => Err(Failure::Fault(fault)),
            Ok(()) => tell(out, writer),
        },
    }
}

/// Reads once, a piece into the buffer, and answers it; `out` is lent for the replies, and keeps 1,048,576 bytes at most.
pub fn serve_piece<H: Handler, R: ByteReader, W: ByteWriter>(
    alloc: Global,
    sessions: &mut Sessions<H>,
    id: u64,
    buffer: &mut [u8],
    out: &mut String,
    reader: &mut R,
    writer: &mut W,
) -> Result<Progress, Failure>
    ensures turned { IsTurn H.answers (connection_at sessions.old id)
        (wire (H.state (handler_of sessions.old)) (R.reads reader.old) (W.writes writer.old))
        result (connection_at sessions.new id)
        (wire (H.state (handler_of sessions.new)) (R.reads reader.new) (W.writes writer.new)) }
    ensures read { ReadsOnce (length buffer.old) (R.reads reader.old) (R.reads reader.new) }
    ensures kept { string_capacity out.old ≤ MOST_KEPT
        → OnOk result (string_capacity out.new ≤ MOST_KEPT) }
    ensures others { OthersStay id sessions.old sessions.new }
    ensures found { (start : Wire H.State) (held : Text)
        → connection_at sessions.old id ≡ Some (holding held)
        → Tells H.answers start [] (holding held) (wire (H.state (handler_of sessions.old))
        (R.reads reader.old) (W.writes writer.old))
        → FindsOnly H.finds (handler_of sessions.old) (H.state (handler_of sessions.old))
        → (s : H.State) → H.finds (handler_of sessions.new) s
        → IsFound H.answers start result (wire (H.state (handler_of sessions.new))
        (R.reads reader.new) (W.writes writer.new)) s }
    ensures keeps { (why : Unsettled) → result ≡ Err (Failure.Unsettled why) → H.keeps }
{
    match reader.read(buffer) {
        Err(_) => Err(Failure::Fault(Fault::ReadFailed)),
        Ok(0) => Ok(Progress::Ends),
        Ok(count) => match answer_piece(alloc, sessions, id, &buffer[..count], out, writer) {
            Err(failure) => Err(failure),
            Ok(()) => {
                if sessions.is_closed(id) {
                    Ok(Progress::Ends)
                } else {
                    Ok(Progress::Goes)
                }
            }
        },
    }
}
