//! One connection from its start to its end.

ghost use Rattle.std.specs.Prelude.{◌≡◌, ℕ, Err};
ghost use Rattle.connections.specs.Connected.{handler_of, connection_at};
ghost use Rattle.connections.specs.Found.{FindsOnly};
ghost use Rattle.serving.specs.Exchanges.{wire};
ghost use Rattle.serving.specs.Kept.{IsFound};
ghost use Rattle.serving.specs.Serving.{IsBounded, IsServed};

use crate::exchanges::exchange;
use crate::failure::Failure;
use crate::streams::{ByteReader, ByteWriter};
use crate::writing::tell_all;
use connections::{Handler, Sessions, Unsettled};
use std::alloc::Global;

/// Serves a connection: reads its stream in pieces of at most 4,096 bytes, answers each as it comes, and ends at a
/// read of no bytes, or once the connection is closed behind a last request or the closing fault. The id is free then,
/// also after each fault but the first, and other connections are as they were.
///
/// - [`Fault::IdInUse`] where the id is open: nothing is read, written or changed.
/// - [`Fault::ReadFailed`] where a read failed, [`Fault::ReadBound`] where 65,536 reads came to no end: what was read
///   is answered and written.
/// - [`Fault::WriteFailed`] where a write failed or took no bytes: what was read is answered, and a first part written.
/// - [`Fault::NoRoom`] for want of memory: of the last piece the first of the requests may be answered and nothing is
///   written; what was read before is answered and written.
/// - [`Failure::Unsettled`] where what the last piece was answered couldn't be made durable: nothing of it is written, and
///   what was read before is answered and written. The handler isn't to be used any more.
///
/// What is written was made durable before: an opening finds the state at the end, also after a fault.
pub fn serve<H: Handler, R: ByteReader, W: ByteWriter>(
    alloc: Global,
    sessions: &mut Sessions<H>,
    id: u64,
    reader: &mut R,
    writer: &mut W,
) -> Result<(), Failure>
    ensures served { IsServed H.answers (connection_at sessions.old id)
        (wire (H.state (handler_of sessions.old)) (R.reads reader.old) (W.writes writer.old))
        result
        (wire (H.state (handler_of sessions.new)) (R.reads reader.new) (W.writes writer.new)) }
    ensures bounded { IsBounded (R.reads reader.old) (R.reads reader.new) }
    ensures free { (k : ℕ) → connection_at sessions.new k ≡ connection_at sessions.old k }
    ensures found { FindsOnly H.finds (handler_of sessions.old) (H.state (handler_of sessions.old))
        → (s : H.State) → H.finds (handler_of sessions.new) s → IsFound H.answers
        (wire (H.state (handler_of sessions.old)) (R.reads reader.old) (W.writes writer.old))
        result
        (wire (H.state (handler_of sessions.new)) (R.reads reader.new) (W.writes writer.new)) s }
    ensures keeps { (why : Unsettled) → result ≡ Err (Failure.Unsettled why) → H.keeps }
{
    match sessions.open(id) {
        Err(fault) => Err(Failure::Fault(fault)),
        Ok(()) => {
            let exchanged = exchange(alloc, sessions, id, reader, writer);
            let last = sessions.end(alloc, id);
            match exchanged {
                Err(failure) => Err(failure),
                Ok(()) => match last {
                    Err(fault) => Err(Failure::Fault(fault)),
                    Ok(words) => tell_all(writer, &words),
                },
            }
        }
    }
}
