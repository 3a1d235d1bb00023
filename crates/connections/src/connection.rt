//! One connection.
ghost use Rattle.std.specs.Prelude.{◌≡◌, ◌++◌, [], IfOk, IfErr, OnOk, OnErr, string_bytes};
ghost use Rattle.http_definitions.specs.Streams.{without_line_ends};
ghost use Rattle.connections.specs.HeldBytes.{IsHeld-prop};
ghost use Rattle.connections.specs.Phases.{IsHeld, IsOn};
ghost use Rattle.connections.specs.Room.{KeepsLittle};
ghost use Rattle.connections.specs.Progress.{Tells, TakesSome};
ghost use Rattle.connections.specs.Found.{FindsNoMore};

use crate::buffers::{drop_front, give_back};
use crate::handlers::Handler;
use crate::phases::Phase;
use crate::taking::{Ended, take_all};
use faults::Fault;
use reply_texts::write_closing;
use request_heads::Search;
use std::alloc::Global;
use std::mem;

/// What an open connection holds: bytes that aren't answered yet, and how far they were read. Where there are none, it
/// keeps little room for more.
#[derive(Drop)]
pub struct Held {
    buffer: Vec<u8>,
    phase: Phase,
    ghost held: { IsHeld buffer.items phase } by { IsHeld-prop buffer.items phase },
    ghost little: { KeepsLittle buffer },
}

/// A connection.
#[derive(Drop)]
pub enum Connection {
    /// Open.
    Holding(Held),
    /// Closed behind a last request or the closing fault.
    Closed,
}

impl Held {
    ghost use Rattle.connections.specs.Views.{connection_view};

    // No bytes. This takes no memory.
    fn empty(alloc: Global) -> Held
        ensures { result.buffer.items ≡ [] }
    {
        Held {
            buffer: Vec::new(alloc),
            phase: Phase::Searching(Search::new()),
        }
    }

    // The bytes with a piece behind them.
    fn with_piece(self, piece: &[u8]) -> Result<(Vec<u8>, Phase), Fault>
        ensures bytes { IfOk result (λ x. x.0.items ≡ self.buffer.items ++ piece.now) }
        ensures on { IfOk result (λ x. IsOn (without_line_ends x.0.items) x.1) }
        ensures err { IfErr result (λ f. f ≡ Fault.NoRoom) }
    {
        let Held { mut buffer, phase } = self;
        match buffer.extend_from_slice(piece) {
            Ok(()) => Ok((buffer, phase)),
            Err(_) => Err(Fault::NoRoom),
        }
    }

    // The connection after a piece.
    fn fed<H: Handler>(
        self,
        alloc: Global,
        handler: &mut H,
        out: &mut String,
        piece: &[u8],
    ) -> Result<Connection, Fault>
        ensures ok { IfOk result
            (λ c. Tells H.answers (self.buffer.items ++ piece.now) (H.state handler.old)
            (string_bytes out.old)
            (connection_view c) (H.state handler.new) (string_bytes out.new)) }
        ensures err { IfErr result (λ f. f ≡ Fault.NoRoom) }
        ensures some { OnErr result
            (TakesSome H.answers (self.buffer.items ++ piece.now)
            (H.state handler.old) (H.state handler.new)) }
        ensures found { FindsNoMore H.finds handler.old handler.new }
    {
        match self.with_piece(piece) {
            Err(fault) => Err(fault),
            Ok((mut buffer, phase)) => match take_all(alloc, handler, out, &buffer, phase) {
                Err(fault) => Err(fault),
                Ok(Ended::Closes) => Ok(Connection::Closed),
                Ok(Ended::Holds(taken, reached)) => {
                    drop_front(&mut buffer, taken);
                    give_back(&mut buffer);
                    Ok(Connection::Holding(Held {
                        buffer,
                        phase: reached,
                    }))
                }
            },
        }
    }
}

impl Connection {
    ghost use Rattle.http_definitions.specs.Connections.{holding, closed, last_words};
    ghost use Rattle.connections.specs.Views.{connection_view, Feeds, FeedsSome, is_closed, held_count};

    /// A new connection. This takes no memory.
    pub fn new(alloc: Global) -> Connection
        ensures { connection_view result ≡ holding [] }
    {
        Connection::Holding(Held::empty(alloc))
    }

    /// Whether the connection is closed.
    pub fn is_closed(&self) -> bool
        ensures { result ≡ is_closed (connection_view self.now) }
    {
        match self {
            Connection::Holding(_) => false,
            Connection::Closed => true,
        }
    }

    /// How many bytes the connection holds.
    pub fn held_len(&self) -> usize
        ensures { result ≡ held_count (connection_view self.now) }
    {
        match self {
            Connection::Holding(held) => held.buffer.len(),
            Connection::Closed => 0,
        }
    }

    /// Takes a piece of the stream, and leaves the bytes to be sent in `out`, in place of what stood there. The only error
    /// is want of memory, [`Fault::NoRoom`]: the connection is closed then, and the first of the requests may be answered.
    pub fn feed<H: Handler>(
        &mut self,
        alloc: Global,
        handler: &mut H,
        piece: &[u8],
        out: &mut String,
    ) -> Result<(), Fault>
        ensures ok { OnOk result
            (Feeds H.answers (connection_view self.old) piece.now (H.state handler.old)
            (string_bytes out.new) (connection_view self.new) (H.state handler.new)) }
        ensures err { IfErr result (λ f. f ≡ Fault.NoRoom) }
        ensures closed { OnErr result (connection_view self.new ≡ closed) }
        ensures some { OnErr result
            (FeedsSome H.answers (connection_view self.old) piece.now
            (H.state handler.old) (H.state handler.new)) }
        ensures found { FindsNoMore H.finds handler.old handler.new }
    {
        out.clear();
        match mem::replace(self, Connection::Closed) {
            Connection::Closed => Ok(()),
            Connection::Holding(held) => match held.fed(alloc, handler, out, piece) {
                Err(fault) => Err(fault),
                Ok(fed) => {
                    *self = fed;
                    Ok(())
                }
            },
        }
    }

    /// What is told at the end of the stream. The only error is want of memory, [`Fault::NoRoom`].
    pub fn last_words(self, alloc: Global) -> Result<Vec<u8>, Fault>
        ensures ok { IfOk result (λ out. out.items ≡ last_words (connection_view self)) }
        ensures err { IfErr result (λ f. f ≡ Fault.NoRoom) }
    {
        let mut out = String::new(alloc);
        if let Connection::Holding(held) = self
            && !held.buffer.is_empty()
        {
            write_closing(alloc, &mut out)?;
        }
        Ok(out.into_bytes())
    }
}
