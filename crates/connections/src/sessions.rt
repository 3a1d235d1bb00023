//! Connections by their ids.
ghost use Rattle.std.specs.Prelude.{◌≡◌, ◌⊎◌, ℕ, None, OnOk, OnErr, string_bytes};
ghost use Rattle.connections.specs.Found.{FindsNoMore, FindsOnly};

use crate::connection::Connection;
use crate::handlers::{Handler, Unsettled};
use faults::Fault;
use std::alloc::Global;
use std::collections::BTreeMap;

/// Connections by their ids, and what answers their requests. An id is open from [`Sessions::open`] to
/// [`Sessions::end`], also while its connection is closed.
///
/// Contracts see them by `handler_of` and `connection_at`.
#[derive(Drop)]
pub struct Sessions<H> {
    alloc: Global,
    handler: H,
    connections: BTreeMap<u64, Connection>,
}

impl<H> Sessions<H> {
    ghost use Rattle.connections.specs.Connected.{handler_of, connection_at, OthersStay, IsOpened, IsEnded, is_closed_at, held_count_at};

    /// No connection. This takes no memory.
    pub fn new(alloc: Global, handler: H) -> Sessions<H>
        ensures none { (id : ℕ) → connection_at result id ≡ None }
        ensures handler { handler_of result ≡ handler }
    {
        Sessions {
            alloc,
            handler,
            connections: BTreeMap::new(alloc),
        }
    }

    /// What answers, once no connection is served any more.
    pub fn into_handler(self) -> H
        ensures { result ≡ handler_of self }
    {
        let Sessions { handler, .. } = self;
        handler
    }

    /// Opens a connection. The errors are [`Fault::IdInUse`] and want of memory, [`Fault::NoRoom`]; then nothing changes.
    pub fn open(&mut self, id: u64) -> Result<(), Fault>
        ensures opened { IsOpened (connection_at self.old id) result (connection_at self.new id) }
        ensures others { OthersStay id self.old self.new }
        ensures handler { handler_of self.new ≡ handler_of self.old }
    {
        if self.connections.contains_key(&id) {
            return Err(Fault::IdInUse);
        }
        match self.connections.insert(id, Connection::new(self.alloc)) {
            Ok(_) => Ok(()),
            Err(_) => Err(Fault::NoRoom),
        }
    }

    /// Ends a connection and answers the bytes to be sent at last: the closing fault where it holds a part of a request.
    /// The errors are [`Fault::NoSession`] and want of memory, [`Fault::NoRoom`]; the id is free behind each.
    pub fn end(&mut self, alloc: Global, id: u64) -> Result<Vec<u8>, Fault>
        ensures ended { IsEnded (connection_at self.old id) result (connection_at self.new id) }
        ensures others { OthersStay id self.old self.new }
        ensures handler { handler_of self.new ≡ handler_of self.old }
    {
        match self.connections.remove(&id) {
            Some(connection) => connection.last_words(alloc),
            None => Err(Fault::NoSession),
        }
    }

    /// Whether the connection is closed; one that isn't open is.
    pub fn is_closed(&self, id: u64) -> bool
        ensures { result ≡ is_closed_at (connection_at self.now id) }
    {
        match self.connections.get(&id) {
            Some(connection) => connection.is_closed(),
            None => true,
        }
    }

    /// How many bytes a connection holds, of a request that isn't whole; none where it is closed or isn't open.
    pub fn held_len(&self, id: u64) -> usize
        ensures { result ≡ held_count_at (connection_at self.now id) }
    {
        match self.connections.get(&id) {
            Some(connection) => connection.held_len(),
            None => 0,
        }
    }
}

impl<H: Handler> Sessions<H> {
    ghost use Rattle.connections.specs.Connected.{handler_of, connection_at, OthersStay, IsAnswered, IsFed};

    /// Takes a piece of a connection's stream and answers the bytes to be sent. The errors are [`Fault::NoSession`], which
    /// changes nothing, and want of memory, [`Fault::NoRoom`]: then the connection is closed, no bytes are answered, and
    /// the first of the requests may be answered.
    ///
    /// How streams are cut decides nothing: [`events_are_answered`](crate::events_are_answered),
    /// [`cuts_decide_nothing`](crate::cuts_decide_nothing).
    pub fn feed(&mut self, alloc: Global, id: u64, piece: &[u8]) -> Result<Vec<u8>, Fault>
        ensures fed { IsAnswered H.answers (connection_at self.old id) piece.now
            (H.state (handler_of self.old)) result
            (connection_at self.new id) (H.state (handler_of self.new)) }
        ensures others { OthersStay id self.old self.new }
        ensures found { FindsNoMore H.finds (handler_of self.old) (handler_of self.new) }
    {
        let mut out = String::new(alloc);
        match self.feed_into(alloc, id, piece, &mut out) {
            Ok(()) => Ok(out.into_bytes()),
            Err(fault) => Err(fault),
        }
    }

    /// [`Sessions::feed`] into memory that is lent: the bytes to be sent are left in `out`, in place of what stood there.
    /// After an error there is nothing in `out` to be sent.
    pub fn feed_into(
        &mut self,
        alloc: Global,
        id: u64,
        piece: &[u8],
        out: &mut String,
    ) -> Result<(), Fault>
        ensures fed { IsFed H.answers (connection_at self.old id) piece.now
            (H.state (handler_of self.old)) result (string_bytes out.new)
            (connection_at self.new id) (H.state (handler_of self.new)) }
        ensures others { OthersStay id self.old self.new }
        ensures found { FindsNoMore H.finds (handler_of self.old) (handler_of self.new) }
    {
        match self.connections.get_mut(&id) {
            Some(connection) => {
                self.handler.take_up(id);
                connection.feed(alloc, &mut self.handler, piece, out)
            }
            None => Err(Fault::NoSession),
        }
    }

    /// How many changes were granted up to now, as [`Handler::changes`] counts them.
    pub fn changes(&self) -> u64 {
        self.handler.changes()
    }

    /// Makes durable what was answered, as [`Handler::settle`] does. Nothing that was answered since the last time may be
    /// told before, nor where it fails.
    pub fn settle(&mut self) -> Result<(), Unsettled>
        ensures connections { (k : ℕ) → connection_at self.new k ≡ connection_at self.old k }
        ensures state { H.state (handler_of self.new) ≡ H.state (handler_of self.old) }
        ensures kept { OnOk result
            (FindsOnly H.finds (handler_of self.new) (H.state (handler_of self.new))) }
        ensures crash { (s : H.State) → H.finds (handler_of self.new) s
            → H.finds (handler_of self.old) s ⊎ (s ≡ H.state (handler_of self.old)) }
        ensures err { OnErr result H.keeps }
    {
        self.handler.settle()
    }
}
