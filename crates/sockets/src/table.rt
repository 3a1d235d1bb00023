//! Sockets by their numbers, and which of them are told ready next.

ghost use Rattle.std.specs.Prelude.{◌≡◌, ◌≢◌, ◌≤◌, ◌+◌, ℕ, None, Some, Bool, true, false, IfSome, IfNone, OnOk, OnErr, option_map};
ghost use Rattle.std.specs.List.{IsDistinct, list_any};
ghost use Rattle.std.specs.Ordering.{nat_cmp, eq_by_cmp};
ghost use Rattle.std.specs.BTreeMap.{get, btree_map_len};
ghost use Rattle.std.specs.VecDeque.{deque_capacity};
ghost use Rattle.std.proofs.Props.{props};
ghost use Rattle.sockets.specs.Socket.{is_queued, is_open, is_unqueued, gives_way_in, with_status, as_queued, as_told};

use crate::socket::Socket;
use crate::status::Status;
use mio::net::TcpStream;
use network::Client;
use std::alloc::{AllocError, Global};
use std::collections::{BTreeMap, VecDeque};
use std::time::Instant;

/// Sockets by their numbers, which are counted from 0 and never given twice, and the queue of those that are told ready
/// next. A socket stands in the queue once at most, and there is room in it for all of them.
#[derive(Drop)]
pub struct Table {
    pub(crate) sockets: BTreeMap<u64, Socket>,
    queue: VecDeque<u64>,
    count: u64,
    ghost distinct: { IsDistinct (eq_by_cmp nat_cmp) queue.items } by { Prim.hlevel props },
    ghost queued: { (k : ℕ) → list_any (eq_by_cmp nat_cmp k) queue.items
        ≡ is_queued (get nat_cmp sockets k) },
    ghost room: { btree_map_len sockets ≤ deque_capacity queue },
    ghost fresh: { (k : ℕ) → count ≤ k → get nat_cmp sockets k ≡ None },
}

impl Table {
    ghost use Rattle.sockets.specs.Table.{socket_at, client_at, OthersStay, IsDue, StaysDue, StaysDueBut};

    /// No socket. This takes no memory.
    pub(crate) fn new(alloc: Global) -> Table
        ensures none { (k : ℕ) → socket_at result k ≡ None }
        ensures count { result.count ≡ 0 }
    {
        Table {
            sockets: BTreeMap::new(alloc),
            queue: VecDeque::new(alloc),
            count: 0,
        }
    }

    /// How many sockets there are.
    pub(crate) fn len(&self) -> usize
        ensures { result ≡ btree_map_len self.now.sockets }
    {
        self.sockets.len()
    }

    /// How many stand in the queue.
    pub(crate) fn queue_len(&self) -> usize {
        self.queue.len()
    }

    /// How many numbers were given, which is the next number.
    pub(crate) fn count(&self) -> u64
        ensures { result ≡ self.now.count }
    {
        self.count
    }

    /// What is known of a connection.
    pub(crate) fn status(&self, id: u64) -> Option<Status>
        ensures { result ≡ option_map (λ s. s.status) (socket_at self.now id) }
    {
        match self.sockets.get(&id) {
            Some(socket) => Some(socket.status),
            None => None,
        }
    }

    /// Whether a connection is open.
    pub(crate) fn is_open(&self, id: u64) -> bool
        ensures { result ≡ is_open (socket_at self.now id) }
    {
        match self.sockets.get(&id) {
            Some(socket) => !socket.status.client.is_absent(),
            None => false,
        }
    }

    /// Whether a socket stands in the queue.
    pub(crate) fn is_queued(&self, id: u64) -> bool
        ensures { result ≡ is_queued (socket_at self.now id) }
    {
        match self.sockets.get(&id) {
            Some(socket) => socket.is_queued,
            None => false,
        }
    }

    /// Whether a connection gave way, and no write was tried since.
    pub(crate) fn gives_way(&self, id: u64) -> bool
        ensures { result ≡ gives_way_in (socket_at self.now id) }
    {
        match self.sockets.get(&id) {
            Some(socket) => socket.status.gives_way,
            None => false,
        }
    }

    /// The socket of a connection.
    pub(crate) fn stream(&self, id: u64) -> Option<&TcpStream> {
        match self.sockets.get(&id) {
            Some(socket) => Some(&socket.stream),
            None => None,
        }
    }

    /// The socket of an open connection.
    pub(crate) fn open_stream(&self, id: u64) -> Option<&TcpStream> {
        match self.sockets.get(&id) {
            Some(socket) if !socket.status.client.is_absent() => Some(&socket.stream),
            _ => None,
        }
    }

    /// The first connection from this number on about which something has to be done.
    pub(crate) fn next_to_look_at(&self, from: u64, now: Instant, ends: bool) -> Option<u64> {
        for (id, socket) in self.sockets.range(from..) {
            if socket.needs_a_look(now, ends) {
                return Some(*id);
            }
        }
        None
    }

    /// Makes room in the queue for one more socket. The only error is want of memory.
    pub(crate) fn reserve(&mut self) -> Result<(), AllocError>
        ensures sockets { self.new.sockets ≡ self.old.sockets }
        ensures count { self.new.count ≡ self.old.count }
        ensures room { OnOk result
            (btree_map_len self.new.sockets + 1 ≤ deque_capacity self.new.queue) }
    {
        let more = self.sockets.len() + 1;
        self.queue.reserve(more)
    }

    /// Takes a socket in, under the next number, and puts it into the queue. The only error is want of memory; then the
    /// number stays free.
    pub(crate) fn add(&mut self, stream: TcpStream, status: Status) -> Result<(), AllocError>
        requires room { btree_map_len self.old.sockets + 1 ≤ deque_capacity self.old.queue }
        requires new { status.client ≡ Client.Present }
        ensures count { OnOk result (self.new.count ≡ self.old.count + 1) }
        ensures comes { OnOk result (client_at self.new self.old.count ≡ Client.Present) }
        ensures due { (d : Bool) → IsDue self.new d self.old.count }
        ensures others { OthersStay self.old.count self.old self.new }
        ensures free { OnErr result (socket_at self.new self.old.count ≡ None) }
        ensures same_count { OnErr result (self.new.count ≡ self.old.count) }
    {
        let id = self.count;
        let next = id.checked_add(1).ok_or(AllocError)?;
        let socket = Socket {
            stream,
            status,
            is_queued: false,
        };
        match self.sockets.insert(id, socket) {
            Ok(_) => {
                self.count = next;
                self.queue(id);
                Ok(())
            }
            Err(_) => Err(AllocError),
        }
    }

    /// Sets what is known of a connection.
    pub(crate) fn set(&mut self, id: u64, status: Status)
        ensures set { socket_at self.new id
            ≡ option_map (with_status status) (socket_at self.old id) }
        ensures others { OthersStay id self.old self.new }
        ensures count { self.new.count ≡ self.old.count }
    {
        if let Some(socket) = self.sockets.get_mut(&id) {
            socket.status = status;
        }
    }

    /// Puts a socket at the end of the queue, if it doesn't stand there.
    pub(crate) fn queue(&mut self, id: u64)
        ensures queued { socket_at self.new id ≡ option_map as_queued (socket_at self.old id) }
        ensures others { OthersStay id self.old self.new }
        ensures count { self.new.count ≡ self.old.count }
    {
        if mark(&mut self.sockets, id) {
            self.queue.push_back_reserved(id);
        }
    }

    /// Takes the first out of the queue. It waits for nothing then.
    pub(crate) fn pop(&mut self) -> Option<u64>
        ensures none { IfNone result ((k : ℕ) → socket_at self.new k ≡ socket_at self.old k) }
        ensures told { IfSome result (λ id.
            socket_at self.new id ≡ option_map as_told (socket_at self.old id)) }
        ensures others { IfSome result (λ id. OthersStay id self.old self.new) }
        ensures count { self.new.count ≡ self.old.count }
    {
        let id = self.queue.pop_front()?;
        unmark(&mut self.sockets, id);
        Some(id)
    }

    /// Closes a socket that doesn't stand in the queue.
    pub(crate) fn remove(&mut self, id: u64)
        requires { is_queued (socket_at self.old id) ≡ false }
        ensures none { socket_at self.new id ≡ None }
        ensures others { OthersStay id self.old self.new }
        ensures count { self.new.count ≡ self.old.count }
    {
        let _ = self.sockets.remove(&id);
    }
}

/// Marks a socket that doesn't stand in the queue as one that does. Whether there was one to mark.
fn mark(sockets: &mut BTreeMap<u64, Socket>, id: u64) -> bool
    ensures result { result ≡ is_unqueued (get nat_cmp sockets.old id) }
    ensures marked { get nat_cmp sockets.new id
        ≡ option_map as_queued (get nat_cmp sockets.old id) }
    ensures others { (k : ℕ) → k ≢ id → get nat_cmp sockets.new k ≡ get nat_cmp sockets.old k }
    ensures len { btree_map_len sockets.new ≡ btree_map_len sockets.old }
{
    match sockets.get_mut(&id) {
        Some(socket) => {
            let is_unqueued = !socket.is_queued;
            socket.is_queued = true;
            is_unqueued
        }
        None => false,
    }
}

/// Marks a socket as one that doesn't stand in the queue and waits for nothing.
fn unmark(sockets: &mut BTreeMap<u64, Socket>, id: u64)
    ensures marked { get nat_cmp sockets.new id ≡ option_map as_told (get nat_cmp sockets.old id) }
    ensures others { (k : ℕ) → k ≢ id → get nat_cmp sockets.new k ≡ get nat_cmp sockets.old k }
    ensures len { btree_map_len sockets.new ≡ btree_map_len sockets.old }
{
    if let Some(socket) = sockets.get_mut(&id) {
        socket.is_queued = false;
        socket.status = socket.status.told();
    }
}
