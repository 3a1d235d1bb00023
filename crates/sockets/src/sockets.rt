//! Many connections on sockets, none of which waits.

ghost use Rattle.std.specs.Prelude.{◌≡◌, [], IfOk};

use crate::limits::Limits;
use crate::rest::Resting;
use crate::table::Table;
use crate::tuning::{MOST_EVENTS, TICK};
use crate::turns::Turn;
use mio::net::TcpListener;
use mio::unix::SourceFd;
use mio::{Events, Interest, Poll, Token};
use network::Transcript;
use std::alloc::Global;
use std::io::{self, ErrorKind};
use std::net::{Net, SocketAddr};
use std::time::{Clock, Duration, Instant};

/// What the listener's events have as number, and those of standard input.
pub(crate) const LISTENER: u64 = u64::MAX;

pub(crate) const INPUT: u64 = u64::MAX - 1;

/// Many connections on sockets, under the numbers 0, 1, 2, .., in the order in which they were accepted.
#[derive(Drop)]
pub struct Sockets<'r, C> {
    pub(crate) clock: &'r C,
    pub(crate) connections: usize,
    pub(crate) limits: Limits,
    pub(crate) poll: Poll,
    /// None once no more clients are accepted.
    pub(crate) listener: Option<TcpListener>,
    pub(crate) address: SocketAddr,
    pub(crate) events: Events,
    pub(crate) table: Table,
    /// How many of the queue are told before the system is asked again.
    pub(crate) left: usize,
    /// Those of the queue that rest.
    pub(crate) resting: Resting,
    /// From when on nobody else was ready, as long as some rest.
    pub(crate) quiet_since: Option<Instant>,
    /// How often a connection took a turn behind another's.
    pub(crate) changes: u64,
    /// How many turns there were in which no connection gave way.
    pub(crate) plain_turns: u64,
    pub(crate) turn: Turn,
    /// A connection gave way in this round.
    pub(crate) is_long: bool,
    /// When the end of this round began, where a connection gave way.
    pub(crate) end: Option<Instant>,
    pub(crate) now: Instant,
    /// When all connections are looked at again, and from which number on.
    pub(crate) look: Option<Instant>,
    pub(crate) look_from: u64,
    /// A client may wait to be accepted.
    pub(crate) may_accept: bool,
    /// A client may wait that couldn't be accepted.
    pub(crate) is_short: bool,
    pub(crate) reads: Transcript,
    pub(crate) writes: Transcript,
    pub(crate) ways: Transcript,
}

impl<'r, C: Clock + Net> Sockets<'r, C> {
    ghost use Rattle.sockets.specs.Sockets.{reads_of, writes_of};

    /// Listens at an IP address and a port, as `127.0.0.1:8080` or `[::1]:0`; at port 0 the system chooses one. Any other
    /// text is an error, also a name. So many connections at most are open at once.
    pub fn bind(
        alloc: Global,
        runtime: &'r C,
        address: &str,
        connections: usize,
        limits: Limits,
    ) -> io::Result<Sockets<'r, C>>
        ensures reads { IfOk result (λ sockets. reads_of sockets ≡ []) }
        ensures writes { IfOk result (λ sockets. writes_of sockets ≡ []) }
    {
        let Ok(address) = address.parse::<SocketAddr>() else {
            return Err(io::Error::from(ErrorKind::InvalidInput));
        };
        let mut listener = TcpListener::bind(runtime, address)?;
        let poll = Poll::new(runtime)?;
        let token = Token(LISTENER as usize);
        poll.registry()
            .register(&mut listener, token, Interest::READABLE)?;
        hear_input(&poll);
        let now = Instant::now(runtime)?;
        Ok(Sockets {
            clock: runtime,
            connections,
            limits,
            poll,
            address: listener.local_addr()?,
            listener: Some(listener),
            events: Events::with_capacity(alloc, MOST_EVENTS)?,
            table: Table::new(alloc),
            left: 0,
            resting: Resting::none(),
            quiet_since: None,
            changes: 0,
            plain_turns: 0,
            turn: Turn {
                id: LISTENER,
                start: None,
            },
            is_long: false,
            end: None,
            now,
            look: now.checked_add(Duration::from_millis(TICK)),
            look_from: 0,
            may_accept: true,
            is_short: false,
            reads: Transcript::new(),
            writes: Transcript::new(),
            ways: Transcript::new(),
        })
    }
}

/// Has the end of standard input be told. A file can't be waited for, and is no sign.
fn hear_input(poll: &Poll) {
    let input = 0;
    let token = Token(INPUT as usize);
    let _ = poll
        .registry()
        .register(&mut SourceFd(&input), token, Interest::READABLE);
}

impl<C> Sockets<'_, C> {
    /// The address at which it listens, with the port that the system chose where 0 was asked for.
    pub fn local_addr(&self) -> SocketAddr {
        self.address
    }

    /// How many connections were accepted.
    pub fn accepted(&self) -> u64 {
        self.table.count()
    }

    /// Whether no more clients are accepted.
    pub(crate) fn ends(&self) -> bool {
        self.listener.is_none()
    }

    /// Until when a connection may wait from now on.
    pub(crate) fn idle_until(&self) -> Option<Instant> {
        self.now.checked_add(self.limits.wait)
    }
}
