//! How connections and requests are told and counted.
ghost use Rattle.std.specs.Prelude.{Some};

use connections::{Exchange, Method};
use faults::Fault;
use http_front::{Hub, Journal};
use jiff::Timestamp;
use serving_many::Observer;
use std::alloc::{AllocError, Global};
use std::cell::{Cell, RefCell};
use std::io::Write;
use std::time::{Clock, Duration, Instant};
use std::{fmt, str};

/// How many connections were opened, how many requests were answered on them, and how many of those were refused.
#[derive(Clone, Copy, Debug, Drop)]
pub struct Counts {
    pub connections: u64,
    pub requests: u64,
    pub refusals: u64,
}

impl fmt::Display for Counts {
    ghost use Rattle.service_forms.specs.Logs.{counts_text};

    ghost output = { λ counts. Some (counts_text counts) };

    fn fmt<W: fmt::Write>(&self, f: &mut fmt::Formatter<W>) -> fmt::Result {
        write!(
            f,
            "connections: {}, requests: {}, refusals: {}\n",
            self.connections, self.requests, self.refusals
        )
    }
}

/// Writes a line at once. Where it can't be made or written, it is left out: there is nowhere to say so.
pub fn write_line<W: Write>(out: &mut W, line: Result<String, AllocError>) {
    if let Ok(line) = line {
        let _ = out.write_all(line.as_bytes());
    }
}

/// Counts connections and requests, and writes a line for each connection that ended by a fault, and for each request
/// where that is asked for. A line that can't be written is left out.
#[derive(Drop)]
pub struct Log<'a, C, W> {
    alloc: Global,
    clock: &'a C,
    out: RefCell<W>,
    tells_requests: bool,
    counts: Cell<Counts>,
    /// The connection of what is noted, and since when what is noted next was worked on.
    connection: Cell<u64>,
    since: Cell<Option<Instant>>,
}

impl<'a, C: Clock, W: Write> Log<'a, C, W> {
    /// No connection yet. Lines go to `out`.
    pub fn new(alloc: Global, clock: &'a C, out: W, tells_requests: bool) -> Log<'a, C, W> {
        Log {
            alloc,
            clock,
            out: RefCell::new(out),
            tells_requests,
            counts: Cell::new(Counts {
                connections: 0,
                requests: 0,
                refusals: 0,
            }),
            connection: Cell::new(0),
            since: Cell::new(None),
        }
    }

    /// How many there were.
    pub fn counts(&self) -> Counts {
        self.counts.get()
    }

    // Writes a line, or leaves it out.
    fn tell(&self, line: Result<String, AllocError>) {
        if let Ok(mut out) = self.out.try_borrow_mut() {
            write_line(&mut *out, line);
        }
    }

    // How long what is noted was worked on, up to now.
    fn lap(&self) -> Duration {
        let now = Instant::now(self.clock).ok();
        let since = self.since.replace(now);
        match (since, now) {
            (Some(since), Some(now)) => now.saturating_duration_since(since),
            _ => Duration::ZERO,
        }
    }

    // Writes the line of a request.
    fn tell_request(&self, hub: &Hub, exchange: &Exchange<'_>) {
        let lap = self.lap();
        let request = Line {
            connection: self.connection.get().saturating_add(1),
            place: hub.place_of(exchange.key),
            method: exchange.method,
            path: path_of(exchange.target),
            status: status_of(exchange.reply),
            bytes: exchange.reply.len(),
            microseconds: lap.as_micros(),
        };
        match Timestamp::now(self.clock) {
            Ok(now) => self.tell(format!(in self.alloc; "{now} {request}")),
            Err(_) => self.tell(format!(in self.alloc; "- {request}")),
        }
    }
}

// What is told of a request beside the time.
#[derive(Drop)]
struct Line<'a> {
    connection: u64,
    place: Option<usize>,
    method: Method,
    path: &'a str,
    status: &'a str,
    bytes: usize,
    microseconds: u128,
}

impl fmt::Display for Line<'_> {
    ghost use Rattle.service_forms.specs.Logs.{line_text};

    ghost output = { λ line. Some (line_text line) };

    fn fmt<W: fmt::Write>(&self, f: &mut fmt::Formatter<W>) -> fmt::Result {
        let tenant = Tenant(self.place);
        let method = self.method.name();
        write!(
            f,
            "{} {tenant} {method} {} {} {} {}\n",
            self.connection, self.path, self.status, self.bytes, self.microseconds
        )
    }
}

// The tenant at a place of the tenants' file, if one has the key. Tenants are counted from 1 where they are told.
#[derive(Clone, Copy)]
struct Tenant(Option<usize>);

impl fmt::Display for Tenant {
    ghost use Rattle.service_forms.specs.Logs.{tenant_text};

    ghost output = { λ tenant. Some (tenant_text tenant.0) };

    fn fmt<W: fmt::Write>(&self, f: &mut fmt::Formatter<W>) -> fmt::Result {
        match self.0 {
            Some(place) => {
                let number = place as u128 + 1;
                write!(f, "{number}")
            }
            None => f.write_str("-"),
        }
    }
}

// The target up to its query; `?` where that is no text.
fn path_of(target: &[u8]) -> &str {
    match target.split(|byte| *byte == b'?').next() {
        Some(path) => str::from_utf8(path).unwrap_or("?"),
        None => "?",
    }
}

// The status in the first line of a reply (RFC 9112, section 4).
fn status_of(reply: &[u8]) -> &str {
    match reply.get(9..12) {
        Some(status) => str::from_utf8(status).unwrap_or("-"),
        None => "-",
    }
}

impl<C: Clock, W: Write> Journal for Log<'_, C, W> {
    fn take_up(&self, connection: u64) {
        self.connection.set(connection);
        if self.tells_requests {
            self.since.set(Instant::now(self.clock).ok());
        }
    }

    fn note(&self, hub: &Hub, exchange: &Exchange<'_>) {
        let mut counts = self.counts.get();
        counts.requests = counts.requests.saturating_add(1);
        if status_of(exchange.reply) >= "400" {
            counts.refusals = counts.refusals.saturating_add(1);
        }
        self.counts.set(counts);
        if self.tells_requests {
            self.tell_request(hub, exchange);
        }
    }
}

/// What has a log told how connections go.
#[derive(Drop)]
pub struct Watch<'l, 'a, C, W> {
    pub log: &'l Log<'a, C, W>,
}

impl<C: Clock, W: Write> Observer for Watch<'_, '_, C, W> {
    fn opened(&mut self, _id: u64) {
        let mut counts = self.log.counts.get();
        counts.connections = counts.connections.saturating_add(1);
        self.log.counts.set(counts);
    }

    fn ended(&mut self, id: u64, fault: Option<&Fault>) {
        if let Some(fault) = fault {
            let number = id.saturating_add(1);
            let name = fault.name();
            self.log.tell(format!(in self.log.alloc; "connection {number}: {name}\n"));
        }
    }
}
