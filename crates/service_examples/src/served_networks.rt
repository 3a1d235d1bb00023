//! Many connections that a script tells of, served side by side.

use crate::handlers::{sessions, sessions_with_most};
use crate::served_hubs::{POST, PUT, STORED};
use crate::texts::expect_like;
use network::Happening::{self, *};
use network::{Fault, MemoryNetwork};
use serving_many::{Observer, Outage, Unsettled, serve_all};
use std::alloc::{AllocError, Global};
use std::process::Abort;

// Notes who was opened and who has ended, as `0+` and `0-`, with the fault.
#[derive(Drop)]
struct Noting {
    alloc: Global,
    text: String,
}

impl Noting {
    fn note(&mut self, id: u64, sign: &str, name: &str) -> Result<(), AllocError> {
        let line = format!(in self.alloc; "{id}{sign}{name} ")?;
        self.text.push_str(line.as_str())
    }
}

impl Observer for Noting {
    fn opened(&mut self, id: u64) {
        let _ = self.note(id, "+", "");
    }

    fn ended(&mut self, id: u64, fault: Option<&Fault>) {
        let name = match fault {
            Some(fault) => fault.name(),
            None => "",
        };
        let _ = self.note(id, "-", name);
    }
}

/// What becomes of a connection: its number, what is written on it, and how many bytes that arrived aren't read.
pub type Outcome<'a> = (u64, &'a str, usize);

/// What happens, and what becomes of the connections.
#[derive(Clone, Copy)]
pub struct Script<'h, 'a> {
    pub why: &'a str,
    /// How many bytes all connections may keep.
    pub most_memory: usize,
    pub happenings: &'h [Happening<'h>],
    pub outcomes: &'a [Outcome<'a>],
    /// What is noted of those that were opened and have ended.
    pub told: &'a str,
}

/// Memory that no script fills.
pub const ENOUGH: usize = 1_000_000;

/// A last request, which is replied to by [`LAST_BAD_ROUTE`](crate::served_hubs::LAST_BAD_ROUTE).
pub const LAST: &str = "GET /bundle HTTP/1.0\r\n\r\n";

fn new_noting(alloc: Global) -> Noting {
    Noting {
        alloc,
        text: String::new(alloc),
    }
}

fn written(alloc: Global, network: &MemoryNetwork<'_>, id: u64) -> Result<String, Fault> {
    Ok(String::from_utf8_lossy(alloc, network.written(id))?)
}

fn expect_outcome(
    rt: &impl Abort,
    alloc: Global,
    network: &MemoryNetwork<'_>,
    outcome: &Outcome<'_>,
    why: &str,
) {
    let (id, wanted, unread) = *outcome;
    expect_like(rt, alloc, written(alloc, network, id), wanted, why);
    assert_eq!(rt; network.unread(id), unread, "{why}: unread of {id}");
}

fn mark_of_end(alloc: Global, id: u64) -> Result<String, AllocError> {
    format!(in alloc; "{id}-")
}

// One that is told to have ended was let go.
fn expect_let_go(rt: &impl Abort, alloc: Global, network: &MemoryNetwork<'_>, id: u64, told: &str) {
    match mark_of_end(alloc, id) {
        Ok(mark) => assert!(rt;
            network.is_closed(id) || !told.contains(mark.as_str()),
            "{told}"
        ),
        Err(_) => panic!(rt; "no room"),
    }
}

fn expect_outcomes(
    rt: &impl Abort,
    alloc: Global,
    network: &MemoryNetwork<'_>,
    script: &Script<'_, '_>,
) {
    for outcome in script.outcomes {
        expect_outcome(rt, alloc, network, outcome, script.why);
        expect_let_go(rt, alloc, network, outcome.0, script.told);
    }
}

/// Expects that the script is served so.
pub fn expect_script(rt: &impl Abort, alloc: Global, script: &Script<'_, '_>) {
    let mut sessions = sessions(alloc);
    let mut network = MemoryNetwork::new(alloc, script.happenings);
    let mut observer = new_noting(alloc);
    let served = serve_all(
        alloc,
        &mut sessions,
        &mut network,
        &mut observer,
        script.most_memory,
    );
    assert!(rt;
        served.is_ok() && observer.text.trim_end() == script.told,
        "{}: {}",
        script.why,
        observer.text
    );
    expect_outcomes(rt, alloc, &network, script);
}

const UNSETTLED: &[Happening<'static>] = &[
    Opens(0),
    Opens(1),
    Arrives(0, PUT),
    Rests,
    Rests,
    Arrives(0, POST),
    Arrives(1, POST),
    Rests,
];

#[test]
fn nothing_of_a_round_that_is_unsettled_is_written(rt: HostRuntime) {
    let alloc = rt.alloc();
    let mut sessions = sessions_with_most(alloc, 1);
    let mut network = MemoryNetwork::new(alloc, UNSETTLED);
    let mut observer = new_noting(alloc);
    let served = serve_all(alloc, &mut sessions, &mut network, &mut observer, ENOUGH);
    assert!(rt; served == Err(Outage::Unsettled(Unsettled::Failed)));
    assert!(rt; network.written(0) == STORED.as_bytes() && network.written(1).is_empty());
}
