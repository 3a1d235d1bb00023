//! What is sent on connections, whatever answers behind them.

use crate::texts::{expect_like, filled};
use connections::{Handler, Sessions};
use requests::Fault;
use std::alloc::Global;
use std::process::Abort;

fn text(alloc: Global, sent: Result<Vec<u8>, Fault>) -> Result<String, Fault> {
    Ok(String::from_utf8_lossy(alloc, &sent?)?)
}

// What is sent for each byte alone, one after the other.
fn fed_in_bytes<H: Handler>(
    alloc: Global,
    sessions: &mut Sessions<H>,
    id: u64,
    bytes: &[u8],
) -> Result<Vec<u8>, Fault> {
    let mut out = Vec::new(alloc);
    for byte in bytes {
        out.extend_from_slice(&sessions.feed(alloc, id, &[*byte])?)?;
    }
    Ok(out)
}

// What stands in memory that had something else before.
fn fed_into<H: Handler>(
    alloc: Global,
    sessions: &mut Sessions<H>,
    id: u64,
    bytes: &[u8],
) -> Result<Vec<u8>, Fault> {
    let mut out = String::from_str(alloc, "sent before")?;
    sessions.feed_into(alloc, id, bytes, &mut out)?;
    Ok(out.into_bytes())
}

fn opened<H: Handler>(
    alloc: Global,
    sessions: &mut Sessions<H>,
    id: u64,
) -> Result<Vec<u8>, Fault> {
    sessions.open(id)?;
    Ok(Vec::new(alloc))
}

// What a step sends, or its fault: `open`, `feed`, `feed into` lent memory, `bytes` one by one, or `end`.
fn stepped<H: Handler>(
    alloc: Global,
    sessions: &mut Sessions<H>,
    kind: &str,
    id: u64,
    bytes: &str,
) -> Result<String, Fault> {
    let bytes = filled(alloc, bytes)?;
    let bytes = bytes.as_bytes();
    let sent = match kind {
        "open" => opened(alloc, sessions, id),
        "feed" => sessions.feed(alloc, id, bytes),
        "feed into" => fed_into(alloc, sessions, id, bytes),
        "bytes" => fed_in_bytes(alloc, sessions, id, bytes),
        _ => sessions.end(alloc, id),
    };
    text(alloc, sent)
}

/// What is done with a connection, its id, the bytes, what is sent, and whether it is closed then.
pub struct Step {
    pub why: &'static str,
    pub kind: &'static str,
    pub id: u64,
    pub bytes: &'static str,
    pub wanted: &'static str,
    pub is_closed: bool,
}

fn expect_step<H: Handler>(
    rt: &impl Abort,
    alloc: Global,
    sessions: &mut Sessions<H>,
    step: &Step,
) {
    let found = stepped(alloc, sessions, step.kind, step.id, step.bytes);
    expect_like(rt, alloc, found, step.wanted, step.why);
    assert_eq!(rt; sessions.is_closed(step.id), step.is_closed, "{}", step.why);
}

/// Expects that each step goes so.
pub fn expect_steps<H: Handler>(
    rt: &impl Abort,
    alloc: Global,
    sessions: &mut Sessions<H>,
    steps: &[Step],
) {
    for step in steps {
        expect_step(rt, alloc, sessions, step);
    }
}

/// What is sent for these bytes on connection 1, which is new.
pub fn sent_on_a_new_connection<H: Handler>(
    alloc: Global,
    sessions: &mut Sessions<H>,
    bytes: &str,
) -> Result<String, Fault> {
    sessions.open(1)?;
    stepped(alloc, sessions, "feed", 1, bytes)
}

/// What is sent for a stream on connection 1 and for its end. The id is free then.
pub fn sent_to_the_end<H: Handler>(
    alloc: Global,
    sessions: &mut Sessions<H>,
    bytes: &[u8],
) -> Result<String, Fault> {
    sessions.open(1)?;
    let mut out = sessions.feed(alloc, 1, bytes)?;
    out.extend_from_slice(&sessions.end(alloc, 1)?)?;
    sessions.open(1)?;
    Ok(String::from_utf8_lossy(alloc, &out)?)
}

/// What is sent on connection 1 for a stream in two pieces and for its end, and on connection 2 for another between them.
pub fn sent_in_two<H: Handler>(
    alloc: Global,
    sessions: &mut Sessions<H>,
    pieces: (&[u8], &[u8]),
    other: &[u8],
) -> Result<(String, String), Fault> {
    sessions.open(1)?;
    sessions.open(2)?;
    let mut out = sessions.feed(alloc, 1, pieces.0)?;
    let between = sessions.feed(alloc, 2, other)?;
    out.extend_from_slice(&sessions.feed(alloc, 1, pieces.1)?)?;
    out.extend_from_slice(&sessions.end(alloc, 1)?)?;
    let out = String::from_utf8_lossy(alloc, &out)?;
    Ok((out, String::from_utf8_lossy(alloc, &between)?))
}

/// Expects that this was sent on connection 1, and the other on connection 2.
pub fn expect_both(
    rt: &impl Abort,
    sent: Result<(String, String), Fault>,
    wanted: (&str, &str),
    cut: usize,
) {
    match sent {
        Ok((out, other)) => {
            assert_eq!(rt; other.as_str(), wanted.1, "{cut}");
            assert_eq!(rt; out.as_str(), wanted.0, "{cut}");
        }
        Err(fault) => panic!(rt; "{cut}: {fault}"),
    }
}
