//! Streams that a reader gives and a writer takes, whole or failing on the way.

use crate::handlers::{sessions, sessions_with_most};
use crate::served_hubs::{EXAMPLE, EXAMPLE_REPLIES, POST, PUT, PUT_FRONT, STORED, hub_sessions};
use crate::texts::{expect_holds, filled, push_copies};
use http_front::Fault;
use serving::{Failure, MemoryReader, MemoryWriter, Pace, Pause, Recorded, Unsettled, serve};
use std::alloc::{AllocError, Global};
use std::process::Abort;

fn reader(alloc: Global, stream: &str, pace: Pace) -> Result<MemoryReader, AllocError> {
    let bytes = Vec::from_slice(alloc, stream.as_bytes())?;
    Ok(MemoryReader::new(bytes, pace))
}

fn pace(most: usize, calls: usize, pause: Pause) -> Pace {
    Pace { most, calls, pause }
}

/// What became of the example on a new server.
#[derive(Drop)]
struct Served {
    failure: Option<Failure>,
    /// Whether the document is stored then. The id has to be free.
    is_stored: bool,
    writer: MemoryWriter,
}

fn serve_example(alloc: Global, reading: Pace, writing: Pace) -> Result<Served, Fault> {
    let mut sessions = hub_sessions(alloc)?;
    let mut reader = reader(alloc, EXAMPLE, reading)?;
    let mut writer = MemoryWriter::new(alloc, writing);
    let failure = serve(alloc, &mut sessions, 1, &mut reader, &mut writer).err();
    sessions.open(1)?;
    let output = sessions.feed(alloc, 1, POST.as_bytes())?;
    Ok(Served {
        failure,
        is_stored: output.starts_with(b"HTTP/1.1 200 OK\r\n"),
        writer,
    })
}

fn is_answered(alloc: Global, most: usize) -> Result<bool, Fault> {
    let pace = pace(most, usize::MAX, Pause::Stops);
    let served = serve_example(alloc, pace, pace)?;
    let is_written = served.writer.bytes() == EXAMPLE_REPLIES.as_bytes();
    Ok(served.failure.is_none() && served.is_stored && is_written)
}

#[test]
fn a_stream_is_answered_to_its_end(rt: HostRuntime) {
    expect_holds(&rt, is_answered(rt.alloc(), 1), "bytes");
    expect_holds(&rt, is_answered(rt.alloc(), 7), "pieces of 7 bytes");
    expect_holds(&rt, is_answered(rt.alloc(), 4096), "one piece");
}

// Whether an id that is open isn't served, and goes on as if nothing had been.
fn is_open_id_refused(alloc: Global) -> Result<bool, Fault> {
    let mut sessions = hub_sessions(alloc)?;
    sessions.open(1)?;
    let before = sessions.feed(alloc, 1, PUT_FRONT.as_bytes())?;
    let mut reader = reader(alloc, EXAMPLE, Pace::WHOLE)?;
    let mut writer = MemoryWriter::new(alloc, Pace::WHOLE);
    let refused = serve(alloc, &mut sessions, 1, &mut reader, &mut writer);
    let after = sessions.feed(alloc, 1, b"}")?;
    let is_refused = refused == Err(Failure::Fault(Fault::IdInUse));
    let is_silent = before.is_empty() && writer.bytes().is_empty();
    Ok(is_refused && is_silent && after.starts_with(b"HTTP/1.1 201 Created\r\n"))
}

#[test]
fn an_open_id_is_not_served(rt: HostRuntime) {
    expect_holds(&rt, is_open_id_refused(rt.alloc()), "an open id");
}

fn fails_at_read(alloc: Global, calls: usize) -> Result<bool, Fault> {
    let served = serve_example(alloc, pace(1, calls, Pause::Fails), Pace::WHOLE)?;
    let written = served.writer.bytes();
    Ok(
        served.failure == Some(Failure::Fault(Fault::ReadFailed))
            && served.is_stored == (PUT.len() <= calls)
            && EXAMPLE_REPLIES.as_bytes().starts_with(written)
            && written.is_empty() == (calls < PUT.len()),
    )
}

#[test]
fn a_reader_that_fails_at_each_read(rt: HostRuntime) {
    for calls in 0..=EXAMPLE.len() {
        expect_holds(&rt, fails_at_read(rt.alloc(), calls), "a read");
    }
}

fn gives_up_at_write(alloc: Global, calls: usize, pause: Pause) -> Result<bool, Fault> {
    let served = serve_example(alloc, Pace::WHOLE, pace(1, calls, pause))?;
    let written = served.writer.bytes();
    Ok(
        served.failure == Some(Failure::Fault(Fault::WriteFailed))
            && served.is_stored
            && written.len() == calls
            && EXAMPLE_REPLIES.as_bytes().starts_with(written),
    )
}

#[test]
fn a_writer_that_fails_or_stops_at_each_write(rt: HostRuntime) {
    for calls in 0..EXAMPLE_REPLIES.len() {
        expect_holds(
            &rt,
            gives_up_at_write(rt.alloc(), calls, Pause::Fails),
            "fails",
        );
        expect_holds(
            &rt,
            gives_up_at_write(rt.alloc(), calls, Pause::Stops),
            "stops",
        );
    }
}

// Whether this is written where a handler may be asked so often before it fails to settle.
fn settles_before(alloc: Global, most: usize, wanted: &str) -> Result<bool, Fault> {
    let mut sessions = sessions_with_most(alloc, most);
    let mut reader = reader(alloc, EXAMPLE, pace(1, usize::MAX, Pause::Stops))?;
    let mut writer = MemoryWriter::new(alloc, Pace::WHOLE);
    let served = serve(alloc, &mut sessions, 1, &mut reader, &mut writer);
    let is_unsettled = served == Err(Failure::Unsettled(Unsettled::Failed));
    Ok(is_unsettled && writer.bytes() == wanted.as_bytes())
}

#[test]
fn nothing_of_a_piece_that_is_unsettled_is_written(rt: HostRuntime) {
    expect_holds(&rt, settles_before(rt.alloc(), 0, ""), "never");
    expect_holds(&rt, settles_before(rt.alloc(), 1, STORED), "once");
}

const ENDLESS: &str =
    "PUT /schemas?uri=a HTTP/1.1\r\nx-tenant-key: k1\r\ncontent-length: 70000\r\n\r\n«65536* »";

// Whether the example is answered, and what comes behind it is given up, once it is too much. The id has to be free then.
fn is_given_up(alloc: Global) -> Result<bool, Fault> {
    let mut stream = String::from_str(alloc, EXAMPLE)?;
    stream.push_str(filled(alloc, ENDLESS)?.as_str())?;
    let mut sessions = hub_sessions(alloc)?;
    let mut reader = reader(alloc, stream.as_str(), pace(1, usize::MAX, Pause::Stops))?;
    let mut writer = MemoryWriter::new(alloc, Pace::WHOLE);
    let given_up = serve(alloc, &mut sessions, 1, &mut reader, &mut writer);
    sessions.open(1)?;
    let is_written = writer.bytes() == EXAMPLE_REPLIES.as_bytes();
    Ok(given_up == Err(Failure::Fault(Fault::ReadBound)) && is_written)
}

#[test]
fn a_stream_without_an_end_is_given_up(rt: HostRuntime) {
    expect_holds(&rt, is_given_up(rt.alloc()), "65,536 single bytes");
}

const LONG_PUT: &str =
    "PUT /schemas?uri=https://ex.org/s HTTP/1.1\r\nx-tenant-key: k1\r\ncontent-length: 100000\r\n\r\n{}«99998* »";

fn twelve(alloc: Global, piece: &str) -> Result<String, AllocError> {
    let mut text = String::new(alloc);
    push_copies(&mut text, 12, piece)?;
    Ok(text)
}

fn are_twelve_answered(alloc: Global) -> Result<bool, Fault> {
    let stream = twelve(alloc, filled(alloc, LONG_PUT)?.as_str())?;
    let replies = twelve(alloc, STORED)?;
    let mut reader = reader(alloc, stream.as_str(), Pace::WHOLE)?;
    let mut writer = MemoryWriter::new(alloc, Pace::WHOLE);
    let served = serve(alloc, &mut sessions(alloc), 1, &mut reader, &mut writer);
    Ok(served.is_ok() && writer.bytes() == replies.as_bytes())
}

#[test]
fn a_stream_of_twelve_bodies_of_100_kilobytes_is_answered(rt: HostRuntime) {
    expect_holds(&rt, are_twelve_answered(rt.alloc()), "twelve bodies");
}

fn is_answered_by_std(alloc: Global) -> Result<bool, Fault> {
    let mut sessions = hub_sessions(alloc)?;
    let mut reader = Recorded::new(EXAMPLE.as_bytes());
    let mut written = Vec::new(alloc);
    let mut writer = Recorded::new(&mut written);
    let served = serve(alloc, &mut sessions, 1, &mut reader, &mut writer);
    Ok(served.is_ok() && written.as_slice() == EXAMPLE_REPLIES.as_bytes())
}

#[test]
fn readers_and_writers_of_std(rt: HostRuntime) {
    expect_holds(&rt, is_answered_by_std(rt.alloc()), "a slice and a vector");
}
