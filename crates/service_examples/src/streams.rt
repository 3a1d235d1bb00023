//! Streams of requests, however they are cut, and requests behind which a connection is closed.

use crate::handlers::sessions;
use crate::sent_streams::{
    Step, expect_both, expect_steps, sent_in_two, sent_on_a_new_connection, sent_to_the_end,
};
use crate::served_hubs::{
    CLOSING, EXAMPLE, EXAMPLE_REPLIES, LAST_BAD_ROUTE, OUTPUT, POST, STORED, UNKNOWN_TENANT,
    replies_to_front,
};
use crate::texts::{expect_like, expect_same};
use std::alloc::Global;
use std::process::Abort;

/// Bytes on a new connection, what is sent for them, and whether it is closed then.
struct Stream {
    why: &'static str,
    bytes: &'static str,
    wanted: &'static str,
    is_closed: bool,
}

const STREAMS: &[Stream] = &[
    Stream {
        why: "requests may follow one another, and are answered in their order (HTTP.md)",
        bytes: EXAMPLE,
        wanted: EXAMPLE_REPLIES,
        is_closed: false,
    },
    Stream {
        why: "a method is PUT, DELETE, POST or GET (HTTP.md)",
        bytes: "TRACE / HTTP/1.1\r\n\r\n",
        wanted: CLOSING,
        is_closed: true,
    },
    Stream {
        why: "`content-length` stands once at most (HTTP.md)",
        bytes: "POST /validate?uri=a HTTP/1.1\r\ncontent-length: 1\r\ncontent-length: 1\r\n\r\nx",
        wanted: CLOSING,
        is_closed: true,
    },
    Stream {
        why: "a POST has to tell its body's length (HTTP.md)",
        bytes: "POST /validate?uri=a HTTP/1.1\r\n\r\n",
        wanted: CLOSING,
        is_closed: true,
    },
    Stream {
        why: "a body has 1,048,576 bytes at most (LIMITS.md)",
        bytes: "POST /validate?uri=a HTTP/1.1\r\ncontent-length: 1048577\r\n\r\n",
        wanted: CLOSING,
        is_closed: true,
    },
    Stream {
        why: "no `transfer-encoding` is taken (HTTP.md)",
        bytes: "GET /bundle?uri=a HTTP/1.1\r\ntransfer-encoding: chunked\r\n\r\n",
        wanted: CLOSING,
        is_closed: true,
    },
    Stream {
        why: "a version is HTTP/1.1 or HTTP/1.0 (RFC 9112, 2.3)",
        bytes: "GET / HTTP/2.0\r\n\r\n",
        wanted: CLOSING,
        is_closed: true,
    },
    Stream {
        why: "behind a request of HTTP/1.0 none is answered (HTTP.md)",
        bytes: "GET /bundle HTTP/1.0\r\n\r\nPOST /validate?uri=https://ex.org/s HTTP/1.1\r\nx-tenant-key: k1\r\ncontent-length: 4\r\n\r\nnull",
        wanted: LAST_BAD_ROUTE,
        is_closed: true,
    },
    Stream {
        why: "a request without a key is no tenant's (PROFILE.md, 24)",
        bytes: "DELETE /schemas?uri=a HTTP/1.1\r\n\r\n",
        wanted: UNKNOWN_TENANT,
        is_closed: false,
    },
];

// A closed connection answers nothing.
const CLOSED: &[Step] = &[
    Step {
        why: "a free id is opened",
        kind: "open",
        id: 1,
        bytes: "",
        wanted: "",
        is_closed: false,
    },
    Step {
        why: "a version is HTTP/1.1 or HTTP/1.0 (RFC 9112, 2.3)",
        kind: "feed",
        id: 1,
        bytes: "GET / HTTP/2.0\r\n\r\n",
        wanted: CLOSING,
        is_closed: true,
    },
    Step {
        why: "behind a closing fault nothing is read (HTTP.md)",
        kind: "feed",
        id: 1,
        bytes: POST,
        wanted: "",
        is_closed: true,
    },
    Step {
        why: "the end of a closed connection has no reply",
        kind: "end",
        id: 1,
        bytes: "",
        wanted: "",
        is_closed: true,
    },
    Step {
        why: "an id is free behind its end",
        kind: "open",
        id: 1,
        bytes: "",
        wanted: "",
        is_closed: false,
    },
];

const IDS: &[Step] = &[
    Step {
        why: "no connection is open yet, so none ends (PROFILE.md, 32)",
        kind: "end",
        id: 1,
        bytes: "",
        wanted: "32 NoSession",
        is_closed: true,
    },
    Step {
        why: "a free id is opened",
        kind: "open",
        id: 1,
        bytes: "",
        wanted: "",
        is_closed: false,
    },
    Step {
        why: "an open id isn't opened again (PROFILE.md, 31)",
        kind: "open",
        id: 1,
        bytes: "",
        wanted: "31 IdInUse",
        is_closed: false,
    },
    Step {
        why: "no connection of this id is open, so none is fed (PROFILE.md, 32)",
        kind: "feed",
        id: 2,
        bytes: "x",
        wanted: "32 NoSession",
        is_closed: true,
    },
    Step {
        why: "no connection of this id is open, so none ends (PROFILE.md, 32)",
        kind: "end",
        id: 2,
        bytes: "",
        wanted: "32 NoSession",
        is_closed: true,
    },
    Step {
        why: "an end behind no request has no reply",
        kind: "end",
        id: 1,
        bytes: "",
        wanted: "",
        is_closed: true,
    },
    Step {
        why: "an id is free behind its end",
        kind: "open",
        id: 1,
        bytes: "",
        wanted: "",
        is_closed: false,
    },
];

const BODY_IN_BYTES: &[Step] = &[
    Step {
        why: "a free id is opened",
        kind: "open",
        id: 1,
        bytes: "",
        wanted: "",
        is_closed: false,
    },
    Step {
        why: "a head alone isn't answered where a body follows it",
        kind: "feed",
        id: 1,
        bytes: "PUT /schemas?uri=a HTTP/1.1\r\nx-tenant-key: k1\r\ncontent-length: 1048576\r\n\r\n",
        wanted: "",
        is_closed: false,
    },
    Step {
        why: "a body without its last byte isn't answered",
        kind: "bytes",
        id: 1,
        bytes: "«1048575* »",
        wanted: "",
        is_closed: false,
    },
    Step {
        why: "a body of 1,048,576 bytes is the longest (LIMITS.md)",
        kind: "feed",
        id: 1,
        bytes: " ",
        wanted: STORED,
        is_closed: false,
    },
];

fn expect_stream(rt: &impl Abort, alloc: Global, row: &Stream) {
    let mut sessions = sessions(alloc);
    let found = sent_on_a_new_connection(alloc, &mut sessions, row.bytes);
    expect_like(rt, alloc, found, row.wanted, row.why);
    assert_eq!(rt; sessions.is_closed(1), row.is_closed, "{}", row.why);
}

#[test]
fn streams_and_steps_have_their_replies(rt: HostRuntime) {
    let alloc = rt.alloc();
    for row in STREAMS {
        expect_stream(&rt, alloc, row);
    }
    expect_steps(&rt, alloc, &mut sessions(alloc), CLOSED);
    expect_steps(&rt, alloc, &mut sessions(alloc), IDS);
    expect_steps(&rt, alloc, &mut sessions(alloc), BODY_IN_BYTES);
}

// The example with empty lines around its requests.
const LINES_AROUND: &str =
    "\r\nPUT /schemas?uri=https://ex.org/s HTTP/1.1\r\nx-tenant-key: k1\r\ncontent-length: 2\r\n\r\n{}\r\n\nPOST /validate?uri=https://ex.org/s HTTP/1.1\r\nx-tenant-key: k1\r\ncontent-length: 4\r\n\r\nnull\r\n";

fn expect_cut(rt: &impl Abort, alloc: Global, bytes: &[u8], cut: usize) {
    let pieces = bytes.split_at_checked(cut).unwrap_or((bytes, b""));
    let sent = sent_in_two(alloc, &mut sessions(alloc), pieces, POST.as_bytes());
    expect_both(rt, sent, (EXAMPLE_REPLIES, OUTPUT), cut);
}

#[test]
fn cut_after_each_byte_with_another_connection_between(rt: HostRuntime) {
    for cut in 0..=LINES_AROUND.len() {
        expect_cut(&rt, rt.alloc(), LINES_AROUND.as_bytes(), cut);
    }
}

fn expect_front(rt: &impl Abort, alloc: Global, bytes: &[u8]) {
    let sent = sent_to_the_end(alloc, &mut sessions(alloc), bytes);
    expect_same(rt, sent, replies_to_front(alloc, bytes.len()), "a front");
}

#[test]
fn ended_after_each_byte(rt: HostRuntime) {
    for cut in 0..=EXAMPLE.len() {
        expect_front(&rt, rt.alloc(), &EXAMPLE.as_bytes()[..cut]);
    }
}
