//! Connections to a hub: streams of requests, cut anywhere, and others in between.

use crate::sent_streams::{Step, expect_both, expect_steps, sent_in_two, sent_to_the_end};
use crate::served_hubs::{
    BATCH, BATCH_STORED, CLOSING, EXAMPLE, EXAMPLE_REPLIES, LAST_BAD_ROUTE, NOT_FOUND, OUTPUT,
    POST, PUT, PUT_FRONT, STORED, UNKNOWN_TENANT, hub_sessions, library_sessions, replies_to_front,
};
use crate::texts::{expect_like, expect_same, filled};
use connections::Sessions;
use http_front::{Fault, HubHandler};
use std::alloc::Global;
use std::process::Abort;

const OTHERS: &[u8] =
    b"POST /validate?uri=https://ex.org/s HTTP/1.1\r\nx-tenant-key: k2\r\ncontent-length: 4\r\n\r\nnull";

fn sent_at(alloc: Global, cut: usize) -> Result<(String, String), Fault> {
    let bytes = EXAMPLE.as_bytes();
    let pieces = bytes.split_at_checked(cut).unwrap_or((bytes, b""));
    sent_in_two(alloc, &mut hub_sessions(alloc)?, pieces, OTHERS)
}

#[test]
fn cut_after_each_byte_with_the_other_tenant_between(rt: HostRuntime) {
    for cut in 0..=EXAMPLE.len() {
        let sent = sent_at(rt.alloc(), cut);
        expect_both(&rt, sent, (EXAMPLE_REPLIES, NOT_FOUND), cut);
    }
}

fn sent_for(alloc: Global, bytes: &[u8]) -> Result<String, Fault> {
    sent_to_the_end(alloc, &mut hub_sessions(alloc)?, bytes)
}

#[test]
fn cut_off_after_each_byte(rt: HostRuntime) {
    for cut in 0..=EXAMPLE.len() {
        let sent = sent_for(rt.alloc(), &EXAMPLE.as_bytes()[..cut]);
        expect_same(&rt, sent, replies_to_front(rt.alloc(), cut), "a front");
    }
}

const LAST_NOT_FOUND: &str =
    "HTTP/1.1 404 Not Found\r\ncontent-type: application/json\r\ncontent-length: 30\r\nconnection: close\r\n\r\n{\"fault\":14,\"name\":\"NotFound\"}";

const BAD_KEYWORD: &str =
    "HTTP/1.1 400 Bad Request\r\ncontent-type: application/json\r\ncontent-length: 43\r\n\r\n{\"at\":\"/not\",\"fault\":8,\"name\":\"BadKeyword\"}";

const BATCH_OF_AN_ARRAY: &str =
    "POST /batch HTTP/1.1\r\nx-tenant-key: k1\r\ncontent-length: 87\r\n\r\n{\"put\":[{\"schema\":{},\"uri\":\"https://ex.org/a\"},{\"schema\":[],\"uri\":\"https://ex.org/b\"}]}";

const SECOND_ENTRY_REFUSED: &str =
    "HTTP/1.1 400 Bad Request\r\ncontent-type: application/json\r\ncontent-length: 40\r\n\r\n{\"entry\":1,\"fault\":6,\"name\":\"NotObject\"}";

const BAD_ROUTE: &str =
    "HTTP/1.1 404 Not Found\r\ncontent-type: application/json\r\ncontent-length: 30\r\n\r\n{\"fault\":36,\"name\":\"BadRoute\"}";

const LONGEST_SCHEMA: &str =
    "PUT /schemas?uri=https://ex.org/s HTTP/1.1\r\nx-tenant-key: k1\r\ncontent-length: 1048576\r\n\r\n{}«1048574* »";

const LONGEST_INSTANCE: &str =
    "PUT /schemas?uri=https://ex.org/s HTTP/1.1\r\nx-tenant-key: k1\r\ncontent-length: 2\r\n\r\n{}POST /validate?uri=https://ex.org/s HTTP/1.1\r\nx-tenant-key: k1\r\ncontent-length: 1048576\r\n\r\n\"«1048574*a»\"";

const BATCH_OF_64: &str =
    "POST /batch HTTP/1.1\r\nx-tenant-key: k1\r\ncontent-length: 2559\r\n\r\n{\"put\":[{\"schema\":{},\"uri\":\"https://ex.org/0\"}«63*,{\"schema\":{},\"uri\":\"https://ex.org/№\"}»]}";

const ALL_64_STORED: &str =
    "HTTP/1.1 201 Created\r\ncontent-type: application/json\r\ncontent-length: 2882\r\n\r\n{\"stored\":[{\"replaced\":false,\"uri\":\"https://ex.org/0\"}«63*,{\"replaced\":false,\"uri\":\"https://ex.org/№\"}»]}";

// Why a stream is answered so, the stream, and what is sent for it and its end.
const STREAMS: &[(&str, &str, &str)] = &[
    (
        "a request of HTTP/1.0 is the last on its connection (HTTP.md)",
        "GET /bundle HTTP/1.0\r\n\r\nGET /bundle HTTP/1.0\r\n\r\n",
        LAST_BAD_ROUTE,
    ),
    (
        "a method is PUT, DELETE, POST or GET (HTTP.md)",
        "TRACE / HTTP/1.1\r\n\r\n",
        CLOSING,
    ),
    (
        "`content-length` stands once at most (HTTP.md)",
        "POST /validate?uri=a HTTP/1.1\r\ncontent-length: 1\r\ncontent-length: 1\r\n\r\nx",
        CLOSING,
    ),
    (
        "a POST has to tell its body's length (HTTP.md)",
        "POST /validate?uri=a HTTP/1.1\r\n\r\n",
        CLOSING,
    ),
    (
        "a body has 1,048,576 bytes at most (LIMITS.md)",
        "POST /validate?uri=a HTTP/1.1\r\ncontent-length: 1048577\r\n\r\n",
        CLOSING,
    ),
    (
        "no `transfer-encoding` is taken (HTTP.md)",
        "GET /bundle?uri=a HTTP/1.1\r\ntransfer-encoding: chunked\r\n\r\n",
        CLOSING,
    ),
    (
        "a request without a key is no tenant's (PROFILE.md, 24)",
        "GET /bundle?uri=a HTTP/1.1\r\n\r\n",
        UNKNOWN_TENANT,
    ),
    (
        "a header's name has letters of any case, and a DELETE's body is ignored",
        "DELETE /schemas?uri=https://ex.org/s HTTP/1.1\r\nX-Tenant-Key:  k1 \r\ncontent-length: 2\r\n\r\n{}\r\n",
        NOT_FOUND,
    ),
    (
        "`close` has letters of any case, and others beside it (RFC 9110, 7.6.1)",
        "GET /bundle?uri=https%3A%2F%2Fex.org%2Fs HTTP/1.1\r\nx-tenant-key: k1\r\nconnection: keep-alive, Close\r\n\r\nTRACE",
        LAST_NOT_FOUND,
    ),
    (
        "a fault is told with the pointer to its keyword (PROFILE.md, 8)",
        "PUT /schemas?uri=https://ex.org/s HTTP/1.1\r\nx-tenant-key: k1\r\ncontent-length: 9\r\n\r\n{\"not\":5}",
        BAD_KEYWORD,
    ),
    (
        "a batch with a new document is answered by 201 (HTTP.md)",
        BATCH,
        BATCH_STORED,
    ),
    (
        "the first entry that is refused is told, counted from 0 (HTTP.md)",
        BATCH_OF_AN_ARRAY,
        SECOND_ENTRY_REFUSED,
    ),
    (
        "nothing follows `/batch` (HTTP.md)",
        "POST /batch?uri=x HTTP/1.1\r\nx-tenant-key: k1\r\ncontent-length: 2\r\n\r\n{}",
        BAD_ROUTE,
    ),
    (
        "a schema of 1,048,576 bytes is the longest (LIMITS.md)",
        LONGEST_SCHEMA,
        STORED,
    ),
    (
        "an instance of 1,048,576 bytes is the longest (LIMITS.md)",
        LONGEST_INSTANCE,
        EXAMPLE_REPLIES,
    ),
    (
        "a batch of 64 entries is the largest (LIMITS.md)",
        BATCH_OF_64,
        ALL_64_STORED,
    ),
];

fn sent_for_filled(alloc: Global, stream: &str) -> Result<String, Fault> {
    sent_for(alloc, filled(alloc, stream)?.as_bytes())
}

fn expect_stream(rt: &impl Abort, alloc: Global, row: &(&str, &str, &str)) {
    let (why, stream, wanted) = *row;
    expect_like(rt, alloc, sent_for_filled(alloc, stream), wanted, why);
}

#[test]
fn streams_have_their_replies(rt: HostRuntime) {
    for row in STREAMS {
        expect_stream(&rt, rt.alloc(), row);
    }
}

const LAST_BYTES: &[Step] = &[
    Step {
        why: "a free id is opened",
        kind: "open",
        id: 1,
        bytes: "",
        wanted: "",
        is_closed: false,
    },
    Step {
        why: "a second id is opened beside the first",
        kind: "open",
        id: 2,
        bytes: "",
        wanted: "",
        is_closed: false,
    },
    Step {
        why: "a request without its last byte isn't answered",
        kind: "feed into",
        id: 1,
        bytes: PUT_FRONT,
        wanted: "",
        is_closed: false,
    },
    Step {
        why: "no document is stored before the request is whole",
        kind: "feed into",
        id: 2,
        bytes: POST,
        wanted: NOT_FOUND,
        is_closed: false,
    },
    Step {
        why: "the last byte makes the request whole",
        kind: "feed into",
        id: 1,
        bytes: "}",
        wanted: STORED,
        is_closed: false,
    },
    Step {
        why: "the document judges on the other connection, too",
        kind: "feed into",
        id: 2,
        bytes: POST,
        wanted: OUTPUT,
        is_closed: false,
    },
];

// Nothing is applied behind a closing fault.
const CLOSED: &[Step] = &[
    Step {
        why: "a free id is opened",
        kind: "open",
        id: 1,
        bytes: "",
        wanted: "",
        is_closed: false,
    },
    Step {
        why: "a version is HTTP/1.1 or HTTP/1.0 (RFC 9112, 2.3)",
        kind: "feed",
        id: 1,
        bytes: "GET / HTTP/2.0\r\n\r\n",
        wanted: CLOSING,
        is_closed: true,
    },
    Step {
        why: "behind a closing fault nothing is read (HTTP.md)",
        kind: "feed",
        id: 1,
        bytes: PUT,
        wanted: "",
        is_closed: true,
    },
    Step {
        why: "the end of a closed connection has no reply",
        kind: "end",
        id: 1,
        bytes: "",
        wanted: "",
        is_closed: true,
    },
    Step {
        why: "an id is free behind its end",
        kind: "open",
        id: 1,
        bytes: "",
        wanted: "",
        is_closed: false,
    },
    Step {
        why: "the put behind the closing fault has stored nothing (HTTP.md)",
        kind: "feed",
        id: 1,
        bytes: POST,
        wanted: NOT_FOUND,
        is_closed: false,
    },
];

// An id is open until its end.
const IDS: &[Step] = &[
    Step {
        why: "a free id is opened",
        kind: "open",
        id: 1,
        bytes: "",
        wanted: "",
        is_closed: false,
    },
    Step {
        why: "an open id isn't opened again (PROFILE.md, 31)",
        kind: "open",
        id: 1,
        bytes: "",
        wanted: "31 IdInUse",
        is_closed: false,
    },
    Step {
        why: "no connection of this id is open, so none is fed (PROFILE.md, 32)",
        kind: "feed",
        id: 2,
        bytes: "x",
        wanted: "32 NoSession",
        is_closed: true,
    },
    Step {
        why: "no connection of this id is open, so none ends (PROFILE.md, 32)",
        kind: "end",
        id: 2,
        bytes: "",
        wanted: "32 NoSession",
        is_closed: true,
    },
    Step {
        why: "the open connection is as it was, and no bytes have no reply",
        kind: "feed",
        id: 1,
        bytes: "",
        wanted: "",
        is_closed: false,
    },
];

// A library's document judges at once.
const OVER_A_LIBRARY: &[Step] = &[
    Step {
        why: "a free id is opened",
        kind: "open",
        id: 1,
        bytes: "",
        wanted: "",
        is_closed: false,
    },
    Step {
        why: "the library's document judges, without a put (HTTP.md)",
        kind: "feed",
        id: 1,
        bytes: POST,
        wanted: OUTPUT,
        is_closed: false,
    },
    Step {
        why: "a library's document is no tenant's to replace (PROFILE.md, 34)",
        kind: "feed",
        id: 1,
        bytes: PUT,
        wanted: "HTTP/1.1 409 Conflict\r\n…",
        is_closed: false,
    },
];

fn expect_steps_of(
    rt: &impl Abort,
    alloc: Global,
    sessions: Result<Sessions<HubHandler>, Fault>,
    steps: &[Step],
) {
    match sessions {
        Ok(mut sessions) => expect_steps(rt, alloc, &mut sessions, steps),
        Err(fault) => panic!(rt; "{fault}"),
    }
}

#[test]
fn steps_have_their_replies(rt: HostRuntime) {
    let alloc = rt.alloc();
    expect_steps_of(&rt, alloc, hub_sessions(alloc), LAST_BYTES);
    expect_steps_of(&rt, alloc, hub_sessions(alloc), CLOSED);
    expect_steps_of(&rt, alloc, hub_sessions(alloc), IDS);
    expect_steps_of(&rt, alloc, library_sessions(alloc), OVER_A_LIBRARY);
}
