//! Heads: what they say, where they end, and those that are refused; and what their targets ask for.

use crate::texts::{expect_like, filled};
use request_heads::{Front, Method, Search, look, request_of};
use requests::{Fault, Request};
use std::alloc::Global;
use std::process::Abort;

// The method, how many bytes the head and the body have, and whether the request is the last one; `hopeless`, or nothing
// where no head has come yet.
fn head_told(alloc: Global, bytes: &[u8]) -> Result<String, Fault> {
    let mut search = Search::new();
    match look(bytes, &mut search) {
        Some(Front::Whole(heading)) => {
            let (method, head, body) = (heading.method, heading.head_len, heading.body_len);
            let last = if heading.is_last { " last" } else { "" };
            Ok(format!(in alloc; "{method:?} {head} {body}{last}")?)
        }
        Some(Front::Hopeless) => Ok(String::from_str(alloc, "hopeless")?),
        None => Ok(String::new(alloc)),
    }
}

const HEAD: &str =
    "PUT /schemas?uri=https://ex.org/s HTTP/1.1\r\nx-tenant-key: k1\r\ncontent-length: 2\r\n\r\n";

// A head has 16,384 bytes and 64 fields at most: with one field, and beside its value, those here have 34 bytes. Why it is
// told so, the front of a stream, and what is told of it.
const HEADS: &[(&str, &str, &str)] = &[
    (
        "a head ends behind its empty line, and tells its body's length",
        "PUT /schemas?uri=https://ex.org/s HTTP/1.1\r\nx-tenant-key: k1\r\ncontent-length: 2\r\n\r\n{}",
        "Put 83 2",
    ),
    (
        "a head of 16,384 bytes is the longest (LIMITS.md)",
        "GET /bundle?uri=a HTTP/1.1\r\na:«16350*b»\r\n\r\n",
        "Get 16384 0",
    ),
    (
        "a head of 16,385 bytes is too long (LIMITS.md)",
        "GET /bundle?uri=a HTTP/1.1\r\na:«16351*b»\r\n\r\n",
        "hopeless",
    ),
    (
        "64 header lines are the most (LIMITS.md)",
        "GET /bundle?uri=a HTTP/1.1\r\n«64*a:b\r\n»\r\n",
        "Get 350 0",
    ),
    (
        "65 header lines are too many (LIMITS.md)",
        "GET /bundle?uri=a HTTP/1.1\r\n«65*a:b\r\n»\r\n",
        "hopeless",
    ),
    (
        "a method is PUT, DELETE, POST or GET (HTTP.md)",
        "TRACE / HTTP/1.1\r\n\r\n",
        "hopeless",
    ),
    (
        "a POST has to tell its body's length (HTTP.md)",
        "POST / HTTP/1.1\r\n\r\n",
        "hopeless",
    ),
    (
        "`content-length` stands once at most (HTTP.md)",
        "POST / HTTP/1.1\r\ncontent-length: 2\r\ncontent-length: 2\r\n\r\n",
        "hopeless",
    ),
    (
        "a body has 1,048,576 bytes at most (LIMITS.md)",
        "POST / HTTP/1.1\r\ncontent-length: 1048577\r\n\r\n",
        "hopeless",
    ),
    (
        "no `transfer-encoding` is taken (HTTP.md)",
        "GET / HTTP/1.1\r\ntransfer-encoding: chunked\r\n\r\n",
        "hopeless",
    ),
    (
        "a version is HTTP/1.1 or HTTP/1.0 (RFC 9112, 2.3)",
        "GET / HTTP/2.0\r\n\r\n",
        "hopeless",
    ),
    (
        "a request of HTTP/1.0 is the last on its connection (HTTP.md)",
        "GET /bundle HTTP/1.0\r\n\r\n",
        "Get 24 0 last",
    ),
];

fn filled_head_told(alloc: Global, front: &str) -> Result<String, Fault> {
    head_told(alloc, filled(alloc, front)?.as_bytes())
}

fn expect_head(rt: &impl Abort, alloc: Global, row: &(&str, &str, &str)) {
    let (why, front, wanted) = *row;
    expect_like(rt, alloc, filled_head_told(alloc, front), wanted, why);
}

#[test]
fn what_heads_say(rt: HostRuntime) {
    for row in HEADS {
        expect_head(&rt, rt.alloc(), row);
    }
}

#[test]
fn no_head_before_its_end(rt: HostRuntime) {
    let bytes = HEAD.as_bytes();
    for len in 0..bytes.len() {
        let found = head_told(rt.alloc(), &bytes[..len]);
        expect_like(&rt, rt.alloc(), found, "", "a part of a head");
    }
}

fn request_told(alloc: Global, request: &Option<Request<'_>>) -> Result<String, Fault> {
    let (kind, uri, body) = match request {
        Some(Request::Put(uri, body)) => ("put", uri.as_str(), *body),
        Some(Request::Delete(uri)) => ("delete", uri.as_str(), b"".as_slice()),
        Some(Request::Validate(uri, body)) => ("validate", uri.as_str(), *body),
        Some(Request::Bundle(uri)) => ("bundle", uri.as_str(), b"".as_slice()),
        Some(Request::Batch(body)) => ("batch", "", *body),
        None => ("none", "", b"".as_slice()),
    };
    let body = String::from_utf8_lossy(alloc, body)?;
    Ok(format!(in alloc; "{kind} '{uri}' '{body}'")?)
}

/// A method, a target, a body, and what is asked for.
struct Target {
    why: &'static str,
    method: Method,
    target: &'static str,
    body: &'static str,
    wanted: &'static str,
}

const TARGETS: &[Target] = &[
    Target {
        why: "a URI is percent-decoded, but for `+` and what is no escape (HTTP.md)",
        method: Method::Get,
        target: "/bundle?uri=a%20b+%zz%",
        body: "",
        wanted: "bundle 'a b+%zz%' ''",
    },
    Target {
        why: "an instance is judged by the resource with this URI",
        method: Method::Post,
        target: "/validate?uri=https://ex.org/s",
        body: "null",
        wanted: "validate 'https://ex.org/s' 'null'",
    },
    Target {
        why: "a batch is its body alone",
        method: Method::Post,
        target: "/batch",
        body: "x",
        wanted: "batch '' 'x'",
    },
    Target {
        why: "nothing follows `/batch` (HTTP.md)",
        method: Method::Post,
        target: "/batch?uri=x",
        body: "",
        wanted: "none '' ''",
    },
    Target {
        why: "a bundle is of a URI (HTTP.md)",
        method: Method::Get,
        target: "/bundle",
        body: "",
        wanted: "none '' ''",
    },
    Target {
        why: "a URI that is no UTF-8 asks for nothing (PROFILE.md, 36)",
        method: Method::Get,
        target: "/bundle?uri=%ff",
        body: "",
        wanted: "none '' ''",
    },
];

fn target_told(alloc: Global, method: Method, target: &str, body: &str) -> Result<String, Fault> {
    let request = request_of(alloc, method, target.as_bytes(), body.as_bytes())?;
    request_told(alloc, &request)
}

fn expect_target(rt: &impl Abort, alloc: Global, row: &Target) {
    let found = target_told(alloc, row.method, row.target, row.body);
    expect_like(rt, alloc, found, row.wanted, row.why);
}

#[test]
fn what_targets_ask_for(rt: HostRuntime) {
    for row in TARGETS {
        expect_target(&rt, rt.alloc(), row);
    }
}
