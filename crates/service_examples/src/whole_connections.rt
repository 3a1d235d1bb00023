//! Connections from the tenants' file to the last byte.

use crate::served_hubs::{BATCH, BATCH_STORED, EXAMPLE, EXAMPLE_REPLIES};
use crate::talks::bytes_of;
use crate::texts::expect_like;
use http_front::{Fault, hub_of, serve_hub};
use serving::{MemoryReader, MemoryWriter, Pace};
use std::alloc::Global;
use std::process::Abort;

const TENANT: &str = r#"{"tenants":[{"bytes":1000000,"documents":100,"key":"k1"}]}"#;

const LIBRARY: &str =
    r#"{"put":[{"schema":{"type":"integer"},"uri":"https://ex.org/lib"},{"schema":{"$ref":"own"},"uri":"https://ex.org/lib2"}]}"#;

const TWICE: &str =
    r#"{"tenants":[{"bytes":1,"documents":1,"key":"k1"},{"bytes":1,"documents":1,"key":"k1"}]}"#;

const BAD_KEY: &str = r#"{"tenants":[{"bytes":1,"documents":1,"key":"a b"}]}"#;

const OWNED: &str =
    "PUT /schemas?uri=https://ex.org/lib HTTP/1.1\r\nx-tenant-key: k1\r\ncontent-length: 2\r\n\r\n{}";

const OWNED_REPLY: &str =
    "HTTP/1.1 409 Conflict\r\ncontent-type: application/json\r\ncontent-length: 34\r\n\r\n{\"fault\":34,\"name\":\"LibraryOwned\"}";

// What is written for the stream by a server, over a library if there is one.
fn written(
    alloc: Global,
    tenants: &str,
    library: Option<&str>,
    capacity: usize,
    stream: &str,
) -> Result<String, Fault> {
    let bytes = Vec::from_slice(alloc, stream.as_bytes())?;
    let mut reader = MemoryReader::new(bytes, Pace::WHOLE);
    let mut writer = MemoryWriter::new(alloc, Pace::WHOLE);
    let hub = hub_of(alloc, tenants.as_bytes(), capacity, bytes_of(library))?;
    serve_hub(alloc, hub, &mut reader, &mut writer)?;
    Ok(String::from_utf8_lossy(alloc, writer.bytes())?)
}

/// A tenants' file, a library, a capacity, a stream, and what is written, or the fault.
struct Connection {
    why: &'static str,
    tenants: &'static str,
    library: Option<&'static str>,
    capacity: usize,
    stream: &'static str,
    wanted: &'static str,
}

const CONNECTIONS: &[Connection] = &[
    Connection {
        why: "requests are answered in their order, up to the stream's end (HTTP.md)",
        tenants: TENANT,
        library: None,
        capacity: 256,
        stream: EXAMPLE,
        wanted: EXAMPLE_REPLIES,
    },
    Connection {
        why: "a batch with a new document is answered by 201 (HTTP.md)",
        tenants: TENANT,
        library: None,
        capacity: 256,
        stream: BATCH,
        wanted: BATCH_STORED,
    },
    Connection {
        why: "the file is read before the cache's size is judged",
        tenants: "[1",
        library: None,
        capacity: 0,
        stream: EXAMPLE,
        wanted: "1 BadJson",
    },
    Connection {
        why: "the file's numbers are judged before the cache's size",
        tenants: "[1.0]",
        library: None,
        capacity: 0,
        stream: EXAMPLE,
        wanted: "2 BadNumber",
    },
    Connection {
        why: "the file's shape is judged before the cache's size",
        tenants: "[]",
        library: None,
        capacity: 0,
        stream: EXAMPLE,
        wanted: "35 BadTenants",
    },
    Connection {
        why: "a cache keeps one document at least (LIMITS.md)",
        tenants: TENANT,
        library: None,
        capacity: 0,
        stream: EXAMPLE,
        wanted: "21 BadCapacity",
    },
    Connection {
        why: "no key stands twice (HTTP.md)",
        tenants: TWICE,
        library: None,
        capacity: 1,
        stream: EXAMPLE,
        wanted: "22 DuplicateTenant",
    },
    Connection {
        why: "a blank is no character of a key (HTTP.md)",
        tenants: BAD_KEY,
        library: None,
        capacity: 1,
        stream: EXAMPLE,
        wanted: "35 BadTenants",
    },
    Connection {
        why: "a library changes nothing of a tenant's own documents",
        tenants: TENANT,
        library: Some(LIBRARY),
        capacity: 256,
        stream: EXAMPLE,
        wanted: EXAMPLE_REPLIES,
    },
    Connection {
        why: "a library's document is no tenant's to replace (PROFILE.md, 34)",
        tenants: TENANT,
        library: Some(LIBRARY),
        capacity: 256,
        stream: OWNED,
        wanted: OWNED_REPLY,
    },
    Connection {
        why: "a library is JSON (HTTP.md)",
        tenants: TENANT,
        library: Some("{"),
        capacity: 256,
        stream: EXAMPLE,
        wanted: "1 BadJson",
    },
    Connection {
        why: "a library is a batch of one entry at least (HTTP.md)",
        tenants: TENANT,
        library: Some(r#"{"put":[]}"#),
        capacity: 256,
        stream: EXAMPLE,
        wanted: "42 BadBatch",
    },
    Connection {
        why: "a library's document is an object (PROFILE.md, 6)",
        tenants: TENANT,
        library: Some(r#"{"put":[{"schema":[],"uri":"https://ex.org/lib"}]}"#),
        capacity: 256,
        stream: EXAMPLE,
        wanted: "6 NotObject",
    },
];

fn expect_written(rt: &impl Abort, alloc: Global, row: &Connection) {
    let found = written(alloc, row.tenants, row.library, row.capacity, row.stream);
    expect_like(rt, alloc, found, row.wanted, row.why);
}

#[test]
fn connections_are_written_or_refused(rt: HostRuntime) {
    for row in CONNECTIONS {
        expect_written(&rt, rt.alloc(), row);
    }
}
