//! A hub behind connections, and the exchange that is sent to it most often.

use connections::Sessions;
use http_front::{Fault, HubHandler, hub_of};
use std::alloc::Global;

/// The file of two tenants.
pub const TENANTS: &str =
    r#"{"tenants":[{"bytes":1000000,"documents":100,"key":"k1"},{"bytes":1000000,"documents":100,"key":"k2"}]}"#;

/// Stores a document.
pub const PUT: &str =
    "PUT /schemas?uri=https://ex.org/s HTTP/1.1\r\nx-tenant-key: k1\r\ncontent-length: 2\r\n\r\n{}";

/// The same without its last byte.
pub const PUT_FRONT: &str =
    "PUT /schemas?uri=https://ex.org/s HTTP/1.1\r\nx-tenant-key: k1\r\ncontent-length: 2\r\n\r\n{";

/// Validates an instance by it.
pub const POST: &str =
    "POST /validate?uri=https://ex.org/s HTTP/1.1\r\nx-tenant-key: k1\r\ncontent-length: 4\r\n\r\nnull";

/// Both, in one stream.
pub const EXAMPLE: &str =
    "PUT /schemas?uri=https://ex.org/s HTTP/1.1\r\nx-tenant-key: k1\r\ncontent-length: 2\r\n\r\n{}POST /validate?uri=https://ex.org/s HTTP/1.1\r\nx-tenant-key: k1\r\ncontent-length: 4\r\n\r\nnull";

/// What is sent for both.
pub const EXAMPLE_REPLIES: &str =
    "HTTP/1.1 201 Created\r\ncontent-type: application/json\r\ncontent-length: 46\r\n\r\n{\"replaced\":false,\"stored\":\"https://ex.org/s\"}HTTP/1.1 200 OK\r\ncontent-type: application/json\r\ncontent-length: 31\r\n\r\n{\"annotations\":[],\"valid\":true}";

/// What is sent for the first.
pub const STORED: &str =
    "HTTP/1.1 201 Created\r\ncontent-type: application/json\r\ncontent-length: 46\r\n\r\n{\"replaced\":false,\"stored\":\"https://ex.org/s\"}";

/// What is sent for the second.
pub const OUTPUT: &str =
    "HTTP/1.1 200 OK\r\ncontent-type: application/json\r\ncontent-length: 31\r\n\r\n{\"annotations\":[],\"valid\":true}";

/// What is sent where no document has the URI.
pub const NOT_FOUND: &str =
    "HTTP/1.1 404 Not Found\r\ncontent-type: application/json\r\ncontent-length: 30\r\n\r\n{\"fault\":14,\"name\":\"NotFound\"}";

/// What is sent before a connection is closed for bytes that are no request.
pub const CLOSING: &str =
    "HTTP/1.1 400 Bad Request\r\ncontent-type: application/json\r\ncontent-length: 32\r\nconnection: close\r\n\r\n{\"fault\":37,\"name\":\"BadRequest\"}";

/// What is sent to a last request that no route has.
pub const LAST_BAD_ROUTE: &str =
    "HTTP/1.1 404 Not Found\r\ncontent-type: application/json\r\ncontent-length: 30\r\nconnection: close\r\n\r\n{\"fault\":36,\"name\":\"BadRoute\"}";

/// What is sent to a request without a tenant's key.
pub const UNKNOWN_TENANT: &str =
    "HTTP/1.1 403 Forbidden\r\ncontent-type: application/json\r\ncontent-length: 35\r\n\r\n{\"fault\":24,\"name\":\"UnknownTenant\"}";

/// Stores a document by a batch.
pub const BATCH: &str =
    "POST /batch HTTP/1.1\r\nx-tenant-key: k1\r\ncontent-length: 48\r\n\r\n{\"put\":[{\"schema\":{},\"uri\":\"https://ex.org/a\"}]}";

/// What is sent for the batch.
pub const BATCH_STORED: &str =
    "HTTP/1.1 201 Created\r\ncontent-type: application/json\r\ncontent-length: 56\r\n\r\n{\"stored\":[{\"replaced\":false,\"uri\":\"https://ex.org/a\"}]}";

/// No connection yet, to a hub of the two tenants.
pub fn hub_sessions(alloc: Global) -> Result<Sessions<HubHandler>, Fault> {
    let hub = hub_of(alloc, TENANTS.as_bytes(), 2, None)?;
    Ok(Sessions::new(alloc, HubHandler::new(hub)))
}

/// No connection yet, to a hub of the two tenants over a library of one document.
pub fn library_sessions(alloc: Global) -> Result<Sessions<HubHandler>, Fault> {
    let library = br#"{"put":[{"schema":{"type":"null"},"uri":"https://ex.org/s"}]}"#;
    let hub = hub_of(alloc, TENANTS.as_bytes(), 2, Some(library))?;
    Ok(Sessions::new(alloc, HubHandler::new(hub)))
}

/// What is sent for so many bytes of the example and for their end.
pub fn replies_to_front(alloc: Global, len: usize) -> Result<String, Fault> {
    let first = if PUT.len() <= len { STORED } else { "" };
    let second = if len == EXAMPLE.len() { OUTPUT } else { "" };
    let is_whole = len == 0 || len == PUT.len() || len == EXAMPLE.len();
    let last = if is_whole { "" } else { CLOSING };
    Ok(format!(in alloc; "{first}{second}{last}")?)
}
