//! Talks with a hub: requests and their replies, each as a text.

use crate::texts::{expect_like, filled};
use std::alloc::{AllocError, Global};
use std::borrow::CowStr;
use std::process::Abort;
use tenant_hub::{Fault, Hub, Reply, Request, StoredEntry, read_tenants};

/// Two tenants with room for a hundred documents each.
pub const TWO_TENANTS: &str =
    r#"{"tenants":[{"bytes":1000000,"documents":100,"key":"k1"},{"bytes":1000000,"documents":100,"key":"k2"}]}"#;

/// A tenant with room for one document of 20 bytes.
pub const SMALL_TENANT: &str = r#"{"tenants":[{"bytes":20,"documents":1,"key":"k1"}]}"#;

/// What is said of an instance that passes and gives no annotation.
pub const VALID: &str = r#"{"annotations":[],"valid":true}"#;

/// A hub of the tenants in this file, over the library that the batch gives, if there is one.
pub fn new_hub(
    alloc: Global,
    tenants: &str,
    library: Option<&str>,
    capacity: usize,
) -> Result<Hub, Fault> {
    let tenants = read_tenants(alloc, filled(alloc, tenants)?.as_bytes())?;
    Hub::new(alloc, tenants, capacity, bytes_of(library))
}

/// The bytes of a text, if there is one.
pub fn bytes_of(text: Option<&str>) -> Option<&[u8]> {
    match text {
        Some(text) => Some(text.as_bytes()),
        None => None,
    }
}

// What a filled text asks for: `put URI BODY`, `delete URI`, `validate URI BODY`, `bundle URI` or `batch BODY`.
fn asked(text: &str) -> Request<'_> {
    let (kind, rest) = text.split_once(' ').unwrap_or((text, ""));
    if kind == "batch" {
        return Request::Batch(rest.as_bytes());
    }
    let (uri, body) = rest.split_once(' ').unwrap_or((rest, ""));
    let uri = CowStr::Borrowed(uri);
    match kind {
        "put" => Request::Put(uri, body.as_bytes()),
        "delete" => Request::Delete(uri),
        "validate" => Request::Validate(uri, body.as_bytes()),
        _ => Request::Bundle(uri),
    }
}

fn verb(replaced: bool) -> &'static str {
    if replaced { "replaced" } else { "stored" }
}

fn entries_told(alloc: Global, entries: &[StoredEntry]) -> Result<String, Fault> {
    let mut text = String::new(alloc);
    for entry in entries {
        if !text.is_empty() {
            text.push_str(", ")?;
        }
        text.push_str(verb(entry.replaced))?;
        text.push(' ')?;
        text.push_str(entry.uri.as_str())?;
    }
    Ok(text)
}

/// A reply as a text: `stored URI`, `replaced URI`, `deleted URI`, the output, the bundle, `NUMBER NAME AT` of a fault, and
/// of a batch `stored URI, replaced URI` or `entry K: NUMBER NAME AT`.
pub fn told(alloc: Global, reply: &Reply) -> Result<String, Fault> {
    Ok(match reply {
        Reply::Stored(uri, replaced) => format!(in alloc; "{} {uri}", verb(*replaced))?,
        Reply::Deleted(uri) => format!(in alloc; "deleted {uri}")?,
        Reply::Output(output) => output.text(alloc)?,
        Reply::Bundled(text) => String::from_str(alloc, text.as_str())?,
        Reply::StoredAll(entries) => entries_told(alloc, entries)?,
        Reply::Refused(fault) => format!(in alloc; "{fault}")?,
        Reply::RefusedAt(entry, fault) => format!(in alloc; "entry {entry}: {fault}")?,
    })
}

/// What a tenant is told when it asks for what the text says.
pub fn answered(alloc: Global, hub: &mut Hub, key: &str, text: &str) -> Result<String, Fault> {
    let text = filled(alloc, text)?;
    let reply = hub.apply(alloc, key, &asked(text.as_str()));
    told(alloc, &reply)
}

/// A line of a talk: a tenant's key, what it asks, and what it is told.
pub struct Line {
    pub why: &'static str,
    pub key: &'static str,
    pub asks: &'static str,
    pub wanted: &'static str,
}

/// A talk with a hub of these tenants, over the library that the batch gives, if there is one.
pub struct Talk {
    pub why: &'static str,
    pub tenants: &'static str,
    pub library: Option<&'static str>,
    /// The sizes of the cache that it is held with.
    pub capacities: &'static [usize],
    pub lines: &'static [Line],
}

fn expect_line(rt: &impl Abort, alloc: Global, hub: &mut Hub, line: &Line) {
    let found = answered(alloc, hub, line.key, line.asks);
    expect_like(rt, alloc, found, line.wanted, line.why);
}

fn expect_lines(rt: &impl Abort, alloc: Global, hub: &mut Hub, lines: &[Line]) {
    for line in lines {
        expect_line(rt, alloc, hub, line);
    }
}

// What all lines ask, as filled texts.
fn filled_texts(alloc: Global, lines: &[Line]) -> Result<Vec<String>, AllocError> {
    let mut texts = Vec::with_capacity(alloc, lines.len())?;
    for line in lines {
        texts.push(filled(alloc, line.asks)?)?;
    }
    Ok(texts)
}

// What is replied to all lines by one call.
fn replies(alloc: Global, hub: &mut Hub, lines: &[Line]) -> Result<Vec<Reply>, Fault> {
    let texts = filled_texts(alloc, lines)?;
    let mut calls = Vec::with_capacity(alloc, lines.len())?;
    for (line, text) in lines.iter().zip(&texts) {
        let key = String::from_str(alloc, line.key)?;
        calls.push((key, asked(text.as_str())))?;
    }
    Ok(hub.run(alloc, &calls)?)
}

fn expect_reply(rt: &impl Abort, alloc: Global, line: &Line, reply: &Reply) {
    expect_like(rt, alloc, told(alloc, reply), line.wanted, line.why);
}

fn expect_replies(rt: &impl Abort, alloc: Global, lines: &[Line], replies: &[Reply]) {
    assert_eq!(rt; replies.len(), lines.len());
    for (line, reply) in lines.iter().zip(replies) {
        expect_reply(rt, alloc, line, reply);
    }
}

fn expect_by_one_call(rt: &impl Abort, alloc: Global, hub: &mut Hub, lines: &[Line]) {
    match replies(alloc, hub, lines) {
        Ok(replies) => expect_replies(rt, alloc, lines, &replies),
        Err(fault) => panic!(rt; "{fault}"),
    }
}

// The talk goes so one by one or, else, by one call, with a new hub, which keeps the capacity of its cache.
fn expect_talk_with(
    rt: &impl Abort,
    alloc: Global,
    talk: &Talk,
    capacity: usize,
    one_by_one: bool,
) {
    match new_hub(alloc, talk.tenants, talk.library, capacity) {
        Ok(mut hub) => {
            if one_by_one {
                expect_lines(rt, alloc, &mut hub, talk.lines);
            } else {
                expect_by_one_call(rt, alloc, &mut hub, talk.lines);
            }
            assert_eq!(rt; hub.cache_capacity(), capacity, "{}", talk.why);
        }
        Err(fault) => panic!(rt; "{}: {fault}", talk.why),
    }
}

/// Expects that the talk goes so, one by one and by one call, with each of its capacities.
pub fn expect_talk(rt: &impl Abort, alloc: Global, talk: &Talk) {
    for capacity in talk.capacities {
        expect_talk_with(rt, alloc, talk, *capacity, true);
        expect_talk_with(rt, alloc, talk, *capacity, false);
    }
}
