//! Requests as standard input has them.

use crate::tenant::KEY;
use faults::Fault;
use json_doc::{Doc, write};
use std::alloc::Global;
use std::borrow::CowStr;
use tenant_hub::Request;

/// The bodies of the requests of a list, each as its compact text; an empty one where there is none.
///
/// `BadInput` where the value has another shape; `NoRoom` may take the place of any answer.
pub fn bodies_of(alloc: Global, list: &Doc) -> Result<Vec<String>, Fault> {
    let items = elements(list)?;
    let mut bodies = Vec::with_capacity(alloc, items.len())?;
    for item in items {
        bodies.push(match elements(item)? {
            [_, _, body] => write(alloc, body)?,
            _ => String::new(alloc),
        })?;
    }
    Ok(bodies)
}

/// The requests of a list with these bodies, each with the key of the one tenant: `["put",URI,BODY]` and
/// `["validate",URI,BODY]`, `["delete",URI]` and `["bundle",URI]`.
///
/// `BadInput` where the value has another shape; `NoRoom` may take the place of any answer.
pub fn calls_of<'a>(
    alloc: Global,
    list: &'a Doc,
    bodies: &'a [String],
) -> Result<Vec<(String, Request<'a>)>, Fault> {
    let items = elements(list)?;
    let mut calls = Vec::with_capacity(alloc, items.len())?;
    for (item, body) in items.iter().zip(bodies) {
        let request = request_of(item, body.as_bytes())?;
        calls.push((String::from_str(alloc, KEY)?, request))?;
    }
    Ok(calls)
}

fn request_of<'a>(call: &'a Doc, body: &'a [u8]) -> Result<Request<'a>, Fault> {
    match elements(call)? {
        [kind, uri] => without_body(text(kind)?, CowStr::Borrowed(text(uri)?)),
        [kind, uri, _] => with_body(text(kind)?, CowStr::Borrowed(text(uri)?), body),
        _ => Err(Fault::BadInput),
    }
}

fn without_body<'a>(kind: &str, uri: CowStr<'a>) -> Result<Request<'a>, Fault> {
    match kind {
        "delete" => Ok(Request::Delete(uri)),
        "bundle" => Ok(Request::Bundle(uri)),
        _ => Err(Fault::BadInput),
    }
}

fn with_body<'a>(kind: &str, uri: CowStr<'a>, body: &'a [u8]) -> Result<Request<'a>, Fault> {
    match kind {
        "put" => Ok(Request::Put(uri, body)),
        "validate" => Ok(Request::Validate(uri, body)),
        _ => Err(Fault::BadInput),
    }
}

fn elements(list: &Doc) -> Result<&[Doc], Fault> {
    match list.as_list() {
        Some(items) => Ok(items),
        None => Err(Fault::BadInput),
    }
}

fn text(doc: &Doc) -> Result<&str, Fault> {
    match doc.as_str() {
        Some(text) => Ok(text),
        None => Err(Fault::BadInput),
    }
}
