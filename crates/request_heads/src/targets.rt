//! Which request a target and a body ask for.
ghost use Rattle.std.specs.Prelude.{◌≡◌, ◌↔◌, IsTrue, IfOk, IfErr, None, Some, codes, if◌then◌else◌, option_map, option_and_then};
ghost use Rattle.std.specs.Cow.{cow_str_bytes};
ghost use Rattle.std.specs.Str.{is_utf8};
ghost use Rattle.http_definitions.specs.Routes.{behind, request_by, routes, unescaped_text};
ghost use Rattle.requests.specs.Views.{request_view};
ghost use Rattle.request_heads.specs.Methods.{method_text};

use crate::methods::Method;
use faults::Fault;
use memchr::memchr;
use percent_encoding::{DecodeError, percent_decode};
use requests::Request;
use std::alloc::Global;
use std::borrow::CowStr;
use std::str;

// What follows this beginning.
fn behind<'a>(path: &[u8], target: &'a [u8]) -> Option<&'a [u8]>
    ensures { option_map (λ t. t.now) result ≡ behind path.now target.now }
{
    match target.strip_prefix(path) {
        Some(rest) => Some(rest),
        None => None,
    }
}

// The text, where it is UTF-8.
fn utf8_text(text: &[u8]) -> Option<CowStr<'_>>
    ensures { option_map cow_str_bytes result
        ≡ (if is_utf8 text.now then Some text.now else None) }
{
    match str::from_utf8(text) {
        Ok(text) => Some(CowStr::Borrowed(text)),
        Err(_) => None,
    }
}

// The text without its percent escapes; none where it is no UTF-8 then.
fn decoded(alloc: Global, text: &[u8]) -> Result<Option<CowStr<'_>>, Fault>
    ensures ok { IfOk result (λ t. option_map cow_str_bytes t ≡ unescaped_text text.now) }
    ensures err { IfErr result (λ f. f ≡ Fault.NoRoom) }
{
    match percent_decode(text).decode_utf8(alloc) {
        Ok(decoded) => Ok(Some(decoded)),
        Err(DecodeError::Utf8(_)) => Ok(None),
        Err(DecodeError::OutOfMemory) => Err(Fault::NoRoom),
    }
}

// The text without its percent escapes; none where it is no UTF-8 then. Few texts have a percent sign, and the others
// needn't be decoded.
fn unescaped(alloc: Global, text: &[u8]) -> Result<Option<CowStr<'_>>, Fault>
    ensures ok { IfOk result (λ t. option_map cow_str_bytes t ≡ unescaped_text text.now) }
    ensures err { IfErr result (λ f. f ≡ Fault.NoRoom) }
{
    match memchr(b'%', text) {
        None => Ok(utf8_text(text)),
        Some(_) => decoded(alloc, text),
    }
}

// The URI behind this beginning of the target.
fn uri_behind<'a>(alloc: Global, path: &[u8], target: &'a [u8]) -> Result<Option<CowStr<'a>>, Fault>
    ensures ok { IfOk result
        (λ uri. option_map cow_str_bytes uri
        ≡ option_and_then unescaped_text (behind path.now target.now)) }
    ensures err { IfErr result (λ f. f ≡ Fault.NoRoom) }
{
    match behind(path, target) {
        Some(rest) => unescaped(alloc, rest),
        None => Ok(None),
    }
}

fn put<'a>(alloc: Global, target: &'a [u8], body: &'a [u8]) -> Result<Option<Request<'a>>, Fault>
    ensures ok { IfOk result
        (λ r. option_map request_view r ≡ request_by routes (codes "PUT") target.now body.now) }
    ensures err { IfErr result (λ f. f ≡ Fault.NoRoom) }
{
    let found = uri_behind(alloc, b"/schemas?uri=", target)?;
    match found {
        Some(uri) => Ok(Some(Request::Put(uri, body))),
        None => Ok(None),
    }
}

fn delete<'a>(alloc: Global, target: &'a [u8], body: &'a [u8]) -> Result<Option<Request<'a>>, Fault>
    ensures ok { IfOk result
        (λ r. option_map request_view r ≡ request_by routes (codes "DELETE") target.now body.now) }
    ensures err { IfErr result (λ f. f ≡ Fault.NoRoom) }
{
    let found = uri_behind(alloc, b"/schemas?uri=", target)?;
    match found {
        Some(uri) => Ok(Some(Request::Delete(uri))),
        None => Ok(None),
    }
}

fn is_batch(target: &[u8]) -> bool
    ensures { IsTrue result ↔ (target.now ≡ codes "/batch") }
{
    target == b"/batch".as_slice()
}

fn post<'a>(alloc: Global, target: &'a [u8], body: &'a [u8]) -> Result<Option<Request<'a>>, Fault>
    ensures ok { IfOk result
        (λ r. option_map request_view r ≡ request_by routes (codes "POST") target.now body.now) }
    ensures err { IfErr result (λ f. f ≡ Fault.NoRoom) }
{
    if is_batch(target) {
        return Ok(Some(Request::Batch(body)));
    }
    let found = uri_behind(alloc, b"/validate?uri=", target)?;
    match found {
        Some(uri) => Ok(Some(Request::Validate(uri, body))),
        None => Ok(None),
    }
}

fn get<'a>(alloc: Global, target: &'a [u8], body: &'a [u8]) -> Result<Option<Request<'a>>, Fault>
    ensures ok { IfOk result
        (λ r. option_map request_view r ≡ request_by routes (codes "GET") target.now body.now) }
    ensures err { IfErr result (λ f. f ≡ Fault.NoRoom) }
{
    let found = uri_behind(alloc, b"/bundle?uri=", target)?;
    match found {
        Some(uri) => Ok(Some(Request::Bundle(uri))),
        None => Ok(None),
    }
}

/// The request that a method, a target and a body ask for; none where the target is no route's, or where its URI is no
/// UTF-8 without its percent escapes (RFC 3986, section 2.1). The only error is want of memory, [`Fault::NoRoom`].
pub fn request_of<'a>(
    alloc: Global,
    method: Method,
    target: &'a [u8],
    body: &'a [u8],
) -> Result<Option<Request<'a>>, Fault>
    ensures ok { IfOk result
        (λ r. option_map request_view r
        ≡ request_by routes (method_text method) target.now body.now) }
    ensures err { IfErr result (λ f. f ≡ Fault.NoRoom) }
{
    match method {
        Method::Put => put(alloc, target, body),
        Method::Delete => delete(alloc, target, body),
        Method::Post => post(alloc, target, body),
        Method::Get => get(alloc, target, body),
    }
}
