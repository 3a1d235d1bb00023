//! The fields of a head, sought by their names.
ghost use Rattle.std.specs.Prelude.{codes, ◌==◌, ◌||◌, ◌≡◌, ◌≤◌, ◌∷◌, [], Some, None, Bool, length, drop, All, IfSome, option_map};
ghost use Rattle.std.specs.List.{list_any};
ghost use Rattle.httparse.specs.Spans.{IsWithin, IsHeaderWithin, span_bytes};
ghost use Rattle.http_definitions.specs.Heads.{length_by, asks_to_close};
ghost use Rattle.request_heads.specs.Fields.{values_at, IsNamed, first_of_values, body_length_at};

use crate::names::{asks_to_close, is_name, told_length};
use httparse::spans::{HeaderSpan, Span};

/// A field that was found: where its value stands, and the place behind it among the fields.
#[derive(Clone, Copy)]
pub struct Named {
    pub value: Span,
    pub behind: usize,
}

/// The next field with this name from a place on.
pub fn next_named(window: &[u8], headers: &[HeaderSpan], from: usize, name: &[u8]) -> Option<Named>
    requires from { from ≤ length headers.now }
    requires within { All (IsHeaderWithin (length window.now)) headers.now }
    ensures none { result ≡ None → values_at name.now window.now (drop from headers.now) ≡ [] }
    ensures some { IfSome result (IsNamed name.now window.now headers.now from) }
{
    for at in from..headers.len() {
        let header = headers[at];
        if is_name(name, header.name.of(window)) {
            return Some(Named {
                value: header.value,
                behind: at + 1,
            });
        }
    }
    None
}

/// The first value of the fields with this name.
pub fn first_named(window: &[u8], headers: &[HeaderSpan], name: &[u8]) -> Option<Span>
    requires { All (IsHeaderWithin (length window.now)) headers.now }
    ensures value { option_map (span_bytes window.now) result
        ≡ first_of_values (values_at name.now window.now headers.now) }
    ensures within { IfSome result (IsWithin (length window.now)) }
{
    match next_named(window, headers, 0, name) {
        Some(named) => Some(named.value),
        None => None,
    }
}

// The length of a body that no field tells.
fn untold_length(must_tell: bool) -> Option<usize>
    ensures { result ≡ length_by [] must_tell }
{
    if must_tell { None } else { Some(0) }
}

// How long the body is by the fields `content-length`, of which there may be one at most.
fn length_by(window: &[u8], headers: &[HeaderSpan], must_tell: bool) -> Option<usize>
    requires { All (IsHeaderWithin (length window.now)) headers.now }
    ensures { result ≡ length_by
        (values_at (codes "content-length") window.now headers.now) must_tell }
{
    match next_named(window, headers, 0, b"content-length") {
        None => untold_length(must_tell),
        Some(first) => match next_named(window, headers, first.behind, b"content-length") {
            None => told_length(first.value.of(window)),
            Some(_) => None,
        },
    }
}

/// How long the body is by the fields; none where they refuse the head: a `transfer-encoding`, two lengths, none that
/// has to be told, or one that is none.
pub fn body_length(window: &[u8], headers: &[HeaderSpan], must_tell: bool) -> Option<usize>
    requires { All (IsHeaderWithin (length window.now)) headers.now }
    ensures { result ≡ body_length_at window.now headers.now must_tell }
{
    match next_named(window, headers, 0, b"transfer-encoding") {
        Some(_) => None,
        None => length_by(window, headers, must_tell),
    }
}

// Whether a field `connection` asks to close the connection behind the reply.
fn asks_to_close_by(window: &[u8], headers: &[HeaderSpan]) -> bool
    requires { All (IsHeaderWithin (length window.now)) headers.now }
    ensures { result ≡ list_any asks_to_close
        (values_at (codes "connection") window.now headers.now) }
{
    let mut at = 0;
    while let Some(named) = next_named(window, headers, at, b"connection") {
        if asks_to_close(named.value.of(window)) {
            return true;
        }
        at = named.behind;
    }
    false
}

/// Whether the connection is closed behind the reply (RFC 9112, section 9.3): by the minor version, or by a field.
pub fn is_last(window: &[u8], headers: &[HeaderSpan], minor: u8) -> bool
    requires { All (IsHeaderWithin (length window.now)) headers.now }
    ensures { result ≡ ((minor == 0)
        || list_any asks_to_close (values_at (codes "connection") window.now headers.now)) }
{
    minor == 0 || asks_to_close_by(window, headers)
}
