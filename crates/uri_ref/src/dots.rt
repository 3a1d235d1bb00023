//! Paths without dot segments (RFC 3986, section 5.2.4).

ghost use Rattle.std.specs.Prelude.{◌≡◌, IfOk, string_bytes};
ghost use Rattle.std.specs.Str.{IsUtf8};
ghost use Rattle.definitions.specs.Values.{same_text};
ghost use Rattle.definitions.specs.Uris.{begins};
ghost use Rattle.definitions.specs.Resolution.{remove_dot_segments, next_buffers, first_segment, without_last_segment};

use crate::splitting::{first_slash, last_slash};
use std::alloc::{AllocError, Global};

/// The path without its dot segments, in one pass: the output is the stack of the segments that are kept.
pub(crate) fn remove_dot_segments(alloc: Global, path: &str) -> Result<String, AllocError>
    ensures { IfOk result (λ s. string_bytes s ≡ remove_dot_segments path.now) }
{
    let mut output = String::new(alloc);
    let mut rest = path;
    while !rest.is_empty() {
        rest = rewrite(rest, &mut output)?;
    }
    Ok(output)
}

// One rewriting, by the first of the rules A to E that fits: the rest of the path that is left.
fn rewrite<'a>(rest: &'a str, output: &mut String) -> Result<&'a str, AllocError>
    ensures step { IfOk result
        (λ left. (left.now, string_bytes output.new)
        ≡ next_buffers (rest.now, string_bytes output.old)) }
    ensures text { IfOk result (λ left. IsUtf8 left.now) }
{
    if begins(rest, "../") {
        return Ok(&rest[3..]);
    }
    if begins(rest, "./") {
        return Ok(&rest[2..]);
    }
    if begins(rest, "/./") {
        return Ok(&rest[2..]);
    }
    if same_text(rest, "/.") {
        return Ok("/");
    }
    if begins(rest, "/../") {
        pop_segment(output);
        return Ok(&rest[3..]);
    }
    if same_text(rest, "/..") {
        pop_segment(output);
        return Ok("/");
    }
    if same_text(rest, ".") || same_text(rest, "..") {
        return Ok("");
    }
    let (segment, left) = first_segment(rest);
    output.push_str(segment)?;
    Ok(left)
}

pub(crate) fn begins(text: &str, prefix: &str) -> bool
    ensures { result ≡ begins text.now prefix.now }
{
    text.starts_with(prefix)
}

fn same_text(text: &str, other: &str) -> bool
    ensures { result ≡ same_text text.now other.now }
{
    text == other
}

// Takes the last segment away, and the `/` before it.
fn pop_segment(output: &mut String)
    ensures { string_bytes output.new ≡ without_last_segment (string_bytes output.old) }
{
    let end = last_slash(output.as_str()).unwrap_or(0);
    output.truncate(end);
}

// The first segment, with the `/` before it, and the rest.
fn first_segment(path: &str) -> (&str, &str)
    ensures segment { result.0.now ≡ (first_segment path.now).0 }
    ensures rest { result.1.now ≡ (first_segment path.now).1 }
    ensures text { IsUtf8 result.1.now }
{
    let bytes = path.as_bytes();
    if bytes.is_empty() {
        return (path, "");
    }
    match first_slash(&bytes[1..]) {
        Some(at) => (&path[..at + 1], &path[at + 1..]),
        None => (path, ""),
    }
}
