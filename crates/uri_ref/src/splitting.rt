//! The parts of a text (RFC 3986, appendix B).

ghost use Rattle.std.specs.Prelude.{◌≡◌, ◌==◌, ◌<◌, option_map, position, MatchOption};
ghost use Rattle.std.specs.List.{list_all};
ghost use Rattle.definitions.specs.Bytes.{slash, is_letter};
ghost use Rattle.definitions.specs.Uris.{split, is_scheme, is_scheme_byte, scheme_and_rest, authority_and_path, recompose, without_fragment};
ghost use Rattle.definitions.specs.Lists.{cut_at, split_before};
ghost use Rattle.uri_ref.specs.Places.{Lacks, IsLast};

use crate::parts::Parts;

/// The parts of a URI reference (RFC 3986, section 4.1 and appendix B). Every text has parts, and this takes no memory.
pub fn split(text: &str) -> Parts<'_>
    ensures parts { result ≡ split text.now }
    ensures recomposes { recompose result ≡ text.now }
{
    let (before_fragment, fragment) = cut_at(text, '#');
    let (before_query, query) = cut_at(before_fragment, '?');
    let (scheme, after_scheme) = scheme_and_rest(before_query);
    let (authority, path) = authority_and_path(after_scheme);
    Parts {
        scheme,
        authority,
        path,
        query,
        fragment,
    }
}

/// The text without its fragment: what stands before its first `#`, if it has one (RFC 3986, section 3.5).
pub fn without_fragment(text: &str) -> &str
    ensures { result.now ≡ without_fragment text.now }
{
    let (before, _) = cut_at(text, '#');
    before
}

// What stands before the first such sign, and what follows it, where there is one.
fn cut_at(text: &str, sign: char) -> (&str, Option<&str>)
    requires { sign < 128 }
    ensures before { result.0.now ≡ (cut_at (λ c. c == sign) text.now).0 }
    ensures after { option_map (λ t. t.now) result.1 ≡ (cut_at (λ c. c == sign) text.now).1 }
{
    match text.split_once(sign) {
        Some((before, after)) => (before, Some(after)),
        None => (text, None),
    }
}

// The scheme, where what stands before the first `:` is one, and what follows it.
fn scheme_and_rest(text: &str) -> (Option<&str>, &str)
    ensures scheme { option_map (λ t. t.now) result.0 ≡ (scheme_and_rest text.now).0 }
    ensures rest { result.1.now ≡ (scheme_and_rest text.now).1 }
{
    match cut_at(text, ':') {
        (scheme, Some(rest)) if is_scheme(scheme) => (Some(scheme), rest),
        _ => (None, text),
    }
}

// Whether the text is a letter, and then letters, digits, `+`, `-` and `.` (section 3.1).
fn is_scheme(text: &str) -> bool
    ensures { result ≡ is_scheme text.now }
{
    match text.as_bytes() {
        [] => false,
        [first, rest @ ..] => is_letter(*first) && are_scheme_bytes(rest),
    }
}

fn is_letter(byte: u8) -> bool
    ensures { result ≡ is_letter byte }
{
    byte.is_ascii_alphabetic()
}

fn are_scheme_bytes(bytes: &[u8]) -> bool
    ensures { result ≡ list_all is_scheme_byte bytes.now }
{
    bytes.iter().all(|byte| is_scheme_byte(*byte))
}

fn is_scheme_byte(byte: u8) -> bool
    ensures { result ≡ is_scheme_byte byte }
{
    byte.is_ascii_alphanumeric() || byte == b'+' || byte == b'-' || byte == b'.'
}

// The authority, where the text begins with `//`, and the path.
fn authority_and_path(text: &str) -> (Option<&str>, &str)
    ensures authority { option_map (λ t. t.now) result.0 ≡ (authority_and_path text.now).0 }
    ensures path { result.1.now ≡ (authority_and_path text.now).1 }
{
    match text.strip_prefix("//") {
        Some(rest) => {
            let (authority, path) = split_before_slash(rest);
            (Some(authority), path)
        }
        None => (None, text),
    }
}

// What stands before the first `/`, and the rest, which begins with it.
fn split_before_slash(text: &str) -> (&str, &str)
    ensures before { result.0.now ≡ (split_before (λ c. c == slash) text.now).0 }
    ensures rest { result.1.now ≡ (split_before (λ c. c == slash) text.now).1 }
{
    match first_slash(text.as_bytes()) {
        Some(at) => (&text[..at], &text[at..]),
        None => (text, ""),
    }
}

// Where the first `/` stands.
pub(crate) fn first_slash(bytes: &[u8]) -> Option<usize>
    ensures { result ≡ position (λ c. c == slash) bytes.now }
{
    bytes.iter().position(|byte| *byte == b'/')
}

// Where the last `/` stands.
pub(crate) fn last_slash(text: &str) -> Option<usize>
    ensures { MatchOption result (Lacks slash text.now) (λ at. IsLast slash text.now at) }
{
    text.rfind('/')
}
