//! A look at the front of a connection's bytes.
ghost use Rattle.std.specs.Prelude.{◌≡◌, ◌≤◌, ◌<◌, ◌+◌, ◌++◌, None, IfOk, IfSome, Ok, OnErr, length, take};
ghost use Rattle.httparse.specs.Grammar.{HasNoRequest};
ghost use Rattle.definitions.specs.Values.{Text};
ghost use Rattle.http_definitions.specs.Heads.{line_feeds, most_head_bytes, most_line_feeds};
ghost use Rattle.request_heads.specs.Searches.{IsSearched, EndsPast, HeadsEndIn};
ghost use Rattle.request_heads.specs.Fronts.{IsFrontOf, Overfills};

use crate::headings::{Heading, judge};
use crate::searches::{MOST_BYTES, Search, ends_empty_line, skip_line};
use crate::tuning::FEW_FIELDS;
use httparse::spans::{EMPTY_HEADER_SPAN, HeaderSpan, parse_request};
use httparse::{Error, Status};

/// What stands at the front.
#[derive(Clone, Copy)]
pub enum Front {
    /// Nothing that follows can make the bytes begin with a request.
    Hopeless,
    /// A head that its fields don't refuse.
    Whole(Heading),
}

/// The most line feeds of a head: the first line, 64 fields and the empty line.
const MOST_LINE_FEEDS: usize = 66;

// The window has more fields than there was room for.
#[derive(Drop)]
struct TooManyFields;

// What the parser finds in these bytes, whatever follows them, with so much room for fields.
fn parsed_into(window: &[u8], fields: &mut [HeaderSpan]) -> Result<Option<Front>, TooManyFields>
    requires ends { HeadsEndIn window.now }
    requires short { length window.now ≤ most_head_bytes }
    requires few { line_feeds window.now ≤ most_line_feeds }
    ensures none { result ≡ Ok None → HasNoRequest window.now }
    ensures some { IfOk result (λ found. IfSome found
        (λ front. (more : Text) → IsFrontOf (window.now ++ more) front)) }
    ensures err { OnErr result (Overfills (length fields.old) window.now) }
{
    match parse_request(window, fields) {
        Ok(Status::Complete(head)) => match judge(window, fields, head) {
            Some(heading) => Ok(Some(Front::Whole(heading))),
            None => Ok(Some(Front::Hopeless)),
        },
        Ok(Status::Partial) => Ok(None),
        Err(Error::TooManyHeaders) => Err(TooManyFields),
        Err(_) => Ok(Some(Front::Hopeless)),
    }
}

// What the parser finds in these bytes, whatever follows them.
fn parsed(window: &[u8]) -> Option<Front>
    requires ends { HeadsEndIn window.now }
    requires short { length window.now ≤ most_head_bytes }
    requires few { line_feeds window.now ≤ most_line_feeds }
    ensures none { result ≡ None → HasNoRequest window.now }
    ensures some { IfSome result (λ front. (more : Text) → IsFrontOf (window.now ++ more) front) }
{
    if let Ok(found) = parsed_into(window, &mut [EMPTY_HEADER_SPAN; FEW_FIELDS]) {
        return found;
    }
    match parsed_into(window, &mut [EMPTY_HEADER_SPAN; MOST_LINE_FEEDS]) {
        Ok(found) => found,
        Err(TooManyFields) => Some(Front::Hopeless),
    }
}

// The head that ends at this place, if one does.
fn head_at(bytes: &[u8], at: usize) -> Option<Front>
    requires within { at < length bytes.now }
    requires short { at < most_head_bytes }
    requires few { line_feeds (take (at + 1) bytes.now) ≤ most_line_feeds }
    requires past { EndsPast at bytes.now }
    ensures none { result ≡ None → EndsPast (at + 1) bytes.now }
    ensures some { IfSome result (IsFrontOf bytes.now) }
{
    if !ends_empty_line(bytes, at) {
        return None;
    }
    parsed(&bytes[..at + 1])
}

// Looks at the next byte.
fn advance(bytes: &[u8], search: &mut Search) -> Option<Front>
    requires searched { IsSearched bytes.now search.old }
    requires more { search.old.len < length bytes.now }
    ensures none { result ≡ None
        → IsSearched bytes.now search.new × (search.new.len ≡ search.old.len + 1) }
    ensures some { IfSome result (IsFrontOf bytes.now) }
{
    let at = search.len;
    if bytes[at] == b'\n' {
        if let Some(front) = head_at(bytes, at) {
            return Some(front);
        }
        search.line_feeds += 1;
        if search.line_feeds == MOST_LINE_FEEDS {
            return Some(Front::Hopeless);
        }
    }
    search.len = at + 1;
    if search.len == MOST_BYTES {
        return Some(Front::Hopeless);
    }
    None
}

/// Looks on for the end of a head from where the search stands. None says that no head has come yet, and that there is
/// room for one: then all bytes were looked at.
pub fn look(bytes: &[u8], search: &mut Search) -> Option<Front>
    requires searched { IsSearched bytes.now search.old }
    ensures none { result ≡ None
        → IsSearched bytes.now search.new × (search.new.len ≡ length bytes.now) }
    ensures some { IfSome result (IsFrontOf bytes.now) }
{
    while search.len < bytes.len() {
        skip_line(bytes, search);
        if search.len == MOST_BYTES {
            return Some(Front::Hopeless);
        }
        if search.len < bytes.len()
            && let Some(front) = advance(bytes, search)
        {
            return Some(front);
        }
    }
    None
}
