//! What is kept of a head.
ghost use Rattle.std.specs.Prelude.{◌≡◌, length};
ghost use Rattle.httparse.specs.Grammar.{RequestHead};
ghost use Rattle.httparse.specs.Spans.{IsRequestAt, IsRequestWithin};
ghost use Rattle.request_heads.specs.Headings.{IsJudged};

use crate::fields::{body_length, first_named, is_last};
use crate::methods::Method;
use httparse::spans::{HeaderSpan, RequestSpans, Span};

/// What is kept of a head that its fields don't refuse. The spans count from the head's first byte.
#[derive(Clone, Copy)]
pub struct Heading {
    pub method: Method,
    pub target: Span,
    pub key: Option<Span>,
    /// How many bytes the head has.
    pub head_len: usize,
    /// How many bytes the body has, which follows the head: at most 1,048,576.
    pub body_len: usize,
    /// After the reply the connection is closed.
    pub is_last: bool,
}

/// What the fields of a head say that is the whole window; none where they refuse it: an unknown method, a `transfer-encoding`, two lengths, or
/// one that is none.
pub fn judge(window: &[u8], headers: &[HeaderSpan], head: RequestSpans) -> Option<Heading>
    requires within { IsRequestWithin window.now headers.now head }
    requires whole { head.len ≡ length window.now }
    ensures { (h : RequestHead) → IsRequestAt window.now headers.now head h → IsJudged h result }
{
    let fields = &headers[..head.headers];
    let name = head.method.of(window);
    match Method::of(name) {
        None => None,
        Some(method) => match body_length(window, fields, method.must_tell()) {
            None => None,
            Some(body_len) => Some(Heading {
                method,
                target: head.path,
                key: first_named(window, fields, b"x-tenant-key"),
                head_len: head.len,
                body_len,
                is_last: is_last(window, fields, head.version),
            }),
        },
    }
}
