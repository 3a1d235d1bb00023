//! What a pointer finds in a document (RFC 6901, section 4).

ghost use Rattle.std.specs.Prelude.{◌≡◌, option_and_then, option_map};
ghost use Rattle.definitions.specs.Pointers.{array_index, child, find};
ghost use Rattle.json_doc.specs.Docs.{value};
ghost use Rattle.locations.specs.Indexes.{in_64_bits};

use json_doc::Doc;
use json_pointer::Pointer;

/// The value that the pointer leads to from the root of a document, if there is one (RFC 6901, section 4). This takes no memory.
///
/// In an object a token finds the member of its name; in an array the element whose index it is, written as `0` or as
/// digits without a leading zero. `-` finds none.
pub fn find<'a>(doc: &'a Doc, pointer: &Pointer) -> Option<&'a Doc>
    ensures { option_map (λ d. value d.now) result ≡ find pointer.now (value doc.now) }
{
    let mut found = doc;
    for token in pointer.tokens() {
        found = child(token.as_str(), found)?;
    }
    Some(found)
}

// What one token finds.
fn child<'a>(token: &str, doc: &'a Doc) -> Option<&'a Doc>
    ensures { option_map (λ d. value d.now) result ≡ child token.now (value doc.now) }
{
    match doc {
        Doc::List(items) => items.get(array_index(token)?),
        Doc::Dict(members) => members.get(token),
        _ => None,
    }
}

// The index that a token writes, below 2^64.
fn array_index(token: &str) -> Option<usize>
    ensures { result ≡ option_and_then in_64_bits (array_index token.now) }
{
    match token.as_bytes() {
        [b'0'] => Some(0),
        [b'1'..=b'9', ..] => token.parse().ok(),
        _ => None,
    }
}
