//! How many elements arrays have.

ghost use Rattle.std.specs.Prelude.{◌≡◌, map};
ghost use Rattle.definitions.specs.Limits.{limits};
ghost use Rattle.definitions.specs.Values.{to_elements};
ghost use Rattle.definition_laws.specs.Reading.{has_arrays_within, have_arrays_within, members_have_arrays_within};
ghost use Rattle.json_doc.specs.Docs.{value, members_view};

use json_doc::{Doc, Members};

// No array in the body of a request has more elements.
const MOST_ELEMENTS: usize = 1_048_576;

// Whether no array in the value has more elements than one in a body may have.
#[cycle(arrays)]
pub(crate) fn has_short_arrays(document: &Doc) -> bool
    ensures { result ≡ has_arrays_within limits.body_bytes (value document.now) }
{
    match document {
        Doc::List(items) => items.len() <= MOST_ELEMENTS && have_short_arrays(items.as_slice()),
        Doc::Dict(members) => members_have_short_arrays(members),
        _ => true,
    }
}

#[cycle(arrays)]
fn have_short_arrays(items: &[Doc]) -> bool
    ensures { result ≡ have_arrays_within limits.body_bytes (to_elements (map value items.now)) }
{
    for item in items {
        if !has_short_arrays(item) {
            return false;
        }
    }
    true
}

#[cycle(arrays)]
fn members_have_short_arrays(members: &Members) -> bool
    ensures { result ≡ members_have_arrays_within limits.body_bytes (members_view members.now) }
{
    for (_, member) in members.iter() {
        if !has_short_arrays(member) {
            return false;
        }
    }
    true
}
