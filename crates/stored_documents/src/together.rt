//! Several documents that are put together.

ghost use Rattle.std.specs.Prelude.{◌≡◌, ◌+◌, ◌^◌, ◌<◌, ◌≤◌, false, length, vec_len, vec_capacity};
ghost use Rattle.definitions.specs.Documents.{bytes_of, canonicals, document_of, documents_with, documents_with_all, Ascend};
ghost use Rattle.definitions.specs.Lists.{has_repeat, option_list};
ghost use Rattle.definitions.specs.Values.{same_text};
ghost use Rattle.stored_documents.specs.SharedStored.{stored_documents};
ghost use Rattle.stored_documents.specs.StoredDocuments.{stored_view};

use crate::insertion::insert_in_order;
use crate::stored::Stored;
use std::rc::Rc;

// How many bytes their compact texts have together.
pub(crate) fn total_length(documents: &[Rc<Stored>]) -> u64
    requires { bytes_of (stored_documents documents.now) < 2 ^ 64 }
    ensures { result ≡ bytes_of (stored_documents documents.now) }
{
    let mut total = 0;
    for document in documents {
        total += document.length() as u64;
    }
    total
}

// Puts them at their places, for which there is room, and answers how many bytes the texts have that are replaced.
pub(crate) fn place_all(stored: &mut Vec<Rc<Stored>>, documents: Vec<Rc<Stored>>) -> u64
    requires ascend { Ascend (stored_documents stored.old.items) }
    requires room { vec_len stored.old + length documents.items ≤ vec_capacity stored.old }
    requires fits { bytes_of (stored_documents stored.old.items) < 2 ^ 64 }
    requires once { has_repeat same_text (canonicals (stored_documents documents.items)) ≡ false }
    ensures placed { stored_documents stored.new.items
        ≡ documents_with_all (stored_documents documents.items)
        (stored_documents stored.old.items) }
    ensures bytes { bytes_of (stored_documents stored.new.items) + result
        ≡ bytes_of (stored_documents stored.old.items)
        + bytes_of (stored_documents documents.items) }
    ensures within { result ≤ bytes_of (stored_documents stored.old.items) }
{
    let mut replaced = 0;
    for document in documents {
        replaced += place_in_room(stored, document);
    }
    replaced
}

// Puts one document at its place, for which there is room, and answers how many bytes the text has that is replaced: 0
// where none is.
fn place_in_room(stored: &mut Vec<Rc<Stored>>, document: Rc<Stored>) -> u64
    requires ascend { Ascend (stored_documents stored.old.items) }
    requires room { vec_len stored.old < vec_capacity stored.old }
    ensures placed { stored_documents stored.new.items
        ≡ documents_with (stored_view document.value) (stored_documents stored.old.items) }
    ensures bytes { result ≡ bytes_of
        (option_list (document_of (stored_documents stored.old.items)
        (stored_view document.value).canonical)) }
    ensures capacity { vec_capacity stored.old ≤ vec_capacity stored.new }
    ensures len { vec_len stored.new ≤ vec_len stored.old + 1 }
{
    match insert_in_order(stored, document) {
        Ok(Some(replaced)) => replaced.length() as u64,
        Ok(None) => 0,
        Err(_) => unreachable!(),
    }
}
