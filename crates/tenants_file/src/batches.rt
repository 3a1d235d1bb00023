//! Batches of documents that are stored together.

ghost use Rattle.std.specs.Prelude.{◌≡◌, ◌≢◌, ◌&&◌, not, nat_lt, Ok, Err, None, Some, IfOk, IfErr, map, option_map};
ghost use Rattle.definitions.specs.Batches.{entries_of, entry_in, some_entries};
ghost use Rattle.definitions.specs.Limits.{limits};
ghost use Rattle.definitions.specs.Lists.{each};
ghost use Rattle.faults.specs.View.{fault_view};
ghost use Rattle.json_doc.specs.Docs.{value};
ghost use Rattle.tenants_file.specs.Entries.{entry_view};

use crate::member_values::array_at;
use json_doc::{Doc, Fault};
use std::alloc::Global;

/// How many entries a batch may have.
const MOST_ENTRIES: usize = 64;

/// An entry of a batch: a schema document, and the URI that it is put under.
#[derive(Clone, Copy, Debug)]
pub struct BatchEntry<'a> {
    /// The text that was sent, not resolved yet.
    pub uri: &'a str,
    /// The document.
    pub schema: &'a Doc,
}

/// The entries of a batch that was read, `{"put":[{"schema":{},"uri":"https://ex.org/a"}]}`, in its order. Other members are
/// ignored.
///
/// `BadBatch` where the value has another shape, no entry, or more than 64; `NoRoom` may take its place.
pub fn read_batch(alloc: Global, batch: &Doc) -> Result<Vec<BatchEntry<'_>>, Fault>
    ensures ok { IfOk result
        (λ es. entries_of (Ok (value batch.now)) ≡ Ok (map entry_view es.items)) }
    ensures err { IfErr result (λ f. f ≢ Fault.NoRoom
        → entries_of (Ok (value batch.now)) ≡ Err (fault_view f)) }
{
    match array_at(batch, "put") {
        Some(items) => counted_entries(alloc, items),
        None => Err(Fault::BadBatch),
    }
}

fn counted_entries(alloc: Global, items: &[Doc]) -> Result<Vec<BatchEntry<'_>>, Fault>
    ensures ok { IfOk result (λ es. some_entries (each entry_in (map value items.now))
        ≡ Ok (map entry_view es.items)) }
    ensures err { IfErr result (λ f. f ≢ Fault.NoRoom
        → some_entries (each entry_in (map value items.now)) ≡ Err (fault_view f)) }
{
    if !is_entry_count(items.len()) {
        return Err(Fault::BadBatch);
    }
    each_entry(alloc, items)
}

fn is_entry_count(count: usize) -> bool
    ensures { result ≡ (nat_lt 0 count && not (nat_lt limits.entries count)) }
{
    0 < count && count <= MOST_ENTRIES
}

fn each_entry(alloc: Global, items: &[Doc]) -> Result<Vec<BatchEntry<'_>>, Fault>
    ensures ok { IfOk result
        (λ es. each entry_in (map value items.now) ≡ Some (map entry_view es.items)) }
    ensures err { IfErr result (λ f. f ≢ Fault.NoRoom
        → (f ≡ Fault.BadBatch) × (each entry_in (map value items.now) ≡ None)) }
{
    let mut entries = Vec::with_capacity(alloc, items.len())?;
    for item in items {
        match entry_of(item) {
            Some(entry) => entries.push(entry)?,
            None => return Err(Fault::BadBatch),
        }
    }
    Ok(entries)
}

fn entry_of(item: &Doc) -> Option<BatchEntry<'_>>
    ensures { option_map entry_view result ≡ entry_in (value item.now) }
{
    let uri = item.text_at("uri")?;
    let schema = item.get("schema")?;
    Some(BatchEntry { uri, schema })
}
