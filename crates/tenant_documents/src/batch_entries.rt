//! The entries of a batch, as documents that can be stored.

ghost use Rattle.std.specs.Prelude.{◌≡◌, ◌≢◌, Ok, IfErr, IfOk, map};
ghost use Rattle.definitions.specs.Batches.{document_under, entry_document};
ghost use Rattle.definitions.specs.Patterns.{regular_search};
ghost use Rattle.faults.specs.View.{fault_view};
ghost use Rattle.json_doc.specs.Docs.{value};
ghost use Rattle.stored_documents.specs.StoredDocuments.{stored_view};
ghost use Rattle.tenant_documents.specs.Batches.{IsEntered, IsRefusal};
ghost use Rattle.tenant_documents.specs.EntryRefusals.{IsRefusedEntry, IsRefusedUnder};
ghost use Rattle.tenants_file.specs.Entries.{entry_view};

use json_doc::Doc;
use requests::Fault;
use shared_cache::Cache;
use std::alloc::Global;
use std::rc::Rc;
use stored_documents::Stored;
use tenants_file::BatchEntry;
use uri_ref::{base_form, split};

// What the entries of a batch give, before any registry judges them.
#[derive(Drop)]
pub(crate) enum EnteredBatch {
    // Their documents, in the order of the entries.
    Documents(Vec<Rc<Stored>>),
    // The number of the first entry with a fault, counted from 0, and its first fault.
    Refused(usize, Fault),
}

// The only error is want of memory.
pub(crate) fn entered(
    alloc: Global,
    cache: &mut Cache,
    entries: &[BatchEntry],
) -> Result<EnteredBatch, Fault>
    ensures ok { IfOk result (λ e. IsEntered (map entry_view entries.now) e) }
    ensures err { IfErr result (λ f. f ≡ Fault.NoRoom) }
{
    let mut documents = Vec::with_capacity(alloc, entries.len())?;
    for (number, entry) in entries.iter().enumerate() {
        match stored_entry(alloc, cache, entry) {
            Ok(document) => documents.push(document)?,
            Err(why) => return refused(number, why),
        }
    }
    Ok(EnteredBatch::Documents(documents))
}

// The entry of this number is refused, unless memory is wanted.
fn refused(number: usize, why: Fault) -> Result<EnteredBatch, Fault>
    ensures ok { IfOk result (λ e. IsRefusal number why e) }
    ensures err { IfErr result (λ f. f ≡ Fault.NoRoom) }
{
    match why {
        Fault::NoRoom => Err(Fault::NoRoom),
        _ => Ok(EnteredBatch::Refused(number, why)),
    }
}

fn stored_entry(alloc: Global, cache: &mut Cache, entry: &BatchEntry) -> Result<Rc<Stored>, Fault>
    ensures ok { IfOk result (λ s. entry_document regular_search (entry_view entry.now)
        ≡ Ok (stored_view s.value)) }
    ensures err { IfErr result (λ f. f ≢ Fault.NoRoom
        → IsRefusedEntry (entry_view entry.now) (fault_view f)) }
{
    let base = base_form(alloc, entry.uri)?;
    stored_under(alloc, cache, base.as_str(), entry.schema)
}

// The document under this base, scanned and with its patterns built.
fn stored_under(
    alloc: Global,
    cache: &mut Cache,
    base: &str,
    document: &Doc,
) -> Result<Rc<Stored>, Fault>
    ensures ok { IfOk result (λ s. document_under regular_search (Ok base.now) (value document.now)
        ≡ Ok (stored_view s.value)) }
    ensures err { IfErr result (λ f. f ≢ Fault.NoRoom
        → IsRefusedUnder (Ok base.now) (value document.now) (fault_view f)) }
{
    let stored = Stored::of(alloc, cache, &split(base), document)?;
    Ok(Rc::new(alloc, stored)?)
}
