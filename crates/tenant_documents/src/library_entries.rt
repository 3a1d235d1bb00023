//! The entries of a library, compiled.

ghost use Rattle.std.specs.Prelude.{◌≡◌, ◌≢◌, ℕ, Ok, IfErr, IfOk, map};
ghost use Rattle.definitions.specs.Batches.{document_under, entry_document, entry_documents};
ghost use Rattle.definitions.specs.Patterns.{regular_search};
ghost use Rattle.faults.specs.View.{fault_view};
ghost use Rattle.json_doc.specs.Docs.{value};
ghost use Rattle.linker.specs.SharedDocuments.{shared_documents};
ghost use Rattle.schema_scan.specs.CompiledDocuments.{compiled_view};
ghost use Rattle.tenant_documents.specs.EntryRefusals.{IsRefusedAt, IsRefusedEntry, IsRefusedUnder};
ghost use Rattle.tenants_file.specs.Entries.{entry_view};

use json_doc::Doc;
use requests::Fault;
use schema_scan::{Compiled, compile, scan};
use std::alloc::Global;
use std::rc::Rc;
use tenants_file::BatchEntry;
use uri_ref::{base_form, split};

// The documents of the entries, in their order.
pub(crate) fn compiled_entries(
    alloc: Global,
    entries: &[BatchEntry],
) -> Result<Vec<Rc<Compiled>>, Fault>
    ensures ok { IfOk result (λ ds. entry_documents regular_search 0 (map entry_view entries.now)
        ≡ Ok (shared_documents ds.items)) }
    ensures err { IfErr result (λ f. f ≢ Fault.NoRoom
        → (n : ℕ) × IsRefusedAt (map entry_view entries.now) n (fault_view f)) }
{
    let mut documents = Vec::with_capacity(alloc, entries.len())?;
    for entry in entries {
        documents.push(compiled_entry(alloc, entry)?)?;
    }
    Ok(documents)
}

fn compiled_entry(alloc: Global, entry: &BatchEntry) -> Result<Rc<Compiled>, Fault>
    ensures ok { IfOk result (λ c. entry_document regular_search (entry_view entry.now)
        ≡ Ok (compiled_view c.value)) }
    ensures err { IfErr result (λ f. f ≢ Fault.NoRoom
        → IsRefusedEntry (entry_view entry.now) (fault_view f)) }
{
    let base = base_form(alloc, entry.uri)?;
    compiled_under(alloc, base.as_str(), entry.schema)
}

// The document under this base, scanned and compiled.
fn compiled_under(alloc: Global, base: &str, document: &Doc) -> Result<Rc<Compiled>, Fault>
    ensures ok { IfOk result (λ c. document_under regular_search (Ok base.now) (value document.now)
        ≡ Ok (compiled_view c.value)) }
    ensures err { IfErr result (λ f. f ≢ Fault.NoRoom
        → IsRefusedUnder (Ok base.now) (value document.now) (fault_view f)) }
{
    let scanned = scan(alloc, &split(base), document)?;
    let compiled = compile(alloc, scanned)?;
    Ok(Rc::new(alloc, compiled)?)
}
