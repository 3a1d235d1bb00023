//! The library of a server: a batch that stands for good.

ghost use Rattle.std.specs.Prelude.{◌≡◌, ◌≢◌, Ok, Err, None, IfErr, IfOk, []};
ghost use Rattle.definitions.specs.Batches.{batch_entries, entries_of, library_by, library_of, library_with, repeated_uri, taken_by};
ghost use Rattle.definitions.specs.Documents.{documents_with_all};
ghost use Rattle.definitions.specs.Patterns.{regular_search};
ghost use Rattle.faults.specs.View.{fault_view};
ghost use Rattle.json_doc.specs.Docs.{value};
ghost use Rattle.linker.specs.ListedDocuments.{listed_documents};
ghost use Rattle.linker.specs.SharedDocuments.{shared_documents};
ghost use Rattle.tenant_documents.specs.EntryRefusals.{IsRefusedLibrary};

use crate::library_entries::compiled_entries;
use crate::library_uris::{repeated_uri, shared_uri};
use json_doc::Doc;
use linker::ListSource;
use requests::Fault;
use schema_scan::Compiled;
use std::alloc::Global;
use std::rc::Rc;
use tenants_file::{read_batch, read_body};

/// The documents of a batch, `{"put":[{"schema":{},"uri":"https://ex.org/a"}]}`, compiled, in byte order of their canonical
/// URIs (JSON Schema 2020-12 Core, section 8.2.1).
///
/// The first of these faults is answered: `TooLarge`, `BadJson` and `BadNumber` of the whole text; `BadBatch`; entry by entry
/// `BadUri`, the faults of the scan in their order, `BadPattern`; `SameDocument` with the least canonical URI that two have;
/// `Taken` with the least resource URI that two have. `NoRoom` may take the place of any answer, and `BadPattern` may be for
/// a pattern that can be read and is too big once it is built.
pub fn library_of(alloc: Global, batch: &[u8]) -> Result<ListSource, Fault>
    ensures ok { IfOk result (λ l. library_of regular_search batch.now ≡ Ok (listed_documents l)) }
    ensures err { IfErr result (λ f. f ≢ Fault.NoRoom
        → IsRefusedLibrary (batch_entries batch.now) (fault_view f)) }
{
    let batch = read_body(alloc, batch)?;
    library_in(alloc, &batch)
}

// The library that the value of a batch gives.
fn library_in(alloc: Global, batch: &Doc) -> Result<ListSource, Fault>
    ensures ok { IfOk result (λ l. library_by regular_search (entries_of (Ok (value batch.now)))
        ≡ Ok (listed_documents l)) }
    ensures err { IfErr result (λ f. f ≢ Fault.NoRoom
        → IsRefusedLibrary (entries_of (Ok (value batch.now))) (fault_view f)) }
{
    let entries = read_batch(alloc, batch)?;
    let documents = compiled_entries(alloc, &entries)?;
    listed_together(alloc, &documents)
}

// The documents in a list, unless two of them have one URI.
fn listed_together(alloc: Global, documents: &[Rc<Compiled>]) -> Result<ListSource, Fault>
    ensures ok { IfOk result (λ l. library_with (shared_documents documents.now)
        ≡ Ok (listed_documents l)) }
    ensures err { IfErr result (λ f. f ≢ Fault.NoRoom
        → library_with (shared_documents documents.now) ≡ Err (fault_view f)) }
{
    if let Some(uri) = repeated_uri(alloc, documents)? {
        return Err(Fault::SameDocument(uri.to_owned(alloc)?));
    }
    if let Some(uri) = shared_uri(alloc, documents)? {
        return Err(Fault::Taken(uri.to_owned(alloc)?));
    }
    listed(alloc, documents)
}

// The documents in a list. The only error is want of memory.
fn listed(alloc: Global, documents: &[Rc<Compiled>]) -> Result<ListSource, Fault>
    requires once { repeated_uri (shared_documents documents.now) ≡ None }
    requires free { taken_by (documents_with_all (shared_documents documents.now) [])
        (shared_documents documents.now) ≡ None }
    ensures ok { IfOk result (λ l. listed_documents l
        ≡ documents_with_all (shared_documents documents.now) []) }
    ensures err { IfErr result (λ f. f ≡ Fault.NoRoom) }
{
    let mut library = ListSource::new(alloc);
    for document in documents {
        library.add(document.clone()?)?;
    }
    Ok(library)
}
