//! Linking of a resource with what it refers to (JSON Schema 2020-12 Core, sections 8.2.3 and 9.2).

ghost use Rattle.std.specs.Prelude.{◌≡◌, ◌≢◌, None, Some, find, is_some, slice_get, true, IfErr, IfOk, OnOk};
ghost use Rattle.definitions.specs.Reach.{holds_resource, reach};
ghost use Rattle.definitions.specs.Scanning.{resource_uris};
ghost use Rattle.definitions.specs.Schemas.{table_of};
ghost use Rattle.definitions.specs.Targets.{resource_root};
ghost use Rattle.faults.specs.View.{fault_view};
ghost use Rattle.linker.specs.CompoundDocuments.{compound_documents};
ghost use Rattle.linker.specs.LinkFaults.{link_fault};
ghost use Rattle.linker.specs.LinkedDocuments.{linked_uri, linked_documents};
ghost use Rattle.linker.specs.SharedDocuments.{shared_documents};
ghost use Rattle.linker.specs.Visits.{AreSearchable};
ghost use Rattle.schema_scan.specs.CompiledDocuments.{compiled_schemas, compiled_view};

use crate::compound_documents::CompoundDocuments;
use crate::dynamic_resources::dynamic_resources_of;
use crate::holders::holder;
use crate::judging::least_missing;
use crate::linked::Linked;
use crate::source::Source;
use crate::target_documents::target_documents;
use crate::visiting::{Reached, reached_documents};
use faults::Fault;
use schema_scan::Compiled;
use std::alloc::{AllocError, Global};
use std::rc::Rc;

/// Links the resource that has this URI with the documents that it reaches: the one that has it, each document that one of
/// these refers to by an absolute reference, and so on.
///
/// [`Fault::NotFound`] is for a URI that no resource of the source's documents has. [`Fault::Unresolved`] is for a reference
/// of a reached document that names no schema: it carries the least of these references in byte order. The only other error
/// is want of memory. Whatever is answered, the source keeps the documents that it had.
pub fn link<S: Source>(alloc: Global, source: &mut S, resource: &str) -> Result<Linked, Fault>
    ensures uri { IfOk result (λ l. linked_uri l ≡ resource.now) }
    ensures documents { IfOk result
        (λ l. linked_documents l ≡ reach (S.documents source.old) resource.now) }
    ensures ok { OnOk result (link_fault (reach (S.documents source.old) resource.now) ≡ None) }
    ensures err { IfErr result
        (λ f. f ≢ Fault.NoRoom → link_fault (reach (S.documents source.old) resource.now)
        ≡ Some (fault_view f)) }
    ensures same { S.documents source.new ≡ S.documents source.old }
{
    let Reached {
        documents,
        compound,
    } = reached_documents(alloc, source, resource)?;
    judge(alloc, &documents, &compound)?;
    let (document, number) = holder_of(&documents, &compound, resource)?;
    let dynamic_resources = dynamic_resources_of(alloc, &documents)?;
    let target_documents = target_documents(alloc, &documents, &compound)?;
    let uri = resource.to_owned(alloc)?;
    Ok(Linked {
        uri,
        document,
        number,
        documents,
        compound,
        target_documents,
        dynamic_resources,
    })
}

// Fails where there are no documents, or where a reference of theirs names no schema.
fn judge(
    alloc: Global,
    documents: &[Rc<Compiled>],
    compound: &CompoundDocuments,
) -> Result<(), Fault>
    requires { AreSearchable (shared_documents documents.now) (compound_documents compound.now) }
    ensures ok { OnOk result (link_fault (shared_documents documents.now) ≡ None) }
    ensures err { IfErr result
        (λ f. f ≢ Fault.NoRoom → link_fault (shared_documents documents.now)
        ≡ Some (fault_view f)) }
{
    if documents.is_empty() {
        return Err(Fault::NotFound);
    }
    match least_missing(alloc, documents, compound)? {
        Some(reference) => Err(Fault::Unresolved(reference.to_owned(alloc)?)),
        None => Ok(()),
    }
}

// The document that has the resource, and the resource's number there. The only error is want of memory.
fn holder_of(
    documents: &[Rc<Compiled>],
    compound: &CompoundDocuments,
    resource: &str,
) -> Result<(Rc<Compiled>, usize), AllocError>
    requires searchable { AreSearchable (shared_documents documents.now)
        (compound_documents compound.now) }
    requires asked { is_some
        (resource_root (table_of (shared_documents documents.now)) resource.now) ≡ true }
    ensures holder { IfOk result
        (λ h. find (holds_resource resource.now) (shared_documents documents.now)
        ≡ Some (compiled_view h.0.value)) }
    ensures number { IfOk result
        (λ h. slice_get (resource_uris (compiled_schemas h.0.value)) h.1 ≡ Some resource.now) }
{
    match holder(documents, compound, resource) {
        Some(document) => {
            let number = document.resource_number(resource);
            Ok((document.clone()?, number))
        }
        None => unreachable!(),
    }
}
