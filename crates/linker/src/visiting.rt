//! The documents that a resource reaches (JSON Schema 2020-12 Core, sections 8.2.3 and 9.2).

ghost use Rattle.std.specs.Prelude.{◌≡◌, IfOk, OnOk};
ghost use Rattle.definitions.specs.Reach.{holds_resource, reach, refers_to};
ghost use Rattle.schema_scan.specs.CompiledDocuments.{compiled_view};
ghost use Rattle.linker.specs.CompoundDocuments.{compound_documents};
ghost use Rattle.linker.specs.SharedDocuments.{shared_documents};
ghost use Rattle.definitions.specs.Documents.{Ascend};
ghost use Rattle.linker.specs.Visits.{Adds, AreCompound, EmbedAlike, IsPart, Keeps};

use crate::compound_documents::CompoundDocuments;
use crate::holders::is_reached;
use crate::insertion::insert_in_order;
use crate::source::Source;
use schema_scan::Compiled;
use std::alloc::{AllocError, Global};
use std::rc::Rc;
use uri_ref::without_fragment;

/// Documents that a resource reaches.
#[derive(Drop)]
pub(crate) struct Reached {
    /// All of them, in byte order of their canonical URIs.
    pub(crate) documents: Vec<Rc<Compiled>>,
    /// Those of several resources.
    pub(crate) compound: CompoundDocuments,
}

// The documents that the resource reaches: none where no document has it.
pub(crate) fn reached_documents<S: Source>(
    alloc: Global,
    source: &mut S,
    resource: &str,
) -> Result<Reached, AllocError>
    ensures ok { IfOk result (λ r. shared_documents r.documents.items
        ≡ reach (S.documents source.old) resource.now) }
    ensures known { IfOk result (λ r. EmbedAlike (shared_documents r.documents.items)
        (compound_documents r.compound)) }
    ensures same { S.documents source.new ≡ S.documents source.old }
{
    let mut reached = Vec::new(alloc);
    let mut compound = CompoundDocuments::new(alloc);
    let mut waiting = Vec::new(alloc);
    visit(
        alloc,
        source,
        resource,
        &mut reached,
        &mut compound,
        &mut waiting,
    )?;
    while let Some(document) = waiting.pop() {
        follow(
            alloc,
            source,
            &document,
            &mut reached,
            &mut compound,
            &mut waiting,
        )?;
    }
    Ok(Reached {
        documents: reached,
        compound,
    })
}

// Follows the references of a document. Those of the reached documents that have several resources are known.
fn follow<S: Source>(
    alloc: Global,
    source: &mut S,
    document: &Compiled,
    reached: &mut Vec<Rc<Compiled>>,
    compound: &mut CompoundDocuments,
    waiting: &mut Vec<Rc<Compiled>>,
) -> Result<(), AllocError>
    requires part { IsPart (shared_documents reached.old.items) (S.documents source.old) }
    requires known { AreCompound (shared_documents reached.old.items)
        (compound_documents compound.old) }
    ensures ok { OnOk result
        (Adds (S.documents source.old) (refers_to (compiled_view document.now))
        (shared_documents reached.old.items) (shared_documents waiting.old.items)
        (shared_documents reached.new.items) (shared_documents waiting.new.items)) }
    ensures known { OnOk result
        (AreCompound (shared_documents reached.new.items) (compound_documents compound.new)) }
    ensures same { S.documents source.new ≡ S.documents source.old }
{
    for reference in document.references() {
        visit(
            alloc,
            source,
            without_fragment(reference),
            reached,
            compound,
            waiting,
        )?;
    }
    Ok(())
}

// Looks a URI up in the source, unless a reached document has it, and keeps the document that has it.
fn visit<S: Source>(
    alloc: Global,
    source: &mut S,
    uri: &str,
    reached: &mut Vec<Rc<Compiled>>,
    compound: &mut CompoundDocuments,
    waiting: &mut Vec<Rc<Compiled>>,
) -> Result<(), AllocError>
    requires part { IsPart (shared_documents reached.old.items) (S.documents source.old) }
    requires known { AreCompound (shared_documents reached.old.items)
        (compound_documents compound.old) }
    ensures ok { OnOk result
        (Adds (S.documents source.old) (holds_resource uri.now) (shared_documents reached.old.items)
        (shared_documents waiting.old.items) (shared_documents reached.new.items)
        (shared_documents waiting.new.items)) }
    ensures known { OnOk result
        (AreCompound (shared_documents reached.new.items) (compound_documents compound.new)) }
    ensures same { S.documents source.new ≡ S.documents source.old }
{
    if is_reached(reached, compound, uri) {
        return Ok(());
    }
    match source.holding(alloc, uri)? {
        Some(document) => Ok(keep(alloc, document, reached, compound, waiting)?),
        None => Ok(()),
    }
}

// Adds a document to those that are reached and wait, unless it is reached already.
fn keep(
    alloc: Global,
    document: Rc<Compiled>,
    reached: &mut Vec<Rc<Compiled>>,
    compound: &mut CompoundDocuments,
    waiting: &mut Vec<Rc<Compiled>>,
) -> Result<(), AllocError>
    requires ascend { Ascend (shared_documents reached.old.items) }
    requires known { AreCompound (shared_documents reached.old.items)
        (compound_documents compound.old) }
    ensures kept { OnOk result
        (Keeps (compiled_view document.value) (shared_documents reached.old.items)
        (shared_documents waiting.old.items) (shared_documents reached.new.items)
        (shared_documents waiting.new.items)) }
    ensures known { OnOk result
        (AreCompound (shared_documents reached.new.items) (compound_documents compound.new)) }
{
    let again = document.clone()?;
    if insert_in_order(reached, document)? {
        compound.add(alloc, &again)?;
        waiting.push(again)?;
    }
    Ok(())
}
