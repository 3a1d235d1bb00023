//! References without a target (JSON Schema 2020-12 Core, section 8.2.3).

ghost use Rattle.std.specs.Prelude.{◌≡◌, ◌++◌, List, Some, false, IfOk, if◌then◌else◌, is_some, option_map};
ghost use Rattle.definitions.specs.Fragments.{fragment_kind};
ghost use Rattle.definitions.specs.Reach.{least, lesser, missing_references};
ghost use Rattle.definitions.specs.Schemas.{table_of};
ghost use Rattle.definitions.specs.Targets.{target, target_in};
ghost use Rattle.definitions.specs.Values.{Text};
ghost use Rattle.schema_scan.specs.CompiledDocuments.{compiled_schemas, compiled_view};
ghost use Rattle.linker.specs.CompoundDocuments.{compound_documents};
ghost use Rattle.linker.specs.Missing.{missing_in};
ghost use Rattle.linker.specs.SharedDocuments.{shared_documents};
ghost use Rattle.linker.specs.Visits.{AreSearchable};

use crate::compound_documents::CompoundDocuments;
use crate::holders::holder;
use faults::Fault;
use schema_scan::Compiled;
use std::alloc::{AllocError, Global};
use std::cmp::Ordering;
use std::rc::Rc;
use uri_ref::{fragment_kind, split, without_fragment};

// Whether the absolute reference names a schema of these documents. A fragment that can't be read names nothing.
fn names_schema(
    alloc: Global,
    documents: &[Rc<Compiled>],
    compound: &CompoundDocuments,
    reference: &str,
) -> Result<bool, AllocError>
    requires { AreSearchable (shared_documents documents.now) (compound_documents compound.now) }
    ensures { IfOk result
        (λ named. named ≡ is_some
        (target (table_of (shared_documents documents.now)) reference.now)) }
{
    let uri = without_fragment(reference);
    match holder(documents, compound, uri) {
        Some(document) => names_in(alloc, document, uri, split(reference).fragment()),
        None => Ok(false),
    }
}

/// Whether the fragment names a schema in the document's resource with this URI. A fragment that can't be read names nothing. The
/// only error is want of memory.
pub fn names_in(
    alloc: Global,
    document: &Compiled,
    uri: &str,
    fragment: Option<&str>,
) -> Result<bool, AllocError>
    ensures { IfOk result
        (λ named. named ≡ is_some
        (target_in (compiled_schemas document.now) uri.now
        (fragment_kind (option_map (λ t. t.now) fragment.entry)))) }
{
    match fragment_kind(alloc, fragment) {
        Ok(kind) => Ok(document.target(alloc, uri, &kind)?.is_some()),
        Err(Fault::NoRoom) => Err(AllocError),
        Err(_) => Ok(false),
    }
}

// The least in byte order of the references without a target in any of the documents.
pub(crate) fn least_missing<'a>(
    alloc: Global,
    documents: &'a [Rc<Compiled>],
    compound: &CompoundDocuments,
) -> Result<Option<&'a str>, AllocError>
    requires { AreSearchable (shared_documents documents.now) (compound_documents compound.now) }
    ensures { IfOk result
        (λ t. option_map (λ t. t.now) t
        ≡ least (missing_references (shared_documents documents.now))) }
{
    let mut found = None;
    for document in documents {
        found = least_missing_of(alloc, documents, compound, document, found)?;
    }
    Ok(found)
}

// The least of one that was found and of the document's references without a target.
fn least_missing_of<'a>(
    alloc: Global,
    documents: &[Rc<Compiled>],
    compound: &CompoundDocuments,
    document: &'a Compiled,
    found: Option<&'a str>,
) -> Result<Option<&'a str>, AllocError>
    requires { AreSearchable (shared_documents documents.now) (compound_documents compound.now) }
    ensures { (before : List Text) → option_map (λ t. t.now) found.entry ≡ least before
        → IfOk result (λ t. option_map (λ t. t.now) t
        ≡ least (before ++ missing_in (shared_documents documents.now)
        (compiled_view document.now))) }
{
    let mut least = found;
    for reference in document.references() {
        least = least_with(alloc, documents, compound, reference, least)?;
    }
    Ok(least)
}

// The least of one that was found and of the reference, unless this has a target.
fn least_with<'a>(
    alloc: Global,
    documents: &[Rc<Compiled>],
    compound: &CompoundDocuments,
    reference: &'a str,
    found: Option<&'a str>,
) -> Result<Option<&'a str>, AllocError>
    requires { AreSearchable (shared_documents documents.now) (compound_documents compound.now) }
    ensures { IfOk result
        (λ t. option_map (λ t. t.now) t
        ≡ (if is_some (target (table_of (shared_documents documents.now))
        reference.now) then option_map (λ t. t.now) found.entry else Some
        (lesser reference.now (option_map (λ t. t.now) found.entry)))) }
{
    if names_schema(alloc, documents, compound, reference)? {
        Ok(found)
    } else {
        Ok(Some(lesser(reference, found)))
    }
}

fn lesser<'a>(text: &'a str, other: Option<&'a str>) -> &'a str
    ensures { result.now ≡ lesser text.now (option_map (λ t. t.now) other.entry) }
{
    match other {
        Some(other) => match text.cmp(other) {
            Ordering::Greater => other,
            _ => text,
        },
        None => text,
    }
}
