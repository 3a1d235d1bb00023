//! The reading of a whole document's schemas.

ghost use Rattle.std.specs.Prelude.{◌≡◌, ◌≢◌, [], Some, None, OnOk, IfOk, IfErr};
ghost use Rattle.definitions.specs.Values.{is_object};
ghost use Rattle.definitions.specs.Scanning.{scan_fault};
ghost use Rattle.faults.specs.View.{fault_view};
ghost use Rattle.json_doc.specs.Docs.{value};
ghost use Rattle.schema_table.specs.Gathering.{IsGathered};
ghost use Rattle.schema_table.specs.Spots.{spots};

use crate::gathered::Gathered;
use crate::names::{has_repeated_anchor, has_repeated_uri};
use crate::visit::Visit;
use faults::Fault;
use json_doc::{Doc, nesting};
use std::alloc::Global;

// How deep a document may nest.
const MOST_NESTED: usize = 120;

/// What is gathered of the schemas of a document that stands under this base, or the first fault of its scan, in this order:
///
/// - [`Fault::NotObject`]: the document is no object.
/// - [`Fault::TooNested`]: it nests deeper than 120.
/// - [`Fault::BadKeyword`], [`Fault::BadId`], [`Fault::BadAnchor`], [`Fault::Dialect`]: the first on the walk.
/// - [`Fault::DuplicateUri`]: two schemas open a resource of one URI.
/// - [`Fault::DuplicateAnchor`]: two schemas of one resource have an anchor of one name.
/// - [`Fault::NoRoom`]: memory ran out, or the document's URIs, absolute references and ways to roots and anchors would take
///   more than 128 MiB together.
pub fn read_schemas<'a>(alloc: Global, base: &str, document: &'a Doc) -> Result<Gathered<'a>, Fault>
    ensures ok { IfOk result
        (λ g. IsGathered g (spots [] 0 base.now (value document.now))) }
    ensures sound { OnOk result (scan_fault base.now (value document.now) ≡ None) }
    ensures err { IfErr result
        (λ f. f ≢ Fault.NoRoom → scan_fault base.now (value document.now)
        ≡ Some (fault_view f)) }
{
    if !is_object(document) {
        return Err(Fault::NotObject);
    }
    if nesting(document) > MOST_NESTED {
        return Err(Fault::TooNested);
    }
    let mut visit = Visit::new(alloc);
    match visit.visit_schema(0, base, true, document) {
        Ok(()) => {}
        Err(refusal) => return Err(refusal.fault(alloc)),
    }
    let gathered = visit.gathered;
    if has_repeated_uri(alloc, &gathered.table.uris)? {
        return Err(Fault::DuplicateUri);
    }
    if has_repeated_anchor(alloc, &gathered.table.anchors)? {
        return Err(Fault::DuplicateAnchor);
    }
    Ok(gathered)
}

fn is_object(doc: &Doc) -> bool
    ensures { result ≡ is_object (value doc.now) }
{
    matches!(doc, Doc::Dict(_))
}
