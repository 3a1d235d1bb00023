//! The scan of a whole document.

ghost use Rattle.std.specs.Prelude.{◌≡◌, ◌≢◌, Some, None, OnOk, IfOk, IfErr, string_bytes};
ghost use Rattle.definitions.specs.Uris.{recompose};
ghost use Rattle.definitions.specs.Scanning.{scan_fault};
ghost use Rattle.faults.specs.View.{fault_view};
ghost use Rattle.json_doc.specs.Docs.{value};
ghost use Rattle.schema_scan.specs.Scans.{scanned_base, scanned_value};

use crate::scanned::Scanned;
use faults::Fault;
use json_doc::Doc;
use schema_table::read_schemas;
use std::alloc::Global;
use uri_ref::{Parts, recompose};

/// Scans the document that is to stand under this base (JSON Schema 2020-12 Core, sections 8 to 10).
///
/// The first of these faults is answered:
///
/// - [`Fault::NotObject`]: the document is no object.
/// - [`Fault::TooNested`]: it nests deeper than 120.
/// - [`Fault::BadKeyword`]: the value of a keyword has a wrong shape; at the keyword (Core, section 10; Validation,
///   section 6). [`Fault::BadId`]: an `$id` makes no identifier (Core, section 8.2.1). [`Fault::BadAnchor`]: an `$anchor` or
///   a `$dynamicAnchor` is no name (section 8.2.2). [`Fault::Dialect`]: at the root of a resource, `$schema` names another
///   dialect (section 8.1.1). Of these the first on one walk, where a schema's own keywords come before its subschemas,
///   both in byte order of names.
/// - [`Fault::DuplicateUri`]: two schemas open a resource of one URI.
/// - [`Fault::DuplicateAnchor`]: two schemas of one resource have an anchor of one name.
/// - [`Fault::NoRoom`]: memory ran out, or the document's URIs, absolute references and ways to roots and anchors would take
///   more than 128 MiB together.
///
/// Names that are no keywords are no fault, nor is `$schema` below the root of a resource.
pub fn scan<'a>(alloc: Global, base: &Parts, document: &'a Doc) -> Result<Scanned<'a>, Fault>
    ensures ok { IfOk result
        (λ s. (scanned_base s ≡ recompose base.now) × (scanned_value s ≡ value document.now)) }
    ensures sound { OnOk result (scan_fault (recompose base.now) (value document.now) ≡ None) }
    ensures err { IfErr result
        (λ f. f ≢ Fault.NoRoom → scan_fault (recompose base.now) (value document.now)
        ≡ Some (fault_view f)) }
{
    let text = recompose(alloc, base)?;
    match read_schemas(alloc, text.as_str(), document) {
        Ok(gathered) => Ok(Scanned::new(text, document, gathered)),
        Err(fault) => Err(fault),
    }
}
