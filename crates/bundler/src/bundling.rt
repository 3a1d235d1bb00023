//! The bundle of linked documents.

ghost use Rattle.std.specs.Prelude.{◌≡◌, ◌≢◌, Ok, Err, IfOk, IfErr, is_some, find, map, option_map};
ghost use Rattle.definitions.specs.Bundles.{bundle, defs_of};
ghost use Rattle.definitions.specs.Documents.{others_of};
ghost use Rattle.definitions.specs.Values.{entry};
ghost use Rattle.faults.specs.View.{fault_view};
ghost use Rattle.json_doc.specs.Docs.{value};
ghost use Rattle.linker.specs.LinkedDocuments.{linked_uri, linked_documents};
ghost use Rattle.bundler.specs.Alone.{AnswersAlone};
ghost use Rattle.bundler.specs.Constituents.{bare_document, constituent_view};

use crate::constituent::Constituent;
use crate::embedding::compound;
use crate::measuring::within_limits;
use faults::Fault;
use json_doc::Doc;
use linker::{Linked, asked, documents, value_of};
use schema_scan::canonical;
use std::alloc::Global;

/// The bundle of linked documents (JSON Schema 2020-12 Core, section 9.3): the value of the document that was linked, with
/// its canonical URI as `$id`, and with each other document in its `$defs`, under its canonical URI and with that as `$id`.
/// No reference is changed.
///
/// The first of these faults is answered:
///
/// - [`Fault::NotFound`]: the URI that was linked is no document's canonical URI.
/// - [`Fault::BundleClash`]: the document's `$defs` has a member of another document's canonical URI already; carries the
///   least of these in byte order.
/// - [`Fault::BundleTooLarge`]: the compact text has more than 1,048,576 bytes, or the value nests deeper than 120.
/// - [`Fault::NoRoom`]: memory ran out. This may take the place of any answer.
///
/// Where the canonical URIs are identifiers, the bundle stands alone: put under whatever base, it has no fault, its canonical
/// URI is the one that was linked, its resources are those of the documents, and it says of each instance what they say.
pub fn bundle(alloc: Global, linked: &Linked) -> Result<Doc, Fault>
    ensures ok { IfOk result
        (λ d. bundle (linked_documents linked.now) (linked_uri linked.now) ≡ Ok (value d)) }
    ensures err { IfErr result
        (λ f. f ≢ Fault.NoRoom → bundle (linked_documents linked.now) (linked_uri linked.now)
        ≡ Err (fault_view f)) }
    ensures alone { IfOk result (λ d. AnswersAlone linked.now (value d)) }
{
    let uri = asked(linked);
    let root = match value_of(linked, uri) {
        Some(value) => Constituent { uri, value },
        None => return Err(Fault::NotFound),
    };
    let others = others_among(alloc, linked)?;
    match clash(root.value, &others) {
        Some(other) => Err(Fault::BundleClash(other.uri.to_owned(alloc)?)),
        None => within_limits(alloc, compound(alloc, &root, &others)?),
    }
}

// The linked documents but for the one that was asked for, by their canonical URIs.
fn others_among<'a>(alloc: Global, linked: &'a Linked) -> Result<Vec<Constituent<'a>>, Fault>
    ensures ok { IfOk result
        (λ v. map constituent_view v.items
        ≡ map bare_document (others_of (linked_uri linked.now) (linked_documents linked.now))) }
    ensures err { IfErr result (λ f. f ≡ Fault.NoRoom) }
{
    let mut others = Vec::with_capacity(alloc, documents(linked).len())?;
    for document in documents(linked) {
        let uri = canonical(document);
        if uri != asked(linked) {
            let value = document.document();
            others.push(Constituent { uri, value })?;
        }
    }
    Ok(others)
}

// The first of these documents whose URI is the name of a member of the root's `$defs`.
fn clash<'a>(root: &Doc, others: &'a [Constituent<'a>]) -> Option<&'a Constituent<'a>>
    ensures { option_map (λ d. constituent_view d.now) result
        ≡ find (λ d. is_some (entry d.canonical (defs_of (value root.now))))
        (map constituent_view others.now) }
{
    others.iter().find(|other| has_def(root, other.uri))
}

fn has_def(root: &Doc, name: &str) -> bool
    ensures { result ≡ is_some (entry name.now (defs_of (value root.now))) }
{
    match root.get("$defs") {
        Some(defs) => defs.get(name).is_some(),
        None => false,
    }
}
