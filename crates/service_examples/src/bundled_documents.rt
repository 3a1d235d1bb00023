//! Documents on texts, their bundles, and what they say of instances.

use crate::texts::filled;
use bundler::{Fault, bundle};
use evaluator::evaluate;
use json_doc::{read, write};
use linker::{ListSource, link};
use schema_scan::{compile, scan};
use std::alloc::Global;
use std::rc::Rc;
use uri_ref::split;

// A list of documents, each with the URI that it stands under.
fn listed(alloc: Global, documents: &[(&str, &str)]) -> Result<ListSource, Fault> {
    let mut source = ListSource::new(alloc);
    for (base, text) in documents {
        let document = read(alloc, filled(alloc, text)?.as_bytes())?;
        let compiled = compile(alloc, scan(alloc, &split(base), &document)?)?;
        source.add(Rc::new(alloc, compiled)?)?;
    }
    Ok(source)
}

/// The text of the bundle of what this URI reaches.
pub fn bundle_text(alloc: Global, documents: &[(&str, &str)], uri: &str) -> Result<String, Fault> {
    let mut source = listed(alloc, documents)?;
    let linked = link(alloc, &mut source, uri)?;
    Ok(write(alloc, &bundle(alloc, &linked)?)?)
}

/// What the resource with this URI says of the instance.
pub fn answer(
    alloc: Global,
    documents: &[(&str, &str)],
    uri: &str,
    instance: &str,
) -> Result<String, Fault> {
    let mut source = listed(alloc, documents)?;
    let linked = link(alloc, &mut source, uri)?;
    let instance = read(alloc, instance.as_bytes())?;
    Ok(evaluate(alloc, &linked, &instance)?.into_text())
}
