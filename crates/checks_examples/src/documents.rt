//! Documents on texts, and what they say of instances.

use crate::texts::expect_told;
use evaluator::{Fault, evaluate};
use json_doc::read;
use linker::{ListSource, link};
use schema_scan::{Compiled, compile, scan};
use std::alloc::Global;
use std::process::Abort;
use std::rc::Rc;
use uri_ref::split;

/// Seven documents that each embed a resource, in which a reference names a schema of its own, and one that refers to these.
pub const SEVEN: &[(&str, &str)] = &[
    (
        "https://ex.org/m",
        r##"{"prefixItems":[{"$ref":"e0"},{"$ref":"e1"},{"$ref":"e2"},{"$ref":"e3"},{"$ref":"e4"},{"$ref":"e5"},{"$ref":"e6"}]}"##,
    ),
    (
        "https://ex.org/d0",
        r##"{"$defs":{"e":{"$id":"e0","$ref":"#/$defs/n","$defs":{"n":{"const":0}}}}}"##,
    ),
    (
        "https://ex.org/d1",
        r##"{"$defs":{"e":{"$id":"e1","$ref":"#/$defs/n","$defs":{"n":{"const":1}}}}}"##,
    ),
    (
        "https://ex.org/d2",
        r##"{"$defs":{"e":{"$id":"e2","$ref":"#/$defs/n","$defs":{"n":{"const":2}}}}}"##,
    ),
    (
        "https://ex.org/d3",
        r##"{"$defs":{"e":{"$id":"e3","$ref":"#/$defs/n","$defs":{"n":{"const":3}}}}}"##,
    ),
    (
        "https://ex.org/d4",
        r##"{"$defs":{"e":{"$id":"e4","$ref":"#/$defs/n","$defs":{"n":{"const":4}}}}}"##,
    ),
    (
        "https://ex.org/d5",
        r##"{"$defs":{"e":{"$id":"e5","$ref":"#/$defs/n","$defs":{"n":{"const":5}}}}}"##,
    ),
    (
        "https://ex.org/d6",
        r##"{"$defs":{"e":{"$id":"e6","$ref":"#/$defs/n","$defs":{"n":{"const":6}}}}}"##,
    ),
];

/// The document under this base, compiled.
pub fn compiled(alloc: Global, base: &str, document: &str) -> Result<Rc<Compiled>, Fault> {
    let document = read(alloc, document.as_bytes())?;
    let document = compile(alloc, scan(alloc, &split(base), &document)?)?;
    Ok(Rc::new(alloc, document)?)
}

/// A list of documents, each with the URI that it stands under.
pub fn listed(alloc: Global, documents: &[(&str, &str)]) -> Result<ListSource, Fault> {
    let mut source = ListSource::new(alloc);
    for row in documents {
        source.add(compiled(alloc, row.0, row.1)?)?;
    }
    Ok(source)
}

/// What the resource with this URI says of the instance.
pub fn answer(
    alloc: Global,
    documents: &[(&str, &str)],
    uri: &str,
    instance: &str,
) -> Result<String, Fault> {
    let mut source = listed(alloc, documents)?;
    let linked = link(alloc, &mut source, uri)?;
    let instance = read(alloc, instance.as_bytes())?;
    Ok(evaluate(alloc, &linked, &instance)?.into_text())
}

/// Documents, the URI that is asked for, an instance, and the answer.
pub struct Evaluation {
    pub why: &'static str,
    pub documents: &'static [(&'static str, &'static str)],
    pub uri: &'static str,
    pub instance: &'static str,
    pub wanted: &'static str,
}

/// Expects this answer.
pub fn expect_answer(rt: &impl Abort, alloc: Global, row: &Evaluation) {
    let found = answer(alloc, row.documents, row.uri, row.instance);
    expect_told(rt, alloc, found, row.wanted, row.why);
}
