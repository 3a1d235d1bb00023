//! A tenant's registry alone, over a library of its own.

use crate::talks::{VALID, told};
use crate::texts::expect_like;
use evaluator::evaluate;
use json_doc::{Doc, Scratch, Whole};
use linker::{ListSource, link};
use shared_cache::Cache;
use std::alloc::Global;
use std::process::Abort;
use std::rc::Rc;
use tenant_documents::{Fault, Registry, library_of};

// What the resource with this URI says of the number 5.
fn said(alloc: Global, registry: &Registry, cache: &mut Cache, uri: &str) -> Result<String, Fault> {
    let linked = link(alloc, &mut registry.source(cache), uri)?;
    let instance = Doc::Int(Whole::of(5));
    Ok(evaluate(alloc, &linked, &instance)?.into_text())
}

// What is replied to `put URI BODY`, `batch BODY` and `delete URI`, and said of the number 5 for `say URI`; for `len`, how
// many documents the cache keeps.
fn answered(
    alloc: Global,
    registry: &mut Registry,
    cache: &mut Cache,
    text: &str,
) -> Result<String, Fault> {
    let (kind, rest) = text.split_once(' ').unwrap_or((text, ""));
    let (uri, body) = rest.split_once(' ').unwrap_or((rest, ""));
    let mut scratch = Scratch::new(alloc);
    let reply = match kind {
        "put" => registry.put(alloc, &mut scratch, cache, uri, body.as_bytes()),
        "batch" => registry.put_all(alloc, &mut scratch, cache, rest.as_bytes()),
        "delete" => registry.delete(alloc, uri),
        "say" => return said(alloc, registry, cache, uri),
        _ => return Ok(format!(in alloc; "{}", cache.len())?),
    };
    told(alloc, &reply)
}

fn library(alloc: Global, batch: Option<&str>) -> Result<ListSource, Fault> {
    match batch {
        Some(batch) => library_of(alloc, batch.as_bytes()),
        None => Ok(ListSource::new(alloc)),
    }
}

const LIBRARY: &str = r#"{"put":[{"schema":{"type":"integer"},"uri":"https://ex.org/lib"}]}"#;

// Why a registry answers so, what it is asked, and what it answers.
type Line = (&'static str, &'static str, &'static str);

const OVER_A_LIBRARY: &[Line] = &[
    (
        "a document may refer to the library's",
        r#"put https://ex.org/s {"$ref":"lib"}"#,
        "stored https://ex.org/s",
    ),
    (
        "a batch's document may refer to one that is stored",
        r#"batch {"put":[{"schema":{"$ref":"s"},"uri":"https://ex.org/t"}]}"#,
        "stored https://ex.org/t",
    ),
    (
        "5 is an integer, which the library's document asks for by way of `s`",
        "say https://ex.org/t",
        VALID,
    ),
    (
        "a document may go that another one refers to",
        "delete https://ex.org/s",
        "deleted https://ex.org/s",
    ),
    (
        "the reference to the deleted document has no target (PROFILE.md, 15)",
        "say https://ex.org/t",
        "15 Unresolved https://ex.org/s",
    ),
];

const CACHE_OF_TWO: &[Line] = &[
    ("a new cache keeps no document", "len", "0"),
    (
        "a first document is stored",
        "put https://ex.org/a {}",
        "stored https://ex.org/a",
    ),
    ("the first document is kept compiled", "len", "1"),
    (
        "a second document is stored",
        "put https://ex.org/b {}",
        "stored https://ex.org/b",
    ),
    ("both documents are kept compiled", "len", "2"),
    (
        "a registry may have more documents than the cache keeps",
        "put https://ex.org/c {}",
        "stored https://ex.org/c",
    ),
    (
        "a cache of two keeps two documents at most (LIMITS.md)",
        "len",
        "2",
    ),
];

const PUSHED_OUT: &[Line] = &[
    (
        "a first document is stored",
        r#"put https://ex.org/a {"type":"integer"}"#,
        "stored https://ex.org/a",
    ),
    (
        "a second document is stored, and pushes the first one out of the cache",
        r#"put https://ex.org/b {"type":"string"}"#,
        "stored https://ex.org/b",
    ),
    (
        "5 is an integer, which the first document asks for, compiled anew",
        "say https://ex.org/a",
        VALID,
    ),
    (
        "5 is no string, which the second document asks for, compiled anew",
        "say https://ex.org/b",
        r#"{"errors":[{"absoluteKeywordLocation":"https://ex.org/b#/type","error":"type is not met","instanceLocation":"","keywordLocation":"/type"}],"valid":false}"#,
    ),
    (
        "the first document, pushed out once more, says the same",
        "say https://ex.org/a",
        VALID,
    ),
    ("a cache of one keeps one document", "len", "1"),
];

const EMPTY_LIBRARY: &[Line] = &[(
    "no document has the URI (PROFILE.md, 14)",
    "say https://ex.org/lib",
    "14 NotFound",
)];

/// A library, a cache's capacity, the most documents of the registry, and what it is asked and answers.
struct Alone {
    why: &'static str,
    library: Option<&'static str>,
    capacity: usize,
    documents: u32,
    lines: &'static [Line],
}

const REGISTRIES: &[Alone] = &[
    Alone {
        why: "a document refers into the library, and to no document that is gone",
        library: Some(LIBRARY),
        capacity: 1,
        documents: 2,
        lines: OVER_A_LIBRARY,
    },
    Alone {
        why: "a cache of two documents keeps two at most (LIMITS.md)",
        library: None,
        capacity: 2,
        documents: 3,
        lines: CACHE_OF_TWO,
    },
    Alone {
        why: "what was pushed out of the cache is compiled anew from the text that is kept",
        library: None,
        capacity: 1,
        documents: 2,
        lines: PUSHED_OUT,
    },
    Alone {
        why: "without a library its documents aren't there",
        library: None,
        capacity: 1,
        documents: 2,
        lines: EMPTY_LIBRARY,
    },
];

fn expect_line(
    rt: &impl Abort,
    alloc: Global,
    registry: &mut Registry,
    cache: &mut Cache,
    line: &Line,
) {
    let (why, text, wanted) = *line;
    expect_like(
        rt,
        alloc,
        answered(alloc, registry, cache, text),
        wanted,
        why,
    );
    registry.kept();
}

fn expect_lines(
    rt: &impl Abort,
    alloc: Global,
    registry: &mut Registry,
    cache: &mut Cache,
    lines: &[Line],
) {
    for line in lines {
        expect_line(rt, alloc, registry, cache, line);
    }
}

fn new_registry(alloc: Global, batch: Option<&str>, documents: u32) -> Result<Registry, Fault> {
    let library = Rc::new(alloc, library(alloc, batch)?)?;
    Ok(Registry::new(library, documents, 100, alloc))
}

fn expect_registry(rt: &impl Abort, alloc: Global, row: &Alone) {
    match (
        Cache::new(alloc, row.capacity),
        new_registry(alloc, row.library, row.documents),
    ) {
        (Ok(mut cache), Ok(mut registry)) => {
            expect_lines(rt, alloc, &mut registry, &mut cache, row.lines);
        }
        _ => panic!(rt; "{}: refused", row.why),
    }
}

#[test]
fn registries_alone(rt: HostRuntime) {
    for row in REGISTRIES {
        expect_registry(&rt, rt.alloc(), row);
    }
}
