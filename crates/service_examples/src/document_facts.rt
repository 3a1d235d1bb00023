//! What a registry knows of a document: its names, its length and its resources; and documents that it refuses.

use crate::texts::expect_like;
use json_doc::{Doc, read, write};
use shared_cache::Cache;
use std::alloc::Global;
use std::process::Abort;
use stored_documents::{Documents, Fault, Stored};
use uri_ref::split;

// The canonical URI, the length, the key's text, the written document that the cache gives for the key, how many resources
// there are, and which of three URIs they have.
fn told(alloc: Global, cache: &mut Cache, text: &str) -> Result<String, Fault> {
    let document: Doc = read(alloc, text.as_bytes())?;
    let kept = Stored::of(alloc, cache, &split("https://ex.org/s"), &document)?;
    let (canonical, length) = (kept.canonical(), kept.length());
    let compiled = cache.compiled_of_key(alloc, kept.key())?;
    let (key, document) = (kept.key().text(), write(alloc, compiled.document())?);
    let uris = kept.resource_uris().len();
    let mut line = format!(in alloc; "{canonical} {length} {key} {document} {uris}")?;
    for uri in &["https://ex.org/t", "https://ex.org/e", "https://ex.org/s"] {
        line.push_str(if kept.holds(uri) { " held" } else { " not" })?;
    }
    Ok(line)
}

// Why a document under `https://ex.org/s` is known so, the document, what is known of it or the fault, and how many
// documents the cache keeps then.
const DOCUMENTS: &[(&str, &str, &str, usize)] = &[
    (
        "a document is an object (PROFILE.md, 6)",
        "[]",
        "6 NotObject",
        0,
    ),
    (
        "an `$id` has no fragment but an empty one (Core, 8.2.1)",
        r#"{"$id":"a#b"}"#,
        "9 BadId",
        0,
    ),
    (
        "a pattern is read by the grammar of `regex` (PROFILE.md, 5)",
        r#"{"pattern":"("}"#,
        "5 BadPattern",
        0,
    ),
    (
        "its `$id` and those within it are its URIs, and its base is none",
        r#"{ "$id": "t", "$defs": { "e": { "$id": "e" } } }"#,
        r#"https://ex.org/t 37 {"$defs":{"e":{"$id":"e"}},"$id":"t"} {"$defs":{"e":{"$id":"e"}},"$id":"t"} 2 held held not"#,
        1,
    ),
];

fn expect_known(
    rt: &impl Abort,
    alloc: Global,
    cache: &mut Cache,
    row: &(&str, &str, &str, usize),
) {
    let (why, document, wanted, kept) = *row;
    expect_like(rt, alloc, told(alloc, cache, document), wanted, why);
    assert_eq!(rt; cache.len(), kept, "{why}");
}

fn expect_all_known(rt: &impl Abort, alloc: Global, mut cache: Cache) {
    for row in DOCUMENTS {
        expect_known(rt, alloc, &mut cache, row);
    }
}

#[test]
fn what_is_known_of_a_document(rt: HostRuntime) {
    match Cache::new(rt.alloc(), 1) {
        Ok(cache) => expect_all_known(&rt, rt.alloc(), cache),
        Err(fault) => panic!(rt; "{fault}"),
    }
}

#[test]
fn no_documents(rt: HostRuntime) {
    let mut documents = Documents::new(rt.alloc());
    assert_eq!(rt; documents.len(), 0);
    assert_eq!(rt; documents.bytes(), 0);
    assert!(rt; documents.find("https://ex.org/s").is_none());
    assert!(rt; documents.holder("https://ex.org/s").is_none());
    assert!(rt; !documents.remove("https://ex.org/s"));
}
