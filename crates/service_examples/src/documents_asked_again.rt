//! Documents that are asked for again and are compiled once, those that are pushed out and compiled anew, and how many may be
//! kept.

use crate::texts::{expect_like, filled};
use json_doc::read;
use schema_scan::{Compiled, canonical};
use shared_cache::{Cache, Fault};
use std::alloc::Global;
use std::process::Abort;
use std::rc::Rc;
use uri_ref::split;

const A: &str = "https://ex.org/a";

const B: &str = "https://ex.org/b";

fn compiled(
    alloc: Global,
    cache: &mut Cache,
    base: &str,
    document: &str,
) -> Result<Rc<Compiled>, Fault> {
    let document = read(alloc, filled(alloc, document)?.as_bytes())?;
    cache.compiled(alloc, &split(base), &document)
}

// The number, from 1, of this document among those that were answered; it is put behind them where it isn't one.
fn number(answers: &mut Vec<Rc<Compiled>>, document: Rc<Compiled>) -> Result<usize, Fault> {
    for (index, answer) in answers.iter().enumerate() {
        if Rc::ptr_eq(answer, &document) {
            return Ok(index.saturating_add(1));
        }
    }
    answers.push(document)?;
    Ok(answers.len())
}

// The number of the document and how many the cache keeps then, or the fault. Without a base, the cache is cleared.
fn asked(
    alloc: Global,
    cache: &mut Cache,
    answers: &mut Vec<Rc<Compiled>>,
    line: &Line,
) -> Result<String, Fault> {
    if line.base.is_empty() {
        cache.clear(alloc);
        return Ok(format!(in alloc; "{} kept", cache.len())?);
    }
    let document = compiled(alloc, cache, line.base, line.document)?;
    let number = number(answers, document)?;
    Ok(format!(in alloc; "{number}, {} kept", cache.len())?)
}

// The canonical URIs, each after a space.
fn canonicals(alloc: Global, answers: &[Rc<Compiled>]) -> Result<String, Fault> {
    let mut line = String::new(alloc);
    for answer in answers {
        line.push(' ')?;
        line.push_str(canonical(answer))?;
    }
    Ok(line)
}

// A base, a document, and the number of what is answered and how many are kept then, or the fault.
struct Line {
    why: &'static str,
    base: &'static str,
    document: &'static str,
    wanted: &'static str,
}

const PUSHED_OUT: &[Line] = &[
    Line {
        why: "a new document is compiled",
        base: A,
        document: "{}",
        wanted: "1, 1 kept",
    },
    Line {
        why: "the same text under another base is another document",
        base: B,
        document: "{}",
        wanted: "2, 1 kept",
    },
];

const CLEARED: &[Line] = &[
    Line {
        why: "a new document is compiled",
        base: A,
        document: "{}",
        wanted: "1, 1 kept",
    },
    Line {
        why: "a cache of two has room for a second document",
        base: B,
        document: "{}",
        wanted: "2, 2 kept",
    },
    Line {
        why: "nothing is kept once the cache is cleared",
        base: "",
        document: "",
        wanted: "0 kept",
    },
    Line {
        why: "what was cleared is compiled anew",
        base: A,
        document: "{}",
        wanted: "3, 1 kept",
    },
];

const REFUSED: &[Line] = &[
    Line {
        why: "a new document is compiled",
        base: B,
        document: "{}",
        wanted: "1, 1 kept",
    },
    Line {
        why: "look-around is no part of the grammar (PROFILE.md, 5)",
        base: B,
        document: r#"{"pattern":"(?=a)"}"#,
        wanted: "5 BadPattern",
    },
    Line {
        why: "a document is an object (PROFILE.md, 6)",
        base: B,
        document: "[]",
        wanted: "6 NotObject",
    },
    Line {
        why: "the document before the refused ones is still kept",
        base: B,
        document: "{}",
        wanted: "1, 1 kept",
    },
];

const LONGEST_AGO: &[Line] = &[
    Line {
        why: "a new document is compiled",
        base: A,
        document: r#"{"type":"string"}"#,
        wanted: "1, 1 kept",
    },
    Line {
        why: "another text under the same base is another document",
        base: A,
        document: r#"{"type":"integer"}"#,
        wanted: "2, 2 kept",
    },
    Line {
        why: "blanks make no other document",
        base: A,
        document: r#"{ "type" : "string" }"#,
        wanted: "1, 2 kept",
    },
    Line {
        why: "the integer's was asked for longest ago, and goes (LIMITS.md)",
        base: B,
        document: r#"{"type":"string"}"#,
        wanted: "3, 2 kept",
    },
    Line {
        why: "the string's was asked for later, and is still kept",
        base: A,
        document: r#"{"type":"string"}"#,
        wanted: "1, 2 kept",
    },
    Line {
        why: "what was pushed out is compiled anew",
        base: A,
        document: r#"{"type":"integer"}"#,
        wanted: "4, 2 kept",
    },
];

const TOO_DEEP: &[Line] = &[
    Line {
        why: "119 arrays and their document nest 120 deep, which is the most (LIMITS.md)",
        base: A,
        document: r#"{"const":«119*[»«119*]»}"#,
        wanted: "1, 1 kept",
    },
    Line {
        why: "120 arrays and their document nest 121 deep (LIMITS.md)",
        base: A,
        document: r#"{"const":«120*[»«120*]»}"#,
        wanted: "7 TooNested",
    },
    Line {
        why: "a text that nests 127 deep is JSON, and too deep for a document (LIMITS.md)",
        base: A,
        document: r#"{"const":«126*[»«126*]»}"#,
        wanted: "7 TooNested",
    },
    Line {
        why: "the document before the refused ones is still kept",
        base: A,
        document: r#"{"const":«119*[»«119*]»}"#,
        wanted: "1, 1 kept",
    },
];

// Why documents are answered so, a capacity, what is asked and answered, and the canonical URIs of all documents that were
// answered, which outlive their places in the cache.
const CACHES: &[(&str, usize, &[Line], &str)] = &[
    (
        "a cache of one keeps the document that was asked for last",
        1,
        PUSHED_OUT,
        " https://ex.org/a https://ex.org/b",
    ),
    (
        "what was cleared is compiled anew",
        2,
        CLEARED,
        " https://ex.org/a https://ex.org/b https://ex.org/a",
    ),
    (
        "a document that is refused pushes out none",
        1,
        REFUSED,
        " https://ex.org/b",
    ),
    (
        "the document that was asked for longest ago goes (LIMITS.md)",
        2,
        LONGEST_AGO,
        " https://ex.org/a https://ex.org/a https://ex.org/b https://ex.org/a",
    ),
    (
        "a document nests 120 deep at most (LIMITS.md)",
        4,
        TOO_DEEP,
        " https://ex.org/a",
    ),
];

fn expect_line(
    rt: &impl Abort,
    alloc: Global,
    cache: &mut Cache,
    answers: &mut Vec<Rc<Compiled>>,
    line: &Line,
) {
    let found = asked(alloc, cache, answers, line);
    expect_like(rt, alloc, found, line.wanted, line.why);
}

fn expect_cache(
    rt: &impl Abort,
    alloc: Global,
    mut cache: Cache,
    row: &(&str, usize, &[Line], &str),
) {
    let (why, _, lines, uris) = *row;
    let mut answers = Vec::new(alloc);
    for line in lines {
        expect_line(rt, alloc, &mut cache, &mut answers, line);
    }
    expect_like(rt, alloc, canonicals(alloc, &answers), uris, why);
}

fn expect_new_cache(rt: &impl Abort, alloc: Global, row: &(&str, usize, &[Line], &str)) {
    match Cache::new(alloc, row.1) {
        Ok(cache) => expect_cache(rt, alloc, cache, row),
        Err(fault) => panic!(rt; "{}: {fault}", row.0),
    }
}

#[test]
fn documents_are_kept_and_pushed_out(rt: HostRuntime) {
    for row in CACHES {
        expect_new_cache(&rt, rt.alloc(), row);
    }
}

// Why a cache may have a capacity or not, the capacity, and how many documents a new one keeps, or the fault.
const CAPACITIES: &[(&str, usize, &str)] = &[
    ("one document is the least (LIMITS.md)", 1, "0 kept"),
    ("256 documents are usual (LIMITS.md)", 256, "0 kept"),
    ("4,096 documents are the most (LIMITS.md)", 4096, "0 kept"),
    (
        "a cache keeps one document at least (LIMITS.md)",
        0,
        "21 BadCapacity",
    ),
    (
        "a cache keeps 4,096 documents at most (LIMITS.md)",
        4097,
        "21 BadCapacity",
    ),
    (
        "a cache keeps no more than 4,096, whatever is asked (LIMITS.md)",
        usize::MAX,
        "21 BadCapacity",
    ),
];

fn opened(alloc: Global, capacity: usize) -> Result<String, Fault> {
    let cache = Cache::new(alloc, capacity)?;
    Ok(format!(in alloc; "{} kept", cache.len())?)
}

fn expect_capacity(rt: &impl Abort, alloc: Global, row: &(&str, usize, &str)) {
    let (why, capacity, wanted) = *row;
    expect_like(rt, alloc, opened(alloc, capacity), wanted, why);
}

#[test]
fn caches_have_capacities(rt: HostRuntime) {
    for row in CAPACITIES {
        expect_capacity(&rt, rt.alloc(), row);
    }
}
