//! Which documents references of linked documents are known to lead to.

use crate::documents::listed;
use crate::texts::expect_holds;
use linker::{Fault, Linked, ReferenceNumber, link};
use std::alloc::Global;
use std::process::Abort;

const FIRST: &str = "https://ex.org/a";

const DOCUMENTS: &[(&str, &str)] = &[
    (
        FIRST,
        r##"{"$defs":{"own":{}},"prefixItems":[{"$ref":"#/$defs/own"},{"$ref":"b"},{"$ref":"b#/$defs/d"},{"$ref":"c#n"},{"$ref":"e"}]}"##,
    ),
    (
        "https://ex.org/b",
        r##"{"$defs":{"d":{},"e":{"$id":"e"}}}"##,
    ),
    ("https://ex.org/c", r##"{"$defs":{"n":{"$anchor":"n"}}}"##),
];

// A reference of the first document: the number of the document that it leads to, among three in byte order of their URIs, and
// of another one; the resource that has the schema; and how many steps below that one's root it stands.
struct Lead {
    why: &'static str,
    reference: &'static str,
    document: usize,
    other: usize,
    resource: &'static str,
    steps: usize,
}

const LEADS: &[Lead] = &[
    Lead {
        why: "a pointer alone stays in its document (Core 8.2.3)",
        reference: "#/$defs/own",
        document: 0,
        other: 1,
        resource: FIRST,
        steps: 2,
    },
    Lead {
        why: "a relative reference leads to the document with that URI",
        reference: "b",
        document: 1,
        other: 0,
        resource: "https://ex.org/b",
        steps: 0,
    },
    Lead {
        why: "and so it does with a pointer",
        reference: "b#/$defs/d",
        document: 1,
        other: 2,
        resource: "https://ex.org/b",
        steps: 2,
    },
    Lead {
        why: "and with an anchor",
        reference: "c#n",
        document: 2,
        other: 1,
        resource: "https://ex.org/c",
        steps: 2,
    },
    Lead {
        why: "an embedded resource is its document's (Core 9.2)",
        reference: "e",
        document: 1,
        other: 0,
        resource: "https://ex.org/e",
        steps: 0,
    },
];

// Whether the document is known to which the reference leads, and the schema is named by it.
fn leads(alloc: Global, linked: &Linked, row: &Lead) -> Result<bool, Fault> {
    let number = linked.reference_number(0, FIRST, row.reference);
    if !linked.is_holder(row.document, row.resource) || linked.is_holder(row.other, row.resource) {
        return Ok(false);
    }
    match linked.named(alloc, number, FIRST, row.reference)? {
        Some(named) => {
            let stands = named.target.resource == row.resource
                && named.target.steps.len() == row.steps;
            Ok(stands && target_document(linked, number) == Some(row.document))
        }
        None => Ok(false),
    }
}

fn target_document(linked: &Linked, number: Option<ReferenceNumber>) -> Option<usize> {
    linked.target_document(number?)
}

fn linked(alloc: Global) -> Result<Linked, Fault> {
    let mut source = listed(alloc, DOCUMENTS)?;
    link(alloc, &mut source, FIRST)
}

fn expect_leads(rt: &impl Abort, alloc: Global, linked: &Linked) {
    for row in LEADS {
        expect_holds(rt, leads(alloc, linked, row), row.why);
    }
}

#[test]
fn references_are_known_to_lead_to_their_documents(rt: HostRuntime) {
    match linked(rt.alloc()) {
        Ok(linked) => expect_leads(&rt, rt.alloc(), &linked),
        Err(fault) => panic!(rt; "{fault}"),
    }
}
