//! A hub over a file keeps what it answered.

ghost use Rattle.std.specs.Prelude.{◌≡◌, IfOk};
ghost use Rattle.stored_rows.specs.Restoring.{emptied};
ghost use Rattle.tenant_hub.specs.Hubs.{hub_view};

use document_file::{Checkpoint, DocumentFile, open};
use sqlite_disk::{Files, Fuse, Memory};
use sqlite_trees::store::Reopen;
use std::alloc::Global;
use std::borrow::CowStr;
use std::process::Abort;
use stored_hub::{DocumentStore, Fault, Handler, Hub, StoredHub, new_servers_have_no_documents};
use tenant_hub::{Reply, Request};
use tenants_file::Tenant;

const SETTLED: &str = "https://ex.org/settled";

const OPEN: &str = "https://ex.org/open";

const TEXT: &str = r#"{"const":1}"#;

/// What an opening after a crash finds of two documents: the first was settled, the second was put behind it.
#[derive(Clone, Copy, PartialEq)]
enum Found {
    /// The first alone, whose settle was answered.
    Kept,
    /// The first was not answered.
    Unanswered,
    /// Something else.
    Wrong,
}

/// One tenant, without documents.
fn empty_hub(alloc: Global) -> Result<Hub, Fault>
    ensures { IfOk result (λ hub. emptied (hub_view hub) ≡ hub_view hub) }
{
    let mut tenants = Vec::new(alloc);
    tenants.push(Tenant {
        key: String::from_str(alloc, "k1")?,
        documents: 10,
        bytes: 1000,
    })?;
    new_servers_have_no_documents();
    match Hub::new(alloc, tenants, 4, None) {
        Ok(hub) => Ok(hub),
        Err(fault) => Err(fault),
    }
}

fn opened<D: DocumentStore + Drop>(alloc: Global, store: D) -> Option<StoredHub<D>> {
    match stored_hub::open(alloc, empty_hub(alloc).ok()?, store) {
        Ok(hub) => Some(hub),
        Err(_) => None,
    }
}

fn put<D: DocumentStore>(alloc: Global, hub: &mut StoredHub<D>, uri: &str) -> Option<()> {
    let request = Request::Put(CowStr::Borrowed(uri), TEXT.as_bytes());
    match hub.apply(alloc, "k1", &request) {
        Reply::Stored(_, false) => Some(()),
        _ => None,
    }
}

fn has<D: DocumentStore>(hub: &StoredHub<D>, uri: &str) -> bool {
    hub.hub().stored("k1", uri) == Some((uri, TEXT))
}

/// Whether the settle of the first document was answered, and the store after a crash.
fn crashed<S: Reopen + Checkpoint + Drop>(
    alloc: Global,
    store: DocumentFile<S>,
) -> Option<(bool, DocumentFile<S>)> {
    let mut hub = opened(alloc, store)?;
    put(alloc, &mut hub, SETTLED)?;
    let is_answered = hub.settle().is_ok();
    put(alloc, &mut hub, OPEN)?;
    let store = hub.into_store().reopened().ok()?;
    Some((is_answered, store))
}

fn found_after<S: Reopen + Checkpoint + Drop>(
    alloc: Global,
    store: DocumentFile<S>,
) -> Option<Found> {
    let (is_answered, store) = crashed(alloc, store)?;
    let hub = opened(alloc, store)?;
    Some(match (is_answered, has(&hub, SETTLED), has(&hub, OPEN)) {
        (true, true, false) => Found::Kept,
        (false, _, false) => Found::Unanswered,
        _ => Found::Wrong,
    })
}

/// What is found in files that fail from a call on: the log after so many calls, and the file after so many.
fn found_in(alloc: Global, log: u64, db: u64) -> Option<Found> {
    let files = Files {
        log: Fuse::new(Memory::new(alloc), log),
        db: Fuse::new(Memory::new(alloc), db),
    };
    match open(alloc, files, 7) {
        Ok(store) => found_after(alloc, store),
        Err(_) => None,
    }
}

/// Whether something was answered and kept.
fn expect_kept(rt: &impl Abort, alloc: Global, calls: u64) -> (bool, bool) {
    let found = found_in(alloc, calls, u64::MAX);
    assert!(rt; found != Some(Found::Wrong), "{calls}");
    (found == Some(Found::Kept), found == Some(Found::Unanswered))
}

#[test]
fn answered_changes_outlast_a_crash(rt: HostRuntime) {
    let alloc = rt.alloc();
    assert!(rt; found_in(alloc, u64::MAX, u64::MAX) == Some(Found::Kept));
    let (mut kept, mut unanswered) = (false, false);
    for calls in 0..40u64 {
        let found = expect_kept(&rt, alloc, calls);
        kept = kept || found.0;
        unanswered = unanswered || found.1;
    }
    assert!(rt; kept && unanswered);
}
