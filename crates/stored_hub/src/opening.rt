//! A store is opened.

ghost use Rattle.std.specs.Prelude.{◌≡◌, ◌↔◌, IfErr, IfOk, IsTrue, OnOk, option_map};
ghost use Rattle.stored_rows.specs.Restoring.{HaveDistinctDigests, emptied};
ghost use Rattle.stored_rows.specs.RowViews.{row_view};
ghost use Rattle.stored_rows.specs.Rows.{row_cmp};
ghost use Rattle.stored_hub.specs.DigestedKeys.{digests_in};
ghost use Rattle.stored_hub.specs.Opening.{IsBehind, IsRestoredFrom};
ghost use Rattle.stored_hub.specs.RefusedOpenings.{IsRefusedOpening, digests_of};
ghost use Rattle.stored_hub.specs.Storing.{OnlyReads};
ghost use Rattle.tenant_hub.specs.Hubs.{hub_view};

use crate::digested_key::DigestedKey;
use crate::digested_keys::{digested_keys, have_repeat};
use crate::hub::StoredHub;
use crate::refusals::{OpenRefusal, RowRefusal};
use crate::restoring::restore_row;
use std::alloc::Global;
use std::cmp::Ordering;
use stored_rows::{DocumentRow, DocumentStore, StoreFault};
use tenant_hub::Hub;

/// The hub with the documents that the store has, and the store behind it. The hub has none before.
///
/// Each row is put back, one after the other, into the registry of the tenant whose key has the row's digest. Nothing is
/// left out: where a row can't be put back just as it stands there, the opening is refused for it. `NoRoom` is want of memory.
///
/// The store is only read. A refused opening gives it back.
pub fn open<D: DocumentStore + Drop>(
    alloc: Global,
    mut hub: Hub,
    mut store: D,
) -> Result<StoredHub<D>, (OpenRefusal, D)>
    requires empty { emptied (hub_view hub) ≡ hub_view hub }
    ensures ok { IfOk result (λ s. IsRestoredFrom D.holds (hub_view hub) s.store (hub_view s.hub)) }
    ensures same { IfOk result (λ s. OnlyReads D.holds D.recovers store s.store) }
    ensures err { IfErr result (λ left. IsRefusedOpening (hub_view hub) left.0) }
    ensures left { IfErr result (λ left. OnlyReads D.holds D.recovers store left.1) }
{
    let keys = match digested_keys(alloc, &hub) {
        Ok(keys) => keys,
        Err(_) => return Err((OpenRefusal::NoRoom, store)),
    };
    if have_repeat(&keys) {
        return Err((OpenRefusal::SameDigest, store));
    }
    match restore_all(alloc, &mut hub, &keys, &mut store) {
        Ok(()) => Ok(StoredHub {
            hub,
            store,
            keys,
            is_dirty: true,
            changes: 0,
            behind: None,
        }),
        Err(refusal) => Err((refusal, store)),
    }
}

// Puts all rows of the store back.
fn restore_all<D: DocumentStore>(
    alloc: Global,
    hub: &mut Hub,
    keys: &[DigestedKey],
    store: &mut D,
) -> Result<(), OpenRefusal>
    requires empty { emptied (hub_view hub.old) ≡ hub_view hub.old }
    requires distinct { HaveDistinctDigests (hub_view hub.old) }
    requires keys { digests_in keys.now ≡ digests_of (hub_view hub.old) }
    ensures ok { OnOk result (IsRestoredFrom D.holds (hub_view hub.old) store.new
        (hub_view hub.new)) }
    ensures err { IfErr result (IsRefusedOpening (hub_view hub.old)) }
    ensures same { OnlyReads D.holds D.recovers store.old store.new }
{
    if let Err(fault) = store.begin() {
        return Err(OpenRefusal::Store(fault));
    }
    let mut last: Option<DocumentRow> = None;
    'rows: for _ in 0..u64::MAX {
        let row = match store.next(alloc) {
            Ok(Some(row)) => row,
            Ok(None) => return Ok(()),
            Err(fault) => return Err(OpenRefusal::Store(fault)),
        };
        if !is_behind(&last, &row) {
            return Err(OpenRefusal::Row(row.uri, RowRefusal::OutOfOrder));
        }
        match restore_row(alloc, hub, keys, &row) {
            Ok(()) => last = Some(row),
            Err(why) => return Err(OpenRefusal::Row(row.uri, why)),
        }
    }
    Err(OpenRefusal::Store(StoreFault::Full))
}

// Whether the row stands behind the last one, where there is one.
fn is_behind(last: &Option<DocumentRow>, row: &DocumentRow) -> bool
    ensures { IsTrue result ↔ IsBehind (option_map row_view last.now) (row_view row.now) }
{
    match last {
        Some(last) => order(last, row) == Ordering::Less,
        None => true,
    }
}

fn order(first: &DocumentRow, second: &DocumentRow) -> Ordering
    ensures { result ≡ row_cmp (row_view first.now) (row_view second.now) }
{
    match first.tenant.as_str().cmp(second.tenant.as_str()) {
        Ordering::Equal => first.uri.as_str().cmp(second.uri.as_str()),
        order => order,
    }
}
