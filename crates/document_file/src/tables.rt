//! The table of documents in a store of trees.

ghost use Rattle.std.specs.Prelude.{◌≡◌, ◌↔◌, false, IsTrue, OnOk};
ghost use Rattle.sqlite_value.specs.Keys.{plain};
ghost use Rattle.sqlite_trees.specs.Tree.{insert_entry};
ghost use Rattle.sqlite_trees.specs.View.{IsClean, IsQuiet};
ghost use Rattle.stored_rows.specs.RowViews.{row_ref_view};
ghost use Rattle.document_file.specs.Entries.{HaveOneAt, entry_of, key_of, with_entry, without_key};
ghost use Rattle.document_file.specs.Tables.{HasTable};

use crate::entries::{key_entry, row_entry};
use sqlite_trees::error::StoreError;
use sqlite_trees::store::{Direction, Shape, Store};
use sqlite_value::keys::Order;
use sqlite_value::row::Row;
use std::alloc::Global;
use stored_rows::RowRef;

/// The table's number.
pub(crate) const TABLE: u32 = 0;

/// The number of the cursor over it.
pub(crate) const CURSOR: u16 = 0;

/// Whether the store has the table.
pub(crate) fn has_table<S: Store>(store: &S) -> bool
    ensures { IsTrue result → HasTable (S.view store.now) }
{
    match store.shape(TABLE) {
        Shape::Index(order) => order.digits == 0,
        _ => false,
    }
}

/// Drops the entry with this key, where there is one.
fn clear<S: Store>(store: &mut S, alloc: Global, key: &Row) -> Result<(), StoreError>
    requires { HasTable (S.view store.old) }
    ensures ok { OnOk result (IsClean (S.view store.new)
        → HaveOneAt key.now ((S.view store.old).trees 0)
        → (S.view store.new).trees 0 ≡ without_key key.now ((S.view store.old).trees 0)) }
    ensures sound { OnOk result (IsClean (S.view store.new) → (S.view store.old).is_broken ≡ false) }
    ensures table { HasTable (S.view store.new) }
    ensures quiet { IsQuiet S.view S.faults S.recovers S.is_shielded store.old store.new }
{
    let mut found = Row::new(alloc);
    store.seek(CURSOR, TABLE, key, Direction::Forward)?;
    if !store.next(CURSOR, &mut found)? {
        return Ok(());
    }
    if !found.cmp_prefix(Order::PLAIN, key).is_eq() {
        return Ok(());
    }
    store.remove(TABLE, &found)
}

/// Puts the document, where no other has its tenant and URI.
pub(crate) fn insert_row<S: Store>(
    store: &mut S,
    alloc: Global,
    row: RowRef<'_>,
) -> Result<(), StoreError>
    ensures ok { OnOk result (IsClean (S.view store.new)
        → (S.view store.new).trees 0
        ≡ insert_entry plain (entry_of (row_ref_view row.entry)) ((S.view store.old).trees 0)) }
    ensures sound { OnOk result (IsClean (S.view store.new) → (S.view store.old).is_broken ≡ false) }
    ensures quiet { IsQuiet S.view S.faults S.recovers S.is_shielded store.old store.new }
{
    if !has_table(store) {
        return Err(StoreError::Corrupt);
    }
    let entry = row_entry(alloc, row)?;
    store.insert(TABLE, &entry)
}

/// Puts the document in the place of the one with its tenant and URI.
pub(crate) fn put_row<S: Store>(
    store: &mut S,
    alloc: Global,
    row: RowRef<'_>,
) -> Result<(), StoreError>
    ensures ok { OnOk result (IsClean (S.view store.new)
        → HaveOneAt (key_of row.entry.tenant.now row.entry.uri.now) ((S.view store.old).trees 0)
        → (S.view store.new).trees 0
        ≡ with_entry (key_of row.entry.tenant.now row.entry.uri.now)
        (entry_of (row_ref_view row.entry)) ((S.view store.old).trees 0)) }
    ensures sound { OnOk result (IsClean (S.view store.new) → (S.view store.old).is_broken ≡ false) }
    ensures quiet { IsQuiet S.view S.faults S.recovers S.is_shielded store.old store.new }
{
    if !has_table(store) {
        return Err(StoreError::Corrupt);
    }
    let key = key_entry(alloc, row.tenant, row.uri)?;
    let entry = row_entry(alloc, row)?;
    clear(store, alloc, &key)?;
    store.insert(TABLE, &entry)
}

/// Drops the document with this tenant and URI, where there is one.
pub(crate) fn delete_row<S: Store>(
    store: &mut S,
    alloc: Global,
    tenant: &str,
    uri: &str,
) -> Result<(), StoreError>
    ensures ok { OnOk result (IsClean (S.view store.new)
        → HaveOneAt (key_of tenant.now uri.now) ((S.view store.old).trees 0)
        → (S.view store.new).trees 0
        ≡ without_key (key_of tenant.now uri.now) ((S.view store.old).trees 0)) }
    ensures sound { OnOk result (IsClean (S.view store.new) → (S.view store.old).is_broken ≡ false) }
    ensures quiet { IsQuiet S.view S.faults S.recovers S.is_shielded store.old store.new }
{
    if !has_table(store) {
        return Err(StoreError::Corrupt);
    }
    let key = key_entry(alloc, tenant, uri)?;
    clear(store, alloc, &key)
}
