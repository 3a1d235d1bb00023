//! What keeps documents beyond the process.

ghost use Rattle.std.specs.Prelude.{◌≡◌, ◌⊎◌, ◌++◌, ◌∷◌, [], List, None, Some, IfOk, OnOk};
ghost use Rattle.stored_rows.specs.Rows.{Row, Ascend, HasNoRow, with_row, without_row};
ghost use Rattle.stored_rows.specs.RowViews.{row_view, row_ref_view};
ghost use Rattle.stored_rows.specs.declared.rows.DocumentRow.{DocumentRow};

use crate::rows::{DocumentRow, RowRef};
use crate::store_faults::StoreFault;
use std::alloc::Global;

/// What keeps documents beyond the process, as rows in byte order of their tenants and URIs.
///
/// What is put and deleted is seen at once, and is kept from the next commit on: an opening after a crash finds the rows of
/// the last commit that was answered, or of one that was going on. After a failed put, insert, delete or commit nothing is
/// promised of the rows that the store has, and all the same of those that an opening finds.
pub trait DocumentStore {
    /// These are its rows now.
    ghost holds: { Self → List Row → Type 0 };

    /// An opening after a crash at this moment may find these.
    ghost recovers: { Self → List Row → Type 0 };

    /// Since the reading was begun, these were read.
    ghost has_read: { Self → List Row → Type 0 };

    /// Begins to read the rows from the first on. They stay as they are.
    fn begin(&mut self) -> Result<(), StoreFault>
        ensures read { OnOk result (has_read self.new []) }
        ensures holds { (rs : List Row) → holds self.old rs → holds self.new rs }
        ensures recovers { (rs : List Row) → recovers self.new rs → recovers self.old rs };

    /// The next row, where one is left. The rows stay as they are. `Damaged` is for what is no document's row.
    fn next(&mut self, alloc: Global) -> Result<Option<DocumentRow>, StoreFault>
        ensures some { IfOk result (λ found. (r : DocumentRow) (rs : List Row) → found ≡ Some r
            → has_read self.old rs → has_read self.new (rs ++ row_view r ∷ [])) }
        ensures none { IfOk result (λ found. (rs : List Row) → found ≡ None
            → has_read self.old rs → holds self.new rs) }
        ensures holds { (rs : List Row) → holds self.old rs → holds self.new rs }
        ensures recovers { (rs : List Row) → recovers self.new rs → recovers self.old rs };

    /// Puts a row at its place, instead of the one with its tenant and URI.
    fn put(&mut self, row: RowRef<'_>) -> Result<(), StoreFault>
        ensures ok { OnOk result ((rs : List Row) → Ascend rs → holds self.old rs
            → holds self.new (with_row (row_ref_view row.entry) rs)) }
        ensures recovers { (rs : List Row) → recovers self.new rs → recovers self.old rs };

    /// Puts a row at its place, where none has its tenant and URI. Where one has, nothing is promised of the rows that the
    /// store has, and all the same of those that an opening finds.
    fn insert(&mut self, row: RowRef<'_>) -> Result<(), StoreFault>
        ensures ok { OnOk result ((rs : List Row) → Ascend rs
            → HasNoRow row.entry.tenant.now row.entry.uri.now rs → holds self.old rs
            → holds self.new (with_row (row_ref_view row.entry) rs)) }
        ensures recovers { (rs : List Row) → recovers self.new rs → recovers self.old rs };

    /// Deletes the row with this tenant and URI, where there is one.
    fn delete(&mut self, tenant: &str, uri: &str) -> Result<(), StoreFault>
        ensures ok { OnOk result ((rs : List Row) → Ascend rs → holds self.old rs
            → holds self.new (without_row tenant.now uri.now rs)) }
        ensures recovers { (rs : List Row) → recovers self.new rs → recovers self.old rs };

    /// Makes durable what was put and deleted.
    fn commit(&mut self) -> Result<(), StoreFault>
        ensures holds { OnOk result ((rs : List Row) → holds self.old rs → holds self.new rs) }
        ensures kept { OnOk result ((rs ss : List Row) → holds self.new rs
            → recovers self.new ss → ss ≡ rs) }
        ensures crash { (rs ss : List Row) → holds self.old rs → recovers self.new ss
            → recovers self.old ss ⊎ (ss ≡ rs) };

    /// At a graceful end: leaves the file alone with all that is kept, where that can be had.
    fn close(&mut self)
        ensures recovers { (rs : List Row) → recovers self.new rs → recovers self.old rs };

    /// It holds rows in one way at most.
    ghost one: { (s : Self) (rs : List Row) → IsProp (holds s rs) };
}
