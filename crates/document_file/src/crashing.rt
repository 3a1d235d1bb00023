//! What a crash leaves, as a law over a store that can be made to crash.

ghost use Rattle.std.specs.Prelude.{◌≡◌, ◌⊎◌, IfOk, List, OnOk, true};
ghost use Rattle.sqlite_trees.specs.View.{IsClean};
ghost use Rattle.stored_rows.specs.Rows.{Ascend, Row};
ghost use Rattle.document_file.specs.Puts.{all_put};
ghost use Rattle.document_file.specs.Tables.{HoldsRows};

use crate::checkpoints::Checkpoint;
use crate::files::DocumentFile;
use sqlite_trees::store::Reopen;
use stored_rows::{DocumentStore, RowRef, StoreFault};

/// Puts these rows and makes them durable.
fn put_all<D: DocumentStore>(store: &mut D, rows: &[RowRef<'_>]) -> Result<(), StoreFault>
    ensures kept { OnOk result ((before found : List Row) → Ascend before → D.holds store.old before
        → D.recovers store.new found → found ≡ all_put rows.now before) }
    ensures crash { (before found : List Row) → Ascend before → D.holds store.old before
        → D.recovers store.new found
        → D.recovers store.old found ⊎ (found ≡ all_put rows.now before) }
{
    for row in rows {
        store.put(*row)?;
    }
    store.commit()
}

/// Puts rows, crashes and opens again: the rows that are held then are those from before or those with all that were put,
/// and the latter where the answer is true, for a commit that was answered.
pub fn put_and_crash<S: Reopen + Checkpoint + Drop>(
    mut documents: DocumentFile<S>,
    rows: &[RowRef<'_>],
) -> Result<(DocumentFile<S>, bool), StoreFault>
    ensures whole { IfOk result (λ p. (before after : List Row)
        → Ascend before → HoldsRows (S.Store.view documents.store) before
        → IsClean (S.Store.view p.0.store) → HoldsRows (S.Store.view p.0.store) after
        → (after ≡ before) ⊎ (after ≡ all_put rows.now before)) }
    ensures acknowledged { IfOk result (λ p. (before after : List Row)
        → Ascend before → HoldsRows (S.Store.view documents.store) before
        → IsClean (S.Store.view p.0.store) → HoldsRows (S.Store.view p.0.store) after
        → p.1 ≡ true → after ≡ all_put rows.now before) }
{
    documents.commit()?;
    let is_kept = put_all(&mut documents, rows).is_ok();
    Ok((documents.reopened()?, is_kept))
}
