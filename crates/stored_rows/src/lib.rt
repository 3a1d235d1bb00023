//! Documents as rows of a store: which rows stand for which registries, and what a store of them does.
#![tactic(auto)]

mod digests;
mod laws;
mod rows;
mod store_faults;
mod stores;

pub use digests::digest;
pub use laws::{
    calls_change_rows, calls_keep_what_is_emptied, digests_have_one_length,
    emptied_registries_have_the_digests, new_documents_have_no_row, restored_rows_are_stored,
    restoring_keeps_what_is_emptied, rows_ascend, rows_give_one_result, rows_give_registries_back,
};
pub use rows::{DocumentRow, RowRef};
pub use store_faults::StoreFault;
pub use stores::DocumentStore;
