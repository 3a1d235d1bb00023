//! Rows as lines.

use std::alloc::Global;
use stored_rows::{DocumentStore, StoreFault};

/// All rows of a store, each as its columns with a space between and a line feed behind.
pub fn written_rows<D: DocumentStore>(alloc: Global, store: &mut D) -> Result<String, StoreFault> {
    store.begin()?;
    let mut lines = String::new(alloc);
    for _ in 0..u64::MAX {
        let Some(row) = store.next(alloc)? else {
            return Ok(lines);
        };
        for column in [row.tenant.as_str(), row.uri.as_str(), row.base.as_str()] {
            if lines.push_str(column).is_err() || lines.push(' ').is_err() {
                return Err(StoreFault::NoRoom);
            }
        }
        if lines.push_str(row.text.as_str()).is_err() || lines.push('\n').is_err() {
            return Err(StoreFault::NoRoom);
        }
    }
    Err(StoreFault::NoRoom)
}
