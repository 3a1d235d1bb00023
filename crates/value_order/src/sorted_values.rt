//! Values that are sorted once and searched often.

ghost use Rattle.std.specs.Prelude.{◌≡◌, IfOk};
ghost use Rattle.std.specs.List.{list_any};
ghost use Rattle.definitions.specs.Values.{Value, same};
ghost use Rattle.json_doc.specs.Docs.{value};
ghost use Rattle.value_order.specs.Sorts.{AreSorted};

use crate::ordering::compare;
use crate::uniqueness::sorted;
use json_doc::Doc;
use std::alloc::{AllocError, Global};

/// Values in the order of `compare`.
///
/// Contracts see whether one of them is equal to a value, by `has_value`.
#[derive(Drop)]
pub struct SortedValues<'a> {
    docs: Vec<&'a Doc>,
    ghost in_order: { AreSorted docs.items },
}

impl<'a> SortedValues<'a> {
    ghost use Rattle.value_order.specs.Searched.{has_value};

    /// These values. The time grows with their number times its logarithm, and the memory is that for a reference to each. The
    /// only error is want of that memory.
    pub fn of(alloc: Global, values: &'a [Doc]) -> Result<SortedValues<'a>, AllocError>
        ensures { IfOk result (λ s. (v : Value)
            → has_value s v ≡ list_any (λ d. same v (value d)) values.now) }
    {
        Ok(SortedValues {
            docs: sorted(alloc, values)?,
        })
    }

    /// Whether one of the values is equal to this one. The time grows with the logarithm of their number, and this takes no
    /// memory.
    pub fn contains(&self, doc: &Doc) -> bool
        ensures { result ≡ has_value self.now (value doc.now) }
    {
        self.docs
            .binary_search_by(|other| compare(other, doc))
            .is_ok()
    }
}
