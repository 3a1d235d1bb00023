//! Arrays whose elements are unique (JSON Schema 2020-12 Validation, section 6.4.3), and values to be searched, by an order
//! of values.
#![tactic(auto)]

mod ordering;
mod sorted_values;
mod uniqueness;

pub use ordering::compare;
pub use sorted_values::SortedValues;
pub use uniqueness::{has_same, is_unique};
