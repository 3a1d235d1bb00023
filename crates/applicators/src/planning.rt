//! What keywords apply that follow no reference and search for no pattern, to which part of the instance.
//!
//! Each function plans into `planned`, where nothing stands yet, what a keyword with this value applies. The only error is want
//! of memory.

mod in_place;
mod items;
mod members;
mod unevaluated;

pub use in_place::{plan_consequence, plan_dependents, plan_listed, plan_own};
pub use items::{plan_items, plan_prefix, prefix_length};
pub use members::{plan_names, plan_properties};
pub use unevaluated::{plan_unevaluated_items, plan_unevaluated_properties};
