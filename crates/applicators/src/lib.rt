//! What the keywords apply that follow no reference and search for no pattern, and how keywords annotate (JSON Schema
//! 2020-12 Core, 7.7, 10 and 11).
#![tactic(auto)]

mod annotating;
mod evaluated;
mod plan_memory;
mod planned;
mod planning;
mod subject;
mod tuning;

pub use annotating::{annotate, distinct_names};
pub use evaluated::Evaluated;
pub use plan_memory::PlanMemory;
pub use planned::{Part, Planned, Way};
pub use planning::{
    plan_consequence, plan_dependents, plan_items, plan_listed, plan_names, plan_own, plan_prefix,
    plan_properties, plan_unevaluated_items, plan_unevaluated_properties, prefix_length,
};
pub use subject::{Subject, members_of};
pub use tuning::FAR_LONGER;
