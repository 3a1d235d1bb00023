//! Checks one instance against one schema, without a registry.
#![tactic(auto)]

mod check;
mod input;

pub use check::check_bytes;
pub use evaluator::Report;
pub use input::{DEFAULT_URI, check_input};
pub use json_doc::Fault;
