//! Compiled documents, shared and bounded: a document that is kept under its base and its text is compiled once.
#![tactic(auto)]

mod cache;
mod compiling;
mod key;

pub use cache::Cache;
pub use faults::Fault;
pub use key::Key;
