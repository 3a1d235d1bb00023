//! Compound documents (JSON Schema 2020-12 Core, section 9.3): a document with all that it refers to.
#![tactic(auto)]

mod bundling;
mod constituent;
mod embedding;
mod measuring;

pub use bundling::bundle;
pub use faults::Fault;
