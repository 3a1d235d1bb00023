//! Links a resource with all documents that it refers to (JSON Schema 2020-12 Core, sections 8.2.3 and 9.2).
#![tactic(auto)]

mod both;
mod compound_documents;
mod contents;
mod dynamic_resources;
mod holders;
mod insertion;
mod judging;
mod linked;
mod linked_texts;
mod linking;
mod list_holding;
mod list_source;
mod lookups;
mod named;
mod pattern_numbers;
mod references;
mod source;
mod target_documents;
mod visiting;

pub use both::Both;
pub use contents::{asked, documents, reached, value_of};
pub use faults::Fault;
pub use judging::names_in;
pub use linked::Linked;
pub use linked_texts::LinkedTexts;
pub use linking::link;
pub use list_source::ListSource;
pub use named::Named;
pub use pattern_numbers::PatternNumber;
pub use references::ReferenceNumber;
pub use source::Source;
