//! Checks of files: the documents that a schema's references run over, one file after the other, and instances by one linked
//! schema, one text after the other.
#![tactic(auto)]

mod checker;
mod dangling;
mod documents;
mod file_uris;
mod tally;
mod texts;

pub use checker::Checker;
pub use documents::FileDocuments;
pub use evaluator::Report;
pub use faults::Fault;
pub use file_uris::{absolute_path, file_uri};
pub use tally::{Tally, Verdict};
pub use texts::is_blank;
