//! What a person may want to know of a schema document that no rule forbids: names that are no keywords but look like one,
//! keywords of older drafts, and `format`, which asserts nothing here; and the document's anchors.
#![tactic(auto)]

mod finding;
mod hint;
mod names;
mod schemas;

pub use finding::{Findings, look_over};
pub use hint::{Anchor, Hint, Warning};
pub use json_doc::Fault;
