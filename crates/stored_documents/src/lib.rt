//! The documents that a tenant has put, as they are stored.
#![tactic(auto)]

mod claims;
mod documents;
mod insertion;
mod ordered;
mod releases;
mod resource_texts;
mod resources;
mod stored;
mod taken_uris;
mod together;

pub use documents::Documents;
pub use faults::Fault;
pub use stored::Stored;
