//! A tenant's documents beside a library: what is put and deleted, and what references run over.
#![tactic(auto)]

mod accepting;
mod batch_claims;
mod batch_entries;
mod batch_sizes;
mod batch_uris;
mod batches;
mod deleting;
mod judging;
mod judging_batches;
mod keeping;
mod library;
mod library_documents;
mod library_entries;
mod library_uris;
mod putting;
mod quotas;
mod registry;
mod repeated_texts;
mod source;
mod stored_texts;
mod taken_uris;
mod tenant_source;

pub use library::library_of;
pub use registry::Registry;
pub use requests::{Fault, Reply};
pub use tenant_source::TenantSource;
