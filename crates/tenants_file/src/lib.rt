//! Texts that a server reads: the file of its tenants, bodies of requests, and batches of documents.
#![tactic(auto)]

mod batches;
mod bodies;
mod keys;
mod member_values;
mod server_refusals;
mod tenants;

pub use batches::{BatchEntry, read_batch};
pub use bodies::{read_body, read_body_with};
pub use json_doc::Fault;
pub use server_refusals::server_fault;
pub use tenants::{Tenant, read_tenants};
