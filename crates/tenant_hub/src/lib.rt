//! The registries of several tenants: each tenant is served as if it were alone.
#![tactic(auto)]

mod answering;
mod array_lengths;
mod bundling;
mod hub;
mod keyed_registry;
mod links;
mod restoring;
mod validating;
mod workspace;

pub use hub::Hub;
pub use requests::{Fault, Reply, Request, StoredEntry};
pub use tenants_file::{Tenant, read_tenants};
