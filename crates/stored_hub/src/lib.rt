//! The registries of all tenants, whose documents outlive the process.
#![tactic(auto)]

mod digested_key;
mod digested_keys;
mod handling;
mod hub;
mod laws;
mod opening;
mod refusals;
mod restoring;
mod writing;

pub use connections::{Handler, Unsettled};
pub use hub::StoredHub;
pub use laws::new_servers_have_no_documents;
pub use opening::open;
pub use refusals::{OpenRefusal, RowRefusal};
pub use stored_rows::{DocumentStore, StoreFault};
pub use tenant_hub::{Fault, Hub};
