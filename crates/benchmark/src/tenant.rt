//! A server with one tenant.

use faults::Fault;
use std::alloc::Global;
use tenant_hub::{Hub, Tenant};

/// The key of the tenant.
pub const KEY: &str = "k1";

/// How many compiled documents the cache keeps.
const CAPACITY: usize = 4096;

/// A server with one tenant, whose quotas are as wide as they can be, and a cache that is as large as it can be.
pub fn one_tenant(alloc: Global) -> Result<Hub, Fault> {
    let mut tenants = Vec::with_capacity(alloc, 1)?;
    tenants.push(Tenant {
        key: String::from_str(alloc, KEY)?,
        documents: u32::MAX,
        bytes: u64::MAX,
    })?;
    Hub::new(alloc, tenants, CAPACITY, None)
}
