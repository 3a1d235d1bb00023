//! What a new server is refused for.

ghost use Rattle.std.specs.Prelude.{◌≡◌, map, option_map};
ghost use Rattle.definitions.specs.Caches.{is_capacity};
ghost use Rattle.definitions.specs.Tenants.{server_fault};
ghost use Rattle.faults.specs.View.{fault_view};
ghost use Rattle.tenants_file.specs.Tenants.{tenant_view};

use crate::keys::{are_keys, have_repeat};
use crate::tenants::Tenant;
use json_doc::Fault;

/// How many tenants a server may have.
const MOST_TENANTS: usize = 64;

/// How many compiled documents the largest cache keeps.
const MOST_CAPACITY: usize = 4096;

/// The fault of a new server with these tenants and a cache of this capacity, if it has one.
///
/// The first of these: `BadCapacity` outside 1 to 4096, `TooManyTenants` above 64, `BadTenants` where a key isn't 1 to 64
/// characters from 0x21 to 0x7E, `DuplicateTenant` where two tenants have one key.
pub fn server_fault(tenants: &[Tenant], capacity: usize) -> Option<Fault>
    ensures { option_map fault_view result ≡ server_fault (map tenant_view tenants.now) capacity }
{
    if !is_capacity(capacity) {
        Some(Fault::BadCapacity)
    } else if tenants.len() > MOST_TENANTS {
        Some(Fault::TooManyTenants)
    } else if !are_keys(tenants) {
        Some(Fault::BadTenants)
    } else if have_repeat(tenants) {
        Some(Fault::DuplicateTenant)
    } else {
        None
    }
}

fn is_capacity(capacity: usize) -> bool
    ensures { result ≡ is_capacity capacity }
{
    0 < capacity && capacity <= MOST_CAPACITY
}
