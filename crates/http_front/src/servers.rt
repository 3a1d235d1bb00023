//! New hubs.

ghost use Rattle.std.specs.Prelude.{◌≡◌, ◌≢◌, Ok, Err, IfOk, IfErr};
ghost use Rattle.faults.specs.View.{fault_view};
ghost use Rattle.http_front.specs.Libraries.{OnLibraryOf};
ghost use Rattle.http_front.specs.Servers.{server_of};
ghost use Rattle.tenant_hub.specs.Hubs.{hub_view};
ghost use Rattle.tenant_hub.specs.RefusedServers.{batch_view, given_library};

use std::alloc::Global;
use tenant_hub::{Fault, Hub, read_tenants};

/// The hub of a tenants' file over the library that a batch gives, if there is one, with a cache of this capacity. The errors are
/// first those of `read_tenants`, then those of `Hub::new`, of which those of the library come last. `BadPattern` is also for a
/// pattern of it that is too big once it is built; `NoRoom` may take the place of any answer.
pub fn hub_of(
    alloc: Global,
    tenants: &[u8],
    capacity: usize,
    library: Option<&[u8]>,
) -> Result<Hub, Fault>
    ensures ok { IfOk result (λ h. server_of tenants.now capacity
        (given_library (batch_view library.entry)) ≡ Ok (hub_view h)) }
    ensures err { IfErr result (λ f. f ≢ Fault.NoRoom
        → OnLibraryOf (batch_view library.entry)
        (λ l. server_of tenants.now capacity l ≡ Err (fault_view f))) }
{
    match read_tenants(alloc, tenants) {
        Err(fault) => Err(fault),
        Ok(tenants) => Hub::new(alloc, tenants, capacity, library),
    }
}
