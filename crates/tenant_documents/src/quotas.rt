//! Quotas.

ghost use Rattle.std.specs.Prelude.{◌≡◌, ℕ, List, nat_lt, not, option_map};
ghost use Rattle.definitions.specs.Lists.{first};
ghost use Rattle.definitions.specs.Registries.{quota_faults};
ghost use Rattle.definitions.specs.Schemas.{Document};
ghost use Rattle.faults.specs.View.{fault_view};
ghost use Rattle.tenant_documents.specs.Puts.{AreSized, IsSum};
ghost use Rattle.tenant_documents.specs.Registries.{registry_view};

use crate::registry::Registry;
use requests::Fault;

impl Registry {
    // How many bytes its documents may have.
    pub(crate) fn byte_quota(&self) -> u64
        ensures { result ≡ self.now.most_bytes }
    {
        self.most_bytes
    }
}

// The first quota of the registry that so many documents of so many bytes together are over; no number of bytes stands for
// more than 64 bits hold.
pub(crate) fn quota_fault(registry: &Registry, count: usize, bytes: Option<u64>) -> Option<Fault>
    ensures { (ds : List Document) → AreSized count bytes ds
        → option_map fault_view result ≡ first (quota_faults (registry_view registry.now) ds) }
{
    if count > registry.most_documents as usize {
        Some(Fault::QuotaDocuments)
    } else if is_within(bytes, registry.most_bytes) {
        None
    } else {
        Some(Fault::QuotaBytes)
    }
}

fn is_within(bytes: Option<u64>, most: u64) -> bool
    ensures { (sum : ℕ) → IsSum bytes sum → result ≡ not (nat_lt most sum) }
{
    match bytes {
        Some(bytes) => bytes <= most,
        None => false,
    }
}
