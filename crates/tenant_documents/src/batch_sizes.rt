//! How many documents there are once several are put together, and how many bytes.

ghost use Rattle.std.specs.Prelude.{◌≡◌, ◌+◌, ℕ, None, length, option_map};
ghost use Rattle.definitions.specs.Batches.{repeated_uri};
ghost use Rattle.definitions.specs.Documents.{bytes_of, document_of, documents_with_all};
ghost use Rattle.definitions.specs.Lists.{first, option_list};
ghost use Rattle.definitions.specs.Registries.{quota_faults};
ghost use Rattle.faults.specs.View.{fault_view};
ghost use Rattle.stored_documents.specs.SharedStored.{stored_documents};
ghost use Rattle.tenant_documents.specs.HeldBeside.{replaced_by};
ghost use Rattle.tenant_documents.specs.Puts.{IsSum};
ghost use Rattle.tenant_documents.specs.Registries.{registry_view};

use crate::quotas::quota_fault;
use crate::registry::Registry;
use requests::Fault;
use std::rc::Rc;
use stored_documents::Stored;

impl Registry {
    // The first quota that the documents with these would be over.
    pub(crate) fn batch_quota_fault(&self, documents: &[Rc<Stored>]) -> Option<Fault>
        requires once { repeated_uri (stored_documents documents.now) ≡ None }
        ensures { option_map fault_view result ≡ first (quota_faults (registry_view self.now)
            (documents_with_all (stored_documents documents.now)
            (registry_view self.now).documents)) }
    {
        // The number shows that what is within the quota fits 64 bits.
        let _ = self.document_quota();
        let (count, bytes) = self.left_over(documents);
        let bytes = sum_with(added_bytes(documents), bytes);
        match count.checked_add(documents.len()) {
            Some(count) => quota_fault(self, count, bytes),
            None => Some(Fault::QuotaDocuments),
        }
    }

    // How many documents it may have.
    fn document_quota(&self) -> u32
        ensures { result ≡ self.now.most_documents }
    {
        self.most_documents
    }

    // How many of its documents these don't take the place of, and how many bytes they have.
    fn left_over(&self, documents: &[Rc<Stored>]) -> (usize, u64)
        requires once { repeated_uri (stored_documents documents.now) ≡ None }
        ensures count { result.0 + length (replaced_by (stored_documents documents.now)
            (registry_view self.now).documents) ≡ length (registry_view self.now).documents }
        ensures bytes { result.1 + bytes_of (replaced_by (stored_documents documents.now)
            (registry_view self.now).documents) ≡ bytes_of (registry_view self.now).documents }
    {
        let mut count = self.documents.len();
        let mut bytes = self.documents.bytes();
        for document in documents {
            let (fewer, smaller) = self.replaced_under(document.canonical());
            count -= fewer;
            bytes -= smaller;
        }
        (count, bytes)
    }

    // How many documents have this canonical URI, and how many bytes.
    fn replaced_under(&self, canonical: &str) -> (usize, u64)
        ensures count { result.0 ≡ length (option_list
            (document_of (registry_view self.now).documents canonical.now)) }
        ensures bytes { result.1 ≡ bytes_of (option_list
            (document_of (registry_view self.now).documents canonical.now)) }
    {
        match self.documents.find(canonical) {
            Some(old) => (1, old.length() as u64),
            None => (0, 0),
        }
    }
}

// How many bytes the documents have together; none stands for more than 64 bits hold.
fn added_bytes(documents: &[Rc<Stored>]) -> Option<u64>
    ensures { IsSum result (bytes_of (stored_documents documents.now)) }
{
    let mut total = Some(0);
    for document in documents {
        total = sum_with(total, document.length() as u64);
    }
    total
}

fn sum_with(sum: Option<u64>, more: u64) -> Option<u64>
    ensures { (all : ℕ) → IsSum sum all → IsSum result (all + more) }
{
    match sum {
        Some(sum) => sum.checked_add(more),
        None => None,
    }
}
