//! The sums that quotas bound.

ghost use Rattle.definition_laws.specs.Quotas.{QuotasAddUp};

/// In a kept registry, what is put adds to the numbers of documents and of bytes, less what it replaces, and what is deleted
/// takes its own share off.
pub fn quotas_add_up()
    ensures { QuotasAddUp }
{}
