//! A library's documents among a tenant's own.

ghost use Rattle.definition_laws.specs.Libraries.{PutsCommute, DeletesCommute, BatchesCommute};

/// A document that is put beside the library stands in its place among all that is seen.
pub fn puts_commute()
    ensures { PutsCommute }
{}

/// A document that is deleted from a kept registry is gone from all that is seen.
pub fn deletes_commute()
    ensures { DeletesCommute }
{}

/// The documents of a batch stand in their places among all that is seen.
pub fn batches_commute()
    ensures { BatchesCommute }
{}
