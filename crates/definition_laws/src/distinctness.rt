//! Schemas of kept documents that URI and pointer tell apart (JSON Schema 2020-12 Core, 8.2.1).

ghost use Rattle.definition_laws.specs.Distinctness.{KeptDocumentsAreDistinct, ReachedDocumentsAreDistinct};

/// Kept documents that are values of bodies have distinct resource URIs and definite values: an identity names one schema
/// of theirs, and the resource's root and the pointer lead to it.
pub fn kept_documents_are_distinct()
    ensures { KeptDocumentsAreDistinct }
{}

/// So have the documents that a URI reaches.
pub fn reached_documents_are_distinct()
    ensures { ReachedDocumentsAreDistinct }
{}
