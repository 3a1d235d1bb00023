//! Documents by their canonical URIs.

ghost use Rattle.definition_laws.specs.Storing.{KeptDocumentsAreSound, DocumentsHoldTheirUris, StoredDocumentsAreReached, DocumentsAreFoundByTheirUris, HoldersAreUnique, CanonicalUrisFindTheirHolders, TakenUrisAreHeldByAnother, FreeUrisAreHeldByNoOther};

/// A document has a resource under its canonical URI: its root (JSON Schema 2020-12 Core, 8.2.1).
pub fn documents_hold_their_uris()
    ensures { DocumentsHoldTheirUris }
{}

/// A kept document is reached by its canonical URI.
pub fn stored_documents_are_reached()
    ensures { StoredDocumentsAreReached }
{}

/// The document that is found by a URI among kept ones is the one that has it as its canonical URI.
pub fn documents_are_found_by_their_uris()
    ensures { DocumentsAreFoundByTheirUris }
{}

/// Among kept documents a resource is found in the one that holds it.
pub fn holders_are_unique()
    ensures { HoldersAreUnique }
{}

/// A canonical URI is a resource of the document that it names, and of no other.
pub fn canonical_uris_find_their_holders()
    ensures { CanonicalUrisFindTheirHolders }
{}

/// A URI that is taken is the least in byte order of the document's own URIs that a document with another canonical URI
/// holds.
pub fn taken_uris_are_held_by_another()
    ensures { TakenUrisAreHeldByAnother }
{}

/// Where no URI is taken, no document with another canonical URI holds one of the document's own.
pub fn free_uris_are_held_by_no_other()
    ensures { FreeUrisAreHeldByNoOther }
{}

/// Kept documents are as a source of documents has them: in byte order of canonical URIs, without a fault, and no two of
/// which hold one resource.
pub fn kept_documents_are_sound()
    ensures { KeptDocumentsAreSound }
{}
