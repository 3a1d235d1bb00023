//! The documents that a URI reaches (JSON Schema 2020-12 Core, 8.2.3 and 9.2).

ghost use Rattle.definition_laws.specs.Reaching.{ReachedSetsAreLeast, KeptDocumentsReachLeastSets, ReachedDocumentsAreKept, ReachedResourcesAreDistinct, ResourcesHaveOneDocument, TablesOpenTheDocumentsResources, NothingIsReachedFromNothing, SameReachedSetsAgree, UnreachedPutsChangeNothing, UnreachedDeletesChangeNothing};

/// Of documents with distinct canonical URIs, a URI reaches those in the least set that has each document with a resource
/// of this URI, and each document that one in the set refers to.
pub fn reached_sets_are_least()
    ensures { ReachedSetsAreLeast }
{}

/// Kept documents have distinct canonical URIs, so that what a URI reaches among them is the least set.
pub fn kept_documents_reach_least_sets()
    ensures { KeptDocumentsReachLeastSets }
{}

/// The documents that a URI reaches among kept ones are kept by themselves.
pub fn reached_documents_are_kept()
    ensures { ReachedDocumentsAreKept }
{}

/// Among documents without a resource URI twice, those that a URI reaches have none twice.
pub fn reached_resources_are_distinct()
    ensures { ReachedResourcesAreDistinct }
{}

/// Among documents without a resource URI twice, at most one holds a resource.
pub fn resources_have_one_document()
    ensures { ResourcesHaveOneDocument }
{}

/// The URIs that the schemas of all documents open are the documents' resource URIs, in their order.
pub fn tables_open_the_documents_resources()
    ensures { TablesOpenTheDocumentsResources }
{}

/// Nothing is reached exactly where no document has a resource of the URI.
pub fn nothing_is_reached_from_nothing()
    ensures { NothingIsReachedFromNothing }
{}

/// Kept documents of two registries, of which a URI reaches the same, agree at it: what isn't reached changes no answer.
pub fn same_reached_sets_agree()
    ensures { SameReachedSetsAgree }
{}

/// A document that is put changes no answer by a URI that reaches neither it nor the one that it replaces.
pub fn unreached_puts_change_nothing()
    ensures { UnreachedPutsChangeNothing }
{}

/// A document that is deleted changes no answer by a URI that doesn't reach it.
pub fn unreached_deletes_change_nothing()
    ensures { UnreachedDeletesChangeNothing }
{}
