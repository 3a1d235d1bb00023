//! Bundles that stand alone (JSON Schema 2020-12 Core, 9.3).

ghost use Rattle.bundle_laws.specs.Standing.{BundlesAreRegular, BundlesAreStored, BundlesPassTheScan, BundlesStandAlone, IdentifiedDocumentsAreWhole};

/// Kept documents under identifiers, none of whose references is missing, are as a bundle wants its documents.
pub fn identified_documents_are_whole()
    ensures { IdentifiedDocumentsAreWhole }
{}

/// A bundle of them has no fault, whatever it is put under: its schemas keep the shapes of their keywords, its resources
/// and anchors have names of their own, and its nesting is within the limit of schemas.
pub fn bundles_pass_the_scan()
    ensures { BundlesPassTheScan }
{}

/// Its patterns are theirs, and so can be read.
pub fn bundles_are_regular()
    ensures { BundlesAreRegular }
{}

/// Put into an empty registry that has no library, and whose quotas it is within, it is stored under the URI that it was
/// asked by.
pub fn bundles_are_stored()
    ensures { BundlesAreStored }
{}

/// Alone, under whatever base, it has no fault, holds the resources of the documents, and answers as they do.
pub fn bundles_stand_alone()
    ensures { BundlesStandAlone }
{}
