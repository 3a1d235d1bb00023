//! Canonical URIs (JSON Schema 2020-12 Core, 8.2.1).

ghost use Rattle.bundle_laws.specs.Identifying.{CanonicalUrisAreIdentifiers, CanonicalUrisAreTexts, IdentifiersAreAbsolute};

/// An identifier is itself, resolved against whatever base, and has no fragment.
pub fn identifiers_are_absolute()
    ensures { IdentifiersAreAbsolute }
{}

/// The canonical URI of a document that has no fault, under the base form of some URI, is an identifier.
pub fn canonical_uris_are_identifiers()
    ensures { CanonicalUrisAreIdentifiers }
{}

/// It is in UTF-8 where the base is, and the texts of the value are.
pub fn canonical_uris_are_texts()
    ensures { CanonicalUrisAreTexts }
{}
