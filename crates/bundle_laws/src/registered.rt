//! What the documents of a registry are like.

ghost use Rattle.bundle_laws.specs.Registered.{CoursesKeepBaseTexts, LibrariesHaveBaseTexts, ReachedDocumentsAreRegistered, RegisteredDocumentsAreIdentified, StepsKeepBaseTexts};

/// The URIs that a library's documents stand under are in UTF-8.
pub fn libraries_have_base_texts()
    ensures { LibrariesHaveBaseTexts }
{}

/// A request whose URI is in UTF-8 leaves the URIs that documents stand under in UTF-8.
pub fn steps_keep_base_texts()
    ensures { StepsKeepBaseTexts }
{}

/// So does every course of such requests.
pub fn courses_keep_base_texts()
    ensures { CoursesKeepBaseTexts }
{}

/// Of documents that are kept, have values of bodies and stand under base forms of URIs in UTF-8, those that a URI reaches
/// are such documents too.
pub fn reached_documents_are_registered()
    ensures { ReachedDocumentsAreRegistered }
{}

/// Such documents have canonical URIs that are identifiers in UTF-8, and values whose names stand once.
pub fn registered_documents_are_identified()
    ensures { RegisteredDocumentsAreIdentified }
{}
