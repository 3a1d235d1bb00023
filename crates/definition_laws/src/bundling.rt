//! What a bundle keeps of the documents that it is made of (JSON Schema 2020-12 Core, 9.3).

ghost use Rattle.definition_laws.specs.Bundling.{BundlesKeepTheirUri, BundlesKeepTheResources, BundlesAreDefinite, BundlesAreAlike, BundlesAnswerTheSame};

/// A bundle is stored under the URI that it was asked by, whatever it is put under.
pub fn bundles_keep_their_uri()
    ensures { BundlesKeepTheirUri }
{}

/// The resources in a bundle have the URIs of those in its documents.
pub fn bundles_keep_the_resources()
    ensures { BundlesKeepTheResources }
{}

/// The value of a bundle is well formed, and its arrays are short, as those of its documents are.
pub fn bundles_are_definite()
    ensures { BundlesAreDefinite }
{}

/// The table of a bundle alone, put under any base, is alike to that of its documents.
pub fn bundles_are_alike()
    ensures { BundlesAreAlike }
{}

/// A bundle alone answers as its documents do, refusals included.
pub fn bundles_answer_the_same()
    ensures { BundlesAnswerTheSame }
{}
