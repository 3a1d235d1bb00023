//! Bundles that take the place of a registry (JSON Schema 2020-12 Core, 9.3).

ghost use Rattle.bundle_laws.specs.Served.{RepliedBundlesAnswerTheSame};

/// The bundle that a registry replies, put under any URI into an empty registry that has no library, and whose quotas it is
/// within, gets each body the reply that the registry gives it by the bundle's URI.
pub fn replied_bundles_answer_the_same()
    ensures { RepliedBundlesAnswerTheSame }
{}
