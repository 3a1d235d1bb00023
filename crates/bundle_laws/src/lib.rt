//! Laws that rest on lemmas of `json_doc` and `uri_ref`: of equal values, of canonical URIs, and of bundles. Each is the
//! contract of a function that does nothing.
#![tactic(auto)]

mod canonical_uris;
mod equality;
mod registered;
mod served;
mod standing;

pub use canonical_uris::{
    canonical_uris_are_identifiers, canonical_uris_are_texts, identifiers_are_absolute,
};
pub use equality::equal_values_are_one;
pub use registered::{
    courses_keep_base_texts, libraries_have_base_texts, reached_documents_are_registered,
    registered_documents_are_identified, steps_keep_base_texts,
};
pub use served::replied_bundles_answer_the_same;
pub use standing::{
    bundles_are_regular, bundles_are_stored, bundles_pass_the_scan, bundles_stand_alone,
    identified_documents_are_whole,
};
