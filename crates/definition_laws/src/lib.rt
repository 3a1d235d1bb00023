//! Laws of the definitions, each as the contract of a function that does nothing.
#![tactic(auto)]

mod applications;
mod bundling;
mod distinctness;
mod identities;
mod keeping;
mod libraries;
mod likeness;
mod linking;
mod locations;
mod pointers;
mod quotas;
mod reaching;
mod reading;
mod services;
mod storing;
mod uniqueness;

ghost use Rattle.definition_laws.specs.Laws.{FailingEvaluatesNothing, RefusalsKeepTheRegistry, CoursesAreReplies, AgreeingAnswerAlike, SameReachedSetsAnswerAlike, BadPatternsAreNotForRoom};

pub use applications::{
    applied_schemas_are_known, failing_annotates_nothing, passing_reports_no_error,
};
pub use bundling::{
    bundles_answer_the_same, bundles_are_alike, bundles_are_definite, bundles_keep_the_resources,
    bundles_keep_their_uri,
};
pub use distinctness::{kept_documents_are_distinct, reached_documents_are_distinct};
pub use identities::{identity_names_one_schema, roots_are_found, schemas_are_pointed_to};
pub use keeping::{
    courses_keep_base_forms, courses_keep_body_values, courses_keep_registries,
    empty_registries_are_kept, empty_registries_see_the_library, libraries_are_kept, quotas_stay,
    steps_keep_base_forms, steps_keep_body_values, steps_keep_registries,
};
pub use libraries::{batches_commute, deletes_commute, puts_commute};
pub use likeness::{alike_tables_answer_the_same, alike_tables_give_the_same, reach_is_enough};
pub use linking::{least_is_least, linked_name_all, missing_name_nothing, no_texts_have_no_least};
pub use locations::locations_name_schemas;
pub use pointers::{pointers_are_read_back, read_pointers_have_one_text};
pub use quotas::quotas_add_up;
pub use reaching::{
    kept_documents_reach_least_sets, nothing_is_reached_from_nothing, reached_documents_are_kept,
    reached_resources_are_distinct, reached_sets_are_least, resources_have_one_document,
    same_reached_sets_agree, tables_open_the_documents_resources, unreached_deletes_change_nothing,
    unreached_puts_change_nothing,
};
pub use reading::{read_arrays_are_short, read_values_are_well_formed};
pub use services::{
    calls_answer_their_tenant, calls_keep_registries, courses_go_on, new_servers_are_kept,
    other_registries_stay, tenants_have_their_courses, tenants_have_their_replies,
    unknown_keys_are_refused, unknown_keys_stay_unknown,
};
pub use storing::{
    canonical_uris_find_their_holders, documents_are_found_by_their_uris,
    documents_hold_their_uris, free_uris_are_held_by_no_other, holders_are_unique,
    kept_documents_are_sound, stored_documents_are_reached, taken_uris_are_held_by_another,
};
pub use uniqueness::sorted_repeats_are_neighbours;

/// A schema that fails evaluates no name and no index (JSON Schema 2020-12 Core, 11).
pub fn failing_evaluates_nothing()
    ensures { FailingEvaluatesNothing }
{}

/// A request that is refused, also for one entry of a batch, leaves the registry as it was.
pub fn refusals_keep_the_registry()
    ensures { RefusalsKeepTheRegistry }
{}

/// Where no answer of a course is refused for room, the answers are the replies exactly, and the last registry is the
/// one that the requests lead to.
pub fn courses_are_replies()
    ensures { CoursesAreReplies }
{}

/// Registries from which a URI reaches the same documents answer alike where it is validated by.
pub fn agreeing_answer_alike()
    ensures { AgreeingAnswerAlike }
{}

/// So do kept registries from which it reaches the same set of documents, also where it is bundled by.
pub fn same_reached_sets_answer_alike()
    ensures { SameReachedSetsAnswerAlike }
{}

/// Where the definitions themselves answer that a pattern is bad, this isn't for want of room.
pub fn bad_patterns_are_not_for_room()
    ensures { BadPatternsAreNotForRoom }
{}
