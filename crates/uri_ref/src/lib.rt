//! URI references (RFC 3986): their parts, and what they resolve to.
#![tactic(auto)]

mod absolute_references;
mod base_forms;
mod dots;
mod fragments;
mod laws;
mod opening;
mod parts;
mod recomposing;
mod resolved_parts;
mod resolving;
mod splitting;

pub use absolute_references::{
    AbsoluteReference, ResolvedReference, absolute_reference, resolved_reference,
};
pub use base_forms::base_form;
pub use faults::Fault;
pub use fragments::{FragmentKind, fragment_kind};
pub use laws::{identifier_splits, identifiers_split, identifiers_stay, texts_split_once};
pub use opening::{opened_uri, resolved_uri};
pub use parts::{Parts, is_identifier};
pub use recomposing::recompose;
pub use resolved_parts::ResolvedParts;
pub use resolving::resolve;
pub use splitting::{split, without_fragment};
