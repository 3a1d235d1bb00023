//! What each keyword of a schema applies, and whether it passes (JSON Schema 2020-12 Core, 10 and 11).
#![tactic(auto)]

mod application;
mod compared_resources;
mod dynamic_scope;
mod enumerations;
mod followed_references;
mod numbered_pattern;
mod numbered_resources;
mod places;
mod planning;
mod searches;
mod target;
mod tuning;
mod verdict;

pub use application::{Earlier, ObjectApplication};
pub use dynamic_scope::DynamicScope;
pub use enumerations::Enumerations;
pub use planning::{plan, surely_applies_nothing};
pub use searches::Searches;
pub use target::Target;
pub use verdict::{holds_of, passes};
