//! The head of a request in a connection's bytes: where it ends, and what its fields say.
#![tactic(auto)]

mod fields;
mod fronts;
mod headings;
mod methods;
mod names;
mod searches;
mod targets;
mod tuning;

pub use fronts::{Front, look};
pub use headings::Heading;
pub use methods::Method;
pub use searches::Search;
pub use targets::request_of;
