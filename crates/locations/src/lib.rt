//! The steps of locations in documents and instances, as tokens of JSON Pointers (RFC 6901), and what a pointer finds.
#![tactic(auto)]

mod finding;
mod owned_way;
mod sameness;
mod step;
mod ways;

pub use finding::find;
pub use owned_way::OwnedWay;
pub use sameness::same_steps;
pub use step::{Step, push_fragment, push_pointer};
pub use ways::{follow, own, steps_after};
