//! Where the values of a JSON text stand in it: line and column of a location, of an offset, and of what can't be read.
#![tactic(auto)]

mod nodes;
mod places;
mod position;
mod unreadable;

pub use json_doc::Fault;
pub use places::{Places, Span, position_of_location};
pub use position::{Position, Positions};
pub use unreadable::first_fault;
