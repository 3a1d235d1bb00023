//! The keywords of JSON Schema 2020-12 (Core, sections 8 to 11; Validation, section 6): the one table of their names, the
//! shapes of their values and the groups that they are evaluated in.
#![tactic(auto)]

mod group;
mod keyword;
mod named;
mod shape;

pub use group::{Group, groups};
pub use keyword::{KEYWORDS, Keyword};
pub use named::shape_named;
pub use shape::Shape;
