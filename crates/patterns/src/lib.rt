//! Regular expressions, each with the machine that searches for it, for the keywords `pattern` and `patternProperties`.
#![tactic(auto)]

mod held;
mod machine;
mod pattern;
mod whole_characters;

pub use faults::Fault;
pub use held::HeldPattern;
pub use pattern::Pattern;
