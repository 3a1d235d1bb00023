//! Whether the values of keywords have the shapes that JSON Schema 2020-12 asks for.
#![tactic(auto)]

mod fitting;

pub use fitting::fits;
