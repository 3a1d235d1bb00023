//! JSON Pointers (RFC 6901): their tokens, their text, and their text in the fragment of a URI.
#![tactic(auto)]

mod pointer;

pub use faults::Fault;
pub use pointer::{Pointer, push_fragment_token, push_token};
