//! The numbers of texts, told by the few bytes in which the texts differ.
#![tactic(auto)]

mod balance;
mod building;
mod differences;
mod numbering;
mod places;
mod tree;

pub use numbering::TextNumbers;
