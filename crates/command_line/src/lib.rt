//! The command line of the program: the words that it takes, and the call that they spell.
#![tactic(auto)]

mod arguments;
mod bundle;
mod call;
mod check;
mod conflicts;
mod documents;
mod format;
mod program;
mod run;
mod scan;
mod serve;
mod serve_many;
mod values;

pub use call::{Bundling, Call, Checks, Documents, Format, Limits, Logging, Scanning, Setup};
pub use program::read;
