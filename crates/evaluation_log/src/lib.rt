//! What an evaluation notes: the units of its output, what it evaluated of the instance, and how many schemas it applied (JSON
//! Schema 2020-12 Core, 7.7 and 12.4.2).
#![tactic(auto)]

mod log;
mod tuning;

pub use log::{Before, Log, LogMark, LogMemory};
