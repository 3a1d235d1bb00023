//! The basic output, from the units that were noted to its text (JSON Schema 2020-12 Core, 12.4.2).
#![tactic(auto)]

mod noted_units;
mod output;

pub use faults::Fault;
pub use noted_units::NotedUnits;
pub use output::{Output, output_text};
