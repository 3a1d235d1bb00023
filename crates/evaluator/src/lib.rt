//! Applies the schemas of linked documents to an instance and answers with the basic output (JSON Schema 2020-12 Core, 10
//! to 12).
#![tactic(auto)]

mod annotating;
mod applied;
mod applying;
mod asserting;
mod dollar_names;
mod evaluator;
mod groups;
mod halt;
mod leaves;
mod memory;
mod object_keywords;
mod one_keyword;
mod present;
mod report;
mod schema_use;
mod settling;
mod settling_object;
mod siblings;
mod silent;
mod tuning;

pub use evaluator::Evaluator;
pub use faults::Fault;
pub use memory::EvaluationMemory;
pub use report::{Report, evaluate, evaluate_output, evaluate_with};
