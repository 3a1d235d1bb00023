//! What a check says of an instance, for people: a line for each cause, GitHub's annotations, or one line of JSON.
#![tactic(auto)]

mod causes;
mod github;
mod instance;
mod instance_texts;
mod json_lines;
mod lines;
mod sentences;
mod shortening;
mod shown;
mod units;
mod wanted;

pub use causes::causes_of;
pub use github::refusal_command;
pub use instance::{Instance, Style};
pub use json_doc::Fault;
pub use json_lines::{json_line, json_refusal};
pub use lines::error_lines;
pub use shown::shown_text;
pub use units::{ErrorUnit, error_units};
pub use wanted::Schemas;
