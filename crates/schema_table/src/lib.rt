//! The table of a schema document: one walk over its schemas finds the first fault of their keywords, and keeps their
//! resources, anchors, references and patterns (JSON Schema 2020-12 Core, sections 8 to 10).
#![tactic(auto)]

mod absolute_references;
mod anchors;
mod gathered;
mod keyword_values;
mod names;
mod own_keywords;
mod pair_numbers;
mod pattern_texts;
mod reading;
mod refusal;
mod repeats;
mod resources;
mod table;
mod text_room;
mod visit;

pub use absolute_references::AbsoluteReferences;
pub use anchors::Anchor;
pub use gathered::Gathered;
pub use pair_numbers::{add_pair, pair_number};
pub use reading::read_schemas;
pub use table::SchemaTable;
