//! The scan of a schema document (JSON Schema 2020-12 Core, sections 8 to 10): its first fault, or the document as it is
//! evaluated, with its resources, anchors and references, and the schema that a fragment names (section 8.2).
#![tactic(auto)]

mod anchor_numbers;
mod compiled;
mod compiling;
mod dynamic_resources;
mod located;
mod numbers;
mod pattern_table;
mod pointing;
mod scanned;
mod scanning;

pub use compiled::Compiled;
pub use compiling::{canonical, compile};
pub use faults::Fault;
pub use located::Located;
pub use scanned::Scanned;
pub use scanning::scan;
