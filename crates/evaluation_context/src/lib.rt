//! Where an application of a schema stands: its evaluation path, its identity, its instance location, the dynamic
//! scope and the schemas that are being applied (JSON Schema 2020-12 Core, 7.1 and 12.3).
#![tactic(auto)]

mod context;
mod context_memory;
mod ends;
mod lower_parts;
mod moving;
mod running;
mod running_objects;
mod start;

pub use context::{Context, Return};
pub use context_memory::ContextMemory;
pub use start::Start;
