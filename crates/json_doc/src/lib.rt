//! JSON values whose numbers are whole (RFC 8259): the type, and what walks it.
#![tactic(auto)]

mod copying;
mod depth;
mod doc;
mod gathered;
mod members;
mod name_map;
mod name_order;
mod named_members;
mod reading;
mod sameness;
mod short_text;
mod small_text;
mod tuning;
mod whole;
mod writing;

pub use copying::copy;
pub use depth::nesting;
pub use doc::Doc;
pub use faults::Fault;
pub use json::Scratch;
pub use members::{Cut, Members, MembersIter};
pub use name_order::compare_names;
pub use named_members::{Name, NamedMembers};
pub use reading::{read, read_with};
pub use sameness::same;
pub use short_text::ShortText;
pub use whole::Whole;
pub use writing::{write, write_doc};
