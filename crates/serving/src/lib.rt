//! Connections served by readers and writers.
#![tactic(auto)]

mod exchanges;
mod failure;
mod memory;
mod pieces;
mod recorded;
mod served;
mod streams;
mod writing;

pub use connections::Unsettled;
pub use failure::Failure;
pub use faults::Fault;
pub use memory::{MemoryReader, MemoryWriter, Pace, Pause};
pub use network::Broken;
pub use recorded::Recorded;
pub use served::serve;
pub use streams::{ByteReader, ByteWriter};
pub use writing::write_all;
