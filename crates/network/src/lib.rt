//! What tells which of many connections are ready, and moves their bytes.
#![tactic(auto)]

mod clients;
mod kept;
mod memory;
mod networks;
mod outbox;
mod peers;
mod scenes;
mod transcript;

pub use clients::Client;
pub use faults::Fault;
pub use kept::Kept;
pub use memory::MemoryNetwork;
pub use networks::{Broken, Network, Occasion};
pub use outbox::Outbox;
pub use scenes::Happening;
pub use transcript::Transcript;
