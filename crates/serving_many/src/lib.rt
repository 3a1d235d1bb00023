//! Many connections served side by side, over whatever tells which are ready.
#![tactic(auto)]

mod answering;
mod ending;
mod meeting;
mod observers;
mod sending;
mod serving;

pub use connections::{Handler, Outage, Sessions, Unsettled};
pub use network::{Broken, Fault, Network, Occasion, Outbox};
pub use observers::Observer;
pub use serving::serve_all;
