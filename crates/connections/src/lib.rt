//! Connections over anything that answers requests.
#![tactic(auto)]

mod answering;
mod buffers;
mod connection;
mod events;
mod handlers;
mod messages;
mod outage;
mod phases;
mod sessions;
mod taking;
mod turns;

pub use events::{cuts_decide_nothing, events_are_answered};
pub use handlers::{Exchange, Handler, Unsettled};
pub use outage::Outage;
pub use request_heads::Method;
pub use sessions::Sessions;
