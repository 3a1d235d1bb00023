//! Connections on sockets, served one after the other or side by side, each within limits of time.
#![tactic(auto)]

mod accepting;
mod asking;
mod changes;
mod descriptors;
mod interruption;
mod leaving;
mod limited;
mod limits;
mod moving;
mod newcomers;
mod parting;
mod rest;
mod socket;
mod sockets;
mod status;
mod supply;
mod table;
mod telling;
mod tuning;
mod turns;

pub use accepting::{bind, serve_connections};
pub use descriptors::most_connections;
pub use limits::Limits;
pub use sockets::Sockets;
