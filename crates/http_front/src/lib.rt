//! The registries of many tenants, over HTTP connections.
#![tactic(auto)]

mod hub_handler;
mod isolation;
mod noted_hub;
mod running;
mod servers;
mod side_by_side;
mod stored;

pub use connections::{Exchange, Handler, Outage, Sessions, Unsettled};
pub use hub_handler::{HasHub, HubHandler};
pub use isolation::{connections_are_isolated, served_connections_are_isolated};
pub use noted_hub::{Journal, NotedHub};
pub use running::{serve_connection, serve_hub};
pub use servers::hub_of;
pub use serving::{
    Broken, ByteReader, ByteWriter, Failure, MemoryReader, MemoryWriter, Pace, Pause, Recorded,
    serve,
};
pub use side_by_side::{serve_noted, serve_side_by_side};
pub use stored::{serve_stored_connection, serve_stored_side_by_side};
pub use tenant_hub::{Fault, Hub};
