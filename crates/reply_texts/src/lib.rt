//! The bytes of replies over HTTP (RFC 9112).
#![tactic(auto)]

mod bodies;
mod heads;
mod replies;

pub use replies::{write_closing, write_reply};
