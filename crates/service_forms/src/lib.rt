//! The forms of the program that serve connections, `run` and `serve`: from the files that they read to how they end.
#![tactic(auto)]

mod files;
mod log;
mod registries;
pub mod service;
pub mod side_by_side;
mod stop;
mod store_stop;
pub mod stored;
mod stores;

pub use files::{Logs, Texts};
pub use stop::{Stop, UNWRITTEN};
pub use store_stop::StoreStop;
pub use stores::Stores;
