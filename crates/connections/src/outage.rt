//! Why nothing more is served.

use crate::handlers::Unsettled;

/// Why nothing more is served.
#[derive(Clone, Copy, Debug, Drop, PartialEq)]
pub enum Outage {
    /// What brings the connections failed.
    Broken,
    /// What was answered couldn't be made durable.
    Unsettled(Unsettled),
}
