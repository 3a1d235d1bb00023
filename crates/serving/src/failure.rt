//! Why a connection isn't served to its end.

use connections::Unsettled;
use faults::Fault;

/// Why a connection isn't served to its end.
#[derive(Debug, Drop, PartialEq)]
pub enum Failure {
    /// The connection failed, or memory lacked.
    Fault(Fault),
    /// What was answered couldn't be made durable.
    Unsettled(Unsettled),
}
