//! How long a connection on a socket may take.

use std::time::Duration;

/// How long a connection on a socket may take.
#[derive(Clone, Copy, Debug)]
pub struct Limits {
    /// How long one read or one write waits at most. This is more than 0.
    pub wait: Duration,
    /// How long after its start a connection may begin another read or write.
    pub whole: Duration,
    /// How long a client that is still sending is read when its connection is over, so that it gets the last reply. This
    /// is more than 0.
    pub parting: Duration,
}

impl Limits {
    /// Those of the program: 30 seconds for a read or a write, 5 minutes in all, and 2 seconds at the end.
    pub fn standard() -> Limits {
        Limits {
            wait: Duration::from_secs(30),
            whole: Duration::from_secs(300),
            parting: Duration::from_secs(2),
        }
    }
}
