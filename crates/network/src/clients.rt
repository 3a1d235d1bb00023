//! The clients of connections.

ghost use Rattle.std.specs.Prelude.{◌≡◌};
ghost use Rattle.network.specs.Clients.{failed, is_absent};

/// Whether a connection has a client.
#[derive(Clone, Copy, Debug, Drop, PartialEq)]
pub enum Client {
    /// None has come, or it was let go.
    Absent,
    /// One has come.
    Present,
    /// One has come, and a read or a write of it failed, or it took too long.
    Failed,
}

impl Client {
    /// Whether there is none.
    pub fn is_absent(self) -> bool
        ensures { result ≡ is_absent self }
    {
        match self {
            Client::Absent => true,
            Client::Present | Client::Failed => false,
        }
    }

    /// Once it has failed.
    pub fn failed(self) -> Client
        ensures failed { result ≡ failed self }
        ensures absent { is_absent result ≡ is_absent self }
    {
        match self {
            Client::Absent => Client::Absent,
            Client::Present | Client::Failed => Client::Failed,
        }
    }
}
