//! That each tenant is served as if it were alone.

ghost use Rattle.http_front.specs.Isolation.{ConnectionsAreIsolated, ServedConnectionsAreIsolated};

/// Whatever happens on connections, in any order, whatever comes from other tenants, however the streams are cut, and
/// wherever memory lacks: each connection is sent the replies to the whole requests that its stream spells, and the
/// replies to the requests with one tenant's key, on all connections together, are a course of them from that tenant's
/// own registry. Where none of them is refused for room, they are the replies to its requests alone. Requests with a key
/// that no tenant has are refused.
pub fn connections_are_isolated()
    ensures { ConnectionsAreIsolated }
{}

/// Connections that are served one after the other, each to its end, are isolated as [`connections_are_isolated`] says
/// it. All that is read of them is their streams, and what is written is a first part of what they are to be sent.
pub fn served_connections_are_isolated()
    ensures { ServedConnectionsAreIsolated }
{}
