//! What a connection's bytes spell and what is answered (RFC 9110, RFC 9112): heads, routes, the requests of a stream,
//! the bytes of replies, and what a connection does with a piece. There is no code here.
#![tactic(auto)]
