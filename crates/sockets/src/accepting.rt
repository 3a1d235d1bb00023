//! Connections that are accepted and served, one after the other.
ghost use Rattle.std.specs.Prelude.{◌≡◌, [], ℕ, None, Err, IfOk};
ghost use Rattle.connections.specs.Connected.{connection_at, handler_of};
ghost use Rattle.connections.specs.Found.{FindsOnly};
ghost use Rattle.serving.specs.Streams.{transfers_of};
ghost use Rattle.serving.specs.Talks.{Talk, IsTalkKept, AreAllServed, IsFoundBehindAll};
ghost use Rattle.sockets.specs.Endings.{unsettled_in};

use crate::interruption::{Interruption, tell};
use crate::limited::Limited;
use crate::limits::Limits;
use crate::parting::part;
use connections::{Handler, Outage, Sessions, Unsettled};
use faults::Fault;
use serving::{Failure, Recorded, serve};
use std::alloc::Global;
use std::io::{self, ErrorKind, Write};
use std::net::{Net, SocketAddr, TcpListener, TcpStream};
use std::time::Clock;

/// Listens at an IP address and a port, as `127.0.0.1:8080`. Any other text is an error, also a name.
pub fn bind<N: Net<Listener = TcpListener, Stream = TcpStream>>(
    net: &N,
    address: &str,
) -> io::Result<TcpListener> {
    match address.parse::<SocketAddr>() {
        Ok(address) => TcpListener::bind(net, address),
        Err(_) => Err(io::Error::from(ErrorKind::InvalidInput)),
    }
}

/// Accepts `count` connections and serves each to its end before the next. A connection's fault is told on `errors` as
/// `connection <k>: <name>`, counted from 1, and the next one is served.
///
/// - [`Outage::Broken`] where an accept failed.
/// - [`Outage::Unsettled`] where what a connection was answered couldn't be made durable: no reply to its last piece is
///   written, and no more is served.
///
/// A connection that waits for too long, or takes too long as a whole, has a failed reader or writer.
///
/// No connection of `sessions` is open at first: else the one with that number would be refused.
pub fn serve_connections<C: Clock, H: Handler, E: Write>(
    alloc: Global,
    clock: &C,
    listener: &TcpListener,
    limits: Limits,
    count: u32,
    sessions: &mut Sessions<H>,
    errors: &mut E,
) -> Result<(), Outage>
    ensures served { ((k : ℕ) → connection_at sessions.old k ≡ None)
        → AreAllServed H.answers count (H.state (handler_of sessions.old)) result
        (H.state (handler_of sessions.new)) }
    ensures found { ((k : ℕ) → connection_at sessions.old k ≡ None)
        → FindsOnly H.finds (handler_of sessions.old) (H.state (handler_of sessions.old))
        → (s : H.State) → H.finds (handler_of sessions.new) s
        → IsFoundBehindAll H.answers (H.state (handler_of sessions.old)) result
        (H.state (handler_of sessions.new)) s }
    ensures free { (k : ℕ) → connection_at sessions.new k ≡ connection_at sessions.old k }
    ensures keeps { (why : Unsettled) → result ≡ Err (Outage.Unsettled why) → H.keeps }
{
    for served in 0..count {
        match listener.accept() {
            Err(_) => return Err(Outage::Broken),
            Ok((stream, _peer)) => {
                match serve_connection(
                    alloc,
                    clock,
                    &stream,
                    limits,
                    served + 1,
                    sessions,
                    errors,
                ) {
                    Ok(()) => {}
                    Err(unsettled) => return Err(Outage::Unsettled(unsettled)),
                }
            }
        }
    }
    Ok(())
}

/// Serves one connection to its end, and tells its fault. The error is that what it was answered couldn't be made durable.
fn serve_connection<C: Clock, H: Handler, E: Write>(
    alloc: Global,
    clock: &C,
    stream: &TcpStream,
    limits: Limits,
    number: u32,
    sessions: &mut Sessions<H>,
    errors: &mut E,
) -> Result<(), Unsettled>
    ensures served { connection_at sessions.old number ≡ None
        → (x : Talk) × (result ≡ unsettled_in x.result)
        × IsTalkKept H.state H.finds H.answers (handler_of sessions.old) x (handler_of sessions.new) }
    ensures free { (k : ℕ) → connection_at sessions.new k ≡ connection_at sessions.old k }
    ensures keeps { (why : Unsettled) → result ≡ Err why → H.keeps }
{
    let served = serve_stream(alloc, clock, stream, limits, number, sessions);
    part(clock, stream, limits.parting);
    match served {
        Ok(()) => Ok(()),
        Err(Failure::Unsettled(unsettled)) => Err(unsettled),
        Err(Failure::Fault(fault)) => {
            let _ = tell(errors, &Interruption { number, fault });
            Ok(())
        }
    }
}

/// What is read from and written to a socket, within limits of time and without delay.
fn streams_of<'a, C: Clock>(
    clock: &'a C,
    stream: &'a TcpStream,
    limits: Limits,
) -> io::Result<(Recorded<Limited<'a, C>>, Recorded<Limited<'a, C>>)>
    ensures { IfOk result (λ x. (transfers_of x.0 ≡ []) × (transfers_of x.1 ≡ [])) }
{
    stream.set_nodelay(true)?;
    let reader = Limited::new(clock, stream, limits.wait, limits.whole)?;
    let writer = Limited::new(clock, stream, limits.wait, limits.whole)?;
    Ok((Recorded::new(reader), Recorded::new(writer)))
}

/// Serves one connection on its socket. One whose limits can't be set is as one that can't be read.
fn serve_stream<C: Clock, H: Handler>(
    alloc: Global,
    clock: &C,
    stream: &TcpStream,
    limits: Limits,
    number: u32,
    sessions: &mut Sessions<H>,
) -> Result<(), Failure>
    ensures served { connection_at sessions.old number ≡ None → (x : Talk) × (x.result ≡ result)
        × IsTalkKept H.state H.finds H.answers (handler_of sessions.old) x (handler_of sessions.new) }
    ensures free { (k : ℕ) → connection_at sessions.new k ≡ connection_at sessions.old k }
    ensures keeps { (why : Unsettled) → result ≡ Err (Failure.Unsettled why) → H.keeps }
{
    match streams_of(clock, stream, limits) {
        Err(_) => Err(Failure::Fault(Fault::ReadFailed)),
        Ok((mut reader, mut writer)) => {
            serve(alloc, sessions, u64::from(number), &mut reader, &mut writer)
        }
    }
}
