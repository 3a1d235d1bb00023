//! Connections on real sockets of the loopback address. Each client connects and sends before the server accepts.

use crate::handlers::{Counting, sessions};
use crate::served_hubs::{LAST_BAD_ROUTE, OUTPUT, POST};
use crate::texts::filled;
use connections::Sessions;
use sockets::{Limits, bind, serve_connections};
use std::io::{Read, Write};
use std::net::{Net, Shutdown, SocketAddr, TcpListener, TcpStream};
use std::process::Abort;
use std::time::{Clock, Duration};

/// Limits that a test can wait for.
fn limits() -> Limits {
    Limits {
        wait: Duration::from_millis(200),
        whole: Duration::from_secs(20),
        parting: Duration::from_millis(200),
    }
}

/// A listener on a free port, and its address.
fn listen<R: Net<Listener = TcpListener, Stream = TcpStream> + Abort>(
    rt: &R,
) -> (TcpListener, SocketAddr) {
    let listener = bind(rt, "127.0.0.1:0").expect(rt, "a listener");
    let address = listener.local_addr().expect(rt, "an address");
    (listener, address)
}

/// A client that has sent the bytes, and has ended where it says so.
fn client<R: Net<Listener = TcpListener, Stream = TcpStream> + Abort>(
    rt: &R,
    address: SocketAddr,
    bytes: &str,
    ended: bool,
) -> TcpStream {
    let mut stream = TcpStream::connect(rt, address).expect(rt, "a connection");
    stream.write_all(bytes.as_bytes()).expect(rt, "bytes sent");
    if ended {
        stream.shutdown(Shutdown::Write).expect(rt, "an end");
    }
    stream
}

/// What the client was sent, up to the end.
fn received<R: AllocGlobal + Abort>(rt: &R, stream: &mut TcpStream) -> String {
    let mut bytes = Vec::new(rt.alloc());
    stream.read_to_end(&mut bytes).expect(rt, "a reply");
    String::from_utf8(bytes).ok().expect(rt, "text")
}

/// Serves so many connections, and gives what is told of them.
fn serve<R: AllocGlobal + Clock + Abort>(rt: &R, listener: &TcpListener, count: u32) -> String {
    let mut sessions: Sessions<Counting> = sessions(rt.alloc());
    let mut errors = Vec::new(rt.alloc());
    serve_connections(
        rt.alloc(),
        rt,
        listener,
        limits(),
        count,
        &mut sessions,
        &mut errors,
    )
    .expect(rt, "accepted");
    String::from_utf8(errors).ok().expect(rt, "text")
}

// A client's bytes, whether it has ended then, and what it is sent.
type Client = (&'static str, bool, &'static str);

const BOTH_ENDED: &[Client] = &[(POST, true, OUTPUT), (POST, true, OUTPUT)];

const SILENT: &[Client] = &[(POST, false, OUTPUT), (POST, true, OUTPUT)];

const GOING_ON: &[Client] = &[(
    "GET /other HTTP/1.0\r\n\r\n«50000* »",
    false,
    LAST_BAD_ROUTE,
)];

// Why a server's clients are served so, the clients, and what is told of them.
const SERVED: &[(&str, &[Client], &str)] = &[
    (
        "each client is served in turn, and its end is no fault",
        BOTH_ENDED,
        "",
    ),
    (
        "a client that sends nothing in its time is let go, and told (LIMITS.md)",
        SILENT,
        "connection 1: ReadFailed\n",
    ),
    (
        "a client that sends on behind its last reply is sent that reply",
        GOING_ON,
        "",
    ),
];

/// A client that has sent the bytes, once they are filled.
fn filled_client<R: Net<Listener = TcpListener, Stream = TcpStream> + AllocGlobal + Abort>(
    rt: &R,
    address: SocketAddr,
    row: &Client,
) -> TcpStream {
    let (bytes, ended, _) = *row;
    let bytes = filled(rt.alloc(), bytes).expect(rt, "memory");
    client(rt, address, bytes.as_str(), ended)
}

fn clients<R: Net<Listener = TcpListener, Stream = TcpStream> + AllocGlobal + Abort>(
    rt: &R,
    address: SocketAddr,
    rows: &[Client],
) -> Vec<TcpStream> {
    let mut streams = Vec::new(rt.alloc());
    for row in rows {
        streams
            .push(filled_client(rt, address, row))
            .expect(rt, "memory");
    }
    streams
}

fn expect_received<R: AllocGlobal + Abort>(rt: &R, mut stream: TcpStream, wanted: &str, why: &str) {
    assert_eq!(rt; received(rt, &mut stream).as_str(), wanted, "{why}");
}

fn expect_served<R: Net<Listener = TcpListener, Stream = TcpStream> + AllocGlobal + Clock + Abort>(
    rt: &R,
    row: &(&str, &[Client], &str),
) {
    let (why, rows, wanted) = *row;
    let (listener, address) = listen(rt);
    let mut streams = clients(rt, address, rows);
    let count = u32::try_from(rows.len()).expect(rt, "a few clients");
    let told = serve(rt, &listener, count);
    assert_eq!(rt; told.as_str(), wanted, "{why}");
    for row in rows.iter().rev() {
        expect_received(rt, streams.pop().expect(rt, "a client"), row.2, why);
    }
}

#[test]
fn clients_are_served(rt: HostRuntime) {
    for row in SERVED {
        expect_served(&rt, row);
    }
}

#[test]
fn listens_at_numbers_alone(rt: HostRuntime) {
    assert!(rt; bind(&rt, "localhost:0").is_err(), "a name");
    assert!(rt; bind(&rt, "127.0.0.1").is_err(), "no port");
    assert!(rt;
        bind(&rt, "[::1]:0").is_ok() || bind(&rt, "127.0.0.1:0").is_ok(),
        "an address"
    );
}
