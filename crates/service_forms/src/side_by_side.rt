//! The form that serves connections side by side.
ghost use Rattle.std.specs.Prelude.{◌≡◌, [], Some, IfErr, IfOk, is_some};
ghost use Rattle.definitions.specs.Values.{Text};
ghost use Rattle.command_line.specs.Calls.{setup_view};
ghost use Rattle.service_forms.specs.Endings.{EndsListening, EndsService};
ghost use Rattle.service_forms.specs.Services.{AreServedSo, EndsServingMany, OnServer, path_view};
ghost use Rattle.service_forms.specs.Stops.{IsUnopened};
ghost use Rattle.sockets.specs.Sockets.{reads_of, writes_of};

use crate::files::{Logs, Texts};
use crate::log::{Counts, Log, Watch, write_line};
use crate::registries::Registries;
use crate::service::new_hub;
use crate::stop::Stop;
use command_line::{Logging, Setup};
use connections::Outage;
use serving_many::Network;
use sockets::{Sockets, most_connections};
use std::alloc::Global;
use std::io::Write;
use std::net::Net;
use std::time::{Clock, Duration};

/// Where and how connections are served side by side.
#[derive(Clone, Copy)]
pub struct Service<'a> {
    pub listen: &'a str,
    pub limits: command_line::Limits,
    pub logging: Logging<'a>,
}

/// A whole duration of so many seconds; without end where there is none.
fn seconds(count: Option<u32>) -> Duration {
    match count {
        Some(count) => Duration::from_secs(u64::from(count)),
        None => Duration::MAX,
    }
}

/// The limits of time on a socket.
fn times(limits: command_line::Limits) -> sockets::Limits {
    sockets::Limits {
        wait: seconds(Some(limits.idle)),
        whole: seconds(limits.whole),
        ..sockets::Limits::standard()
    }
}

/// So many connections, unless the system's limit of descriptors allows fewer.
fn count_of<'a>(connections: u32) -> Result<usize, Stop<'a>>
    ensures ok { IfOk result (λ count. count ≡ connections) }
    ensures err { (address : Text) → IfErr result (IsUnopened address) }
{
    let count = connections as usize;
    match most_connections() {
        Some(most) if most < count => Err(Stop::TooManyConnections(most)),
        _ => Ok(count),
    }
}

/// The file of the log, if there is one.
fn open_log<'a, F: Logs>(files: &F, logging: Logging<'a>) -> Result<Option<F::Log>, Stop<'a>>
    ensures ok { IfOk result (λ log. is_some log ≡ is_some logging.entry.file) }
    ensures err { (address : Text) → IfErr result (IsUnopened address) }
{
    match logging.file {
        None => Ok(None),
        Some(path) => match files.append(path) {
            Ok(file) => Ok(Some(file)),
            Err(stop) => Err(stop),
        },
    }
}

/// Sockets at the address, of which nothing is read or written yet.
fn open_sockets<'a, 'r, N: Net + Clock>(
    alloc: Global,
    net: &'r N,
    service: Service<'a>,
) -> Result<Sockets<'r, N>, Stop<'a>>
    ensures reads { IfOk result (λ sockets. reads_of sockets ≡ []) }
    ensures writes { IfOk result (λ sockets. writes_of sockets ≡ []) }
    ensures err { IfErr result (IsUnopened service.entry.listen.now) }
{
    let count = match count_of(service.limits.connections) {
        Ok(count) => count,
        Err(stop) => return Err(stop),
    };
    match Sockets::bind(alloc, net, service.listen, count, times(service.limits)) {
        Ok(sockets) => Ok(sockets),
        Err(_) => Err(Stop::CannotListen(service.listen)),
    }
}

/// Serves the connections of a network side by side by these registries, until they are over. A log is told how they go.
fn serve_network<H: Registries, N: Network, C: Clock, W: Write>(
    alloc: Global,
    registries: H,
    network: &mut N,
    log: &Log<'_, C, W>,
    most_memory: usize,
) -> Result<(), Outage>
    ensures { H.serves registries (N.reads network.old) (N.writes network.old) result
        (N.reads network.new) (N.writes network.new) }
{
    let mut watch = Watch { log };
    registries.serve(alloc, log, network, &mut watch, most_memory)
}

/// Serves the connections of a network side by side by these registries, until they are over, with a log on `out`. It also
/// answers how many connections, requests and refusals there were.
fn serve_logged<H: Registries, N: Network, C: Clock, W: Write + Drop>(
    alloc: Global,
    clock: &C,
    registries: H,
    network: &mut N,
    service: Service<'_>,
    out: W,
) -> (Result<(), Outage>, Counts)
    ensures { H.serves registries (N.reads network.old) (N.writes network.old) result.0
        (N.reads network.new) (N.writes network.new) }
{
    let log = Log::new(alloc, clock, out, service.logging.requests);
    let most_memory = service.limits.memory as usize;
    let ended = serve_network(alloc, registries, network, &log, most_memory);
    let counts = log.counts();
    (ended, counts)
}

/// Serves the connections of a network side by side by these registries, until they are over, with a log in a file or else on
/// `errors`. It also answers how many connections, requests and refusals there were.
fn serve_told<H: Registries, N: Network, C: Clock, L: Write + Drop, E: Write>(
    alloc: Global,
    clock: &C,
    registries: H,
    network: &mut N,
    service: Service<'_>,
    file: Option<L>,
    errors: &mut E,
) -> (Result<(), Outage>, Counts)
    ensures { H.serves registries (N.reads network.old) (N.writes network.old) result.0
        (N.reads network.new) (N.writes network.new) }
{
    match file {
        Some(file) => serve_logged(alloc, clock, registries, network, service, file),
        None => serve_logged(alloc, clock, registries, network, service, errors),
    }
}

/// Serves connections at the address side by side by these registries, whose documents the store at the path keeps, if there
/// is one, and gives the status 0. Their address, and at the end how many there were, is told on `errors`.
pub(crate) fn serve_at<'a, H: Registries, N, F: Logs, E: Write>(
    alloc: Global,
    net: &N,
    files: &F,
    registries: H,
    store: Option<&'a str>,
    service: Service<'a>,
    errors: &mut E,
) -> Result<u8, Stop<'a>>
where
    N: Net + Clock,
    ensures { EndsListening service.entry.listen.now (path_view store.entry)
        (AreServedSo (H.serves registries)) result }
{
    let file = match open_log(files, service.logging) {
        Ok(file) => file,
        Err(stop) => return Err(stop),
    };
    let mut sockets = match open_sockets(alloc, net, service) {
        Ok(sockets) => sockets,
        Err(stop) => return Err(stop),
    };
    let address = sockets.local_addr();
    write_line(errors, format!(in alloc; "listening on {address}\n"));
    let (ended, counts) = serve_told(alloc, net, registries, &mut sockets, service, file, errors);
    write_line(errors, format!(in alloc; "{counts}"));
    match ended {
        Ok(()) => Ok(0),
        Err(outage) => Err(Stop::of_outage(store, outage)),
    }
}

/// Serves connections at the address side by side by new registries, until standard input ends, where that is a pipe, and
/// gives the status 0. The registries are judged before the log is opened and the address is listened at.
pub fn serve<'a, N, F: Texts + Logs, E: Write>(
    alloc: Global,
    net: &N,
    files: &F,
    setup: Setup<'a>,
    service: Service<'a>,
    errors: &mut E,
) -> Result<u8, Stop<'a>>
where
    N: Net + Clock,
    ensures ends { EndsService (F.is_unreadable files.now) (setup_view setup.entry)
        (Some service.entry.listen.now) result }
    ensures alone { OnServer (F.text_at files.now) (setup_view setup.entry)
        (λ server. EndsServingMany service.entry.listen.now server result) }
{
    match new_hub(alloc, files, setup) {
        Ok(hub) => serve_at(alloc, net, files, hub, None, service, errors),
        Err(stop) => Err(stop),
    }
}
