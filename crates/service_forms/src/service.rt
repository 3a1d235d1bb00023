//! The forms that serve connections: `run` and `serve`.
ghost use Rattle.std.specs.Prelude.{◌≡◌, ◌≢◌, List, Option, None, Some, Ok, Err, IfOk, IfErr};
ghost use Rattle.definitions.specs.Values.{Text};
ghost use Rattle.faults.specs.View.{fault_view};
ghost use Rattle.command_line.specs.Calls.{setup_view};
ghost use Rattle.service_forms.specs.Endings.{EndsListening, EndsReading, EndsService, ReadsInOrder, StopsReading, files_of, library_name};
ghost use Rattle.service_forms.specs.Services.{EndsRun, EndsServing, HoldsLibrary, HoldsSources, batch_of, IsRefusedStart, OnServer, OnServerIn, ServeInTurn, path_view};
ghost use Rattle.service_forms.specs.Stops.{IsUnopened, IsUnreadAmong};
ghost use Rattle.stored_rows.specs.Restoring.{emptied};
ghost use Rattle.tenant_hub.specs.Hubs.{hub_view};
ghost use Rattle.tenant_hub.specs.RefusedServers.{batch_view};

use crate::files::Texts;
use crate::stop::Stop;
use command_line::Setup;
use faults::Fault;
use http_front::{Hub, HubHandler, Sessions, hub_of, serve_hub};
use serving::{ByteReader, ByteWriter};
use sockets::{Limits, bind, serve_connections};
use std::alloc::Global;
use std::io::Write;
use std::net::{Net, TcpListener, TcpStream};
use std::time::Clock;
use stored_hub::new_servers_have_no_documents;

/// What the files of a service hold.
#[derive(Drop)]
pub struct Sources {
    pub tenants: Vec<u8>,
    pub library: Option<Vec<u8>>,
}

impl Sources {
    // The batch of the library, if there is one.
    fn batch(&self) -> Option<&[u8]>
        ensures { batch_view result ≡ batch_of self.now }
    {
        match &self.library {
            Some(library) => Some(library.as_slice()),
            None => None,
        }
    }
}

/// Reads the file of the library, if there is one.
fn read_library<'a, F: Texts>(
    alloc: Global,
    files: &F,
    path: Option<&'a str>,
) -> Result<Option<Vec<u8>>, Stop<'a>>
    ensures ok { IfOk result (λ bytes.
        HoldsLibrary (F.text_at files.now) (path_view path.entry) bytes) }
    ensures err { IfErr result (IsUnreadAmong (library_name (path_view path.entry))) }
    ensures order { ReadsInOrder (F.is_unreadable files.now)
        (library_name (path_view path.entry)) result }
{
    match path {
        None => Ok(None),
        Some(path) => match files.whole(alloc, path) {
            Ok(bytes) => Ok(Some(bytes)),
            Err(stop) => Err(stop),
        },
    }
}

/// Reads the files of a service, the tenants first. All are read before any is judged.
fn read_sources<'a, F: Texts>(
    alloc: Global,
    files: &F,
    setup: Setup<'a>,
) -> Result<Sources, Stop<'a>>
    ensures ok { IfOk result (HoldsSources (F.text_at files.now) (setup_view setup.entry)) }
    ensures err { IfErr result (IsUnreadAmong (files_of (setup_view setup.entry))) }
    ensures order { ReadsInOrder (F.is_unreadable files.now) (files_of (setup_view setup.entry))
        result }
{
    match files.whole(alloc, setup.tenants) {
        Ok(tenants) => match read_library(alloc, files, setup.library) {
            Ok(library) => Ok(Sources { tenants, library }),
            Err(stop) => Err(stop),
        },
        Err(stop) => Err(stop),
    }
}

/// Serves one connection over these registries, and gives the status 0.
fn run_over<'a, R: ByteReader, W: ByteWriter>(
    alloc: Global,
    hub: Hub,
    reader: &mut R,
    writer: &mut W,
) -> Result<u8, Stop<'a>>
    ensures reading { (names : List Text) → EndsReading names None result }
    ensures status { IfOk result (λ status. status ≡ 0) }
    ensures ran { EndsRun (Ok (hub_view hub)) (R.reads reader.old) (W.writes writer.old)
        result (R.reads reader.new) (W.writes writer.new) }
{
    match serve_hub(alloc, hub, reader, writer) {
        Ok(()) => Ok(0),
        Err(fault) => Err(Stop::Refused(fault)),
    }
}

/// Serves one connection from `reader` to `writer`, and gives the status 0 where it ended without a fault.
pub fn run<'a, F: Texts, R: ByteReader, W: ByteWriter>(
    alloc: Global,
    files: &F,
    setup: Setup<'a>,
    reader: &mut R,
    writer: &mut W,
) -> Result<u8, Stop<'a>>
    ensures ends { EndsService (F.is_unreadable files.now) (setup_view setup.entry) None result }
    ensures ran { OnServer (F.text_at files.now) (setup_view setup.entry)
        (λ server. EndsRun server (R.reads reader.old) (W.writes writer.old) result
        (R.reads reader.new) (W.writes writer.new)) }
{
    match new_hub(alloc, files, setup) {
        Ok(hub) => run_over(alloc, hub, reader, writer),
        Err(stop) => Err(stop),
    }
}

/// New registries.
fn hub(alloc: Global, sources: &Sources, capacity: usize) -> Result<Hub, Fault>
    ensures ok { IfOk result (λ h.
        OnServerIn sources.now capacity (λ server. server ≡ Ok (hub_view h))) }
    ensures err { IfErr result (λ f. f ≢ Fault.NoRoom
        → OnServerIn sources.now capacity (λ server. server ≡ Err (fault_view f))) }
{
    hub_of(alloc, sources.tenants.as_slice(), capacity, sources.batch())
}

/// Makes new registries at the start of a call. Where they are refused, that is why the call stops.
fn start_hub<'a>(alloc: Global, sources: &Sources, capacity: usize) -> Result<Hub, Stop<'a>>
    ensures ok { IfOk result (λ h.
        OnServerIn sources.now capacity (λ server. server ≡ Ok (hub_view h))) }
    ensures empty { IfOk result (λ h. emptied (hub_view h) ≡ hub_view h) }
    ensures err { IfErr result (λ stop.
        OnServerIn sources.now capacity (λ server. IsRefusedStart server stop)) }
    ensures reading { (names : List Text) (address : Option Text)
        → IfErr result (StopsReading names address) }
{
    new_servers_have_no_documents();
    match hub(alloc, sources, capacity) {
        Ok(hub) => Ok(hub),
        Err(fault) => Err(Stop::Refused(fault)),
    }
}

/// New registries, of what the files of a service hold.
pub(crate) fn new_hub<'a, F: Texts>(
    alloc: Global,
    files: &F,
    setup: Setup<'a>,
) -> Result<Hub, Stop<'a>>
    ensures ok { IfOk result (λ h. OnServer (F.text_at files.now) (setup_view setup.entry)
        (λ server. server ≡ Ok (hub_view h))) }
    ensures empty { IfOk result (λ h. emptied (hub_view h) ≡ hub_view h) }
    ensures err { IfErr result (λ stop. OnServer (F.text_at files.now) (setup_view setup.entry)
        (λ server. IsRefusedStart server stop)) }
    ensures reading { (address : Option Text)
        → IfErr result (StopsReading (files_of (setup_view setup.entry)) address) }
    ensures order { ReadsInOrder (F.is_unreadable files.now) (files_of (setup_view setup.entry))
        result }
{
    match read_sources(alloc, files, setup) {
        Ok(sources) => start_hub(alloc, &sources, setup.cache as usize),
        Err(stop) => Err(stop),
    }
}

/// Where connections are served one after the other, and how many are.
#[derive(Clone, Copy)]
pub struct InTurn<'a> {
    pub listen: &'a str,
    pub accept: u32,
}

/// Listens at the address.
pub(crate) fn listen<'a, N: Net<Listener = TcpListener, Stream = TcpStream>>(
    net: &N,
    address: &'a str,
) -> Result<TcpListener, Stop<'a>>
    ensures { IfErr result (IsUnopened address.now) }
{
    match bind(net, address) {
        Ok(listener) => Ok(listener),
        Err(_) => Err(Stop::CannotListen(address)),
    }
}

/// Serves so many connections at the address, one after the other over the same registries, and gives the status 0.
fn serve_at<'a, N, E: Write>(
    alloc: Global,
    net: &N,
    hub: Hub,
    turns: InTurn<'a>,
    errors: &mut E,
) -> Result<u8, Stop<'a>>
where
    N: Net<Listener = TcpListener, Stream = TcpStream> + Clock,
    ensures { EndsListening turns.entry.listen.now None
        (ServeInTurn (hub_view hub) turns.entry.accept) result }
{
    let listener = match listen(net, turns.listen) {
        Ok(listener) => listener,
        Err(stop) => return Err(stop),
    };
    let mut sessions = Sessions::new(alloc, HubHandler::new(hub));
    let limits = Limits::standard();
    match serve_connections(
        alloc,
        net,
        &listener,
        limits,
        turns.accept,
        &mut sessions,
        errors,
    ) {
        Ok(()) => Ok(0),
        Err(outage) => Err(Stop::of_outage(None, outage)),
    }
}

/// Serves so many connections at the address, one after the other over the same registries, and gives the status 0.
/// What ends one of them early is told on `errors`. The registries are judged before the address is.
pub fn serve<'a, N, F: Texts, E: Write>(
    alloc: Global,
    net: &N,
    files: &F,
    setup: Setup<'a>,
    turns: InTurn<'a>,
    errors: &mut E,
) -> Result<u8, Stop<'a>>
where
    N: Net<Listener = TcpListener, Stream = TcpStream> + Clock,
    ensures ends { EndsService (F.is_unreadable files.now) (setup_view setup.entry)
        (Some turns.entry.listen.now) result }
    ensures alone { OnServer (F.text_at files.now) (setup_view setup.entry)
        (λ server. EndsServing turns.entry.listen.now turns.entry.accept server result) }
{
    match new_hub(alloc, files, setup) {
        Ok(hub) => serve_at(alloc, net, hub, turns, errors),
        Err(stop) => Err(stop),
    }
}
