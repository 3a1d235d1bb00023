//! The forms that serve connections, over a store of documents.
ghost use Rattle.std.specs.Prelude.{◌≡◌, List, None, Option, Some, true, IfOk, IfErr, IsErr, IsErrAnd};
ghost use Rattle.definitions.specs.Values.{Text};
ghost use Rattle.command_line.specs.Calls.{setup_view};
ghost use Rattle.http_front.specs.Stored.{FindsThese};
ghost use Rattle.service_forms.specs.Endings.{EndsListening, EndsReading, EndsService, ReadsInOrder, StopsReading, files_of};
ghost use Rattle.service_forms.specs.Services.{OnServer, OnStanding};
ghost use Rattle.service_forms.specs.Stored.{EndsStoredMany, EndsStoredRun, EndsStoredServing, HasRestored, IsRefusedStore, IsUnserved, RunsKept, ServeStoredInTurn};
ghost use Rattle.stored_rows.specs.Restoring.{emptied};
ghost use Rattle.tenant_hub.specs.Hubs.{hub_view};

use crate::files::{Logs, Texts};
use crate::service::{InTurn, listen, new_hub};
use crate::side_by_side::{Service, serve_at};
use crate::stop::Stop;
use crate::store_stop::StoreStop;
use crate::stores::Stores;
use command_line::Setup;
use connections::Handler;
use document_file::OpenFault;
use http_front::{Failure, Hub, Sessions, serve_stored_connection};
use serving::{ByteReader, ByteWriter};
use sockets::{Limits, serve_connections};
use std::alloc::Global;
use std::io::Write;
use std::net::{Net, TcpListener, TcpStream};
use std::time::Clock;
use stored_hub::{DocumentStore, StoredHub, Unsettled};

/// Why a file isn't opened whose store couldn't be settled once.
fn opening_fault(unsettled: Unsettled) -> OpenFault {
    match unsettled {
        Unsettled::NoRoom => OpenFault::NoRoom,
        Unsettled::Full => OpenFault::Full,
        Unsettled::Failed | Unsettled::Behind => OpenFault::Failed,
    }
}

/// The registries with the documents that the store at the path has.
fn restore<'a, D: DocumentStore + Drop>(
    alloc: Global,
    hub: Hub,
    store: D,
    path: &'a str,
) -> Result<StoredHub<D>, StoreStop<'a>>
    requires empty { emptied (hub_view hub) ≡ hub_view hub }
    ensures ok { IfOk result (λ h. HasRestored (hub_view hub) (hub_view h.hub)) }
    ensures found { IfOk result (λ h. FindsThese D.recovers h.store (hub_view h.hub)) }
    ensures err { IfErr result (IsRefusedStore path.now (hub_view hub)) }
{
    match stored_hub::open(alloc, hub, store) {
        Err((refusal, _store)) => Err(StoreStop::Unrestored(path, refusal)),
        Ok(mut hub) => match hub.settle() {
            Ok(()) => Ok(hub),
            Err(unsettled) => Err(StoreStop::Unopened(path, opening_fault(unsettled))),
        },
    }
}

/// The registries of what the files of a service hold, with the documents that the store at the path has. The registries
/// are judged before the store is opened.
fn open_hub<'a, F: Texts + Stores>(
    alloc: Global,
    files: &F,
    setup: Setup<'a>,
    path: &'a str,
) -> Result<StoredHub<F::Store>, Stop<'a>>
    ensures ok { IfOk result (λ h. OnServer (F.text_at files.now) (setup_view setup.entry)
        (λ server. OnStanding server (λ ks. HasRestored ks (hub_view h.hub)))) }
    ensures found { IfOk result (λ h. FindsThese F.Store.recovers h.store (hub_view h.hub)) }
    ensures err { IfErr result (λ stop. OnServer (F.text_at files.now) (setup_view setup.entry)
        (λ server. IsUnserved path.now server stop)) }
    ensures reading { (address : Option Text)
        → IfErr result (StopsReading (files_of (setup_view setup.entry)) address) }
    ensures order { ReadsInOrder (F.is_unreadable files.now) (files_of (setup_view setup.entry))
        result }
    ensures shut { F.is_shut files.now path.now ≡ true → IsErr result }
{
    let hub = match new_hub(alloc, files, setup) {
        Ok(hub) => hub,
        Err(stop) => return Err(stop),
    };
    match files.open_store(path) {
        Err(fault) => Err(Stop::Store(StoreStop::Unopened(path, fault))),
        Ok(store) => match restore(alloc, hub, store, path) {
            Ok(hub) => Ok(hub),
            Err(stop) => Err(Stop::Store(stop)),
        },
    }
}

/// Serves one connection by these registries, and gives the status 0 where it ended without a fault.
fn run_over<'a, D: DocumentStore + Drop, R: ByteReader, W: ByteWriter>(
    alloc: Global,
    hub: StoredHub<D>,
    path: &'a str,
    reader: &mut R,
    writer: &mut W,
) -> Result<u8, Stop<'a>>
    requires found { FindsThese D.recovers hub.store (hub_view hub.hub) }
    ensures reading { (names : List Text) → EndsReading names None result }
    ensures status { IfOk result (λ status. status ≡ 0) }
    ensures ran { RunsKept path.now D.recovers (hub_view hub.hub) (R.reads reader.old)
        (W.writes writer.old) result (R.reads reader.new) (W.writes writer.new) }
{
    let (mut hub, served) = serve_stored_connection(alloc, hub, reader, writer);
    match served {
        Err(Failure::Unsettled(unsettled)) => {
            Err(Stop::Store(StoreStop::Unsettled(path, unsettled)))
        }
        Err(Failure::Fault(fault)) => {
            hub.close();
            Err(Stop::Refused(fault))
        }
        Ok(()) => {
            hub.close();
            Ok(0)
        }
    }
}

/// Serves one connection from `reader` to `writer` over the store at the path, and gives the status 0 where it ended without
/// a fault.
pub fn run<'a, F: Texts + Stores, R: ByteReader, W: ByteWriter>(
    alloc: Global,
    files: &F,
    setup: Setup<'a>,
    path: &'a str,
    reader: &mut R,
    writer: &mut W,
) -> Result<u8, Stop<'a>>
    ensures ends { EndsService (F.is_unreadable files.now) (setup_view setup.entry) None result }
    ensures shut { F.is_shut files.now path.now ≡ true
        → IsErrAnd result (StopsReading (files_of (setup_view setup.entry)) None) }
    ensures kept { OnServer (F.text_at files.now) (setup_view setup.entry)
        (λ server. EndsStoredRun path.now F.Store.recovers server (R.reads reader.old)
        (W.writes writer.old) result (R.reads reader.new) (W.writes writer.new)) }
{
    match open_hub(alloc, files, setup, path) {
        Ok(hub) => run_over(alloc, hub, path, reader, writer),
        Err(stop) => Err(stop),
    }
}

/// Serves so many connections at the address, one after the other by these registries, and gives the status 0.
fn serve_in_turn<'a, N, D: DocumentStore + Drop, E: Write>(
    alloc: Global,
    net: &N,
    hub: StoredHub<D>,
    path: &'a str,
    turns: InTurn<'a>,
    errors: &mut E,
) -> Result<u8, Stop<'a>>
where
    N: Net<Listener = TcpListener, Stream = TcpStream> + Clock,
    requires found { FindsThese D.recovers hub.store (hub_view hub.hub) }
    ensures { EndsListening turns.entry.listen.now (Some path.now)
        (ServeStoredInTurn D.recovers (hub_view hub.hub) turns.entry.accept) result }
{
    let listener = match listen(net, turns.listen) {
        Ok(listener) => listener,
        Err(stop) => return Err(stop),
    };
    let mut sessions = Sessions::new(alloc, hub);
    let limits = Limits::standard();
    match serve_connections(
        alloc,
        net,
        &listener,
        limits,
        turns.accept,
        &mut sessions,
        errors,
    ) {
        Ok(()) => {
            let mut hub = sessions.into_handler();
            hub.close();
            Ok(0)
        }
        Err(outage) => Err(Stop::of_outage(Some(path), outage)),
    }
}

/// Serves so many connections at the address, one after the other over the store at the path, and gives the status 0. The
/// store is opened before the address is listened at.
pub fn serve<'a, N, F: Texts + Stores, E: Write>(
    alloc: Global,
    net: &N,
    files: &F,
    setup: Setup<'a>,
    path: &'a str,
    turns: InTurn<'a>,
    errors: &mut E,
) -> Result<u8, Stop<'a>>
where
    N: Net<Listener = TcpListener, Stream = TcpStream> + Clock,
    ensures ends { EndsService (F.is_unreadable files.now) (setup_view setup.entry)
        (Some turns.entry.listen.now) result }
    ensures shut { F.is_shut files.now path.now ≡ true
        → IsErrAnd result (StopsReading (files_of (setup_view setup.entry)) None) }
    ensures kept { OnServer (F.text_at files.now) (setup_view setup.entry)
        (λ server. EndsStoredServing path.now F.Store.recovers turns.entry.listen.now
        turns.entry.accept server result) }
{
    match open_hub(alloc, files, setup, path) {
        Ok(hub) => serve_in_turn(alloc, net, hub, path, turns, errors),
        Err(stop) => Err(stop),
    }
}

/// Serves connections at the address side by side over the store at the path, until standard input ends, where that is a
/// pipe, and gives the status 0. The store is opened before the log is and the address is listened at.
pub fn serve_many<'a, N, F: Texts + Logs + Stores, E: Write>(
    alloc: Global,
    net: &N,
    files: &F,
    setup: Setup<'a>,
    path: &'a str,
    service: Service<'a>,
    errors: &mut E,
) -> Result<u8, Stop<'a>>
where
    N: Net<Listener = TcpListener, Stream = TcpStream> + Clock,
    ensures ends { EndsService (F.is_unreadable files.now) (setup_view setup.entry)
        (Some service.entry.listen.now) result }
    ensures shut { F.is_shut files.now path.now ≡ true
        → IsErrAnd result (StopsReading (files_of (setup_view setup.entry)) None) }
    ensures kept { OnServer (F.text_at files.now) (setup_view setup.entry)
        (λ server. EndsStoredMany path.now F.Store.recovers service.entry.listen.now
        server result) }
{
    match open_hub(alloc, files, setup, path) {
        Ok(hub) => serve_at(alloc, net, files, hub, Some(path), service, errors),
        Err(stop) => Err(stop),
    }
}
