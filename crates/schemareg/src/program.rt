//! The program, by the form of its command line.
ghost use Rattle.std.specs.Prelude.{◌≡◌, ◌≤◌, ◌⊎◌, None, Ok, Some, true, IfOk, map};
ghost use Rattle.std.specs.List.{list_any};
ghost use Rattle.std.specs.Process.{exit_status};
ghost use Rattle.command_line.specs.Calls.{Asked, Means, call_view, faults_of, setup_view};
ghost use Rattle.command_line.specs.Forms.{Asks};
ghost use Rattle.service_forms.specs.Endings.{EndsReading, EndsService, ReadsInOrder, address_of, files_in, is_service, names_of};
ghost use Rattle.service_forms.specs.Services.{EndsRun, EndsServing, EndsServingMany, OnRun, OnStart, RunsWith};
ghost use Rattle.service_forms.specs.Stops.{AreMistakes, IsFoundIn, StopsBy, is_error, status_of};
ghost use Rattle.service_forms.specs.Stored.{EndsAsked, EndsStoredMany, EndsStoredRun, EndsStoredServing, RunsStoredWith};
ghost use Rattle.schemareg.specs.Answers.{EndsBy, EndsWith, OnCheck};
ghost use Rattle.schemareg.specs.Folders.{CarriedOut, is_folder_in};
ghost use Rattle.schemareg.specs.Forms.{EndsFormIfRoom, EndsFormWithIfRoom, OnForm};

use crate::file_system::{FileSystem, Terminals};
use crate::folders::Named;
use crate::forms::Forms;
use crate::terminal::Terminal;
use crate::{checking, folders, printing, reading};
use clap::error::ErrorKind;
use command_line::{Call, Setup};
use service_forms::service::{self, InTurn};
use service_forms::side_by_side::{self, Service};
use service_forms::{Logs, Stop, Stores, Texts, stored};
use serving::{ByteReader, ByteWriter, Recorded};
use std::alloc::Global;
use std::convert::AsStr;
use std::io::{Read, Write};
use std::net::{Net, TcpListener, TcpStream};
use std::process::ExitCode;
use std::time::Clock;

/// Runs the program on its words, and gives its status.
pub fn run<O, E>(
    rt: &HostRuntime,
    console: &mut Terminal<'_, HostRuntime, O, E>,
    terminals: Terminals,
) -> ExitCode
where
    O: Write + ByteWriter,
    E: Write + ByteWriter,
    ensures { exit_status result ≤ 2 }
{
    let files = FileSystem { rt, terminals };
    match reading::words(rt) {
        Ok(words) => answer(
            rt.alloc(),
            words.as_slice(),
            &files,
            rt,
            &mut Recorded::new(rt.reader()),
            console,
        ),
        Err(stop) => ExitCode::from(tell(console, &stop)),
    }
}

/// Runs the program on these words, the program's own name first, and gives its status.
fn answer<S: AsStr, F: Texts + Logs + Forms + Stores, N, I, O, E>(
    alloc: Global,
    words: &[S],
    files: &F,
    net: &N,
    input: &mut I,
    console: &mut Terminal<'_, N, O, E>,
) -> ExitCode
where
    N: Net<Listener = TcpListener, Stream = TcpStream> + Clock,
    I: Read + ByteReader,
    O: Write + ByteWriter,
    E: Write + ByteWriter,
    ensures calls { (call : Asked) → Means (map S.text words.now) call
        → OnCheck (F.text_at files.now) (I.remaining input.old) call
        (λ check. EndsWith check (O.writes console.old.output.stream) (exit_status result)
        (O.writes console.new.output.stream)) }
    ensures ran { (call : Asked) → Means (map S.text words.now) call
        → OnRun (F.text_at files.now) call
        (λ server. RunsWith server (I.reads input.old) (O.writes console.old.output.stream)
        (exit_status result) (I.reads input.new) (O.writes console.new.output.stream))
        (λ path server. RunsStoredWith path F.Store.recovers server (I.reads input.old)
        (O.writes console.old.output.stream) (exit_status result) (I.reads input.new)
        (O.writes console.new.output.stream)) }
    ensures alone { (call : Asked) → Means (map S.text words.now) call → exit_status result ≡ 0
        → EndsAsked F.Store.recovers (F.text_at files.now) call (Ok 0) }
    ensures unread { (call : Asked) → Means (map S.text words.now) call
        → CarriedOut (is_folder_in (F.text_at files.now) (F.is_unreadable files.now)
        (F.folder_at files.now)) call
        (λ c. (list_any (F.is_unreadable files.now) (files_in c) ≡ true → exit_status result ≡ 2)
        × OnForm (F.disk files.now) (I.remaining input.old) (I.remaining input.new) c (λ Ends.
        EndsFormWithIfRoom Ends (O.writes console.old.output.stream) (exit_status result)
        (O.writes console.new.output.stream))) }
    ensures served { (call : Asked) → Means (map S.text words.now) call
        → is_service call ≡ true → (exit_status result ≡ 0) ⊎ (exit_status result ≡ 2) }
    ensures requests { (kind : ErrorKind) → Asks (map S.text words.now) kind
        → (exit_status result ≡ 0) ⊎ (exit_status result ≡ 2) }
    ensures mistakes { AreMistakes (faults_of (map S.text words.now))
        → exit_status result ≡ 2 }
    ensures status { exit_status result ≤ 2 }
{
    let mut place = None;
    match obey(alloc, words, files, net, input, console, &mut place) {
        Ok(status) => ExitCode::from(status),
        Err(stop) => ExitCode::from(explain(files, console, &stop, place.as_deref())),
    }
}

/// Prints why there is no report, and at a terminal what would mend it and where, and gives the status.
fn explain<F: Forms, C: Clock, O: Write, E: Write + ByteWriter>(
    files: &F,
    console: &mut Terminal<'_, C, O, E>,
    stop: &Stop<'_>,
    place: Option<&str>,
) -> u8
    ensures error { is_error stop.now ≡ true
        → (result ≡ 2) × (console.new.output.stream ≡ console.old.output.stream) }
    ensures status { (result ≡ status_of stop.now) ⊎ (result ≡ 2) }
{
    let status = tell(console, stop);
    if files.is_terminal() {
        printing::sentence(&mut console.errors, stop, place);
    }
    status
}

/// Prints why there is no report, and gives the status.
fn tell<C: Clock, O: Write, E: Write + ByteWriter>(
    console: &mut Terminal<'_, C, O, E>,
    stop: &Stop<'_>,
) -> u8
    ensures error { is_error stop.now ≡ true
        → (result ≡ 2) × (console.new.output.stream ≡ console.old.output.stream) }
    ensures status { (result ≡ status_of stop.now) ⊎ (result ≡ 2) }
{
    printing::explain(&mut console.output.stream, &mut console.errors, stop)
}

/// Carries out the call that the words spell, and gives the status. Where a text is refused, `place` tells where, if that is
/// known.
fn obey<'a, S: AsStr, F: Texts + Logs + Forms + Stores, N, I, O: Write + ByteWriter, E: Write>(
    alloc: Global,
    words: &'a [S],
    files: &F,
    net: &N,
    input: &mut I,
    console: &mut Terminal<'_, N, O, E>,
    place: &mut Option<String>,
) -> Result<u8, Stop<'a>>
where
    N: Net<Listener = TcpListener, Stream = TcpStream> + Clock,
    I: Read + ByteReader,
    ensures calls { (call : Asked) → Means (map S.text words.now) call
        → OnCheck (F.text_at files.now) (I.remaining input.old) call
        (λ check. EndsBy check (O.writes console.old.output.stream) result
        (O.writes console.new.output.stream)) }
    ensures ran { (call : Asked) → Means (map S.text words.now) call
        → OnRun (F.text_at files.now) call
        (λ server. EndsRun server (I.reads input.old) (O.writes console.old.output.stream) result
        (I.reads input.new) (O.writes console.new.output.stream))
        (λ path server. EndsStoredRun path F.Store.recovers server (I.reads input.old)
        (O.writes console.old.output.stream) result (I.reads input.new)
        (O.writes console.new.output.stream)) }
    ensures alone { (call : Asked) → Means (map S.text words.now) call
        → EndsAsked F.Store.recovers (F.text_at files.now) call result }
    ensures served { (call : Asked) → Means (map S.text words.now) call
        → is_service call ≡ true → IfOk result (λ status. status ≡ 0) }
    ensures requests { (kind : ErrorKind) → Asks (map S.text words.now) kind
        → StopsBy kind result }
    ensures reading { (call : Asked) → Means (map S.text words.now) call
        → CarriedOut (is_folder_in (F.text_at files.now) (F.is_unreadable files.now)
        (F.folder_at files.now)) call
        (λ c. EndsReading (names_of c) (address_of c) result) }
    ensures order { (call : Asked) → Means (map S.text words.now) call
        → CarriedOut (is_folder_in (F.text_at files.now) (F.is_unreadable files.now)
        (F.folder_at files.now)) call
        (λ c. ReadsInOrder (F.is_unreadable files.now) (files_in c) result
        × OnForm (F.disk files.now) (I.remaining input.old) (I.remaining input.new) c (λ Ends.
        EndsFormIfRoom Ends (O.writes console.old.output.stream) result
        (O.writes console.new.output.stream))) }
    ensures found { IsFoundIn (faults_of (map S.text words.now)) result }
    ensures status { IfOk result (λ status. status ≤ 1) }
{
    let call = command_line::read(alloc, words)?;
    carry_out(alloc, call, files, net, input, console, place)
}

/// Carries out the call, as [`obey`] does.
fn carry_out<'a, F: Texts + Logs + Forms + Stores, N, I, O: Write + ByteWriter, E: Write>(
    alloc: Global,
    call: Call<'a>,
    files: &F,
    net: &N,
    input: &mut I,
    console: &mut Terminal<'_, N, O, E>,
    place: &mut Option<String>,
) -> Result<u8, Stop<'a>>
where
    N: Net<Listener = TcpListener, Stream = TcpStream> + Clock,
    I: Read + ByteReader,
    ensures ends { OnCheck (F.text_at files.now) (I.remaining input.old) (call_view call.entry)
        (λ check. EndsBy check (O.writes console.old.output.stream) result
        (O.writes console.new.output.stream)) }
    ensures ran { OnRun (F.text_at files.now) (call_view call.entry)
        (λ server. EndsRun server (I.reads input.old) (O.writes console.old.output.stream) result
        (I.reads input.new) (O.writes console.new.output.stream))
        (λ path server. EndsStoredRun path F.Store.recovers server (I.reads input.old)
        (O.writes console.old.output.stream) result (I.reads input.new)
        (O.writes console.new.output.stream)) }
    ensures alone { EndsAsked F.Store.recovers (F.text_at files.now) (call_view call.entry) result }
    ensures order { CarriedOut (is_folder_in (F.text_at files.now) (F.is_unreadable files.now)
        (F.folder_at files.now)) (call_view call.entry)
        (λ c. ReadsInOrder (F.is_unreadable files.now) (files_in c) result
        × OnForm (F.disk files.now) (I.remaining input.old) (I.remaining input.new) c (λ Ends.
        EndsFormIfRoom Ends (O.writes console.old.output.stream) result
        (O.writes console.new.output.stream))) }
    ensures reading { CarriedOut (is_folder_in (F.text_at files.now) (F.is_unreadable files.now)
        (F.folder_at files.now)) (call_view call.entry)
        (λ c. EndsReading (names_of c) (address_of c) result) }
    ensures served { is_service (call_view call.entry) ≡ true → IfOk result (λ status. status ≡ 0) }
{
    match call {
        Call::Input => checking::check_input(alloc, input, &mut console.output.stream, place),
        Call::Check {
            uri,
            schema,
            instance,
        } => {
            let named = Named {
                uri,
                schema,
                instance,
            };
            folders::check(alloc, files, named, input, console, place)
        }
        Call::CheckMany { checks } => files.check_many(&checks, input, console),
        Call::Bundle { bundling } => files.bundle(&bundling, console),
        Call::Scan { scanning } => files.scan(&scanning, console),
        Call::Run { setup } => {
            run_connection(alloc, files, setup, input, &mut console.output.stream)
        }
        Call::Serve {
            setup,
            listen,
            accept,
        } => {
            let turns = InTurn { listen, accept };
            serve_in_turn(alloc, net, files, setup, turns, &mut console.errors)
        }
        Call::ServeMany {
            setup,
            listen,
            limits,
            logging,
        } => {
            let service = Service {
                listen,
                limits,
                logging,
            };
            serve_side_by_side(alloc, net, files, setup, service, &mut console.errors)
        }
    }
}

/// Serves one connection, in memory or over a store.
fn run_connection<'a, F: Texts + Stores, I: ByteReader, O: ByteWriter>(
    alloc: Global,
    files: &F,
    setup: Setup<'a>,
    input: &mut I,
    out: &mut O,
) -> Result<u8, Stop<'a>>
    ensures ends { EndsService (F.is_unreadable files.now) (setup_view setup.entry) None result }
    ensures ran { OnStart (F.text_at files.now) (setup_view setup.entry)
        (λ server. EndsRun server (I.reads input.old) (O.writes out.old) result
        (I.reads input.new) (O.writes out.new))
        (λ path server. EndsStoredRun path F.Store.recovers server (I.reads input.old)
        (O.writes out.old) result (I.reads input.new) (O.writes out.new)) }
{
    match setup.store {
        None => service::run(alloc, files, setup, input, out),
        Some(path) => stored::run(alloc, files, setup, path, input, out),
    }
}

/// Serves connections one after the other, in memory or over a store.
fn serve_in_turn<'a, N, F: Texts + Stores, E: Write>(
    alloc: Global,
    net: &N,
    files: &F,
    setup: Setup<'a>,
    turns: InTurn<'a>,
    errors: &mut E,
) -> Result<u8, Stop<'a>>
where
    N: Net<Listener = TcpListener, Stream = TcpStream> + Clock,
    ensures ends { EndsService (F.is_unreadable files.now) (setup_view setup.entry)
        (Some turns.entry.listen.now) result }
    ensures alone { OnStart (F.text_at files.now) (setup_view setup.entry)
        (λ server. EndsServing turns.entry.listen.now turns.entry.accept server result)
        (λ path server. EndsStoredServing path F.Store.recovers turns.entry.listen.now
        turns.entry.accept server result) }
{
    match setup.store {
        None => service::serve(alloc, net, files, setup, turns, errors),
        Some(path) => stored::serve(alloc, net, files, setup, path, turns, errors),
    }
}

/// Serves connections side by side, in memory or over a store.
fn serve_side_by_side<'a, N, F: Texts + Logs + Stores, E: Write>(
    alloc: Global,
    net: &N,
    files: &F,
    setup: Setup<'a>,
    service: Service<'a>,
    errors: &mut E,
) -> Result<u8, Stop<'a>>
where
    N: Net<Listener = TcpListener, Stream = TcpStream> + Clock,
    ensures ends { EndsService (F.is_unreadable files.now) (setup_view setup.entry)
        (Some service.entry.listen.now) result }
    ensures alone { OnStart (F.text_at files.now) (setup_view setup.entry)
        (λ server. EndsServingMany service.entry.listen.now server result)
        (λ path server. EndsStoredMany path F.Store.recovers service.entry.listen.now
        server result) }
{
    match setup.store {
        None => side_by_side::serve(alloc, net, files, setup, service, errors),
        Some(path) => stored::serve_many(alloc, net, files, setup, path, service, errors),
    }
}
