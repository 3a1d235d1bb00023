//! The form `serve --tenants FILE [--library FILE] [--store FILE] --listen ADDR [--accept N] [--cache N]`, with limits and a
//! log where `--accept` is left out.
ghost use Rattle.std.specs.Prelude.{◌≡◌, IfOk, false, codes};
ghost use Rattle.clap.specs.Words.{app_of, found_of, rows_of, rule_of};
ghost use Rattle.clap.specs.declared.builder.command.Command.TheViews.{out-Command as fields_of};
ghost use Rattle.command_line.specs.Commands.{number_option, required_option, serve_at_address, serve_command};
ghost use Rattle.command_line.specs.Calls.{asked_service, call_view};

use crate::Call;
use crate::arguments::{cache, named, over_registries};
use crate::serve_many::{limits, logging, with_limits, with_logging};
use crate::values::{given_number, setup, value};
use clap::{Arg, ArgMatches, Command, value_parser};
use std::alloc::{AllocError, Global};

const AFTER_HELP: &str =
    "Both files are read before either is judged. With --store a change is answered once it would survive\n\
    a crash, and the documents are there at the next start; without it they are in memory alone, and\n\
    end with the program. Standard output gets nothing. What ends a connection early is told on\n\
    standard error as 'connection <k>: <name>', and the others are served.\n\n\
    Without --accept connections are served side by side. Standard error gets 'listening on <address>'\n\
    at first, also of a port that the system chose for 0, and at the end how many connections, requests\n\
    and refusals there were. The end comes with that of standard input, where it is a pipe, or when a\n\
    terminal there hangs up (not by Ctrl-D): no further client is taken then, and each connection ends\n\
    once all that came whole is answered.\n\n\
    With --accept a client that neither sends nor takes a byte for 30 seconds is let go, and each one\n\
    5 minutes after it was accepted.\n\n\
    Status: 0 at the end, 2 where nothing can be served at the address; standard error then says why.\n\n\
    Examples:\n  \
      schemareg serve --tenants tenants.json --listen 127.0.0.1:8080\n  \
      schemareg serve --tenants tenants.json --store documents.sqlite --listen 127.0.0.1:8080\n  \
      schemareg serve --tenants tenants.json --listen '[::1]:0' --connections 5000 --idle 60 --log log --log-requests\n  \
      schemareg serve --tenants tenants.json --listen 127.0.0.1:8080 --accept 1000";

/// The option `--listen ADDR`.
fn listen<'a>(alloc: Global) -> Arg<'a>
    ensures rule { rule_of result ≡ required_option (codes "listen") }
    ensures local { result.global ≡ false }
{
    named(
        alloc,
        "listen",
        "ADDR",
        "An IP address and a port, as 127.0.0.1:8080",
    )
    .required(true)
}

/// The option `--accept N`, of how many connections are served one after the other.
fn accept<'a>(alloc: Global) -> Arg<'a>
    ensures rule { rule_of result ≡ number_option (codes "accept") 1 65536 }
    ensures local { result.global ≡ false }
{
    named(
        alloc,
        "accept",
        "N",
        "Serve so many connections, one after the other, from 1 to 65536",
    )
    .value_parser(value_parser!(u32).range(1..=65536))
}

/// The form's words without its limits, its log and its cache.
fn at_address<'a>(alloc: Global) -> Result<Command<'a>, AllocError>
    ensures shape { IfOk result (λ c. app_of c ≡ serve_at_address) }
    ensures local { IfOk result (λ c. (fields_of c).has_globals ≡ false) }
{
    over_registries(
        alloc,
        "serve",
        "Serves HTTP connections at an address, side by side or one after the other",
        AFTER_HELP,
    )?
    .arg(listen(alloc))?
    .arg(accept(alloc))
}

/// The form's own words.
pub(crate) fn command<'a>(alloc: Global) -> Result<Command<'a>, AllocError>
    ensures shape { IfOk result (λ c. app_of c ≡ serve_command) }
    ensures local { IfOk result (λ c. (fields_of c).has_globals ≡ false) }
{
    let command = with_limits(alloc, at_address(alloc)?)?;
    with_logging(alloc, command)?.arg(cache(alloc))
}

/// The call that the form's words spell.
pub(crate) fn call<'a>(matches: &ArgMatches<'a>) -> Call<'a>
    ensures { call_view result ≡ asked_service (rows_of (found_of matches.now)) }
{
    let setup = setup(matches);
    let listen = value(matches, "listen");
    match given_number(matches, "accept") {
        Some(accept) => Call::Serve {
            setup,
            listen,
            accept,
        },
        None => Call::ServeMany {
            setup,
            listen,
            limits: limits(matches),
            logging: logging(matches),
        },
    }
}
