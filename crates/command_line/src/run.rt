//! The form `run --tenants FILE [--library FILE] [--store FILE] [--cache N]`.
ghost use Rattle.std.specs.Prelude.{◌≡◌, IfOk, false};
ghost use Rattle.clap.specs.Words.{app_of, found_of, rows_of};
ghost use Rattle.clap.specs.declared.builder.command.Command.TheViews.{out-Command as fields_of};
ghost use Rattle.command_line.specs.Commands.{run_command};
ghost use Rattle.command_line.specs.Calls.{asked_start, call_view, run};

use crate::Call;
use crate::arguments::{cache, over_registries};
use crate::values::setup;
use clap::{ArgMatches, Command};
use std::alloc::{AllocError, Global};

/// The form's own words.
pub(crate) fn command<'a>(alloc: Global) -> Result<Command<'a>, AllocError>
    ensures shape { IfOk result (λ c. app_of c ≡ run_command) }
    ensures local { IfOk result (λ c. (fields_of c).has_globals ≡ false) }
{
    over_registries(
        alloc,
        "run",
        "Serves one HTTP connection on standard input and output",
        "Both files are read before either is judged. Standard input holds requests, and standard\n\
         output gets their replies; the registries end with the connection, unless a store keeps\n\
         their documents.\n\n\
         Status: 0 where the connection ended, also by a reply that closes it, 2 where it couldn't\n\
         be served; standard error then says why.\n\n\
         Examples:\n  \
           schemareg run --tenants tenants.json < requests > replies\n  \
           schemareg run --tenants tenants.json --store documents.sqlite < requests > replies",
    )?
    .arg(cache(alloc))
}

/// The call that the form's words spell.
pub(crate) fn call<'a>(matches: &ArgMatches<'a>) -> Call<'a>
    ensures { call_view result ≡ run (asked_start (rows_of (found_of matches.now))) }
{
    Call::Run {
        setup: setup(matches),
    }
}
