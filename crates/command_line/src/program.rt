//! The program's own words, and the call that a command line spells.
ghost use Rattle.std.specs.Prelude.{◌≡◌, [], ◌∷◌, IfOk, false, map};
ghost use Rattle.clap.specs.Words.{FailsBy, app_of, fault_of, found_of, rows_of, subcommand_of, subcommand_rows_of};
ghost use Rattle.command_line.specs.Calls.{Asked, Means, asked_call, asked_form, call_of, call_view, faults_of};
ghost use Rattle.command_line.specs.Commands.{program, program_of_files, versioned_program};
ghost use Rattle.clap.specs.declared.builder.command.Command.TheViews.{out-Command as fields_of};
ghost use Rattle.command_line.specs.Forms.{Asks, IsCall, Spells};

use crate::{Call, bundle, check, conflicts, run, scan, serve};
use clap::error::ErrorKind;
use clap::{ArgMatches, Command, Error};
use std::alloc::{AllocError, Global};
use std::convert::AsStr;

/// The program with its version and what it is in a line, without its forms.
fn named<'a>(alloc: Global) -> Command<'a>
    ensures shape { app_of result ≡ versioned_program }
    ensures local { (fields_of result).has_globals ≡ false }
{
    Command::new(alloc, "schemareg")
        .version("0.1.0")
        .about("A registry, validator and bundler for JSON Schema 2020-12")
        .after_help(
            "Without a command, standard input holds one check: {\"schema\": .., \"instance\": .., \"uri\": ..},\n\
             where \"uri\" may be left out.\n\n\
             Examples:\n  \
               schemareg check schema.json instance.json\n  \
               schemareg check --with schemas schemas/order.json orders\n  \
               schemareg bundle --with schemas schemas/order.json\n  \
               schemareg scan schemas\n  \
               echo '{\"schema\": {\"type\": \"string\"}, \"instance\": 5}' | schemareg\n  \
               schemareg serve --tenants tenants.json --listen 127.0.0.1:8080\n\n\
             In the sources, docs/PROFILE.md tells which schemas are read and what is refused, docs/LIMITS.md\n\
             what the limits are, and docs/HTTP.md what requests are answered.",
        )
}

/// The program with the forms that judge files.
fn for_files<'a>(alloc: Global) -> Result<Command<'a>, AllocError>
    ensures shape { IfOk result (λ c. app_of c ≡ program_of_files) }
    ensures local { IfOk result (λ c. (fields_of c).has_globals ≡ false) }
{
    let check = check::command(alloc)?;
    let bundle = bundle::command(alloc)?;
    let scan = scan::command(alloc)?;
    named(alloc)
        .subcommand(check)?
        .subcommand(bundle)?
        .subcommand(scan)
}

/// The program with all its forms.
fn command<'a>(alloc: Global) -> Result<Command<'a>, AllocError>
    ensures { IfOk result (λ c. app_of c ≡ program) }
{
    let run = run::command(alloc)?;
    let serve = serve::command(alloc)?;
    for_files(alloc)?.subcommand(run)?.subcommand(serve)
}

/// What `clap` finds in `words`.
fn matches<'a, S: AsStr>(alloc: Global, words: &'a [S]) -> Result<ArgMatches<'a>, Error>
    ensures ok { IfOk result
        (λ m. subcommand_rows_of m ≡ subcommand_of program (map S.text words.now)) }
    ensures err { FailsBy (fault_of program (map S.text words.now)) result }
{
    command(alloc)?.try_get_matches_from(words)
}

/// The call that the words of the form with this name spell.
fn call_of_form<'a>(
    alloc: Global,
    name: &str,
    matches: &ArgMatches<'a>,
) -> Result<Call<'a>, AllocError>
    ensures { IfOk result
        (λ call. call_view call ≡ asked_form name.now (rows_of (found_of matches.now))) }
{
    match name {
        "run" => Ok(run::call(matches)),
        "serve" => Ok(serve::call(matches)),
        "bundle" => bundle::call(alloc, matches),
        "scan" => scan::call(alloc, matches),
        _ => check::call(alloc, matches),
    }
}

/// The call of the form that was found, if any.
fn call<'a>(alloc: Global, matches: &ArgMatches<'a>) -> Result<Call<'a>, AllocError>
    ensures { IfOk result (λ call. call_view call ≡ asked_call (subcommand_rows_of matches.now)) }
{
    match matches.subcommand() {
        None => Ok(Call::Input),
        Some((name, inner)) => call_of_form(alloc, name, inner),
    }
}

/// The call that `words` spell. The first word is the program's own name.
///
/// An error is `clap`'s: its text, its stream and its status say what is to be printed and how the
/// program ends, for a mistake in the words as for a request for help or for the version.
pub fn read<'a, S: AsStr>(alloc: Global, words: &'a [S]) -> Result<Call<'a>, Error>
    ensures forms { (call : Asked) → Spells (map S.text words.now) call → IsCall call result }
    ensures requests { (kind : ErrorKind) → Asks (map S.text words.now) kind
        → FailsBy (kind ∷ []) result }

    // Of any words, by `clap`'s own definitions; beside those, some words exclude one another.
    ensures calls { (call : Asked) → Means (map S.text words.now) call → IsCall call result }
    ensures ok { IfOk result (λ call. call_view call ≡ call_of (map S.text words.now)) }
    ensures err { FailsBy (faults_of (map S.text words.now)) result }
{
    let found = matches(alloc, words)?;
    conflicts::refuse(alloc, &found)?;
    Ok(call(alloc, &found)?)
}
