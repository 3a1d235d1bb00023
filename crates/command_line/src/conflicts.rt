//! Words that exclude one another.
ghost use Rattle.std.specs.Prelude.{◌≡◌, ◌&&◌, ◌∷◌, [], IfOk, if◌then◌else◌, codes, is_some};
ghost use Rattle.std.specs.Str.{bytes_eq};
ghost use Rattle.clap.specs.Words.{FailsBy, found_of, kind_of, rows_of, subcommand_rows_of};
ghost use Rattle.command_line.specs.Calls.{are_for_many, are_in_conflict, conflict_in, conflict_of};
ghost use Rattle.command_line.specs.Conflicts.{conflict_kind, kinds_of};

use crate::format::unknown_format;
use crate::values::{given_number, is_set, optional};
use crate::{check, serve};
use clap::error::ErrorKind;
use clap::{ArgMatches, Error};
use std::alloc::{AllocError, Global};

/// The first option that is for connections side by side alone, as help writes it.
fn for_many(matches: &ArgMatches<'_>) -> Option<&'static str>
    ensures { is_some result ≡ are_for_many (rows_of (found_of matches.now)) }
{
    if optional(matches, "connections").is_some() {
        return Some("--connections <N>");
    }
    if optional(matches, "idle").is_some() {
        return Some("--idle <SECONDS>");
    }
    if optional(matches, "whole").is_some() {
        return Some("--whole <SECONDS>");
    }
    if optional(matches, "memory").is_some() {
        return Some("--memory <BYTES>");
    }
    if optional(matches, "log").is_some() {
        return Some("--log <FILE>");
    }
    if is_set(matches, "log-requests") {
        return Some("--log-requests");
    }
    None
}

/// The first option that may not stand beside `--accept`, where that is given.
fn beside_accept(matches: &ArgMatches<'_>) -> Option<&'static str>
    ensures { is_some result ≡ are_in_conflict (rows_of (found_of matches.now)) }
{
    match given_number(matches, "accept") {
        None => None,
        Some(_) => for_many(matches),
    }
}

/// What is wrong with the words of a form, beside what `clap` says of them.
#[derive(Drop)]
enum Conflict<'a> {
    /// The option may not stand beside `--accept`.
    BesideAccept(&'static str),
    /// There is no format with this name.
    NoFormat(&'a str),
}

/// What is wrong with the words of the form with this name.
fn in_form<'a>(name: &str, matches: &ArgMatches<'a>) -> Option<Conflict<'a>>
    ensures { conflict_in name.now (rows_of (found_of matches.now)) ≡ kinds_of result }
{
    match name {
        "serve" => beside_accept(matches).map(|option| Conflict::BesideAccept(option)),
        "check" => unknown_format(matches).map(|name| Conflict::NoFormat(name)),
        _ => None,
    }
}

/// What is wrong with the words of the form that was given, beside what `clap` says of them.
fn found<'a>(matches: &ArgMatches<'a>) -> Option<Conflict<'a>>
    ensures { conflict_of (subcommand_rows_of matches.now) ≡ kinds_of result }
{
    match matches.subcommand() {
        None => None,
        Some((name, inner)) => in_form(name, inner),
    }
}

/// That the option may not stand beside `--accept`.
fn beside_accept_error(alloc: Global, option: &str) -> Result<Error, AllocError>
    ensures { IfOk result (λ e. kind_of e ≡ ErrorKind.ArgumentConflict) }
{
    let message = format!(in alloc; "the argument '--accept <N>' cannot be used with '{option}'")?;
    let mut command = serve::command(alloc)?.bin_name("schemareg serve")?;
    command.error(ErrorKind::ArgumentConflict, message.as_str())
}

/// That there is no format with this name.
fn format_error(alloc: Global, name: &str) -> Result<Error, AllocError>
    ensures { IfOk result (λ e. kind_of e ≡ ErrorKind.InvalidValue) }
{
    let message = format!(in alloc;
        "invalid value '{name}' for '--format <FORMAT>'\n  [possible values: text, json, github]"
    )?;
    let mut command = check::command(alloc)?.bin_name("schemareg check")?;
    command.error(ErrorKind::InvalidValue, message.as_str())
}

/// The error of what is wrong.
fn error(alloc: Global, conflict: &Conflict<'_>) -> Result<Error, AllocError>
    ensures { IfOk result (λ e. kind_of e ≡ conflict_kind conflict.now) }
{
    match conflict {
        Conflict::BesideAccept(option) => beside_accept_error(alloc, option),
        Conflict::NoFormat(name) => format_error(alloc, name),
    }
}

/// An error where words exclude one another, or name what there isn't.
pub(crate) fn refuse(alloc: Global, matches: &ArgMatches<'_>) -> Result<(), Error>
    ensures { FailsBy (conflict_of (subcommand_rows_of matches.now)) result }
{
    match found(matches) {
        None => Ok(()),
        Some(conflict) => Err(error(alloc, &conflict)?),
    }
}
