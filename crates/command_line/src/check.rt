//! The form `check`.
ghost use Rattle.std.specs.Prelude.{◌≡◌, IfOk, codes, false, map, option_map};
ghost use Rattle.clap.specs.Words.{app_of, found_of, rows_of};
ghost use Rattle.clap.specs.declared.builder.command.Command.TheViews.{out-Command as fields_of};
ghost use Rattle.command_line.specs.Commands.{check_command, check_options};
ghost use Rattle.command_line.specs.Calls.{asked_check, asked_checks, call_view, check_many, has_more_options, one_file, values_of};

use crate::arguments::{flag, named, required, several};
use crate::documents::{documents, over_documents};
use crate::format::format;
use crate::values::{is_set, optional, value, values};
use crate::{Call, Checks};
use clap::{ArgMatches, Command};
use std::alloc::{AllocError, Global};

const DEFAULT_URI: &str = "urn:schemareg:root";

const AFTER_HELP: &str =
    "One file without other options: both files are read before either is judged, and standard\n\
    output gets the Basic output of JSON Schema 2020-12 as one line.\n\n\
    Else each instance is told by --format: as text, a line for each cause, PATH:LINE:COLUMN first;\n\
    as json, a line of JSON for each instance; as github, annotations of a workflow. References lead\n\
    to the schema itself, to the documents of --library, and to each .json file of --with, which\n\
    stands under its own $id, or else under its file: URI.\n\n\
    Status: 0 where all instances are valid, 1 where one isn't, 2 where there is no answer for one;\n\
    standard error then says why, and the others are answered.\n\n\
    Examples:\n  \
      schemareg check --uri https://example.com/order order.schema.json order.json\n  \
      schemareg check --with schemas schemas/order.json orders\n  \
      schemareg check --lines --quiet order.schema.json orders.ndjson\n  \
      schemareg check --format github --with schemas schemas/order.json orders\n  \
      curl https://example.com/orders/1 | schemareg check order.schema.json -";

/// The form's options.
fn options<'a>(alloc: Global) -> Result<Command<'a>, AllocError>
    ensures shape { IfOk result (λ c. app_of c ≡ check_options) }
    ensures local { IfOk result (λ c. (fields_of c).has_globals ≡ false) }
{
    let lines = flag(alloc, "lines", "Take each line of a file as an instance");
    let format = named(
        alloc,
        "format",
        "FORMAT",
        "What is printed of each instance: text, json or github",
    );
    let quiet = flag(alloc, "quiet", "Print nothing but what is wrong");
    over_documents(alloc, "check", "Checks instances by a schema", AFTER_HELP)?
        .arg(lines)?
        .arg(format)?
        .arg(quiet)
}

/// The form's own words.
pub(crate) fn command<'a>(alloc: Global) -> Result<Command<'a>, AllocError>
    ensures shape { IfOk result (λ c. app_of c ≡ check_command) }
    ensures local { IfOk result (λ c. (fields_of c).has_globals ≡ false) }
{
    let schema = required(alloc, "SCHEMA", "The file of the schema");
    let instance = several(
        alloc,
        "INSTANCE",
        "A file of an instance, a folder of them, or - for standard input",
    );
    options(alloc)?.arg(schema)?.arg(instance)
}

/// Whether an option is given that a check of one file hasn't.
fn has_more_options(matches: &ArgMatches<'_>) -> bool
    ensures { result ≡ has_more_options (rows_of (found_of matches.now)) }
{
    optional(matches, "library").is_some()
        || optional(matches, "with").is_some()
        || is_set(matches, "lines")
        || optional(matches, "format").is_some()
        || is_set(matches, "quiet")
}

/// The one file that is the instance of a check as it always was.
fn one_file<'a>(instances: &[&'a str]) -> Option<&'a str>
    ensures { option_map (λ s. s.now) result ≡ one_file (map (λ s. s.now) instances.now) }
{
    match instances {
        [instance] if *instance != "-" => Some(instance),
        _ => None,
    }
}

/// The call that the form's words spell.
pub(crate) fn call<'a>(alloc: Global, matches: &ArgMatches<'a>) -> Result<Call<'a>, AllocError>
    ensures { IfOk result
        (λ call. call_view call ≡ asked_check (rows_of (found_of matches.now))) }
{
    let instances = values(alloc, matches, "INSTANCE")?;
    match one_file(&instances) {
        Some(instance) if !has_more_options(matches) => Ok(Call::Check {
            uri: optional(matches, "uri").unwrap_or(DEFAULT_URI),
            schema: value(matches, "SCHEMA"),
            instance,
        }),
        _ => several_checks(alloc, matches, instances),
    }
}

/// The call of checks of these instances.
fn several_checks<'a>(
    alloc: Global,
    matches: &ArgMatches<'a>,
    instances: Vec<&'a str>,
) -> Result<Call<'a>, AllocError>
    requires { map (λ s. s.now) instances.items
        ≡ values_of (codes "INSTANCE") (rows_of (found_of matches.now)) }
    ensures { IfOk result (λ call. call_view call
        ≡ check_many (asked_checks (rows_of (found_of matches.now)))) }
{
    Ok(Call::CheckMany {
        checks: Checks {
            documents: documents(alloc, matches)?,
            uri: optional(matches, "uri"),
            schema: value(matches, "SCHEMA"),
            instances,
            lines: is_set(matches, "lines"),
            format: format(matches),
            quiet: is_set(matches, "quiet"),
        },
    })
}
