//! The form `scan [--library FILE] [--with PATH].. [--quiet] SCHEMA..`.
ghost use Rattle.std.specs.Prelude.{◌≡◌, IfOk, false};
ghost use Rattle.clap.specs.Words.{app_of, found_of, rows_of};
ghost use Rattle.clap.specs.declared.builder.command.Command.TheViews.{out-Command as fields_of};
ghost use Rattle.command_line.specs.Commands.{scan_command};
ghost use Rattle.command_line.specs.Calls.{asked_scanning, call_view, scan};

use crate::arguments::{flag, several};
use crate::documents::{documents, with_documents};
use crate::values::{is_set, values};
use crate::{Call, Scanning};
use clap::{ArgMatches, Command};
use std::alloc::{AllocError, Global};

const AFTER_HELP: &str =
    "Each file is judged as a server judges a schema that is put, whatever its length, and no two may\n\
    have one URI. Standard output gets its URI, its other resources and its anchors, the references\n\
    that lead nowhere among the files that are given, and as warnings, which don't change the status,\n\
    names that look like a keyword and are none, keywords of older drafts, and formats, which assert\n\
    nothing here.\n\n\
    Status: 0 where nothing is wrong, 1 where a reference leads nowhere, 2 where a file is refused.\n\n\
    Examples:\n  \
      schemareg scan schemas\n  \
      schemareg scan --quiet --with shared schemas/order.json schemas/line.json";

/// The form's own words.
pub(crate) fn command<'a>(alloc: Global) -> Result<Command<'a>, AllocError>
    ensures shape { IfOk result (λ c. app_of c ≡ scan_command) }
    ensures local { IfOk result (λ c. (fields_of c).has_globals ≡ false) }
{
    let quiet = flag(alloc, "quiet", "Print nothing but what is wrong");
    let schemas = several(
        alloc,
        "SCHEMA",
        "A file of a schema, or a folder of such .json files",
    );
    let command = Command::new(alloc, "scan")
        .about("Judges schemas, and tells what they hold and what they refer to")
        .after_help(AFTER_HELP);
    with_documents(alloc, command)?.arg(quiet)?.arg(schemas)
}

/// The call that the form's words spell.
pub(crate) fn call<'a>(alloc: Global, matches: &ArgMatches<'a>) -> Result<Call<'a>, AllocError>
    ensures { IfOk result
        (λ call. call_view call ≡ scan (asked_scanning (rows_of (found_of matches.now)))) }
{
    Ok(Call::Scan {
        scanning: Scanning {
            documents: documents(alloc, matches)?,
            schemas: values(alloc, matches, "SCHEMA")?,
            quiet: is_set(matches, "quiet"),
        },
    })
}
