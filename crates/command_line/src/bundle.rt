//! The form `bundle [--uri URI] [--library FILE] [--with PATH].. [--out FILE] SCHEMA`.
ghost use Rattle.std.specs.Prelude.{◌≡◌, IfOk, false};
ghost use Rattle.clap.specs.Words.{app_of, found_of, rows_of};
ghost use Rattle.clap.specs.declared.builder.command.Command.TheViews.{out-Command as fields_of};
ghost use Rattle.command_line.specs.Commands.{bundle_command};
ghost use Rattle.command_line.specs.Calls.{asked_bundling, bundle, call_view};

use crate::arguments::{named, required};
use crate::documents::{documents, over_documents};
use crate::values::{optional, value};
use crate::{Bundling, Call};
use clap::{ArgMatches, Command};
use std::alloc::{AllocError, Global};

const AFTER_HELP: &str =
    "The bundle is the schema with each document that it refers to in its $defs, under that document's\n\
    URI and with it as $id; no reference is changed. It says of each instance what the schema says\n\
    beside these documents.\n\n\
    Status: 0 where the bundle is written, 2 where there is none; standard error then says why.\n\n\
    Examples:\n  \
      schemareg bundle --with schemas schemas/order.json > order.bundle.json\n  \
      schemareg bundle --library library.json --out order.bundle.json schemas/order.json";

/// The form's own words.
pub(crate) fn command<'a>(alloc: Global) -> Result<Command<'a>, AllocError>
    ensures shape { IfOk result (λ c. app_of c ≡ bundle_command) }
    ensures local { IfOk result (λ c. (fields_of c).has_globals ≡ false) }
{
    let out = named(
        alloc,
        "out",
        "FILE",
        "The file that gets the bundle, in place of standard output",
    );
    over_documents(
        alloc,
        "bundle",
        "Puts a schema and all that it refers to into one document",
        AFTER_HELP,
    )?
    .arg(out)?
    .arg(required(alloc, "SCHEMA", "The file of the schema"))
}

/// The call that the form's words spell.
pub(crate) fn call<'a>(alloc: Global, matches: &ArgMatches<'a>) -> Result<Call<'a>, AllocError>
    ensures { IfOk result
        (λ call. call_view call ≡ bundle (asked_bundling (rows_of (found_of matches.now)))) }
{
    Ok(Call::Bundle {
        bundling: Bundling {
            documents: documents(alloc, matches)?,
            uri: optional(matches, "uri"),
            schema: value(matches, "SCHEMA"),
            out: optional(matches, "out"),
        },
    })
}
