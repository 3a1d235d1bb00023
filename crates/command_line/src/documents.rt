//! The documents that references run over, beside what is judged: `[--library FILE] [--with PATH]..`.
ghost use Rattle.std.specs.Prelude.{◌≡◌, IfOk, false, codes};
ghost use Rattle.clap.specs.Words.{app_of, found_of, rows_of, rule_of};
ghost use Rattle.clap.specs.declared.builder.command.Command.TheViews.{out-Command as fields_of};
ghost use Rattle.command_line.specs.Commands.{named_option, over_documents, repeated_option, with_documents};
ghost use Rattle.command_line.specs.Calls.{asked_documents, documents_view};

use crate::Documents;
use crate::arguments::named;
use crate::values::{optional, values};
use clap::{Arg, ArgAction, ArgMatches, Command};
use std::alloc::{AllocError, Global};

const LIBRARY: &str =
    "Documents that references lead to: {\"put\":[{\"uri\":\"https://example.com/s\",\"schema\":{}}]}";

const WITH: &str = "A document that references lead to, or a folder of such .json files; may stand \
    there more than once";

const URI: &str =
    "The URI that the schema stands under [default: urn:schemareg:root, and with --with \
    the file's own]";

/// The option `--with PATH`.
fn with_path<'a>(alloc: Global) -> Arg<'a>
    ensures rule { rule_of result ≡ repeated_option (codes "with") }
    ensures local { result.global ≡ false }
{
    named(alloc, "with", "PATH", WITH).action(ArgAction::Append)
}

/// The command with its options of documents.
pub(crate) fn with_documents<'a>(
    alloc: Global,
    command: Command<'a>,
) -> Result<Command<'a>, AllocError>
    ensures shape { IfOk result (λ c. app_of c ≡ with_documents (app_of command.entry)) }
    ensures local { (fields_of command.entry).has_globals ≡ false
        → IfOk result (λ c. (fields_of c).has_globals ≡ false) }
{
    command
        .arg(named(alloc, "library", "FILE", LIBRARY))?
        .arg(with_path(alloc))
}

/// A command with this name that judges by a schema over documents.
pub(crate) fn over_documents<'a>(
    alloc: Global,
    name: &'a str,
    about: &'a str,
    after_help: &'a str,
) -> Result<Command<'a>, AllocError>
    ensures shape { IfOk result (λ c. app_of c ≡ over_documents name.now) }
    ensures local { IfOk result (λ c. (fields_of c).has_globals ≡ false) }
{
    let command = Command::new(alloc, name)
        .about(about)
        .after_help(after_help)
        .arg(named(alloc, "uri", "URI", URI))?;
    with_documents(alloc, command)
}

/// What the words say of documents.
pub(crate) fn documents<'a>(
    alloc: Global,
    matches: &ArgMatches<'a>,
) -> Result<Documents<'a>, AllocError>
    ensures { IfOk result
        (λ documents. documents_view documents ≡ asked_documents (rows_of (found_of matches.now))) }
{
    Ok(Documents {
        library: optional(matches, "library"),
        paths: values(alloc, matches, "with")?,
    })
}
