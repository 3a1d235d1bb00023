//! The arguments that the forms have in common.
ghost use Rattle.std.specs.Prelude.{◌≡◌, IfOk, false, codes};
ghost use Rattle.clap.specs.Words.{app_of, rule_of};
ghost use Rattle.clap.specs.declared.builder.command.Command.TheViews.{out-Command as fields_of};
ghost use Rattle.command_line.specs.Commands.{cache_option, flag, named_option, over_registries, required_option, required_text, required_texts};

use clap::{Arg, ArgAction, Command, value_parser};
use std::alloc::{AllocError, Global};

const TENANTS: &str =
    "The tenants: {\"tenants\":[{\"key\":\"shop\",\"documents\":100,\"bytes\":1000000}]}";

const LIBRARY: &str =
    "Documents for all tenants: {\"put\":[{\"uri\":\"https://example.com/s\",\"schema\":{}}]}";

const STORE: &str = "The file in which the documents are kept; it is made where there is none";

/// A word that has to be there.
pub(crate) fn required<'a>(alloc: Global, id: &'a str, help: &'a str) -> Arg<'a>
    ensures rule { rule_of result ≡ required_text id.now }
    ensures local { result.global ≡ false }
{
    Arg::new(alloc, id)
        .required(true)
        .action(ArgAction::Set)
        .help(help)
}

/// A word that stands there once or more.
pub(crate) fn several<'a>(alloc: Global, id: &'a str, help: &'a str) -> Arg<'a>
    ensures rule { rule_of result ≡ required_texts id.now }
    ensures local { result.global ≡ false }
{
    required(alloc, id, help).action(ArgAction::Append)
}

/// The option `--id NAME`.
pub(crate) fn named<'a>(alloc: Global, id: &'a str, name: &'a str, help: &'a str) -> Arg<'a>
    ensures rule { rule_of result ≡ named_option id.now }
    ensures local { result.global ≡ false }
{
    Arg::new(alloc, id)
        .long(id)
        .value_name(name)
        .action(ArgAction::Set)
        .help(help)
}

/// The option `--id`.
pub(crate) fn flag<'a>(alloc: Global, id: &'a str, help: &'a str) -> Arg<'a>
    ensures rule { rule_of result ≡ flag id.now }
    ensures local { result.global ≡ false }
{
    Arg::new(alloc, id)
        .long(id)
        .action(ArgAction::SetTrue)
        .help(help)
}

/// The option `--tenants FILE`.
fn tenants<'a>(alloc: Global) -> Arg<'a>
    ensures rule { rule_of result ≡ required_option (codes "tenants") }
    ensures local { result.global ≡ false }
{
    named(alloc, "tenants", "FILE", TENANTS).required(true)
}

/// The option `--library FILE`.
fn library<'a>(alloc: Global) -> Arg<'a>
    ensures rule { rule_of result ≡ named_option (codes "library") }
    ensures local { result.global ≡ false }
{
    named(alloc, "library", "FILE", LIBRARY)
}

/// The option `--store FILE`.
fn store<'a>(alloc: Global) -> Arg<'a>
    ensures rule { rule_of result ≡ named_option (codes "store") }
    ensures local { result.global ≡ false }
{
    named(alloc, "store", "FILE", STORE)
}

/// The option `--cache N`, of how many compiled documents are kept at most.
pub(crate) fn cache<'a>(alloc: Global) -> Arg<'a>
    ensures rule { rule_of result ≡ cache_option }
    ensures local { result.global ≡ false }
{
    named(
        alloc,
        "cache",
        "N",
        "How many compiled documents are kept at most, from 1 to 4096",
    )
    .value_parser(value_parser!(u32).range(1..=4096))
    .default_value("256")
}

/// A command with this name whose registries come from files: `--tenants FILE [--library FILE] [--store FILE]`.
pub(crate) fn over_registries<'a>(
    alloc: Global,
    name: &'a str,
    about: &'a str,
    after_help: &'a str,
) -> Result<Command<'a>, AllocError>
    ensures shape { IfOk result (λ c. app_of c ≡ over_registries name.now) }
    ensures local { IfOk result (λ c. (fields_of c).has_globals ≡ false) }
{
    Command::new(alloc, name)
        .about(about)
        .after_help(after_help)
        .arg(tenants(alloc))?
        .arg(library(alloc))?
        .arg(store(alloc))
}
