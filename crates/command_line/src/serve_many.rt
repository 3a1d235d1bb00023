//! The options of `serve` for connections side by side.
ghost use Rattle.std.specs.Prelude.{◌≡◌, IfOk, codes, false};
ghost use Rattle.clap.specs.Words.{app_of, found_of, rows_of, rule_of};
ghost use Rattle.clap.specs.declared.builder.command.Command.TheViews.{out-Command as fields_of};
ghost use Rattle.command_line.specs.Commands.{flag, named_option, number_option, with_limits, with_logging};
ghost use Rattle.command_line.specs.Calls.{asked_limits, asked_logging, limits_view, logging_view};

use crate::arguments::{flag, named};
use crate::values::{given_number, is_set, number_or, optional};
use crate::{Limits, Logging};
use clap::{Arg, ArgMatches, Command, value_parser};
use std::alloc::{AllocError, Global};

/// How many connections are open at most.
const CONNECTIONS: u32 = 1000;

/// After how many seconds without a byte a connection is ended.
const IDLE: u32 = 30;

/// How many bytes all connections keep together.
const MEMORY: u32 = 268_435_456;

/// The option `--connections N`, of how many connections are open at most.
fn connections<'a>(alloc: Global) -> Arg<'a>
    ensures rule { rule_of result ≡ number_option (codes "connections") 1 65536 }
    ensures local { result.global ≡ false }
{
    named(
        alloc,
        "connections",
        "N",
        "How many connections are open at most, from 1 to 65536; further clients wait [default: 1000]",
    )
    .value_parser(value_parser!(u32).range(1..=65536))
}

/// The option `--idle SECONDS`, after which a connection without a byte is ended.
fn idle<'a>(alloc: Global) -> Arg<'a>
    ensures rule { rule_of result ≡ number_option (codes "idle") 1 86400 }
    ensures local { result.global ≡ false }
{
    named(
        alloc,
        "idle",
        "SECONDS",
        "End a connection on which no byte came or went for so long, from 1 to 86400 [default: 30]",
    )
    .value_parser(value_parser!(u32).range(1..=86400))
}

/// The option `--whole SECONDS`, after which each connection is ended.
fn whole<'a>(alloc: Global) -> Arg<'a>
    ensures rule { rule_of result ≡ number_option (codes "whole") 1 604800 }
    ensures local { result.global ≡ false }
{
    named(
        alloc,
        "whole",
        "SECONDS",
        "End each connection so long after its start, from 1 to 604800 [default: never]",
    )
    .value_parser(value_parser!(u32).range(1..=604_800))
}

/// The option `--memory BYTES`, above which no further connection is read.
fn memory<'a>(alloc: Global) -> Arg<'a>
    ensures rule { rule_of result ≡ number_option (codes "memory") 1048576 4294967295 }
    ensures local { result.global ≡ false }
{
    named(
        alloc,
        "memory",
        "BYTES",
        "Read no further connection while the others keep more together, from 1048576 to 4294967295 [default: 268435456]",
    )
    .value_parser(value_parser!(u32).range(1_048_576..=4_294_967_295))
}

/// The command with the options `[--connections N] [--idle SECONDS] [--whole SECONDS] [--memory BYTES]`.
pub(crate) fn with_limits<'a>(
    alloc: Global,
    command: Command<'a>,
) -> Result<Command<'a>, AllocError>
    ensures shape { IfOk result (λ c. app_of c ≡ with_limits (app_of command.entry)) }
    ensures local { (fields_of command.entry).has_globals ≡ false
        → IfOk result (λ c. (fields_of c).has_globals ≡ false) }
{
    command
        .arg(connections(alloc))?
        .arg(idle(alloc))?
        .arg(whole(alloc))?
        .arg(memory(alloc))
}

/// The option `--log FILE`.
fn log<'a>(alloc: Global) -> Arg<'a>
    ensures rule { rule_of result ≡ named_option (codes "log") }
    ensures local { result.global ≡ false }
{
    named(
        alloc,
        "log",
        "FILE",
        "Append the lines of connections and requests to this file, in place of standard error",
    )
}

/// The option `--log-requests`.
fn log_requests<'a>(alloc: Global) -> Arg<'a>
    ensures rule { rule_of result ≡ flag (codes "log-requests") }
    ensures local { result.global ≡ false }
{
    flag(
        alloc,
        "log-requests",
        "Log a line for each request: time, connection, tenant, method, path, status, bytes, microseconds",
    )
}

/// The command with the options `[--log FILE] [--log-requests]`.
pub(crate) fn with_logging<'a>(
    alloc: Global,
    command: Command<'a>,
) -> Result<Command<'a>, AllocError>
    ensures shape { IfOk result (λ c. app_of c ≡ with_logging (app_of command.entry)) }
    ensures local { (fields_of command.entry).has_globals ≡ false
        → IfOk result (λ c. (fields_of c).has_globals ≡ false) }
{
    command.arg(log(alloc))?.arg(log_requests(alloc))
}

/// The limits that the words spell.
pub(crate) fn limits(matches: &ArgMatches<'_>) -> Limits
    ensures { limits_view result ≡ asked_limits (rows_of (found_of matches.now)) }
{
    Limits {
        connections: number_or(matches, "connections", CONNECTIONS),
        idle: number_or(matches, "idle", IDLE),
        whole: given_number(matches, "whole"),
        memory: number_or(matches, "memory", MEMORY),
    }
}

/// Where the words have it told how connections go.
pub(crate) fn logging<'a>(matches: &ArgMatches<'a>) -> Logging<'a>
    ensures { logging_view result ≡ asked_logging (rows_of (found_of matches.now)) }
{
    Logging {
        file: optional(matches, "log"),
        requests: is_set(matches, "log-requests"),
    }
}
