//! The values that the words gave to an argument.
ghost use Rattle.std.specs.Prelude.{◌≡◌, IfOk, map, option_map};
ghost use Rattle.clap.specs.Words.{first_of, found_of, rows_of};
ghost use Rattle.command_line.specs.Calls.{asked_start, given_number, is_set, number_or, setup_view, value_of, values_of};

use crate::Setup;
use clap::ArgMatches;
use std::alloc::{AllocError, Global};

/// The first value of the argument `id`, which has one by the command's own rules. An argument
/// without a value reads as the empty text.
pub(crate) fn value<'a>(matches: &ArgMatches<'a>, id: &str) -> &'a str
    ensures { result.now ≡ value_of id.now (rows_of (found_of matches.now)) }
{
    matches.get_str(id).unwrap_or("")
}

/// The first value of the argument `id`, if it has one.
pub(crate) fn optional<'a>(matches: &ArgMatches<'a>, id: &str) -> Option<&'a str>
    ensures { option_map (λ s. s.now) result ≡ first_of id.now (rows_of (found_of matches.now)) }
{
    matches.get_str(id)
}

/// All values of the argument `id`.
pub(crate) fn values<'a>(
    alloc: Global,
    matches: &ArgMatches<'a>,
    id: &str,
) -> Result<Vec<&'a str>, AllocError>
    ensures { IfOk result (λ values. map (λ s. s.now) values.items
        ≡ values_of id.now (rows_of (found_of matches.now))) }
{
    match matches.get_strs(id) {
        Some(values) => values.to_vec(alloc),
        None => Ok(Vec::new(alloc)),
    }
}

/// Whether the words set the flag `id`.
pub(crate) fn is_set(matches: &ArgMatches<'_>, id: &str) -> bool
    ensures { result ≡ is_set id.now (rows_of (found_of matches.now)) }
{
    match optional(matches, id) {
        None => false,
        Some(text) => text == "true",
    }
}

/// The number that the argument `id` has, if any.
pub(crate) fn given_number(matches: &ArgMatches<'_>, id: &str) -> Option<u32>
    ensures { result ≡ given_number id.now (rows_of (found_of matches.now)) }
{
    matches.get_one::<u32>(id)
}

/// The number that the argument `id` has, or else `other`.
pub(crate) fn number_or(matches: &ArgMatches<'_>, id: &str, other: u32) -> u32
    ensures { result ≡ number_or other id.now (rows_of (found_of matches.now)) }
{
    given_number(matches, id).unwrap_or(other)
}

/// What the registries of `run` and of `serve` start from.
pub(crate) fn setup<'a>(matches: &ArgMatches<'a>) -> Setup<'a>
    ensures { setup_view result ≡ asked_start (rows_of (found_of matches.now)) }
{
    Setup {
        tenants: value(matches, "tenants"),
        library: optional(matches, "library"),
        store: optional(matches, "store"),
        cache: number_or(matches, "cache", 0),
    }
}
