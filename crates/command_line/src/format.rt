//! The option `--format FORMAT`.
ghost use Rattle.std.specs.Prelude.{◌≡◌, ◌&&◌, option_map, is_some};
ghost use Rattle.clap.specs.Words.{found_of, rows_of};
ghost use Rattle.command_line.specs.Calls.{asked_format, format_named, has_no_format};

use crate::Format;
use crate::values::optional;
use clap::ArgMatches;

/// The format with this name, if there is one.
fn format_named(name: &str) -> Option<Format>
    ensures { result ≡ format_named name.now }
{
    match name {
        "text" => Some(Format::Text),
        "json" => Some(Format::Json),
        "github" => Some(Format::Github),
        _ => None,
    }
}

/// The format that the words name, or else text.
pub(crate) fn format(matches: &ArgMatches<'_>) -> Format
    ensures { result ≡ asked_format (rows_of (found_of matches.now)) }
{
    match optional(matches, "format") {
        Some(name) => format_named(name).unwrap_or(Format::Text),
        None => Format::Text,
    }
}

/// A name that the words give and no format has.
pub(crate) fn unknown_format<'a>(matches: &ArgMatches<'a>) -> Option<&'a str>
    ensures { is_some result ≡ has_no_format (rows_of (found_of matches.now)) }
{
    let name = optional(matches, "format")?;
    match format_named(name) {
        Some(_) => None,
        None => Some(name),
    }
}
