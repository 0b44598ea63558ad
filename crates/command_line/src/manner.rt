// How much is told, and in which colors.

ghost use Rattle.std.specs.Prelude.{◌≡◌};
ghost use Rattle.clap.specs.Words.{found_of, rows_of};
ghost use Rattle.command_line.specs.Misuses.{color_values, format_values, unknown_color, unknown_format};
ghost use Rattle.command_line.specs.Options.{is_among, text_of};
ghost use Rattle.command_line.specs.Subcommands.{color_named, color_of, verbosity_of};

use crate::invocation::{ColorChoice, Verbosity};
use crate::options::{chosen, is_flagged, value};
use clap::ArgMatches;

/// How much is told.
pub(crate) fn verbosity(before: &ArgMatches<'_>, behind: &ArgMatches<'_>) -> Verbosity
    ensures { result ≡ verbosity_of (rows_of (found_of before.now)) (rows_of (found_of behind.now)) }
{
    if is_flagged(before, behind, "quiet") {
        Verbosity::Quiet
    } else if is_flagged(before, behind, "verbose") {
        Verbosity::Verbose
    } else {
        Verbosity::Usual
    }
}

/// When colors are used; where the value is unknown, as where none is given.
pub(crate) fn color<'a>(before: &ArgMatches<'a>, behind: &ArgMatches<'a>) -> ColorChoice
    ensures { result ≡ color_of (rows_of (found_of before.now)) (rows_of (found_of behind.now)) }
{
    match chosen(before, behind, "color") {
        Some(value) => color_named(value),
        None => ColorChoice::Auto,
    }
}

fn color_named(value: &str) -> ColorChoice
    ensures { result ≡ color_named value.now }
{
    match value {
        "always" => ColorChoice::Always,
        "never" => ColorChoice::Never,
        _ => ColorChoice::Auto,
    }
}

/// A value of `--color` that isn't known.
pub(crate) fn unknown_color<'a>(before: &ArgMatches<'a>, behind: &ArgMatches<'a>) -> Option<&'a str>
    ensures { text_of result ≡ unknown_color (rows_of (found_of before.now))
        (rows_of (found_of behind.now)) }
{
    let Some(value) = chosen(before, behind, "color") else {
        return None;
    };
    if is_color(value) { None } else { Some(value) }
}

fn is_color(value: &str) -> bool
    ensures { result ≡ is_among color_values value.now }
{
    matches!(value, "auto" | "always" | "never")
}

/// A value of `--format` that isn't known.
pub(crate) fn unknown_format<'a>(behind: &ArgMatches<'a>) -> Option<&'a str>
    ensures { text_of result ≡ unknown_format (rows_of (found_of behind.now)) }
{
    let Some(value) = value(behind, "format") else {
        return None;
    };
    if is_format(value) { None } else { Some(value) }
}

fn is_format(value: &str) -> bool
    ensures { result ≡ is_among format_values value.now }
{
    matches!(value, "hashes" | "dot" | "pylock")
}
