// The options of the command line, which stand before the subcommand or behind it.

ghost use Rattle.std.specs.Prelude.{◌≡◌, ◌++◌, is_some, IfOk, map};
ghost use Rattle.clap.specs.Words.{all_of, first_of, found_of, rows_of};
ghost use Rattle.command_line.specs.Marks.{first_marked};
ghost use Rattle.command_line.specs.Misuses.{stray_marks, twice_marks};
ghost use Rattle.command_line.specs.Options.{all_chosen, chosen, dry_run_takers, has_flag, is_among, is_flag_twice, is_flagged, is_stray, is_twice, json_takers, keep_locked_takers, text_of, texts_of, values_in};

use crate::marks::first_marked;
use clap::ArgMatches;
use lists::{Seq, Text};
use std::alloc::{AllocError, Global};

/// The value of an option or of a text.
pub(crate) fn value<'a>(matches: &ArgMatches<'a>, id: &str) -> Option<&'a str>
    ensures { text_of result ≡ first_of id.now (rows_of (found_of matches.now)) }
{
    matches.get_str(id)
}

/// Whether an option or a text has a value.
pub(crate) fn has_value(matches: &ArgMatches<'_>, id: &str) -> bool
    ensures { result ≡ is_some (first_of id.now (rows_of (found_of matches.now))) }
{
    value(matches, id).is_some()
}

/// The value of an option that may stand before the subcommand or behind it.
pub(crate) fn chosen<'a>(
    before: &ArgMatches<'a>,
    behind: &ArgMatches<'a>,
    option: &str,
) -> Option<&'a str>
    ensures { text_of result ≡ chosen (rows_of (found_of before.now)) (rows_of (found_of behind.now))
        option.now }
{
    value(behind, option).or(value(before, option))
}

/// The values of an option or of a text.
pub(crate) fn values<'m, 'a: 'm>(matches: &'m ArgMatches<'a>, id: &str) -> Option<&'m [&'a str]>
    ensures { texts_of result ≡ all_of id.now (rows_of (found_of matches.now)) }
{
    matches.get_strs(id)
}

/// Copies of the values of an option, behind others; none where it isn't given.
pub(crate) fn with_values(
    alloc: Global,
    front: Vec<Text>,
    matches: &ArgMatches<'_>,
    id: &str,
) -> Result<Vec<Text>, AllocError>
    ensures { IfOk result (λ copies.
        copies.items ≡ front.items ++ values_in (rows_of (found_of matches.now)) id.now) }
{
    match values(matches, id) {
        Some(texts) => with_copies(alloc, front, texts),
        None => Ok(front),
    }
}

/// The values of an option before the subcommand and behind it, in the order of the words.
pub(crate) fn all_chosen(
    alloc: Global,
    before: &ArgMatches<'_>,
    behind: &ArgMatches<'_>,
    option: &str,
) -> Result<Seq<Text>, AllocError>
    ensures { IfOk result (λ chosen. chosen ≡ all_chosen (rows_of (found_of before.now))
        (rows_of (found_of behind.now)) option.now) }
{
    let front = with_values(alloc, Vec::new(alloc), before, option)?;
    let chosen = with_values(alloc, front, behind, option)?;
    Ok(Seq::from_vec(chosen))
}

/// Whether a flag is given.
pub(crate) fn has_flag(matches: &ArgMatches<'_>, flag: &str) -> bool
    ensures { result ≡ has_flag (rows_of (found_of matches.now)) flag.now }
{
    match value(matches, flag) {
        Some(value) => value == "true",
        None => false,
    }
}

/// Whether a flag is given, before the subcommand or behind it.
pub(crate) fn is_flagged(before: &ArgMatches<'_>, behind: &ArgMatches<'_>, flag: &str) -> bool
    ensures { result ≡ is_flagged (rows_of (found_of before.now))
        (rows_of (found_of behind.now)) flag.now }
{
    has_flag(before, flag) || has_flag(behind, flag)
}

/// The option that stands in both places, as help shows it.
pub(crate) fn option_twice(before: &ArgMatches<'_>, behind: &ArgMatches<'_>) -> Option<&'static str>
    ensures { text_of result ≡ first_marked (twice_marks (rows_of (found_of before.now))
        (rows_of (found_of behind.now))) }
{
    first_marked(&[
        ("--dir <DIR>", is_twice(before, behind, "dir")),
        ("--index <FILE>", is_twice(before, behind, "index")),
        (
            "--keep-locked",
            is_flag_twice(before, behind, "keep-locked"),
        ),
        ("--dry-run", is_flag_twice(before, behind, "dry-run")),
        ("--json", is_flag_twice(before, behind, "json")),
        ("--verbose", is_flag_twice(before, behind, "verbose")),
        ("--quiet", is_flag_twice(before, behind, "quiet")),
        ("--color <WHEN>", is_twice(before, behind, "color")),
    ])
}

/// The flag that stands before a subcommand which doesn't take it, as help shows it.
pub(crate) fn stray_flag(before: &ArgMatches<'_>, subcommand: &str) -> Option<&'static str>
    ensures { text_of result ≡ first_marked
        (stray_marks (rows_of (found_of before.now)) subcommand.now) }
{
    first_marked(&[
        (
            "--keep-locked",
            is_stray(before, "keep-locked", takes_keep_locked(subcommand)),
        ),
        (
            "--dry-run",
            is_stray(before, "dry-run", takes_dry_run(subcommand)),
        ),
        ("--json", is_stray(before, "json", takes_json(subcommand))),
    ])
}

/// Whether a flag stands before a subcommand, which doesn't take it.
fn is_stray(before: &ArgMatches<'_>, flag: &str, is_taken: bool) -> bool
    ensures { result ≡ is_stray (rows_of (found_of before.now)) flag.now is_taken }
{
    has_flag(before, flag) && !is_taken
}

fn takes_keep_locked(subcommand: &str) -> bool
    ensures { result ≡ is_among keep_locked_takers subcommand.now }
{
    matches!(
        subcommand,
        "add"
            | "remove"
            | "constrain"
            | "upgrade"
            | "relock"
            | "replace"
            | "retarget"
            | "batch"
            | "why"
    )
}

/// Whether a subcommand takes `--dry-run`.
pub fn takes_dry_run(subcommand: &str) -> bool
    ensures { result ≡ is_among dry_run_takers subcommand.now }
{
    matches!(
        subcommand,
        "init"
            | "add"
            | "remove"
            | "constrain"
            | "upgrade"
            | "relock"
            | "replace"
            | "retarget"
            | "undo"
            | "redo"
            | "forget"
    )
}

fn takes_json(subcommand: &str) -> bool
    ensures { result ≡ is_among json_takers subcommand.now }
{
    matches!(subcommand, "show" | "log" | "diff" | "check" | "outdated")
}

/// Whether an option stands in both places.
fn is_twice(before: &ArgMatches<'_>, behind: &ArgMatches<'_>, option: &str) -> bool
    ensures { result ≡ is_twice (rows_of (found_of before.now)) (rows_of (found_of behind.now)) option.now }
{
    has_value(before, option) && has_value(behind, option)
}

/// Whether a flag does.
fn is_flag_twice(before: &ArgMatches<'_>, behind: &ArgMatches<'_>, flag: &str) -> bool
    ensures { result ≡ is_flag_twice (rows_of (found_of before.now))
        (rows_of (found_of behind.now)) flag.now }
{
    has_flag(before, flag) && has_flag(behind, flag)
}

/// Copies of the texts.
pub(crate) fn copies(alloc: Global, texts: &[&str]) -> Result<Seq<Text>, AllocError>
    ensures { IfOk result (λ copies. copies ≡ map (λ n. n.now) texts.now) }
{
    let copies = with_copies(alloc, Vec::new(alloc), texts)?;
    Ok(Seq::from_vec(copies))
}

/// Copies of the texts, behind others.
fn with_copies(alloc: Global, front: Vec<Text>, texts: &[&str]) -> Result<Vec<Text>, AllocError>
    ensures { IfOk result (λ copies.
        copies.items ≡ front.items ++ map (λ n. n.now) texts.now) }
{
    let mut copies = front;
    for text in texts {
        copies.push(Text::copy_of(alloc, text)?)?;
    }
    Ok(copies)
}
