// What the words of the command line mean.

ghost use Rattle.std.specs.Prelude.{◌≡◌, [], map, IfOk, IfErr, MatchOption, None};
ghost use Rattle.clap.specs.Words.{fault_of, found_of, matches_of, rows_of, subcommand_of, subcommand_rows_of};
ghost use Rattle.command_line.specs.CommandWords.{reqlock_app};
ghost use Rattle.command_line.specs.Misuses.{IsMisused, IsUnknownValue, IsWellUsed, unknown_color, unknown_format};
ghost use Rattle.command_line.specs.Requests.{IsFault, IsReadAs, IsRequest, IsUnread};

use crate::command_words::command;
use crate::exclusion::{excluded, missing};
pub use crate::invocation::{
    AskedEdit, Beginning, ColorChoice, DiffRange, EditOptions, Export, ExportFormat, Format,
    InitOptions, Invocation, NewLines, NewTargets, Question, Replacement, Saving, Shown,
    Subcommand, Told, Verbosity,
};
use crate::manner::{color, unknown_color, unknown_format, verbosity};
use crate::misuse::{Misuse, ReadFault, told};
use crate::options::{chosen, option_twice, stray_flag};
use crate::subcommand::read_subcommand;
use crate::usage::fault_of_clap;
pub use crate::usage::{NeededOption, RequestFault};
use clap::ArgMatches;
use std::alloc::Global;
use std::convert::AsStr;

/// What the words of a command line mean, the first of them the program's name.
pub fn request<'a, S: AsStr>(alloc: Global, words: &'a [S]) -> Result<Invocation<'a>, RequestFault>
    ensures request { IfOk result (IsRequest (map S.text words.entry.now)) }
    ensures fault { IfErr result (IsFault (map S.text words.entry.now)) }
{
    let before = read_words(alloc, words)?;
    let Some((name, behind)) = before.subcommand() else {
        let cause = ReadFault::Misused(Misuse::NoSubcommand);
        return Err(told(alloc, &cause));
    };
    match read_invocation(alloc, &before, name, behind) {
        Ok(invocation) => Ok(invocation),
        Err(cause) => Err(told(alloc, &cause)),
    }
}

/// The request of a subcommand, with what stands before it and behind it.
fn read_invocation<'a>(
    alloc: Global,
    before: &ArgMatches<'a>,
    name: &str,
    behind: &ArgMatches<'a>,
) -> Result<Invocation<'a>, ReadFault<'a>>
    ensures read { IfOk result (IsReadAs (rows_of (found_of before.now)) name.now
        (rows_of (found_of behind.now))) }
    ensures unread { IfErr result (IsUnread (rows_of (found_of before.now)) name.now
        (rows_of (found_of behind.now))) }
{
    if let Some(misuse) = first_misuse(before, name, behind) {
        return Err(ReadFault::Misused(misuse));
    }
    Ok(Invocation {
        dir: chosen(before, behind, "dir").unwrap_or("."),
        verbosity: verbosity(before, behind),
        color: color(before, behind),
        subcommand: read_subcommand(alloc, name, before, behind)?,
    })
}

/// The first misuse of an argument.
fn first_misuse<'a>(
    before: &ArgMatches<'a>,
    name: &str,
    behind: &ArgMatches<'a>,
) -> Option<Misuse<'a>>
    ensures misuse { MatchOption result
        (IsWellUsed (rows_of (found_of before.now)) name.now (rows_of (found_of behind.now)))
        (IsMisused (rows_of (found_of before.now)) name.now (rows_of (found_of behind.now))) }
{
    if let Some(shown) = option_twice(before, behind) {
        return Some(Misuse::Twice(shown));
    }
    if let Some(shown) = stray_flag(before, name) {
        return Some(Misuse::Stray(shown));
    }
    if let Some(shown) = excluded(before, behind) {
        return Some(Misuse::Excluded(shown));
    }
    if let Some(shown) = missing(name, behind) {
        return Some(Misuse::Lacks(shown));
    }
    unknown_value(before, behind)
}

/// The first value that an option doesn't know.
fn unknown_value<'a>(before: &ArgMatches<'a>, behind: &ArgMatches<'a>) -> Option<Misuse<'a>>
    ensures unknown { MatchOption result
        ((unknown_color (rows_of (found_of before.now)) (rows_of (found_of behind.now)) ≡ None)
        × (unknown_format (rows_of (found_of behind.now)) ≡ None))
        (IsUnknownValue (rows_of (found_of before.now)) (rows_of (found_of behind.now))) }
{
    if let Some(value) = unknown_color(before, behind) {
        return Some(Misuse::NoValue(value, "--color <WHEN>", "auto, always, never"));
    }
    match unknown_format(behind) {
        Some(value) => Some(Misuse::NoValue(value, "--format <FORMAT>", "hashes, dot, pylock")),
        None => None,
    }
}

fn read_words<'a, S: AsStr>(alloc: Global, words: &'a [S]) -> Result<ArgMatches<'a>, RequestFault>
    ensures read { IfOk result (λ m. fault_of reqlock_app (map S.text words.entry.now) ≡ []) }
    ensures rows { IfOk result (λ m.
        rows_of (found_of m) ≡ matches_of reqlock_app (map S.text words.entry.now)) }
    ensures subcommand { IfOk result (λ m.
        subcommand_rows_of m ≡ subcommand_of reqlock_app (map S.text words.entry.now)) }
    ensures fault { IfErr result (IsFault (map S.text words.entry.now)) }
{
    match command(alloc)?.try_get_matches_from(words) {
        Ok(matches) => Ok(matches),
        Err(error) => Err(fault_of_clap(error)),
    }
}
