// A subcommand with the texts and the files that it was given.

ghost use Rattle.std.specs.Prelude.{◌≡◌, ◌≢◌, codes, true, IfErr, IfOk, MatchOption, Some};
ghost use Rattle.std.specs.List.{AllByRecursion};
ghost use Rattle.clap.specs.Words.{found_of, rows_of};
ghost use Rattle.command_line.specs.Options.{has_flag, json_takers};
ghost use Rattle.command_line.specs.Subcommands.{HasEditOptions, HasInitOptions, IsSubcommand, IsChecked, IsExport, IsNewTargets, IsPlace, IsRange, IsShown, export_format_of, format_named, format_of, index_of, saving_of, told_of};
ghost use Rattle.command_line.specs.UsageFaults.{HasNoPlace, IsLacking, IsNoNumber, LacksIndex, LacksInput};

use crate::beginning::read_beginning;
use crate::edit_words::read_asked_edit;
use crate::invocation::{
    DiffRange, EditOptions, Export, ExportFormat, Format, InitOptions, NewTargets, Saving, Shown,
    Subcommand, Told,
};
use crate::misuse::{Misuse, ReadFault};
use crate::options::{all_chosen, chosen, has_flag, is_flagged, value};
use crate::question::read_question;
use crate::replacement::{read_pins, values_of};
use crate::usage::NeededOption;
use clap::ArgMatches;
use std::alloc::{AllocError, Global};

/// The subcommand of this name, with what stands before it and behind it.
pub(crate) fn read_subcommand<'a>(
    alloc: Global,
    name: &str,
    before: &ArgMatches<'a>,
    behind: &ArgMatches<'a>,
) -> Result<Subcommand<'a>, ReadFault<'a>>
    ensures subcommand { IfOk result (IsSubcommand
        (rows_of (found_of before.now)) (rows_of (found_of behind.now)) name.now) }
    ensures fault { IfErr result (IsLacking
        (rows_of (found_of before.now)) (rows_of (found_of behind.now)) name.now) }
{
    if let Some(asked) = read_asked_edit(alloc, name, before, behind)? {
        let options = needed_edit_options(before, behind)?;
        return Ok(Subcommand::Edit(asked, options, saving(before, behind)));
    }
    if let Some(view) = read_view(name, before, behind)? {
        return Ok(view);
    }
    match name {
        "init" => Ok(Subcommand::Init(
            needed_init_options(alloc, before, behind)?,
            saving(before, behind),
        )),
        "try" => Ok(Subcommand::Try(needed_init_options(alloc, before, behind)?)),
        "batch" => Ok(Subcommand::Batch {
            options: needed_edit_options(before, behind)?,
            is_all_or_none: has_flag(behind, "all-or-none"),
        }),
        "skipped" => Ok(Subcommand::Skipped(needed_index(before, behind)?)),
        "why" => {
            let question = read_question(alloc, before, behind)?;
            Ok(Subcommand::Why(question, told(behind)))
        }
        "export" => Ok(Subcommand::Export(export(alloc, before, behind)?)),
        "undo" => Ok(Subcommand::Undo(saving(before, behind))),
        "redo" => Ok(Subcommand::Redo(saving(before, behind))),
        "forget" => {
            let beginning = read_beginning(behind)?;
            Ok(Subcommand::Forget(beginning, saving(before, behind)))
        }
        _ => Err(ReadFault::Misused(Misuse::NoSubcommand)),
    }
}

/// The subcommand of this name that prints what is there, as lines or as JSON; none where the name is of
/// another.
fn read_view<'a>(
    name: &str,
    before: &ArgMatches<'a>,
    behind: &ArgMatches<'a>,
) -> Result<Option<Subcommand<'a>>, ReadFault<'a>>
    ensures subcommand { IfOk result (λ view. MatchOption view
        (AllByRecursion (λ known. name.now ≢ known) json_takers)
        (IsSubcommand (rows_of (found_of before.now)) (rows_of (found_of behind.now)) name.now)) }
    ensures fault { IfErr result (IsLacking
        (rows_of (found_of before.now)) (rows_of (found_of behind.now)) name.now) }
{
    let format = format(before, behind);
    match name {
        "show" => Ok(Some(Subcommand::Show(read_shown(before, behind), format))),
        "log" => Ok(Some(Subcommand::Log {
            is_long: has_flag(behind, "long"),
            format,
        })),
        "diff" => Ok(Some(Subcommand::Diff(read_range(behind)?, format))),
        "check" => Ok(Some(Subcommand::Check(checked_index(before, behind)?, format))),
        "outdated" => Ok(Some(Subcommand::Outdated(needed_index(before, behind)?, format))),
        _ => Ok(None),
    }
}

fn saving(before: &ArgMatches<'_>, behind: &ArgMatches<'_>) -> Saving
    ensures { result ≡ saving_of (rows_of (found_of before.now)) (rows_of (found_of behind.now)) }
{
    if is_flagged(before, behind, "dry-run") {
        Saving::DryRun
    } else {
        Saving::Save
    }
}

/// In which form a lock is printed; where the value is unknown, as where none is given.
fn export<'a>(
    alloc: Global,
    before: &ArgMatches<'a>,
    behind: &ArgMatches<'a>,
) -> Result<Export<'a>, AllocError>
    ensures { IfOk result
        (IsExport (rows_of (found_of before.now)) (rows_of (found_of behind.now))) }
{
    Ok(Export {
        format: export_format(behind),
        target: value(behind, "target"),
        index: chosen(before, behind, "index"),
        covers: values_of(alloc, behind, "covers")?,
    })
}

fn export_format(behind: &ArgMatches<'_>) -> ExportFormat
    ensures { result ≡ export_format_of (rows_of (found_of behind.now)) }
{
    match value(behind, "format") {
        Some(format) => format_named(format),
        None => ExportFormat::Hashes,
    }
}

fn format_named(format: &str) -> ExportFormat
    ensures { result ≡ format_named format.now }
{
    match format {
        "dot" => ExportFormat::Dot,
        "pylock" => ExportFormat::Pylock,
        _ => ExportFormat::Hashes,
    }
}

/// How `why` tells what it knows.
fn told(behind: &ArgMatches<'_>) -> Told
    ensures { result ≡ told_of (rows_of (found_of behind.now)) }
{
    if has_flag(behind, "long") {
        Told::LongSentences
    } else if has_flag(behind, "explain") {
        Told::Sentences
    } else {
        Told::Conflicts
    }
}

fn format(before: &ArgMatches<'_>, behind: &ArgMatches<'_>) -> Format
    ensures { result ≡ format_of (rows_of (found_of before.now)) (rows_of (found_of behind.now)) }
{
    if is_flagged(before, behind, "json") {
        Format::Json
    } else {
        Format::Lines
    }
}

/// What of the lock is printed; beside a name `--tree` is refused before.
fn read_shown<'a>(before: &ArgMatches<'a>, behind: &ArgMatches<'a>) -> Shown<'a>
    ensures shown { IsShown (rows_of (found_of before.now)) (rows_of (found_of behind.now)) result }
{
    match value(behind, "name") {
        Some(name) => Shown::Entry(name, chosen(before, behind, "index")),
        None if has_flag(behind, "tree") => Shown::Tree,
        None => Shown::Table,
    }
}

fn read_range<'a>(behind: &ArgMatches<'a>) -> Result<DiffRange, ReadFault<'a>>
    ensures range { IfOk result (IsRange (rows_of (found_of behind.now))) }
    ensures fault { IfErr result (HasNoPlace (rows_of (found_of behind.now))) }
{
    let Some(from) = value(behind, "from") else {
        return Ok(DiffRange::LastStep);
    };
    let from = read_place(from, "[FROM]")?;
    match value(behind, "to") {
        Some(to) => Ok(DiffRange::Between(from, read_place(to, "[TO]")?)),
        None => Ok(DiffRange::Since(from)),
    }
}

/// The place of the history that a text names, of an argument as help shows it.
pub(crate) fn read_place<'a>(text: &'a str, shown: &'static str) -> Result<usize, ReadFault<'a>>
    ensures place { IfOk result (λ place. IsPlace place text.entry.now) }
    ensures fault { IfErr result (IsNoNumber text.entry shown.entry) }
{
    match text.parse::<usize>() {
        Ok(place) => Ok(place),
        Err(error) => Err(ReadFault::Misused(Misuse::NoNumber(text, shown, error))),
    }
}

/// The index of a `check` whether the lock is current.
fn checked_index<'a>(
    before: &ArgMatches<'a>,
    behind: &ArgMatches<'a>,
) -> Result<Option<&'a str>, ReadFault<'a>>
    ensures current { IfOk result
        (IsChecked (rows_of (found_of before.now)) (rows_of (found_of behind.now))) }
    ensures missing { IfErr result (λ e.
        (has_flag (rows_of (found_of behind.now)) (codes "current") ≡ true)
        × LacksIndex (rows_of (found_of before.now)) (rows_of (found_of behind.now)) e) }
{
    if has_flag(behind, "current") {
        Ok(Some(needed_index(before, behind)?))
    } else {
        Ok(None)
    }
}

/// The index that was given.
pub(crate) fn needed_index<'a>(
    before: &ArgMatches<'a>,
    behind: &ArgMatches<'a>,
) -> Result<&'a str, ReadFault<'a>>
    ensures index { IfOk result (λ index.
        index_of (rows_of (found_of before.now)) (rows_of (found_of behind.now))
        ≡ Some index.now) }
    ensures missing { IfErr result
        (LacksIndex (rows_of (found_of before.now)) (rows_of (found_of behind.now))) }
{
    match chosen(before, behind, "index") {
        Some(index) => Ok(index),
        None => Err(ReadFault::Needed(NeededOption::Index)),
    }
}

/// The index that was given, whether what is locked is to be kept, and whether an edit is made only if it is needed.
pub(crate) fn needed_edit_options<'a>(
    before: &ArgMatches<'a>,
    behind: &ArgMatches<'a>,
) -> Result<EditOptions<'a>, ReadFault<'a>>
    ensures options { IfOk result
        (HasEditOptions (rows_of (found_of before.now)) (rows_of (found_of behind.now))) }
    ensures missing { IfErr result
        (LacksIndex (rows_of (found_of before.now)) (rows_of (found_of behind.now))) }
{
    let index = needed_index(before, behind)?;
    let keeps_locked = is_flagged(before, behind, "keep-locked");
    let only_if_needed = has_flag(behind, "if-needed");
    Ok(EditOptions {
        index,
        keeps_locked,
        only_if_needed,
    })
}

/// The index, the environments and the pins that were given; the index is missed first.
pub(crate) fn needed_init_options<'a>(
    alloc: Global,
    before: &ArgMatches<'a>,
    behind: &ArgMatches<'a>,
) -> Result<InitOptions<'a>, ReadFault<'a>>
    ensures options { IfOk result
        (HasInitOptions (rows_of (found_of before.now)) (rows_of (found_of behind.now))) }
    ensures missing { IfErr result
        (LacksInput (rows_of (found_of before.now)) (rows_of (found_of behind.now))) }
{
    let index = needed_index(before, behind)?;
    let environments = all_chosen(alloc, before, behind, "env")?;
    if environments.is_empty() {
        return Err(ReadFault::Needed(NeededOption::Environment));
    }
    Ok(InitOptions {
        index,
        environments,
        pins: read_pins(alloc, behind)?,
    })
}

/// The environments that were given for other targets, and the pins; the index is missed first.
pub(crate) fn needed_targets<'a>(
    alloc: Global,
    before: &ArgMatches<'a>,
    behind: &ArgMatches<'a>,
) -> Result<NewTargets, ReadFault<'a>>
    ensures targets { IfOk result
        (IsNewTargets (rows_of (found_of before.now)) (rows_of (found_of behind.now))) }
    ensures missing { IfErr result
        (LacksInput (rows_of (found_of before.now)) (rows_of (found_of behind.now))) }
{
    let InitOptions {
        index: _,
        environments,
        pins,
    } = needed_init_options(alloc, before, behind)?;
    Ok(NewTargets { environments, pins })
}
