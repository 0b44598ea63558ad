// The edit that words name.

ghost use Rattle.std.specs.Prelude.{◌≡◌, [], option_map, unwrap_or, IfErr, IfOk, MatchOption};
ghost use Rattle.clap.specs.Words.{found_of, rows_of};
ghost use Rattle.command_line.specs.Questions.{edit_of, upgrade_with};
ghost use Rattle.command_line.specs.Options.{text_of, texts_of};
ghost use Rattle.command_line.specs.Subcommands.{IsAskedEdit, MakesNoEdit};
ghost use Rattle.command_line.specs.UsageFaults.{IsLacking};
ghost use Rattle.edits.specs.declared.request.Edit.TheVariants.{Add, Constrain, Remove};

use crate::invocation::AskedEdit;
use crate::misuse::ReadFault;
use crate::options::{copies, value, values};
use crate::replacement::read_replacement;
use crate::subcommand::needed_targets;
use clap::ArgMatches;
use edits::Edit;
use lists::Text;
use std::alloc::{AllocError, Global};

/// The edit that a subcommand of this name makes, or none where it makes none.
pub(crate) fn read_asked_edit<'a>(
    alloc: Global,
    name: &str,
    before: &ArgMatches<'a>,
    behind: &ArgMatches<'a>,
) -> Result<Option<AskedEdit<'a>>, ReadFault<'a>>
    ensures asked { IfOk result (λ asked. MatchOption asked
        (MakesNoEdit name.now (rows_of (found_of behind.now)))
        (IsAskedEdit (rows_of (found_of before.now)) (rows_of (found_of behind.now)) name.now)) }
    ensures fault { IfErr result (IsLacking
        (rows_of (found_of before.now)) (rows_of (found_of behind.now)) name.now) }
{
    match name {
        "replace" => {
            let replacement = read_replacement(alloc, behind, "new")?;
            Ok(Some(AskedEdit::Replace(replacement)))
        }
        "retarget" => {
            let targets = needed_targets(alloc, before, behind)?;
            Ok(Some(AskedEdit::Retarget(targets)))
        }
        _ => match read_edit(alloc, name, behind)? {
            Some(edit) => Ok(Some(AskedEdit::Typed(edit))),
            None => Ok(None),
        },
    }
}

/// The edit that is typed behind a subcommand of this name, or none where none is.
fn read_edit(alloc: Global, name: &str, behind: &ArgMatches<'_>) -> Result<Option<Edit>, AllocError>
    ensures edit { IfOk result
        (λ edit. edit ≡ edit_of name.now (rows_of (found_of behind.now))) }
{
    match name {
        "add" => read_addition(alloc, value(behind, "text")),
        "remove" => read_removal(alloc, value(behind, "name")),
        "constrain" => {
            read_constraint(alloc, value(behind, "name"), value(behind, "specifiers"))
        }
        "upgrade" => Ok(Some(read_upgrade(alloc, values(behind, "names"))?)),
        "relock" => Ok(Some(Edit::Relock)),
        _ => Ok(None),
    }
}

/// The addition of a line.
pub(crate) fn read_addition(alloc: Global, text: Option<&str>) -> Result<Option<Edit>, AllocError>
    ensures edit { IfOk result (λ edit. edit ≡ option_map Add (text_of text.entry)) }
{
    match text {
        Some(text) => Ok(Some(Edit::Add(Text::copy_of(alloc, text)?))),
        None => Ok(None),
    }
}

fn read_removal(alloc: Global, name: Option<&str>) -> Result<Option<Edit>, AllocError>
    ensures edit { IfOk result (λ edit. edit ≡ option_map Remove (text_of name.entry)) }
{
    match name {
        Some(name) => Ok(Some(Edit::Remove(Text::copy_of(alloc, name)?))),
        None => Ok(None),
    }
}

/// Without specifiers, those of the line are taken away.
fn read_constraint(
    alloc: Global,
    name: Option<&str>,
    specifiers: Option<&str>,
) -> Result<Option<Edit>, AllocError>
    ensures edit { IfOk result (λ edit.
        edit ≡ option_map (λ n. Constrain n (unwrap_or (text_of specifiers.entry) []))
        (text_of name.entry)) }
{
    let Some(name) = name else {
        return Ok(None);
    };
    let name = Text::copy_of(alloc, name)?;
    let specifiers = Text::copy_of(alloc, specifiers.unwrap_or(""))?;
    Ok(Some(Edit::Constrain(name, specifiers)))
}

/// The upgrade of names; without any, all are upgraded.
pub(crate) fn read_upgrade(alloc: Global, names: Option<&[&str]>) -> Result<Edit, AllocError>
    ensures edit { IfOk result (λ edit. edit ≡ upgrade_with (unwrap_or (texts_of names.entry) [])) }
{
    let Some(names) = names else {
        return Ok(Edit::UpgradeAll);
    };
    if names.is_empty() {
        return Ok(Edit::UpgradeAll);
    }
    Ok(Edit::Upgrade(copies(alloc, names)?))
}
