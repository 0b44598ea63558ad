// Commands as they are told: `add d/undo` for two of them.

use crate::scenarios::data::Indexes;
use edits::{Edit, Pool};
use journal::Command;
use lists::{Seq, Text};
use std::alloc::Global;

/// Two steps, of which one is undone.
pub const BEFORE: &str = "add d/constrain a <2/undo";

/// The edit that a word and what stands behind it tell.
pub fn edit_of(alloc: Global, told: &str) -> Option<Edit> {
    let (word, rest) = told.split_once(' ').unwrap_or((told, ""));
    match word {
        "add" => Some(Edit::Add(Text::copy_of(alloc, rest).ok()?)),
        "remove" => Some(Edit::Remove(Text::copy_of(alloc, rest).ok()?)),
        "constrain" => constraint_of(alloc, rest),
        "upgrade" if rest.is_empty() => Some(Edit::UpgradeAll),
        "upgrade" => upgrade_of(alloc, rest),
        "relock" => Some(Edit::Relock),
        _ => None,
    }
}

fn constraint_of(alloc: Global, told: &str) -> Option<Edit> {
    let (name, specifiers) = told.split_once(' ').unwrap_or((told, ""));
    Some(Edit::Constrain(
        Text::copy_of(alloc, name).ok()?,
        Text::copy_of(alloc, specifiers).ok()?,
    ))
}

fn upgrade_of(alloc: Global, told: &str) -> Option<Edit> {
    let mut names = Seq::new(alloc);
    for word in told.split(' ') {
        names.push(Text::copy_of(alloc, word).ok()?).ok()?;
    }
    Some(Edit::Upgrade(names))
}

/// A command; `relock` goes over the later index.
fn command_of<'a>(alloc: Global, indexes: &'a Indexes, told: &str) -> Option<Command<'a>> {
    match told {
        "undo" => Some(Command::Undo),
        "redo" => Some(Command::Redo),
        "relock" => Some(Command::Edit(Edit::Relock, Pool::whole(&indexes.later))),
        _ => Some(Command::Edit(edit_of(alloc, told)?, Pool::whole(&indexes.now))),
    }
}

/// Puts the commands that are told behind others.
fn push_commands<'a>(
    alloc: Global,
    indexes: &'a Indexes,
    told: &str,
    commands: &mut Vec<Command<'a>>,
) -> Option<()> {
    for part in told.split('/') {
        commands.push(command_of(alloc, indexes, part)?).ok()?;
    }
    Some(())
}

/// The commands that are told, without those that come before each call.
pub fn commands_of<'a>(
    alloc: Global,
    indexes: &'a Indexes,
    told: &str,
) -> Option<Vec<Command<'a>>> {
    let mut commands = Vec::new(alloc);
    push_commands(alloc, indexes, told, &mut commands)?;
    Some(commands)
}

/// Those that come before each call, and behind them the commands that are told.
pub fn all_commands<'a>(
    alloc: Global,
    indexes: &'a Indexes,
    told: &str,
) -> Option<Vec<Command<'a>>> {
    let mut commands = commands_of(alloc, indexes, BEFORE)?;
    push_commands(alloc, indexes, told, &mut commands)?;
    Some(commands)
}
