// Histories of whole states.

use crate::scenarios::calls::{play, surely};
use crate::scenarios::data::{Indexes, read_indexes, state};
use crate::scenarios::told_commands::{BEFORE, all_commands, commands_of};
use journal::{Command, Plain, WholeHistory};
use std::alloc::Global;
use std::io::Write;

/// A history behind these commands.
fn prepared(alloc: Global, indexes: &Indexes, commands: &[Command<'_>]) -> Option<WholeHistory> {
    let mut history = WholeHistory::new(alloc, state(alloc, indexes)?).ok()?;
    for command in commands {
        let _ = journal::apply(alloc, &mut history, command, &Plain);
    }
    Some(history)
}

/// Runs the commands.
pub fn runs<W: Write>(alloc: Global, out: &mut W, told: &str) -> Option<()> {
    let indexes = read_indexes(alloc)?;
    let before = commands_of(alloc, &indexes, BEFORE)?;
    let commands = commands_of(alloc, &indexes, told)?;
    let mut history = prepared(alloc, &indexes, before.as_slice())?;
    play(
        alloc,
        out,
        &mut history,
        |history| journal::run(alloc, history, commands.as_slice(), &Plain),
    )
}

/// Applies the last of the commands, behind the others.
pub fn whole<W: Write>(alloc: Global, out: &mut W, told: &str) -> Option<()> {
    let indexes = read_indexes(alloc)?;
    let commands = all_commands(alloc, &indexes, told)?;
    let (last, earlier) = commands.as_slice().split_last()?;
    let mut history = prepared(alloc, &indexes, earlier)?;
    play(
        alloc,
        out,
        &mut history,
        |history| surely(journal::apply(alloc, history, last, &Plain)),
    )
}
