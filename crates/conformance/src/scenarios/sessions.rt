// Sessions: one command, several, and their files.

use crate::scenarios::calls::{play, surely};
use crate::scenarios::data::{self, Indexes, read_indexes};
use crate::scenarios::told_commands::{BEFORE, all_commands, commands_of};
use crate::targets::{bytes_of, journal_of, targets_of};
use journal::{Command, Learning, Session};
use std::alloc::Global;
use std::io::Write;

/// A session behind these commands.
fn prepared(alloc: Global, indexes: &Indexes, commands: &[Command<'_>]) -> Option<Session> {
    let (lines, targets) = (data::lines(alloc)?, data::targets(alloc)?);
    let session = Session::init(alloc, lines, targets, &indexes.now, &Learning);
    let mut session = session.ok()?;
    for command in commands {
        let _ = session.apply(alloc, command, &Learning);
    }
    Some(session)
}

/// Applies the last of the commands, behind the others.
pub fn apply<W: Write>(alloc: Global, out: &mut W, told: &str) -> Option<()> {
    let indexes = read_indexes(alloc)?;
    let commands = all_commands(alloc, &indexes, told)?;
    let (last, earlier) = commands.as_slice().split_last()?;
    let mut session = prepared(alloc, &indexes, earlier)?;
    play(
        alloc,
        out,
        &mut session,
        |session| surely(session.apply(alloc, last, &Learning)),
    )
}

/// Runs the commands.
pub fn run<W: Write>(alloc: Global, out: &mut W, told: &str) -> Option<()> {
    let indexes = read_indexes(alloc)?;
    let before = commands_of(alloc, &indexes, BEFORE)?;
    let commands = commands_of(alloc, &indexes, told)?;
    let mut session = prepared(alloc, &indexes, before.as_slice())?;
    play(
        alloc,
        out,
        &mut session,
        |session| session.run(alloc, commands.as_slice(), &Learning),
    )
}

/// Begins a session, saves one or opens its files.
pub fn files<W: Write>(alloc: Global, out: &mut W, what: &str) -> Option<()> {
    let indexes = read_indexes(alloc)?;
    let before = commands_of(alloc, &indexes, BEFORE)?;
    let mut session = prepared(alloc, &indexes, before.as_slice())?;
    match what {
        "init" => begin(alloc, out, &indexes),
        "save" => play(alloc, out, &mut session, |session| session.save(alloc)),
        "open" => opened(alloc, out, &session),
        _ => None,
    }
}

fn begin<W: Write>(alloc: Global, out: &mut W, indexes: &Indexes) -> Option<()> {
    let mut state = data::state(alloc, indexes)?;
    play(alloc, out, &mut state, |state| {
        let lines = state.lines().clone()?;
        let targets = targets_of(alloc, &*state)?;
        Session::init(alloc, lines, targets, &indexes.now, &Learning)
    })
}

fn opened<W: Write>(alloc: Global, out: &mut W, session: &Session) -> Option<()> {
    let saved = session.save(alloc).ok()?;
    let requirements = saved.requirements.as_str().as_bytes();
    let locks = bytes_of(alloc, &saved.locks).ok()?;
    let journal = journal_of(alloc, saved.journal.as_str()).ok()?;
    play(
        alloc,
        out,
        &mut (),
        |_| Session::open(alloc, requirements, &locks, &journal),
    )
}
