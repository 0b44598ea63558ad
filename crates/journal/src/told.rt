// What lock files and a journal tell of a history, without a requirements file.

ghost use Rattle.journal.specs.Opens.{Tells, ToldBy};

use crate::history_reader::locks::{check_locks, targets_of};
use crate::history_reader::present::check_environments;
use crate::history_reader::steps::steps_of;
use crate::journal::{Begin, Journal};
use edits::{Change, Refusal, Target, TargetName};
use lists::Seq;
use std::alloc::Global;
use std::collections::BTreeMap;

/// What lock files and a journal tell of a history: all but its lines. A journal has the digest of the requirements
/// file and not its lines, so that the states can't be told without the file.
#[derive(Drop)]
pub struct Told {
    /// The place of the present state, from 0.
    pub cursor: usize,
    /// The change of each step, from the first on.
    pub changes: Seq<Change>,
    /// The targets of the present state.
    pub targets: Seq<Target>,
}

impl Told {
    /// What lock files by the names of their targets, and a journal, tell of a history. The locks are tested as where it
    /// is opened, but for what belongs to the lines, and so are the lines of the journal; that the changes lead somewhere
    /// isn't tested. The first fault is answered.
    pub fn read(
        alloc: Global,
        locks: &BTreeMap<TargetName, Seq<u8>>,
        journal: &Journal,
    ) -> Result<Told, Refusal>
        ensures { Tells (ToldBy locks.now.entries journal.now) result }
    {
        let Begin { header, steps } = journal.begin()?;
        check_locks(header, locks)?;
        let targets = targets_of(alloc, header.targets.as_slice(), locks)?;
        check_environments(alloc, targets.as_slice())?;
        let changes = steps_of(alloc, header, steps)?;
        Ok(Told {
            cursor: header.cursor as usize,
            changes,
            targets,
        })
    }
}
