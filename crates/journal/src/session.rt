// A history that begins with a requirements file.

ghost use Rattle.std.specs.Prelude.{◌≡◌, ◌⊎◌, ◌+◌, ◌-◌, ◌<◌, ◌≤◌, [], length, map, Some, slice_get, IfOk, IfErr, OnErr};
ghost use Rattle.edits.specs.Edits.{FirstResult, InitResult};
ghost use Rattle.journal.specs.Past.{present};
ghost use Rattle.journal.specs.Changes.{AreSteps, IsStepOf};
ghost use Rattle.journal.specs.Forgotten.{forgotten};
ghost use Rattle.journal.specs.Opens.{Opens, Tells};
ghost use Rattle.journal.specs.Saved.{IsSaved, OpensAs};
ghost use Rattle.journal.specs.Commands.{asked_of};
ghost use Rattle.journal.specs.Histories.{ChangesAfter, RunWithChanges};
ghost use Rattle.journal.specs.Places.{IsBetween};
ghost use Rattle.journal.specs.Steps.{BeginsWith, IsStart, Run, Step};
ghost use Rattle.journal.specs.Values.{Refusal as RefusalValue};
ghost use Rattle.journal.specs.declared.commands.Reply.TheVariants as replies;

use crate::change_history::ChangeHistory;
use crate::commands::{Command, Reply};
use crate::history::History;
use crate::journal::Journal;
use crate::saved::{self, Saved};
use crate::{history_reader, places, runs};
use edits::{
    Change, FirstTargets, Refusal, ReqFile, Resolver, Snapshot, State, TargetName, Targets,
};
use lists::Seq;
use std::alloc::{AllocError, Global};
use std::collections::BTreeMap;
use std::marker::Model;

/// A requirements file and its locks, with their history. The present state is kept, and the change of
/// each step; in a clause it is the whole past, and these changes.
pub struct Session {
    history: ChangeHistory,
}

impl Drop for Session {
    fn drop(self) {
        let Session { history: _ } = self;
    }
}

impl Model for Session {
    ghost use Rattle.journal.specs.Changes.{HistoryParts};

    ghost Value = { HistoryParts };

    ghost view = { λ s. s.history };
}

impl Session {
    /// Locks the lines for each of the targets, and begins a history with that state. Each lock is the
    /// best solution of its own problem over the index, whatever the resolver.
    pub fn init<R: Resolver>(
        alloc: Global,
        lines: ReqFile,
        targets: Targets,
        snapshot: &Snapshot,
        resolver: &R,
    ) -> Result<Session, Refusal>
        ensures start { IfOk result (λ session. IsStart lines targets snapshot.now session.past) }
        ensures changes { IfOk result (λ session. session.changes ≡ []) }
        ensures refused { IfErr result (λ r. (r ≡ Refusal.OutOfMemory)
            ⊎ InitResult lines targets snapshot.now (Err r)) }
    {
        let state = edits::init(alloc, lines, targets, snapshot, resolver)?;
        let history = ChangeHistory::new(alloc, state);
        Ok(Session { history })
    }

    /// The same, where the versions that are handed in for a target are kept in its lock.
    pub fn init_keeping<R: Resolver>(
        alloc: Global,
        lines: ReqFile,
        first: FirstTargets,
        snapshot: &Snapshot,
        resolver: &R,
    ) -> Result<Session, Refusal>
        ensures start { IfOk result (λ session.
            BeginsWith lines first.targets first.pins snapshot.now session.past) }
        ensures changes { IfOk result (λ session. session.changes ≡ []) }
        ensures refused { IfErr result (λ r. (r ≡ Refusal.OutOfMemory)
            ⊎ FirstResult lines first.targets first.pins snapshot.now (Err r)) }
    {
        let state = edits::init_keeping(alloc, lines, first, snapshot, resolver)?;
        let history = ChangeHistory::new(alloc, state);
        Ok(Session { history })
    }

    /// Opens the history that was saved as these files: a requirements file, lock files by the names of
    /// their targets, and a journal. They are tested in this order, and the first fault is answered:
    ///
    /// - `JournalBroken(1)` where the journal doesn't begin with a header;
    /// - `FilesDisagree(Requirements)` where the requirements file has another digest than the header says;
    /// - `FilesDisagree(Lock(name))` for the first name by its bytes that isn't both a target's in the
    ///   header and a lock file's, or whose lock file has another digest;
    /// - `FilesDisagree` of the first file that doesn't read, the requirements before the locks, and these
    ///   in the order of their names;
    /// - `JournalBroken(1)` where a lock names another environment than the header;
    /// - `FilesDisagree(Lock(name))` for the first lock that doesn't belong to the requirements, or was
    ///   made from another index than the first one;
    /// - `JournalBroken(n)` where line `n` isn't a minimal change, or something stands behind the last
    ///   step;
    /// - `JournalBroken(k + 1)` where step `k` leads nowhere: from the cursor back to the start, then
    ///   from the cursor on to the end.
    pub fn open(
        alloc: Global,
        requirements: &[u8],
        locks: &BTreeMap<TargetName, Seq<u8>>,
        journal: &Journal,
    ) -> Result<Session, Refusal>
        ensures opens { Tells (Opens requirements.now locks.now.entries journal.now) result }
    {
        let history = history_reader::opened(alloc, requirements, locks, journal)?;
        Ok(Session { history })
    }

    /// The history as a requirements file, a lock file for each target, and a journal. `open` reads them as
    /// the same history: the same states, the same cursor, and the same change of each step.
    pub fn save(&self, alloc: Global) -> Result<Saved, AllocError>
        ensures saved { IfOk result (λ saved. IsSaved self.now saved) }
        ensures opens { IfOk result (λ saved. OpensAs self.now saved) }
    {
        saved::files_of(alloc, &self.history)
    }

    /// The present state. It has no refusal.
    pub fn state(&self) -> &State
        ensures present { present self.now.past ≡ Some result.now }
    {
        self.history.state()
    }

    /// The place of the present state, from 0. It has no refusal.
    pub fn cursor(&self) -> usize
        ensures cursor { result ≡ self.now.past.cursor }
    {
        self.history.cursor()
    }

    /// How many steps there are from the first state to the last, each with the change that leads from
    /// the state before it to the next. It has no refusal.
    pub fn steps(&self) -> usize
        ensures steps { result + 1 ≡ length self.now.past.states }
        ensures lead { AreSteps self.now.past.states self.now.changes }
    {
        self.history.steps()
    }

    /// The change of a step, from 1 to `steps`: it leads from the state before the step to the one
    /// behind it. It has no refusal.
    pub fn change(&self, step: usize) -> &Change
        requires first { 0 < step }
        requires last { step < length self.now.past.states }
        ensures change { slice_get self.now.changes (step - 1) ≡ Some result.now }
        ensures step { IsStepOf self.now.past step result.now }
    {
        self.history.change(step)
    }

    /// The change of each step, from the first on. It has no refusal.
    pub fn changes(&self) -> &[Change]
        ensures changes { result.now ≡ self.now.changes }
    {
        self.history.all_changes()
    }

    /// The state at a place of the history, from 0 to `steps`. The states between it and the present one
    /// are gone through.
    pub fn state_at(&self, alloc: Global, place: usize) -> Result<State, AllocError>
        requires within { place < length self.now.past.states }
        ensures at { IfOk result (λ state. slice_get self.now.past.states place ≡ Some state) }
    {
        places::state_at(alloc, &self.history, place)
    }

    /// What the steps between two places do together, from the first place to the second: what comes and
    /// goes on the way isn't told. The way back is the inverse of the way there.
    pub fn difference_between(
        &self,
        alloc: Global,
        from: usize,
        to: usize,
    ) -> Result<Change, AllocError>
        requires from { from < length self.now.past.states }
        requires to { to < length self.now.past.states }
        ensures between { IfOk result (IsBetween self.now.past from to) }
    {
        places::difference_between(alloc, &self.history, from, to)
    }

    /// Forgets the first states and steps, so many of each. The present state and all that follow it stay, and
    /// what is left are the same states and changes. It has no refusal.
    pub fn forget(&mut self, count: usize)
        requires within { count ≤ self.old.past.cursor }
        ensures forgotten { self.new ≡ forgotten count self.old }
    {
        self.history.forget(count);
    }

    /// Applies one command. Each lock of an edited state is the best solution, whatever the
    /// resolver. Where it is refused, states, cursor and changes are what they were.
    pub fn apply<R: Resolver>(
        &mut self,
        alloc: Global,
        command: &Command<'_>,
        resolver: &R,
    ) -> Reply
        ensures step { Step self.old.past (asked_of command.now) result self.new.past }
        ensures changes { ChangesAfter self.old (asked_of command.now) result self.new }
        ensures kept { (refusal : RefusalValue) → result ≡ replies.Refused refusal
            → self.new ≡ self.old }
    {
        runs::apply(alloc, &mut self.history, command, resolver)
    }

    /// Applies the commands in turn and gives their replies. Each lock of an edited state is the
    /// best solution, whatever the resolver. The room for the replies is taken first, and where
    /// that is refused no command is applied.
    pub fn run<R: Resolver>(
        &mut self,
        alloc: Global,
        commands: &[Command<'_>],
        resolver: &R,
    ) -> Result<Seq<Reply>, AllocError>
        ensures run { IfOk result
            (λ replies. Run self.old.past (map asked_of commands.now) replies self.new.past) }
        ensures changes { IfOk result
            (λ replies. RunWithChanges self.old (map asked_of commands.now) replies self.new) }
        ensures kept { OnErr result (self.new ≡ self.old) }
    {
        runs::run(alloc, &mut self.history, commands, resolver)
    }
}
