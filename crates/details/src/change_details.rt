// What is told of an accepted command: what it changed, which versions it moved unasked, and what pip would warn of.

use crate::changed_file_details::CHECKOUT;
use crate::details::Details;
use edits::{Change, Edit, Pool, Refusal, Snapshot, State, edit};
use journal::{Command, Session};
use notes::{AppliedEdit, add_change_notes, add_lock_notes, add_moved, has_moved};
use resolve::RESOLVER;
use std::alloc::{AllocError, Global};
use stops::Stop;

/// Where a history stood before a command, and how many steps it had.
#[derive(Clone, Copy)]
pub struct Place {
    pub cursor: usize,
    pub steps: usize,
}

impl Place {
    /// Where a history stands.
    pub fn of(session: &Session) -> Place {
        Place {
            cursor: session.cursor(),
            steps: session.steps(),
        }
    }
}

/// What a command changed, where the history stood before it, and whether that is saved.
#[derive(Clone, Copy)]
pub struct Changed<'a> {
    pub from: Place,
    pub change: &'a Change,
    pub is_saved: bool,
}

impl Details {
    /// Notes what the index lacks, and which locked versions an edit moved that it doesn't name, and whether all could have
    /// stayed. The resolver tells that. Then what pip would warn of, and what can't be done again.
    pub fn add_moved(
        &mut self,
        alloc: Global,
        session: &Session,
        command: &Command<'_>,
        changed: Changed<'_>,
    ) -> Result<(), Stop> {
        let Changed { from, change, .. } = changed;
        let Command::Edit(wanted, pool) = command else {
            return Ok(());
        };
        let (state, snapshot) = (session.state(), pool.snapshot);
        self.lacks.add_newer(alloc, state, snapshot, Some(change))?;
        if !self.manner.tells {
            return Ok(());
        }
        let applied = AppliedEdit {
            edit: wanted,
            change,
            snapshot,
        };
        if has_moved(alloc, applied)? {
            let old = state_at(alloc, session, from.cursor)?;
            let kept = state_that_keeps(alloc, old, wanted, snapshot)?;
            let style = self.manner.style;
            add_moved(alloc, &mut self.changes, style, applied, kept.as_ref())?;
        }
        add_change_notes(alloc, &mut self.known.text, state, change, snapshot)?;
        Ok(self.add_forgotten(changed, session)?)
    }

    /// How many steps an edit made an end of, that an undo had left; or would make an end of, where nothing is saved.
    fn add_forgotten(&mut self, changed: Changed<'_>, session: &Session) -> Result<(), AllocError> {
        let Changed { from, is_saved, .. } = changed;
        let forgotten = from.steps.saturating_sub(from.cursor);
        if !self.manner.is_person || forgotten == 0 || session.cursor() == from.cursor {
            return Ok(());
        }
        let steps = if forgotten == 1 {
            "step that was undone"
        } else {
            "steps that were undone"
        };
        let (are, has) = match (is_saved, forgotten) {
            (true, 1) => ("is", "has"),
            (true, _) => ("are", "has"),
            (false, _) => ("would be", "would have"),
        };
        write!(
            self.known,
            "{forgotten} {steps} {are} gone from the history: redo {has} nothing left to go on to.\n"
        )
    }

    /// Notes what a first lock holds: so much is locked, or would be.
    pub fn add_first_lock(
        &mut self,
        alloc: Global,
        session: &Session,
        snapshot: &Snapshot,
        locked: &str,
    ) -> Result<(), AllocError> {
        self.lacks
            .add_newer(alloc, session.state(), snapshot, None)?;
        if !self.manner.tells {
            return Ok(());
        }
        add_lock_notes(alloc, &mut self.known.text, session.state(), snapshot)?;
        if !self.manner.is_person {
            return Ok(());
        }
        for target in session.state().targets() {
            let count = target.lock.entries().len();
            let noun = if count == 1 { "package" } else { "packages" };
            let file = target.name.file_name(alloc)?;
            write!(self.known, "{count} {noun} {locked} in {}\n", file.as_str())?;
        }
        Ok(())
    }

    /// Notes that a first lock would replace the history that stands in the folder.
    pub fn add_replaceable(&mut self, steps: usize) -> Result<(), AllocError> {
        if steps == 0 {
            return Ok(());
        }
        let noun = if steps == 1 { "step" } else { "steps" };
        write!(
            self.known,
            "The history that stands here would be replaced, with its {steps} {noun}.\n"
        )
    }

    /// Notes what became of the history that stood in this folder before a first lock.
    pub fn add_replaced(&mut self, dir: &str, steps: usize) -> Result<(), AllocError> {
        if steps == 0 {
            return Ok(());
        }
        let noun = if steps == 1 { "step" } else { "steps" };
        write!(
            self.known,
            "The history that stood here is replaced, with its {steps} {noun}. "
        )?;
        self.known
            .push_str("Where git has it, this brings it back:\n")?;
        self.add_git(dir)?;
        self.known.push_str(CHECKOUT)
    }

    /// Notes that an edit would change the index alone, and isn't made.
    pub fn add_index_alone(&mut self) -> Result<(), AllocError> {
        if !self.manner.tells {
            return Ok(());
        }
        self.known.push_str(
            "The index is another one. Nothing else would change, and nothing is saved.\n",
        )
    }

    /// Notes that nothing would change.
    pub(crate) fn add_no_change(&mut self) -> Result<(), AllocError> {
        self.known
            .push_str("Nothing changes, and nothing is saved.\n")
    }

    /// Notes that an edit would change nothing.
    pub fn add_same(&mut self, command: &Command<'_>) -> Result<(), AllocError> {
        if !self.manner.is_person {
            return Ok(());
        }
        let options = self.options.as_str();
        match command {
            Command::Edit(Edit::Upgrade(_) | Edit::UpgradeAll, _) => {
                self.known.push_str(
                    "Nothing newer fits. What holds newer releases back is told by:\n",
                )?;
                self.known.begin_command()?;
                write!(self.known, "reqlock{options} outdated\n")
            }
            Command::Edit(
                Edit::Add(_)
                | Edit::Remove(_)
                | Edit::Constrain(_, _)
                | Edit::Relock
                | Edit::Replace(_, _)
                | Edit::Retarget(_, _),
                _,
            )
            | Command::Undo
            | Command::Redo => self.add_no_change(),
        }
    }
}

/// The state at a place of the history.
fn state_at(alloc: Global, session: &Session, place: usize) -> Result<State, Stop> {
    if place > session.steps() {
        return Err(Stop::NoPlace(place));
    }
    Ok(session.state_at(alloc, place)?)
}

/// The state that an edit leads to where every locked version has to stay, if there is one.
fn state_that_keeps(
    alloc: Global,
    old: State,
    wanted: &Edit,
    snapshot: &Snapshot,
) -> Result<Option<State>, AllocError> {
    let pool = Pool {
        snapshot,
        only_kept: true,
    };
    match edit(alloc, &old, wanted, &pool, &RESOLVER) {
        Ok(edited) => Ok(Some(edited.state)),
        Err(Refusal::NothingChanges) => Ok(Some(old)),
        Err(Refusal::OutOfMemory) => Err(AllocError),
        Err(_) => Ok(None),
    }
}
