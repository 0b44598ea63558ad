// The history that keeps the present state and the change of each step.

ghost use Rattle.std.specs.Prelude.{◌≡◌, ◌+◌, ◌-◌, ◌<◌, ◌≤◌, [], drop, length, OnOk, OnErr, IfOk};
ghost use Rattle.std.specs.List.{AllByRecursion};
ghost use Rattle.states.specs.State.{IsState};
ghost use Rattle.journal.specs.Changes.{AreSteps, with_change};
ghost use Rattle.journal.specs.Forgotten.{forgotten};
ghost use Rattle.journal.specs.Tied.Neighbours.{IsHistory, states_of};
ghost use Rattle.journal.specs.Past.{starts};

use crate::history::History;
use edits::{Change, Edited, Refusal, State};
use std::alloc::{AllocError, Global};
use std::marker::Model;

/// A history that keeps the present state alone, and the change of each step. In a clause it is its past
/// and its changes: the other states are those that the changes lead to from the present one.
pub struct ChangeHistory {
    state: State,
    changes: Vec<Change>,
    cursor: usize,
}

impl Drop for ChangeHistory {
    fn drop(self) {
        let ChangeHistory {
            state: _,
            changes: _,
            cursor: _,
        } = self;
    }
}

impl Model for ChangeHistory {
    ghost use Rattle.journal.specs.Changes.{HistoryParts};
    ghost use Rattle.journal.specs.Tied.Neighbours.{IsHistory, states_of};

    ghost Value = { HistoryParts };

    ghost view = { λ h. record {
      past = record { states = states_of h.state h.changes.items h.cursor; cursor = h.cursor };
      changes = h.changes.items;
    } };

    ghost invariant = { λ h. IsHistory h.state h.changes.items h.cursor };
}

/// Cuts the changes behind the cursor and appends one; the answer is the place behind it. Where memory
/// is refused, the changes are what they were.
fn push_at(changes: &mut Vec<Change>, cursor: usize, change: Change) -> Result<usize, AllocError>
    requires { cursor ≤ length changes.old.items }
    ensures place { IfOk result (λ place. place ≡ cursor + 1) }
    ensures pushed { OnOk result (changes.new.items ≡ with_change cursor changes.old.items change) }
    ensures kept { OnErr result (changes.new.items ≡ changes.old.items) }
{
    // All that can fail comes before the cut.
    changes.reserve(1)?;
    changes.truncate(cursor);
    changes.push_reserved(change);
    Ok(changes.len())
}

/// Takes so many changes away, from the first on.
fn without_first(changes: &mut Vec<Change>, count: usize)
    requires { count ≤ length changes.old.items }
    ensures { changes.new.items ≡ drop count changes.old.items }
{
    changes.drain(..count);
}

impl ChangeHistory {
    /// The history whose only state is this one. It has no refusal.
    pub fn new(alloc: Global, state: State) -> ChangeHistory
        ensures start { result ≡ record { past = starts state; changes = [] } }
    {
        state.recall_invariant();
        let changes = Vec::new(alloc);
        ChangeHistory {
            state,
            changes,
            cursor: 0,
        }
    }

    /// The history of this present state and these changes, of which so many lead up to it.
    pub(crate) fn of_changes(state: State, changes: Vec<Change>, cursor: usize) -> ChangeHistory
        requires history { IsHistory state changes.items cursor }
        ensures { result ≡ record {
          past = record { states = states_of state changes.items cursor; cursor = cursor };
          changes = changes.items;
        } }
    {
        ChangeHistory {
            state,
            changes,
            cursor,
        }
    }

    /// The change of each step, from the first on. It has no refusal.
    pub(crate) fn all_changes(&self) -> &[Change]
        ensures { result.now ≡ self.now.changes }
    {
        self.changes.as_slice()
    }

    /// Forgets the first states and steps, so many of each. It has no refusal.
    pub(crate) fn forget(&mut self, count: usize)
        requires { count ≤ self.old.past.cursor }
        ensures { self.new ≡ forgotten count self.old }
    {
        without_first(&mut self.changes, count);
        self.cursor -= count;
    }

    /// How many changes there are: one less than states. They lead from each state to the next, and all
    /// states are lawful.
    fn count(&self) -> usize
        ensures changes { result ≡ length self.now.changes }
        ensures states { result + 1 ≡ length self.now.past.states }
        ensures lead { AreSteps self.now.past.states self.now.changes }
        ensures lawful { AllByRecursion IsState self.now.past.states }
    {
        self.changes.len()
    }
}

impl History for ChangeHistory {
    ghost past = { λ h. h.past };

    ghost changes = { λ h. h.changes };

    fn state(&self) -> &State {
        &self.state
    }

    fn cursor(&self) -> usize {
        self.cursor
    }

    fn steps(&self) -> usize {
        self.count()
    }

    fn change(&self, step: usize) -> &Change {
        &self.changes[step - 1]
    }

    fn push(&mut self, _alloc: Global, edited: Edited) -> Result<(), AllocError> {
        let Edited { state, change } = edited;
        state.recall_invariant();
        let place = push_at(&mut self.changes, self.cursor, change)?;
        self.state = state;
        self.cursor = place;
        Ok(())
    }

    fn undo(&mut self, alloc: Global) -> Result<(), Refusal> {
        if self.cursor == 0 {
            return Err(Refusal::NothingToUndo);
        }
        let place = self.cursor - 1;
        let back = self.changes[place].inverse(alloc)?;
        back.carry(alloc, &mut self.state)?;
        self.cursor = place;
        Ok(())
    }

    fn redo(&mut self, alloc: Global) -> Result<(), Refusal> {
        if self.cursor >= self.count() {
            return Err(Refusal::NothingToRedo);
        }
        self.changes[self.cursor].carry(alloc, &mut self.state)?;
        self.cursor += 1;
        Ok(())
    }
}
