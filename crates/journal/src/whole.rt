// The history that keeps each state whole.

ghost use Rattle.std.specs.Prelude.{◌≡◌, ◌+◌, ◌-◌, ◌<◌, [], IfOk};
ghost use Rattle.std.specs.List.{AllByRecursion};
ghost use Rattle.states.specs.State.{IsState};
ghost use Rattle.journal.specs.Changes.{AreSteps};
ghost use Rattle.journal.specs.Past.{starts};

use crate::history::History;
use edits::{Change, Edited, Refusal, State};
use std::alloc::{AllocError, Global};
use std::marker::Model;

/// A history that keeps each state whole, and beside it the change of each step. In a clause it is its
/// past and its changes.
pub struct WholeHistory {
    states: Vec<State>,
    changes: Vec<Change>,
    cursor: usize,
}

impl Drop for WholeHistory {
    fn drop(self) {
        let WholeHistory {
            states: _,
            changes: _,
            cursor: _,
        } = self;
    }
}

impl Model for WholeHistory {
    ghost use Rattle.std.specs.Prelude.{◌≡◌, ◌+◌, ◌<◌, vec_len};
    ghost use Rattle.std.specs.List.{AllByRecursion};
    ghost use Rattle.states.specs.State.{IsState};
    ghost use Rattle.journal.specs.Changes.{AreSteps, HistoryParts};

    ghost Value = { HistoryParts };

    ghost view = { λ h. record {
      past = record { states = h.states.items; cursor = h.cursor };
      changes = h.changes.items;
    } };

    ghost invariant = { λ h. record {
      cursor : h.cursor < vec_len h.states;
      count : vec_len h.states ≡ vec_len h.changes + 1;
      steps : AreSteps h.states.items h.changes.items;
      lawful : AllByRecursion IsState h.states.items;
    } };
}

impl WholeHistory {
    /// The history whose only state is this one.
    pub fn new(alloc: Global, state: State) -> Result<WholeHistory, AllocError>
        ensures start { IfOk result
            (λ history. history ≡ record { past = starts state; changes = [] }) }
    {
        state.recall_invariant();
        let mut states = Vec::with_capacity(alloc, 1)?;
        states.push_reserved(state);
        Ok(WholeHistory {
            states,
            changes: Vec::new(alloc),
            cursor: 0,
        })
    }
}

impl History for WholeHistory {
    ghost past = { λ h. h.past };

    ghost changes = { λ h. h.changes };

    fn state(&self) -> &State {
        &self.states[self.cursor]
    }

    fn cursor(&self) -> usize {
        self.cursor
    }

    fn steps(&self) -> usize {
        self.states.len() - 1
    }

    fn change(&self, step: usize) -> &Change {
        &self.changes[step - 1]
    }

    fn push(&mut self, _alloc: Global, edited: Edited) -> Result<(), AllocError> {
        let next = self.cursor + 1;
        // What is cut off leaves room enough.
        if next == self.states.len() {
            self.states.reserve(1)?;
            self.changes.reserve(1)?;
        }
        let Edited { state, change } = edited;
        state.recall_invariant();
        self.states.truncate(next);
        self.changes.truncate(self.cursor);
        self.states.push_reserved(state);
        self.changes.push_reserved(change);
        self.cursor = next;
        Ok(())
    }

    fn undo(&mut self, _alloc: Global) -> Result<(), Refusal> {
        if self.cursor == 0 {
            return Err(Refusal::NothingToUndo);
        }
        self.cursor -= 1;
        Ok(())
    }

    fn redo(&mut self, _alloc: Global) -> Result<(), Refusal> {
        if self.cursor + 1 == self.states.len() {
            return Err(Refusal::NothingToRedo);
        }
        self.cursor += 1;
        Ok(())
    }
}
