// States that changes move in place.

ghost use Rattle.std.specs.Prelude.{◌≡◌, IfOk, MatchOption};
ghost use Rattle.changes.specs.Changes.{Leads, LeadsNowhere};

use crate::change::Change;
use crate::change::application::led;
use crate::change::outcome::Outcome;
use crate::change::spliced_lines::kept;
use lists::Seq;
use pep508::Line;
use states::{State, Target};
use std::alloc::{AllocError, Global};
use std::marker::Model;

/// A state that changes move, one after the other. Each is done in place, so that it costs what it touches and not
/// what stays. In a clause it is the state.
pub struct MovingState {
    lines: Seq<Line>,
    targets: Seq<Target>,
}

impl Drop for MovingState {
    fn drop(self) {
        let MovingState {
            lines: _,
            targets: _,
        } = self;
    }
}

impl Model for MovingState {
    ghost use Rattle.states.specs.StateParts.{StateParts};
    ghost use Rattle.states.specs.State.{IsState};

    ghost Value = { StateParts };

    ghost view = { λ s. record {
      lines = s.lines;
      targets = s.targets;
    } };

    ghost invariant = { λ s. IsState (record {
      lines = s.lines;
      targets = s.targets;
    }) };
}

impl MovingState {
    /// The state, to be moved.
    pub fn of(alloc: Global, state: &State) -> Result<MovingState, AllocError>
        ensures { IfOk result (λ moving. moving ≡ state.now) }
    {
        let (file, targets) = state.clone()?.into_parts();
        let lines = kept(alloc, file.lines())?;
        state.recall_invariant();
        Ok(MovingState { lines, targets })
    }

    /// The state that the change leads to; `None` where one of its old parts doesn't stand in its place, where
    /// the state lacks the target of an entry, or where what it leads to is no state: as `Change::apply` has it.
    pub fn along(self, alloc: Global, change: &Change) -> Result<Option<MovingState>, AllocError>
        ensures { IfOk result (λ moved. MatchOption moved (LeadsNowhere self change.now)
            (Leads self change.now)) }
    {
        let MovingState { lines, targets } = self;
        let Some(made) = led(alloc, change, lines, targets.as_slice())? else {
            return Ok(None);
        };
        let Outcome { lines, targets, .. } = made;
        Ok(Some(MovingState { lines, targets }))
    }
}
