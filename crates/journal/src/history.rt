// What every history does, however it keeps its states.

ghost use Rattle.std.specs.Prelude.{◌≡◌, ◌⊎◌, ◌↔◌, ◌+◌, ◌-◌, ◌<◌, List, length, Some, slice_get, if◌then◌else◌, is_ok, OnOk, OnErr, IfErr, IsErrOf, IsSomeAnd};
ghost use Rattle.std.specs.List.{AllByRecursion};
ghost use Rattle.changes.specs.Changes.{ChangeParts};
ghost use Rattle.states.specs.State.{IsState};
ghost use Rattle.journal.specs.Changes.{AreSteps, IsChange, IsStepOf, with_change};
ghost use Rattle.journal.specs.Past.{Past, present, pushed, IsUndone, IsRedone, IsAtStart, IsAtEnd};

use edits::{Change, Edited, Refusal, State};
use std::alloc::{AllocError, Global};

/// The states since the start, with a cursor on the present one.
pub trait History {
    ghost past: { Self → Past };

    ghost changes: { Self → List ChangeParts };

    /// The present state. It has no refusal.
    fn state(&self) -> &State
        ensures present { present (past self.now) ≡ Some result.now };

    /// The place of the present state, from 0. It has no refusal.
    fn cursor(&self) -> usize
        ensures cursor { result ≡ (past self.now).cursor };

    /// How many steps there are from the first state to the last, each with the change that leads from
    /// the state before it to the next. It has no refusal.
    fn steps(&self) -> usize
        ensures steps { result + 1 ≡ length (past self.now).states }
        ensures lead { AreSteps (past self.now).states (changes self.now) }
        ensures lawful { AllByRecursion IsState (past self.now).states };

    /// The change of a step, from 1 to `steps`: it leads from the state before the step to the one
    /// behind it. It has no refusal.
    fn change(&self, step: usize) -> &Change
        requires first { 0 < step }
        requires last { step < length (past self.now).states }
        ensures change { slice_get (changes self.now) (step - 1) ≡ Some result.now }
        ensures step { IsStepOf (past self.now) step result.now };

    /// Cuts what follows the present state, puts the new one behind it and moves there; the change
    /// leads to it from the present state. Where memory is refused, the new state is dropped and the
    /// history is what it was.
    fn push(&mut self, alloc: Global, edited: Edited) -> Result<(), AllocError>
        requires { IsSomeAnd (present (past self.old))
            (λ state. IsChange state edited.change edited.state) }
        ensures past { past self.new
            ≡ (if is_ok result then pushed (past self.old) edited.state else past self.old) }
        ensures changes { changes self.new
            ≡ (if is_ok result
            then with_change (past self.old).cursor (changes self.old) edited.change
            else changes self.old) };

    /// Goes back to the state before the present one.
    fn undo(&mut self, alloc: Global) -> Result<(), Refusal>
        ensures undone { OnOk result (IsUndone (past self.old) (past self.new)) }
        ensures at_start { IsErrOf result Refusal.NothingToUndo ↔ IsAtStart (past self.old) }
        ensures refusals { IfErr result (λ r. (r ≡ Refusal.NothingToUndo)
            ⊎ (r ≡ Refusal.OutOfMemory)) }
        ensures changes { changes self.new ≡ changes self.old }
        ensures kept { OnErr result (past self.new ≡ past self.old) };

    /// Goes on to the state behind the present one.
    fn redo(&mut self, alloc: Global) -> Result<(), Refusal>
        ensures redone { OnOk result (IsRedone (past self.old) (past self.new)) }
        ensures at_end { IsErrOf result Refusal.NothingToRedo ↔ IsAtEnd (past self.old) }
        ensures refusals { IfErr result (λ r. (r ≡ Refusal.NothingToRedo)
            ⊎ (r ≡ Refusal.OutOfMemory)) }
        ensures changes { changes self.new ≡ changes self.old }
        ensures kept { OnErr result (past self.new ≡ past self.old) };
}
