// Walks along the steps of a journal from the present state, in both directions.

ghost use Rattle.std.specs.Prelude.{◌≡◌, ◌+◌, ◌^◌, ◌<◌, ◌≤◌, IfOk, length, reverse};
ghost use Rattle.std.specs.List.{AllByRecursion};
ghost use Rattle.std.specs.Result.{result_map_both};
ghost use Rattle.changes.specs.Changes.{IsMinimal, Leads, inverse};
ghost use Rattle.states.specs.declared.refusal.Refusal.TheVariants as refusals;
ghost use Rattle.journal.specs.Tied.Neighbours.{IsHistory, states_of};
ghost use Rattle.journal.specs.Tied.{Walks};
ghost use Rattle.journal.specs.Opens.{Found, PastOf, StatesBefore, StatesBehind, Tells};

use crate::change_history::ChangeHistory;
use changes::MovingState;
use edits::{Change, Refusal, State};
use lists::Seq;
use std::alloc::Global;

/// The state that the change leads to; the step's line has this number in the journal.
fn state_behind(
    alloc: Global,
    change: &Change,
    state: MovingState,
    number: usize,
) -> Result<MovingState, Refusal>
    ensures { Found (Leads state change.now) (refusals.JournalBroken number) result }
{
    match state.along(alloc, change)? {
        Some(next) => Ok(next),
        None => Err(Refusal::JournalBroken(number)),
    }
}

/// The state that the change leads back to; the step's line has this number in the journal.
fn state_before(
    alloc: Global,
    change: &Change,
    state: MovingState,
    number: usize,
) -> Result<MovingState, Refusal>
    ensures { Found (Leads state (inverse change.now)) (refusals.JournalBroken number) result }
{
    let back = change.inverse(alloc)?;
    state_behind(alloc, &back, state, number)
}

/// Walks back from the present state to the first one, along these changes, and keeps no state. Each
/// change leads back from the state that the one behind it led to.
fn walk_back(alloc: Global, changes: &[Change], present: &State) -> Result<(), Refusal>
    ensures { Walks (StatesBefore (reverse changes.now) present.now) result }
{
    let mut state = MovingState::of(alloc, present)?;
    for behind in 0..changes.len() {
        let place = changes.len() - 1 - behind;
        state = state_before(alloc, &changes[place], state, place + 2)?;
    }
    Ok(())
}

/// Walks on from the present state to the last one, along these changes, and keeps no state. The first
/// change is in the line of this number.
fn walk_on(alloc: Global, changes: &[Change], present: &State, number: usize) -> Result<(), Refusal>
    requires { number + length changes.now < 2 ^ 64 }
    ensures { Walks (StatesBehind number changes.now present.now) result }
{
    let mut state = MovingState::of(alloc, present)?;
    for place in 0..changes.len() {
        state = state_behind(alloc, &changes[place], state, number + place)?;
    }
    Ok(())
}

/// What holds of the changes: each of them is minimal.
fn recall_invariants(changes: &[Change])
    ensures { AllByRecursion IsMinimal changes.now }
{
    for place in 0..changes.len() {
        let change = &changes[place];
        change.recall_invariant();
    }
}

/// Walks from the present state back to the first one, and then on to the last: so many of the changes
/// lead up to it.
fn walk(alloc: Global, changes: &[Change], present: &State, cursor: usize) -> Result<(), Refusal>
    requires { cursor ≤ length changes.now }
    ensures history { IfOk result (λ _. IsHistory present.now changes.now cursor) }
    ensures past { Tells (PastOf cursor changes.now present.now) (result_map_both
        (λ _. record { states = states_of present.now changes.now cursor; cursor = cursor })
        (λ e. e) result) }
{
    recall_invariants(changes);
    present.recall_invariant();
    walk_back(alloc, &changes[..cursor], present)?;
    walk_on(alloc, &changes[cursor..], present, cursor + 2)?;
    Ok(())
}

/// The history of the present state and the changes, of which so many lead up to it.
pub(crate) fn history_of(
    alloc: Global,
    changes: Seq<Change>,
    present: State,
    cursor: u64,
) -> Result<ChangeHistory, Refusal>
    requires { cursor ≤ length changes }
    ensures past { Tells (PastOf cursor changes present) (result_map_both
        (λ h. h.past) (λ e. e) result) }
    ensures changes { IfOk result (λ h. h.changes ≡ changes) }
{
    let cursor = cursor as usize;
    let changes = changes.into_vec();
    walk(alloc, changes.as_slice(), &present, cursor)?;
    Ok(ChangeHistory::of_changes(present, changes, cursor))
}
