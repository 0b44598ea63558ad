// States at places of a history, and what differs between two.

ghost use Rattle.std.specs.Prelude.{◌≡◌, ◌+◌, ◌-◌, ◌<◌, ◌≤◌, length, Some, slice_get, IfOk, OnOk};
ghost use Rattle.journal.specs.Places.{IsBetween};

use crate::history::History;
use edits::{Change, State, difference};
use std::alloc::{AllocError, Global};

/// Moves a state from its place in the history to the one in front.
fn step_back<H: History>(
    alloc: Global,
    history: &H,
    state: &mut State,
    place: usize,
) -> Result<(), AllocError>
    requires some { 0 < place }
    requires within { place < length (H.past history.now).states }
    requires at { slice_get (H.past history.now).states place ≡ Some state.old }
    ensures at { OnOk result
        (slice_get (H.past history.now).states (place - 1) ≡ Some state.new) }
{
    let _steps = history.steps();
    let back = history.change(place).inverse(alloc)?;
    back.carry(alloc, state)?;
    Ok(())
}

/// Moves a state from its place in the history to the one behind.
fn step_on<H: History>(
    alloc: Global,
    history: &H,
    state: &mut State,
    place: usize,
) -> Result<(), AllocError>
    requires within { place + 1 < length (H.past history.now).states }
    requires at { slice_get (H.past history.now).states place ≡ Some state.old }
    ensures at { OnOk result
        (slice_get (H.past history.now).states (place + 1) ≡ Some state.new) }
{
    let _steps = history.steps();
    history.change(place + 1).carry(alloc, state)?;
    Ok(())
}

/// The state at a place that isn't behind that of the given one.
fn back_to<H: History>(
    alloc: Global,
    history: &H,
    state: State,
    from: usize,
    to: usize,
) -> Result<State, AllocError>
    requires order { to ≤ from }
    requires within { from < length (H.past history.now).states }
    requires at { slice_get (H.past history.now).states from ≡ Some state }
    ensures at { IfOk result
        (λ moved. slice_get (H.past history.now).states to ≡ Some moved) }
{
    let mut moved = state;
    for gone in 0..from - to {
        step_back(alloc, history, &mut moved, from - gone)?;
    }
    Ok(moved)
}

/// The state at a place that isn't in front of that of the given one.
fn on_to<H: History>(
    alloc: Global,
    history: &H,
    state: State,
    from: usize,
    to: usize,
) -> Result<State, AllocError>
    requires order { from ≤ to }
    requires within { to < length (H.past history.now).states }
    requires at { slice_get (H.past history.now).states from ≡ Some state }
    ensures at { IfOk result
        (λ moved. slice_get (H.past history.now).states to ≡ Some moved) }
{
    let mut moved = state;
    for place in from..to {
        step_on(alloc, history, &mut moved, place)?;
    }
    Ok(moved)
}

/// The state at a place of the history.
pub(crate) fn state_at<H: History>(
    alloc: Global,
    history: &H,
    place: usize,
) -> Result<State, AllocError>
    requires within { place < length (H.past history.now).states }
    ensures at { IfOk result
        (λ state. slice_get (H.past history.now).states place ≡ Some state) }
{
    let _steps = history.steps();
    let cursor = history.cursor();
    let state = history.state().clone()?;
    if place < cursor {
        return back_to(alloc, history, state, cursor, place);
    }
    on_to(alloc, history, state, cursor, place)
}

/// The difference between the states at a place and one that isn't in front of it.
fn way_on<H: History>(
    alloc: Global,
    history: &H,
    from: usize,
    to: usize,
) -> Result<Change, AllocError>
    requires order { from ≤ to }
    requires within { to < length (H.past history.now).states }
    ensures between { IfOk result (IsBetween (H.past history.now) from to) }
{
    let old = state_at(alloc, history, from)?;
    let new = on_to(alloc, history, old.clone()?, from, to)?;
    let change = difference(alloc, &old, &new)?;
    Ok(change)
}

/// The difference between the states at two places of the history. The way back is the inverse of the way
/// there.
pub(crate) fn difference_between<H: History>(
    alloc: Global,
    history: &H,
    from: usize,
    to: usize,
) -> Result<Change, AllocError>
    requires from { from < length (H.past history.now).states }
    requires to { to < length (H.past history.now).states }
    ensures between { IfOk result (IsBetween (H.past history.now) from to) }
{
    if to < from {
        let back = way_on(alloc, history, to, from)?.inverse(alloc)?;
        return Ok(back);
    }
    way_on(alloc, history, from, to)
}
