// The state that a change leads to.

ghost use Rattle.std.specs.Prelude.{◌≡◌, IfOk, MatchOption, OnErr, OnOk};
ghost use Rattle.changes.specs.Changes.{Leads, LeadsNowhere};
ghost use Rattle.changes.specs.Tied.Outcome.{with_outcome};
ghost use Rattle.states.specs.State.{IsState};
ghost use Rattle.states.specs.StateParts.{StateParts};

use crate::change::Change;
use crate::change::carried_over::is_state;
use crate::change::outcome::{Outcome, outcome_of};
use crate::change::spliced_lines::kept;
use lists::Seq;
use pep508::laws::a_file_reads_as_lines;
use pep508::{Line, ReqFile};
use states::{State, Target};
use std::alloc::{AllocError, Global};

/// What the change makes of the lines and the targets of a state; `None` where it leads to no state.
pub(crate) fn led(
    alloc: Global,
    change: &Change,
    lines: Seq<Line>,
    targets: &[Target],
) -> Result<Option<Outcome>, AllocError>
    requires { IsState (record { lines = lines; targets = targets.now }) }
    ensures { IfOk result (λ made.
        let old : StateParts = record { lines = lines; targets = targets.now } in
        MatchOption made (LeadsNowhere old change.now)
        (λ made. Leads old change.now (with_outcome made))) }
{
    let Some(made) = outcome_of(alloc, change, lines, targets)? else {
        return Ok(None);
    };
    if !is_state(alloc, change, &made)? {
        return Ok(None);
    }
    Ok(Some(made))
}

/// The state that the change of a state leads to; `None` where it leads nowhere.
pub(crate) fn applied(
    alloc: Global,
    change: &Change,
    state: &State,
) -> Result<Option<State>, AllocError>
    ensures { IfOk result (λ applied. MatchOption applied (LeadsNowhere state.now change.now)
        (Leads state.now change.now)) }
{
    a_file_reads_as_lines();
    state.recall_invariant();
    let lines = kept(alloc, state.lines().lines())?;
    let Some(made) = led(alloc, change, lines, state.targets())? else {
        return Ok(None);
    };
    let Outcome { lines, targets, .. } = made;
    Ok(Some(State::from_lawful(ReqFile::from_lines(lines), targets)))
}

/// Moves the state along the change, which leads from it. What the change doesn't name stays where it
/// is: no line is read but the new ones, and whether it is a state isn't tested.
pub(crate) fn carried(alloc: Global, change: &Change, state: &mut State) -> Result<(), AllocError>
    requires { (next : StateParts) × Leads state.old change.now next }
    ensures led { OnOk result (Leads state.old change.now state.new) }
    ensures kept { OnErr result (state.new ≡ state.old) }
{
    state.recall_invariant();
    let lines = kept(alloc, state.lines().lines())?;
    let Some(made) = outcome_of(alloc, change, lines, state.targets())? else {
        unreachable!();
    };
    let Outcome { lines, targets, .. } = made;
    state.replace(lines, targets);
    Ok(())
}
