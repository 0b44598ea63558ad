// What changed between two places of the history.

ghost use Rattle.std.specs.Prelude.{IfErr, IfOk};
ghost use Rattle.calls.specs.Stops.{StopsBetween};
ghost use Rattle.journal.specs.Places.{IsBetween};

use edits::Change;
use journal::Session;
use std::alloc::Global;
use stops::Stop;

/// What differs between two places of the history, as the change from one to the other. The first place behind its last one is
/// refused.
pub fn difference_between(
    alloc: Global,
    session: &Session,
    from: usize,
    to: usize,
) -> Result<Change, Stop>
    ensures between { IfOk result (IsBetween session.now.past from to) }
    ensures refused { IfErr result (StopsBetween session.now.past from to) }
{
    let last = session.steps();
    if from > last {
        return Err(Stop::NoPlace(from));
    }
    if to > last {
        return Err(Stop::NoPlace(to));
    }
    Ok(session.difference_between(alloc, from, to)?)
}
