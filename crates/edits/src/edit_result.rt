// Edits, and what they lead to.

ghost use Rattle.lists.specs.Answers.{Answers};
ghost use Rattle.std.specs.Prelude.{◌≡◌, ◌≢◌, ◌⊎◌, ◌≤◌, [], length, map, IfOk, IfErr, None, Some, Ok, Err, true};
ghost use Rattle.edits.specs.Edits.{
  EditResult,
  FirstResult,
  InitResult,
  Locks,
  lines_after,
  problems_after,
  refusal_of,
};
ghost use Rattle.edits.specs.Refused.{or_refused, refused_by_lines};
ghost use Rattle.lists.specs.Rising.{rises};
ghost use Rattle.changes.specs.Changes.{After, IsMinimal};
ghost use Rattle.states.specs.Locks.{given_for};
ghost use Rattle.states.specs.declared.refusal.Refusal.TheVariants.{OutOfMemory};

use crate::addition::added;
use crate::constraint::constrained;
use crate::first_targets::FirstTargets;
use crate::kept_versions::{all_first, unlocked};
use crate::removal::removed;
use crate::request::{Edit, Edited};
use changes::change_between;
use lists::Seq;
use pep508::ReqFile;
use resolve::{Problem, Resolver};
use snapshot::Snapshot;
use states::{Pool, Refusal, State, TargetName, Targets, Unlocked, locked};
use std::alloc::{AllocError, Global};

/// The state of the lines, with the targets' locks over the versions that are kept.
fn with_locks<R: Resolver>(
    alloc: Global,
    lines: ReqFile,
    targets: Seq<Unlocked>,
    pool: &Pool<'_>,
    resolver: &R,
) -> Result<State, Refusal>
    requires some { targets ≢ [] }
    requires rising { rises (map (λ u. u.name) targets) ≡ true }
    ensures ok { IfOk result (λ state.
        Locks None (map (given_for lines pool.now) targets) lines (Ok state)) }
    ensures err { IfErr result (λ refusal. (refusal ≡ OutOfMemory)
        ⊎ Locks None (map (given_for lines pool.now) targets) lines (Err refusal)) }
{
    match locked(alloc, lines, targets, pool, resolver)? {
        Some(state) => Ok(state),
        None => Err(Refusal::NoSolution),
    }
}

/// The state that a history of the file begins with: its lines, with a lock for each of the targets. No
/// version is kept.
pub fn init<R: Resolver>(
    alloc: Global,
    lines: ReqFile,
    targets: Targets,
    snapshot: &Snapshot,
    resolver: &R,
) -> Result<State, Refusal>
    ensures ok { IfOk result (λ state. InitResult lines targets snapshot.now (Ok state)) }
    ensures err { IfErr result (λ refusal. (refusal ≡ OutOfMemory)
        ⊎ InitResult lines targets snapshot.now (Err refusal)) }
{
    let pins = Seq::new(alloc);
    init_keeping(
        alloc,
        lines,
        FirstTargets { targets, pins },
        snapshot,
        resolver,
    )
}

/// The same, where the versions that are handed in for a target are kept in its lock, as an edit keeps those of
/// an old lock.
pub fn init_keeping<R: Resolver>(
    alloc: Global,
    lines: ReqFile,
    first: FirstTargets,
    snapshot: &Snapshot,
    resolver: &R,
) -> Result<State, Refusal>
    ensures ok { IfOk result
        (λ state. FirstResult lines first.targets first.pins snapshot.now (Ok state)) }
    ensures err { IfErr result (λ refusal. (refusal ≡ OutOfMemory)
        ⊎ FirstResult lines first.targets first.pins snapshot.now (Err refusal)) }
{
    let targets = all_first(alloc, first, snapshot)?;
    with_locks(alloc, lines, targets, &Pool::whole(snapshot), resolver)
}

/// The lines after the edit.
pub(crate) fn lines_after(alloc: Global, lines: &ReqFile, edit: &Edit) -> Result<ReqFile, Refusal>
    ensures { Answers OutOfMemory
        (or_refused (refused_by_lines lines.now edit.now) (lines_after lines.now edit.now)) result }
{
    match edit {
        Edit::Add(text) => added(alloc, lines, text),
        Edit::Remove(name) => removed(alloc, lines, name),
        Edit::Constrain(name, specifiers) => constrained(alloc, lines, name, specifiers),
        Edit::Replace(new, _) => Ok(new.clone()?),
        Edit::Upgrade(_) | Edit::UpgradeAll | Edit::Relock | Edit::Retarget(_, _) => {
            Ok(lines.clone()?)
        }
    }
}

/// The problem of the target, under its name.
fn problem_for<'a>(
    alloc: Global,
    lines: &ReqFile,
    target: Unlocked,
    pool: &Pool<'a>,
) -> Result<(TargetName, Problem<'a>), AllocError>
    ensures { IfOk result (λ problem. problem ≡ given_for lines.now pool.now target) }
{
    let (name, environment, kept) = target.into_parts();
    Ok((name, pool.problem(alloc, lines, &environment, kept)?))
}

/// The problems of the targets, under their names.
pub(crate) fn problems_for<'a>(
    alloc: Global,
    lines: &ReqFile,
    targets: Seq<Unlocked>,
    pool: &Pool<'a>,
) -> Result<Seq<(TargetName, Problem<'a>)>, AllocError>
    ensures { IfOk result
        (λ problems. problems ≡ map (given_for lines.now pool.now) targets) }
{
    let mut problems = Vec::with_capacity(alloc, targets.len())?;
    for target in targets.into_vec() {
        problems.push(problem_for(alloc, lines, target, pool)?)?;
    }
    Ok(Seq::from_vec(problems))
}

/// The problems whose best solutions the edit of the state would lock, over the pool: for each
/// target, under its name and in the order of names, that of the lines after the edit, with the versions
/// that the edit keeps for the target. They may have no solution. Where lines and locks refuse the
/// edit, the first refusal is answered. The state stays.
pub fn problem_after<'a>(
    alloc: Global,
    state: &State,
    edit: &Edit,
    pool: &Pool<'a>,
) -> Result<Seq<(TargetName, Problem<'a>)>, Refusal>
    ensures ok { IfOk result (λ problems. (refusal_of state.now edit.now ≡ None)
        × (problems ≡ problems_after state.now edit.now pool.now)) }
    ensures err { IfErr result (λ refusal. (refusal ≡ OutOfMemory)
        ⊎ (refusal_of state.now edit.now ≡ Some refusal)) }
{
    let after = lines_after(alloc, state.lines(), edit)?;
    let targets = unlocked(alloc, state, edit, pool)?;
    let problems = problems_for(alloc, &after, targets, pool)?;
    Ok(problems)
}

/// What the edit of the state leads to, over the pool: the new state, and the minimal change that
/// leads to it. Each target gets a new lock, or none does. The state stays.
pub fn edit<R: Resolver>(
    alloc: Global,
    state: &State,
    edit: &Edit,
    pool: &Pool<'_>,
    resolver: &R,
) -> Result<Edited, Refusal>
    ensures ok { IfOk result
        (λ edited. EditResult state.now edit.now pool.now (Ok edited.state)) }
    ensures minimal { IfOk result (λ edited. IsMinimal edited.change) }
    ensures change { IfOk result (λ edited. After state.now edited.change edited.state) }
    ensures one_splice { IfOk result (λ edited. length edited.change.splices ≤ 1) }
    ensures err { IfErr result (λ refusal. (refusal ≡ OutOfMemory)
        ⊎ EditResult state.now edit.now pool.now (Err refusal)) }
{
    let lines = lines_after(alloc, state.lines(), edit)?;
    let targets = unlocked(alloc, state, edit, pool)?;
    let edited = with_locks(alloc, lines, targets, pool, resolver)?;
    let change = change_between(alloc, state, &edited)?;
    if change.is_empty() {
        return Err(Refusal::NothingChanges);
    }
    change.recall_invariant();
    Ok(Edited {
        state: edited,
        change,
    })
}
