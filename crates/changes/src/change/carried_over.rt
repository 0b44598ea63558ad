// What carries over from a state to the one that a change makes of it.

ghost use Rattle.std.specs.Prelude.{◌≡◌, ◌≢◌, ◌↔◌, [], IfOk, IsTrue, Ok, true};
ghost use Rattle.std.specs.List.{AllByRecursion, concat, list_all};
ghost use Rattle.pep508.specs.Lines.{AreLines};
ghost use Rattle.pep508.specs.Requirement.{file_of, requirement_of};
ghost use Rattle.problems.specs.Problem.{active_in, requirements};
ghost use Rattle.pylock.specs.Locks.{IsLock, are_entries};
ghost use Rattle.states.specs.State.{Fits, IsState};
ghost use Rattle.states.specs.StateParts.{StateParts, digest_of};
ghost use Rattle.states.specs.Tied.LockForLines.{IsLineMet};
ghost use Rattle.changes.specs.Changes.{ChangeParts, rise_by_target};
ghost use Rattle.changes.specs.Tied.CarriedOver.{AreAllMet, AreTouchedMet, IsAskedBy, IsChanged, IsChangedMet, IsReachedFrom, KeepNames, KeepsName, KeepsNeeds};
ghost use Rattle.changes.specs.Tied.Outcome.{IsMade, with_outcome};
ghost use Rattle.changes.specs.Tied.Whole.{is_ended};

use crate::change::Change;
use crate::change::by_target::own_changes;
use crate::change::file::{are_ended, are_lines, recall_invariants};
use crate::change::outcome::Outcome;
use crate::change::parts::EntryChange;
use crate::change::spliced_lines::kept;
use crate::same::{Same, are_same};
use pep508::laws::a_file_reads_as_lines;
use pep508::{Environment, Line, Name, ReqFile};
use pylock::Entry;
use states::{Target, are_closed, are_lines_met, are_reached, first_unfit, is_line_met};
use std::alloc::{AllocError, Global};

// ---- what each needs

/// Whether an entry takes the place of one that needs the same names.
fn keeps_needs(change: &EntryChange) -> bool
    ensures { IsTrue result → KeepsNeeds change.now }
{
    match (&change.old, &change.new) {
        (Some(old), Some(new)) => are_same(new.dependencies(), old.dependencies()),
        _ => false,
    }
}

/// Whether that is so of each of these changes.
fn keep_needs(changes: &[EntryChange]) -> bool
    ensures { IsTrue result → AllByRecursion KeepsNeeds changes.now }
{
    for change in changes {
        if !keeps_needs(change) {
            return false;
        }
    }
    true
}

/// Whether the line is active and asks for the name.
fn asks_for(environment: &Environment, line: &Line, name: &Name) -> bool
    ensures { IsTrue result
        → IsAskedBy (active_in environment.now (requirement_of line.now)) name.now }
{
    match line.requirement() {
        Some(requirement) if requirement.name().is_same(name) => requirement.is_active(environment),
        _ => false,
    }
}

/// Whether an active line asks for the name.
fn is_asked(environment: &Environment, lines: &[Line], name: &Name) -> bool
    ensures { IsTrue result → IsAskedBy (requirements environment.now lines.now) name.now }
{
    for line in lines {
        if asks_for(environment, line, name) {
            return true;
        }
    }
    false
}

/// Whether what the line asks for, where it is active, is asked for by an active one of these lines.
fn keeps_name(environment: &Environment, lines: &[Line], line: &Line) -> bool
    ensures { IsTrue result → KeepsName environment.now lines.now line.now }
{
    match line.requirement() {
        Some(requirement) if requirement.is_active(environment) => {
            is_asked(environment, lines, requirement.name())
        }
        _ => true,
    }
}

/// Whether that is so of each of some lines.
fn keep_names(lines: &[Line], some: &[Line], target: &Target) -> bool
    ensures { IsTrue result → KeepNames lines.now some.now target.now }
{
    for line in some {
        if !keeps_name(&target.environment, lines, line) {
            return false;
        }
    }
    true
}

/// Whether that is so in the environment of each target.
fn all_keep_names(lines: &[Line], some: &[Line], targets: &[Target]) -> bool
    ensures { IsTrue result → AllByRecursion (KeepNames lines.now some.now) targets.now }
{
    for target in targets {
        if !keep_names(lines, some, target) {
            return false;
        }
    }
    true
}

// ---- what is met

/// Whether one of the changes is on the name.
fn is_changed(changes: &[EntryChange], name: &Name) -> bool
    ensures { IsTrue result ↔ IsChanged changes.now name.now }
{
    for change in changes {
        if change.name.is_same(name) {
            return true;
        }
    }
    false
}

/// Whether what the line asks for, where it is active and on the name of a change, is met.
fn is_changed_met(
    environment: &Environment,
    entries: &[Entry],
    changes: &[EntryChange],
    line: &Line,
) -> bool
    requires { are_entries entries.now ≡ true }
    ensures met { IsTrue result → IsChangedMet environment.now entries.now changes.now line.now }
    ensures only { IsLineMet environment.now entries.now line.now → IsTrue result }
{
    match line.requirement() {
        Some(requirement) if is_changed(changes, requirement.name()) => {
            is_line_met(environment, entries, line)
        }
        _ => true,
    }
}

/// Whether that is so of each of the lines. Where there is no change none is looked at.
fn are_changed_met(
    environment: &Environment,
    entries: &[Entry],
    changes: &[EntryChange],
    lines: &[Line],
) -> bool
    requires { are_entries entries.now ≡ true }
    ensures met { IsTrue result → AllByRecursion
        (IsChangedMet environment.now entries.now changes.now) lines.now }
    ensures only { AllByRecursion (IsLineMet environment.now entries.now) lines.now → IsTrue result }
{
    if changes.is_empty() {
        return true;
    }
    for line in lines {
        if !is_changed_met(environment, entries, changes, line) {
            return false;
        }
    }
    true
}

/// Whether the target's lock meets the lines that were put in, and of all lines those on the names of its
/// changes.
fn are_touched_met(changes: &[EntryChange], put: &[Line], lines: &[Line], target: &Target) -> bool
    requires { rise_by_target changes.now ≡ true }
    ensures met { IsTrue result
        → AreTouchedMet changes.now put.now lines.now target.now × IsLock target.now.lock }
    ensures only { AreAllMet put.now target.now × AreAllMet lines.now target.now → IsTrue result }
{
    target.lock.recall_invariant();
    let entries = target.lock.entries();
    let own = own_changes(changes, &target.name);
    if !are_lines_met(&target.environment, entries, put) {
        return false;
    }
    are_changed_met(&target.environment, entries, own, lines)
}

/// Whether that is so of each target's lock.
fn all_touched_met(
    changes: &[EntryChange],
    put: &[Line],
    lines: &[Line],
    targets: &[Target],
) -> bool
    requires { rise_by_target changes.now ≡ true }
    ensures met { IsTrue result → AllByRecursion
        (λ t. AreTouchedMet changes.now put.now lines.now t × IsLock t.lock) targets.now }
    ensures only { AllByRecursion (λ t. AreAllMet put.now t × AreAllMet lines.now t) targets.now
        → IsTrue result }
{
    for target in targets {
        if !are_touched_met(changes, put, lines, target) {
            return false;
        }
    }
    true
}

// ---- who is reached

/// Whether the target's lock is closed, and each entry of it is reached from the lines.
fn is_reached(alloc: Global, lines: &[Line], target: &Target) -> Result<bool, AllocError>
    ensures { IfOk result (λ is. IsTrue is ↔ IsReachedFrom lines.now target.now) }
{
    target.lock.recall_invariant();
    let entries = target.lock.entries();
    if !are_closed(entries, entries) {
        return Ok(false);
    }
    are_reached(alloc, &target.environment, lines, entries)
}

/// Whether that is so of each target's lock.
fn all_reached(alloc: Global, lines: &[Line], targets: &[Target]) -> Result<bool, AllocError>
    ensures { IfOk result (λ are. IsTrue are ↔ AllByRecursion (IsReachedFrom lines.now) targets.now) }
{
    for target in targets {
        if !is_reached(alloc, lines, target)? {
            return Ok(false);
        }
    }
    Ok(true)
}

// ---- the state

/// Whether all old lines had an ending, and all that were put in have one.
fn is_each_ended(made: &Outcome) -> bool
    ensures { IsTrue result → IsTrue made.now.was_ended × (list_all is_ended made.now.put ≡ true) }
{
    made.was_ended && are_ended(made.put.as_slice())
}

/// Whether the lines are those of a file. Where each of them has an ending they are.
fn are_lines_still(made: &Outcome) -> bool
    requires { (old : StateParts) × (change : ChangeParts) × IsState old × IsMade old change made.now }
    ensures lines { IsTrue result ↔ AreLines made.now.lines }
    ensures read { IsTrue result → file_of (concat made.now.lines) ≡ Ok made.now.lines }
{
    let lines = made.lines.as_slice();
    if is_each_ended(made) {
        recall_invariants(lines);
        return true;
    }
    are_lines(lines)
}

/// Whether each entry that was put in needs what the one before it needed, and each name that lines asked for is
/// asked for still. All entries are reached as before then.
fn reaches_as_before(change: &Change, made: &Outcome) -> bool
    ensures { IsTrue result → AllByRecursion KeepsNeeds change.now.entries
        × AllByRecursion (KeepNames made.now.lines made.now.gone) made.now.targets }
{
    keep_needs(change.entries())
        && all_keep_names(
            made.lines.as_slice(),
            made.gone.as_slice(),
            made.targets.as_slice(),
        )
}

/// Whether what a change by which targets stay made of a state is a state. Of what is met only that is tested which the
/// change touched: lines that it put in, and lines on the names of its entries. Who is reached is tested where it isn't
/// as before.
fn is_still_state(alloc: Global, change: &Change, made: &Outcome) -> Result<bool, AllocError>
    requires stays { change.now.targets ≡ [] }
    requires made { (old : StateParts) × IsState old × IsMade old change.now made.now }
    ensures { IfOk result (λ is. IsTrue is ↔ IsState (with_outcome made.now)) }
{
    a_file_reads_as_lines();
    change.recall_invariant();
    let lines = made.lines.as_slice();
    let targets = made.targets.as_slice();
    if !are_lines_still(made) {
        return Ok(false);
    }
    if !all_touched_met(change.entries(), made.put.as_slice(), lines, targets) {
        return Ok(false);
    }
    if reaches_as_before(change, made) {
        return Ok(true);
    }
    all_reached(alloc, lines, targets)
}

/// Whether all targets fit the lines, which are those of a file.
fn do_fit(alloc: Global, lines: &[Line], targets: &[Target]) -> Result<bool, AllocError>
    requires { AreLines lines.now }
    ensures { IfOk result (λ are. IsTrue are
        ↔ AllByRecursion (Fits lines.now (digest_of targets.now)) targets.now) }
{
    let file = ReqFile::from_lines(kept(alloc, lines)?);
    match first_unfit(alloc, &file, targets)? {
        Some(_) => Ok(false),
        None => Ok(true),
    }
}

/// Whether what a change by which targets come, go or get another environment made of a state is a state. Each lock is
/// tested.
fn is_other_state(alloc: Global, change: &Change, made: &Outcome) -> Result<bool, AllocError>
    requires moves { change.now.targets ≢ [] }
    requires made { (old : StateParts) × IsState old × IsMade old change.now made.now }
    ensures { IfOk result (λ is. IsTrue is ↔ IsState (with_outcome made.now)) }
{
    a_file_reads_as_lines();
    if !are_lines_still(made) {
        return Ok(false);
    }
    if made.targets.is_empty() {
        return Ok(false);
    }
    do_fit(alloc, made.lines.as_slice(), made.targets.as_slice())
}

/// Whether what the change made of a state is a state.
pub(crate) fn is_state(alloc: Global, change: &Change, made: &Outcome) -> Result<bool, AllocError>
    requires { (old : StateParts) × IsState old × IsMade old change.now made.now }
    ensures { IfOk result (λ is. IsTrue is ↔ IsState (with_outcome made.now)) }
{
    if change.targets().is_empty() {
        return is_still_state(alloc, change, made);
    }
    is_other_state(alloc, change, made)
}
