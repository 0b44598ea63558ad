// Whether a lock is one for lines in an environment.

ghost use Rattle.std.specs.Prelude.{◌≡◌, ◌↔◌, IfOk, IsTrue, true};
ghost use Rattle.std.specs.List.{AllByRecursion};
ghost use Rattle.std.specs.Option.{option_copied, option_map_or};
ghost use Rattle.markers.specs.Environment.{marker_text};
ghost use Rattle.pylock.specs.Locks.{are_entries};
ghost use Rattle.states.specs.State.{IsAnEntry, IsLockFor, IsMet, Meets, entry_on, is_for_python};
ghost use Rattle.states.specs.Tied.LockForLines.{IsClosed, IsLineMet};

use crate::state::reach::are_reached;
use pep508::{Environment, Line, Name, ReqFile, Requirement};
use pylock::{Entry, Lock};
use std::alloc::{AllocError, Global};

/// The entry of the name, if there is one. Names rise, so half of the entries are left out at each look.
pub(crate) fn entry_on<'a>(entries: &'a [Entry], name: &Name) -> Option<&'a Entry>
    requires { are_entries entries.now ≡ true }
    ensures { option_copied result ≡ entry_on entries.now name.now }
{
    match entries.binary_search_by(|entry| entry.name().normal().cmp(name.normal())) {
        Ok(place) => Some(&entries[place]),
        Err(_) => None,
    }
}

/// Whether the entry runs on the environment's Python: the set that it asks for has its full version.
fn runs(environment: &Environment, entry: &Entry) -> bool
    ensures { result
        ≡ option_map_or (is_for_python environment.now) entry.now.requires_python true }
{
    match entry.requires_python() {
        Some(python) => {
            python.recall_invariant();
            python.set().matches(environment.full_version())
        }
        None => true,
    }
}

/// Whether the entry of the requirement's name meets it.
fn meets(environment: &Environment, requirement: &Requirement, entry: &Entry) -> bool
    requires { entry.now.name ≡ requirement.now.name }
    ensures { IsTrue result ↔ Meets environment.now requirement.now entry.now }
{
    requirement.specifiers().matches(entry.version()) && runs(environment, entry)
}

/// Whether an entry meets the requirement.
fn is_met(environment: &Environment, entries: &[Entry], requirement: &Requirement) -> bool
    requires { are_entries entries.now ≡ true }
    ensures { IsTrue result ↔ IsMet environment.now entries.now requirement.now }
{
    match entry_on(entries, requirement.name()) {
        Some(entry) => meets(environment, requirement, entry),
        None => false,
    }
}

/// Whether an entry meets what the line asks for, where it is active.
pub fn is_line_met(environment: &Environment, entries: &[Entry], line: &Line) -> bool
    requires { are_entries entries.now ≡ true }
    ensures { IsTrue result ↔ IsLineMet environment.now entries.now line.now }
{
    match line.requirement() {
        Some(requirement) if requirement.is_active(environment) => {
            is_met(environment, entries, requirement)
        }
        _ => true,
    }
}

/// Whether entries meet what the active ones of the lines ask for.
pub fn are_lines_met(environment: &Environment, entries: &[Entry], lines: &[Line]) -> bool
    requires { are_entries entries.now ≡ true }
    ensures { IsTrue result ↔ AllByRecursion (IsLineMet environment.now entries.now) lines.now }
{
    for line in lines {
        if !is_line_met(environment, entries, line) {
            return false;
        }
    }
    true
}

/// Whether there is an entry of the name.
fn is_an_entry(entries: &[Entry], name: &Name) -> bool
    requires { are_entries entries.now ≡ true }
    ensures { IsTrue result ↔ IsAnEntry entries.now name.now }
{
    match entry_on(entries, name) {
        Some(_) => true,
        None => false,
    }
}

/// Whether there are entries of the names.
fn are_on_entries(entries: &[Entry], names: &[Name]) -> bool
    requires { are_entries entries.now ≡ true }
    ensures { IsTrue result ↔ AllByRecursion (IsAnEntry entries.now) names.now }
{
    for name in names {
        if !is_an_entry(entries, name) {
            return false;
        }
    }
    true
}

/// Whether there are entries of what each of these entries depends on.
pub fn are_closed(entries: &[Entry], some: &[Entry]) -> bool
    requires { are_entries entries.now ≡ true }
    ensures { IsTrue result ↔ AllByRecursion (IsClosed entries.now) some.now }
{
    for entry in some {
        if !are_on_entries(entries, entry.dependencies()) {
            return false;
        }
    }
    true
}

/// Whether the lock names the environment.
fn is_named(alloc: Global, environment: &Environment, lock: &Lock) -> Result<bool, AllocError>
    ensures { IfOk result
        (λ named. IsTrue named ↔ (lock.now.environment ≡ marker_text environment.now)) }
{
    let text = environment.marker_text(alloc)?;
    Ok(lock.environment() == text.as_str())
}

/// Whether the lock is one for the lines in the environment.
pub(crate) fn is_lock_for(
    alloc: Global,
    lines: &ReqFile,
    environment: &Environment,
    lock: &Lock,
) -> Result<bool, AllocError>
    ensures { IfOk result (λ is. IsTrue is ↔ IsLockFor lines.now environment.now lock.now) }
{
    lock.recall_invariant();
    let entries = lock.entries();
    if !is_named(alloc, environment, lock)? {
        return Ok(false);
    }
    if !are_closed(entries, entries) {
        return Ok(false);
    }
    if !are_lines_met(environment, entries, lines.lines()) {
        return Ok(false);
    }
    are_reached(alloc, environment, lines.lines(), entries)
}
