// What pip would warn of in a lock: a release that was yanked, a pre-release that no line names, an extra that asks for
// nothing.

use edits::{
    Change, Entry, Environment, Line, Name, Release, Requirement, Snapshot, State, Target,
};
use problems::parts::counts;
use std::alloc::{AllocError, Global};

/// Puts a line behind the text for each release of a new lock that pip would warn of, and for each extra that asks for
/// nothing.
pub fn add_lock_notes(
    alloc: Global,
    text: &mut String,
    state: &State,
    snapshot: &Snapshot,
) -> Result<(), AllocError> {
    for target in state.targets() {
        for entry in target.lock.entries() {
            add_entry_note(alloc, text, state, snapshot, entry)?;
        }
        add_extra_notes(alloc, text, target, state.lines().lines(), snapshot)?;
    }
    Ok(())
}

/// The same of what a change brought: the entries that came or have another version, and the lines.
pub fn add_change_notes(
    alloc: Global,
    text: &mut String,
    state: &State,
    change: &Change,
    snapshot: &Snapshot,
) -> Result<(), AllocError> {
    for changed in change.entries() {
        if let Some(entry) = &changed.new {
            add_entry_note(alloc, text, state, snapshot, entry)?;
        }
    }
    for splice in change.splices() {
        for line in splice.new.as_slice() {
            add_new_line_notes(alloc, text, state, line.as_str(), snapshot)?;
        }
    }
    Ok(())
}

fn add_new_line_notes(
    alloc: Global,
    text: &mut String,
    state: &State,
    line: &str,
    snapshot: &Snapshot,
) -> Result<(), AllocError> {
    let line = match Line::read(alloc, line) {
        Ok(line) => line,
        Err(edits::Cause::OutOfMemory) => return Err(AllocError),
        Err(_) => return Ok(()),
    };
    let lines = [line];
    for target in state.targets() {
        add_extra_notes(alloc, text, target, lines.as_slice(), snapshot)?;
    }
    Ok(())
}

/// What is told of the release that an entry locks. A release of several targets is told once.
fn add_entry_note(
    alloc: Global,
    text: &mut String,
    state: &State,
    snapshot: &Snapshot,
    entry: &Entry,
) -> Result<(), AllocError> {
    let Some(release) = release_of(snapshot, entry) else {
        return Ok(());
    };
    let (name, version) = (entry.name().normal(), entry.version());
    if release.yanked() {
        let note = format!(in alloc;
            "{name} {version} is yanked: who released it took it back. Another version in the line on {name} leaves it.\n"
        )?;
        add_once(text, note.as_str())?;
    }
    if release.version().is_pre() && !names_pre(state.lines().lines(), entry.name()) {
        let note = format!(in alloc;
            "{name} {version} is a pre-release, and no line on {name} names one.\n"
        )?;
        add_once(text, note.as_str())?;
    }
    Ok(())
}

/// Whether the release that an entry locks is yanked in an index.
pub(crate) fn is_yanked(snapshot: &Snapshot, entry: &Entry) -> bool {
    match release_of(snapshot, entry) {
        Some(release) => release.yanked(),
        None => false,
    }
}

fn release_of<'a>(snapshot: &'a Snapshot, entry: &Entry) -> Option<&'a Release> {
    snapshot
        .releases(entry.name())
        .iter()
        .find(|release| release.version() == entry.version())
}

/// Whether a line on the name names a pre-release.
fn names_pre(lines: &[Line], name: &Name) -> bool {
    for line in lines {
        if let Some(requirement) = line.requirement() {
            if requirement.name() == name && requirement.specifiers().names_pre() {
                return true;
            }
        }
    }
    false
}

/// The extras of the lines that count for a target, for which the locked release asks for nothing more there.
fn add_extra_notes(
    alloc: Global,
    text: &mut String,
    target: &Target,
    lines: &[Line],
    snapshot: &Snapshot,
) -> Result<(), AllocError> {
    for line in lines {
        if let Some(requirement) = line.requirement() {
            if requirement.is_active(&target.environment) {
                add_extras_of(alloc, text, target, requirement, snapshot)?;
            }
        }
    }
    Ok(())
}

fn add_extras_of(
    alloc: Global,
    text: &mut String,
    target: &Target,
    requirement: &Requirement,
    snapshot: &Snapshot,
) -> Result<(), AllocError> {
    let Some(version) = target.locked(requirement.name()) else {
        return Ok(());
    };
    let name = requirement.name().normal();
    for extra in requirement.extras() {
        if asks_nothing(snapshot, &target.environment, requirement.name(), extra) {
            let extra = extra.normal();
            let note = format!(in alloc;
                "No release of {name} in the index asks for anything by the extra {extra} here; {name} {version} is locked without it.\n"
            )?;
            add_once(text, note.as_str())?;
        }
    }
    Ok(())
}

/// Whether no release of a name has a dependency that counts with the extra alone.
fn asks_nothing(snapshot: &Snapshot, environment: &Environment, name: &Name, extra: &Name) -> bool {
    for release in snapshot.releases(name) {
        for dependency in release.dependencies() {
            if counts(environment, Some(extra), dependency)
                && !counts(environment, None, dependency)
            {
                return false;
            }
        }
    }
    true
}

fn add_once(text: &mut String, note: &str) -> Result<(), AllocError> {
    if text.contains(note) {
        return Ok(());
    }
    text.push_str(note)
}
