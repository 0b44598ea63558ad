// One entry of a lock, for people.

use crate::lock_text::position_of;
use crate::required_by::{RequiredBy, Requirer, problem_over, requirers_of};
use crate::requirer_text::{add_line_text, add_requirer};
use crate::shown::ShownLocks;
use edits::{DistributionFile, Entry, Name, Snapshot, Target};
use phrases::{add_plain, add_requirement, add_target_line};
use std::alloc::{AllocError, Global};

/// The entry of a name in each target that has one: its version, what requires it, what it needs, and its files. What
/// other entries require is told where an index is at hand that has their releases.
pub fn entry_text(
    alloc: Global,
    locks: ShownLocks<'_>,
    snapshot: Option<&Snapshot>,
    name: &Name,
) -> Result<String, AllocError> {
    let mut text = String::new(alloc);
    for target in locks.targets {
        let entries = target.lock.entries();
        if let Some(position) = position_of(entries, name.normal()) {
            if !text.is_empty() {
                text.push_str("\n")?;
            }
            let problem = problem_over(alloc, locks.lines, target, snapshot)?;
            let lines = locks.lines.lines();
            let requirers = requirers_of(alloc, lines, target, problem.as_ref())?;
            add_target(&mut text, target, position, requirers.as_slice())?;
        }
    }
    Ok(text)
}

/// The entry at a position of a target's lock, given what requires each of its entries.
fn add_target(
    text: &mut String,
    target: &Target,
    position: usize,
    requirers: &[Vec<RequiredBy<'_>>],
) -> Result<(), AllocError> {
    add_target_line(text, target.name.as_str())?;
    let entries = target.lock.entries();
    match (entries.get(position), requirers.get(position)) {
        (Some(entry), Some(own)) => add_entry(text, entries, entry, own.as_slice()),
        _ => Ok(()),
    }
}

fn add_entry(
    text: &mut String,
    entries: &[Entry],
    entry: &Entry,
    requirers: &[RequiredBy<'_>],
) -> Result<(), AllocError> {
    add_pin(text, entry)?;
    text.push_str("\n")?;
    if let Some(python) = entry.requires_python() {
        text.push_str("  requires Python ")?;
        add_plain(text, python.text().trim())?;
        text.push_str("\n")?;
    }
    for by in requirers {
        add_required_by_line(text, *by)?;
    }
    for needed in entry.dependencies() {
        add_need(text, entries, needed)?;
    }
    if let Some(file) = entry.sdist() {
        add_file(text, file)?;
    }
    for file in entry.wheels() {
        add_file(text, file)?;
    }
    Ok(())
}

fn add_pin(text: &mut String, entry: &Entry) -> Result<(), AllocError> {
    let name = entry.name().normal();
    let version = entry.version();
    write!(text, "{name} {version}")
}

/// A line with its text as it stands, or an entry with what it requires.
fn add_required_by_line(text: &mut String, by: RequiredBy<'_>) -> Result<(), AllocError> {
    match by.requirer {
        Requirer::Line(_, line) => {
            text.push_str("  ")?;
            add_requirer(text, by.requirer)?;
            text.push_str(": ")?;
            add_line_text(text, line)?;
        }
        Requirer::Entry(_) => {
            text.push_str("  needed by ")?;
            add_requirer(text, by.requirer)?;
            if let Some(wanted) = by.requirement {
                text.push_str(": ")?;
                add_requirement(text, wanted)?;
            }
        }
    }
    text.push_str("\n")
}

fn add_need(text: &mut String, entries: &[Entry], needed: &Name) -> Result<(), AllocError> {
    let Some(position) = position_of(entries, needed.normal()) else {
        return Ok(());
    };
    let Some(entry) = entries.get(position) else {
        return Ok(());
    };
    text.push_str("  needs ")?;
    add_pin(text, entry)?;
    text.push_str("\n")
}

fn add_file(text: &mut String, file: &DistributionFile) -> Result<(), AllocError> {
    text.push_str("  file ")?;
    add_plain(text, file.name.as_str())?;
    text.push_str("\n    url ")?;
    add_plain(text, file.url.as_str())?;
    let size = file.size;
    let sha256 = file.sha256.as_str();
    write!(text, "\n    size {size}\n    sha256 {sha256}\n")
}
