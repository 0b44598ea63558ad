// Locks as JSON objects.

use crate::entry_json::entry_value;
use crate::json_text::{pin_value, target_object, targets_text};
use crate::lock_text::position_of;
use crate::required_by::{RequiredBy, problem_over, requirers_of};
use crate::requirer_text::requirers_value;
use crate::shown::ShownLocks;
use edits::{Entry, Name, Snapshot, Target};
use serde_json::{Map, Value, put};
use std::alloc::{AllocError, Global};

/// The entries of each target, each with what requires it and with what it needs; those of one name alone where it is
/// given. What other entries require is told where an index is at hand that has their releases.
pub fn lock_json(
    alloc: Global,
    locks: ShownLocks<'_>,
    snapshot: Option<&Snapshot>,
    name: Option<&Name>,
) -> Result<String, AllocError> {
    let mut targets = Vec::with_capacity(alloc, locks.targets.len())?;
    for target in locks.targets {
        let entries = entries_value(alloc, locks, target, snapshot, name)?;
        targets.push(target_object(alloc, target, "entries", entries)?)?;
    }
    targets_text(alloc, targets, locks.has_other_lines)
}

fn entries_value(
    alloc: Global,
    locks: ShownLocks<'_>,
    target: &Target,
    snapshot: Option<&Snapshot>,
    name: Option<&Name>,
) -> Result<Value, AllocError> {
    let problem = problem_over(alloc, locks.lines, target, snapshot)?;
    let requirers = requirers_of(alloc, locks.lines.lines(), target, problem.as_ref())?;
    let entries = target.lock.entries();
    let mut values = Vec::new(alloc);
    for (entry, own) in entries.iter().zip(requirers.as_slice()) {
        if is_meant(name, entry) {
            values.push(told_value(alloc, entries, entry, own.as_slice())?)?;
        }
    }
    Ok(Value::Array(values))
}

fn is_meant(name: Option<&Name>, entry: &Entry) -> bool {
    match name {
        Some(name) => name == entry.name(),
        None => true,
    }
}

/// An entry with what requires it and what it needs.
fn told_value(
    alloc: Global,
    entries: &[Entry],
    entry: &Entry,
    requirers: &[RequiredBy<'_>],
) -> Result<Value, AllocError> {
    let mut members = Map::new(alloc);
    let asked_by = requirers_value(alloc, requirers)?;
    put(&mut members, alloc, "asked_by", asked_by)?;
    put(&mut members, alloc, "entry", entry_value(alloc, entry)?)?;
    put(
        &mut members,
        alloc,
        "needs",
        needs_value(alloc, entries, entry)?,
    )?;
    Ok(Value::Object(members))
}

fn needs_value(alloc: Global, entries: &[Entry], entry: &Entry) -> Result<Value, AllocError> {
    let mut needs = Vec::with_capacity(alloc, entry.dependencies().len())?;
    for needed in entry.dependencies() {
        if let Some(position) = position_of(entries, needed.normal()) {
            if let Some(found) = entries.get(position) {
                needs.push(pin_value(alloc, found)?)?;
            }
        }
    }
    Ok(Value::Array(needs))
}
