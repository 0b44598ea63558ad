// The entries that have newer releases, for people and for scripts.

use crate::json_text::{pin_value, target_members, targets_text, text_value, version_value};
use crate::outdated::{Outdated, outdated_of};
use crate::required_by::{RequiredBy, is_in_index, problem_of};
use crate::requirer_text::{add_required_by, requirers_value};
use edits::{Entry, Problem, Snapshot, State, Target};
use pep440::Version;
use phrases::{Style, add_table, add_target_line};
use serde_json::{Map, Value, put};
use std::alloc::{AllocError, Global};

/// A table for each target of the state with entries that have newer releases in the index: what is locked, the
/// newest version that all admit that require it, the newest version, and what doesn't admit that. Below it stand the
/// entries whose releases the index doesn't have, and those whose releases are yanked in it. A target with none of these has
/// no table.
pub fn outdated_text(
    alloc: Global,
    state: &State,
    snapshot: &Snapshot,
    style: Style,
) -> Result<String, AllocError> {
    let mut text = String::new(alloc);
    for target in state.targets() {
        let part = target_text(alloc, state, target, snapshot, style)?;
        if part.is_empty() {
            continue;
        }
        if !text.is_empty() {
            text.push_str("\n")?;
        }
        add_target_line(&mut text, target.name.as_str())?;
        text.push_str(part.as_str())?;
    }
    Ok(text)
}

/// The table of a target, and the lines below it.
fn target_text(
    alloc: Global,
    state: &State,
    target: &Target,
    snapshot: &Snapshot,
    style: Style,
) -> Result<String, AllocError> {
    let problem = problem_of(alloc, state.lines(), target, snapshot)?;
    let found = outdated_of(alloc, state.lines().lines(), target, &problem)?;
    let mut text = String::new(alloc);
    if !found.is_empty() {
        let rows = rows_of(alloc, found.as_slice())?;
        let heads = ["name", "locked", "admitted", "newest", "held by"];
        add_table(alloc, &mut text, style, heads.as_slice(), rows.as_slice())?;
    }
    let entries = target.lock.entries();
    add_pins(
        &mut text,
        "not in the index: ",
        absent_in(alloc, &problem, entries)?.as_slice(),
    )?;
    add_pins(
        &mut text,
        "yanked: ",
        yanked_in(alloc, &problem, entries)?.as_slice(),
    )?;
    Ok(text)
}

fn rows_of(alloc: Global, found: &[Outdated<'_>]) -> Result<Vec<Vec<String>>, AllocError> {
    let mut rows = Vec::with_capacity(alloc, found.len())?;
    for outdated in found {
        rows.push(row_of(alloc, outdated)?)?;
    }
    Ok(rows)
}

fn row_of(alloc: Global, outdated: &Outdated<'_>) -> Result<Vec<String>, AllocError> {
    let locked = outdated.entry.version();
    let newest = outdated.newest;
    let mut row = Vec::with_capacity(alloc, 5)?;
    row.push(String::from_str(alloc, outdated.entry.name().normal())?)?;
    row.push(format!(in alloc; "{locked}")?)?;
    row.push(admitted_text(alloc, outdated.admitted)?)?;
    row.push(format!(in alloc; "{newest}")?)?;
    row.push(holders_text(alloc, outdated.holders.as_slice())?)?;
    Ok(row)
}

fn admitted_text(alloc: Global, admitted: Option<&Version>) -> Result<String, AllocError> {
    match admitted {
        Some(version) => format!(in alloc; "{version}"),
        None => String::from_str(alloc, "-"),
    }
}

fn holders_text(alloc: Global, holders: &[RequiredBy<'_>]) -> Result<String, AllocError> {
    let mut text = String::new(alloc);
    for holder in holders {
        if !text.is_empty() {
            text.push_str(", ")?;
        }
        add_required_by(&mut text, *holder)?;
    }
    Ok(text)
}

/// Entries in a line behind what they have in common, if there are any.
fn add_pins(text: &mut String, label: &str, entries: &[&Entry]) -> Result<(), AllocError> {
    let mut mark = label;
    for entry in entries {
        let name = entry.name().normal();
        let version = entry.version();
        write!(text, "{mark}{name} {version}")?;
        mark = ", ";
    }
    if !entries.is_empty() {
        text.push_str("\n")?;
    }
    Ok(())
}

/// The entries whose releases the index doesn't have.
fn absent_in<'a>(
    alloc: Global,
    problem: &Problem<'_>,
    entries: &'a [Entry],
) -> Result<Vec<&'a Entry>, AllocError> {
    let mut absent = Vec::new(alloc);
    for entry in entries {
        if !is_in_index(problem, entry) {
            absent.push(entry)?;
        }
    }
    Ok(absent)
}

/// The entries whose releases are yanked in the index.
fn yanked_in<'a>(
    alloc: Global,
    problem: &Problem<'_>,
    entries: &'a [Entry],
) -> Result<Vec<&'a Entry>, AllocError> {
    let mut yanked = Vec::new(alloc);
    for entry in entries {
        if is_yanked(problem, entry) {
            yanked.push(entry)?;
        }
    }
    Ok(yanked)
}

fn is_yanked(problem: &Problem<'_>, entry: &Entry) -> bool {
    match problem.release(entry.name(), entry.version()) {
        Some(release) => release.yanked(),
        None => false,
    }
}

/// The same as a JSON object.
pub fn outdated_json(
    alloc: Global,
    state: &State,
    snapshot: &Snapshot,
) -> Result<String, AllocError> {
    let mut targets = Vec::with_capacity(alloc, state.targets().len())?;
    for target in state.targets() {
        targets.push(target_value(alloc, state, target, snapshot)?)?;
    }
    targets_text(alloc, targets, false)
}

fn target_value(
    alloc: Global,
    state: &State,
    target: &Target,
    snapshot: &Snapshot,
) -> Result<Value, AllocError> {
    let problem = problem_of(alloc, state.lines(), target, snapshot)?;
    let found = outdated_of(alloc, state.lines().lines(), target, &problem)?;
    let mut outdated = Vec::with_capacity(alloc, found.len())?;
    for one in found.as_slice() {
        outdated.push(outdated_value(alloc, one)?)?;
    }
    let mut members = target_members(alloc, target, "outdated", Value::Array(outdated))?;
    let entries = target.lock.entries();
    let absent = pins_value(alloc, absent_in(alloc, &problem, entries)?.as_slice())?;
    put(&mut members, alloc, "not_in_index", absent)?;
    let yanked = pins_value(alloc, yanked_in(alloc, &problem, entries)?.as_slice())?;
    put(&mut members, alloc, "yanked", yanked)?;
    Ok(Value::Object(members))
}

fn outdated_value(alloc: Global, outdated: &Outdated<'_>) -> Result<Value, AllocError> {
    let mut members = Map::new(alloc);
    let name = text_value(alloc, outdated.entry.name().normal())?;
    put(&mut members, alloc, "name", name)?;
    let locked = version_value(alloc, outdated.entry.version())?;
    put(&mut members, alloc, "locked", locked)?;
    let admitted = match outdated.admitted {
        Some(version) => version_value(alloc, version)?,
        None => Value::Null,
    };
    put(&mut members, alloc, "admitted", admitted)?;
    let newest = version_value(alloc, outdated.newest)?;
    put(&mut members, alloc, "newest", newest)?;
    let holders = requirers_value(alloc, outdated.holders.as_slice())?;
    put(&mut members, alloc, "held_by", holders)?;
    Ok(Value::Object(members))
}

fn pins_value(alloc: Global, entries: &[&Entry]) -> Result<Value, AllocError> {
    let mut pins = Vec::new(alloc);
    for entry in entries {
        pins.push(pin_value(alloc, entry)?)?;
    }
    Ok(Value::Array(pins))
}
