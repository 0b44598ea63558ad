// What a step of the history asked for that changed no line.

use crate::diff_text::add_entry_change;
use edits::{Change, Entry, EntryChange, Name};
use phrases::Style;
use std::alloc::{AllocError, Global};
use std::collections::BTreeMap;

/// Puts what was asked behind the text, as far as the change shows it. Over the same index only an upgrade changes
/// something. It is told with its name where one entry has another version and all else that changed hangs on it. Over
/// another index that entry is told alone, or else the first with another version: an upgrade and a relock look alike there.
pub(crate) fn add_new_lock(
    alloc: Global,
    text: &mut String,
    change: &Change,
) -> Result<(), AllocError> {
    let upgraded = upgraded_in(alloc, change.entries())?;
    if change.digests().is_some() {
        let first = change.entries().iter().find(|entry| has_moved(entry));
        return add_other_index(text, change, upgraded.or(first));
    }
    match upgraded {
        Some(entry) => {
            text.push_str("upgrade ")?;
            text.push_str(entry.name.normal())
        }
        None => add_count(text, "upgrade", change),
    }
}

/// What a step over another index did: an entry with another version, and how many more have changed. Where no version
/// changed, it did what a relock does.
fn add_other_index(
    text: &mut String,
    change: &Change,
    moved: Option<&EntryChange>,
) -> Result<(), AllocError> {
    let Some(moved) = moved else {
        add_count(text, "relock", change)?;
        return text.push_str(", another index");
    };
    text.push_str("another index: ")?;
    add_entry_change(text, Style::plain(), moved)?;
    match change.entries().len() {
        0 | 1 => Ok(()),
        2 => text.push_str(", 1 more entry"),
        entries => {
            let more = entries.saturating_sub(1);
            write!(text, ", {more} more entries")
        }
    }
}

fn add_count(text: &mut String, word: &str, change: &Change) -> Result<(), AllocError> {
    let entries = change.entries().len();
    let noun = if entries == 1 { "entry" } else { "entries" };
    write!(text, "{word}: {entries} {noun}")
}

/// The entry with another version on which all that changed hangs. The last of the starts from which walks have reached everything
/// is the only one from which a single walk can.
fn upgraded_in<'a>(
    alloc: Global,
    changes: &'a [EntryChange],
) -> Result<Option<&'a EntryChange>, AllocError> {
    let needs = needs_of(alloc, changes)?;
    let mut reached = none_reached(alloc, needs.len())?;
    let mut last = 0;
    for position in 0..needs.len() {
        if !is_reached(reached.as_slice(), position) {
            last = position;
            walk(alloc, needs.as_slice(), &mut reached, position)?;
        }
    }
    let mut reached = none_reached(alloc, needs.len())?;
    walk(alloc, needs.as_slice(), &mut reached, last)?;
    if !reached.as_slice().iter().all(|is_reached| *is_reached) {
        return Ok(None);
    }
    match changes.get(last) {
        Some(change) if has_moved(change) => Ok(Some(change)),
        _ => Ok(None),
    }
}

fn has_moved(change: &EntryChange) -> bool {
    match (&change.old, &change.new) {
        (Some(old), Some(new)) => old.version() != new.version(),
        _ => false,
    }
}

/// The positions of the changes of the names that each changed entry needs, before the step or behind it; and of its own name, which
/// several targets may have.
fn needs_of(alloc: Global, changes: &[EntryChange]) -> Result<Vec<Vec<usize>>, AllocError> {
    let mut positions = BTreeMap::new(alloc);
    for (position, change) in changes.iter().enumerate() {
        let name = change.name.clone()?;
        positions
            .entry(name)?
            .or_insert(Vec::new(alloc))
            .push(position)?;
    }
    let mut needs = Vec::new(alloc);
    for change in changes {
        let mut own = Vec::new(alloc);
        add_positions(&mut own, &positions, &change.name)?;
        add_needs(&mut own, &positions, &change.old)?;
        add_needs(&mut own, &positions, &change.new)?;
        needs.push(own)?;
    }
    Ok(needs)
}

fn add_needs(
    own: &mut Vec<usize>,
    positions: &BTreeMap<Name, Vec<usize>>,
    entry: &Option<Entry>,
) -> Result<(), AllocError> {
    if let Some(entry) = entry {
        for name in entry.dependencies() {
            add_positions(own, positions, name)?;
        }
    }
    Ok(())
}

fn add_positions(
    own: &mut Vec<usize>,
    positions: &BTreeMap<Name, Vec<usize>>,
    name: &Name,
) -> Result<(), AllocError> {
    if let Some(found) = positions.get(name) {
        for position in found.as_slice() {
            own.push(*position)?;
        }
    }
    Ok(())
}

fn none_reached(alloc: Global, count: usize) -> Result<Vec<bool>, AllocError> {
    let mut reached = Vec::new(alloc);
    for _ in 0..count {
        reached.push(false)?;
    }
    Ok(reached)
}

fn is_reached(reached: &[bool], position: usize) -> bool {
    reached.get(position).copied().unwrap_or(true)
}

/// Marks what is reached from a position. Each position is looked at once.
fn walk(
    alloc: Global,
    needs: &[Vec<usize>],
    reached: &mut Vec<bool>,
    start: usize,
) -> Result<(), AllocError> {
    let mut left = Vec::new(alloc);
    left.push(start)?;
    mark(reached, start);
    for _ in 0..needs.len() {
        let Some(position) = left.pop() else {
            return Ok(());
        };
        if let Some(own) = needs.get(position) {
            add_unreached(&mut left, reached, own.as_slice())?;
        }
    }
    Ok(())
}

fn add_unreached(
    left: &mut Vec<usize>,
    reached: &mut Vec<bool>,
    positions: &[usize],
) -> Result<(), AllocError> {
    for position in positions {
        if !is_reached(reached.as_slice(), *position) {
            mark(reached, *position);
            left.push(*position)?;
        }
    }
    Ok(())
}

fn mark(reached: &mut Vec<bool>, position: usize) {
    if let Some(is_reached) = reached.get_mut(position) {
        *is_reached = true;
    }
}
