// Locks as trees, from the lines down.

use crate::json_text::{target_object, targets_text, text_value, version_value};
use crate::lock_text::position_of;
use crate::requirer_text::add_line_text;
use crate::shown::ShownLocks;
use edits::{Entry, Line, Name, Target};
use phrases::add_target_line;
use serde_json::{Map, Value, put};
use std::alloc::{AllocError, Global};

/// How far an entry is put in at most.
const DEEPEST: usize = 40;

// A row of a tree.
#[derive(Clone, Copy)]
enum TreeRow<'a> {
    /// An active line, with its number from 1.
    Line {
        number: usize,
        line: &'a Line,
    },
    /// An entry, how many entries lead to it from a line, and whether it stands above already.
    Entry {
        entry: &'a Entry,
        depth: usize,
        is_above: bool,
    },
}

// An entry that is left to be told: its position, and how many entries lead to it.
#[derive(Clone, Copy)]
struct LeftEntry {
    position: usize,
    depth: usize,
}

// The entries that are left to be told, and which were told.
#[derive(Drop)]
struct Walk {
    left: Vec<LeftEntry>,
    told: Vec<bool>,
}

/// A tree for each target: each active line, and below it the entries that it leads to. What an entry
/// needs stands below it where its name comes first.
pub fn tree_text(alloc: Global, locks: ShownLocks<'_>) -> Result<String, AllocError> {
    let mut text = String::new(alloc);
    for target in locks.targets {
        if !text.is_empty() {
            text.push_str("\n")?;
        }
        add_target_line(&mut text, target.name.as_str())?;
        for row in rows_of(alloc, locks.lines.lines(), target)?.as_slice() {
            add_row(&mut text, *row)?;
        }
    }
    Ok(text)
}

fn add_row(text: &mut String, row: TreeRow<'_>) -> Result<(), AllocError> {
    match row {
        TreeRow::Line { number, line } => {
            write!(text, "line {number}: ")?;
            add_line_text(text, line)?;
        }
        TreeRow::Entry {
            entry,
            depth,
            is_above,
        } => {
            add_depth(text, depth)?;
            let name = entry.name().normal();
            let version = entry.version();
            write!(text, "{name} {version}")?;
            if is_above {
                text.push_str(" (shown above)")?;
            }
        }
    }
    text.push_str("\n")
}

/// Two spaces for the line, and for each entry that leads to this one. Where that are too many, their number follows.
fn add_depth(text: &mut String, depth: usize) -> Result<(), AllocError> {
    for _ in 0..=depth.min(DEEPEST) {
        text.push_str("  ")?;
    }
    if depth > DEEPEST {
        write!(text, "[{depth}] ")?;
    }
    Ok(())
}

/// The rows of a target's tree.
fn rows_of<'a>(
    alloc: Global,
    lines: &'a [Line],
    target: &'a Target,
) -> Result<Vec<TreeRow<'a>>, AllocError> {
    let entries = target.lock.entries();
    let turns = most_turns(entries);
    let mut rows = Vec::new(alloc);
    let mut walk = Walk {
        left: Vec::new(alloc),
        told: vec![in alloc; false; entries.len()]?,
    };
    for (position, line) in lines.iter().enumerate() {
        if line.is_active(&target.environment) {
            rows.push(TreeRow::Line {
                number: position.saturating_add(1),
                line,
            })?;
            begin(&mut walk, entries, line)?;
            add_entries(&mut rows, &mut walk, entries, turns)?;
        }
    }
    Ok(rows)
}

/// What a line requires is left.
fn begin(walk: &mut Walk, entries: &[Entry], line: &Line) -> Result<(), AllocError> {
    match line.requirement() {
        Some(wanted) => put_left(walk, entries, wanted.name(), 0),
        None => Ok(()),
    }
}

fn put_left(
    walk: &mut Walk,
    entries: &[Entry],
    name: &Name,
    depth: usize,
) -> Result<(), AllocError> {
    match position_of(entries, name.normal()) {
        Some(position) => Ok(walk.left.push(LeftEntry { position, depth })?),
        None => Ok(()),
    }
}

/// A row for each entry that is left, until none is. An entry's dependencies are left once, so that there are no more
/// turns than these.
fn add_entries<'a>(
    rows: &mut Vec<TreeRow<'a>>,
    walk: &mut Walk,
    entries: &'a [Entry],
    turns: usize,
) -> Result<(), AllocError> {
    for _ in 0..turns {
        let Some(LeftEntry { position, depth }) = walk.left.pop() else {
            return Ok(());
        };
        if let Some(entry) = entries.get(position) {
            let is_above = was_told(walk, position);
            rows.push(TreeRow::Entry {
                entry,
                depth,
                is_above,
            })?;
            if !is_above {
                put_needed(walk, entries, entry, depth.saturating_add(1))?;
            }
        }
    }
    Ok(())
}

/// One for what a line requires, and one for each dependency.
fn most_turns(entries: &[Entry]) -> usize {
    let mut turns: usize = 1;
    for entry in entries {
        turns = turns.saturating_add(entry.dependencies().len());
    }
    turns
}

/// What an entry needs is left, to be put in so far.
fn put_needed(
    walk: &mut Walk,
    entries: &[Entry],
    entry: &Entry,
    depth: usize,
) -> Result<(), AllocError> {
    for needed in entry.dependencies().iter().rev() {
        put_left(walk, entries, needed, depth)?;
    }
    Ok(())
}

/// Whether an entry was told. From now on it was.
fn was_told(walk: &mut Walk, position: usize) -> bool {
    match walk.told.get_mut(position) {
        Some(told) => {
            let before = *told;
            *told = true;
            before
        }
        None => true,
    }
}

/// The same as a JSON object, the rows in their order.
pub fn tree_json(alloc: Global, locks: ShownLocks<'_>) -> Result<String, AllocError> {
    let mut targets = Vec::with_capacity(alloc, locks.targets.len())?;
    for target in locks.targets {
        let rows = rows_of(alloc, locks.lines.lines(), target)?;
        let mut values = Vec::with_capacity(alloc, rows.len())?;
        for row in rows.as_slice() {
            values.push(row_value(alloc, *row)?)?;
        }
        targets.push(target_object(alloc, target, "tree", Value::Array(values))?)?;
    }
    targets_text(alloc, targets, locks.has_other_lines)
}

fn row_value(alloc: Global, row: TreeRow<'_>) -> Result<Value, AllocError> {
    let mut members = Map::new(alloc);
    match row {
        TreeRow::Line { number, line } => {
            put(&mut members, alloc, "line", Value::from(number))?;
            let text = text_value(alloc, line.text().trim())?;
            put(&mut members, alloc, "text", text)?;
        }
        TreeRow::Entry {
            entry,
            depth,
            is_above,
        } => {
            put(&mut members, alloc, "depth", Value::from(depth))?;
            let name = text_value(alloc, entry.name().normal())?;
            put(&mut members, alloc, "name", name)?;
            put(&mut members, alloc, "shown_above", Value::Bool(is_above))?;
            let version = version_value(alloc, entry.version())?;
            put(&mut members, alloc, "version", version)?;
        }
    }
    Ok(Value::Object(members))
}
