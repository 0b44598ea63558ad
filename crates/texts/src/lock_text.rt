// Locks as tables for people: what is locked, and what requires it.

use crate::shown::ShownLocks;
use edits::{Entry, Line, Target};
use phrases::{Style, add_table, add_target_line};
use std::alloc::{AllocError, Global};

// One row of the table.
#[derive(Drop)]
struct Row {
    name: String,
    version: String,
    // the numbers of the lines that require the entry
    lines: String,
    // the names of the entries that need it
    needed_by: String,
}

/// A table for each target, in the order of the names, with an empty line between two.
/// Above the table of a named target stands its name.
pub fn lock_text(alloc: Global, locks: ShownLocks<'_>, style: Style) -> Result<String, AllocError> {
    let mut text = String::new(alloc);
    for target in locks.targets {
        if !text.is_empty() {
            text.push_str("\n")?;
        }
        add_target_line(&mut text, target.name.as_str())?;
        add_lock(alloc, &mut text, style, locks.lines.lines(), target)?;
    }
    Ok(text)
}

/// A line for each entry of the lock, below a head line: the name, the version, the numbers of the
/// lines that require it, and the names of the entries that need it.
fn add_lock(
    alloc: Global,
    text: &mut String,
    style: Style,
    lines: &[Line],
    target: &Target,
) -> Result<(), AllocError> {
    let entries = target.lock.entries();
    let mut rows = Vec::with_capacity(alloc, entries.len())?;
    for entry in entries {
        rows.push(new_row(alloc, entry)?)?;
    }
    for (position, line) in lines.iter().enumerate() {
        if line.is_active(&target.environment) {
            add_line(alloc, &mut rows, entries, line, position.saturating_add(1))?;
        }
    }
    for entry in entries {
        add_needs(&mut rows, entries, entry)?;
    }
    let cells = cells_of(alloc, rows)?;
    let heads = ["name", "version", "line", "needed by"];
    add_table(alloc, text, style, heads.as_slice(), cells.as_slice())
}

fn new_row(alloc: Global, entry: &Entry) -> Result<Row, AllocError> {
    let version = entry.version();
    Ok(Row {
        name: String::from_str(alloc, entry.name().normal())?,
        version: format!(in alloc; "{version}")?,
        lines: String::new(alloc),
        needed_by: String::new(alloc),
    })
}

/// Notes the number of a line with the entry that it requires.
fn add_line(
    alloc: Global,
    rows: &mut Vec<Row>,
    entries: &[Entry],
    line: &Line,
    number: usize,
) -> Result<(), AllocError> {
    let Some(requirement) = line.requirement() else {
        return Ok(());
    };
    let Some(position) = position_of(entries, requirement.name().normal()) else {
        return Ok(());
    };
    let number = format!(in alloc; "{number}")?;
    match rows.get_mut(position) {
        Some(row) => add_item(&mut row.lines, number.as_str()),
        None => Ok(()),
    }
}

/// Notes an entry with each entry that it needs.
fn add_needs(rows: &mut Vec<Row>, entries: &[Entry], entry: &Entry) -> Result<(), AllocError> {
    for needed in entry.dependencies() {
        add_need(rows, entries, needed.normal(), entry.name().normal())?;
    }
    Ok(())
}

fn add_need(
    rows: &mut Vec<Row>,
    entries: &[Entry],
    needed: &str,
    by: &str,
) -> Result<(), AllocError> {
    let Some(position) = position_of(entries, needed) else {
        return Ok(());
    };
    match rows.get_mut(position) {
        Some(row) => add_item(&mut row.needed_by, by),
        None => Ok(()),
    }
}

/// Where the entry of a name is: the entries are in the order of their names.
pub(crate) fn position_of(entries: &[Entry], name: &str) -> Option<usize> {
    entries
        .binary_search_by(|entry| entry.name().normal().cmp(name))
        .ok()
}

fn add_item(list: &mut String, item: &str) -> Result<(), AllocError> {
    if !list.is_empty() {
        list.push_str(", ")?;
    }
    list.push_str(item)
}

/// The cells of each row.
fn cells_of(alloc: Global, rows: Vec<Row>) -> Result<Vec<Vec<String>>, AllocError> {
    let mut cells = Vec::with_capacity(alloc, rows.len())?;
    for row in rows {
        cells.push(row_cells(alloc, row)?)?;
    }
    Ok(cells)
}

fn row_cells(alloc: Global, row: Row) -> Result<Vec<String>, AllocError> {
    let Row {
        name,
        version,
        lines,
        needed_by,
    } = row;
    let mut cells = Vec::with_capacity(alloc, 4)?;
    cells.push(name)?;
    cells.push(version)?;
    cells.push(lines)?;
    cells.push(needed_by)?;
    Ok(cells)
}
