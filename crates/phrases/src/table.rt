// Tables for people.

use crate::ink::Ink;
use crate::style::Style;
use std::alloc::{AllocError, Global};

/// Puts a head line and a line for each row behind a text, with two spaces between the columns and none at the end
/// of a line. Each column but the last is as wide as its widest cell. The first cell of a row is bold.
pub fn add_table(
    alloc: Global,
    text: &mut String,
    style: Style,
    heads: &[&str],
    rows: &[Vec<String>],
) -> Result<(), AllocError> {
    let mut widths = Vec::with_capacity(alloc, heads.len())?;
    for (column, head) in heads.iter().enumerate() {
        widths.push(width_of(column, head.len(), rows))?;
    }
    let mut line = String::new(alloc);
    for (width, head) in widths.as_slice().iter().zip(heads) {
        add_cell(&mut line, Style::plain(), *width, head)?;
    }
    add_line(text, line.as_str())?;
    for row in rows {
        add_row(alloc, text, style, widths.as_slice(), row.as_slice())?;
    }
    Ok(())
}

/// How wide a column is, the head of which is this wide.
fn width_of(column: usize, head: usize, rows: &[Vec<String>]) -> usize {
    let mut width = head;
    for row in rows {
        if let Some(cell) = row.get(column) {
            width = width.max(cell.len());
        }
    }
    width
}

fn add_row(
    alloc: Global,
    text: &mut String,
    style: Style,
    widths: &[usize],
    row: &[String],
) -> Result<(), AllocError> {
    let mut line = String::new(alloc);
    let mut style = style;
    for (width, cell) in widths.iter().zip(row) {
        add_cell(&mut line, style, *width, cell.as_str())?;
        style = Style::plain();
    }
    add_line(text, line.as_str())
}

/// Puts a cell and the space behind its column behind a line.
fn add_cell(line: &mut String, style: Style, width: usize, cell: &str) -> Result<(), AllocError> {
    style.add_inked(line, Ink::Bold, cell)?;
    let (none, space) = ("", width.saturating_sub(cell.chars().count()));
    write!(line, "{none:space$}  ")
}

fn add_line(text: &mut String, line: &str) -> Result<(), AllocError> {
    text.push_str(line.trim_end())?;
    text.push_str("\n")
}
