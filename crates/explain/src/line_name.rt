// The lines that a problem was made of, as sentences name them.

use crate::changed_lines::{ChangedLine, ChangedLines};
use lists::Text;
use pep508::{Cause, Line, Name, Requirement};
use phrases::{add_plain, add_requirement};
use problems::Problem;
use std::alloc::{AllocError, Global};

/// An active line, by its number in the file, from 1; or what stands behind the lines of the file.
#[derive(Clone, Copy)]
pub enum LineName<'a> {
    Kept(usize, &'a Line),
    Constrained(usize),
    Added(&'a Text),
    Wanted(&'a Text),
}

/// The active lines of a problem, in their order.
pub fn line_names<'a>(
    alloc: Global,
    problem: &Problem<'_>,
    of: ChangedLines<'a>,
) -> Result<Vec<LineName<'a>>, AllocError> {
    let changed = changed_name(alloc, of.changed)?;
    let mut names = Vec::new(alloc);
    for (index, line) in of.lines.iter().enumerate() {
        if line.is_active(&problem.environment) {
            let number = index.saturating_add(1);
            match (of.changed, is_on(line, changed.as_ref())) {
                (ChangedLine::Removed(_), true) => {}
                (ChangedLine::Constrained(_), true) => names.push(LineName::Constrained(number))?,
                _ => names.push(LineName::Kept(number, line))?,
            }
        }
    }
    match of.changed {
        ChangedLine::Added(text) => names.push(LineName::Added(text))?,
        ChangedLine::Wanted(text) => names.push(LineName::Wanted(text))?,
        _ => {}
    }
    Ok(names)
}

/// The name of the line that is gone or has other specifiers.
fn changed_name(alloc: Global, changed: ChangedLine<'_>) -> Result<Option<Name>, AllocError> {
    match changed {
        ChangedLine::Removed(name) | ChangedLine::Constrained(name) => {
            match Name::read(alloc, name.as_str()) {
                Ok(name) => Ok(Some(name)),
                Err(Cause::OutOfMemory) => Err(AllocError),
                Err(_) => Ok(None),
            }
        }
        _ => Ok(None),
    }
}

fn is_on(line: &Line, name: Option<&Name>) -> bool {
    match name {
        Some(name) => line.is_on(name),
        None => false,
    }
}

/// A line with what it requires.
pub fn add_line(
    text: &mut String,
    line: Option<&LineName<'_>>,
    wanted: Option<&Requirement>,
) -> Result<(), AllocError> {
    add_short(text, line)?;
    text.push_str(" (")?;
    match (line, wanted) {
        (Some(LineName::Kept(_, line)), _) => add_plain(text, line.text().trim())?,
        (Some(LineName::Added(given)), _) | (Some(LineName::Wanted(given)), _) => {
            add_plain(text, given.as_str().trim())?;
        }
        (_, Some(wanted)) => add_requirement(text, wanted)?,
        _ => {}
    }
    text.push_str(")")
}

/// A line by its number alone.
pub fn add_short(text: &mut String, line: Option<&LineName<'_>>) -> Result<(), AllocError> {
    match line {
        Some(LineName::Kept(number, _)) => write!(text, "line {number}"),
        Some(LineName::Constrained(number)) => write!(text, "line {number} as constrained"),
        Some(LineName::Added(_)) => text.push_str("the new line"),
        Some(LineName::Wanted(_)) => text.push_str("the version asked for"),
        None => text.push_str("a line"),
    }
}
