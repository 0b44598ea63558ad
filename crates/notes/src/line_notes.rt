// What is told of lines of a requirements file that don't read: where, why, and what to write in their place.

use crate::clause_notes::add_clause_note;
use crate::file_form::is_conflict_mark;
use crate::near_variable::mistyped_variable;
use edits::{Cause, Line};
use pep440::Fault as SpecifierFault;
use phrases::{add_plain, column_of};
use std::alloc::{AllocError, Global};

/// How many refused lines are told, the others by their number.
const MOST: usize = 20;

/// Puts a line behind the text for each line of the file that doesn't read, with its number and the column, and what to
/// write in its place where that is known. What is the same for several lines is told once.
pub fn add_bad_lines(alloc: Global, text: &mut String, file: &str) -> Result<(), AllocError> {
    let mut count: usize = 0;
    for (position, line) in file.split_inclusive('\n').enumerate() {
        if let Some(cause) = fault_of(alloc, line)? {
            count = count.saturating_add(1);
            if count <= MOST {
                add_bad_line(alloc, text, position.saturating_add(1), line, cause)?;
            }
        }
    }
    if count > MOST {
        let more = count.saturating_sub(MOST);
        write!(text, "and {more} more lines that do not read\n")?;
    }
    Ok(())
}

fn fault_of(alloc: Global, line: &str) -> Result<Option<Cause>, AllocError> {
    match Line::read(alloc, line) {
        Ok(_) => Ok(None),
        Err(Cause::OutOfMemory) => Err(AllocError),
        Err(cause) => Ok(Some(cause)),
    }
}

fn add_bad_line(
    alloc: Global,
    text: &mut String,
    number: usize,
    line: &str,
    cause: Cause,
) -> Result<(), AllocError> {
    let line = line.trim_end_matches('\n').trim_end_matches('\r');
    let column = column_of(alloc, line, cause)?;
    write!(text, "line {number}, column {column}: ")?;
    add_plain(text, line.trim_start_matches('\u{feff}').trim())?;
    write!(text, ": {cause}\n")?;
    let mut note = String::new(alloc);
    add_line_note(alloc, &mut note, line, cause)?;
    if text.contains(note.as_str()) {
        return Ok(());
    }
    text.push_str(note.as_str())
}

/// Puts what to write in the place of a refused line behind the text, where that is known.
pub fn add_line_note(
    alloc: Global,
    text: &mut String,
    line: &str,
    cause: Cause,
) -> Result<(), AllocError> {
    if let Some(note) = known_note(line, cause) {
        text.push_str(note)?;
        return text.push_str("\n");
    }
    match cause {
        Cause::UrlRequirement => add_at_note(alloc, text, line.trim()),
        Cause::Specifier(SpecifierFault::BadClause(_)) => add_clause_note(alloc, text, line.trim()),
        Cause::BadMarker => add_marker_note(alloc, text, line),
        _ => Ok(()),
    }
}

/// What is told of a line without a look at its words. What a line has of other files counts before its cause.
fn known_note(line: &str, cause: Cause) -> Option<&'static str> {
    if line.starts_with('\u{feff}') {
        return Some("The file begins with a byte-order mark: save it as UTF-8 without one.");
    }
    if is_conflict_mark(line) {
        return Some(
            "git left a conflict here: keep the lines that you want, and take the three marks out.",
        );
    }
    if line.contains("--hash=") {
        return Some(
            "The lock has the hashes: take them out here. reqlock-adopt takes over a whole file of pip-tools.",
        );
    }
    if cause == Cause::OptionLine {
        return Some(option_note(line.trim_start()));
    }
    if line.contains("git+") || line.contains("://") {
        return Some(
            "That is a URL, and reqlock locks releases of an index: put a wheel of it where reqlock-snapshot finds it, and write the name.",
        );
    }
    match cause {
        Cause::Continuation => Some("Write the requirement on one line."),
        Cause::Specifier(SpecifierFault::ArbitraryEquality) => Some(
            "Write == in the place of ===.",
        ),
        _ => None,
    }
}

/// The comparison that is meant by a single `@` in front of a version, which is that of a URL.
fn add_at_note(alloc: Global, text: &mut String, line: &str) -> Result<(), AllocError> {
    let fixed = line.replace(alloc, "@", "==")?;
    if !is_read(alloc, fixed.as_str())? {
        return text.push_str(
            "What stands behind @ is a URL, and reqlock locks releases of an index: write the name.\n",
        );
    }
    text.push_str("Write == in the place of @, behind which a URL stands: ")?;
    add_plain(text, fixed.as_str())?;
    text.push_str("\n")
}

/// Whether a text is a line with a requirement.
pub(crate) fn is_read(alloc: Global, line: &str) -> Result<bool, AllocError> {
    match Line::read(alloc, line) {
        Ok(line) => Ok(line.requirement().is_some()),
        Err(Cause::OutOfMemory) => Err(AllocError),
        Err(_) => Ok(false),
    }
}

fn option_note(line: &str) -> &'static str {
    if line.starts_with("-r") || line.starts_with("--requirement") {
        return "Put the lines of that file in the place of this one.";
    }
    if line.starts_with("-c") || line.starts_with("--constraint") {
        return "Put the bounds of that file on the lines of this one.";
    }
    if line.starts_with("-e") || line.starts_with("--editable") {
        return "A project in a folder is not locked: take the line out, and install it behind what is locked.";
    }
    "Take the line out: reqlock-snapshot is told the index and what of it counts."
}

fn add_marker_note(alloc: Global, text: &mut String, line: &str) -> Result<(), AllocError> {
    match mistyped_variable(alloc, line)? {
        Some((word, variable)) => {
            write!(text, "A marker has no variable {word}: write {variable}.\n")
        }
        None => text.push_str(
            "A marker compares a variable with a text in quotes, as in python_version < \"3.12\".\n",
        ),
    }
}
