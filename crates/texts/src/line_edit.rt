// Which edit a change of lines looks like.

use edits::{Cause, Line};
use lists::Text;
use pep508::ReqLine;
use std::alloc::{AllocError, Global};

/// What a change of lines is told as.
#[derive(Clone, Copy, Debug, PartialEq, Eq)]
pub(crate) enum LineEdit {
    /// One line came behind the others; the one before it may have got an ending.
    Addition,
    /// One line went.
    Removal,
    /// One line has other specifiers.
    Constraint,
    /// Lines came in the place of others.
    Replacement,
}

/// What a change of lines is told as, which takes out the old lines and puts the new ones in their place.
pub(crate) fn line_edit(alloc: Global, old: &[Text], new: &[Text]) -> Result<LineEdit, AllocError> {
    match (old, new) {
        ([], [line]) if asks(alloc, line)? => Ok(LineEdit::Addition),
        ([last], [ended, line]) if is_ended(last, ended) && asks(alloc, line)? => {
            Ok(LineEdit::Addition)
        }
        ([line], []) if asks(alloc, line)? => Ok(LineEdit::Removal),
        ([line], [other]) if is_constrained(alloc, line, other)? => Ok(LineEdit::Constraint),
        _ => Ok(LineEdit::Replacement),
    }
}

/// Whether a line asks for something.
fn asks(alloc: Global, line: &Text) -> Result<bool, AllocError> {
    match Line::read(alloc, line.as_str()) {
        Ok(line) => Ok(line.requirement().is_some()),
        Err(Cause::OutOfMemory) => Err(AllocError),
        Err(_) => Ok(false),
    }
}

/// Whether a line without an ending got one.
fn is_ended(line: &Text, ended: &Text) -> bool {
    !line.as_str().ends_with('\n')
        && (ended.as_str().strip_suffix("\r\n") == Some(line.as_str())
            || ended.as_str().strip_suffix('\n') == Some(line.as_str()))
}

/// Whether two lines differ in their version part alone.
fn is_constrained(alloc: Global, line: &Text, other: &Text) -> Result<bool, AllocError> {
    let (Some(line), Some(other)) = (slices(alloc, line)?, slices(alloc, other)?) else {
        return Ok(false);
    };
    Ok(
        line.name() == other.name()
            && line.extras() == other.extras()
            && line.marker() == other.marker()
            && line.comment() == other.comment(),
    )
}

fn slices(alloc: Global, line: &Text) -> Result<Option<ReqLine<'_>>, AllocError> {
    match ReqLine::read(alloc, line.as_str()) {
        Ok(line) => Ok(Some(line)),
        Err(fault) if fault.cause == Cause::OutOfMemory => Err(AllocError),
        Err(_) => Ok(None),
    }
}
