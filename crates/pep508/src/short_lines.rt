// Short lines that are equal, kept once.

ghost use Rattle.lists.specs.Answers.{Answers};
ghost use Rattle.pep508.specs.Requirement.{checked_line};
ghost use Rattle.markers.specs.declared.fault.Cause.TheVariants.{OutOfMemory};

use crate::line::Line;
use markers::Cause;
use std::alloc::Global;
use std::collections::BTreeMap;

/// The most bytes of a line that is kept once. There are few such texts, and what a line takes besides
/// its text is then little for each byte of a file. Of longer ones there may be as many as a file has
/// room for, each another, so that to keep them by their texts would take memory rather than save it.
const MOST_BYTES: usize = 4;

/// The short lines that were read, by their texts.
pub(crate) struct ShortLines<'t> {
    kept: BTreeMap<&'t str, Line>,
}

impl<'t> Drop for ShortLines<'t> {
    fn drop(self) {
        let ShortLines { kept: _ } = self;
    }
}

impl<'t> ShortLines<'t> {
    /// None yet.
    pub(crate) fn new(alloc: Global) -> ShortLines<'t> {
        ShortLines {
            kept: BTreeMap::new(alloc),
        }
    }

    /// Reads a line with its ending. A short one shares what it holds with an equal one before it.
    pub(crate) fn read(&mut self, alloc: Global, line: &'t str) -> Result<Line, Cause>
        ensures { Answers OutOfMemory (checked_line line.now) result }
    {
        if line.len() > MOST_BYTES {
            return Line::read(alloc, line);
        }
        if let Some(same) = self.kept.get(line) {
            // It is equal, as the test tells the proof.
            if same.text() == line {
                return Ok(same.clone()?);
            }
        }
        let read = Line::read(alloc, line)?;
        self.kept.insert(line, read.clone()?)?;
        Ok(read)
    }
}
