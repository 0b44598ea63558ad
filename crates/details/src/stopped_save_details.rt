// What is told of a save that was stopped midway.

use crate::details::Details;
use crate::fault_details::{bytes_of, is_there};
use crate::older_journal_details::{file_digest, first_line};
use inputs::{InputFile, path_of};
use std::alloc::AllocError;
use std::rt::Files;

impl Details {
    /// Notes what ends a save that was stopped, where this file is at fault for it.
    pub(crate) fn add_stopped_save<R: Files + AllocGlobal>(
        &mut self,
        rt: &R,
        dir: &str,
        file: &InputFile,
    ) -> Result<(), AllocError> {
        if !is_stopped(rt, dir, file)? {
            return Ok(());
        }
        self.known.push_str(
            "A save was stopped midway: what it was to put in place stands beside, with .new behind the names. The next call that saves ends it. Where it can't:\n",
        )
    }
}

/// Whether a save left this file or the journal beside its place, and the lines are still those of a journal.
fn is_stopped<R: Files + AllocGlobal>(
    rt: &R,
    dir: &str,
    file: &InputFile,
) -> Result<bool, AllocError> {
    let journal = path_of(rt.alloc(), dir, &InputFile::Journal)?;
    let new_journal = beside(rt, dir, &InputFile::Journal)?;
    let new_file = beside(rt, dir, file)?;
    if !is_there(rt, new_journal.as_str()) && !is_there(rt, new_file.as_str()) {
        return Ok(false);
    }
    let digest = file_digest(rt, dir, &InputFile::Requirements)?;
    Ok(
        has_digest(rt, journal.as_str(), digest.as_str())?
            || has_digest(rt, new_journal.as_str(), digest.as_str())?,
    )
}

/// The path at which a save writes a file before it is put in its place.
fn beside<R: AllocGlobal>(rt: &R, dir: &str, file: &InputFile) -> Result<String, AllocError> {
    let mut path = path_of(rt.alloc(), dir, file)?;
    path.push_str(".new")?;
    Ok(path)
}

/// Whether the first line of a journal has a digest.
fn has_digest<R: Files + AllocGlobal>(
    rt: &R,
    journal: &str,
    digest: &str,
) -> Result<bool, AllocError> {
    let bytes = bytes_of(rt, &InputFile::Journal, journal)?;
    let line = first_line(rt.alloc(), bytes.as_slice())?;
    Ok(line.as_str().contains(digest))
}
