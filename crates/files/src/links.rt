// Links in the places of files on the disk.

use edits::Refusal;
use inputs::{Fault, InputFile, LinkOut, passed_over, path_of, read_bytes};
use journal::Journal;
use lists::Seq;
use std::alloc::AllocError;
use std::rt::Files;
use std::{fs, io};

// The line with which a lock of reqlock begins.
const MADE_BY_US: &[u8] = b"created-by = \"reqlock\"\n";

/// The link in the place of a file, where it leads to what isn't ours. What can't be told here, the save tells.
pub(crate) fn link_of<R: Files + AllocGlobal>(
    rt: &R,
    dir: &str,
    file: InputFile,
) -> Result<Option<LinkOut>, Fault> {
    let path = path_of(rt.alloc(), dir, &file)?;
    match path_behind(rt, path.as_str()) {
        Ok(None) => Ok(None),
        Ok(Some(path)) => {
            if is_ours(rt, file.clone()?, path.as_str())? {
                return Ok(None);
            }
            Ok(Some(LinkOut { file, path }))
        }
        Err(error) => passed_over(&error),
    }
}

/// Where a link leads; nothing where the path is none.
fn path_behind<R: Files + AllocGlobal>(rt: &R, path: &str) -> io::Result<Option<String>> {
    if !fs::symlink_metadata(rt, path)?.is_symlink() {
        return Ok(None);
    }
    Ok(Some(fs::canonicalize(rt, path)?.into_string()))
}

/// Whether a file is a lock or a journal that reqlock wrote.
fn is_ours<R: Files + AllocGlobal>(rt: &R, file: InputFile, path: &str) -> Result<bool, Fault> {
    let is_journal = matches!(file, InputFile::Journal);
    let bytes = match read_bytes(rt, file, path) {
        Ok(bytes) => bytes,
        Err(Fault::OutOfMemory) => return Err(Fault::OutOfMemory),
        Err(_) => return Ok(false),
    };
    if !is_journal {
        return Ok(bytes.starts_with(MADE_BY_US));
    }
    let journal = Journal::read(rt.alloc(), Seq::from_vec(bytes))?;
    match journal.targets(rt.alloc()) {
        Ok(_) => Ok(true),
        Err(Refusal::OutOfMemory) => Err(Fault::from(AllocError)),
        Err(_) => Ok(false),
    }
}
