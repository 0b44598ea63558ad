// What makes the index of a call again, so that it has more packages.

use notes::IndexMaker;
use std::alloc::AllocError;
use std::fs;
use std::fs::File;
use std::io::{self, ErrorKind, Read};
use std::rt::Files;

/// The folder that `rql` keeps beside its settings.
const PROJECT: &str = ".reqlock";

/// How a snapshot begins that tells how it was made.
const MADE: &[u8] = b"{\"snapshot\":1,\"made\":";

/// What makes an index again that a call in this folder is given. Where `rql` keeps it, that is `rql`. Of any other its front
/// alone is read.
pub(crate) fn maker_of<R: Files + AllocGlobal>(
    rt: &R,
    dir: &str,
    index: &str,
) -> Result<IndexMaker, AllocError> {
    let path = format!(in rt.alloc(); "{dir}/{PROJECT}")?;
    if index.split('/').any(|part| part == PROJECT) || is_folder(rt, path.as_str()) {
        return Ok(IndexMaker::Project);
    }
    match tells_making(rt, index) {
        Ok(true) => Ok(IndexMaker::Again),
        Ok(false) => Ok(IndexMaker::First),
        Err(error) if error.kind() == ErrorKind::OutOfMemory => Err(AllocError),
        Err(_) => Ok(IndexMaker::First),
    }
}

fn is_folder<R: Files + AllocGlobal>(rt: &R, path: &str) -> bool {
    match fs::metadata(rt, path) {
        Ok(metadata) => metadata.is_dir(),
        Err(_) => false,
    }
}

/// Whether a regular file begins as a snapshot that tells how it was made.
fn tells_making<R: Files + AllocGlobal>(rt: &R, path: &str) -> io::Result<bool> {
    if !fs::metadata(rt, path)?.is_file() {
        return Ok(false);
    }
    let mut front = Vec::new(rt.alloc());
    let mut file = File::open(rt, path)?.take(MADE.len() as u64);
    file.read_to_end(&mut front)?;
    Ok(front.as_slice() == MADE)
}
