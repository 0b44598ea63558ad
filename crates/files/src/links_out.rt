// Links in the places of the files that a first save writes.

use crate::history_folder::HistoryFolder;
use inputs::{Fault, InputFile, LinkOut};
use journal::Session;

/// The first of the files that a first save writes whose place is a link to a file that is no lock and no journal
/// of reqlock: the save would overwrite that one, as a hook of git, which then runs what stands in the lock. It counts
/// for nothing whether the link leads out of the folder. A later save finds such files not to be its own. The
/// requirements file stays as it is.
pub fn link_out<F: HistoryFolder>(folder: &F, session: &Session) -> Result<Option<LinkOut>, Fault> {
    for target in session.state().targets() {
        let link = folder.link_out(InputFile::Lock(target.name.clone()?))?;
        if link.is_some() {
            return Ok(link);
        }
    }
    folder.link_out(InputFile::Journal)
}
