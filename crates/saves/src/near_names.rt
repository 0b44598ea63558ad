// Which locked names are near to one that isn't locked.

use details::Details;
use edits::Refusal;
use files::held::held_in;
use files::{HistoryFolder, SavedFiles};
use std::alloc::AllocError;
use stops::Stop;

/// Notes them where a call stops since a name isn't locked. Files that tell no history have none.
pub fn add_near_names<F: HistoryFolder>(
    folder: &F,
    details: &mut Details,
    stop: &Stop,
) -> Result<(), AllocError> {
    let Stop::Refused(Refusal::NotLocked(name)) = stop else {
        return Ok(());
    };
    if !details.tells() {
        return Ok(());
    }
    let Ok(files) = SavedFiles::read(folder) else {
        return Ok(());
    };
    match held_in(folder, &files) {
        Ok(held) => details.add_not_locked(folder.alloc(), held.targets(), name.as_str()),
        Err(_) => Ok(()),
    }
}
