// A save that would overwrite a file which isn't of the history.

use details::Details;
use edits::TargetName;
use files::HistoryFolder;
use files::standing_lock::standing_lock;
use inputs::InputFile;
use journal::Session;
use stops::Stop;

/// Refuses it, and notes the ways out, of which pins may be one. The names are those of the targets before.
pub(crate) fn refuse_standing<F: HistoryFolder>(
    folder: &F,
    details: &mut Details,
    before: &[TargetName],
    session: &Session,
    takes_pins: bool,
) -> Result<(), Stop> {
    let Some(name) = standing_lock(folder, before, session)? else {
        return Ok(());
    };
    details.add_standing(&name, takes_pins)?;
    Err(Stop::Unwritten(InputFile::Lock(name)))
}
