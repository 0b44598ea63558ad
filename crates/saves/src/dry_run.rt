// What `--dry-run` prints: an edit, `undo` or `redo` as it would be, of which nothing is saved.

use crate::edit::{applied, changed_from, takes_pins};
use crate::standing_lock::refuse_standing;
use calls::{Call, UnsavedEdit, asked_edit, difference_between, pool_of};
use command_line::request::{AskedEdit, EditOptions};
use commands::ReplyText;
use details::{Changed, Details, Place};
use files::saved_history::saved_session;
use files::standing_lock::target_names;
use files::{HistoryFolder, StillFolder};
use inputs::HandedFiles;
use inputs::target_files::TargetPath;
use journal::{Command, Session};
use reports::print;
use std::io::Write;
use stops::Stop;
use texts::diff_text::diff_text;

/// Makes one edit over an index, and prints the reply and what changed. A save that was stopped isn't ended:
/// its files are read as they stand.
pub fn rehearse_edit<R: AllocGlobal, F: StillFolder, G: HandedFiles, O: Write>(
    call: &mut Call<'_, R, O>,
    folder: &F,
    handed: &G,
    details: &mut Details,
    asked: AskedEdit<'_>,
    options: EditOptions<'_>,
    targets: Vec<TargetPath>,
) -> Result<(), Stop> {
    let UnsavedEdit {
        session,
        snapshot,
        edit,
    } = asked_edit(folder, handed, asked, options, targets)?;
    let command = Command::Edit(edit, pool_of(&snapshot, options));
    rehearse(
        call,
        folder,
        details,
        session,
        &command,
        options.only_if_needed,
    )
}

/// Does one command that needs no index, in the same way.
pub fn rehearse_step<R: AllocGlobal, F: StillFolder, O: Write>(
    call: &mut Call<'_, R, O>,
    folder: &F,
    details: &mut Details,
    command: &Command<'_>,
) -> Result<(), Stop> {
    let session = saved_session(folder)?;
    rehearse(call, folder, details, session, command, false)
}

pub(crate) fn rehearse<R: AllocGlobal, F: HistoryFolder, O: Write>(
    call: &mut Call<'_, R, O>,
    folder: &F,
    details: &mut Details,
    mut session: Session,
    command: &Command<'_>,
    only_if_needed: bool,
) -> Result<(), Stop> {
    let alloc = call.rt.alloc();
    let from = Place::of(&session);
    let before = target_names(alloc, &session)?;
    let mut text = ReplyText::new(alloc)?;
    let reply = applied(alloc, details, &mut session, command, only_if_needed)?;
    text.set(&reply);
    refuse_standing(
        folder,
        details,
        before.as_slice(),
        &session,
        takes_pins(command),
    )?;
    let from = changed_from(&reply, from, &session);
    let change = difference_between(alloc, &session, from.cursor, session.cursor())?;
    let changed = Changed {
        from,
        change: &change,
        is_saved: false,
    };
    details.add_moved(alloc, &session, command, changed)?;
    let change = diff_text(alloc, &change, call.style)?;
    print(&mut call.output, text.as_bytes())?;
    Ok(print(&mut call.output, change.as_bytes())?)
}
