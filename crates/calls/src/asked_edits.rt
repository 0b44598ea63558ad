// The edit that a call asks for, with the history that it is made in.

ghost use Rattle.std.specs.Prelude.{◌≡◌, IfOk, IfSome};
ghost use Rattle.files.specs.Places.{AllAre, AreInPlace, bytes_read};
ghost use Rattle.files.specs.Repair.{IsRepairOf};
ghost use Rattle.folder.specs.Calls.{IsSettled, Ran};
ghost use Rattle.calls.specs.AskedEdits.{IsHistoryFor, IsMadeOf, IsMadeOfRead, MayGiveWay};
ghost use Rattle.inputs.specs.Handed.{IsIndexAt};

use crate::read_edit::{ReadEdit, UnsavedEdit};
use crate::replacement::{replaced, replaced_to_save};
use crate::retargeting::{new_target_paths, retargeted, retargeted_to_save};
use command_line::request::{AskedEdit, EditOptions};
use files::saved_history::{SavedHistory, history_to_save, read_history};
use files::{HistoryFolder, StillFolder};
use inputs::HandedFiles;
use inputs::target_files::TargetPath;
use stops::Stop;

/// Reads what an edit needs, to save a history in the place of the one that it is made in. `targets` are those that take
/// the place of the present ones, where it asks for some. A save that was stopped is ended first. All files are read
/// before a fault in one of them is told.
pub fn asked_edit_to_save<F: HistoryFolder, G: HandedFiles>(
    folder: &mut F,
    handed: &G,
    asked: AskedEdit<'_>,
    options: EditOptions<'_>,
    targets: Vec<TargetPath>,
) -> Result<ReadEdit, Stop>
    requires { IsSettled F.held F.may_leave folder.old }
    ensures history { IfOk result (λ read. IsHistoryFor (G.handed handed.now) asked.entry
        read.history.files read.history.session) }
    ensures edit { IfOk result (λ read. IsMadeOf (G.handed handed.now) asked.entry targets.items
        read.history.files read.history.session read.edit) }
    ensures index { IfOk result (λ read. IsIndexAt (G.handed handed.now)
        options.entry.index.now read.history.snapshot) }
    ensures places { IfOk result (λ read. AllAre (F.held folder.new) (F.may_leave folder.new)
        (λ h. AreInPlace h (bytes_read read.history.files))) }
    ensures repaired { Ran F.held F.may_leave F.moment F.left_since F.faults
        (IsRepairOf (MayGiveWay asked.entry (F.may_fail folder.old)))
        (IsRepairOf (MayGiveWay asked.entry (F.may_fail folder.old))) folder.old folder.new }
{
    match asked {
        AskedEdit::Typed(edit) => {
            let history = history_to_save(folder, handed, options.index)?;
            Ok(ReadEdit { history, edit })
        }
        AskedEdit::Replace(replacement) => {
            replaced_to_save(folder, handed, &replacement, options)
        }
        AskedEdit::Retarget(given) => {
            let paths = new_target_paths(handed.alloc(), &given, targets)?;
            retargeted_to_save(folder, handed, paths, options)
        }
    }
}

/// The same, where nothing is to be saved: the files are read as they stand.
pub fn asked_edit<F: StillFolder, G: HandedFiles>(
    folder: &F,
    handed: &G,
    asked: AskedEdit<'_>,
    options: EditOptions<'_>,
    targets: Vec<TargetPath>,
) -> Result<UnsavedEdit, Stop>
    ensures edit { IfOk result (λ read. IsMadeOfRead (F.held folder.now) (G.handed handed.now)
        asked.entry targets.items read.session read.edit) }
    ensures index { IfOk result (λ read. IsIndexAt (G.handed handed.now)
        options.entry.index.now read.snapshot) }
{
    let read = read_edit(folder, handed, asked, options, targets)?;
    Ok(unsaved(read))
}

fn read_edit<F: StillFolder, G: HandedFiles>(
    folder: &F,
    handed: &G,
    asked: AskedEdit<'_>,
    options: EditOptions<'_>,
    targets: Vec<TargetPath>,
) -> Result<ReadEdit, Stop>
    ensures history { IfOk result (λ read. IsHistoryFor (G.handed handed.now) asked.entry
        read.history.files read.history.session) }
    ensures edit { IfOk result (λ read. IsMadeOf (G.handed handed.now) asked.entry targets.items
        read.history.files read.history.session read.edit) }
    ensures index { IfOk result (λ read. IsIndexAt (G.handed handed.now)
        options.entry.index.now read.history.snapshot) }
    ensures places { IfOk result (λ read. IfSome (F.held folder.now)
        (λ h. AreInPlace h (bytes_read read.history.files))) }
{
    match asked {
        AskedEdit::Typed(edit) => {
            let history = read_history(folder, handed, options.index)?;
            Ok(ReadEdit { history, edit })
        }
        AskedEdit::Replace(replacement) => replaced(folder, handed, &replacement, options),
        AskedEdit::Retarget(given) => {
            let paths = new_target_paths(handed.alloc(), &given, targets)?;
            retargeted(folder, handed, paths, options)
        }
    }
}

/// The same edit without the files.
fn unsaved(read: ReadEdit) -> UnsavedEdit
    ensures session { result.session ≡ read.history.session }
    ensures index { result.snapshot ≡ read.history.snapshot }
    ensures edit { result.edit ≡ read.edit }
{
    let ReadEdit { history, edit } = read;
    let SavedHistory {
        files: _,
        session,
        snapshot,
    } = history;
    UnsavedEdit {
        session,
        snapshot,
        edit,
    }
}
