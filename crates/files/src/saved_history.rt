// The history that the files of a folder stand for, with an index or without.

ghost use Rattle.std.specs.Prelude.{IfOk, IfSome};
ghost use Rattle.folder.specs.Calls.{IsSettled, Ran};
ghost use Rattle.inputs.specs.Handed.{IsIndexAt};
ghost use Rattle.files.specs.Beside.{StandFor};
ghost use Rattle.files.specs.Places.{AllAre, AreInPlace, IsReadOf, bytes_read};
ghost use Rattle.files.specs.Repair.{IsRepairOf};

use crate::history_folder::HistoryFolder;
use crate::saved_files::SavedFiles;
use crate::still_folder::StillFolder;
use inputs::{Fault, HandedFiles, InputFile, in_file, read_index};
use journal::Session;
use snapshot::Snapshot;

/// The history that the files of the folder stand for. Nothing is written to them meanwhile.
pub fn saved_session<F: StillFolder>(folder: &F) -> Result<Session, Fault>
    ensures { IfOk result (IsReadOf (F.held folder.now)) }
{
    folder.still_files()?.open(folder.alloc())
}

/// A history with the files that it was read from, and an index.
#[derive(Drop)]
pub struct SavedHistory {
    pub files: SavedFiles,
    pub session: Session,
    pub snapshot: Snapshot,
}

/// The same history with its files, and an index. All files are read before a fault in one of them is told.
pub fn read_history<F: StillFolder, G: HandedFiles>(
    folder: &F,
    handed: &G,
    index: &str,
) -> Result<SavedHistory, Fault>
    ensures stand { IfOk result (λ read. StandFor read.files read.session) }
    ensures index { IfOk result
        (λ read. IsIndexAt (G.handed handed.now) index.now read.snapshot) }
    ensures places { IfOk result
        (λ read. IfSome (F.held folder.now) (λ h. AreInPlace h (bytes_read read.files))) }
{
    let alloc = folder.alloc();
    let files = folder.still_files()?;
    let bytes = handed.read(InputFile::Index, index)?;
    let session = files.open(alloc)?;
    let snapshot = in_file(InputFile::Index, read_index(alloc, bytes.as_slice()))?;
    Ok(SavedHistory {
        files,
        session,
        snapshot,
    })
}

/// The same history without its files, and the index.
pub fn session_over<F: StillFolder, G: HandedFiles>(
    folder: &F,
    handed: &G,
    index: &str,
) -> Result<(Session, Snapshot), Fault>
    ensures history { IfOk result (λ opened. IsReadOf (F.held folder.now) opened.0) }
    ensures index { IfOk result
        (λ opened. IsIndexAt (G.handed handed.now) index.now opened.1) }
{
    let SavedHistory {
        files: _,
        session,
        snapshot,
    } = read_history(folder, handed, index)?;
    Ok((session, snapshot))
}

/// The history that the files of the folder stand for and an index, to save another in their place. A save that
/// was stopped is ended first. All files are read before a fault in one of them is told.
pub fn history_to_save<F: HistoryFolder, G: HandedFiles>(
    folder: &mut F,
    handed: &G,
    index: &str,
) -> Result<SavedHistory, Fault>
    requires { IsSettled F.held F.may_leave folder.old }
    ensures stand { IfOk result (λ saved. StandFor saved.files saved.session) }
    ensures index { IfOk result
        (λ saved. IsIndexAt (G.handed handed.now) index.now saved.snapshot) }
    ensures places { IfOk result (λ saved. AllAre (F.held folder.new) (F.may_leave folder.new)
        (λ h. AreInPlace h (bytes_read saved.files))) }
    ensures repaired { Ran F.held F.may_leave F.moment F.left_since F.faults
        (IsRepairOf (F.may_fail folder.old)) (IsRepairOf (F.may_fail folder.old))
        folder.old folder.new }
{
    let alloc = folder.alloc();
    let files = SavedFiles::read_to_save(&mut *folder)?;
    let index = handed.read(InputFile::Index, index)?;
    let (files, session) = files.open_to_save(folder)?;
    let snapshot = in_file(InputFile::Index, read_index(alloc, index.as_slice()))?;
    Ok(SavedHistory {
        files,
        session,
        snapshot,
    })
}
