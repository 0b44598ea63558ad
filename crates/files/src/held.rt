// What the files of a folder tell of a history, also where somebody else changed the requirements file alone.

ghost use Rattle.std.specs.Prelude.{◌≡◌, IfOk};
ghost use Rattle.inputs.specs.Handed.{IsIndexAt};
ghost use Rattle.files.specs.Told.{IsToldOf, Tells, cursor_of};

use crate::history_folder::HistoryFolder;
use crate::saved_files::SavedFiles;
use crate::still_folder::StillFolder;
use crate::stopped_save::is_left;
use edits::{Change, ReqFile, Target};
use inputs::{Fault, HandedFiles, InputFault, InputFile, in_file, read_index, read_requirements};
use journal::{Session, Told};
use snapshot::Snapshot;
use std::alloc::Global;

/// What the files of a folder tell of a history.
#[derive(Drop)]
pub enum Held {
    /// The history that they stand for.
    History(Session),
    /// What the locks and the journal tell, where the requirements file alone isn't the one that was saved with them.
    Changed(Told, LinesNow),
}

/// The lines of the requirements file as it stands.
#[derive(Drop)]
pub struct LinesNow {
    /// None where it doesn't read.
    pub file: ReqFile,
    pub do_read: bool,
}

impl Held {
    /// The place of the present state.
    pub fn cursor(&self) -> usize
        ensures { result ≡ cursor_of self.now }
    {
        match self {
            Held::History(session) => session.cursor(),
            Held::Changed(told, _) => told.cursor,
        }
    }

    /// The change of each step, from the first on.
    pub fn changes(&self) -> &[Change] {
        match self {
            Held::History(session) => session.changes(),
            Held::Changed(told, _) => told.changes.as_slice(),
        }
    }

    /// The targets of the present state.
    pub fn targets(&self) -> &[Target] {
        match self {
            Held::History(session) => session.state().targets(),
            Held::Changed(told, _) => told.targets.as_slice(),
        }
    }

    /// Whether the requirements file was changed since it was saved.
    pub fn has_other_lines(&self) -> bool {
        match self {
            Held::History(_) => false,
            Held::Changed(_, _) => true,
        }
    }

    /// The lines of the requirements file, as it stands.
    pub fn lines(&self) -> &ReqFile {
        match self {
            Held::History(session) => session.state().lines(),
            Held::Changed(_, lines) => &lines.file,
        }
    }
}

/// What the files of the folder tell. Nothing is written to them meanwhile.
pub fn held_history<F: StillFolder>(folder: &F) -> Result<Held, Fault>
    ensures { IfOk result (IsToldOf (F.held folder.now)) }
{
    let files = folder.still_files()?;
    held_in(folder, &files)
}

/// The same, and an index. All files are read before a fault in one of them is told.
pub fn held_over<F: StillFolder, G: HandedFiles>(
    folder: &F,
    handed: &G,
    index: &str,
) -> Result<(Held, Snapshot), Fault>
    ensures history { IfOk result (λ read. IsToldOf (F.held folder.now) read.0) }
    ensures index { IfOk result (λ read. IsIndexAt (G.handed handed.now) index.now read.1) }
{
    let files = folder.still_files()?;
    let bytes = handed.read(InputFile::Index, index)?;
    let held = held_in(folder, &files)?;
    let snapshot = in_file(
        InputFile::Index,
        read_index(folder.alloc(), bytes.as_slice()),
    )?;
    Ok((held, snapshot))
}

/// What these files of the folder tell.
pub fn held_in<F: HistoryFolder>(folder: &F, files: &SavedFiles) -> Result<Held, Fault>
    ensures { IfOk result (Tells files.now) }
{
    match files.open(folder.alloc()) {
        Ok(session) => Ok(Held::History(session)),
        Err(Fault::Input(InputFile::Requirements, InputFault::Disagrees)) => {
            held_without(folder, files)
        }
        Err(fault) => Err(fault),
    }
}

/// What the locks and the journal tell. That the requirements file is another is the fault where more is wrong, or where
/// a save that was stopped may have put it there.
fn held_without<F: HistoryFolder>(folder: &F, files: &SavedFiles) -> Result<Held, Fault>
    ensures { IfOk result (Tells files.now) }
{
    if is_left(folder)? {
        return Err(Fault::Input(InputFile::Requirements, InputFault::Disagrees));
    }
    match files.told(folder.alloc()) {
        Ok(told) => Ok(Held::Changed(told, lines_in(folder.alloc(), files.requirements())?)),
        Err(Fault::Input(_, _)) => {
            Err(Fault::Input(InputFile::Requirements, InputFault::Disagrees))
        }
        Err(fault) => Err(fault),
    }
}

/// The lines that these bytes are.
fn lines_in(alloc: Global, bytes: &[u8]) -> Result<LinesNow, Fault> {
    match read_requirements(alloc, bytes) {
        Ok(file) => Ok(LinesNow {
            file,
            do_read: true,
        }),
        Err(InputFault::OutOfMemory) => Err(Fault::OutOfMemory),
        Err(_) => Ok(LinesNow {
            file: in_file(InputFile::Requirements, read_requirements(alloc, b""))?,
            do_read: false,
        }),
    }
}
