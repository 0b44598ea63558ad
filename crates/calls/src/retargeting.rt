// What `retarget` reads, and the edit that it is.

ghost use Rattle.std.specs.Prelude.{◌≡◌, IfOk, IfSome, Ok};
ghost use Rattle.calls.specs.Retargets.{IsRetarget, LeadsToNamed};
ghost use Rattle.files.specs.Beside.{StandFor};
ghost use Rattle.files.specs.Places.{AllAre, AreInPlace, bytes_read};
ghost use Rattle.files.specs.Repair.{IsRepairOf};
ghost use Rattle.folder.specs.Calls.{IsSettled, Ran};
ghost use Rattle.inputs.specs.Handed.{AreAt, IsAt, IsIndexAt};
ghost use Rattle.inputs.specs.Inputs.{index_in};
ghost use Rattle.inputs.specs.PinsFiles.{pins_paths};

use crate::read_edit::ReadEdit;
use command_line::request::{EditOptions, NewTargets};
use edits::{Edit, FirstTargets, TargetName};
use files::first_inputs::targets_with_pins;
use files::saved_history::SavedHistory;
use files::{HistoryFolder, SavedFiles, StillFolder};
use inputs::named_file::{NamedBytes, NamedPath};
use inputs::pins_files::{pins_paths as paths_of_pins, read_pins};
use inputs::target_files::{TargetPath, read_all};
use inputs::{Fault, HandedFiles, InputFile, in_file, read_index};
use journal::Session;
use lists::Text;
use std::alloc::{AllocError, Global};
use stops::Stop;

/// Where the files stand of the targets that take the place of the present ones.
#[derive(Drop)]
pub(crate) struct NewTargetPaths {
    pub targets: Vec<TargetPath>,
    /// The pins that count for new ones.
    pub pins: Vec<NamedPath<Text>>,
}

/// The targets, and where the pins stand that are given with them.
pub(crate) fn new_target_paths(
    alloc: Global,
    given: &NewTargets,
    targets: Vec<TargetPath>,
) -> Result<NewTargetPaths, AllocError>
    ensures targets { IfOk result (λ paths. paths.targets ≡ targets) }
    ensures pins { IfOk result (λ paths. paths.pins.items ≡ pins_paths given.now.pins) }
{
    let pins = paths_of_pins(alloc, given.pins.as_slice())?;
    Ok(NewTargetPaths { targets, pins })
}

/// Reads what a retarget needs, to save a history in the place of the one that it is made in. A save that was stopped is
/// ended first. All files are read before a fault in one of them is told.
pub(crate) fn retargeted_to_save<F: HistoryFolder, G: HandedFiles>(
    folder: &mut F,
    handed: &G,
    paths: NewTargetPaths,
    options: EditOptions<'_>,
) -> Result<ReadEdit, Stop>
    requires { IsSettled F.held F.may_leave folder.old }
    ensures history { IfOk result (λ read. StandFor read.history.files read.history.session) }
    ensures edit { IfOk result (λ read. LeadsToNamed (G.handed handed.now) paths.targets.items
        paths.pins.items read.edit) }
    ensures index { IfOk result (λ read. IsIndexAt (G.handed handed.now)
        options.entry.index.now read.history.snapshot) }
    ensures places { IfOk result (λ read. AllAre (F.held folder.new) (F.may_leave folder.new)
        (λ h. AreInPlace h (bytes_read read.history.files))) }
    ensures repaired { Ran F.held F.may_leave F.moment F.left_since F.faults
        (IsRepairOf (F.may_fail folder.old)) (IsRepairOf (F.may_fail folder.old))
        folder.old folder.new }
{
    let files = SavedFiles::read_to_save(&mut *folder)?;
    let read = read_handed(handed, paths, options)?;
    let (files, session) = files.open_to_save(folder)?;
    Ok(made_of(handed.alloc(), files, session, read)?)
}

/// The same, where nothing is to be saved: the files are read as they stand.
pub(crate) fn retargeted<F: StillFolder, G: HandedFiles>(
    folder: &F,
    handed: &G,
    paths: NewTargetPaths,
    options: EditOptions<'_>,
) -> Result<ReadEdit, Stop>
    ensures history { IfOk result (λ read. StandFor read.history.files read.history.session) }
    ensures edit { IfOk result (λ read. LeadsToNamed (G.handed handed.now) paths.targets.items
        paths.pins.items read.edit) }
    ensures index { IfOk result (λ read. IsIndexAt (G.handed handed.now)
        options.entry.index.now read.history.snapshot) }
    ensures places { IfOk result (λ read. IfSome (F.held folder.now)
        (λ h. AreInPlace h (bytes_read read.history.files))) }
{
    let files = folder.still_files()?;
    let read = read_handed(handed, paths, options)?;
    let session = files.open(folder.alloc())?;
    Ok(made_of(handed.alloc(), files, session, read)?)
}

// What was read beside the files of the folder.
#[derive(Drop)]
struct HandedRead {
    index: Vec<u8>,
    environments: Vec<NamedBytes<TargetName>>,
    pins: Vec<NamedBytes<Text>>,
}

fn read_handed<G: HandedFiles>(
    handed: &G,
    paths: NewTargetPaths,
    options: EditOptions<'_>,
) -> Result<HandedRead, Fault>
    ensures index { IfOk result (λ read. IsAt (G.handed handed.now) InputFile.Index
        options.entry.index.now read.index.items) }
    ensures environments { IfOk result (λ read. AreAt (G.handed handed.now)
        InputFile.Environment paths.targets.items read.environments.items) }
    ensures pins { IfOk result (λ read. AreAt (G.handed handed.now) InputFile.Pins
        paths.pins.items read.pins.items) }
{
    let NewTargetPaths { targets, pins } = paths;
    let index = handed.read(InputFile::Index, options.index)?;
    let environments = read_all(handed, targets)?;
    let pins = read_pins(handed, pins)?;
    Ok(HandedRead {
        index,
        environments,
        pins,
    })
}

/// The edit over the history and the index.
fn made_of(
    alloc: Global,
    files: SavedFiles,
    session: Session,
    read: HandedRead,
) -> Result<ReadEdit, Fault>
    ensures files { IfOk result (λ made. made.history.files ≡ files) }
    ensures session { IfOk result (λ made. made.history.session ≡ session) }
    ensures index { IfOk result (λ made. index_in read.index.items ≡ Ok made.history.snapshot) }
    ensures edit { IfOk result (λ made. IsRetarget read.environments.items read.pins.items
        made.edit) }
{
    let HandedRead {
        index,
        environments,
        pins,
    } = read;
    let snapshot = in_file(InputFile::Index, read_index(alloc, index.as_slice()))?;
    let FirstTargets { targets, pins } = targets_with_pins(alloc, environments, pins)?;
    let history = SavedHistory {
        files,
        session,
        snapshot,
    };
    Ok(ReadEdit {
        history,
        edit: Edit::Retarget(targets, pins),
    })
}
