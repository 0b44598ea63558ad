// What `replace` reads, and the edit that it is.

ghost use Rattle.std.specs.Prelude.{◌≡◌, ◌⊎◌, IfOk, IfSome, Ok, map};
ghost use Rattle.files.specs.Places.{AllAre, AreInPlace, AreNamed, bytes_read};
ghost use Rattle.files.specs.Repair.{IsRepairOf};
ghost use Rattle.folder.specs.Calls.{IsSettled, Ran};
ghost use Rattle.calls.specs.Replaces.{IsHandChanged, IsReplaced, IsReplacement, Replaces};
ghost use Rattle.calls.specs.Tied.ReadLines.{AreMadeOf, AreReadFor, HasOld, IsOpened};
ghost use Rattle.inputs.specs.Handed.{AreAt, IsAt, IsIndexAt};
ghost use Rattle.inputs.specs.Inputs.{index_in, requirements_in};
ghost use Rattle.inputs.specs.PinsFiles.{ArePinsOf, given_by, pins_paths, without_lock};

use crate::read_edit::ReadEdit;
use command_line::request::{EditOptions, NewLines, Replacement};
use edits::{Edit, Refusal, ReqFile, Target, TargetPins, with_line_exchanged};
use files::saved_history::SavedHistory;
use files::{HistoryFolder, SavedFiles, StillFolder};
use inputs::named_file::NamedBytes;
use inputs::pins_files::{LentTarget, pins_of, pins_paths as paths_of_pins, read_pins};
use inputs::{Fault, HandedFiles, InputFile, in_file, read_index, read_requirements};
use journal::Session;
use lists::{Seq, Text};
use std::alloc::{AllocError, Global};
use stops::Stop;

/// The lines that take the place of all lines, or what they are made of.
#[derive(Drop)]
pub enum LinesRead<'a> {
    /// What the new file holds.
    New(Vec<u8>),
    /// What the file held before somebody changed it. The folder's file has the new lines.
    Old(Vec<u8>),
    /// A line for the one on this name.
    Line(&'a str, &'a str),
}

/// Reads what a replacement needs, to save a history in the place of the one that it is made in. A save that was
/// stopped is ended first. All files are read before a fault in one of them is told.
pub(crate) fn replaced_to_save<F: HistoryFolder, G: HandedFiles>(
    folder: &mut F,
    handed: &G,
    replacement: &Replacement<'_>,
    options: EditOptions<'_>,
) -> Result<ReadEdit, Stop>
    requires { IsSettled F.held F.may_leave folder.old }
    ensures history { IfOk result (λ read. IsReplaced (G.handed handed.now)
        replacement.now.lines read.history.files read.history.session) }
    ensures edit { IfOk result (λ read. IsReplacement (G.handed handed.now)
        replacement.now.lines (pins_paths replacement.now.pins)
        read.history.files read.history.session read.edit) }
    ensures index { IfOk result (λ read. IsIndexAt (G.handed handed.now)
        options.entry.index.now read.history.snapshot) }
    ensures places { IfOk result (λ read. AllAre (F.held folder.new) (F.may_leave folder.new)
        (λ h. AreInPlace h (bytes_read read.history.files))) }
    ensures repaired { Ran F.held F.may_leave F.moment F.left_since F.faults
        (IsRepairOf (F.may_fail folder.old ⊎ IsHandChanged replacement.now.lines))
        (IsRepairOf (F.may_fail folder.old ⊎ IsHandChanged replacement.now.lines))
        folder.old folder.new }
{
    let files = SavedFiles::read_to_save(&mut *folder)?;
    let read = read_handed(handed, replacement, options)?;
    let (files, session) = opened_to_save(folder, files, &read.lines)?;
    Ok(made_of(handed.alloc(), files, session, read)?)
}

/// The same, where nothing is to be saved: the files are read as they stand.
pub(crate) fn replaced<F: StillFolder, G: HandedFiles>(
    folder: &F,
    handed: &G,
    replacement: &Replacement<'_>,
    options: EditOptions<'_>,
) -> Result<ReadEdit, Stop>
    ensures history { IfOk result (λ read. IsReplaced (G.handed handed.now)
        replacement.now.lines read.history.files read.history.session) }
    ensures edit { IfOk result (λ read. IsReplacement (G.handed handed.now)
        replacement.now.lines (pins_paths replacement.now.pins)
        read.history.files read.history.session read.edit) }
    ensures index { IfOk result (λ read. IsIndexAt (G.handed handed.now)
        options.entry.index.now read.history.snapshot) }
    ensures places { IfOk result (λ read. IfSome (F.held folder.now)
        (λ h. AreInPlace h (bytes_read read.history.files))) }
{
    let alloc = handed.alloc();
    let files = folder.still_files()?;
    let read = read_handed(handed, replacement, options)?;
    let session = opened(alloc, &files, &read.lines)?;
    Ok(made_of(alloc, files, session, read)?)
}

/// The history that files open as, to save another in its place. With the old file in the place of the folder's, if one
/// was read.
fn opened_to_save<F: HistoryFolder>(
    folder: &mut F,
    files: SavedFiles,
    lines: &LinesRead<'_>,
) -> Result<(SavedFiles, Session), Fault>
    requires settled { IsSettled F.held F.may_leave folder.old }
    requires places { AllAre (F.held folder.old) (F.may_leave folder.old)
        (λ h. AreInPlace h (bytes_read files)) }
    requires named { AreNamed files }
    ensures opened { IfOk result (λ opened. IsOpened lines.now opened.0 opened.1) }
    ensures places { IfOk result (λ opened. AllAre (F.held folder.new) (F.may_leave folder.new)
        (λ h. AreInPlace h (bytes_read opened.0))) }
    ensures repaired { Ran F.held F.may_leave F.moment F.left_since F.faults
        (IsRepairOf (HasOld lines.now)) (IsRepairOf (HasOld lines.now)) folder.old folder.new }
{
    match lines {
        LinesRead::Old(old) => files.open_hand_changed(folder, old.as_slice()),
        LinesRead::New(_) | LinesRead::Line(_, _) => files.open_to_save(folder),
    }
}

/// The same, where nothing is to be saved.
fn opened(alloc: Global, files: &SavedFiles, lines: &LinesRead<'_>) -> Result<Session, Fault>
    ensures { IfOk result (λ session. IsOpened lines.now files.now session) }
{
    match lines {
        LinesRead::Old(old) => files.open_with(alloc, old.as_slice()),
        LinesRead::New(_) | LinesRead::Line(_, _) => files.open(alloc),
    }
}

// What was read beside the files of the folder.
#[derive(Drop)]
struct HandedRead<'a> {
    index: Vec<u8>,
    lines: LinesRead<'a>,
    pins: Vec<NamedBytes<Text>>,
}

fn read_handed<'a, G: HandedFiles>(
    handed: &G,
    replacement: &Replacement<'a>,
    options: EditOptions<'_>,
) -> Result<HandedRead<'a>, Fault>
    ensures index { IfOk result (λ read. IsAt (G.handed handed.now) InputFile.Index
        options.entry.index.now read.index.items) }
    ensures lines { IfOk result
        (λ read. AreReadFor (G.handed handed.now) replacement.now.lines read.lines) }
    ensures pins { IfOk result (λ read. AreAt (G.handed handed.now) InputFile.Pins
        (pins_paths replacement.now.pins) read.pins.items) }
{
    let index = handed.read(InputFile::Index, options.index)?;
    let paths = paths_of_pins(handed.alloc(), replacement.pins.as_slice())?;
    let lines = match replacement.lines {
        NewLines::File(path) => LinesRead::New(handed.read(InputFile::NewRequirements, path)?),
        NewLines::Was(path) => LinesRead::Old(handed.read(InputFile::OldRequirements, path)?),
        NewLines::Line(name, text) => LinesRead::Line(name, text),
    };
    let pins = read_pins(handed, paths)?;
    Ok(HandedRead { index, lines, pins })
}

/// The edit over the history and the index.
fn made_of(
    alloc: Global,
    files: SavedFiles,
    session: Session,
    read: HandedRead<'_>,
) -> Result<ReadEdit, Stop>
    ensures files { IfOk result (λ made. made.history.files ≡ files) }
    ensures session { IfOk result (λ made. made.history.session ≡ session) }
    ensures index { IfOk result
        (λ made. index_in read.entry.index.items ≡ Ok made.history.snapshot) }
    ensures edit { IfOk result (λ made. Replaces (AreMadeOf read.entry.lines files session)
        (ArePinsOf read.entry.pins.items) session made.edit) }
{
    let HandedRead { index, lines, pins } = read;
    let snapshot = in_file(InputFile::Index, read_index(alloc, index.as_slice()))?;
    let lines = new_lines(alloc, &files, &session, &lines)?;
    let pins = pins_for_targets(alloc, session.state().targets(), pins)?;
    let edit = Edit::Replace(lines?, pins);
    let history = SavedHistory {
        files,
        session,
        snapshot,
    };
    Ok(ReadEdit { history, edit })
}

/// The new lines, or why a line isn't exchanged, which is told behind the faults of all files. Where the folder's file
/// was changed, it has them.
fn new_lines(
    alloc: Global,
    files: &SavedFiles,
    session: &Session,
    lines: &LinesRead<'_>,
) -> Result<Result<ReqFile, Refusal>, Fault>
    ensures { IfOk result
        (λ answer. IfOk answer (AreMadeOf lines.now files.now session.now)) }
{
    match lines {
        LinesRead::New(bytes) => {
            let lines = lines_in(alloc, InputFile::NewRequirements, bytes.as_slice())?;
            Ok(Ok(lines))
        }
        LinesRead::Old(_) => {
            let lines = lines_in(alloc, InputFile::Requirements, files.requirements())?;
            Ok(Ok(lines))
        }
        LinesRead::Line(name, text) => {
            let name = Text::copy_of(alloc, name)?;
            let text = Text::copy_of(alloc, text)?;
            Ok(with_line_exchanged(alloc, session.state().lines(), &name, &text))
        }
    }
}

/// The lines that the bytes of a file are.
fn lines_in(alloc: Global, file: InputFile, bytes: &[u8]) -> Result<ReqFile, Fault>
    ensures { IfOk result (λ lines. requirements_in bytes.now ≡ Ok lines) }
{
    let read = read_requirements(alloc, bytes);
    in_file(file, read)
}

/// What the files pin for the targets of a history.
fn pins_for_targets(
    alloc: Global,
    targets: &[Target],
    read: Vec<NamedBytes<Text>>,
) -> Result<Seq<TargetPins>, Fault>
    ensures { IfOk result
        (λ pins. ArePinsOf read.items (map without_lock targets.now) pins) }
{
    let given = lent_targets(alloc, targets)?;
    pins_of(alloc, read, given.as_slice())
}

/// The names and environments of targets.
fn lent_targets(alloc: Global, targets: &[Target]) -> Result<Vec<LentTarget<'_>>, AllocError>
    ensures { IfOk result (λ given. map given_by given.items ≡ map without_lock targets.now) }
{
    let mut given = Vec::with_capacity(alloc, targets.len())?;
    for target in targets {
        given.push(LentTarget {
            name: &target.name,
            environment: &target.environment,
        })?;
    }
    Ok(given)
}
