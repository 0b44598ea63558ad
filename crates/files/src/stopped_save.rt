// A save that was stopped between two files, and what is left of it beside the places of the others.

ghost use Rattle.std.specs.Bool.{OnFalse, OnTrue};
ghost use Rattle.std.specs.Prelude.{◌≡◌, ◌⊎◌, IfErr, IfNone, IfOk, IfSome, IsSomeAnd, OnOk};
ghost use Rattle.folder.specs.Calls.{IsSettled, Ran, Stays};
ghost use Rattle.folder.specs.Repairs.{AreBeside, IsMoveOf};
ghost use Rattle.inputs.specs.declared.fault.Fault.TheVariants.{OutOfMemory};
ghost use Rattle.journal.specs.Past.{IsAtEnd, IsAtStart, IsRedone, IsUndone, present};
ghost use Rattle.files.specs.Beside.{FilesStandBeside, StandFor, completed_by, has, has_lines, has_requirements};
ghost use Rattle.files.specs.Completed.{GivesWay, IsBeyondRepair, IsUnless, IsWayBack, IsWayOf, LacksRequirements, Stands, StaysCompletable};
ghost use Rattle.files.specs.NextLocks.{IsFaultOf, IsNext, NoneTakesMore};
ghost use Rattle.files.specs.Places.{StandAt, bytes_read};
ghost use Rattle.files.specs.Repair.{IsRemoved};

use crate::beside::{Beside, add_lock};
use crate::going_locks::going_where;
use crate::history_folder::HistoryFolder;
use crate::reading::{count_named, file_at_fault, journal_in, names_in};
use crate::rewrite::names_of_all;
use crate::saved_files::SavedFiles;
use folder::{Left, clear_names, end_save};
use inputs::{Fault, InputFile};
use journal::{Command, Journal, Reply, Session};
use lists::{Seq, Text};
use resolve::RESOLVER;
use std::alloc::{AllocError, Global};

// Whether the requirements file and whether the journal is taken from beside its place, in the order in
// which this is tried: the journal comes last in a save, and is the one that is mostly left.
const LEFT_BESIDE: [(bool, bool); 4] = [(false, true), (false, false), (true, true), (true, false)];

/// Ends a save that was stopped, where the files, which stand for no history in their places, open with those in place
/// that it left beside. It answers whether there was one.
pub fn end_stopped<F: HistoryFolder>(folder: &mut F) -> Result<bool, Fault>
    ensures moved { Ran F.held F.may_leave F.moment F.left_since F.faults IsMoveOf IsMoveOf
        folder.old folder.new }
    ensures settled { OnOk result (IsSettled F.held F.may_leave folder.old
        → IsSettled F.held F.may_leave folder.new) }
    ensures ended { IfOk result (λ ended. OnTrue ended (IfSome (F.held folder.new) Stands)) }
    ensures none { IfOk result (λ ended. OnFalse ended
        (IsUnless (F.may_fail folder.old) (F.held folder.old) IsBeyondRepair)) }
    ensures kept { IsSettled F.held F.may_leave folder.old
        → Ran F.held F.may_leave F.moment F.left_since F.faults StaysCompletable StaysCompletable
        folder.old folder.new }
{
    let Some(left) = left_in(&mut *folder)? else {
        return Ok(false);
    };
    match end_save(&mut *folder, &left) {
        Ok(()) => Ok(true),
        Err(fault) => Err(folder.unsaved(fault)),
    }
}

/// What a save that was stopped has left to do in a folder.
fn left_in<F: HistoryFolder>(folder: &mut F) -> Result<Option<Left>, Fault>
    ensures still { Stays F.held F.may_leave F.moment F.left_since F.faults
        folder.old folder.new }
    ensures beside { IfOk result (λ answer. IfSome answer
        (λ l. IfSome (F.held folder.old) (AreBeside l.names))) }
    ensures way { IfOk result (λ answer. IfSome answer
        (λ l. IfSome (F.held folder.old) (IsWayBack l))) }
    ensures none { IfOk result (λ answer. IfNone answer
        (IsUnless (F.may_fail folder.old) (F.held folder.old) IsBeyondRepair)) }
{
    let Some(found) = found_in(&*folder)? else {
        return Ok(None);
    };
    let Found { beside, going } = found;
    let names = Seq::from_vec(folder.add_beside(beside)?);
    let going_names = Seq::from_vec(names_of_all(folder.alloc(), going.as_slice())?);
    folder.add(going)?;
    Ok(Some(Left {
        going: going_names,
        names,
    }))
}

/// The files that a save left to be renamed, and the locks that are to go before.
#[derive(Drop)]
struct Found {
    beside: Vec<InputFile>,
    going: Vec<InputFile>,
}

/// What a save that was stopped has left, by the first way in which the files open.
fn found_in<F: HistoryFolder>(folder: &F) -> Result<Option<Found>, Fault>
    ensures beside { IfOk result (λ answer. IfSome answer
        (λ found. IfSome (F.held folder.now) (FilesStandBeside found.beside.items))) }
    ensures way { IfOk result (λ answer. IfSome answer
        (λ found. IfSome (F.held folder.now) (IsWayOf found.going.items found.beside.items))) }
    ensures none { IfOk result (λ answer. IfNone answer
        (IsUnless (F.may_fail folder.now) (F.held folder.now) IsBeyondRepair)) }
    ensures fault { IfErr result (λ fault. (fault ≡ OutOfMemory)
        ⊎ IsUnless (F.may_fail folder.now) (F.held folder.now) IsBeyondRepair) }
{
    for (requirements, journal) in LEFT_BESIDE {
        let beside = Beside::of(folder.alloc(), requirements, journal);
        if let Some(found) = left_with(folder, beside)? {
            return Ok(Some(found));
        }
    }
    Ok(None)
}

/// Ends a save that was stopped, for a call that doesn't open the files. What opens as it stands stays,
/// and so does what nothing makes whole. It answers which files can be left beside their places: of the locks, those
/// that the journal names, in its place and beside it.
pub fn end_left<F: HistoryFolder>(folder: &mut F) -> Result<Beside, Fault>
    ensures moved { Ran F.held F.may_leave F.moment F.left_since F.faults IsMoveOf IsMoveOf
        folder.old folder.new }
    ensures settled { OnOk result (IsSettled F.held F.may_leave folder.old
        → IsSettled F.held F.may_leave folder.new) }
{
    let named = named_files(&*folder)?;
    if is_any_left(&*folder, &named)? && does_not_open(&*folder)? {
        end_stopped(folder)?;
    }
    Ok(named)
}

/// Removes what a save that was stopped has left beside the places of the files of this history. The journal in its
/// place is the history's: it names the history's targets, and isn't read for them again.
pub fn remove_left_of_opened<F: HistoryFolder>(
    folder: &mut F,
    session: &Session,
) -> Result<(), Fault>
    ensures { Ran F.held F.may_leave F.moment F.left_since F.faults IsRemoved IsRemoved
        folder.old folder.new }
{
    let mut left = Beside::of(folder.alloc(), true, true);
    add_named(&*folder, &mut left, true)?;
    remove_left(folder, left, session)
}

/// Removes these files, and the locks of this history's targets, from beside their places.
pub fn remove_left<F: HistoryFolder>(
    folder: &mut F,
    left: Beside,
    session: &Session,
) -> Result<(), Fault>
    ensures { Ran F.held F.may_leave F.moment F.left_since F.faults IsRemoved IsRemoved
        folder.old folder.new }
{
    let files = files_left(folder.alloc(), left, session)?;
    let names = folder.add_beside(files)?;
    clear_names(folder, names.as_slice());
    Ok(())
}

/// These files, and the locks of this history's targets.
fn files_left(
    alloc: Global,
    mut left: Beside,
    session: &Session,
) -> Result<Vec<InputFile>, AllocError> {
    for target in session.state().targets() {
        left.locks.insert(target.name.clone()?)?;
    }
    left.files(alloc)
}

/// Whether a save that was stopped has left a file beside its place.
pub(crate) fn is_left<F: HistoryFolder>(folder: &F) -> Result<bool, Fault> {
    let named = named_files(folder)?;
    is_any_left(folder, &named)
}

/// Whether one of these files stands beside its place.
fn is_any_left<F: HistoryFolder>(folder: &F, named: &Beside) -> Result<bool, Fault> {
    for file in named.files(folder.alloc())? {
        if folder.stands(&file, true)? {
            return Ok(true);
        }
    }
    Ok(false)
}

/// All files that can be left beside: of the locks, those that the journal names, in its place and
/// beside it.
fn named_files<F: HistoryFolder>(folder: &F) -> Result<Beside, Fault> {
    let mut all = Beside::of(folder.alloc(), true, true);
    for is_beside in [false, true] {
        add_named(folder, &mut all, is_beside)?;
    }
    Ok(all)
}

/// Adds the locks that a journal names. One that can't be read names none.
fn add_named<F: HistoryFolder>(folder: &F, all: &mut Beside, is_beside: bool) -> Result<(), Fault> {
    match journal_in(folder, &Beside::of(folder.alloc(), false, is_beside)) {
        Ok(journal) => add_names(folder.alloc(), all, &journal),
        Err(Fault::Input(_file, _fault)) => Ok(()),
        Err(fault) => Err(fault),
    }
}

fn add_names(alloc: Global, beside: &mut Beside, journal: &Journal) -> Result<(), Fault> {
    for name in names_in(alloc, journal)?.into_vec() {
        beside.locks.insert(name)?;
    }
    Ok(())
}

/// The files that a save left to be renamed, and the locks that are to go before, where the files open with these from
/// beside and with each lock that doesn't fit in its place. A requirements file gives way only where its history has it:
/// one that was changed by hand stays.
fn left_with<F: HistoryFolder>(folder: &F, beside: Beside) -> Result<Option<Found>, Fault>
    ensures beside { IfOk result (λ answer. IfSome answer
        (λ found. IfSome (F.held folder.now) (FilesStandBeside found.beside.items))) }
    ensures way { IfOk result (λ answer. IfSome answer
        (λ found. IfSome (F.held folder.now) (IsWayOf found.going.items found.beside.items))) }
    ensures none { IfOk result (λ answer. IfNone answer
        (IsUnless (F.may_fail folder.now) (F.held folder.now) (NoneTakesMore beside))) }
    ensures fault { IfErr result (λ fault. (fault ≡ OutOfMemory)
        ⊎ IsUnless (F.may_fail folder.now) (F.held folder.now) LacksRequirements) }
{
    let Some((beside, files, session)) = completed(folder, beside)? else {
        return Ok(None);
    };
    let going = going_where(folder, &session, beside.journal)?;
    if !gives_way(folder, session, beside.requirements)? {
        return Ok(None);
    }
    let beside = files.taken_from(folder.alloc(), &beside)?;
    Ok(Some(Found { beside, going }))
}

/// Whether the requirements file in its place may give way to one from beside it, where that is to be.
fn gives_way<F: HistoryFolder>(folder: &F, session: Session, is_beside: bool) -> Result<bool, Fault>
    ensures gives { IfOk result (λ gives. OnTrue gives
        (IfSome (F.held folder.now) (GivesWay is_beside session))) }
    ensures stays { IfOk result (λ gives. OnFalse gives
        (IfSome (F.held folder.now) (λ h. GivesWay is_beside session h → ⊥))) }
    ensures fault { IfErr result (λ fault. (fault ≡ OutOfMemory)
        ⊎ IsUnless (F.may_fail folder.now) (F.held folder.now) LacksRequirements) }
{
    if !is_beside {
        return Ok(true);
    }
    let standing = folder.read(InputFile::Requirements, false)?;
    has_requirements(folder.alloc(), session, standing.as_slice())
}

/// The files with which the folder opens, and what it stands for with them. A lock that is told not to
/// fit is taken from beside, each of those that the journal names once.
fn completed<F: HistoryFolder>(
    folder: &F,
    mut beside: Beside,
) -> Result<Option<(Beside, SavedFiles, Session)>, Fault>
    ensures stand { IfOk result (λ answer. IfSome answer (λ found. IfSome (F.held folder.now)
        (λ h. StandAt (has found.0) h (bytes_read found.1)))) }
    ensures opens { IfOk result (λ answer. IfSome answer (λ found. StandFor found.1 found.2)) }
    ensures same { IfOk result (λ answer. IfSome answer
        (λ found. (found.0.requirements ≡ beside.requirements) × (found.0.journal ≡ beside.journal))) }
    ensures none { IfOk result (λ answer. IfNone answer
        (IsUnless (F.may_fail folder.now) (F.held folder.now) (NoneTakesMore beside))) }
    ensures memory { IfErr result (λ fault. fault ≡ OutOfMemory) }
{
    let count = count_named(folder, &beside)?;
    for _tried in 0..count {
        match open_with(folder, &beside) {
            Ok((files, session)) => return Ok(Some((beside, files, session))),
            Err(fault) => {
                if !add_lock(&mut beside, file_at_fault(fault)?)? {
                    return Ok(None);
                }
            }
        }
    }
    let opened = open_with(folder, &beside);
    completed_by(beside, opened)
}

/// These files, where the folder opens with them.
fn completed_by(
    beside: Beside,
    opened: Result<(SavedFiles, Session), Fault>,
) -> Result<Option<(Beside, SavedFiles, Session)>, Fault>
    ensures { result ≡ completed_by beside opened }
{
    match opened {
        Ok((files, session)) => Ok(Some((beside, files, session))),
        Err(Fault::Input(_file, _fault)) => Ok(None),
        Err(fault) => Err(fault),
    }
}

/// Whether the files stand for no history in their places.
fn does_not_open<F: HistoryFolder>(folder: &F) -> Result<bool, Fault> {
    match open_with(folder, &Beside::none(folder.alloc())) {
        Ok(_) => Ok(false),
        Err(Fault::Input(_, _)) => Ok(true),
        Err(fault) => Err(fault),
    }
}

fn open_with<F: HistoryFolder>(folder: &F, beside: &Beside) -> Result<(SavedFiles, Session), Fault>
    ensures stand { IfOk result (λ opened. IfSome (F.held folder.now)
        (λ h. StandAt (has beside.now) h (bytes_read opened.0))) }
    ensures opens { IfOk result (λ opened. StandFor opened.0 opened.1) }
    ensures fault { IfErr result
        (IsFaultOf (F.may_fail folder.now) (F.held folder.now) (IsNext beside.now)) }
{
    let files = SavedFiles::read_with(folder, beside)?;
    let session = files.open(folder.alloc())?;
    Ok((files, session))
}

/// Whether a state of the history has this requirements file.
fn has_requirements(alloc: Global, mut session: Session, requirements: &[u8]) -> Result<bool, Fault>
    ensures has { IfOk result
        (λ has. has ≡ has_requirements session.past.states requirements.now) }
    ensures memory { IfErr result (λ fault. fault ≡ OutOfMemory) }
{
    go_to_end(alloc, &mut session)?;
    'undone: while session.cursor() > 0 {
        if is_present(alloc, &session, requirements)? {
            return Ok(true);
        }
        undo(alloc, &mut session)?;
    }
    is_present(alloc, &session, requirements)
}

fn go_to_end(alloc: Global, session: &mut Session) -> Result<(), Fault>
    ensures states { OnOk result (session.new.past.states ≡ session.old.past.states) }
    ensures end { OnOk result (IsAtEnd session.new.past) }
    ensures memory { IfErr result (λ fault. fault ≡ OutOfMemory) }
{
    'redone: while session.cursor() < session.steps() {
        redo(alloc, session)?;
    }
    Ok(())
}

fn undo(alloc: Global, session: &mut Session) -> Result<(), Fault>
    ensures undone { OnOk result (IsUndone session.old.past session.new.past) }
    ensures memory { IfErr result (λ fault. ¬ (IsAtStart session.old.past) → fault ≡ OutOfMemory) }
{
    match session.apply(alloc, &Command::Undo, &RESOLVER) {
        Reply::Refused(refusal) => Err(Fault::from(refusal)),
        Reply::Done(_) => Ok(()),
        Reply::Same => Ok(()),
    }
}

fn redo(alloc: Global, session: &mut Session) -> Result<(), Fault>
    ensures redone { OnOk result (IsRedone session.old.past session.new.past) }
    ensures memory { IfErr result (λ fault. ¬ (IsAtEnd session.old.past) → fault ≡ OutOfMemory) }
{
    match session.apply(alloc, &Command::Redo, &RESOLVER) {
        Reply::Refused(refusal) => Err(Fault::from(refusal)),
        Reply::Done(_) => Ok(()),
        Reply::Same => Ok(()),
    }
}

/// Whether the present state has this requirements file.
fn is_present(alloc: Global, session: &Session, requirements: &[u8]) -> Result<bool, Fault>
    ensures has { IfOk result (λ is. IsSomeAnd (present session.now.past)
        (λ state. is ≡ has_lines requirements.now state)) }
    ensures memory { IfErr result (λ fault. fault ≡ OutOfMemory) }
{
    let text = session.state().lines().bytes(alloc)?;
    Ok(text.as_str().as_bytes() == requirements)
}
