// How the files of a folder are read, in their places or beside them.

ghost use Rattle.std.specs.Prelude.{◌≡◌, IfErr, IfOk, IfSome, Some};
ghost use Rattle.files.specs.Beside.{has};
ghost use Rattle.files.specs.Completed.{IsUnless};
ghost use Rattle.files.specs.JournalLocks.{HaveNames, Names};
ghost use Rattle.files.specs.NextLocks.{IsCounted, IsFaultOf, LacksLockOf, file_at_fault};
ghost use Rattle.files.specs.Places.{AreUnread, IsUnread, LacksLock, LocksStandAt, standing};
ghost use Rattle.inputs.specs.declared.fault.Fault.TheVariants.{OutOfMemory};
ghost use Rattle.inputs.specs.declared.input_files.InputFile.TheVariants as input_files;

use crate::beside::Beside;
use crate::history_folder::HistoryFolder;
use edits::{Refusal, TargetName};
use inputs::{Fault, InputFile};
use journal::Journal;
use lists::Seq;
use std::alloc::Global;
use std::collections::BTreeMap;

/// The names of the targets that a journal has. A broken one has none: what is broken is told where it
/// is opened.
pub fn names_in(alloc: Global, journal: &Journal) -> Result<Seq<TargetName>, Fault>
    ensures names { IfOk result (λ names. Names journal.now names) }
    ensures memory { IfErr result (λ fault. fault ≡ OutOfMemory) }
{
    match journal.targets(alloc) {
        Ok(names) => Ok(names),
        Err(Refusal::JournalBroken(_)) => Ok(Seq::new(alloc)),
        Err(refusal) => Err(Fault::from(refusal)),
    }
}

/// How many locks the journal names; none where it can't be read.
pub(crate) fn count_named<F: HistoryFolder>(folder: &F, beside: &Beside) -> Result<usize, Fault>
    ensures counted { IfOk result (λ count. IsUnless (F.may_fail folder.now) (F.held folder.now)
        (IsCounted beside.now count)) }
    ensures memory { IfErr result (λ fault. fault ≡ OutOfMemory) }
{
    match journal_in(folder, beside) {
        Ok(journal) => Ok(names_in(folder.alloc(), &journal)?.len()),
        Err(fault) => {
            file_at_fault(fault)?;
            Ok(0)
        }
    }
}

/// The locks of targets, in their places or, where they are among these, beside them.
pub fn locks_in<F: HistoryFolder>(
    folder: &F,
    names: Seq<TargetName>,
    beside: &Beside,
) -> Result<BTreeMap<TargetName, Seq<u8>>, Fault>
    ensures stand { IfOk result (λ locks. IfSome (F.held folder.now)
        (λ h. LocksStandAt (has beside.now) h locks.entries)) }
    ensures named { IfOk result (λ locks. HaveNames locks.entries names) }
    ensures unread { IfErr result (AreUnread (F.held folder.now) (F.may_fail folder.now)
        (LacksLock (has beside.now) names)) }
    ensures fault { IfErr result (IsFaultOf (F.may_fail folder.now) (F.held folder.now)
        (LacksLockOf (has beside.now) names)) }
{
    let mut locks = BTreeMap::new(folder.alloc());
    for name in names.into_vec() {
        let lock = read_in(folder, InputFile::Lock(name.clone()?), beside)?;
        locks.insert(name, Seq::from_vec(lock))?;
    }
    Ok(locks)
}

/// The journal, in its place or, where it is among these, beside it.
pub fn journal_in<F: HistoryFolder>(folder: &F, beside: &Beside) -> Result<Journal, Fault>
    ensures journal { IfOk result (λ journal. IfSome (F.held folder.now)
        (λ h. standing (has beside.now input_files.Journal) h input_files.Journal ≡ Some journal)) }
    ensures fault { IfErr result (IsUnread (F.held folder.now) (F.may_fail folder.now)
        (has beside.now input_files.Journal) input_files.Journal) }
{
    let bytes = read_in(folder, InputFile::Journal, beside)?;
    Ok(Journal::read(folder.alloc(), Seq::from_vec(bytes))?)
}

/// The bytes of a file, in its place or, where it is among these, beside it.
pub fn read_in<F: HistoryFolder>(
    folder: &F,
    file: InputFile,
    beside: &Beside,
) -> Result<Vec<u8>, Fault>
    ensures bytes { IfOk result (λ bytes. IfSome (F.held folder.now)
        (λ h. standing (has beside.now file) h file ≡ Some bytes.items)) }
    ensures fault { IfErr result
        (IsUnread (F.held folder.now) (F.may_fail folder.now) (has beside.now file) file) }
{
    let is_beside = beside.has(&file);
    folder.read(file, is_beside)
}

/// The file that a fault is of. A fault that is of none is answered.
pub(crate) fn file_at_fault(fault: Fault) -> Result<InputFile, Fault>
    ensures { result ≡ file_at_fault fault }
{
    match fault {
        Fault::Input(file, _fault) => Ok(file),
        fault => Err(fault),
    }
}
