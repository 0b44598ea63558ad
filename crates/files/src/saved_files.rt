// The files of the folder: the requirements file, the lock of each target, and the journal.

ghost use Rattle.std.specs.BTreeMap.{IsOrdered};
ghost use Rattle.std.specs.Bool.{⊤};
ghost use Rattle.std.specs.Cmp.Lexicographic.{slice_cmp};
ghost use Rattle.std.specs.Option.{option_map_or};
ghost use Rattle.std.specs.Ordering.{nat_cmp};
ghost use Rattle.std.specs.Prelude.{◌≡◌, ◌++◌, IfErr, IfOk, IfSome, IsSome, OnOk, Ok, Err, None, Some, string_bytes};
ghost use Rattle.folder.specs.Calls.{IsSettled, Ran};
ghost use Rattle.journal.specs.Opens.{Opens, ToldBy};
ghost use Rattle.files.specs.Beside.{StandFor, has, taken_from};
ghost use Rattle.files.specs.Completed.{StaysCompletable};
ghost use Rattle.files.specs.NextLocks.{IsFaultOf, IsLacking};
ghost use Rattle.files.specs.Places.{AllAre, AreInPlace, AreKnown, AreNamed, AreUnread, IsUnsaved, NoFilesStand, StandAt, bytes_read};
ghost use Rattle.files.specs.Repair.{IsRepairOf, NoneStands};
ghost use Rattle.files.specs.Saving.{IsBeingSavedOver, IsSavedOver};
ghost use Rattle.inputs.specs.Faults.{TellsFault};
ghost use Rattle.files.specs.NamedRewrites.{AreNamedApart};
ghost use Rattle.files.specs.Rewrites.{going_of, has_lock, is_known, is_left, lock_rewrites, rewrites_of, rewriting};

use crate::beside::{Beside, push_where};
use crate::history_folder::HistoryFolder;
use crate::reading::{journal_in, locks_in, names_in, read_in};
use crate::rewrite::{Rewrite, rewrite_all};
use crate::stopped_save::{end_stopped, remove_left_of_opened};
use edits::TargetName;
use inputs::{Fault, InputFile};
use journal::{Journal, Saved, Session, Told};
use lists::{Seq, Text};
use std::alloc::{AllocError, Global};
use std::collections::BTreeMap;

/// What the files held when they were read.
#[derive(Drop)]
pub struct SavedFiles {
    requirements: Vec<u8>,
    locks: BTreeMap<TargetName, Seq<u8>>,
    journal: Journal,
}

impl SavedFiles {
    /// Reads the files of a folder: the requirements file first, then the journal, and the locks last,
    /// in the order of the names that the journal has.
    pub fn read<F: HistoryFolder>(folder: &F) -> Result<SavedFiles, Fault>
        ensures places { IfOk result (λ files. IfSome (F.held folder.now)
            (λ h. AreInPlace h (bytes_read files))) }
        ensures named { IfOk result AreNamed }
        ensures unread { IfErr result
            (AreUnread (F.held folder.now) (F.may_fail folder.now) NoneStands) }
    {
        SavedFiles::read_with(folder, &Beside::none(folder.alloc()))
    }

    /// Reads the files to save others in their place. Where one can't be read, a save may have been
    /// stopped: then that is ended first.
    pub fn read_to_save<F: HistoryFolder>(folder: &mut F) -> Result<SavedFiles, Fault>
        requires { IsSettled F.held F.may_leave folder.old }
        ensures places { IfOk result (λ files. AllAre (F.held folder.new) (F.may_leave folder.new)
            (λ h. AreInPlace h (bytes_read files))) }
        ensures named { IfOk result AreNamed }
        ensures settled { OnOk result (IsSettled F.held F.may_leave folder.new) }
        ensures repaired { Ran F.held F.may_leave F.moment F.left_since F.faults
            (IsRepairOf (F.may_fail folder.old)) (IsRepairOf (F.may_fail folder.old))
            folder.old folder.new }
        ensures kept { Ran F.held F.may_leave F.moment F.left_since F.faults
            StaysCompletable StaysCompletable folder.old folder.new }
    {
        match SavedFiles::read(&*folder) {
            Err(Fault::Input(file, fault)) => {
                if end_stopped(&mut *folder)? {
                    SavedFiles::read(&*folder)
                } else {
                    Err(Fault::Input(file, fault))
                }
            }
            read => read,
        }
    }

    /// Reads the requirements file alone. The journal counts as empty, and no lock as there, so that
    /// all of them are written.
    pub fn requirements_alone<F: HistoryFolder>(folder: &F) -> Result<SavedFiles, Fault>
        ensures known { IfOk result (λ files. IfSome (F.held folder.now)
            (λ h. AreKnown h (bytes_read files))) }
    {
        let alloc = folder.alloc();
        let requirements = folder.read(InputFile::Requirements, false)?;
        Ok(SavedFiles {
            requirements,
            locks: BTreeMap::new(alloc),
            journal: Journal::read(alloc, Seq::new(alloc))?,
        })
    }

    /// Reads the files, and of these the one that stands beside its place.
    pub fn read_with<F: HistoryFolder>(folder: &F, beside: &Beside) -> Result<SavedFiles, Fault>
        ensures stand { IfOk result (λ files. IfSome (F.held folder.now)
            (λ h. StandAt (has beside.now) h (bytes_read files))) }
        ensures named { IfOk result AreNamed }
        ensures unread { IfErr result (AreUnread (F.held folder.now) (F.may_fail folder.now)
            (NoFilesStand (has beside.now))) }
        ensures fault { IfErr result (IsFaultOf (F.may_fail folder.now) (F.held folder.now)
            (IsLacking (has beside.now))) }
    {
        let requirements = read_in(folder, InputFile::Requirements, beside)?;
        let journal = journal_in(folder, beside)?;
        let names = names_in(folder.alloc(), &journal)?;
        let locks = locks_in(folder, names, beside)?;
        Ok(SavedFiles {
            requirements,
            locks,
            journal,
        })
    }

    /// The bytes of the requirements file.
    pub fn requirements(&self) -> &[u8]
        ensures { result.now ≡ self.now.requirements.items }
    {
        self.requirements.as_slice()
    }

    /// The history that the files stand for.
    pub fn open(&self, alloc: Global) -> Result<Session, Fault>
        ensures { TellsFault (Opens self.now.requirements.items self.now.locks.entries
            self.now.journal) result }
    {
        self.open_with(alloc, self.requirements.as_slice())
    }

    /// The same, with this text in the place of the requirements file where one is given.
    fn open_over(&self, alloc: Global, requirements: Option<&[u8]>) -> Result<Session, Fault>
        ensures { TellsFault (Opens
            (option_map_or (λ text. text.now) requirements.entry self.now.requirements.items)
            self.now.locks.entries self.now.journal) result }
    {
        match requirements {
            Some(text) => self.open_with(alloc, text),
            None => self.open(alloc),
        }
    }

    /// The history that the files stand for with this text in the place of the requirements file.
    pub fn open_with(&self, alloc: Global, requirements: &[u8]) -> Result<Session, Fault>
        ensures { TellsFault (Opens requirements.now self.now.locks.entries self.now.journal)
            result }
    {
        Ok(Session::open(alloc, requirements, &self.locks, &self.journal)?)
    }

    /// What the locks and the journal tell, whatever the requirements file holds.
    pub fn told(&self, alloc: Global) -> Result<Told, Fault>
        ensures { TellsFault (ToldBy self.now.locks.entries self.now.journal) result }
    {
        Ok(Told::read(alloc, &self.locks, &self.journal)?)
    }

    /// The files, with the history that they stand for, to save another in their place. Where they
    /// stand for none, a save may have been stopped: then that is ended first. Nothing of one is left.
    pub fn open_to_save<F: HistoryFolder>(
        self,
        folder: &mut F,
    ) -> Result<(SavedFiles, Session), Fault>
        requires settled { IsSettled F.held F.may_leave folder.old }
        requires places { AllAre (F.held folder.old) (F.may_leave folder.old)
            (λ h. AreInPlace h (bytes_read self)) }
        requires named { AreNamed self }
        ensures stand { IfOk result (λ opened. StandFor opened.0 opened.1) }
        ensures places { IfOk result (λ opened. AllAre (F.held folder.new)
            (F.may_leave folder.new) (λ h. AreInPlace h (bytes_read opened.0))) }
        ensures repaired { Ran F.held F.may_leave F.moment F.left_since F.faults
            (IsRepairOf ⊥) (IsRepairOf ⊥) folder.old folder.new }
        ensures kept { Ran F.held F.may_leave F.moment F.left_since F.faults
            StaysCompletable StaysCompletable folder.old folder.new }
    {
        self.open_over_to_save(folder, None)
    }

    /// The same where somebody else changed the requirements file, with the old text in its place.
    pub fn open_hand_changed<F: HistoryFolder>(
        self,
        folder: &mut F,
        old: &[u8],
    ) -> Result<(SavedFiles, Session), Fault>
        requires settled { IsSettled F.held F.may_leave folder.old }
        requires places { AllAre (F.held folder.old) (F.may_leave folder.old)
            (λ h. AreInPlace h (bytes_read self)) }
        requires named { AreNamed self }
        ensures opens { IfOk result (λ opened. Opens old.now opened.0.locks.entries
            opened.0.journal (Ok opened.1)) }
        ensures places { IfOk result (λ opened. AllAre (F.held folder.new)
            (F.may_leave folder.new) (λ h. AreInPlace h (bytes_read opened.0))) }
        ensures repaired { Ran F.held F.may_leave F.moment F.left_since F.faults
            (IsRepairOf ⊤) (IsRepairOf ⊤) folder.old folder.new }
    {
        self.open_over_to_save(folder, Some(old))
    }

    /// The same, with this text in the place of the requirements file where one is given.
    fn open_over_to_save<F: HistoryFolder>(
        self,
        folder: &mut F,
        requirements: Option<&[u8]>,
    ) -> Result<(SavedFiles, Session), Fault>
        requires settled { IsSettled F.held F.may_leave folder.old }
        requires places { AllAre (F.held folder.old) (F.may_leave folder.old)
            (λ h. AreInPlace h (bytes_read self)) }
        requires named { AreNamed self }
        ensures opens { IfOk result (λ opened. Opens
            (option_map_or (λ text. text.now) requirements.entry opened.0.requirements.items)
            opened.0.locks.entries opened.0.journal (Ok opened.1)) }
        ensures places { IfOk result (λ opened. AllAre (F.held folder.new)
            (F.may_leave folder.new) (λ h. AreInPlace h (bytes_read opened.0))) }
        ensures repaired { Ran F.held F.may_leave F.moment F.left_since F.faults
            (IsRepairOf (IsSome requirements.entry)) (IsRepairOf (IsSome requirements.entry)) folder.old folder.new }
        ensures kept { requirements.entry ≡ None → Ran F.held F.may_leave F.moment F.left_since F.faults
            StaysCompletable StaysCompletable folder.old folder.new }
    {
        match self.open_over(folder.alloc(), requirements) {
            Ok(session) => {
                remove_left_of_opened(folder, &session)?;
                Ok((self, session))
            }
            Err(Fault::Input(file, fault)) => {
                if !end_stopped(&mut *folder)? {
                    return Err(Fault::Input(file, fault));
                }
                let files = SavedFiles::read(&*folder)?;
                let session = files.open_over(folder.alloc(), requirements)?;
                remove_left_of_opened(folder, &session)?;
                Ok((files, session))
            }
            Err(fault) => Err(fault),
        }
    }

    /// Those of these files that were taken from beside their places, in the order in which a save renames them.
    pub(crate) fn taken_from(
        &self,
        alloc: Global,
        beside: &Beside,
    ) -> Result<Vec<InputFile>, AllocError>
        ensures taken { IfOk result (λ files. files.items ≡ taken_from beside.now self.now) }
        ensures rising { IfOk result (λ files. IsOrdered (slice_cmp nat_cmp) self.now.locks) }
    {
        let mut files = Vec::new(alloc);
        push_where(&mut files, beside.requirements, InputFile::Requirements)?;
        for (name, _lock) in &self.locks {
            push_where(
                &mut files,
                beside.locks.contains(name),
                InputFile::Lock(name.clone()?),
            )?;
        }
        push_where(&mut files, beside.journal, InputFile::Journal)?;
        Ok(files)
    }

    /// Saves a history in the place of these files. A file that doesn't change isn't touched, and the lock of a
    /// target that the history hasn't any more is removed.
    pub fn rewrite<F: HistoryFolder>(&self, folder: &mut F, session: &Session) -> Result<(), Fault>
        requires { AllAre (F.held folder.old) (F.may_leave folder.old)
            (λ h. AreKnown h (bytes_read self.now)) }
        ensures saved { OnOk result (Ran F.held F.may_leave F.moment F.left_since F.faults
            (IsSavedOver self.now session.now) (IsBeingSavedOver self.now session.now)
            folder.old folder.new) }
        ensures any_moment { Ran F.held F.may_leave F.moment F.left_since F.faults
            (IsBeingSavedOver self.now session.now) (IsBeingSavedOver self.now session.now)
            folder.old folder.new }
        ensures fault { IfErr result IsUnsaved }
    {
        let alloc = folder.alloc();
        let saved = session.save(alloc)?;
        let rewrites = self.rewrites(alloc, &saved)?;
        let going = self.going(alloc, &saved)?;
        rewrite_all(folder, rewrites.as_slice(), going)
    }

    /// The locks that were read, of targets that the saved history hasn't.
    pub fn going(&self, alloc: Global, saved: &Saved) -> Result<Vec<InputFile>, AllocError>
        ensures { IfOk result (λ files. files.items ≡ going_of self.now saved.now) }
    {
        let mut files = Vec::new(alloc);
        for (name, _lock) in &self.locks {
            if !saved.locks.contains_key(name) {
                files.push(InputFile::Lock(name.clone()?))?;
            }
        }
        Ok(files)
    }

    /// The files that are to hold other bytes than were read, with these: the requirements file, the locks by
    /// name, and the journal. The locks of targets that come stand behind the journal, which names them.
    pub fn rewrites<'a>(
        &self,
        alloc: Global,
        saved: &'a Saved,
    ) -> Result<Vec<Rewrite<'a>>, AllocError>
        ensures rewrites { IfOk result (λ files. files.items ≡ rewrites_of self.now saved.now) }
        ensures apart { IfOk result (λ files. AreNamedApart files.items) }
        ensures rising { IfOk result (λ files. IsOrdered (slice_cmp nat_cmp) saved.now.locks) }
    {
        let mut files = Vec::new(alloc);
        let text = saved.requirements.as_str();
        let is_same = self.requirements.as_slice() == text.as_bytes();
        push_unless(&mut files, is_same, InputFile::Requirements, text)?;
        self.push_locks(&mut files, &saved.locks, true)?;
        let text = saved.journal.as_str();
        let is_same = self.journal.bytes() == text.as_bytes();
        push_unless(&mut files, is_same, InputFile::Journal, text)?;
        self.push_locks(&mut files, &saved.locks, false)?;
        Ok(files)
    }

    /// Puts the locks that are to hold other bytes behind other files: of known targets, or of the others. The locks are of
    /// different targets.
    fn push_locks<'a>(
        &self,
        files: &mut Vec<Rewrite<'a>>,
        locks: &'a BTreeMap<TargetName, Text>,
        are_known: bool,
    ) -> Result<(), AllocError>
        ensures rewrites { OnOk result (files.new.items ≡ files.old.items
            ++ lock_rewrites self.now are_known locks.now.entries) }
        ensures rising { OnOk result (IsOrdered (slice_cmp nat_cmp) locks.now) }
    {
        for (name, lock) in locks {
            let text = lock.as_str();
            let is_left = self.is_left(name, text.as_bytes(), are_known);
            push_unless(files, is_left, InputFile::Lock(name.clone()?), text)?;
        }
        Ok(())
    }

    /// Whether the lock of the target isn't among those that are to hold other bytes.
    fn is_left(&self, name: &TargetName, bytes: &[u8], are_known: bool) -> bool
        ensures { result ≡ is_left self.now are_known name.now bytes.now }
    {
        if are_known {
            self.has_lock(name, bytes) || !self.is_known(name)
        } else {
            self.is_known(name)
        }
    }

    /// Whether the lock of the target was read, or none was.
    fn is_known(&self, name: &TargetName) -> bool
        ensures { result ≡ is_known self.now name.now }
    {
        self.locks.is_empty() || self.locks.contains_key(name)
    }

    /// Whether the lock of the target was read, and holds these bytes.
    fn has_lock(&self, name: &TargetName, bytes: &[u8]) -> bool
        ensures { result ≡ has_lock self.now name.now bytes.now }
    {
        match self.locks.get(name) {
            Some(lock) => lock.as_slice() == bytes,
            None => false,
        }
    }
}

/// Puts a file with the bytes that are to stand in its place behind others, unless it holds them.
fn push_unless<'a>(
    files: &mut Vec<Rewrite<'a>>,
    is_same: bool,
    file: InputFile,
    text: &'a str,
) -> Result<(), AllocError>
    ensures { OnOk result
        (files.new.items ≡ files.old.items ++ rewriting is_same file text.now) }
{
    if is_same {
        return Ok(());
    }
    let bytes = text.as_bytes();
    files.push(Rewrite { file, bytes })?;
    Ok(())
}
