// Which files of a history are taken from beside their places.

ghost use Rattle.std.specs.Prelude.{◌≡◌, ◌++◌, [], IfErr, IfOk, OnOk, map};
ghost use Rattle.inputs.specs.declared.fault.Fault.TheVariants.{OutOfMemory};
ghost use Rattle.files.specs.Beside.{files_of, has, one_where};
ghost use Rattle.files.specs.NextLocks.{Takes, is_left_lock};

use edits::TargetName;
use inputs::{Fault, InputFile};
use std::alloc::{AllocError, Global};
use std::collections::BTreeSet;

/// Files that are taken from beside their places.
#[derive(Drop)]
pub struct Beside {
    pub(crate) requirements: bool,
    // the targets whose locks are taken from there
    pub(crate) locks: BTreeSet<TargetName>,
    pub(crate) journal: bool,
}

impl Beside {
    /// No file.
    pub fn none(alloc: Global) -> Beside
        ensures { files_of result ≡ [] }
    {
        Beside::of(alloc, false, false)
    }

    /// No lock, and of the other two those that are told.
    pub(crate) fn of(alloc: Global, requirements: bool, journal: bool) -> Beside
        ensures requirements { result.requirements ≡ requirements }
        ensures locks { result.locks.keys ≡ [] }
        ensures journal { result.journal ≡ journal }
    {
        Beside {
            requirements,
            locks: BTreeSet::new(alloc),
            journal,
        }
    }

    /// Whether this file is one of them.
    pub fn has(&self, file: &InputFile) -> bool
        ensures { result ≡ has self.now file.now }
    {
        match file {
            InputFile::Requirements => self.requirements,
            InputFile::Lock(name) => self.locks.contains(name),
            InputFile::Journal => self.journal,
            InputFile::Index
            | InputFile::Environment(_)
            | InputFile::NewRequirements
            | InputFile::OldRequirements
            | InputFile::Pins(_) => false,
        }
    }

    /// The files, in the order in which a save renames them to their places.
    pub(crate) fn files(&self, alloc: Global) -> Result<Vec<InputFile>, AllocError>
        ensures { IfOk result (λ files. files.items ≡ files_of self.now) }
    {
        let mut files = Vec::new(alloc);
        push_where(&mut files, self.requirements, InputFile::Requirements)?;
        push_locks(&mut files, &self.locks)?;
        push_where(&mut files, self.journal, InputFile::Journal)?;
        Ok(files)
    }
}

/// Puts a file behind others where it is one of those.
pub(crate) fn push_where(
    files: &mut Vec<InputFile>,
    is_one: bool,
    file: InputFile,
) -> Result<(), AllocError>
    ensures { OnOk result (files.new.items ≡ files.old.items ++ one_where is_one file) }
{
    if is_one {
        files.push(file)?;
    }
    Ok(())
}

/// Takes the lock of a fault from beside too. It answers whether it is a lock's, and wasn't taken from there.
pub(crate) fn add_lock(beside: &mut Beside, file: InputFile) -> Result<bool, Fault>
    ensures added { IfOk result (λ added. added ≡ is_left_lock beside.old file) }
    ensures takes { OnOk result (Takes file beside.old beside.new) }
    ensures memory { IfErr result (λ fault. fault ≡ OutOfMemory) }
{
    match file {
        InputFile::Lock(name) => Ok(beside.locks.insert(name)?),
        _other => Ok(false),
    }
}

fn push_locks(files: &mut Vec<InputFile>, names: &BTreeSet<TargetName>) -> Result<(), AllocError>
    ensures { OnOk result (files.new.items ≡ files.old.items
        ++ map (λ name. InputFile.Lock name) names.now.keys) }
{
    for name in names.iter() {
        let name = name.clone()?;
        files.push(InputFile::Lock(name))?;
    }
    Ok(())
}
