// Why a request is refused.

ghost use Rattle.std.specs.Prelude.{◌≡◌};
ghost use Rattle.states.specs.declared.refusal.Refusal.TheVariants.{OutOfMemory};

use crate::target_name::TargetName;
use lists::Text;
use std::alloc::{AllocError, AllocFailed};
use std::error::Error;
use std::fmt;

/// One of the files that a session keeps beside its journal.
#[derive(Debug, Drop, PartialEq, Eq)]
pub enum SavedFile {
    /// The requirements file.
    Requirements,
    /// The lock of the target of this name.
    Lock(TargetName),
}

/// Why a request is refused. There are two groups:
///
/// - What an edit, an undo or a redo is refused for, in the order in which the tests are made: from `BadText` to
///   `NothingToRedo`. Nothing has changed then.
/// - What is told of something that was read: from `FilesDisagree` to `NoTarget`. The files of a session, a line of a script, and
///   the targets that are given.
#[derive(Debug, Drop, PartialEq, Eq)]
pub enum Refusal {
    /// A name, a line or a specifier doesn't read.
    BadText,
    /// A line of that name is there: the first one has this number, from 1.
    AlreadyPresent(usize),
    /// No line has that name.
    NotPresent,
    /// So many lines have that name.
    Ambiguous(usize),
    /// This name isn't locked for any target.
    NotLocked(Text),
    /// For some target no versions meet all requirements.
    NoSolution,
    /// The new state would equal the old one.
    NothingChanges,
    /// Memory was refused.
    OutOfMemory,
    /// There is no earlier state.
    NothingToUndo,
    /// There is no later state.
    NothingToRedo,
    /// This file isn't the one that was saved with the journal.
    FilesDisagree(SavedFile),
    /// The journal doesn't read at this line, from 1.
    JournalBroken(usize),
    /// The line of a script is no command.
    BadCommand,
    /// A text isn't the name of a target.
    BadTarget,
    /// This name of a target stands twice.
    DuplicateTarget(TargetName),
    /// There is no target.
    NoTarget,
}

impl From<AllocError> for Refusal {
    ghost from_gives = { λ _ refusal. refusal ≡ OutOfMemory };

    fn from(_error: AllocError) -> Refusal {
        Refusal::OutOfMemory
    }
}

impl<T: Drop> From<AllocFailed<T>> for Refusal {
    ghost from_gives = { λ _ refusal. refusal ≡ OutOfMemory };

    fn from(_error: AllocFailed<T>) -> Refusal {
        Refusal::OutOfMemory
    }
}

/// Says that the lock of the target isn't the saved one.
fn disagrees<W: fmt::Write>(f: &mut fmt::Formatter<W>, name: &TargetName) -> fmt::Result {
    if name.is_empty() {
        return f.write_str("the lock is not the one that was saved");
    }
    write!(f, "the lock of {name} is not the one that was saved")
}

impl fmt::Display for Refusal {
    fn fmt<W: fmt::Write>(&self, f: &mut fmt::Formatter<W>) -> fmt::Result {
        match self {
            Refusal::BadText => f.write_str("the text does not read"),
            Refusal::AlreadyPresent(line) => write!(f, "line {line} has this name"),
            Refusal::NotPresent => f.write_str("no line has this name"),
            Refusal::Ambiguous(count) => write!(f, "{count} lines have this name"),
            Refusal::NotLocked(name) => write!(f, "{name} is not locked"),
            Refusal::NoSolution => f.write_str("no versions meet all requirements"),
            Refusal::NothingChanges => f.write_str("nothing would change"),
            Refusal::OutOfMemory => f.write_str("out of memory"),
            Refusal::NothingToUndo => f.write_str("there is nothing to undo"),
            Refusal::NothingToRedo => f.write_str("there is nothing to redo"),
            Refusal::FilesDisagree(SavedFile::Requirements) => {
                f.write_str("the requirements file is not the one that was saved")
            }
            Refusal::FilesDisagree(SavedFile::Lock(name)) => disagrees(f, name),
            Refusal::JournalBroken(line) => write!(f, "the journal does not read at line {line}"),
            Refusal::BadCommand => f.write_str("this is no command"),
            Refusal::BadTarget => f.write_str("this is no name of a target"),
            Refusal::DuplicateTarget(name) => write!(f, "the target {name} stands twice"),
            Refusal::NoTarget => f.write_str("there is no target"),
        }
    }
}

impl Error for Refusal {}
