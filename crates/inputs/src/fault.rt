// Why the files of a call can't be read or saved.

ghost use Rattle.std.specs.IoError.{error_kind};
ghost use Rattle.std.specs.Prelude.{◌≡◌};
ghost use Rattle.inputs.specs.Errors.{nothing_unless_memory, unwritten_by};
ghost use Rattle.inputs.specs.Faults.{fault_of, of_file};
ghost use Rattle.inputs.specs.declared.fault.Fault.TheVariants.{OutOfMemory};

use crate::input_files::{InputFault, InputFile};
use edits::{Refusal, SavedFile};
use lists::Text;
use std::alloc::{AllocError, AllocFailed};
use std::io::{self, ErrorKind};

/// Why the files of a call can't be read or saved.
#[derive(Drop)]
pub enum Fault {
    /// This file is refused.
    Input(InputFile, InputFault),
    /// This file can't be written.
    Unwritten(InputFile),
    /// The history refuses a command, or a target is refused, and no file is at fault.
    Refused(Refusal),
    /// Pins are handed in for a target of this name, and there is none.
    NoTarget(Text),
    OutOfMemory,
}

impl From<AllocError> for Fault {
    ghost from_gives = { λ _ fault. fault ≡ OutOfMemory };

    fn from(_error: AllocError) -> Fault {
        Fault::OutOfMemory
    }
}

impl<T: Drop> From<AllocFailed<T>> for Fault {
    ghost from_gives = { λ _ fault. fault ≡ OutOfMemory };

    fn from(_error: AllocFailed<T>) -> Fault {
        Fault::OutOfMemory
    }
}

// Each refusal is told of the file that it is about, where there is one.
impl From<Refusal> for Fault {
    ghost from_gives = { λ refusal fault. fault ≡ fault_of refusal };

    fn from(refusal: Refusal) -> Fault {
        match refusal {
            Refusal::OutOfMemory => Fault::OutOfMemory,
            Refusal::FilesDisagree(SavedFile::Requirements) => {
                Fault::Input(InputFile::Requirements, InputFault::Disagrees)
            }
            Refusal::FilesDisagree(SavedFile::Lock(name)) => {
                Fault::Input(InputFile::Lock(name), InputFault::Disagrees)
            }
            Refusal::JournalBroken(line) => {
                Fault::Input(InputFile::Journal, InputFault::JournalBroken(line))
            }
            refusal => Fault::Refused(refusal),
        }
    }
}

/// What was read, or the fault with the file that has it.
pub fn in_file<T>(file: InputFile, read: Result<T, InputFault>) -> Result<T, Fault>
    ensures { result ≡ of_file file read }
{
    match read {
        Ok(value) => Ok(value),
        Err(InputFault::OutOfMemory) => Err(Fault::OutOfMemory),
        Err(fault) => Err(Fault::Input(file, fault)),
    }
}

/// Why a file can't be written.
pub fn unwritten(file: InputFile, error: &io::Error) -> Fault
    ensures { result ≡ unwritten_by file error.now }
{
    match error.kind() {
        ErrorKind::OutOfMemory => Fault::OutOfMemory,
        _ => Fault::Unwritten(file),
    }
}

/// Nothing, in the place of what an error kept from us. Only want of memory isn't passed over.
pub fn passed_over<T>(error: &io::Error) -> Result<Option<T>, Fault>
    ensures { result ≡ nothing_unless_memory (error_kind error.now) }
{
    match error.kind() {
        ErrorKind::OutOfMemory => Err(Fault::OutOfMemory),
        _ => Ok(None),
    }
}
