// Why the words of a command line are no request.

ghost use Rattle.std.specs.Prelude.{◌≡◌, IfOk};
ghost use Rattle.clap.specs.Words.{kind_of};
ghost use Rattle.command_line.specs.UsageFaults.{FaultOf, FaultWith};
ghost use Rattle.command_line.specs.declared.usage.RequestFault.TheVariants.{OutOfMemory};

use crate::command_words::command;
use clap::Error;
use clap::error::ErrorKind;
use std::alloc::{AllocError, Global};

/// An option that a subcommand needs.
#[derive(Clone, Copy, Debug, PartialEq, Eq)]
pub enum NeededOption {
    Index,
    Environment,
}

/// Why the words are no request.
#[derive(Debug, Drop)]
pub enum RequestFault {
    /// clap doesn't read them, or they call for help, whose text the error has; or what it reads
    /// doesn't go together.
    Usage(Error),
    /// clap reads them, but the subcommand needs this option.
    Needed(NeededOption),
    OutOfMemory,
}

impl From<AllocError> for RequestFault {
    ghost from_gives = { λ _ e. e ≡ OutOfMemory };

    fn from(_error: AllocError) -> RequestFault {
        RequestFault::OutOfMemory
    }
}

/// clap's error, or want of memory.
pub(crate) fn fault_of_clap(error: Error) -> RequestFault
    ensures fault { FaultOf error result }
{
    if error.kind() == ErrorKind::OutOfMemory {
        RequestFault::OutOfMemory
    } else {
        RequestFault::Usage(error)
    }
}

/// A usage fault of this kind.
pub(crate) fn usage_fault(alloc: Global, kind: ErrorKind, message: &str) -> RequestFault
    ensures fault { FaultWith kind result }
{
    match error_of(alloc, kind, message) {
        Ok(error) => RequestFault::Usage(error),
        Err(AllocError) => RequestFault::OutOfMemory,
    }
}

fn error_of(alloc: Global, kind: ErrorKind, message: &str) -> Result<Error, AllocError>
    ensures kind { IfOk result (λ e. kind_of e ≡ kind) }
{
    command(alloc)?.error(kind, message)
}
