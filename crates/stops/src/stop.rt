// Why a call ends before it is done.

ghost use Rattle.std.specs.Prelude.{◌≡◌};
ghost use Rattle.clap.specs.Words.{kind_of};
ghost use Rattle.commands.specs.declared.batch.StreamFault.TheVariants as streams;
ghost use Rattle.inputs.specs.Faults.{fault_of};
ghost use Rattle.stops.specs.Stops.{IsStopOfRequest, IsUsage, stop_of, unless_refused};
ghost use Rattle.stops.specs.declared.stop.Stop.TheVariants as stops;

use clap::error::ErrorKind;
use command_line::request::{Beginning, NeededOption, RequestFault};
use commands::batch::StreamFault;
use edits::Refusal;
use inputs::{Fault, InputFault, InputFile};
use journal::Reply;
use lists::Text;
use std::alloc::{AllocError, AllocFailed, Global};

/// What `clap` tells of the words of a call: help, the version, or why they are no request.
#[derive(Drop)]
pub struct UsageText {
    pub kind: ErrorKind,
    pub text: String,
}

/// Why a call ends before it is done.
#[derive(Drop)]
pub enum Stop {
    Usage(UsageText),
    Needed(NeededOption),
    /// The command is refused, or the values of `--env` are.
    Refused(Refusal),
    /// There is no solution, as this text shows.
    Refuted(String),
    /// There is no solution, as these sentences tell.
    Explained(String),
    /// A command of a batch is refused, whose commands are saved all or none. Its reply is written.
    NoneSaved(Refusal),
    /// The lock isn't that of the index at hand, as this text tells.
    Stale(String),
    /// No target holds in one of the environments that were handed in, as this text tells.
    Uncovered(String),
    Input(InputFile, InputFault),
    /// The history hasn't this place.
    NoPlace(usize),
    /// The history is to begin behind its present state, which stands in this place, or before its first one.
    NoBeginning(Beginning, usize),
    /// Pins are handed in for a target of this name, and there is none.
    NoTarget(Text),
    /// This file can't be written.
    Unwritten(InputFile),
    Fault(StreamFault),
}

impl From<AllocError> for Stop {
    ghost from_gives = { λ _ stop. stop ≡ stops.Fault streams.OutOfMemory };

    fn from(_error: AllocError) -> Stop {
        Stop::Fault(StreamFault::OutOfMemory)
    }
}

impl<T: Drop> From<AllocFailed<T>> for Stop {
    ghost from_gives = { λ _ stop. stop ≡ stops.Fault streams.OutOfMemory };

    fn from(_error: AllocFailed<T>) -> Stop {
        Stop::Fault(StreamFault::OutOfMemory)
    }
}

impl From<StreamFault> for Stop {
    ghost from_gives = { λ fault stop. stop ≡ stops.Fault fault };

    fn from(fault: StreamFault) -> Stop {
        Stop::Fault(fault)
    }
}

// A refusal is told as the fault of the file that it is about, where there is one.
impl From<Refusal> for Stop {
    ghost from_gives = { λ refusal stop. stop ≡ stop_of (fault_of refusal) };

    fn from(refusal: Refusal) -> Stop {
        Stop::from(Fault::from(refusal))
    }
}

impl From<Fault> for Stop {
    ghost from_gives = { λ fault stop. stop ≡ stop_of fault };

    fn from(fault: Fault) -> Stop {
        match fault {
            Fault::Input(file, fault) => Stop::Input(file, fault),
            Fault::Unwritten(file) => Stop::Unwritten(file),
            Fault::Refused(refusal) => Stop::Refused(refusal),
            Fault::NoTarget(name) => Stop::NoTarget(name),
            Fault::OutOfMemory => Stop::Fault(StreamFault::OutOfMemory),
        }
    }
}

/// How a call stops at a text of `clap`.
pub fn stop_of_usage(alloc: Global, error: &clap::Error) -> Stop
    ensures { IsUsage (kind_of error.now) result }
{
    match format!(in alloc; "{error}") {
        Ok(text) => Stop::Usage(UsageText {
            kind: error.kind(),
            text,
        }),
        Err(_) => Stop::Fault(StreamFault::OutOfMemory),
    }
}

/// How a call stops at words that are no request.
pub fn stop_of_request(alloc: Global, fault: RequestFault) -> Stop
    ensures { IsStopOfRequest fault result }
{
    match fault {
        RequestFault::Usage(error) => stop_of_usage(alloc, &error),
        RequestFault::Needed(option) => Stop::Needed(option),
        RequestFault::OutOfMemory => Stop::Fault(StreamFault::OutOfMemory),
    }
}

/// How a call goes on from the reply to its command: with the reply, unless it is a refusal.
pub fn unless_refused(reply: Reply) -> Result<Reply, Stop>
    ensures { result ≡ unless_refused reply }
{
    match reply {
        Reply::Refused(refusal) => Err(Stop::from(refusal)),
        Reply::Same => Ok(Reply::Same),
        Reply::Done(cursor) => Ok(Reply::Done(cursor)),
    }
}
