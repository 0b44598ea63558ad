// What is wrong with words that clap reads, and how it is told.

ghost use Rattle.std.specs.Prelude.{◌≡◌};
ghost use Rattle.command_line.specs.UsageFaults.{FaultWith, IsTold};
ghost use Rattle.command_line.specs.declared.misuse.ReadFault.TheVariants as reads;

use crate::usage::{NeededOption, RequestFault, usage_fault};
use clap::error::ErrorKind;
use std::alloc::{AllocError, Global};
use std::fmt;
use std::num::ParseIntError;

/// A mistake in the words, with the argument that it is about, as help shows it.
#[derive(Debug, Drop)]
pub(crate) enum Misuse<'a> {
    NoSubcommand,
    /// The option stands before the subcommand and behind it.
    Twice(&'static str),
    /// The flag stands before a subcommand that doesn't take it.
    Stray(&'static str),
    /// Another argument stands beside it that excludes it.
    Excluded(&'static str),
    /// This is missing, which has to stand beside what stands there.
    Lacks(&'static str),
    /// This value of the argument isn't one of these.
    NoValue(&'a str, &'static str, &'static str),
    /// This text, of the argument, is no number for this cause.
    NoNumber(&'a str, &'static str, ParseIntError),
}

/// Why a subcommand isn't read.
#[derive(Debug, Drop)]
pub(crate) enum ReadFault<'a> {
    Misused(Misuse<'a>),
    Needed(NeededOption),
    OutOfMemory,
}

impl From<AllocError> for ReadFault<'_> {
    ghost from_gives = { λ _ fault. fault ≡ reads.OutOfMemory };

    fn from(_error: AllocError) -> Self {
        ReadFault::OutOfMemory
    }
}

// The texts are clap's for the like, but for those of what is missing.
impl fmt::Display for Misuse<'_> {
    fn fmt<W: fmt::Write>(&self, f: &mut fmt::Formatter<W>) -> fmt::Result {
        match self {
            Misuse::NoSubcommand => write!(f, "a subcommand is needed"),
            Misuse::Twice(shown) => {
                write!(f, "the argument '{shown}' cannot be used multiple times")
            }
            Misuse::Stray(shown) => write!(f, "unexpected argument '{shown}' found"),
            Misuse::Excluded(shown) => write!(
                f,
                "the argument '{shown}' cannot be used with one or more of the other specified arguments"
            ),
            Misuse::Lacks(shown) => write!(f, "{shown} is needed"),
            Misuse::NoValue(value, shown, values) => write!(
                f,
                "invalid value '{value}' for '{shown}'\n  [possible values: {values}]"
            ),
            Misuse::NoNumber(text, shown, cause) => {
                write!(f, "invalid value '{text}' for '{shown}': {cause}")
            }
        }
    }
}

/// The fault that tells the cause.
pub(crate) fn told(alloc: Global, cause: &ReadFault<'_>) -> RequestFault
    ensures told { IsTold cause.now result }
{
    match cause {
        ReadFault::Misused(misuse) => {
            let kind = match misuse {
                Misuse::NoSubcommand => ErrorKind::MissingSubcommand,
                Misuse::Twice(_) | Misuse::Excluded(_) => ErrorKind::ArgumentConflict,
                Misuse::Stray(_) => ErrorKind::UnknownArgument,
                Misuse::Lacks(_) => ErrorKind::MissingRequiredArgument,
                Misuse::NoValue(_, _, _) => ErrorKind::InvalidValue,
                Misuse::NoNumber(_, _, _) => ErrorKind::ValueValidation,
            };
            misuse_fault(alloc, kind, misuse)
        }
        ReadFault::Needed(option) => RequestFault::Needed(*option),
        ReadFault::OutOfMemory => RequestFault::OutOfMemory,
    }
}

fn misuse_fault(alloc: Global, kind: ErrorKind, misuse: &Misuse<'_>) -> RequestFault
    ensures fault { FaultWith kind result }
{
    match format!(in alloc; "{misuse}") {
        Ok(message) => usage_fault(alloc, kind, message.as_str()),
        Err(AllocError) => RequestFault::OutOfMemory,
    }
}
