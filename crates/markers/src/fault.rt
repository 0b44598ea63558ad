// Why a text was refused.

ghost use Rattle.std.specs.Prelude.{◌≡◌};
ghost use Rattle.markers.specs.declared.fault.Cause.TheVariants.{OutOfMemory};

use crate::variable::Variable;
use pep440::Fault as SpecifierFault;
use std::alloc::{AllocError, AllocFailed};
use std::error::Error;
use std::fmt;

/// Why a text was refused.
#[derive(Clone, Copy, Debug, PartialEq, Eq)]
pub enum Cause {
    /// The text is no name (PEP 508, "Names").
    BadName,
    /// The text is no marker (PEP 508, "Environment Markers").
    BadMarker,
    /// More than 64 parentheses are open at some place of a marker.
    MarkerTooDeep,
    /// The line names a URL, which reqlock does not support.
    UrlRequirement,
    /// The line is an option of pip, which reqlock does not support.
    OptionLine,
    /// The line ends in a backslash, which would join it to the next one.
    Continuation,
    /// A control character other than a tab, or a separator of lines or paragraphs other than LF,
    /// stands in the line, or a byte-order mark at its start.
    OddCharacter,
    /// The file isn't UTF-8.
    NotUtf8,
    /// What an environment says of this variable is absent or unlawful; with none, the bytes are no
    /// JSON object.
    BadEnvironment(Option<Variable>),
    /// The version part is no set of specifiers (PEP 440, "Version specifiers").
    Specifier(SpecifierFault),
    /// Memory was refused.
    OutOfMemory,
}

impl From<SpecifierFault> for Cause {
    ghost use Rattle.markers.specs.Faults.{cause_of};

    ghost from_gives = { λ fault cause. cause ≡ cause_of fault };

    fn from(fault: SpecifierFault) -> Cause {
        match fault {
            SpecifierFault::OutOfMemory => Cause::OutOfMemory,
            _ => Cause::Specifier(fault),
        }
    }
}

impl From<AllocError> for Cause {
    ghost from_gives = { λ _ cause. cause ≡ OutOfMemory };

    fn from(_error: AllocError) -> Cause {
        Cause::OutOfMemory
    }
}

impl<T: Drop> From<AllocFailed<T>> for Cause {
    ghost from_gives = { λ _ cause. cause ≡ OutOfMemory };

    fn from(_error: AllocFailed<T>) -> Cause {
        Cause::OutOfMemory
    }
}

/// A refusal, with the number of the line from 1. The line is 1 where one text is read, and 0 where
/// the refusal concerns no line.
#[derive(Clone, Copy, Debug, PartialEq, Eq)]
pub struct Fault {
    pub line: usize,
    pub cause: Cause,
}

impl Fault {
    ghost use Rattle.markers.specs.Faults.{fault_of};

    /// The fault of the line with this number.
    pub fn at(line: usize, cause: Cause) -> Fault
        ensures { result ≡ fault_of line cause }
    {
        match cause {
            Cause::OutOfMemory => Fault { line: 0, cause },
            _ => Fault { line, cause },
        }
    }
}

impl<T: Drop> From<AllocFailed<T>> for Fault {
    ghost use Rattle.markers.specs.Faults.{memory_fault};

    ghost from_gives = { λ _ fault. fault ≡ memory_fault };

    fn from(_error: AllocFailed<T>) -> Fault {
        Fault {
            line: 0,
            cause: Cause::OutOfMemory,
        }
    }
}

impl fmt::Display for Cause {
    fn fmt<W: fmt::Write>(&self, f: &mut fmt::Formatter<W>) -> fmt::Result {
        match self {
            Cause::BadName => f.write_str("this is no name"),
            Cause::BadMarker => f.write_str("this is no marker"),
            Cause::MarkerTooDeep => f.write_str("a marker has more than 64 open parentheses"),
            Cause::UrlRequirement => f.write_str("a URL is not supported"),
            Cause::OptionLine => f.write_str("an option line is not supported"),
            Cause::Continuation => f.write_str("a line may not end in a backslash"),
            Cause::OddCharacter => f.write_str("a control character stands in the line"),
            Cause::NotUtf8 => f.write_str("the file is no UTF-8"),
            Cause::BadEnvironment(None) => f.write_str("the environment is no JSON object"),
            Cause::BadEnvironment(Some(variable)) => {
                write!(f, "the environment has no lawful {}", variable.name())
            }
            Cause::Specifier(fault) => write!(f, "{fault}"),
            Cause::OutOfMemory => f.write_str("out of memory"),
        }
    }
}

impl fmt::Display for Fault {
    fn fmt<W: fmt::Write>(&self, f: &mut fmt::Formatter<W>) -> fmt::Result {
        let line = self.line;
        let cause = self.cause;
        write!(f, "line {line}: {cause}")
    }
}

impl Error for Cause {}

impl Error for Fault {}
