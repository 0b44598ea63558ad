// Why a text is no version or no set of specifiers.

ghost use Rattle.std.specs.Prelude.{◌≡◌};
ghost use Rattle.pep440.specs.declared.fault.Fault.TheVariants.{OutOfMemory};

use std::alloc::{AllocError, AllocFailed};
use std::error::Error;
use std::fmt;

/// Why a text was refused.
#[derive(Clone, Copy, Debug, PartialEq, Eq)]
pub enum Fault {
    /// The text is no version.
    BadVersion,
    /// The text is a version with a number of more than 64 bits.
    NumberTooLarge,
    /// The clause at this place, counted from 1, is none.
    BadClause(usize),
    /// A clause has the operator `===`, which reqlock does not support.
    ArbitraryEquality,
    /// Memory was refused.
    OutOfMemory,
}

impl fmt::Display for Fault {
    fn fmt<W: fmt::Write>(&self, f: &mut fmt::Formatter<W>) -> fmt::Result {
        match self {
            Fault::BadVersion => f.write_str("this is no version"),
            Fault::NumberTooLarge => f.write_str("a number has more than 64 bits"),
            Fault::BadClause(place) => write!(f, "clause {place} is no version specifier"),
            Fault::ArbitraryEquality => f.write_str("the operator `===` is not supported"),
            Fault::OutOfMemory => f.write_str("out of memory"),
        }
    }
}

impl Error for Fault {}

impl From<AllocError> for Fault {
    ghost from_gives = { λ _ e. e ≡ OutOfMemory };

    fn from(_error: AllocError) -> Fault {
        Fault::OutOfMemory
    }
}

impl<T: Drop> From<AllocFailed<T>> for Fault {
    ghost from_gives = { λ _ e. e ≡ OutOfMemory };

    fn from(_error: AllocFailed<T>) -> Fault {
        Fault::OutOfMemory
    }
}
