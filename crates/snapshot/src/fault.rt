// Why bytes are no index.

ghost use Rattle.std.specs.Prelude.{◌≡◌};
ghost use Rattle.snapshot.specs.declared.fault.Fault.TheVariants.{OutOfMemory};

use lists::Text;
use pep508::Name;
use std::alloc::{AllocError, AllocFailed};
use std::error::Error;
use std::fmt;

/// Why bytes are no index.
#[derive(Debug, Drop, PartialEq, Eq)]
pub enum Fault {
    /// The bytes aren't UTF-8, or no JSON.
    NotJson,
    /// A value has another shape than the format asks for. The text is a JSON Pointer (RFC 6901)
    /// to the first such value, in the order of the format; that of a key that is missing is as
    /// if it were there.
    Shape(Text),
    /// The name of the first package that has the name of an earlier one.
    DuplicatePackage(Name),
    /// Memory was refused.
    OutOfMemory,
}

impl fmt::Display for Fault {
    fn fmt<W: fmt::Write>(&self, f: &mut fmt::Formatter<W>) -> fmt::Result {
        match self {
            Fault::NotJson => f.write_str("this is no JSON"),
            Fault::Shape(path) => write!(f, "the value at `{path}` has the wrong shape"),
            Fault::DuplicatePackage(name) => {
                let name = name.normal();
                write!(f, "the package `{name}` stands twice")
            }
            Fault::OutOfMemory => f.write_str("out of memory"),
        }
    }
}

impl Error for Fault {}

impl From<AllocError> for Fault {
    ghost from_gives = { λ _ e. e ≡ OutOfMemory };

    fn from(_error: AllocError) -> Fault {
        Fault::OutOfMemory
    }
}

impl<T: Drop> From<AllocFailed<T>> for Fault {
    ghost from_gives = { λ _ e. e ≡ OutOfMemory };

    fn from(_error: AllocFailed<T>) -> Fault {
        Fault::OutOfMemory
    }
}
