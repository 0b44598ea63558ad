// Why a text is no lock.

ghost use Rattle.std.specs.Prelude.{◌≡◌};
ghost use Rattle.pylock.specs.declared.fault.Fault.TheVariants as faults;

use lists::Text;
use std::alloc::AllocError;
use std::error::Error;
use std::fmt;

/// Why a text is no lock that reqlock writes.
#[derive(Debug, Drop, PartialEq, Eq)]
pub enum Fault {
    /// The bytes aren't UTF-8, or no TOML.
    NotToml,
    /// The value of this key of the whole table is missing, has another form, or has no place there.
    Shape(Text),
    /// The lock has another version of the format.
    VersionUnsupported,
    /// Memory was refused.
    OutOfMemory,
}

impl fmt::Display for Fault {
    fn fmt<W: fmt::Write>(&self, f: &mut fmt::Formatter<W>) -> fmt::Result {
        match self {
            Fault::NotToml => f.write_str("this is no TOML"),
            Fault::Shape(key) => write!(f, "the value of `{key}` has the wrong shape"),
            Fault::VersionUnsupported => f.write_str("the version of the lock is not supported"),
            Fault::OutOfMemory => f.write_str("out of memory"),
        }
    }
}

impl Error for Fault {}

impl From<AllocError> for Fault {
    ghost from_gives = { λ _ e. e ≡ faults.OutOfMemory };

    fn from(_error: AllocError) -> Fault {
        Fault::OutOfMemory
    }
}
