// Releases that are left out.

ghost use Rattle.std.specs.Prelude.{◌≡◌};

use lists::Text;
use pep440::Fault as VersionFault;
use pep508::{Cause, Name};

/// Why a release is left out; of several causes the first of these.
#[derive(Clone, Copy, Debug, PartialEq, Eq)]
pub enum SkipCause {
    /// Its version is refused.
    Version(VersionFault),
    /// The Python versions that it asks for are no set of specifiers.
    RequiresPython(VersionFault),
    /// The requirement at this place of `requires_dist`, counted from 0, is refused.
    Requirement(usize, Cause),
    /// It has neither a wheel nor a source distribution.
    NoFile,
    /// The name of one of its files, wheel or source distribution, is no plain name.
    FileName,
    /// The URL of one of its files has what no URL has.
    FileUrl,
    /// An earlier release of the package has an equal version, and is not left out.
    Duplicate,
}

/// A release that is left out.
pub struct Skipped {
    name: Name,
    place: usize,
    version: Text,
    cause: SkipCause,
}

impl Drop for Skipped {
    fn drop(self) {
        let Skipped {
            name: _,
            place: _,
            version: _,
            cause: _,
        } = self;
    }
}

impl Skipped {
    pub(crate) fn new(name: Name, place: usize, version: Text, cause: SkipCause) -> Skipped
        ensures { result ≡ record {
          name = name;
          place = place;
          version = version;
          cause = cause;
        } }
    {
        Skipped {
            name,
            place,
            version,
            cause,
        }
    }

    /// The package whose release it is.
    pub fn package(&self) -> &Name
        ensures { result.now ≡ self.now.name }
    {
        &self.name
    }

    /// The place of the release in the package's array, counted from 0.
    pub fn place(&self) -> usize
        ensures { result ≡ self.now.place }
    {
        self.place
    }

    /// The version of the release as the index writes it, also where that is no version.
    pub fn version(&self) -> &str
        ensures { result.now ≡ self.now.version }
    {
        self.version.as_str()
    }

    /// Why it is left out.
    pub fn cause(&self) -> SkipCause
        ensures { result ≡ self.now.cause }
    {
        self.cause
    }
}
