// The parts of a version that have a shape of their own.

ghost use Rattle.std.specs.Prelude.{◌≡◌};

use lists::{Faithful, Text};
use std::alloc::AllocError;

/// A pre-release part with its number (PEP 440, "Pre-releases").
#[derive(Clone, Copy, Debug, PartialEq, Eq)]
pub enum Pre {
    /// `a`
    Alpha(u64),
    /// `b`
    Beta(u64),
    /// `rc`
    Candidate(u64),
}

/// A part of a local version (PEP 440, "Local version identifiers").
#[derive(Debug, Drop)]
pub enum LocalPart {
    /// Letters in lower case and digits, with one letter at least.
    Word(Text),
    Number(u64),
}

impl Clone for LocalPart {
    ghost is_clone = { λ x y. y ≡ x };

    fn clone(&self) -> Result<LocalPart, AllocError> {
        match self {
            LocalPart::Word(word) => Ok(LocalPart::Word(word.clone()?)),
            LocalPart::Number(number) => Ok(LocalPart::Number(*number)),
        }
    }
}

impl Faithful for LocalPart {
    ghost clone_is_source = { λ x y h. h };
}
