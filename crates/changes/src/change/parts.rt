// The parts of a change.

ghost use Rattle.std.specs.Prelude.{◌≡◌};

use lists::{Faithful, Seq, Text, copied};
use pep508::Name;
use pylock::Entry;
use states::{Environment, TargetName};
use std::alloc::AllocError;

/// Lines that give way to others at a place of a requirements file.
#[derive(Debug, Drop)]
pub struct Splice {
    /// The number, from 0, of the old file's first line that gives way. Where none does, it is the
    /// number of the line before which the new ones are put.
    pub place: u64,
    /// The lines that give way, each with its ending.
    pub old: Seq<Text>,
    /// The lines that take their place, each with its ending.
    pub new: Seq<Text>,
}

/// What becomes of the entry of a name in the lock of a target.
#[derive(Debug, Drop)]
pub struct EntryChange {
    /// The name of the target.
    pub target: TargetName,
    /// The name of the entry.
    pub name: Name,
    /// The entry that gives way; `None` where there is none.
    pub old: Option<Entry>,
    /// The entry that takes its place; `None` where none does.
    pub new: Option<Entry>,
}

/// What becomes of the target of a name: it comes, goes, or gets another environment.
#[derive(Debug, Drop)]
pub struct TargetChange {
    /// The name of the target.
    pub name: TargetName,
    /// The environment that gives way; `None` where the target comes.
    pub old: Option<Environment>,
    /// The environment that takes its place; `None` where the target goes.
    pub new: Option<Environment>,
}

/// What becomes of the SHA-256 digest of the index.
#[derive(Clone, Copy, Debug)]
pub struct DigestChange {
    /// The digest that gives way.
    pub old: [u8; 32],
    /// The digest that takes its place.
    pub new: [u8; 32],
}

impl Clone for Splice {
    ghost is_clone = { λ s t. t ≡ s };

    fn clone(&self) -> Result<Splice, AllocError> {
        let old = self.old.clone()?;
        let new = self.new.clone()?;
        Ok(Splice {
            place: self.place,
            old,
            new,
        })
    }
}

impl Faithful for Splice {
    ghost clone_is_source = { λ x y h. h };
}

impl Clone for EntryChange {
    ghost is_clone = { λ c d. d ≡ c };

    fn clone(&self) -> Result<EntryChange, AllocError> {
        let target = self.target.clone()?;
        let name = self.name.clone()?;
        let old = copied(&self.old)?;
        let new = copied(&self.new)?;
        Ok(EntryChange {
            target,
            name,
            old,
            new,
        })
    }
}

impl Faithful for EntryChange {
    ghost clone_is_source = { λ x y h. h };
}

impl Clone for TargetChange {
    ghost is_clone = { λ c d. d ≡ c };

    fn clone(&self) -> Result<TargetChange, AllocError> {
        let name = self.name.clone()?;
        let old = copied(&self.old)?;
        let new = copied(&self.new)?;
        Ok(TargetChange { name, old, new })
    }
}

impl Faithful for TargetChange {
    ghost clone_is_source = { λ x y h. h };
}
