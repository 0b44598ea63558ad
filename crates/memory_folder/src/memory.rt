// A folder in memory. It keeps each change, so that what a stop leaves at any moment can be looked at, and fails at a call.

ghost use Rattle.std.specs.Prelude.{◌≡◌, ◌+◌, ◌++◌, [], ◌∷◌, Some, length, true, false, OnErr, OnOk};
ghost use Rattle.memory_folder.specs.Changes.{HadBeen, had_been_now, had_been_only, held_after};

use crate::changes::{Change, Standing, standing_after};
use folder::{Folder, WriteFault};
use lists::{Seq, Text};
use std::alloc::{AllocError, Global};

/// A folder in memory, with all changes since it was empty.
#[derive(Drop)]
pub struct MemoryFolder {
    alloc: Global,
    changes: Vec<Change>,
    // how many calls are answered before one fails
    answered: Option<usize>,
    faults: usize,
}

impl MemoryFolder {
    /// An empty folder, which answers this many calls before one fails.
    pub fn new(alloc: Global, answered: Option<usize>) -> MemoryFolder {
        MemoryFolder {
            alloc,
            changes: Vec::new(alloc),
            answered,
            faults: 0,
        }
    }

    /// How many changes were made.
    pub fn moments(&self) -> usize {
        self.changes.len()
    }

    /// What stood in the place of a file and beside it after so many changes.
    pub fn standing(&self, moment: usize, name: &str) -> Result<Standing, AllocError> {
        let changes = self.changes.as_slice();
        standing_after(self.alloc, &changes[..moment.min(changes.len())], name)
    }
}

/// Whether this call fails.
fn fails(answered: &mut Option<usize>, faults: &mut usize) -> bool
    ensures fault { result ≡ true → faults.new ≡ faults.old + 1 }
    ensures none { result ≡ false → faults.new ≡ faults.old }
{
    match *answered {
        Some(0) if *faults < usize::MAX => {
            *answered = None;
            *faults += 1;
            true
        }
        Some(count) if count > 0 => {
            *answered = Some(count - 1);
            false
        }
        _other => false,
    }
}

fn add(changes: &mut Vec<Change>, change: Change) -> Result<(), AllocError>
    ensures ok { OnOk result (changes.new.items ≡ changes.old.items ++ change ∷ []) }
    ensures err { OnErr result (changes.new.items ≡ changes.old.items) }
{
    changes.push(change)?;
    Ok(())
}

impl Folder for MemoryFolder {
    ghost held = { λ m. Some (held_after m.changes.items) };

    ghost may_leave = { λ m c. c ≡ held_after m.changes.items };

    ghost moment = { λ m. length m.changes.items };

    ghost left_since = { λ m t c. HadBeen m.changes.items t c };

    ghost faults = { λ m. m.faults };

    ghost counts_now = { λ m t c le now. had_been_now m.changes.items t c le now };

    ghost only_now = { λ m c left. had_been_only m.changes.items c left };

    /// The first half of the bytes stands there first, alone.
    fn stage(&mut self, name: &str, bytes: &[u8]) -> Result<(), WriteFault> {
        if fails(&mut self.answered, &mut self.faults) {
            return Err(WriteFault::Unwritten);
        }
        let half = &bytes[..bytes.len() / 2];
        let front = Change::Staged(
            Text::copy_of(self.alloc, name)?,
            Seq::from_vec(half.to_vec(self.alloc)?),
        );
        let whole = Change::Staged(
            Text::copy_of(self.alloc, name)?,
            Seq::from_vec(bytes.to_vec(self.alloc)?),
        );
        add(&mut self.changes, front)?;
        add(&mut self.changes, whole)?;
        Ok(())
    }

    fn rename(&mut self, name: &str) -> Result<(), WriteFault> {
        if fails(&mut self.answered, &mut self.faults) {
            return Err(WriteFault::Unwritten);
        }
        let change = Change::Renamed(Text::copy_of(self.alloc, name)?);
        add(&mut self.changes, change)?;
        Ok(())
    }

    fn remove(&mut self, name: &str) -> Result<(), WriteFault> {
        if fails(&mut self.answered, &mut self.faults) {
            return Err(WriteFault::Unwritten);
        }
        let change = Change::Removed(Text::copy_of(self.alloc, name)?);
        add(&mut self.changes, change)?;
        Ok(())
    }

    fn remove_beside(&mut self, name: &str) -> Result<(), WriteFault> {
        if fails(&mut self.answered, &mut self.faults) {
            return Err(WriteFault::Unwritten);
        }
        let change = Change::Cleared(Text::copy_of(self.alloc, name)?);
        add(&mut self.changes, change)?;
        Ok(())
    }
}
