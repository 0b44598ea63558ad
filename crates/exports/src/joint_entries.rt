// The entries of several targets, each once.

ghost use Rattle.std.specs.Prelude.{◌≡◌, ◌≢◌, ◌↔◌, ◌++◌, ◌∷◌, [], IfOk, IsFalse, IsTrue, OnOk};
ghost use Rattle.std.specs.List.{AllPairs, Contains, flat_map};
ghost use Rattle.std.specs.List.Sorted.{IsPermutation};
ghost use Rattle.pylock.specs.Packages.{EntryParts};
ghost use Rattle.exports.specs.Tied.JointPackages.{HasEntry, entries_in};

use crate::cover::Cover;
use changes::Same;
use lists::Seq;
use pylock::Entry;
use std::alloc::{AllocError, Global};

impl Cover {
    /// Whether the target's lock has this entry.
    pub(crate) fn has(&self, entry: &Entry) -> bool
        ensures has { IsTrue result → HasEntry self.now entry.now }
        ensures lacks { IsFalse result → HasEntry self.now entry.now → ⊥ }
    {
        self.target.lock.recall_invariant();
        match self.target.entry(entry.name()) {
            Some(own) => own.is_same(entry),
            None => false,
        }
    }
}

/// Puts an entry behind others. It is shared, not copied.
fn push(all: &mut Vec<Entry>, entry: &Entry) -> Result<(), AllocError>
    ensures { OnOk result (all.new.items ≡ all.old.items ++ entry.now ∷ []) }
{
    all.push(entry.clone()?)?;
    Ok(())
}

/// Puts entries behind others.
fn append(all: &mut Vec<Entry>, entries: &[Entry]) -> Result<(), AllocError>
    ensures { OnOk result (all.new.items ≡ all.old.items ++ entries.now) }
{
    for entry in entries {
        push(all, entry)?;
    }
    Ok(())
}

/// The entries of all targets, in the order of their names.
fn all_entries(alloc: Global, covers: &[Cover]) -> Result<Vec<Entry>, AllocError>
    ensures { IfOk result
        (λ all. IsPermutation (flat_map entries_in covers.now) all.items) }
{
    let mut all = Vec::new(alloc);
    for cover in covers {
        append(&mut all, cover.target.lock.entries())?;
    }
    all.sort_by(|one, other| one.name().normal().cmp(other.name().normal()))?;
    Ok(all)
}

/// Whether an entry stands among others.
fn is_among(entries: &[Entry], entry: &Entry) -> bool
    ensures there { IsTrue result → Contains entries.now entry.now }
    ensures lacking { IsFalse result → Contains entries.now entry.now → ⊥ }
{
    for other in entries {
        if other.is_same(entry) {
            return true;
        }
    }
    false
}

/// The same entries, each once.
fn each_once(alloc: Global, entries: &[Entry]) -> Result<Seq<Entry>, AllocError>
    ensures once { IfOk result (λ once. AllPairs (λ e f. e ≢ f) once) }
    ensures members { IfOk result (λ once. (e : EntryParts)
        → Contains entries.now e ↔ Contains once e) }
{
    let mut once = Vec::new(alloc);
    for entry in entries {
        if !is_among(once.as_slice(), entry) {
            push(&mut once, entry)?;
        }
    }
    Ok(Seq::from_vec(once))
}

/// Each entry that some target has, once, in the order of their names.
pub(crate) fn joint_entries(alloc: Global, covers: &[Cover]) -> Result<Seq<Entry>, AllocError>
    ensures once { IfOk result (λ entries. AllPairs (λ e f. e ≢ f) entries) }
    ensures members { IfOk result (λ entries. (e : EntryParts)
        → Contains (flat_map entries_in covers.now) e ↔ Contains entries e) }
{
    let all = all_entries(alloc, covers)?;
    let once = each_once(alloc, all.as_slice())?;
    Ok(once)
}
