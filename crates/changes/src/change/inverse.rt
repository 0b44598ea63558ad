// The change back.

ghost use Rattle.std.specs.Prelude.{◌≡◌, IfOk, map, option_map};
ghost use Rattle.changes.specs.Changes.{back, digest_back, entry_back, target_back};
ghost use Rattle.changes.specs.Tied.Ends.{DoRise};

use crate::change::ends::{ends_of, place_behind};
use crate::change::parts::{DigestChange, EntryChange, Splice, TargetChange};
use lists::{Seq, copied};
use std::alloc::{AllocError, Global};

/// The splice back, which stands at this place.
fn splice_back(splice: &Splice, place: u64) -> Result<Splice, AllocError>
    ensures { IfOk result (λ back. back
        ≡ record { place = place; old = splice.now.new; new = splice.now.old }) }
{
    let old = splice.new.clone()?;
    let new = splice.old.clone()?;
    Ok(Splice { place, old, new })
}

/// The splices back.
pub(crate) fn splices_back(alloc: Global, splices: &[Splice]) -> Result<Seq<Splice>, AllocError>
    requires { DoRise splices.now }
    ensures { IfOk result (λ made. made ≡ back 0 0 splices.now) }
{
    let mut made = Vec::with_capacity(alloc, splices.len())?;
    let Some(first) = splices.first() else {
        return Ok(Seq::from_vec(made));
    };
    made.push(splice_back(first, first.place)?)?;
    let mut ends = ends_of(first, first.place);
    for place in 1..splices.len() {
        let splice = &splices[place];
        let Some(moved) = place_behind(ends, splice) else {
            unreachable!();
        };
        made.push(splice_back(splice, moved)?)?;
        ends = ends_of(splice, moved);
    }
    Ok(Seq::from_vec(made))
}

/// The change of the target back.
fn target_back(change: &TargetChange) -> Result<TargetChange, AllocError>
    ensures { IfOk result (λ back. back ≡ target_back change.now) }
{
    let name = change.name.clone()?;
    let old = copied(&change.new)?;
    let new = copied(&change.old)?;
    Ok(TargetChange { name, old, new })
}

/// The changes of targets back.
pub(crate) fn targets_back(
    alloc: Global,
    changes: &[TargetChange],
) -> Result<Seq<TargetChange>, AllocError>
    ensures { IfOk result (λ made. made ≡ map target_back changes.now) }
{
    let mut made = Vec::with_capacity(alloc, changes.len())?;
    for change in changes {
        made.push(target_back(change)?)?;
    }
    Ok(Seq::from_vec(made))
}

/// The change of the entry back.
fn entry_back(change: &EntryChange) -> Result<EntryChange, AllocError>
    ensures { IfOk result (λ back. back ≡ entry_back change.now) }
{
    let target = change.target.clone()?;
    let name = change.name.clone()?;
    let old = copied(&change.new)?;
    let new = copied(&change.old)?;
    Ok(EntryChange {
        target,
        name,
        old,
        new,
    })
}

/// The changes of entries back.
pub(crate) fn entries_back(
    alloc: Global,
    changes: &[EntryChange],
) -> Result<Seq<EntryChange>, AllocError>
    ensures { IfOk result (λ made. made ≡ map entry_back changes.now) }
{
    let mut made = Vec::with_capacity(alloc, changes.len())?;
    for change in changes {
        made.push(entry_back(change)?)?;
    }
    Ok(Seq::from_vec(made))
}

/// The change of the digest back.
pub(crate) fn digests_back(digests: Option<DigestChange>) -> Option<DigestChange>
    ensures { result ≡ option_map digest_back digests }
{
    match digests {
        Some(digests) => {
            let old = digests.new;
            let new = digests.old;
            Some(DigestChange { old, new })
        }
        None => None,
    }
}
