// The change between two states.

ghost use Rattle.std.specs.Prelude.{◌≡◌, ◌≢◌, ◌↔◌, ◌≤◌, length, IfOk, IfSome};
ghost use Rattle.changes.specs.Changes.{After, ChangesDigest, IsEmpty};

use crate::change::Change;
use crate::change::between_lines::splices_between;
use crate::change::between_targets::{TargetsBetween, targets_between};
use crate::change::parts::DigestChange;
use states::State;
use std::alloc::{AllocError, Global};

/// The change from one digest to the other; `None` where they are the same.
pub(crate) fn digests_between(old: [u8; 32], new: [u8; 32]) -> Option<DigestChange>
    ensures leads { ChangesDigest result old new }
    ensures minimal { IfSome result (λ d. d.old ≢ d.new) }
{
    if old == new {
        return None;
    }
    Some(DigestChange { old, new })
}

/// The change that leads from a state to another. It is empty exactly where both are the same.
pub fn change_between(alloc: Global, old: &State, new: &State) -> Result<Change, AllocError>
    ensures change { IfOk result (λ change. After old.now change new.now) }
    ensures one_splice { IfOk result (λ change. length change.splices ≤ 1) }
    ensures empty { IfOk result (λ change. IsEmpty change ↔ (old.now ≡ new.now)) }
{
    old.recall_invariant();
    new.recall_invariant();
    let splices = splices_between(alloc, old.lines().lines(), new.lines().lines())?;
    let TargetsBetween { targets, entries } = targets_between(alloc, old.targets(), new.targets())?;
    let digests = digests_between(old.digest(), new.digest());
    Ok(Change {
        splices,
        targets,
        entries,
        digests,
    })
}
