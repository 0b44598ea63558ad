// What steps did together, made of their changes alone: where the lines of no state are at hand.

ghost use Rattle.std.specs.Prelude.{◌≤◌, length};

use crate::net_lines::{Gap, gaps_behind, splices_of};
use crate::net_parts::joined_parts;
use edits::{Change, DigestChange};
use lists::Seq;
use std::alloc::{AllocError, Global};

/// The change from one place of a history to another, whose steps have these changes; none where they don't follow one
/// another. That of one step is the step's own. Of several the lines, targets and entries are told that are others behind them.
pub(crate) fn change_of_steps(
    alloc: Global,
    changes: &[Change],
    from: usize,
    to: usize,
) -> Result<Option<Change>, AllocError>
    requires from { from ≤ length changes.now }
    requires to { to ≤ length changes.now }
{
    if from <= to {
        return way_on(alloc, &changes[from..to]);
    }
    match way_on(alloc, &changes[to..from])? {
        Some(change) => Ok(Some(change.inverse(alloc)?)),
        None => Ok(None),
    }
}

/// What these steps did together.
fn way_on(alloc: Global, steps: &[Change]) -> Result<Option<Change>, AllocError> {
    if let [step] = steps {
        return Ok(Some(step.clone()?));
    }
    let mut gaps: Vec<Gap<'_>> = Vec::new(alloc);
    let mut targets = Vec::new(alloc);
    let mut entries = Vec::new(alloc);
    for step in steps {
        let Some(lines) = gaps_behind(alloc, gaps, step.splices())? else {
            return Ok(None);
        };
        let Some(others) = joined_parts(alloc, targets, step.targets())? else {
            return Ok(None);
        };
        let Some(locked) = joined_parts(alloc, entries, step.entries())? else {
            return Ok(None);
        };
        gaps = lines;
        targets = others;
        entries = locked;
    }
    let splices = splices_of(alloc, gaps.as_slice())?;
    let (targets, entries) = (Seq::from_vec(targets), Seq::from_vec(entries));
    Ok(Change::new(splices, targets, entries, digests_of(steps)))
}

/// What became of the digest of the index.
fn digests_of(steps: &[Change]) -> Option<DigestChange> {
    let mut whole: Option<DigestChange> = None;
    for step in steps {
        if let Some(digests) = step.digests() {
            whole = Some(behind(whole, digests));
        }
    }
    match whole {
        Some(digests) if is_other(&digests) => Some(digests),
        _ => None,
    }
}

/// Whether the digest is another one behind the change.
fn is_other(digests: &DigestChange) -> bool {
    digests.old != digests.new
}

/// The one change behind the other, as one.
fn behind(before: Option<DigestChange>, digests: DigestChange) -> DigestChange {
    match before {
        Some(before) => {
            let old = before.old;
            let new = digests.new;
            DigestChange { old, new }
        }
        None => digests,
    }
}
