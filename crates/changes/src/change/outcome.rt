// What a change makes of a state.

ghost use Rattle.std.specs.Prelude.{◌≡◌, ◌≢◌, [], IfOk, MatchOption, true};
ghost use Rattle.std.specs.List.{AllZip, list_all, list_any};
ghost use Rattle.std.specs.Str.{bytes_eq};
ghost use Rattle.pylock.specs.Locks.{are_entries};
ghost use Rattle.changes.specs.Changes.{AreTargets, ChangesDigest, ChangesTarget, ChangesTargets, LeadsNowhere};
ghost use Rattle.changes.specs.Tied.Outcome.{IsMade, with_entries};
ghost use Rattle.changes.specs.Tied.Only.{IsTheOnly};
ghost use Rattle.changes.specs.Tied.Retargeted.{NoTargets};
ghost use Rattle.states.specs.State.{IsState};
ghost use Rattle.states.specs.StateParts.{StateParts};

use crate::change::Change;
use crate::change::by_target::own_changes;
use crate::change::exchanged_entries::exchanged;
use crate::change::file::is_last_ended;
use crate::change::parts::{DigestChange, EntryChange};
use crate::change::retargeted::retargeted;
use crate::change::spliced_lines::{exchanged_lines, lines_gone, lines_put};
use lists::{Seq, Text};
use pep508::Line;
use pylock::{Entry, Lock};
use states::{Target, TargetName};
use std::alloc::{AllocError, Global};

/// What a change makes of a state. What stays of the lines and of the entries is shared.
#[derive(Drop)]
pub(crate) struct Outcome {
    pub(crate) lines: Seq<Line>,
    pub(crate) targets: Seq<Target>,
    /// The lines that gave way.
    pub(crate) gone: Seq<Line>,
    /// The lines that were put in.
    pub(crate) put: Seq<Line>,
    /// Whether the last of the old lines has an ending, or there is none.
    pub(crate) was_ended: bool,
}

/// The digest after the change; `None` where another one stood there.
pub(crate) fn digest_after(digests: Option<DigestChange>, digest: [u8; 32]) -> Option<[u8; 32]>
    ensures { IsTheOnly (ChangesDigest digests digest) result }
{
    let Some(digests) = digests else {
        return Some(digest);
    };
    let old = digests.old;
    if old != digest {
        return None;
    }
    let new = digests.new;
    Some(new)
}

/// The target with another digest and other entries in its lock.
fn target_with(
    alloc: Global,
    target: &Target,
    digest: [u8; 32],
    entries: Seq<Entry>,
) -> Result<Target, AllocError>
    requires { are_entries entries ≡ true }
    ensures { IfOk result (λ made. made ≡ with_entries target.now digest entries) }
{
    let name = target.name.clone()?;
    let environment = target.environment.clone()?;
    let text = Text::copy_of(alloc, target.lock.environment())?;
    let lock = Lock::in_order(text, digest, entries);
    Ok(Target {
        name,
        environment,
        lock,
    })
}

/// What the change makes of a target; `None` where an old part of it doesn't stand in its place.
fn moved(alloc: Global, change: &Change, target: &Target) -> Result<Option<Target>, AllocError>
    ensures { IfOk result (IsTheOnly (ChangesTarget change.now target.now)) }
{
    change.recall_invariant();
    let lock = &target.lock;
    lock.recall_invariant();
    let Some(digest) = digest_after(change.digests(), lock.snapshot()) else {
        return Ok(None);
    };
    let own = own_changes(change.entries(), &target.name);
    let Some(entries) = exchanged(alloc, lock.entries(), own)? else {
        return Ok(None);
    };
    Ok(Some(target_with(alloc, target, digest, entries)?))
}

/// What a change by which targets stay makes of them; `None` where it makes nothing of one.
fn all_moved(
    alloc: Global,
    change: &Change,
    targets: &[Target],
) -> Result<Option<Seq<Target>>, AllocError>
    ensures { IfOk result (IsTheOnly (AllZip (ChangesTarget change.now) targets.now)) }
{
    let mut made = Vec::with_capacity(alloc, targets.len())?;
    for target in targets {
        let Some(next) = moved(alloc, change, target)? else {
            return Ok(None);
        };
        made.push(next)?;
    }
    Ok(Some(Seq::from_vec(made)))
}

/// Whether a target has the name.
fn is_known(targets: &[Target], name: &TargetName) -> bool
    ensures { result ≡ list_any (λ t. bytes_eq name.now t.name) targets.now }
{
    targets
        .iter()
        .any(|target| target.name.as_str() == name.as_str())
}

/// Whether the target of each change is there.
fn are_known(targets: &[Target], changes: &[EntryChange]) -> bool
    ensures { result ≡ list_all (λ c. list_any (λ t. bytes_eq c.target t.name) targets.now)
        changes.now }
{
    changes
        .iter()
        .all(|change| is_known(targets, &change.target))
}

/// What the change makes of the targets; `None` where an old part of it doesn't stand in its place.
fn targets_after(
    alloc: Global,
    change: &Change,
    targets: &[Target],
) -> Result<Option<Seq<Target>>, AllocError>
    requires are { AreTargets targets.now }
    requires some { targets.now ≢ [] }
    ensures { IfOk result (λ made. MatchOption made (NoTargets change.now targets.now)
        (ChangesTargets change.now.targets change.now targets.now)) }
{
    if !change.targets().is_empty() {
        return retargeted(alloc, change, targets);
    }
    if !are_known(targets, change.entries()) {
        return Ok(None);
    }
    all_moved(alloc, change, targets)
}

/// What the change makes of these lines and targets; `None` where an old part of it doesn't stand in its
/// place, or a new line doesn't read. Whether it is a state isn't tested.
pub(crate) fn outcome_of(
    alloc: Global,
    change: &Change,
    lines: Seq<Line>,
    targets: &[Target],
) -> Result<Option<Outcome>, AllocError>
    requires { IsState (record { lines = lines; targets = targets.now }) }
    ensures { IfOk result (λ made.
        let old : StateParts = record { lines = lines; targets = targets.now } in
        MatchOption made (LeadsNowhere old change.now) (IsMade old change.now)) }
{
    change.recall_invariant();
    let Some(targets) = targets_after(alloc, change, targets)? else {
        return Ok(None);
    };
    let splices = change.splices();
    let Some(gone) = lines_gone(alloc, lines.as_slice(), splices)? else {
        return Ok(None);
    };
    let Some(put) = lines_put(alloc, splices)? else {
        return Ok(None);
    };
    let was_ended = is_last_ended(lines.as_slice());
    let new = put.clone()?;
    let lines = exchanged_lines(lines, splices, new)?;
    Ok(Some(Outcome {
        lines,
        targets,
        gone,
        put,
        was_ended,
    }))
}
