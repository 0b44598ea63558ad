// Targets after a change by which some come, go or get another environment.

ghost use Rattle.std.specs.Prelude.{◌≡◌, ◌≢◌, [], IfOk, MatchOption, true};
ghost use Rattle.std.specs.Option.{option_copied};
ghost use Rattle.pylock.specs.Locks.{are_entries};
ghost use Rattle.changes.specs.Changes.{AreTargets, ChangesEnvironment, ChangesNames, entries_in, environment_in};
ghost use Rattle.changes.specs.Tied.Only.{IsTheOnly};
ghost use Rattle.changes.specs.Tied.Retargeted.{AreMade, Becomes, CannotBecome, IsOfParts, NoneNamed};

use crate::change::Change;
use crate::change::by_name::{in_order, item_on, names_of, push_some, put_names};
use crate::change::by_target::own_changes;
use crate::change::exchanged_entries::exchanged;
use crate::change::outcome::digest_after;
use crate::change::parts::TargetChange;
use crate::same::Same;
use lists::{Seq, copied};
use pylock::{Entry, Lock};
use states::{Environment, Target, TargetName};
use std::alloc::{AllocError, Global};

/// The environment of what is there of a target.
pub(crate) fn environment_in(target: Option<&Target>) -> Result<Option<Environment>, AllocError>
    ensures { IfOk result (λ made. made ≡ environment_in (option_copied target.entry)) }
{
    match target {
        Some(target) => Ok(Some(target.environment.clone()?)),
        None => Ok(None),
    }
}

/// The entries of its lock; there is none where there is no target.
pub(crate) fn entries_in<'t>(target: Option<&'t Target>) -> &'t [Entry]
    ensures entries { result.now ≡ entries_in (option_copied target.entry) }
    ensures rising { are_entries result.now ≡ true }
{
    match target {
        Some(target) => {
            target.lock.recall_invariant();
            target.lock.entries()
        }
        None => &[],
    }
}

/// The environment of a name after its change; `None` where another one stood there.
fn environment_after(
    changed: Option<&TargetChange>,
    target: Option<&Target>,
) -> Result<Option<Option<Environment>>, AllocError>
    ensures { IfOk result (IsTheOnly (ChangesEnvironment (option_copied changed.entry)
        (environment_in (option_copied target.entry)))) }
{
    let environment = environment_in(target)?;
    let Some(changed) = changed else {
        return Ok(Some(environment));
    };
    if !changed.old.is_same(&environment) {
        return Ok(None);
    }
    Ok(Some(copied(&changed.new)?))
}

/// The target of these parts, or none where there is no environment. Such a one may not have entries.
fn target_of(
    alloc: Global,
    name: &TargetName,
    environment: Option<Environment>,
    digest: [u8; 32],
    entries: Seq<Entry>,
) -> Result<Option<Option<Target>>, AllocError>
    requires { are_entries entries ≡ true }
    ensures { IfOk result (IsTheOnly (IsOfParts name.now environment digest entries)) }
{
    let Some(environment) = environment else {
        if entries.is_empty() {
            return Ok(Some(None));
        }
        return Ok(None);
    };
    let name = name.clone()?;
    let text = environment.marker_text(alloc)?;
    let lock = Lock::in_order(text, digest, entries);
    Ok(Some(Some(Target {
        name,
        environment,
        lock,
    })))
}

/// What becomes of the target of a name, where locks get this digest; `None` where an old part of the
/// change doesn't stand in its place.
fn becomes(
    alloc: Global,
    change: &Change,
    targets: &[Target],
    digest: [u8; 32],
    name: &TargetName,
) -> Result<Option<Option<Target>>, AllocError>
    ensures { IfOk result (IsTheOnly (Becomes change.now digest targets.now name.now)) }
{
    change.recall_invariant();
    let old = item_on(targets, name);
    let changed = item_on(change.targets(), name);
    let Some(environment) = environment_after(changed, old)? else {
        return Ok(None);
    };
    let own = own_changes(change.entries(), name);
    let Some(entries) = exchanged(alloc, entries_in(old), own)? else {
        return Ok(None);
    };
    target_of(alloc, name, environment, digest, entries)
}

/// What becomes of the target of each name; `None` where nothing can become of one.
fn all_become(
    alloc: Global,
    change: &Change,
    targets: &[Target],
    digest: [u8; 32],
    names: &[TargetName],
) -> Result<Option<Seq<Target>>, AllocError>
    ensures { IfOk result (λ made. MatchOption made (CannotBecome change.now digest targets.now)
        (AreMade change.now digest targets.now names.now)) }
{
    change.recall_invariant();
    let mut made = Vec::with_capacity(alloc, names.len())?;
    for name in names {
        let Some(next) = becomes(alloc, change, targets, digest, name)? else {
            return Ok(None);
        };
        push_some(&mut made, next)?;
    }
    Ok(Some(Seq::from_vec(made)))
}

/// What the change makes of the targets, name by name; `None` where an old part of it doesn't stand in its
/// place, a target that goes keeps an entry, or no target is left.
pub(crate) fn retargeted(
    alloc: Global,
    change: &Change,
    targets: &[Target],
) -> Result<Option<Seq<Target>>, AllocError>
    requires are { AreTargets targets.now }
    requires some { targets.now ≢ [] }
    ensures { IfOk result (λ made. MatchOption made (NoneNamed change.now targets.now)
        (ChangesNames change.now targets.now)) }
{
    let Some(first) = targets.first() else {
        unreachable!();
    };
    let Some(digest) = digest_after(change.digests(), first.lock.snapshot()) else {
        return Ok(None);
    };
    let mut names = names_of(alloc, targets, change.targets())?;
    put_names(&mut names, change.entries())?;
    let names = in_order(alloc, names)?;
    let Some(made) = all_become(alloc, change, targets, digest, names.as_slice())? else {
        return Ok(None);
    };
    if made.is_empty() {
        return Ok(None);
    }
    Ok(Some(made))
}
