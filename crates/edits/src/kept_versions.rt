// Targets before they are locked, each with the versions that are kept of its own lock.

ghost use Rattle.std.specs.Prelude.{◌≡◌, ◌≢◌, ◌⊎◌, [], map, IfOk, IfErr, None, Some, true};
ghost use Rattle.std.specs.List.{list_any};
ghost use Rattle.std.specs.Str.{bytes_eq};
ghost use Rattle.edits.specs.Edits.{kept_pins, without_pins};
ghost use Rattle.edits.specs.Tied.KeptVersions.{kept_after, kept_first, kept_for, kept_of, named_in};
ghost use Rattle.edits.specs.Refused.{refused_by_locks};
ghost use Rattle.lists.specs.Rising.{rises};
ghost use Rattle.states.specs.declared.refusal.Refusal.TheVariants.{OutOfMemory};

use crate::first_targets::FirstTargets;
use crate::pins::{TargetPins, with_pins};
use crate::request::Edit;
use crate::retargeting::{each_named, recall_targets};
use crate::upgrade::named_in;
use lists::Seq;
use pep440::Version;
use pep508::{Environment, Name};
use snapshot::Snapshot;
use states::{Pool, Refusal, State, Target, TargetName, Unlocked};
use std::alloc::{AllocError, Global};
use std::collections::BTreeMap;

/// Whether the name is one of these.
fn is_among(names: &[Name], name: &Name) -> bool
    ensures { result ≡ list_any (bytes_eq name.now) names.now }
{
    names.iter().any(|other| name.normal() == other.normal())
}

/// The versions but for those of these names.
fn without(mut versions: BTreeMap<Name, Version>, names: &[Name]) -> BTreeMap<Name, Version>
    ensures { result.entries ≡ without_pins names.now versions.entries }
{
    versions.retain(|name, _version| !is_among(names, name));
    versions
}

/// The versions that the edit keeps for the target, given the names that it drops.
fn kept_pins(
    alloc: Global,
    pool: &Pool<'_>,
    target: &Target,
    edit: &Edit,
    names: &[Name],
) -> Result<BTreeMap<Name, Version>, AllocError>
    requires { names.now ≡ named_in edit.now }
    ensures { IfOk result (λ kept. kept.entries
        ≡ kept_pins pool.now.index target.now edit.now) }
{
    match edit {
        Edit::Upgrade(_) => Ok(without(target.kept(alloc)?, names)),
        Edit::UpgradeAll => Ok(BTreeMap::new(alloc)),
        Edit::Replace(_, pins) => {
            let own = target.kept(alloc)?;
            with_pins(own, pool.snapshot, pins.as_slice(), &target.name)
        }
        Edit::Add(_)
        | Edit::Remove(_)
        | Edit::Constrain(_, _)
        | Edit::Relock
        | Edit::Retarget(_, _) => target.kept(alloc),
    }
}

/// The target without its lock, with the versions that the edit keeps.
fn without_lock(
    alloc: Global,
    pool: &Pool<'_>,
    target: &Target,
    edit: &Edit,
    names: &[Name],
) -> Result<Unlocked, AllocError>
    requires { names.now ≡ named_in edit.now }
    ensures { IfOk result (λ unlocked. kept_of unlocked ≡ kept_for pool.now.index edit.now target.now) }
{
    let kept = kept_pins(alloc, pool, target, edit, names)?;
    let name = target.name.clone()?;
    let environment = target.environment.clone()?;
    Ok(Unlocked {
        name,
        environment,
        kept,
    })
}

/// The targets without their locks, each with the versions that the edit keeps.
fn without_locks(
    alloc: Global,
    pool: &Pool<'_>,
    targets: &[Target],
    edit: &Edit,
    names: &[Name],
) -> Result<Seq<Unlocked>, AllocError>
    requires { names.now ≡ named_in edit.now }
    ensures { IfOk result (λ all. map kept_of all ≡ map (kept_for pool.now.index edit.now) targets.now) }
{
    let mut all = Vec::with_capacity(alloc, targets.len())?;
    for target in targets {
        all.push(without_lock(alloc, pool, target, edit, names)?)?;
    }
    Ok(Seq::from_vec(all))
}

/// The targets that the edit leads to, each with the versions that it keeps. Those of a retarget are the ones
/// that it names.
fn each_unlocked(
    alloc: Global,
    pool: &Pool<'_>,
    targets: &[Target],
    edit: &Edit,
    names: &[Name],
) -> Result<Seq<Unlocked>, AllocError>
    requires { names.now ≡ named_in edit.now }
    ensures { IfOk result
        (λ all. map kept_of all ≡ kept_after pool.now.index targets.now edit.now) }
{
    match edit {
        Edit::Retarget(given, pins) => {
            let pins = pins.as_slice();
            each_named(alloc, pool, targets, pins, given.as_slice())
        }
        _ => without_locks(alloc, pool, targets, edit, names),
    }
}

/// The targets that the edit leads to, each with the versions that it keeps. Where locks refuse the edit, the
/// first refusal is answered. The names of an upgrade are read once.
pub(crate) fn unlocked(
    alloc: Global,
    state: &State,
    edit: &Edit,
    pool: &Pool<'_>,
) -> Result<Seq<Unlocked>, Refusal>
    ensures accepted { IfOk result (λ _. refused_by_locks state.now.targets edit.now ≡ None) }
    ensures kept { IfOk result
        (λ all. map kept_of all ≡ kept_after pool.now.index state.now.targets edit.now) }
    ensures some { IfOk result (λ all. all ≢ []) }
    ensures rising { IfOk result (λ all. rises (map (λ u. u.name) all) ≡ true) }
    ensures err { IfErr result (λ refusal. (refusal ≡ OutOfMemory)
        ⊎ (refused_by_locks state.now.targets edit.now ≡ Some refusal)) }
{
    state.recall_invariant();
    recall_targets(edit);
    let names = named_in(alloc, state.targets(), edit)?;
    Ok(each_unlocked(alloc, pool, state.targets(), edit, names.as_slice())?)
}

/// A named environment, with the versions that are handed in for it.
fn first(
    alloc: Global,
    name: TargetName,
    environment: Environment,
    pins: &[TargetPins],
    snapshot: &Snapshot,
) -> Result<Unlocked, AllocError>
    ensures { IfOk result
        (λ unlocked. kept_of unlocked ≡ kept_first snapshot.now pins.now (name, environment)) }
{
    let kept = with_pins(BTreeMap::new(alloc), snapshot, pins, &name)?;
    Ok(Unlocked {
        name,
        environment,
        kept,
    })
}

/// The named environments, with the versions that are handed in for each.
fn each_first(
    alloc: Global,
    targets: Seq<(TargetName, Environment)>,
    pins: &[TargetPins],
    snapshot: &Snapshot,
) -> Result<Seq<Unlocked>, AllocError>
    ensures { IfOk result (λ all. map kept_of all ≡ map (kept_first snapshot.now pins.now) targets) }
{
    let mut all = Vec::with_capacity(alloc, targets.len())?;
    for (name, environment) in targets.into_vec() {
        all.push(first(alloc, name, environment, pins, snapshot)?)?;
    }
    Ok(Seq::from_vec(all))
}

/// The targets before they are locked for the first time, each with the versions that are handed in for it.
pub(crate) fn all_first(
    alloc: Global,
    first: FirstTargets,
    snapshot: &Snapshot,
) -> Result<Seq<Unlocked>, AllocError>
    ensures kept { IfOk result
        (λ all. map kept_of all ≡ map (kept_first snapshot.now first.pins) first.targets) }
    ensures some { IfOk result (λ all. all ≢ []) }
    ensures rising { IfOk result (λ all. rises (map (λ u. u.name) all) ≡ true) }
{
    let FirstTargets { targets, pins } = first;
    targets.recall_invariant();
    Ok(each_first(alloc, targets.into_list(), pins.as_slice(), snapshot)?)
}
