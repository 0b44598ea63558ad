// The targets of a retarget before they are locked.

ghost use Rattle.std.specs.Prelude.{◌≡◌, [], IfOk, OnOk, fold, is_some, map, not};
ghost use Rattle.std.specs.List.{list_all};
ghost use Rattle.problems.specs.Solutions.{version_for};
ghost use Rattle.states.specs.Locks.{versions_of};
ghost use Rattle.edits.specs.Edits.{kept_retargeted};
ghost use Rattle.edits.specs.Pins.{agrees, is_agreed, newer_of, pins_for, with_agreed, with_all_agreed};
ghost use Rattle.edits.specs.Tied.KeptVersions.{kept_named, kept_of};
ghost use Rattle.edits.specs.Tied.Retargeting.{AreNamed};

use crate::pins::{TargetPins, with_pins};
use crate::request::Edit;
use changes::target_on;
use lists::Seq;
use pep440::Version;
use pep508::{Environment, Name};
use pylock::Entry;
use states::{Pool, Target, TargetName, Unlocked};
use std::alloc::{AllocError, Global};
use std::collections::BTreeMap;

/// Whether the target has no other version of the name than one that equals this one.
fn agrees(target: &Target, name: &Name, version: &Version) -> bool
    ensures { result ≡ agrees (name.now, version.now) target.now }
{
    match target.locked(name) {
        Some(locked) => version.cmp(locked).is_eq(),
        None => true,
    }
}

/// Whether that is so of each of the targets.
fn all_agree(targets: &[Target], name: &Name, version: &Version) -> bool
    ensures { result ≡ list_all (agrees (name.now, version.now)) targets.now }
{
    targets.iter().all(|target| agrees(target, name, version))
}

/// Whether the versions have none of the name.
fn lack(versions: &BTreeMap<Name, Version>, name: &Name) -> bool
    ensures { result ≡ not (is_some (version_for versions.now.entries name.now)) }
{
    match versions.get(name) {
        Some(_) => false,
        None => true,
    }
}

/// Whether the versions lack the name, and no target contradicts this version of it.
fn is_agreed(
    versions: &BTreeMap<Name, Version>,
    targets: &[Target],
    name: &Name,
    version: &Version,
) -> bool
    ensures { result ≡ is_agreed targets.now versions.now.entries (name.now, version.now) }
{
    lack(versions, name) && all_agree(targets, name, version)
}

/// Inserts the version of an entry, where versions lack its name and no target contradicts it.
fn insert_agreed(
    versions: &mut BTreeMap<Name, Version>,
    targets: &[Target],
    entry: &Entry,
) -> Result<(), AllocError>
    ensures { OnOk result (versions.new.entries
        ≡ with_agreed targets.now versions.old.entries (entry.now.name, entry.now.version)) }
{
    if is_agreed(versions, targets, entry.name(), entry.version()) {
        let name = entry.name().clone()?;
        let version = entry.version().clone()?;
        versions.insert(name, version)?;
    }
    Ok(())
}

/// The same of each of the entries.
fn insert_all_agreed(
    versions: &mut BTreeMap<Name, Version>,
    targets: &[Target],
    entries: &[Entry],
) -> Result<(), AllocError>
    ensures { OnOk result (versions.new.entries
        ≡ fold (with_agreed targets.now) versions.old.entries (versions_of entries.now)) }
{
    for entry in entries {
        insert_agreed(versions, targets, entry)?;
    }
    Ok(())
}

/// The versions, and of the names that they lack those that the targets agree on.
fn with_all_agreed(
    mut versions: BTreeMap<Name, Version>,
    targets: &[Target],
) -> Result<BTreeMap<Name, Version>, AllocError>
    ensures { IfOk result
        (λ all. all.entries ≡ with_all_agreed targets.now versions.entries) }
{
    for target in targets {
        insert_all_agreed(&mut versions, targets, target.lock.entries())?;
    }
    Ok(versions)
}

/// The versions that a target keeps which comes: those that are handed in for it, and of the names that these
/// lack those that the targets that are there agree on.
fn kept_by_new(
    alloc: Global,
    pool: &Pool<'_>,
    targets: &[Target],
    pins: &[TargetPins],
    name: &TargetName,
) -> Result<BTreeMap<Name, Version>, AllocError>
    ensures { IfOk result (λ kept. kept.entries ≡ with_all_agreed targets.now
        (newer_of pool.now.index [] (pins_for pins.now name.now))) }
{
    let handed = with_pins(BTreeMap::new(alloc), pool.snapshot, pins, name)?;
    with_all_agreed(handed, targets)
}

/// The versions that a target keeps which is named for a retarget.
fn kept_retargeted(
    alloc: Global,
    pool: &Pool<'_>,
    targets: &[Target],
    pins: &[TargetPins],
    given: &(TargetName, Environment),
) -> Result<BTreeMap<Name, Version>, AllocError>
    ensures { IfOk result (λ kept. kept.entries
        ≡ kept_retargeted pool.now.index targets.now pins.now given.now) }
{
    let (name, _environment) = given;
    match target_on(targets, name) {
        Some(target) => target.kept(alloc),
        None => kept_by_new(alloc, pool, targets, pins, name),
    }
}

/// A target that is named for a retarget, with the versions that it keeps.
fn named(
    alloc: Global,
    pool: &Pool<'_>,
    targets: &[Target],
    pins: &[TargetPins],
    given: &(TargetName, Environment),
) -> Result<Unlocked, AllocError>
    ensures { IfOk result (λ unlocked. kept_of unlocked
        ≡ kept_named pool.now.index targets.now pins.now given.now) }
{
    let kept = kept_retargeted(alloc, pool, targets, pins, given)?;
    let (name, environment) = given;
    Ok(Unlocked {
        name: name.clone()?,
        environment: environment.clone()?,
        kept,
    })
}

/// The targets that are named for a retarget, each with the versions that it keeps.
pub(crate) fn each_named(
    alloc: Global,
    pool: &Pool<'_>,
    targets: &[Target],
    pins: &[TargetPins],
    given: &[(TargetName, Environment)],
) -> Result<Seq<Unlocked>, AllocError>
    ensures { IfOk result (λ all. map kept_of all
        ≡ map (kept_named pool.now.index targets.now pins.now) given.now) }
{
    let mut all = Vec::with_capacity(alloc, given.len())?;
    for one in given {
        all.push(named(alloc, pool, targets, pins, one)?)?;
    }
    Ok(Seq::from_vec(all))
}

/// What holds of the targets that an edit names, if it names some.
pub(crate) fn recall_targets(edit: &Edit)
    ensures { AreNamed edit.now }
{
    if let Edit::Retarget(targets, _pins) = edit {
        targets.recall_invariant();
    }
}
