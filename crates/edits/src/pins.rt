// Versions that are handed in for targets, beside those of their own locks.

ghost use Rattle.std.specs.Prelude.{◌≡◌, IfOk, OnOk};
ghost use Rattle.std.specs.Cmp.Lexicographic.{slice_cmp};
ghost use Rattle.std.specs.List.Sorted.{IsStrictlySortedBy};
ghost use Rattle.std.specs.Map.{keys_of};
ghost use Rattle.std.specs.Ordering.{nat_cmp};
ghost use Rattle.edits.specs.Tied.KeptVersions.{takes, with_pin, with_pins};
ghost use Rattle.edits.specs.Pins as spec;

use lists::Seq;
use pep440::Version;
use pep508::Name;
use problems::parts::has_version;
use snapshot::Snapshot;
use states::TargetName;
use std::alloc::AllocError;
use std::cmp::Ordering;
use std::collections::BTreeMap;

/// Versions for names, handed in for the target of a name. They need not be in any order; of the versions of a name
/// the newest that the index has counts, or else the newest.
#[derive(Drop)]
pub struct TargetPins {
    pub target: TargetName,
    pub versions: Seq<(Name, Version)>,
}

/// Whether the index has a release of the name with this version.
fn is_released(snapshot: &Snapshot, name: &Name, version: &Version) -> bool
    ensures { result ≡ spec.is_released snapshot.now name.now version.now }
{
    snapshot
        .releases(name)
        .iter()
        .any(|release| has_version(version, release))
}

/// How versions of the name compare as pins: one that the index lacks is below each that it has, and else they go
/// by their order.
fn pin_cmp(snapshot: &Snapshot, name: &Name, version: &Version, other: &Version) -> Ordering
    ensures { result ≡ spec.pin_cmp snapshot.now name.now version.now other.now }
{
    let is_released_too = is_released(snapshot, name, other);
    let released = is_released(snapshot, name, version).cmp(&is_released_too);
    released.then(version.cmp(other))
}

/// Whether the versions have none of the name, or one that is below this one.
fn takes(
    versions: &BTreeMap<Name, Version>,
    snapshot: &Snapshot,
    name: &Name,
    version: &Version,
) -> bool
    ensures { result ≡ takes snapshot.now versions.now.entries (name.now, version.now) }
{
    match versions.get(name) {
        Some(own) => pin_cmp(snapshot, name, own, version).is_lt(),
        None => true,
    }
}

/// Inserts a version. It takes the place of one of its name that is below it.
fn insert_pin(
    versions: &mut BTreeMap<Name, Version>,
    snapshot: &Snapshot,
    name: &Name,
    version: &Version,
) -> Result<(), AllocError>
    ensures { OnOk result (versions.new.entries
        ≡ with_pin snapshot.now versions.old.entries (name.now, version.now)) }
{
    if takes(versions, snapshot, name, version) {
        let name = name.clone()?;
        let version = version.clone()?;
        versions.insert(name, version)?;
    }
    Ok(())
}

/// Inserts the versions, each in the place of one of its name that is below it.
fn insert_pins(
    versions: &mut BTreeMap<Name, Version>,
    snapshot: &Snapshot,
    pins: &[(Name, Version)],
) -> Result<(), AllocError>
    ensures { OnOk result
        (versions.new.entries ≡ with_pins snapshot.now versions.old.entries pins.now) }
{
    for (name, version) in pins {
        insert_pin(versions, snapshot, name, version)?;
    }
    Ok(())
}

/// The versions with those that are handed in for the target of the name, one after another.
fn with_all(
    mut versions: BTreeMap<Name, Version>,
    snapshot: &Snapshot,
    pins: &[TargetPins],
    target: &TargetName,
) -> Result<BTreeMap<Name, Version>, AllocError>
    ensures { IfOk result (λ all. all.entries
        ≡ with_pins snapshot.now versions.entries (spec.pins_for pins.now target.now)) }
{
    for pin in pins {
        if pin.target == *target {
            insert_pins(&mut versions, snapshot, pin.versions.as_slice())?;
        }
    }
    Ok(versions)
}

/// The names of a map rise.
fn names_rise(versions: &BTreeMap<Name, Version>)
    ensures { IsStrictlySortedBy (slice_cmp nat_cmp) (keys_of versions.now.entries) }
{
    let _ = versions.len();
}

/// The versions with those that are handed in for the target of the name: of each name the newest that the index has,
/// or else the newest.
pub(crate) fn with_pins(
    versions: BTreeMap<Name, Version>,
    snapshot: &Snapshot,
    pins: &[TargetPins],
    target: &TargetName,
) -> Result<BTreeMap<Name, Version>, AllocError>
    ensures { IfOk result (λ all. all.entries
        ≡ spec.newer_of snapshot.now versions.entries (spec.pins_for pins.now target.now)) }
{
    names_rise(&versions);
    with_all(versions, snapshot, pins, target)
}
