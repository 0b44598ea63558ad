// The packages of a lock for several environments.

ghost use Rattle.std.specs.Prelude.{◌≡◌, ◌<◌, IfOk, length, map};
ghost use Rattle.std.specs.List.{AllByRecursion};
ghost use Rattle.exports.specs.Tied.JointPackages.{AreOn, IsPackageOf, Refers};

use crate::cover::Cover;
use crate::joint_marker::marker_with;
use changes::Same;
use lists::{Seq, Text};
use pep508::{Name, Version};
use pylock::{Entry, JointPackage, Reference};
use std::alloc::{AllocError, Global};

/// Whether some target has both entries.
fn do_share(covers: &[Cover], entry: &Entry, other: &Entry) -> bool {
    covers
        .iter()
        .any(|cover| cover.has(entry) && cover.has(other))
}

/// How many entries are on a name.
fn count_on(entries: &[Entry], name: &Name) -> usize {
    entries
        .iter()
        .filter(|entry| entry.name().is_same(name))
        .count()
}

/// How many entries are on the name of this one, with its version.
fn count_with(entries: &[Entry], entry: &Entry) -> usize {
    entries
        .iter()
        .filter(|other| {
            other.name().is_same(entry.name()) && other.version().cmp(entry.version()).is_eq()
        })
        .count()
}

/// The version of an entry, if others are on its name.
fn telling_version(entries: &[Entry], entry: &Entry) -> Result<Option<Version>, AllocError> {
    if count_on(entries, entry.name()) < 2 {
        return Ok(None);
    }
    Ok(Some(entry.version().clone()?))
}

/// The marker of an entry, if others have its name and its version.
fn telling_marker(
    alloc: Global,
    covers: &[Cover],
    entries: &[Entry],
    entry: &Entry,
) -> Result<Option<Text>, AllocError> {
    if count_with(entries, entry) < 2 {
        return Ok(None);
    }
    marker_with(alloc, covers, entry)
}

/// What tells an entry from all others.
fn reference_to(
    alloc: Global,
    covers: &[Cover],
    entries: &[Entry],
    entry: &Entry,
) -> Result<Reference, AllocError>
    ensures { IfOk result (λ reference. reference.name ≡ entry.now.name) }
{
    Ok(Reference {
        name: entry.name().clone()?,
        version: telling_version(entries, entry)?,
        marker: telling_marker(alloc, covers, entries, entry)?,
    })
}

/// Refers to each entry on a name that a target of this entry has.
fn refer_to(
    alloc: Global,
    needs: &mut Vec<Reference>,
    covers: &[Cover],
    entries: &[Entry],
    entry: &Entry,
    name: &Name,
) -> Result<(), AllocError>
    ensures { IfOk result (λ _. Refers name.now needs.old.items needs.new.items) }
{
    for other in entries {
        if other.name().is_same(name) && do_share(covers, entry, other) {
            needs.push(reference_to(alloc, covers, entries, other)?)?;
        }
    }
    Ok(())
}

/// Refers to a name: to its entries, or by the name alone if no target of this entry has one.
fn refer_on(
    alloc: Global,
    needs: &mut Vec<Reference>,
    covers: &[Cover],
    entries: &[Entry],
    entry: &Entry,
    name: &Name,
) -> Result<(), AllocError>
    ensures refers { IfOk result (λ _. Refers name.now needs.old.items needs.new.items) }
    ensures some { IfOk result (λ _. length needs.old.items < length needs.new.items) }
{
    let before = needs.len();
    refer_to(alloc, needs, covers, entries, entry, name)?;
    if needs.len() == before {
        needs.push(Reference {
            name: name.clone()?,
            version: None,
            marker: None,
        })?;
    }
    Ok(())
}

/// What an entry needs, each dependency with as much as tells it from others of its name.
fn needs_of(
    alloc: Global,
    covers: &[Cover],
    entries: &[Entry],
    entry: &Entry,
) -> Result<Seq<Reference>, AllocError>
    ensures { IfOk result (λ needs. AreOn entry.now.dependencies needs) }
{
    let names = entry.dependencies();
    let mut needs = Vec::new(alloc);
    for name in names {
        refer_on(alloc, &mut needs, covers, entries, entry, name)?;
    }
    Ok(Seq::from_vec(needs))
}

fn shared(entry: &Entry) -> Result<Entry, AllocError>
    ensures { IfOk result (λ same. same ≡ entry.now) }
{
    Ok(entry.clone()?)
}

/// The package of an entry.
fn package_of(
    alloc: Global,
    covers: &[Cover],
    entries: &[Entry],
    entry: &Entry,
) -> Result<JointPackage, AllocError>
    ensures entry { IfOk result (λ made. made.entry ≡ entry.now) }
    ensures lawful { IfOk result (IsPackageOf covers.now) }
{
    let needs = needs_of(alloc, covers, entries, entry)?;
    let marker = marker_with(alloc, covers, entry)?;
    let entry = shared(entry)?;
    Ok(JointPackage {
        entry,
        needs,
        marker,
    })
}

/// The packages of entries, in their order.
pub(crate) fn joint_packages(
    alloc: Global,
    covers: &[Cover],
    entries: &[Entry],
) -> Result<Seq<JointPackage>, AllocError>
    ensures entries { IfOk result (λ packages. map (λ p. p.entry) packages ≡ entries.now) }
    ensures lawful { IfOk result (λ packages. AllByRecursion (IsPackageOf covers.now) packages) }
{
    let mut packages = Vec::with_capacity(alloc, entries.len())?;
    for entry in entries {
        packages.push(package_of(alloc, covers, entries, entry)?)?;
    }
    Ok(Seq::from_vec(packages))
}
