// Targets: named environments, each with its lock.

ghost use Rattle.std.specs.Prelude.{◌≡◌, IfOk, OnOk};
ghost use Rattle.std.specs.BTreeMap.{insert_entry};
ghost use Rattle.std.specs.Cmp.Lexicographic.{slice_cmp};
ghost use Rattle.std.specs.Option.{option_copied};
ghost use Rattle.std.specs.Ordering.{nat_cmp};
ghost use Rattle.problems.specs.Solutions.{version_for};
ghost use Rattle.states.specs.Locks.{is_other, locks_another, versions_of};
ghost use Rattle.states.specs.State.{entry_on};

use crate::state::lock_for_lines::entry_on;
use crate::target_name::TargetName;
use lists::Faithful;
use pep440::Version;
use pep508::{Environment, Name};
use pylock::{Entry, Lock};
use std::alloc::{AllocError, Global};
use std::collections::BTreeMap;

/// An environment, its name and its lock.
pub struct Target {
    /// The name, by which the target stands in the journal, and by which its lock's file is named.
    pub name: TargetName,
    /// The environment that the lock is made for.
    pub environment: Environment,
    /// The lock.
    pub lock: Lock,
}

impl Drop for Target {
    fn drop(self) {
        let Target {
            name: _,
            environment: _,
            lock: _,
        } = self;
    }
}

/// Inserts the version of the entry, by its name.
fn insert_version(versions: &mut BTreeMap<Name, Version>, entry: &Entry) -> Result<(), AllocError>
    ensures { OnOk result (versions.new.entries
        ≡ insert_entry (slice_cmp nat_cmp) versions.old.entries entry.now.name entry.now.version) }
{
    let name = entry.name().clone()?;
    let version = entry.version().clone()?;
    versions.insert(name, version)?;
    Ok(())
}

/// The versions of the entries, by their names.
fn versions_of(alloc: Global, lock: &Lock) -> Result<BTreeMap<Name, Version>, AllocError>
    ensures { IfOk result (λ versions. versions.entries ≡ versions_of lock.now.entries) }
{
    lock.recall_invariant();
    let entries = lock.entries();
    let mut versions = BTreeMap::new(alloc);
    for entry in entries {
        insert_version(&mut versions, entry)?;
    }
    Ok(versions)
}

/// Whether a version is locked that isn't the one that is asked about.
fn is_other(asked: &Option<Version>, locked: Option<&Version>) -> bool
    ensures { result ≡ is_other asked.now (option_copied locked.entry) }
{
    match (locked, asked) {
        (Some(locked), Some(version)) => !version.cmp(locked).is_eq(),
        (Some(_), None) => true,
        (None, _) => false,
    }
}

impl Target {
    /// The entry of the name.
    pub fn entry(&self, name: &Name) -> Option<&Entry>
        ensures { option_copied result ≡ entry_on self.now.lock.entries name.now }
    {
        self.lock.recall_invariant();
        entry_on(self.lock.entries(), name)
    }

    /// The locked version of the name.
    pub fn locked(&self, name: &Name) -> Option<&Version>
        ensures { option_copied result ≡ version_for (versions_of self.now.lock.entries) name.now }
    {
        self.lock.recall_invariant();
        let Some(entry) = entry_on(self.lock.entries(), name) else {
            return None;
        };
        Some(entry.version())
    }

    /// Whether the name is locked, and not at this version, if one is given.
    pub fn locks_another(&self, name: &Name, version: &Option<Version>) -> bool
        ensures { result ≡ locks_another self.now name.now version.now }
    {
        is_other(version, self.locked(name))
    }

    /// The locked versions by their names, to be kept by a later lock.
    pub fn kept(&self, alloc: Global) -> Result<BTreeMap<Name, Version>, AllocError>
        ensures { IfOk result (λ kept. kept.entries ≡ versions_of self.now.lock.entries) }
    {
        versions_of(alloc, &self.lock)
    }
}

impl Clone for Target {
    ghost is_clone = { λ s t. t ≡ s };

    fn clone(&self) -> Result<Target, AllocError> {
        let name = self.name.clone()?;
        let environment = self.environment.clone()?;
        let lock = self.lock.clone()?;
        Ok(Target {
            name,
            environment,
            lock,
        })
    }
}

impl Faithful for Target {
    ghost clone_is_source = { λ x y h. h };
}
