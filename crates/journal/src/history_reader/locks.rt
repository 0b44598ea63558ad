// The lock files beside a journal.

ghost use Rattle.std.specs.Prelude.{◌≡◌, Ok, option_map};
ghost use Rattle.pylock.specs.LockOfTable.{lock_in_text};
ghost use Rattle.states.specs.declared.refusal.Refusal.TheVariants as refusals;
ghost use Rattle.states.specs.declared.refusal.SavedFile.TheVariants as files;
ghost use Rattle.journal.specs.Locks.{is_kept, lesser, lost_lock, odd_lock, stray_lock};
ghost use Rattle.journal.specs.Opens.{Found, IsReadTarget, TargetsRead, Tells};
ghost use Rattle.journal.specs.Tied.{IsClear};

use edits::{Lock, Refusal, SavedFile, Target, TargetName};
use journal_format::{Header, HeaderTarget};
use lists::Seq;
use pylock::Fault;
use sha2::{Digest, Sha256};
use std::alloc::Global;
use std::collections::BTreeMap;

/// Whether the target's lock file is there, and has its digest.
fn is_kept(locks: &BTreeMap<TargetName, Seq<u8>>, target: &HeaderTarget) -> bool
    ensures { result ≡ is_kept locks.now.entries target.now }
{
    match locks.get(&target.name) {
        Some(bytes) => Sha256::digest(bytes.as_slice()) == target.lock,
        None => false,
    }
}

/// The first target of the header without a lock file, or whose lock file has another digest.
fn lost_lock<'h>(
    header: &'h Header,
    locks: &BTreeMap<TargetName, Seq<u8>>,
) -> Option<&'h TargetName>
    ensures { option_map (λ n. n.now) result ≡ lost_lock header.now locks.now.entries }
{
    let targets = header.targets.as_slice();
    match targets.iter().find(|target| !is_kept(locks, target)) {
        Some(target) => Some(&target.name),
        None => None,
    }
}

/// The first lock file of a target that the header doesn't have.
fn stray_lock<'l>(
    header: &Header,
    locks: &'l BTreeMap<TargetName, Seq<u8>>,
) -> Option<&'l TargetName>
    ensures { option_map (λ n. n.now) result ≡ stray_lock header.now locks.now.entries }
{
    for (name, _text) in locks {
        if !header.has_target(name) {
            return Some(name);
        }
    }
    None
}

/// The lesser of two names by their bytes, or the one that is there.
fn lesser<'n>(name: Option<&'n TargetName>, other: Option<&'n TargetName>) -> Option<&'n TargetName>
    ensures { option_map (λ n. n.now) result
        ≡ lesser (option_map (λ n. n.now) name.entry) (option_map (λ n. n.now) other.entry) }
{
    match (name, other) {
        (Some(name), Some(other)) => {
            if other.cmp(name).is_lt() {
                Some(other)
            } else {
                Some(name)
            }
        }
        (Some(name), None) => Some(name),
        (None, other) => other,
    }
}

/// Checks that each target of the header has its lock file, with its digest, and that there is no other lock
/// file.
pub(crate) fn check_locks(
    header: &Header,
    locks: &BTreeMap<TargetName, Seq<u8>>,
) -> Result<(), Refusal>
    ensures { IsClear (odd_lock header.now locks.now.entries) result }
{
    match lesser(lost_lock(header, locks), stray_lock(header, locks)) {
        Some(name) => {
            let name = name.clone()?;
            Err(Refusal::FilesDisagree(SavedFile::Lock(name)))
        }
        None => Ok(()),
    }
}

/// The lock of a lock file.
fn lock_of(alloc: Global, name: &TargetName, text: &[u8]) -> Result<Lock, Refusal>
    ensures { Found
        (λ lock. lock_in_text text.now ≡ Ok lock)
        (refusals.FilesDisagree (files.Lock name.now)) result }
{
    match Lock::read(alloc, text) {
        Ok(lock) => Ok(lock),
        Err(Fault::OutOfMemory) => Err(Refusal::OutOfMemory),
        Err(_) => {
            let name = name.clone()?;
            Err(Refusal::FilesDisagree(SavedFile::Lock(name)))
        }
    }
}

/// The target of the header with the lock of its lock file.
fn target_of(
    alloc: Global,
    given: &HeaderTarget,
    locks: &BTreeMap<TargetName, Seq<u8>>,
) -> Result<Target, Refusal>
    ensures { Found (IsReadTarget locks.now.entries given.now)
        (refusals.FilesDisagree (files.Lock given.now.name)) result }
{
    let Some(text) = locks.get(&given.name) else {
        let name = given.name.clone()?;
        return Err(Refusal::FilesDisagree(SavedFile::Lock(name)));
    };
    let lock = lock_of(alloc, &given.name, text.as_slice())?;
    let name = given.name.clone()?;
    let environment = given.environment.clone()?;
    Ok(Target {
        name,
        environment,
        lock,
    })
}

/// Each target of the header with the lock of its lock file.
pub(crate) fn targets_of(
    alloc: Global,
    given: &[HeaderTarget],
    locks: &BTreeMap<TargetName, Seq<u8>>,
) -> Result<Seq<Target>, Refusal>
    ensures { Tells (TargetsRead locks.now.entries given.now) result }
{
    let mut targets = Vec::with_capacity(alloc, given.len())?;
    for place in 0..given.len() {
        let target = target_of(alloc, &given[place], locks)?;
        targets.push(target)?;
    }
    Ok(Seq::from_vec(targets))
}
