// Targets: environments with names, the locks of states by these names, and their files.

use edits::{Environment, Lock, Refusal, State, TargetName, Targets};
use journal::Journal;
use lists::{Seq, Text};
use std::alloc::{AllocError, Global};
use std::collections::BTreeMap;

/// The one target of this environment, whose name is empty.
pub fn unnamed(alloc: Global, environment: Environment) -> Result<Targets, Refusal> {
    let mut targets = Vec::new(alloc);
    targets.push((TargetName::empty(alloc), environment))?;
    Targets::new(alloc, Seq::from_vec(targets))
}

/// Copies of these targets.
pub fn copies(alloc: Global, named: &[(TargetName, Environment)]) -> Result<Targets, Refusal> {
    let mut targets = Vec::new(alloc);
    for (name, environment) in named {
        targets.push((name.clone()?, environment.clone()?))?;
    }
    Targets::new(alloc, Seq::from_vec(targets))
}

/// Copies of the targets of a state, without their locks.
pub fn targets_of(alloc: Global, state: &State) -> Result<Targets, Refusal> {
    let mut targets = Vec::new(alloc);
    for target in state.targets() {
        targets.push((target.name.clone()?, target.environment.clone()?))?;
    }
    Targets::new(alloc, Seq::from_vec(targets))
}

/// Copies of the locks of a state.
pub fn locks_of(alloc: Global, state: &State) -> Result<Seq<Lock>, AllocError> {
    let mut locks = Vec::new(alloc);
    for target in state.targets() {
        locks.push(target.lock.clone()?)?;
    }
    Ok(Seq::from_vec(locks))
}

/// The journal of this text.
pub fn journal_of(alloc: Global, text: &str) -> Result<Journal, AllocError> {
    let bytes = Vec::from_slice(alloc, text.as_bytes())?;
    Journal::read(alloc, Seq::from_vec(bytes))
}

/// The bytes of lock files.
pub fn bytes_of(
    alloc: Global,
    locks: &BTreeMap<TargetName, Text>,
) -> Result<BTreeMap<TargetName, Seq<u8>>, AllocError> {
    let mut files = BTreeMap::new(alloc);
    for (name, text) in locks {
        let bytes = Vec::from_slice(alloc, text.as_str().as_bytes())?;
        files.insert(name.clone()?, Seq::from_vec(bytes))?;
    }
    Ok(files)
}
