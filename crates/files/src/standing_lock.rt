// A file that stands in the place of a lock that comes.

ghost use Rattle.std.specs.Prelude.{◌≡◌, IfOk, map};
ghost use Rattle.files.specs.TargetLocks.{AreNamesNow, IsOfComing, coming, does_come, is_among};

use crate::history_folder::HistoryFolder;
use edits::{Target, TargetName};
use inputs::{Fault, InputFile};
use journal::Session;
use std::alloc::{AllocError, Global};

/// The names of the targets of the present state.
pub fn target_names(alloc: Global, session: &Session) -> Result<Vec<TargetName>, AllocError>
    ensures { IfOk result (λ names. AreNamesNow session.now names.items) }
{
    let targets = session.state().targets();
    let mut names = Vec::with_capacity(alloc, targets.len())?;
    for target in targets {
        names.push(target.name.clone()?)?;
    }
    Ok(names)
}

/// The name of the first target that comes, beside those of these names, in the place of whose lock another file stands: a
/// save would overwrite that one, and nobody would have it any more.
pub fn standing_lock<F: HistoryFolder>(
    folder: &F,
    before: &[TargetName],
    session: &Session,
) -> Result<Option<TargetName>, Fault>
    ensures { IfOk result (λ name. IsOfComing before.now session.now name) }
{
    let coming = coming(folder.alloc(), before, session.state().targets())?;
    for place in 0..coming.len() {
        let target = coming[place];
        if is_taken(folder, target)? {
            return Ok(Some(target.name.clone()?));
        }
    }
    Ok(None)
}

/// The targets that come, beside those of these names.
fn coming<'a>(
    alloc: Global,
    before: &[TargetName],
    targets: &'a [Target],
) -> Result<Vec<&'a Target>, AllocError>
    ensures { IfOk result (λ found. map (λ t. t.now) found.items ≡ coming before.now targets.now) }
{
    let mut found = Vec::new(alloc);
    for target in targets {
        if does_come(before, target) {
            found.push(target)?;
        }
    }
    Ok(found)
}

/// Whether none of these names is the target's.
fn does_come(before: &[TargetName], target: &Target) -> bool
    ensures { result ≡ does_come before.now target.now }
{
    !is_among(before, target.name.as_str())
}

/// Whether one of these names is this one.
fn is_among(names: &[TargetName], name: &str) -> bool
    ensures { result ≡ is_among names.now name.now }
{
    names.iter().any(|other| other.as_str() == name)
}

/// Whether something else than this lock stands in its place. What can't be told here, the save tells.
fn is_taken<F: HistoryFolder>(folder: &F, target: &Target) -> Result<bool, Fault> {
    let file = InputFile::Lock(target.name.clone()?);
    if !folder.stands(&file, false)? {
        return Ok(false);
    }
    let lock = target.lock.print(folder.alloc())?;
    match folder.read(file, false) {
        Ok(bytes) => Ok(bytes.as_slice() != lock.as_bytes()),
        Err(Fault::OutOfMemory) => Err(Fault::OutOfMemory),
        Err(_) => Ok(true),
    }
}
