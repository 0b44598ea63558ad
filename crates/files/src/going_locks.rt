// The locks that go when a save that was stopped is ended.

ghost use Rattle.std.specs.Prelude.{◌≡◌, ◌⊎◌, [], IfErr, IfOk};
ghost use Rattle.inputs.specs.declared.fault.Fault.TheVariants.{OutOfMemory};
ghost use Rattle.files.specs.TargetLocks.{AreGone, has_gone, has_target, is_told_of, locks_gone, tells_of};

use crate::beside::Beside;
use crate::history_folder::HistoryFolder;
use crate::reading::{file_at_fault, journal_in, names_in};
use edits::{Change, Target, TargetName};
use inputs::{Fault, InputFile};
use journal::Session;
use lists::Seq;
use std::alloc::{AllocError, Global};

/// The locks that are to go before the journal of this history is renamed to its place, where it is.
pub(crate) fn going_where<F: HistoryFolder>(
    folder: &F,
    session: &Session,
    is_journal: bool,
) -> Result<Vec<InputFile>, Fault>
    ensures gone { IfOk result (λ going. AreGone session.now going.items ⊎ (going.items ≡ [])) }
    ensures memory { IfErr result (λ fault. fault ≡ OutOfMemory) }
{
    if is_journal {
        going_with(folder, session)
    } else {
        Ok(Vec::new(folder.alloc()))
    }
}

/// The locks that go with the journal in its place, where that of this history takes its place: of targets that the one in
/// its place has, and of which a step of this history tells that they went. A first lock removes none.
fn going_with<F: HistoryFolder>(folder: &F, session: &Session) -> Result<Vec<InputFile>, Fault>
    ensures gone { IfOk result (λ going. AreGone session.now going.items) }
    ensures memory { IfErr result (λ fault. fault ≡ OutOfMemory) }
{
    let names = standing_names(folder)?;
    let targets = session.state().targets();
    Ok(locks_gone(folder.alloc(), names, targets, session.changes())?)
}

/// The targets that the journal in its place has. One that can't be read has none.
fn standing_names<F: HistoryFolder>(folder: &F) -> Result<Seq<TargetName>, Fault>
    ensures memory { IfErr result (λ fault. fault ≡ OutOfMemory) }
{
    let alloc = folder.alloc();
    match journal_in(folder, &Beside::none(alloc)) {
        Ok(journal) => names_in(alloc, &journal),
        Err(fault) => {
            file_at_fault(fault)?;
            Ok(Seq::new(alloc))
        }
    }
}

/// The locks of those of these names whose targets went, of a history with these targets now and these changes.
fn locks_gone(
    alloc: Global,
    names: Seq<TargetName>,
    targets: &[Target],
    changes: &[Change],
) -> Result<Vec<InputFile>, AllocError>
    ensures { IfOk result (λ files. files.items ≡ locks_gone targets.now changes.now names) }
{
    let mut files = Vec::new(alloc);
    for name in names.into_vec() {
        if has_gone(targets, changes, &name) {
            files.push(InputFile::Lock(name))?;
        }
    }
    Ok(files)
}

/// Whether none of the targets has the name, and a change tells of it.
fn has_gone(targets: &[Target], changes: &[Change], name: &TargetName) -> bool
    ensures { result ≡ has_gone targets.now changes.now name.now }
{
    !has_target(targets, name) && is_told_of(changes, name)
}

/// Whether one of the targets has the name.
fn has_target(targets: &[Target], name: &TargetName) -> bool
    ensures { result ≡ has_target targets.now name.now }
{
    targets
        .iter()
        .any(|target| target.name.as_str() == name.as_str())
}

/// Whether a change tells of the target of the name.
fn is_told_of(changes: &[Change], name: &TargetName) -> bool
    ensures { result ≡ is_told_of changes.now name.now }
{
    changes.iter().any(|change| names_target(change, name))
}

/// Whether this one does.
fn names_target(change: &Change, name: &TargetName) -> bool
    ensures { result ≡ tells_of name.now change.now }
{
    change
        .targets()
        .iter()
        .any(|target| target.name.as_str() == name.as_str())
}
