// The present state of a history.

ghost use Rattle.std.specs.Prelude.{◌≡◌, Ok, true};
ghost use Rattle.std.specs.List.{AllByRecursion};
ghost use Rattle.std.specs.Result.{result_map_both};
ghost use Rattle.pep508.specs.Requirement.{file_of};
ghost use Rattle.sha2.specs.Sha256.{sha256};
ghost use Rattle.states.specs.declared.refusal.Refusal.TheVariants as refusals;
ghost use Rattle.states.specs.declared.refusal.SavedFile.TheVariants as files;
ghost use Rattle.journal_format.specs.Lines.{are_targets};
ghost use Rattle.journal.specs.Opens.{Found, Holds, NamesEnvironment, Present, PresentParts, Tells};

use crate::history_reader::locks::{check_locks, targets_of};
use edits::{Cause, Refusal, ReqFile, SavedFile, State, TargetName};
use journal_format::Header;
use lists::Seq;
use sha2::{Digest, Sha256};
use states::{Target, first_unfit};
use std::alloc::Global;
use std::collections::BTreeMap;

/// Checks that the requirements file has this digest.
fn check_requirements(bytes: &[u8], digest: [u8; 32]) -> Result<(), Refusal>
    ensures { Holds (digest ≡ sha256 bytes.now)
        (refusals.FilesDisagree files.Requirements) result }
{
    if Sha256::digest(bytes) != digest {
        return Err(Refusal::FilesDisagree(SavedFile::Requirements));
    }
    Ok(())
}

/// The lines of the requirements file.
fn lines_of(alloc: Global, bytes: &[u8]) -> Result<ReqFile, Refusal>
    ensures { Found
        (λ lines. file_of bytes.now ≡ Ok lines) (refusals.FilesDisagree files.Requirements) result }
{
    match ReqFile::read(alloc, bytes) {
        Ok(lines) => Ok(lines),
        Err(fault) => match fault.cause {
            Cause::OutOfMemory => Err(Refusal::OutOfMemory),
            _ => Err(Refusal::FilesDisagree(SavedFile::Requirements)),
        },
    }
}

/// Checks that the lock names the target's environment.
fn check_environment(alloc: Global, target: &Target) -> Result<(), Refusal>
    ensures { Holds (NamesEnvironment target.now) (refusals.JournalBroken 1) result }
{
    let text = target.environment.marker_text(alloc)?;
    if target.lock.environment() != text.as_str() {
        return Err(Refusal::JournalBroken(1));
    }
    Ok(())
}

/// Checks that each lock names its target's environment.
pub(crate) fn check_environments(alloc: Global, targets: &[Target]) -> Result<(), Refusal>
    ensures { Holds (AllByRecursion NamesEnvironment targets.now) (refusals.JournalBroken 1)
        result }
{
    for place in 0..targets.len() {
        check_environment(alloc, &targets[place])?;
    }
    Ok(())
}

/// The lines and the targets of the present state: the digests of all files agree, all read, and each
/// lock names its target's environment.
fn parts_of(
    alloc: Global,
    header: &Header,
    requirements: &[u8],
    locks: &BTreeMap<TargetName, Seq<u8>>,
) -> Result<(ReqFile, Seq<Target>), Refusal>
    ensures { Tells (PresentParts header.now requirements.now locks.now.entries) (result_map_both
        (λ p. record { lines = p.0; targets = p.1 }) (λ e. e) result) }
{
    check_requirements(requirements, header.requirements)?;
    check_locks(header, locks)?;
    let lines = lines_of(alloc, requirements)?;
    let targets = targets_of(alloc, header.targets.as_slice(), locks)?;
    check_environments(alloc, targets.as_slice())?;
    Ok((lines, targets))
}

/// The present state.
pub(crate) fn present_of(
    alloc: Global,
    header: &Header,
    requirements: &[u8],
    locks: &BTreeMap<TargetName, Seq<u8>>,
) -> Result<State, Refusal>
    requires targets { are_targets header.now.targets ≡ true }
    ensures { Tells (Present header.now requirements.now locks.now.entries) result }
{
    let (lines, targets) = parts_of(alloc, header, requirements, locks)?;
    match first_unfit(alloc, &lines, targets.as_slice())? {
        Some(name) => {
            let name = name.clone()?;
            Err(Refusal::FilesDisagree(SavedFile::Lock(name)))
        }
        None => {
            lines.recall_invariant();
            Ok(State::from_lawful(lines, targets))
        }
    }
}
