// Whether targets fit lines, and the state that they make.

ghost use Rattle.std.specs.Prelude.{◌≡◌, ◌↔◌, IfOk, IsTrue, MatchOption};
ghost use Rattle.std.specs.List.{AllByRecursion};
ghost use Rattle.states.specs.State.{Fits, IsFirstUnfit, IsState};
ghost use Rattle.states.specs.StateParts.{StateParts, digest_of};

use crate::state::State;
use crate::state::lock_for_lines::is_lock_for;
use crate::target::Target;
use crate::target_name::TargetName;
use lists::{Named, Seq, rises};
use pep508::ReqFile;
use std::alloc::{AllocError, Global};

impl Named for Target {
    ghost named = { λ t. t.name };

    fn text(&self) -> &str {
        self.name.as_str()
    }
}

/// Whether the target's lock is one for the lines, and has the digest.
fn fits(
    alloc: Global,
    lines: &ReqFile,
    digest: [u8; 32],
    target: &Target,
) -> Result<bool, AllocError>
    ensures { IfOk result (λ is. IsTrue is ↔ Fits lines.now digest target.now) }
{
    if target.lock.snapshot() != digest {
        return Ok(false);
    }
    is_lock_for(alloc, lines, &target.environment, &target.lock)
}

/// The name of the first target that doesn't fit the lines with the digest.
fn unfit_for<'t>(
    alloc: Global,
    lines: &ReqFile,
    digest: [u8; 32],
    targets: &'t [Target],
) -> Result<Option<&'t TargetName>, AllocError>
    ensures { IfOk result (λ unfit. MatchOption unfit
        (AllByRecursion (Fits lines.now digest) targets.now)
        (λ name. IsFirstUnfit lines.now digest targets.now name.now)) }
{
    for target in targets {
        if !fits(alloc, lines, digest, target)? {
            return Ok(Some(&target.name));
        }
    }
    Ok(None)
}

/// The name of the first target whose lock isn't one for the lines in its environment, or has another
/// digest than the lock of the first target; `None` where all fit.
pub fn first_unfit<'t>(
    alloc: Global,
    lines: &ReqFile,
    targets: &'t [Target],
) -> Result<Option<&'t TargetName>, AllocError>
    ensures { IfOk result (λ unfit. MatchOption unfit
        (AllByRecursion (Fits lines.now (digest_of targets.now)) targets.now)
        (λ name. IsFirstUnfit lines.now (digest_of targets.now) targets.now name.now)) }
{
    match targets {
        [] => Ok(None),
        [first, ..] => unfit_for(alloc, lines, first.lock.snapshot(), targets),
    }
}

/// Whether all targets fit the lines.
fn do_fit(alloc: Global, lines: &ReqFile, targets: &[Target]) -> Result<bool, AllocError>
    ensures { IfOk result (λ are. IsTrue are
        ↔ AllByRecursion (Fits lines.now (digest_of targets.now)) targets.now) }
{
    match first_unfit(alloc, lines, targets)? {
        Some(_) => Ok(false),
        None => Ok(true),
    }
}

/// The state of these lines and these targets; `None` where they make none: where there is no target,
/// names don't rise, or a target doesn't fit the lines.
pub(crate) fn state_of(
    alloc: Global,
    lines: ReqFile,
    targets: Seq<Target>,
) -> Result<Option<State>, AllocError>
    ensures { IfOk result (λ made.
        let parts : StateParts = record { lines = lines; targets = targets } in
        MatchOption made (IsState parts → ⊥) (λ state. state ≡ parts)) }
{
    if targets.is_empty() || !rises(targets.as_slice()) {
        return Ok(None);
    }
    if !do_fit(alloc, &lines, targets.as_slice())? {
        return Ok(None);
    }
    lines.recall_invariant();
    Ok(Some(State::from_lawful(lines, targets)))
}
