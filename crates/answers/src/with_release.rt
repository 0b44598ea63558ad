// The best solution that has a release.

ghost use Rattle.std.specs.Prelude.{◌≡◌, IfOk, IfSome};
ghost use Rattle.edits.specs.Questions as questions;
ghost use Rattle.problems.specs.Solutions.{version_for};
ghost use Rattle.answers.specs.WithRelease.{IsBestHaving, has_release};

use edits::{Learning, Name, Refusal, Resolver, Snapshot, State, Target, problem_keeping};
use pep440::Version;
use resolve::Answer;
use std::alloc::Global;
use std::collections::BTreeMap;

/// The best solution of a relock that keeps the release in the place of what the lock has of its name, where that
/// solution has the release. It is asked of the lines as they are: so the release goes with all that is taken
/// before it, and where it is newer than what is locked, an upgrade of its name takes it or a newer one.
pub fn best_keeping(
    alloc: Global,
    state: &State,
    target: &Target,
    name: &Name,
    version: &Version,
    snapshot: &Snapshot,
) -> Result<Option<BTreeMap<Name, Version>>, Refusal>
    ensures { IfOk result (λ best. IfSome best (λ s. IsBestHaving
        (questions.problem_keeping state.now target.now name.now version.now snapshot.now)
        name.now version.now (version_for s.entries))) }
{
    let problem = problem_keeping(alloc, state, target, name, version, snapshot)?;
    match Learning.resolve(alloc, &problem)? {
        Answer::Solution(best) => {
            if has(&best, name, version) {
                Ok(Some(best))
            } else {
                Ok(None)
            }
        }
        Answer::NoSolution => Ok(None),
    }
}

/// Whether a solution has this version of a name.
pub(crate) fn has(solution: &BTreeMap<Name, Version>, name: &Name, version: &Version) -> bool
    ensures { result ≡ has_release (version_for solution.now.entries) name.now version.now }
{
    match solution.get(name) {
        Some(own) => own.cmp(version).is_eq(),
        None => false,
    }
}
