// Why a requirement doesn't admit a release of its name. None of it has a refusal.

ghost use Rattle.std.specs.Prelude.{◌≡◌, MatchOption, false, true};
ghost use Rattle.pep440.specs.Matching.{matches};
ghost use Rattle.problems.specs.Admission.{admits_release, fits};
ghost use Rattle.problems.specs.Reasons as spec;

use crate::admission::{meets_python, takes_pre, takes_yanked};
use crate::inadmissible::Inadmissible;
use crate::problem::Problem;
use pep440::{Clause, Version};
use pep508::Requirement;
use snapshot::Release;

/// The place of the first of the clauses that the version doesn't match.
fn unmatched(clauses: &[Clause], version: &Version) -> Option<usize>
    ensures { MatchOption result (matches clauses.now version.now ≡ true)
        (spec.IsFirstUnmatched clauses.now version.now) }
{
    for place in 0..clauses.len() {
        if !clauses[place].matches(version) {
            return Some(place);
        }
    }
    None
}

/// Whether a release is yanked, and yanked ones don't count.
fn lacks_pin(problem: &Problem<'_>, wanted: &Requirement, release: &Release) -> bool
    ensures { result ≡ spec.lacks_pin problem.now wanted.now release.now }
{
    release.yanked() && !takes_yanked(problem, wanted)
}

/// Whether a release is a pre-release, and pre-releases don't count.
fn is_early(problem: &Problem<'_>, wanted: &Requirement, release: &Release) -> bool
    ensures { result ≡ spec.is_early problem.now wanted.now release.now }
{
    release.version().is_pre() && !takes_pre(problem, wanted)
}

/// Why a release that fits isn't admitted.
fn left_out(problem: &Problem<'_>, wanted: &Requirement, release: &Release) -> Option<Inadmissible>
    ensures { MatchOption result
        ((spec.lacks_pin problem.now wanted.now release.now ≡ false)
        × (spec.is_early problem.now wanted.now release.now ≡ false))
        (λ reason. fits problem.now.environment wanted.now release.now ≡ true
        → spec.IsReason problem.now wanted.now release.now reason) }
{
    let early = is_early(problem, wanted, release);
    if lacks_pin(problem, wanted, release) {
        if early {
            return Some(Inadmissible::YankedPreRelease);
        }
        return Some(Inadmissible::Yanked);
    }
    if early {
        return Some(Inadmissible::PreRelease);
    }
    None
}

/// Why a requirement doesn't admit a release of its name; nothing exactly where it admits it.
pub fn inadmissible(
    problem: &Problem<'_>,
    wanted: &Requirement,
    release: &Release,
) -> Option<Inadmissible>
    ensures { MatchOption result (admits_release problem.now wanted.now release.now ≡ true)
        (spec.IsReason problem.now wanted.now release.now) }
{
    if let Some(place) = unmatched(wanted.specifiers().clauses(), release.version()) {
        return Some(Inadmissible::Clause(place));
    }
    if !meets_python(&problem.environment, release.requires_python()) {
        return Some(Inadmissible::Python);
    }
    left_out(problem, wanted, release)
}
