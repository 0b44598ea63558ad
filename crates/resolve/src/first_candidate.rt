// The first candidate that is admitted.

ghost use Rattle.std.specs.Prelude.{◌≡◌, IfSome, false, find};
ghost use Rattle.std.specs.List.{list_all};
ghost use Rattle.std.specs.Option.{option_copied, option_map};
ghost use Rattle.search.specs.FirstWalk.{IsFirst};
ghost use Rattle.problems.specs.Admission.{admits};
ghost use Rattle.problems.specs.Rules.{is_held, kept_version, rules_of};
ghost use Rattle.resolve.specs.Tied.Choosing.{IsNewest, IsRefusedBy};

use lists::Lent;
use pep440::Version;
use pep508::{Name, Requirement};
use problems::Problem;
use problems::laws::equal_versions_are_alike;
use problems::parts::admits;
use snapshot::Release;

/// The release that has the version kept for a name.
fn kept<'q>(problem: &'q Problem<'_>, name: &Name) -> Option<&'q Release>
    ensures { option_map (λ release. release.version) (option_copied result)
        ≡ kept_version problem.now name.now }
{
    match problem.kept.get(name) {
        None => None,
        Some(version) => problem.release(name, version),
    }
}

/// Whether all that is asked for admits a version.
fn all_admit(problem: &Problem<'_>, asks: &Lent<'_, Requirement>, version: &Version) -> bool
    ensures { result ≡ list_all (λ wanted. admits problem.now wanted version.now) asks.now }
{
    for place in 0..asks.len() {
        if !admits(problem, asks.at(place), version) {
            return false;
        }
    }
    true
}

/// The first of the releases that all admit.
fn first<'q>(
    problem: &Problem<'_>,
    asks: &Lent<'_, Requirement>,
    releases: &'q [Release],
) -> Option<&'q Release>
    ensures { option_copied result
        ≡ find
        (λ release. list_all (λ wanted. admits problem.now wanted release.version) asks.now)
        releases.now }
{
    releases
        .iter()
        .find(|release| all_admit(problem, asks, release.version()))
}

/// The newest version of a name that all admit, where others count beside the kept one.
fn newest_admitted<'q>(
    problem: &'q Problem<'_>,
    name: &Name,
    asks: &Lent<'_, Requirement>,
) -> Option<&'q Version>
    ensures { IfSome result (λ version. (is_held problem.now name.now ≡ false)
        × IsNewest problem.now name.now asks.now version.now) }
{
    if problem.is_held(name) {
        return None;
    }
    match first(problem, asks, problem.releases(name)) {
        None => None,
        Some(release) => Some(release.version()),
    }
}

/// The first candidate of a name that all admit.
pub(crate) fn first_admitted<'q>(
    problem: &'q Problem<'_>,
    name: &Name,
    asks: &Lent<'_, Requirement>,
) -> Option<&'q Version>
    ensures { IfSome result
        (λ version. IsFirst (rules_of problem.now) (IsRefusedBy problem.now asks.now) name.now
        version.now) }
{
    equal_versions_are_alike();
    match kept(problem, name) {
        None => newest_admitted(problem, name, asks),
        Some(release) => {
            if all_admit(problem, asks, release.version()) {
                Some(release.version())
            } else {
                newest_admitted(problem, name, asks)
            }
        }
    }
}
