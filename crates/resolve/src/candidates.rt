// The candidates of a name, by the places of its releases.

ghost use Rattle.std.specs.Prelude.{◌≡◌, ◌<◌, IfOk, IfSome, length};
ghost use Rattle.std.specs.List.{position};
ghost use Rattle.std.specs.Option.{option_map, option_to_list};
ghost use Rattle.problems.specs.Admission.{has_version};
ghost use Rattle.problems.specs.Problem.{releases_on};
ghost use Rattle.problems.specs.Rules.{kept_version};
ghost use Rattle.resolve.specs.Tied.Places.{AreCandidates, version_at};

use lists::Seq;
use pep440::Version;
use pep508::Name;
use problems::Problem;
use problems::parts::has_version;
use snapshot::Release;
use std::alloc::{AllocError, Global};

/// The place of the first release that has the version.
fn place_of(releases: &[Release], version: &Version) -> Option<usize>
    ensures { result ≡ position (has_version version.now) releases.now }
{
    releases
        .iter()
        .position(|release| has_version(version, release))
}

/// The place of the release that has the version kept for the name.
fn kept_place(problem: &Problem<'_>, name: &Name) -> Option<usize>
    ensures version { option_map (version_at (releases_on problem.now name.now)) result
        ≡ kept_version problem.now name.now }
    ensures within { IfSome result (λ place. place < length (releases_on problem.now name.now)) }
{
    match problem.kept.get(name) {
        None => None,
        Some(version) => place_of(problem.releases(name), version),
    }
}

/// The place that is kept, if there is one, in a list with room for so many.
fn first_place(alloc: Global, room: usize, kept: Option<usize>) -> Result<Vec<usize>, AllocError>
    ensures { IfOk result (λ places. places.items ≡ option_to_list kept) }
{
    let mut places = Vec::with_capacity(alloc, room)?;
    if let Some(place) = kept {
        places.push(place)?;
    }
    Ok(places)
}

/// The places of a name's candidates, in the order in which they are preferred: the release that has the
/// version kept for the name, and then, unless none counts beside it, the others from newest to oldest.
pub(crate) fn candidates(
    alloc: Global,
    problem: &Problem<'_>,
    name: &Name,
) -> Result<Seq<usize>, AllocError>
    ensures { IfOk result (AreCandidates problem.now name.now) }
{
    let releases = problem.releases(name);
    let kept = kept_place(problem, name);
    if problem.is_held(name) {
        return Ok(Seq::from_vec(first_place(alloc, 1, kept)?));
    }
    let mut places = first_place(alloc, releases.len(), kept)?;
    for place in 0..releases.len() {
        if Some(place) != kept {
            places.push(place)?;
        }
    }
    Ok(Seq::from_vec(places))
}
