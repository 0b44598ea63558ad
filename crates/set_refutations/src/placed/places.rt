// Releases by their places in an index.

use lists::{Bits, Seq};
use pep440::Version;
use pep508::Name;
use problems::Problem;
use snapshot::Release;
use std::alloc::{AllocError, Global};

/// Whether the release at a place has the version.
fn is_at(releases: &[Release], place: usize, version: &Version) -> bool {
    match releases.get(place) {
        Some(release) => release.version().cmp(version).is_eq(),
        None => false,
    }
}

/// The place of the release that has a version, which is looked for at a place first. Releases are listed newest first.
pub fn place_of(releases: &[Release], version: &Version, first: usize) -> Option<usize> {
    if is_at(releases, first, version) {
        return Some(first);
    }
    let place = releases.partition_point(|release| release.version().cmp(version).is_gt());
    if is_at(releases, place, version) {
        return Some(place);
    }
    None
}

/// The places of the releases that have these versions. Mostly the versions stand in the order of the
/// releases, so each is looked for behind the last one first.
pub(crate) fn places_of(
    alloc: Global,
    releases: &[Release],
    versions: &[Version],
) -> Result<Bits, AllocError> {
    let mut places = Bits::new(alloc);
    let mut behind = 0;
    for version in versions {
        if let Some(place) = place_of(releases, version, behind) {
            places.insert(place)?;
            behind = place.saturating_add(1);
        }
    }
    Ok(places)
}

/// The versions of the releases at these places.
pub(crate) fn versions_at(
    alloc: Global,
    releases: &[Release],
    places: &Bits,
) -> Result<Seq<Version>, AllocError> {
    let mut versions = Vec::new(alloc);
    let listed = places.places(alloc)?;
    for place in listed.as_slice() {
        if let Some(release) = releases.get(*place) {
            versions.push(release.version().clone()?)?;
        }
    }
    Ok(Seq::from_vec(versions))
}

/// The places of the releases of a name that are candidates.
pub fn candidate_places(
    alloc: Global,
    problem: &Problem<'_>,
    name: &Name,
) -> Result<Bits, AllocError> {
    let releases = problem.releases(name);
    let mut places = Bits::new(alloc);
    let mut behind = 0;
    for release in problem.eligible(name) {
        if let Some(place) = place_of(releases, release.version(), behind) {
            places.insert(place)?;
            behind = place.saturating_add(1);
        }
    }
    Ok(places)
}
