// Releases by their versions, and the dependencies of them that count.

ghost use Rattle.std.specs.Prelude.{◌≡◌, find};
ghost use Rattle.std.specs.Option.{option_copied, option_to_list};
ghost use Rattle.problems.specs.Admission.{has_version};
ghost use Rattle.problems.specs.Rules.{counts};

use pep440::Version;
use pep508::{Environment, Name, Requirement};
use snapshot::Release;
use std::slice;

/// Whether a release has a version that equals this one.
pub fn has_version(version: &Version, release: &Release) -> bool
    ensures { result ≡ has_version version.now release.now }
{
    version.cmp(release.version()).is_eq()
}

/// The first of the releases that has the version.
pub(crate) fn release_at<'a>(releases: &'a [Release], version: &Version) -> Option<&'a Release>
    ensures { option_copied result ≡ find (has_version version.now) releases.now }
{
    releases
        .iter()
        .find(|release| has_version(version, release))
}

/// The same alone.
pub(crate) fn with_version<'a>(releases: &'a [Release], version: &Version) -> &'a [Release]
    ensures { result.now ≡ option_to_list (find (has_version version.now) releases.now) }
{
    match release_at(releases, version) {
        Some(release) => slice::from_ref(release),
        None => &[],
    }
}

/// Whether a dependency counts where its release is asked for with an extra or none.
pub fn counts(environment: &Environment, extra: Option<&Name>, wanted: &Requirement) -> bool
    ensures { result ≡ counts environment.now (option_copied extra.entry) wanted.now }
{
    match wanted.marker() {
        None => true,
        Some(marker) => marker.holds(environment, extra),
    }
}
