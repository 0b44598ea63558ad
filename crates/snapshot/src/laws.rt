// Laws of the order of releases and of wheels.

ghost use Rattle.std.specs.Prelude.{◌≡◌, List, find};
ghost use Rattle.std.specs.List.Sorted.{IsStrictlySortedBy};
ghost use Rattle.distributions.specs.declared.file.DistributionFile.{DistributionFile};
ghost use Rattle.snapshot.specs.Files.{has_name_of, listed_wheels, name_cmp, wheels_of};
ghost use Rattle.snapshot.specs.Release.{Release};
ghost use Rattle.snapshot.specs.Releases.{has_version_of, newer_cmp, newest_first};

/// The releases of a package descend by version, so that no two have equal versions; and for each version
/// the release that is there is the first of the listed ones that can be used.
pub fn releases_descend()
    ensures descending { (releases : List Release)
        → IsStrictlySortedBy newer_cmp (newest_first releases) }
    ensures first_listed { (r : Release) (releases : List Release)
        → find (has_version_of r) (newest_first releases) ≡ find (has_version_of r) releases }
{}

/// The wheels of a release ascend by name, so that no two have one name; and for each name the wheel that
/// is there is the first of the listed ones.
pub fn wheels_ascend()
    ensures ascending { (files : List DistributionFile)
        → IsStrictlySortedBy name_cmp (wheels_of files) }
    ensures first_listed { (f : DistributionFile) (files : List DistributionFile)
        → find (has_name_of f) (wheels_of files) ≡ find (has_name_of f) (listed_wheels files) }
{}
