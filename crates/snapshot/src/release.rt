// The releases of a package.

ghost use Rattle.std.specs.Prelude.{◌≡◌, refl};
ghost use Rattle.std.specs.Cmp.{eq_by_cmp_equiv, partial_equiv_from_equiv, partial_order_from_total};
ghost use Rattle.std.specs.Option.{option_copied};
ghost use Rattle.std.specs.Ordering.{as_partial_cmp, eq_by_cmp};
ghost use Rattle.snapshot.specs.Lawful.{IsRelease};

pub(crate) mod reading;

use crate::chosen::Chosen;
use distributions::DistributionFile;
use lists::Seq;
use pep440::{RequiresPython, Version};
use pep508::Requirement;
use std::cmp::Ordering;
use std::marker::Model;

/// A release that can be used.
pub struct Release {
    version: Version,
    requires_python: Option<RequiresPython>,
    dependencies: Seq<Requirement>,
    yanked: bool,
    sdist: Option<DistributionFile>,
    wheels: Seq<DistributionFile>,
}

impl Drop for Release {
    fn drop(self) {
        let Release {
            version: _,
            requires_python: _,
            dependencies: _,
            yanked: _,
            sdist: _,
            wheels: _,
        } = self;
    }
}

impl Model for Release {
    ghost use Rattle.std.specs.Coded.{codes};
    ghost use Rattle.markers.specs.Tied.MarkerCode.{tree_code};
    ghost use Rattle.snapshot.specs.Lawful.{IsRelease};
    ghost use Rattle.snapshot.specs.Release.{Release};

    ghost Value = { Release };

    ghost coded = { Prim.hlevel (codes, tree_code) };

    ghost view = { λ r. record {
      version = r.version;
      requires_python = r.requires_python;
      dependencies = r.dependencies;
      yanked = r.yanked;
      sdist = r.sdist;
      wheels = r.wheels;
    } };

    ghost invariant = { λ r. IsRelease (record {
      version = r.version;
      requires_python = r.requires_python;
      dependencies = r.dependencies;
      yanked = r.yanked;
      sdist = r.sdist;
      wheels = r.wheels;
    }) };
}

impl Release {
    pub(crate) fn new(
        version: Version,
        requires_python: Option<RequiresPython>,
        dependencies: Seq<Requirement>,
        yanked: bool,
        files: Chosen,
    ) -> Release
        requires { IsRelease (record {
          version = version;
          requires_python = requires_python;
          dependencies = dependencies;
          yanked = yanked;
          sdist = files.sdist;
          wheels = files.wheels;
        }) }
        ensures { result ≡ record {
          version = version;
          requires_python = requires_python;
          dependencies = dependencies;
          yanked = yanked;
          sdist = files.sdist;
          wheels = files.wheels;
        } }
    {
        Release {
            version,
            requires_python,
            dependencies,
            yanked,
            sdist: files.sdist,
            wheels: files.wheels,
        }
    }

    /// The version of the release.
    pub fn version(&self) -> &Version
        ensures { result.now ≡ self.now.version }
    {
        &self.version
    }

    /// The Python versions that it asks for; none where it asks for none.
    pub fn requires_python(&self) -> Option<&RequiresPython>
        ensures { option_copied result ≡ self.now.requires_python }
    {
        self.requires_python.as_ref()
    }

    /// What it depends on, in the order in which the index lists it.
    pub fn dependencies(&self) -> &[Requirement]
        ensures { result.now ≡ self.now.dependencies }
    {
        self.dependencies.as_slice()
    }

    /// Whether it was taken back (PEP 592).
    pub fn yanked(&self) -> bool
        ensures { result ≡ self.now.yanked }
    {
        self.yanked
    }

    /// The source distribution, if there is one.
    pub fn sdist(&self) -> Option<&DistributionFile>
        ensures { option_copied result ≡ self.now.sdist }
    {
        self.sdist.as_ref()
    }

    /// The wheels by name, in the order of bytes; no two have one name.
    pub fn wheels(&self) -> &[DistributionFile]
        ensures { result.now ≡ self.now.wheels }
    {
        self.wheels.as_slice()
    }

    /// What holds of every release that can be used.
    pub fn recall_invariant(&self)
        ensures { IsRelease self.now }
    {
        let _yanked = &self.yanked;
    }
}

/// A release in the order of a package's releases, in which the newest is first.
#[derive(Drop)]
pub(crate) struct Newest {
    release: Release,
}

impl Model for Newest {
    ghost use Rattle.std.specs.Coded.{codes};
    ghost use Rattle.markers.specs.Tied.MarkerCode.{tree_code};
    ghost use Rattle.snapshot.specs.Release.{Release};

    ghost Value = { Release };

    ghost coded = { Prim.hlevel (codes, tree_code) };

    ghost view = { λ n. n.release };
}

impl Newest {
    pub(crate) fn new(release: Release) -> Newest
        ensures { result ≡ release }
    {
        Newest { release }
    }

    pub(crate) fn into_release(self) -> Release
        ensures { result ≡ self }
    {
        self.release
    }
}

impl PartialEq for Newest {
    ghost use Rattle.snapshot.specs.Releases.{newer_cmp};
    ghost use Rattle.snapshot.specs.Tied.OrderLaws.{newer_total};

    ghost eq = { eq_by_cmp newer_cmp };

    ghost laws = { partial_equiv_from_equiv (eq_by_cmp_equiv newer_total) };

    fn eq(&self, other: &Newest) -> bool {
        self.cmp(other).is_eq()
    }
}

impl Eq for Newest {
    ghost use Rattle.snapshot.specs.Tied.OrderLaws.{newer_total};

    ghost laws = { eq_by_cmp_equiv newer_total };
}

impl PartialOrd for Newest {
    ghost use Rattle.snapshot.specs.Releases.{newer_cmp};
    ghost use Rattle.snapshot.specs.Tied.OrderLaws.{newer_total};

    ghost partial_cmp = { as_partial_cmp newer_cmp };

    ghost laws = { partial_order_from_total newer_total };

    fn partial_cmp(&self, other: &Newest) -> Option<Ordering> {
        Some(self.cmp(other))
    }
}

impl Ord for Newest {
    ghost use Rattle.snapshot.specs.Releases.{newer_cmp};
    ghost use Rattle.snapshot.specs.Tied.OrderLaws.{newer_total};

    ghost cmp = { newer_cmp };

    ghost total = { newer_total };

    ghost matches_partial_cmp = { λ a b. refl };

    ghost matches_eq = { λ a b. refl };

    fn cmp(&self, other: &Newest) -> Ordering {
        other.release.version().cmp(self.release.version())
    }
}
