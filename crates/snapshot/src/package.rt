// The packages of an index.

pub(crate) mod reading;

use crate::release::Release;
use crate::skipped::Skipped;
use lists::Seq;
use pep508::Name;

/// A package: its name, and the releases of it that can be used, newest first.
pub struct Package {
    pub(crate) name: Name,
    pub(crate) releases: Seq<Release>,
}

impl Drop for Package {
    fn drop(self) {
        let Package {
            name: _,
            releases: _,
        } = self;
    }
}

/// A package as it was read: with the releases of it that are left out.
#[derive(Drop)]
pub(crate) struct ReadPackage {
    pub(crate) kept: Package,
    pub(crate) skipped: Seq<Skipped>,
}

/// Packages as they were read: with all releases that are left out.
#[derive(Drop)]
pub(crate) struct ReadPackages {
    pub(crate) packages: Seq<Package>,
    pub(crate) skipped: Seq<Skipped>,
}
