// The index.

ghost use Rattle.std.specs.Prelude.{◌≡◌, ◌⊎◌, Err, IfErr, IfOk, Ok, length, option_map};
ghost use Rattle.std.specs.List.{slice_get};
ghost use Rattle.std.specs.Option.{option_copied};
ghost use Rattle.std.specs.List.Sorted.{IsStrictlySortedBy};
ghost use Rattle.lists.specs.Answers.{Answers};
ghost use Rattle.serde_json.specs.View.{view};
ghost use Rattle.snapshot.specs.Packages.{json_of, releases_of, repeated_names, snapshot_of, unless_repeated};
ghost use Rattle.snapshot.specs.Tied.Meaning.{packages_in_bytes};
ghost use Rattle.snapshot.specs.Tied.Places.{ArePlaces};
ghost use Rattle.snapshot.specs.Releases.{newer_cmp};
ghost use Rattle.snapshot.specs.Shape.{Gives};
ghost use Rattle.snapshot.specs.declared.fault.Fault.TheVariants.{OutOfMemory};

use crate::fault::Fault;
use crate::package::reading::packages_of;
use crate::package::{Package, ReadPackages};
use crate::pass;
use crate::release::Release;
use crate::skipped::Skipped;
use lists::Seq;
use pep508::Name;
use serde_json::Value;
use sha2::{Digest, Sha256};
use std::alloc::Global;
use std::collections::BTreeMap;
use std::marker::Model;

/// The index: packages, each with its name and the releases of it that can be used, newest
/// first. In a clause it is its packages and the releases that are left out, in the order in which the
/// JSON text lists them, and the digest of its bytes.
pub struct Snapshot {
    packages: Seq<Package>,
    skipped: Seq<Skipped>,
    digest: [u8; 32],
    places: BTreeMap<String, usize>,
}

impl Drop for Snapshot {
    fn drop(self) {
        let Snapshot {
            packages: _,
            skipped: _,
            digest: _,
            places: _,
        } = self;
    }
}

impl Model for Snapshot {
    ghost use Rattle.std.specs.Coded.{codes};
    ghost use Rattle.markers.specs.Tied.MarkerCode.{tree_code};
    ghost use Rattle.snapshot.specs.Packages.{Index};
    ghost use Rattle.snapshot.specs.Tied.Places.{AllFall, ArePlaces};

    ghost Value = { Index };

    ghost coded = { Prim.hlevel (codes, tree_code) };

    ghost view = { λ s. record { packages = s.packages; skipped = s.skipped; digest = s.digest } };

    ghost invariant = { λ s. record {
      places : ArePlaces s.places s.packages;
      fall : AllFall s.packages;
    } };
}

/// The JSON value of the bytes.
#[tactic(auto, unfolding(crate::specs::Packages::json_of))]
fn json_of(alloc: Global, bytes: &[u8]) -> Result<Value, Fault>
    ensures { Gives view (json_of bytes.now) result }
{
    match Value::from_slice(alloc, bytes) {
        Ok(value) => Ok(value),
        Err(error) => {
            if error.is_memory() {
                return Err(Fault::OutOfMemory);
            }
            Err(Fault::NotJson)
        }
    }
}

/// The packages that the bytes of a JSON text list. Where one pass can't tell, its JSON value does.
fn read_packages(alloc: Global, bytes: &[u8]) -> Result<ReadPackages, Fault>
    ensures { Gives (λ p. p) (packages_in_bytes bytes.now) result }
{
    if let Some(read) = pass::packages_of(alloc, bytes) {
        return Ok(read);
    }
    let value = json_of(alloc, bytes)?;
    packages_of(alloc, value)
}

/// The place of each package, by its name.
fn places_of(alloc: Global, packages: &[Package]) -> Result<BTreeMap<String, usize>, Fault>
    ensures distinct { IfOk result (λ _. unless_repeated (repeated_names packages.now) ≡ Ok tt) }
    ensures places { IfOk result (λ places. ArePlaces places packages.now) }
    ensures err { IfErr result (λ e.
        (e ≡ OutOfMemory) ⊎ (unless_repeated (repeated_names packages.now) ≡ Err e)) }
{
    let mut places = BTreeMap::new(alloc);
    for place in 0..packages.len() {
        let name = &packages[place].name;
        if places.contains_key(name.normal()) {
            return Err(Fault::DuplicatePackage(name.clone()?));
        }
        places.insert(String::from_str(alloc, name.normal())?, place)?;
    }
    Ok(places)
}

impl Snapshot {
    /// The index that the bytes of a JSON text hold.
    ///
    /// `NotJson` where the bytes aren't UTF-8 or no JSON. `Shape` with a JSON Pointer to the first
    /// value that hasn't the shape which the format asks for. `DuplicatePackage` with the first
    /// name that a package before it has too.
    #[tactic(auto, unfolding(crate::specs::Packages::snapshot_of))]
    pub fn read(alloc: Global, bytes: &[u8]) -> Result<Snapshot, Fault>
        ensures { Answers OutOfMemory (snapshot_of bytes.now) result }
    {
        let read = read_packages(alloc, bytes)?;
        let places = places_of(alloc, read.packages.as_slice())?;
        let ReadPackages { packages, skipped } = read;
        Ok(Snapshot {
            packages,
            skipped,
            digest: Sha256::digest(bytes),
            places,
        })
    }

    /// The releases of a package that can be used, newest first, no two of equal versions; none where the index has
    /// no package of that name.
    pub fn releases(&self, name: &Name) -> &[Release]
        ensures listed { result.now ≡ releases_of name.now self.now.packages }
        ensures fall { IsStrictlySortedBy newer_cmp result.now }
    {
        match self.places.get(name.normal()) {
            Some(place) => self.packages.as_slice()[*place].releases.as_slice(),
            None => &[],
        }
    }

    /// How many packages the index has.
    pub fn package_count(&self) -> usize
        ensures { result ≡ length self.now.packages }
    {
        self.packages.len()
    }

    /// The name of the package at a place of the index, from 0.
    pub fn name_at(&self, place: usize) -> Option<&Name>
        ensures { option_copied result
            ≡ option_map (λ p. p.name) (slice_get self.now.packages place) }
    {
        match self.packages.as_slice().get(place) {
            Some(package) => Some(&package.name),
            None => None,
        }
    }

    /// The releases that are left out, in the order of the index.
    pub fn skipped(&self) -> &[Skipped]
        ensures { result.now ≡ self.now.skipped }
    {
        self.skipped.as_slice()
    }

    /// The SHA-256 digest of the bytes that were read.
    pub fn digest(&self) -> [u8; 32]
        ensures { result ≡ self.now.digest }
    {
        self.digest
    }
}
