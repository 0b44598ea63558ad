// Reading the packages of an index.

ghost use Rattle.std.specs.Prelude.{codes, option_map};
ghost use Rattle.serde_json.specs.View.{items_view, view};
ghost use Rattle.snapshot.specs.Packages.{as_name, as_one, package_of, packages_in, packages_of};
ghost use Rattle.snapshot.specs.Shape.{Gives, at_key, below, place_path, required};

use crate::fault::Fault;
use crate::members::values_at;
use crate::package::{Package, ReadPackage, ReadPackages};
use crate::release::reading::{ReadReleases, releases_of};
use crate::shape::{below_key, below_place, items_of, misshapen, text_of};
use lists::Seq;
use pep508::{Cause, Name};
use serde_json::Value;
use std::alloc::Global;

/// The name of a package.
fn name_of(alloc: Global, found: Option<Value>) -> Result<Name, Fault>
    ensures { Gives (λ n. n)
        (at_key (required as_name) (codes "name") (option_map view found)) result }
{
    let text = text_of(alloc, "name", found)?;
    match Name::parse(alloc, text.as_str()) {
        Ok(name) => Ok(name),
        Err(fault) => match fault.cause {
            Cause::OutOfMemory => Err(Fault::OutOfMemory),
            _ => Err(misshapen(alloc, "name")),
        },
    }
}

/// The package that a value lists.
#[tactic(auto, unfolding(crate::specs::Packages::package_of))]
fn package_of(alloc: Global, value: Value) -> Result<ReadPackage, Fault>
    ensures { Gives (λ p. p) (package_of (view value)) result }
{
    let [name, releases] = values_at::<2>(alloc, value, &["name", "releases"])?;
    let name = name_of(alloc, name)?;
    let listed = items_of(alloc, "releases", releases)?;
    let ReadReleases { releases, skipped } = below_key(
        alloc,
        "releases",
        releases_of(alloc, &name, listed),
    )?;
    let kept = Package { name, releases };
    Ok(ReadPackage { kept, skipped })
}

/// The package that the value at `place` lists.
fn package_at_place(alloc: Global, place: usize, value: Value) -> Result<ReadPackage, Fault>
    ensures { Gives (λ p. p) (below (place_path place) (package_of (view value))) result }
{
    below_place(alloc, place, package_of(alloc, value))
}

/// The packages that the values list.
fn listed_packages(alloc: Global, values: Vec<Value>) -> Result<ReadPackages, Fault>
    ensures { Gives (λ p. p) (packages_in (items_view values.items)) result }
{
    let mut packages = Vec::new(alloc);
    let mut all_skipped = Vec::new(alloc);
    for (place, value) in values.into_iter().enumerate() {
        let ReadPackage { kept, skipped } = package_at_place(alloc, place, value)?;
        packages.push(kept)?;
        all_skipped.append(&mut skipped.into_vec())?;
    }
    Ok(ReadPackages {
        packages: Seq::from_vec(packages),
        skipped: Seq::from_vec(all_skipped),
    })
}

/// Asks for version 1 of the format.
fn check_format(alloc: Global, found: Option<Value>) -> Result<(), Fault>
    ensures { Gives (λ _. tt)
        (at_key (required as_one) (codes "snapshot") (option_map view found)) result }
{
    match found.as_ref().and_then(Value::as_u64) {
        Some(1) => Ok(()),
        _ => Err(misshapen(alloc, "snapshot")),
    }
}

/// The packages of an index, in its order.
#[tactic(auto, unfolding(crate::specs::Packages::packages_of))]
pub(crate) fn packages_of(alloc: Global, index: Value) -> Result<ReadPackages, Fault>
    ensures { Gives (λ p. p) (packages_of (view index)) result }
{
    let [format, packages] = values_at::<2>(alloc, index, &["snapshot", "packages"])?;
    check_format(alloc, format)?;
    let listed = items_of(alloc, "packages", packages)?;
    below_key(alloc, "packages", listed_packages(alloc, listed))
}
