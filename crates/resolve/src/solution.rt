// The versions of a solution.

ghost use Rattle.std.specs.Prelude.{◌≡◌, ℕ, List, Some, IfOk, OnOk};
ghost use Rattle.std.specs.BTreeMap.{Updates};
ghost use Rattle.std.specs.Cmp.Lexicographic.{slice_cmp};
ghost use Rattle.std.specs.Ordering.{nat_cmp};
ghost use Rattle.problems.specs.Problem.{releases_on};
ghost use Rattle.problems.specs.Solutions.{version_for};
ghost use Rattle.resolve.specs.Tied.Pictured.{AreKnown, IsKnown, chosen, name_at};
ghost use Rattle.resolve.specs.Tied.Places.{version_at};

use pep440::Version;
use pep508::Name;
use problems::Problem;
use search::TableChoice;
use std::alloc::{AllocError, Global};
use std::collections::BTreeMap;

/// Inserts the version that a choice stands for, at its name.
fn insert_version(
    problem: &Problem<'_>,
    names: &[Name],
    choice: TableChoice,
    versions: &mut BTreeMap<Name, Version>,
) -> Result<(), AllocError>
    requires { IsKnown problem.now names.now choice }
    ensures { OnOk result (Updates (slice_cmp nat_cmp) versions.old versions.new (name_at names.now
        choice.name) (Some (version_at (releases_on problem.now (name_at names.now choice.name))
        choice.place))) }
{
    let name = &names[choice.name];
    let releases = problem.releases(name);
    let version = releases[choice.place].version().clone()?;
    versions.insert(name.clone()?, version)?;
    Ok(())
}

/// The versions that choices stand for, by their names; of two on one name the first.
pub(crate) fn versions_of(
    alloc: Global,
    problem: &Problem<'_>,
    names: &[Name],
    choices: &[TableChoice],
) -> Result<BTreeMap<Name, Version>, AllocError>
    requires { AreKnown problem.now names.now choices.now }
    ensures { IfOk result (λ versions. (name : List ℕ)
        → version_for versions.entries name ≡ chosen problem.now names.now choices.now name) }
{
    let mut versions = BTreeMap::new(alloc);
    let mut left = choices.len();
    while left > 0 {
        left -= 1;
        insert_version(problem, names, choices[left], &mut versions)?;
    }
    Ok(versions)
}
