// Entries of a lock, each made of a release.

ghost use Rattle.std.specs.Prelude.{◌≡◌, IfOk, IsSome, true};
ghost use Rattle.std.specs.Option.{option_map};
ghost use Rattle.problems.specs.Admission.{release_at};
ghost use Rattle.pylock.specs.Packages.{are_dependencies};
ghost use Rattle.snapshot.specs.Lawful.{IsRelease};
ghost use Rattle.states.specs.Tied.Entries.{HasRelease, entry_with};
ghost use Rattle.states.specs.Locks.{python_text, sdist_of, wheels_of};

use lists::Seq;
use pep440::{RequiresPython, Version};
use pep508::Name;
use pylock::{DistributionFile, Entry};
use resolve::Problem;
use snapshot::Release;
use std::alloc::{AllocError, Global};

/// What the release asks of Python.
fn python_of(release: &Release) -> Result<Option<RequiresPython>, AllocError>
    ensures { IfOk result (λ python. option_map (λ p. p.text) python ≡ python_text (Some release.now)) }
{
    match release.requires_python() {
        Some(python) => Ok(Some(python.clone()?)),
        None => Ok(None),
    }
}

/// The source distribution of the release.
fn sdist_of(release: &Release) -> Result<Option<DistributionFile>, AllocError>
    ensures { IfOk result (λ sdist. sdist ≡ sdist_of (Some release.now)) }
{
    match release.sdist() {
        Some(file) => Ok(Some(file.clone()?)),
        None => Ok(None),
    }
}

/// The wheels of the release.
fn wheels_of(alloc: Global, release: &Release) -> Result<Seq<DistributionFile>, AllocError>
    ensures { IfOk result (λ wheels. wheels ≡ wheels_of (Some release.now)) }
{
    let files = release.wheels();
    let mut wheels = Vec::with_capacity(alloc, files.len())?;
    for file in files {
        wheels.push(file.clone()?)?;
    }
    Ok(Seq::from_vec(wheels))
}

/// The entry of the release of that name and version, with these dependencies.
fn entry_with(
    alloc: Global,
    release: &Release,
    name: Name,
    version: Version,
    dependencies: Seq<Name>,
) -> Result<Entry, AllocError>
    requires { are_dependencies name dependencies ≡ true }
    ensures entry { IfOk result
        (λ entry. entry ≡ entry_with (name, version) dependencies (Some release.now)) }
    ensures lawful { IfOk result (λ _. IsRelease release.now) }
{
    name.recall_invariant();
    release.recall_invariant();
    let python = python_of(release)?;
    let sdist = sdist_of(release)?;
    let wheels = wheels_of(alloc, release)?;
    match Entry::with_python(alloc, name, version, python, dependencies, sdist, wheels)? {
        Some(entry) => Ok(entry),
        None => unreachable!(),
    }
}

/// The entry of the name at the version, which is that of a release, with these dependencies.
pub(crate) fn entry(
    alloc: Global,
    problem: &Problem<'_>,
    name: &Name,
    version: &Version,
    dependencies: Seq<Name>,
) -> Result<Entry, AllocError>
    requires released { IsSome (release_at problem.now name.now version.now) }
    requires dependencies { are_dependencies name.now dependencies ≡ true }
    ensures entry { IfOk result (λ entry. entry
        ≡ entry_with (name.now, version.now) dependencies
        (release_at problem.now name.now version.now)) }
    ensures release { IfOk result (λ _. HasRelease problem.now name.now version.now) }
{
    let Some(release) = problem.release(name, version) else {
        unreachable!();
    };
    let name = name.clone()?;
    let version = version.clone()?;
    entry_with(alloc, release, name, version, dependencies)
}
