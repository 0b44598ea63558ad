// Which releases a requirement admits.

ghost use Rattle.std.specs.Prelude.{◌≡◌, ◌&&◌, ◌||◌, IfOk, map};
ghost use Rattle.std.specs.List.{list_any};
ghost use Rattle.std.specs.Option.{option_copied};
ghost use Rattle.std.specs.Str.{bytes_eq};
ghost use Rattle.pep440.specs.Matching as clauses;
ghost use Rattle.pep440.specs.Version.{is_pre};
ghost use Rattle.problems.specs.Admission as spec;
ghost use Rattle.problems.specs.Problem.{releases_on};

use crate::problem::Problem;
use lists::Seq;
use pep440::Version;
use pep508::{Environment, Requirement};
use snapshot::{Release, RequiresPython};
use std::alloc::{AllocError, Global};

/// Whether what a release asks of Python is met; where it asks for nothing, it is.
pub fn meets_python(environment: &Environment, python: Option<&RequiresPython>) -> bool
    ensures { result ≡ spec.meets_python environment.now (option_copied python.entry) }
{
    match python {
        None => true,
        Some(python) => python.set().matches(environment.full_version()),
    }
}

/// Whether the clauses match the version of a release that runs in the environment.
fn fits(environment: &Environment, wanted: &Requirement, release: &Release) -> bool
    ensures { result ≡ spec.fits environment.now wanted.now release.now }
{
    wanted.specifiers().matches(release.version())
        && meets_python(environment, release.requires_python())
}

/// Whether both are on one name.
fn is_on(wanted: &Requirement, line: &Requirement) -> bool
    ensures { result ≡ bytes_eq line.now.name wanted.now.name }
{
    line.name().normal() == wanted.name().normal()
}

/// Whether one of the lines, on the requirement's name, names a pre-release.
fn some_line_names_pre(lines: &[Requirement], wanted: &Requirement) -> bool
    ensures { result ≡ list_any
        (λ line. bytes_eq line.name wanted.now.name && clauses.names_pre line.clauses) lines.now }
{
    lines.iter().any(|line| is_on(wanted, line) && line.specifiers().names_pre())
}

/// Whether one of the lines, on the requirement's name, pins a version.
fn some_line_pins(lines: &[Requirement], wanted: &Requirement) -> bool
    ensures { result ≡ list_any
        (λ line. bytes_eq line.name wanted.now.name && clauses.pins line.clauses) lines.now }
{
    lines
        .iter()
        .any(|line| is_on(wanted, line) && line.specifiers().pins())
}

/// Whether the requirement, or an active line on its name, names a pre-release.
fn names_pre(problem: &Problem<'_>, wanted: &Requirement) -> bool
    ensures { result ≡ spec.is_said clauses.names_pre problem.now wanted.now }
{
    wanted.specifiers().names_pre() || some_line_names_pre(problem.active.as_slice(), wanted)
}

/// Whether neither a pre-release nor yanked.
fn is_final(release: &Release) -> bool
    ensures { result ≡ spec.is_final release.now }
{
    !release.version().is_pre() && !release.yanked()
}

/// Whether some final release fits.
fn has_final(problem: &Problem<'_>, wanted: &Requirement) -> bool
    ensures { result ≡ spec.has_final problem.now wanted.now }
{
    let environment = &problem.environment;
    let releases = problem.releases(wanted.name());
    releases.iter().any(|release| is_final(release) && fits(environment, wanted, release))
}

/// Whether pre-releases count: where they are asked for by name, or where no final release fits.
pub(crate) fn takes_pre(problem: &Problem<'_>, wanted: &Requirement) -> bool
    ensures { result ≡ spec.takes_pre problem.now wanted.now }
{
    names_pre(problem, wanted) || !has_final(problem, wanted)
}

/// Whether yanked releases count: where the requirement, or an active line on its name, pins one.
pub(crate) fn takes_yanked(problem: &Problem<'_>, wanted: &Requirement) -> bool
    ensures { result ≡ spec.takes_yanked problem.now wanted.now }
{
    wanted.specifiers().pins() || some_line_pins(problem.active.as_slice(), wanted)
}

/// Whether some of the releases is a pre-release.
fn has_pre(releases: &[Release]) -> bool
    ensures { result ≡ list_any (λ release. is_pre release.version) releases.now }
{
    releases.iter().any(|release| release.version().is_pre())
}

/// Whether some of the releases is yanked.
fn has_yanked(releases: &[Release]) -> bool
    ensures { result ≡ list_any (λ release. release.yanked) releases.now }
{
    releases.iter().any(|release| release.yanked())
}

/// Whether the requirement admits a release of its name, where it's known whether pre-releases and
/// yanked releases count.
fn admits_release(
    environment: &Environment,
    wanted: &Requirement,
    pre: bool,
    yanked: bool,
    release: &Release,
) -> bool
    ensures { result ≡ spec.admits_where environment.now wanted.now pre yanked release.now }
{
    fits(environment, wanted, release)
        && (!release.version().is_pre() || pre)
        && (!release.yanked() || yanked)
}

/// Whether the requirement admits each of the releases, where it's known whether pre-releases and yanked
/// releases count.
fn admitted(
    alloc: Global,
    environment: &Environment,
    wanted: &Requirement,
    pre: bool,
    yanked: bool,
    releases: &[Release],
) -> Result<Seq<bool>, AllocError>
    ensures { IfOk result
        (λ admits. admits
        ≡ map (spec.admits_where environment.now wanted.now pre yanked) releases.now) }
{
    let mut admits = Vec::with_capacity(alloc, releases.len())?;
    for release in releases {
        admits.push(admits_release(environment, wanted, pre, yanked, release))?;
    }
    Ok(Seq::from_vec(admits))
}

/// Whether the requirement admits each release of its name, newest first.
///
/// The lines are asked about pre-releases and yanked releases only where the name has one.
pub fn admissions(
    alloc: Global,
    problem: &Problem<'_>,
    wanted: &Requirement,
) -> Result<Seq<bool>, AllocError>
    ensures { IfOk result
        (λ admits. admits
        ≡ map (spec.admits_release problem.now wanted.now) (releases_on problem.now
        wanted.now.name)) }
{
    let releases = problem.releases(wanted.name());
    let pre = has_pre(releases) && takes_pre(problem, wanted);
    let yanked = has_yanked(releases) && takes_yanked(problem, wanted);
    admitted(alloc, &problem.environment, wanted, pre, yanked, releases)
}

/// Whether the requirement admits a release of its name. The lines are asked about pre-releases and
/// yanked releases only where the release is one.
fn admits_found(problem: &Problem<'_>, wanted: &Requirement, release: &Release) -> bool
    ensures { result ≡ spec.admits_release problem.now wanted.now release.now }
{
    let pre = release.version().is_pre() && takes_pre(problem, wanted);
    let yanked = release.yanked() && takes_yanked(problem, wanted);
    admits_release(&problem.environment, wanted, pre, yanked, release)
}

/// Whether the requirement admits a version of its name: none that is no release's.
pub fn admits(problem: &Problem<'_>, wanted: &Requirement, version: &Version) -> bool
    ensures { result ≡ spec.admits problem.now wanted.now version.now }
{
    match problem.release(wanted.name(), version) {
        Some(release) => admits_found(problem, wanted, release),
        None => false,
    }
}
