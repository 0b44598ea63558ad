// Which listed releases can be used.

ghost use Rattle.std.specs.Prelude.{◌≡◌, Err, Ok};
ghost use Rattle.std.specs.List.{AllByRecursion};
ghost use Rattle.pep440.specs.Tied.Reading.{version_of};
ghost use Rattle.pep508.specs.Requirement.{requirement_text};
ghost use Rattle.snapshot.specs.Lawful.{IsFile};
ghost use Rattle.snapshot.specs.Python.{python_of};
ghost use Rattle.snapshot.specs.Releases.{outcome_of, required_at, requirements_from, versioned};
ghost use Rattle.snapshot.specs.Shape.{Gives};

use crate::chosen::{Chosen, choose};
use crate::fault::Fault;
use crate::fit::fault_of_files;
use crate::known::Known;
use crate::listed::Listed;
use crate::release::Release;
use crate::skipped::SkipCause;
use lists::{Seq, Text};
use pep440::{Fault as VersionFault, RequiresPython, Version};
use pep508::{Cause, Requirement};
use std::alloc::Global;

/// What comes of a release that the index lists: the text of its version, and the release, or the first
/// cause for which it can't be used.
#[derive(Drop)]
pub(crate) struct ReleaseOutcome {
    pub(crate) version: Text,
    pub(crate) release: Result<Release, SkipCause>,
}

impl ReleaseOutcome {
    fn refused(version: Text, cause: SkipCause) -> ReleaseOutcome
        ensures { result ≡ record { version = version; release = Err cause } }
    {
        ReleaseOutcome {
            version,
            release: Err(cause),
        }
    }
}

/// The version that a text is.
fn version_of(alloc: Global, text: &str) -> Result<Result<Version, SkipCause>, Fault>
    ensures { Gives (λ v. v) (Ok (versioned (version_of text.now))) result }
{
    match Version::parse(alloc, text) {
        Ok(version) => Ok(Ok(version)),
        Err(VersionFault::OutOfMemory) => Err(Fault::OutOfMemory),
        Err(fault) => Ok(Err(SkipCause::Version(fault))),
    }
}

/// What a text asks of Python: nothing, where it is empty or blank.
fn python_of(alloc: Global, text: Text) -> Result<Result<Option<RequiresPython>, SkipCause>, Fault>
    ensures { Gives (λ p. p) (Ok (python_of text)) result }
{
    match RequiresPython::parse(alloc, text) {
        Ok(python) => Ok(Ok(python)),
        Err(VersionFault::OutOfMemory) => Err(Fault::OutOfMemory),
        Err(fault) => Ok(Err(SkipCause::RequiresPython(fault))),
    }
}

/// The requirement that the text at `place` is.
fn requirement_at(
    alloc: Global,
    known: &Known,
    place: usize,
    text: &str,
) -> Result<Result<Requirement, SkipCause>, Fault>
    ensures { Gives (λ r. r) (Ok (required_at place (requirement_text text.now))) result }
{
    if let Some(requirement) = known.near(place, text) {
        return Ok(Ok(requirement.clone()?));
    }
    match Requirement::read(alloc, text) {
        Ok(requirement) => Ok(Ok(requirement)),
        Err(Cause::OutOfMemory) => Err(Fault::OutOfMemory),
        Err(cause) => Ok(Err(SkipCause::Requirement(place, cause))),
    }
}

/// The requirements that the texts are.
fn requirements_of(
    alloc: Global,
    known: &Known,
    texts: &[Text],
) -> Result<Result<Seq<Requirement>, SkipCause>, Fault>
    ensures { Gives (λ d. d) (Ok (requirements_from 0 texts.now)) result }
{
    let mut requirements = Vec::with_capacity(alloc, texts.len())?;
    for place in 0..texts.len() {
        match requirement_at(alloc, known, place, texts[place].as_str())? {
            Ok(requirement) => requirements.push(requirement)?,
            Err(cause) => return Ok(Err(cause)),
        }
    }
    Ok(Ok(Seq::from_vec(requirements)))
}

/// What comes of a listed release. The text of its version goes along, and is never copied. What it depends on is
/// known from then on.
#[tactic(auto, unfolding(crate::specs::Releases::usable))]
pub(crate) fn outcome_of(
    alloc: Global,
    known: &mut Known,
    listed: Listed,
) -> Result<ReleaseOutcome, Fault>
    requires { AllByRecursion IsFile listed.files }
    ensures { Gives (λ o. o) (Ok (outcome_of listed)) result }
{
    let Listed {
        version,
        requires_python,
        requires_dist,
        yanked,
        files,
    } = listed;
    let parsed = match version_of(alloc, version.as_str())? {
        Ok(parsed) => parsed,
        Err(cause) => return Ok(ReleaseOutcome::refused(version, cause)),
    };
    let requires_python = match python_of(alloc, requires_python)? {
        Ok(python) => python,
        Err(cause) => return Ok(ReleaseOutcome::refused(version, cause)),
    };
    let dependencies = match requirements_of(alloc, known, requires_dist.as_slice())? {
        Ok(dependencies) => dependencies,
        Err(cause) => return Ok(ReleaseOutcome::refused(version, cause)),
    };
    known.keep(requires_dist, &dependencies)?;
    let files = choose(alloc, files)?;
    if let Some(cause) = fault_of_files(&files) {
        return Ok(ReleaseOutcome::refused(version, cause));
    }
    let release = Release::new(parsed, requires_python, dependencies, yanked, files);
    Ok(ReleaseOutcome {
        version,
        release: Ok(release),
    })
}
