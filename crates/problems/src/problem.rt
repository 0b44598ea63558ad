// Problems.

ghost use Rattle.std.specs.Prelude.{◌≡◌, IfOk, false};
ghost use Rattle.std.specs.List.Sorted.{IsStrictlySortedBy};
ghost use Rattle.std.specs.Option.{option_copied, option_to_list};
ghost use Rattle.pep508.specs.Requirement.{requirement_of};
ghost use Rattle.snapshot.specs.Releases.{newer_cmp};
ghost use Rattle.problems.specs.Admission.{dependencies_at, release_at};
ghost use Rattle.problems.specs.Problem.{ProblemParts, active_in, releases_on, requirements};
ghost use Rattle.problems.specs.Rules.{counts, is_held};
ghost use Rattle.problems.specs.Solutions.{AreNeeded, version_for};
ghost use Rattle.problems.specs.Tied.Eligible.{eligible};

use crate::node::Node;
use crate::{needed, releases};
use lists::Seq;
use pep440::Version;
use pep508::{Environment, Line, Name, ReqFile, Requirement};
use snapshot::{Release, Snapshot};
use std::alloc::{AllocError, Global};
use std::collections::BTreeMap;
use std::marker::Model;

/// What a resolver is given: the requirements of the active lines of a file in an environment, an index,
/// the versions that an earlier lock has, and whether none counts beside them.
pub struct Problem<'a> {
    pub active: Seq<Requirement>,
    pub environment: Environment,
    pub snapshot: &'a Snapshot,
    pub kept: BTreeMap<Name, Version>,
    pub only_kept: bool,
}

impl<'a> Drop for Problem<'a> {
    fn drop(self) {
        let Problem {
            active: _,
            environment: _,
            snapshot: _,
            kept: _,
            only_kept: _,
        } = self;
    }
}

impl<'a> Model for Problem<'a> {
    ghost use Rattle.std.specs.Coded.{codes};
    ghost use Rattle.markers.specs.Tied.MarkerCode.{tree_code};
    ghost use Rattle.problems.specs.Problem.{ProblemParts};

    ghost Value = { ProblemParts };

    ghost coded = { Prim.hlevel (codes, tree_code) };

    ghost view = { λ q. record {
      active = q.active;
      environment = q.environment;
      index = q.snapshot.now;
      kept = q.kept.entries;
      only_kept = q.only_kept;
    } };
}

/// What a line asks for, where it counts in the environment.
fn active<'l>(environment: &Environment, line: &'l Line) -> Option<&'l Requirement>
    ensures { option_to_list (option_copied result)
        ≡ active_in environment.now (requirement_of line.now) }
{
    let requirement = line.requirement()?;
    if requirement.is_active(environment) {
        Some(requirement)
    } else {
        None
    }
}

/// The requirements of the active lines.
fn requirements(
    alloc: Global,
    environment: &Environment,
    lines: &[Line],
) -> Result<Seq<Requirement>, AllocError>
    ensures { IfOk result (λ active. active ≡ requirements environment.now lines.now) }
{
    let mut kept = Vec::new(alloc);
    for line in lines {
        if let Some(requirement) = active(environment, line) {
            kept.push(requirement.clone()?)?;
        }
    }
    Ok(Seq::from_vec(kept))
}

impl<'a> Problem<'a> {
    /// The problem of the active lines in the environment over the index, with the versions that are
    /// kept of an earlier lock; others count beside them.
    pub fn new(
        alloc: Global,
        lines: &ReqFile,
        environment: &Environment,
        snapshot: &'a Snapshot,
        kept: BTreeMap<Name, Version>,
    ) -> Result<Problem<'a>, AllocError>
        ensures { IfOk result
            (λ problem. problem
            ≡ record {
              active = requirements environment.now lines.now;
              environment =
                  environment.now;
              index = snapshot.now;
              kept = kept.entries;
              only_kept = false;
            }) }
    {
        let active = requirements(alloc, environment, lines.lines())?;
        let environment = environment.clone()?;
        Ok(Problem {
            active,
            environment,
            snapshot,
            kept,
            only_kept: false,
        })
    }

    /// The same problem; whether none counts beside a version that is kept.
    pub fn with_only_kept(self, only_kept: bool) -> Problem<'a>
        ensures { result
            ≡ record {
              active = self.entry.active;
              environment =
                  self.entry.environment;
              index = self.entry.index;
              kept = self.entry.kept;
              only_kept = only_kept;
            } }
    {
        let Problem {
            active,
            environment,
            snapshot,
            kept,
            only_kept: _,
        } = self;
        Problem {
            active,
            environment,
            snapshot,
            kept,
            only_kept,
        }
    }

    /// The releases of a name, newest first.
    pub fn releases(&self, name: &Name) -> &[Release]
        ensures listed { result.now ≡ releases_on self.now name.now }
        ensures fall { IsStrictlySortedBy newer_cmp result.now }
    {
        self.snapshot.releases(name)
    }

    /// The release of a name with a version that equals this one, if the index has one.
    pub fn release(&self, name: &Name, version: &Version) -> Option<&Release>
        ensures { option_copied result ≡ release_at self.now name.now version.now }
    {
        releases::release_at(self.releases(name), version)
    }

    /// Whether a version is kept for a name, and none counts beside it.
    pub fn is_held(&self, name: &Name) -> bool
        ensures { result ≡ is_held self.now name.now }
    {
        match self.kept.get(name) {
            Some(_version) => self.only_kept,
            None => false,
        }
    }

    /// The releases of a name whose versions are its candidates: where a version is kept and none
    /// counts beside it, the release that has it, else all.
    pub fn eligible(&self, name: &Name) -> &[Release]
        ensures { result.now ≡ eligible self.now name.now }
    {
        let releases = self.releases(name);
        if self.only_kept {
            if let Some(version) = self.kept.get(name) {
                return releases::with_version(releases, version);
            }
        }
        releases
    }

    /// The dependencies of the release with that version; none where the index has no such release.
    pub fn dependencies(&self, name: &Name, version: &Version) -> &[Requirement]
        ensures { result.now ≡ dependencies_at self.now name.now version.now }
    {
        match self.release(name, version) {
            Some(release) => release.dependencies(),
            None => &[],
        }
    }

    /// Whether a dependency counts at a node of its release: its marker holds with the node's extra.
    pub fn does_count(&self, node: &Node, dependency: &Requirement) -> bool
        ensures { result ≡ counts self.now.environment node.now.extra dependency.now }
    {
        releases::counts(&self.environment, node.extra.as_ref(), dependency)
    }

    /// The nodes that are needed where these versions are chosen.
    pub fn needed(
        &self,
        alloc: Global,
        versions: &BTreeMap<Name, Version>,
    ) -> Result<Seq<Node>, AllocError>
        ensures { IfOk result
            (λ nodes. AreNeeded self.now (version_for versions.now.entries) nodes) }
    {
        needed::needed(alloc, self, versions)
    }
}
