// What is wanted at a node for each release of its name.

ghost use Rattle.std.specs.Prelude.{◌≡◌, IfOk, None, Some, map};
ghost use Rattle.std.specs.List.{filter};
ghost use Rattle.problems.specs.Problem.{releases_on};
ghost use Rattle.problems.specs.Rules.{counts, wants_of};
ghost use Rattle.problems.specs.Tied.GroupedReleases.{grouped_on};

use crate::by_extra::ByExtra;
use crate::node::Node;
use crate::problem::Problem;
use crate::wanted::counted;
use lists::{Lent, Seq};
use pep508::{Environment, Name, Requirement};
use snapshot::Release;
use std::alloc::{AllocError, Global};
use std::collections::BTreeMap;
use std::marker::Model;

/// What is wanted at the nodes of a problem for each release of their names. In a clause it is the problem.
///
/// Where a node with an extra asks for them, the dependencies of each release of its name are grouped by
/// extras, and stay so for the other nodes of the name.
pub struct ReleaseWants<'q> {
    problem: &'q Problem<'q>,
    by_name: BTreeMap<Name, Seq<ByExtra<'q>>>,
}

impl<'q> Drop for ReleaseWants<'q> {
    fn drop(self) {
        let ReleaseWants {
            problem: _,
            by_name: _,
        } = self;
    }
}

impl<'q> Model for ReleaseWants<'q> {
    ghost use Rattle.std.specs.Coded.{codes};
    ghost use Rattle.markers.specs.Tied.MarkerCode.{tree_code};
    ghost use Rattle.problems.specs.Problem.{ProblemParts};
    ghost use Rattle.problems.specs.Tied.GroupedReleases.{AreOfTheirNames};

    ghost Value = { ProblemParts };

    ghost coded = { Prim.hlevel (codes, tree_code) };

    ghost view = { λ w. w.problem.now };

    ghost invariant = { λ w. AreOfTheirNames w.problem.now w.by_name };
}

/// The dependencies of each of the releases, by extras.
fn grouped<'q>(
    alloc: Global,
    environment: &'q Environment,
    releases: &'q [Release],
) -> Result<Seq<ByExtra<'q>>, AllocError>
    ensures { IfOk result (λ groups. groups
        ≡ map
        (λ release. record {
          environment = environment.now;
          dependencies = release.dependencies;
        })
        releases.now) }
{
    let mut groups = Vec::with_capacity(alloc, releases.len())?;
    for release in releases {
        groups.push(ByExtra::new(alloc, environment, release.dependencies())?)?;
    }
    Ok(Seq::from_vec(groups))
}

/// For each group the dependencies that count with an extra.
fn all_counted<'q>(
    alloc: Global,
    groups: &[ByExtra<'q>],
    extra: &Name,
) -> Result<Seq<Lent<'q, Requirement>>, AllocError>
    ensures { IfOk result (λ rows. rows
        ≡ map (λ g. filter (counts g.environment (Some extra.now)) g.dependencies) groups.now) }
{
    let mut rows = Vec::with_capacity(alloc, groups.len())?;
    for group in groups {
        rows.push(group.counted(alloc, extra)?)?;
    }
    Ok(Seq::from_vec(rows))
}

/// For each release the dependencies that count with no extra.
fn all_bare<'q>(
    alloc: Global,
    environment: &Environment,
    releases: &'q [Release],
) -> Result<Seq<Lent<'q, Requirement>>, AllocError>
    ensures { IfOk result (λ rows. rows ≡ map (wants_of environment.now None) releases.now) }
{
    let mut rows = Vec::with_capacity(alloc, releases.len())?;
    for release in releases {
        rows.push(counted(alloc, environment, None, release.dependencies())?)?;
    }
    Ok(Seq::from_vec(rows))
}

impl<'q> ReleaseWants<'q> {
    pub fn new(alloc: Global, problem: &'q Problem<'q>) -> ReleaseWants<'q>
        ensures { result ≡ problem.now }
    {
        ReleaseWants {
            problem,
            by_name: BTreeMap::new(alloc),
        }
    }

    /// The problem.
    pub fn problem(&self) -> &'q Problem<'q>
        ensures { result.now ≡ self.now }
    {
        self.problem
    }

    /// The dependencies of each release of a name, by extras; where they are there, they are taken out.
    fn take(&mut self, alloc: Global, name: &Name) -> Result<Seq<ByExtra<'q>>, AllocError>
        ensures same { self.new ≡ self.old }
        ensures groups { IfOk result (λ groups. groups ≡ grouped_on self.old name.now) }
    {
        match self.by_name.remove(name) {
            Some(groups) => Ok(groups),
            None => {
                let problem = self.problem;
                grouped(alloc, &problem.environment, problem.releases(name))
            }
        }
    }

    /// For each release of a name what is wanted at its node with an extra.
    fn with_extra(
        &mut self,
        alloc: Global,
        name: &Name,
        extra: &Name,
    ) -> Result<Seq<Lent<'q, Requirement>>, AllocError>
        ensures same { self.new ≡ self.old }
        ensures wanted { IfOk result
            (λ rows. rows
            ≡ map (wants_of self.old.environment (Some extra.now)) (releases_on self.old name.now)) }
    {
        let groups = self.take(alloc, name)?;
        let rows = all_counted(alloc, groups.as_slice(), extra)?;
        self.by_name.insert(name.clone()?, groups)?;
        Ok(rows)
    }

    /// For each release of a node's name, newest first, what is wanted at the node.
    pub fn at(
        &mut self,
        alloc: Global,
        node: &Node,
    ) -> Result<Seq<Lent<'q, Requirement>>, AllocError>
        ensures same { self.new ≡ self.old }
        ensures wanted { IfOk result
            (λ rows. rows
            ≡ map (wants_of self.old.environment node.now.extra) (releases_on self.old
            node.now.name)) }
    {
        match &node.extra {
            Some(extra) => self.with_extra(alloc, &node.name, extra),
            None => {
                let problem = self.problem;
                all_bare(alloc, &problem.environment, problem.releases(&node.name))
            }
        }
    }
}
