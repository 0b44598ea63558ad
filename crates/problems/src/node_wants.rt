// What nodes want of their own.

ghost use Rattle.std.specs.Prelude.{◌≡◌, IfOk, None, Some};
ghost use Rattle.std.specs.Option.{option_copied};
ghost use Rattle.problems.specs.Admission.{dependencies_at};
ghost use Rattle.problems.specs.Rules.{same_version};
ghost use Rattle.problems.specs.Tied.OwnNeeds.{own_wants};

use crate::by_extra::ByExtra;
use crate::problem::Problem;
use crate::wanted::counted;
use lists::Lent;
use pep440::Version;
use pep508::{Name, Requirement};
use std::alloc::{AllocError, Global};
use std::collections::BTreeMap;
use std::marker::Model;

/// The dependencies of the release with a version, by extras.
struct GroupedRelease<'q> {
    version: Version,
    by_extra: ByExtra<'q>,
}

impl<'q> Drop for GroupedRelease<'q> {
    fn drop(self) {
        let GroupedRelease {
            version: _,
            by_extra: _,
        } = self;
    }
}

impl<'q> GroupedRelease<'q> {
    fn has_version(&self, version: &Version) -> bool
        ensures { result ≡ same_version version.now self.now.version }
    {
        version.cmp(&self.version).is_eq()
    }
}

/// What the nodes of a problem want of their own. In a clause it is the problem.
///
/// Where a node with an extra asks for them, the dependencies of its release are grouped by extras, and
/// stay so for the other nodes of its name.
pub struct NodeWants<'q> {
    problem: &'q Problem<'q>,
    by_name: BTreeMap<Name, GroupedRelease<'q>>,
}

impl<'q> Drop for NodeWants<'q> {
    fn drop(self) {
        let NodeWants {
            problem: _,
            by_name: _,
        } = self;
    }
}

impl<'q> Model for NodeWants<'q> {
    ghost use Rattle.std.specs.Coded.{codes};
    ghost use Rattle.markers.specs.Tied.MarkerCode.{tree_code};
    ghost use Rattle.problems.specs.Problem.{ProblemParts};
    ghost use Rattle.problems.specs.Tied.GroupedReleases.{AreOfTheirReleases};

    ghost Value = { ProblemParts };

    ghost coded = { Prim.hlevel (codes, tree_code) };

    ghost view = { λ w. w.problem.now };

    ghost invariant = { λ w. AreOfTheirReleases w.problem.now w.by_name };
}

impl<'q> NodeWants<'q> {
    ghost use Rattle.problems.specs.Tied.GroupedReleases.{IsOfItsRelease};

    pub fn new(alloc: Global, problem: &'q Problem<'q>) -> NodeWants<'q>
        ensures { result ≡ problem.now }
    {
        NodeWants {
            problem,
            by_name: BTreeMap::new(alloc),
        }
    }

    /// The problem.
    pub fn problem(&self) -> &'q Problem<'q>
        ensures { result.now ≡ self.now }
    {
        self.problem
    }

    /// The dependencies of the release of a name with this version, by extras.
    fn grouped(
        &self,
        alloc: Global,
        name: &Name,
        version: &Version,
    ) -> Result<GroupedRelease<'q>, AllocError>
        ensures release { IfOk result (IsOfItsRelease self.now name.now) }
        ensures version { IfOk result (λ grouped. grouped.version ≡ version.now) }
    {
        let problem = self.problem;
        let dependencies = problem.dependencies(name, version);
        let by_extra = ByExtra::new(alloc, &problem.environment, dependencies)?;
        Ok(GroupedRelease {
            version: version.clone()?,
            by_extra,
        })
    }

    /// The same; what is there is taken out, if it is of this release.
    fn take(
        &mut self,
        alloc: Global,
        name: &Name,
        version: &Version,
    ) -> Result<GroupedRelease<'q>, AllocError>
        ensures same { self.new ≡ self.old }
        ensures release { IfOk result (IsOfItsRelease self.old name.now) }
        ensures dependencies { IfOk result
            (λ grouped. dependencies_at self.old name.now grouped.version
            ≡ dependencies_at self.old name.now version.now) }
    {
        match self.by_name.remove(name) {
            Some(grouped) => {
                if grouped.has_version(version) {
                    Ok(grouped)
                } else {
                    self.grouped(alloc, name, version)
                }
            }
            None => self.grouped(alloc, name, version),
        }
    }

    /// What the node of a name with an extra wants of its own, where the name has this version.
    fn with_extra(
        &mut self,
        alloc: Global,
        name: &Name,
        extra: &Name,
        version: &Version,
    ) -> Result<Lent<'q, Requirement>, AllocError>
        ensures same { self.new ≡ self.old }
        ensures wanted { IfOk result
            (λ wanted. wanted
            ≡ own_wants self.old (record { name = name.now; extra = Some extra.now }) version.now) }
    {
        let grouped = self.take(alloc, name, version)?;
        let wanted = grouped.by_extra.own(alloc, extra)?;
        self.by_name.insert(name.clone()?, grouped)?;
        Ok(wanted)
    }

    /// What is wanted at the node of a name with no extra, where the name has this version.
    fn bare(
        &self,
        alloc: Global,
        name: &Name,
        version: &Version,
    ) -> Result<Lent<'q, Requirement>, AllocError>
        ensures { IfOk result
            (λ wanted. wanted
            ≡ own_wants self.now (record { name = name.now; extra = None }) version.now) }
    {
        let problem = self.problem;
        let dependencies = problem.dependencies(name, version);
        counted(alloc, &problem.environment, None, dependencies)
    }

    /// What the node of a name with an extra or none wants of its own, where the name has this version, in
    /// the order of its dependencies: with no extra those that count, and with one those that name it
    /// and count with it. All else that counts with an extra counts with none too.
    pub fn at(
        &mut self,
        alloc: Global,
        name: &Name,
        extra: Option<&Name>,
        version: &Version,
    ) -> Result<Lent<'q, Requirement>, AllocError>
        ensures same { self.new ≡ self.old }
        ensures wanted { IfOk result
            (λ wanted. wanted
            ≡ own_wants self.old (record { name = name.now; extra = option_copied extra.entry })
            version.now) }
    {
        match extra {
            Some(extra) => self.with_extra(alloc, name, extra, version),
            None => self.bare(alloc, name, version),
        }
    }
}
