// Packages that an index lacks, and the releases that this rules out.

use edits::{Name, Problem, Release, Requirement};
use pep440::Version;
use phrases::has_package;
use problems::Node;
use problems::parts::{admissions, counts};
use std::alloc::{AllocError, Global};
use std::collections::BTreeMap;

/// Which releases of a name are looked at.
#[derive(Clone, Copy, Debug, PartialEq, Eq)]
pub(crate) enum Extent {
    /// Those that are newer than the version that is locked.
    Newer,
    /// All, as nothing is locked that the lines ask for.
    All,
}

/// What an index lacks for a node of a problem.
#[derive(Drop)]
pub(crate) struct Lack<'a> {
    pub(crate) node: &'a Node,
    /// The positions of the releases of the node's name that need such packages, newest first; none where the index has no package of
    /// that name.
    pub(crate) positions: Vec<usize>,
    /// The packages that these need, and that the index hasn't.
    pub(crate) packages: Vec<&'a Name>,
}

/// The nodes that are needed: by what is locked, or by the lines alone.
pub(crate) fn nodes_of(
    alloc: Global,
    problem: &Problem<'_>,
    extent: Extent,
) -> Result<Vec<Node>, AllocError> {
    let nodes = match extent {
        Extent::Newer => problem.needed(alloc, &problem.kept)?,
        Extent::All => problem.needed(alloc, &BTreeMap::new(alloc))?,
    };
    Ok(nodes.into_vec())
}

/// What the index of a problem lacks for each of these nodes: the package itself, or packages that releases need which all
/// admit that ask for the node.
pub(crate) fn lacks_of<'a>(
    alloc: Global,
    problem: &'a Problem<'a>,
    nodes: &'a [Node],
    extent: Extent,
) -> Result<Vec<Lack<'a>>, AllocError> {
    let mut sought = Sought {
        problem,
        packages: BTreeMap::new(alloc),
    };
    let mut found = Vec::new(alloc);
    for node in nodes {
        let positions = sought.lacking_positions(alloc, node, extent)?;
        if !positions.is_empty() || sought.lacks_name(node)? {
            found.push(Lack {
                node,
                positions,
                packages: Vec::new(alloc),
            })?;
        }
    }
    if found.is_empty() {
        return Ok(found);
    }
    let asks = asks_of(alloc, problem, nodes, extent)?;
    sought.admitted(alloc, found, &asks)
}

// A problem, and of each name that it has no release of whether its index has the package.
#[derive(Drop)]
struct Sought<'a> {
    problem: &'a Problem<'a>,
    packages: BTreeMap<Name, bool>,
}

impl<'a> Sought<'a> {
    /// Whether the index has no package of a name.
    fn lacks(&mut self, name: &Name) -> Result<bool, AllocError> {
        if !self.problem.releases(name).is_empty() {
            return Ok(false);
        }
        if let Some(is_there) = self.packages.get(name) {
            return Ok(!*is_there);
        }
        let problem = self.problem;
        let is_there = has_package(problem.snapshot, name);
        self.packages.insert(name.clone()?, is_there)?;
        Ok(!is_there)
    }

    /// Whether the index has no package of a node's name. It is told of the node without an extra.
    fn lacks_name(&mut self, node: &Node) -> Result<bool, AllocError> {
        if node.extra.is_some() {
            return Ok(false);
        }
        self.lacks(&node.name)
    }

    /// Whether a dependency counts at a node, and not without the node's extra, and the index has no package of its name.
    fn is_lacking(&mut self, node: &Node, wanted: &Requirement) -> Result<bool, AllocError> {
        if !self.problem.releases(wanted.name()).is_empty() || !is_own(self.problem, node, wanted) {
            return Ok(false);
        }
        self.lacks(wanted.name())
    }

    fn needs_lacking(&mut self, node: &Node, release: &Release) -> Result<bool, AllocError> {
        for wanted in release.dependencies() {
            if self.is_lacking(node, wanted)? {
                return Ok(true);
            }
        }
        Ok(false)
    }

    /// The positions of the releases of a node's name that need at the node what the index lacks.
    fn lacking_positions(
        &mut self,
        alloc: Global,
        node: &Node,
        extent: Extent,
    ) -> Result<Vec<usize>, AllocError> {
        let problem = self.problem;
        let releases = problem.releases(&node.name);
        let count = match (extent, problem.kept.get(&node.name)) {
            (Extent::Newer, Some(locked)) => newer_count(releases, locked),
            _ => releases.len(),
        };
        let mut positions = Vec::new(alloc);
        for (position, release) in releases.iter().enumerate().take(count) {
            if self.needs_lacking(node, release)? {
                positions.push(position)?;
            }
        }
        Ok(positions)
    }

    /// What is left of the lacks with the releases that all admit that ask for them: those by which the newest of these is ruled out.
    fn admitted(
        &mut self,
        alloc: Global,
        found: Vec<Lack<'a>>,
        asks: &BTreeMap<Name, Vec<&'a Requirement>>,
    ) -> Result<Vec<Lack<'a>>, AllocError> {
        let mut left = Vec::new(alloc);
        for lack in found {
            let Lack {
                node,
                positions,
                packages: _,
            } = lack;
            let is_of_name = positions.is_empty();
            let positions = admitted_positions(
                alloc,
                self.problem,
                node,
                positions.as_slice(),
                asks,
            )?;
            if is_of_name || !positions.is_empty() {
                let packages = self.packages_at(alloc, node, positions.as_slice())?;
                left.push(Lack {
                    node,
                    positions,
                    packages,
                })?;
            }
        }
        Ok(left)
    }

    /// The packages that the releases at these positions need at a node, and that the index lacks.
    fn packages_at(
        &mut self,
        alloc: Global,
        node: &Node,
        positions: &[usize],
    ) -> Result<Vec<&'a Name>, AllocError> {
        let problem = self.problem;
        let mut packages = Vec::new(alloc);
        for position in positions {
            if let Some(release) = problem.releases(&node.name).get(*position) {
                self.add_packages(&mut packages, node, release)?;
            }
        }
        Ok(packages)
    }

    fn add_packages(
        &mut self,
        packages: &mut Vec<&'a Name>,
        node: &Node,
        release: &'a Release,
    ) -> Result<(), AllocError> {
        for wanted in release.dependencies() {
            let name = wanted.name();
            if self.is_lacking(node, wanted)? && !has_name(packages.as_slice(), name) {
                packages.push(name)?;
            }
        }
        Ok(())
    }
}

fn has_name(names: &[&Name], name: &Name) -> bool {
    names.iter().any(|other| *other == name)
}

/// Whether a dependency counts at a node, and not at that of the same name without an extra.
fn is_own(problem: &Problem<'_>, node: &Node, wanted: &Requirement) -> bool {
    if node.extra.is_some() && counts(&problem.environment, None, wanted) {
        return false;
    }
    problem.does_count(node, wanted)
}

/// How many releases stand before those that aren't newer than a version.
fn newer_count(releases: &[Release], version: &Version) -> usize {
    releases
        .iter()
        .position(|release| !release.version().cmp(version).is_gt())
        .unwrap_or(releases.len())
}

/// Who asks for each name: the lines, and what is locked.
fn asks_of<'a>(
    alloc: Global,
    problem: &'a Problem<'a>,
    nodes: &[Node],
    extent: Extent,
) -> Result<BTreeMap<Name, Vec<&'a Requirement>>, AllocError> {
    let mut asks = BTreeMap::new(alloc);
    for wanted in problem.active.as_slice() {
        add_ask(alloc, &mut asks, wanted)?;
    }
    if extent == Extent::Newer {
        for node in nodes {
            add_asks(alloc, &mut asks, problem, node)?;
        }
    }
    Ok(asks)
}

/// What the locked release of a node's name needs at the node.
fn add_asks<'a>(
    alloc: Global,
    asks: &mut BTreeMap<Name, Vec<&'a Requirement>>,
    problem: &'a Problem<'a>,
    node: &Node,
) -> Result<(), AllocError> {
    let Some(version) = problem.kept.get(&node.name) else {
        return Ok(());
    };
    for wanted in problem.dependencies(&node.name, version) {
        if is_own(problem, node, wanted) {
            add_ask(alloc, asks, wanted)?;
        }
    }
    Ok(())
}

fn add_ask<'a>(
    alloc: Global,
    asks: &mut BTreeMap<Name, Vec<&'a Requirement>>,
    wanted: &'a Requirement,
) -> Result<(), AllocError> {
    let name = wanted.name().clone()?;
    asks.entry(name)?.or_insert(Vec::new(alloc)).push(wanted)?;
    Ok(())
}

/// Those of the positions whose releases all admit that ask for the name; none where the newest release that they admit isn't
/// among them.
fn admitted_positions(
    alloc: Global,
    problem: &Problem<'_>,
    node: &Node,
    positions: &[usize],
    asks: &BTreeMap<Name, Vec<&Requirement>>,
) -> Result<Vec<usize>, AllocError> {
    let mut admitted = Vec::new(alloc);
    for _ in problem.releases(&node.name) {
        admitted.push(true)?;
    }
    if let Some(asks) = asks.get(&node.name) {
        for wanted in asks.as_slice() {
            let admits = admissions(alloc, problem, wanted)?;
            admitted = both(alloc, admitted.as_slice(), admits.as_slice())?;
        }
    }
    positions_in(alloc, positions, admitted.as_slice())
}

/// What is admitted by both.
fn both(alloc: Global, admitted: &[bool], admits: &[bool]) -> Result<Vec<bool>, AllocError> {
    let mut left = Vec::new(alloc);
    for (one, other) in admitted.iter().zip(admits) {
        left.push(*one && *other)?;
    }
    Ok(left)
}

fn positions_in(
    alloc: Global,
    positions: &[usize],
    admitted: &[bool],
) -> Result<Vec<usize>, AllocError> {
    let mut left = Vec::new(alloc);
    for position in positions {
        if admitted.get(*position).copied().unwrap_or(false) {
            left.push(*position)?;
        }
    }
    let newest = admitted.iter().position(|is_admitted| *is_admitted);
    if left.first().copied() != newest {
        left.clear();
    }
    Ok(left)
}
