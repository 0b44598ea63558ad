// The names of other packages that packages need.

ghost use Rattle.std.specs.Prelude.{◌≡◌, ℕ, List, [], ◌∷◌, IfOk, OnOk, map};
ghost use Rattle.pep508.specs.Requirement.{RequirementParts};
ghost use Rattle.problems.specs.Solutions.{version_for};
ghost use Rattle.states.specs.Names.{with_names};
ghost use Rattle.states.specs.Tied.Dependencies.{leads_away, names_at, names_in, names_over, names_wanted};

use pep440::Version;
use pep508::{Name, Requirement};
use problems::parts::NodeWants;
use resolve::{Node, Problem};
use std::alloc::{AllocError, Global};
use std::collections::{BTreeMap, BTreeSet};

/// Whether the dependency counts at the node and is on another name.
fn leads_away(problem: &Problem<'_>, node: &Node, dependency: &Requirement) -> bool
    ensures { result ≡ leads_away problem.now.environment node.now dependency.now }
{
    problem.does_count(node, dependency) && node.name.normal() != dependency.name().normal()
}

/// Puts the name of the dependency to the names, where it leads away from the node.
fn add_name(
    problem: &Problem<'_>,
    node: &Node,
    dependency: &Requirement,
    names: &mut BTreeSet<Name>,
) -> Result<(), AllocError>
    ensures { OnOk result ((rest : List RequirementParts)
        → with_names names.new.keys (names_wanted problem.now.environment node.now rest)
        ≡ with_names names.old.keys
        (names_wanted problem.now.environment node.now (dependency.now ∷ rest))) }
{
    if leads_away(problem, node, dependency) {
        let name = dependency.name().clone()?;
        names.insert(name)?;
    }
    Ok(())
}

/// Puts the names of the dependencies that lead away from the node to the names.
fn add_names(
    problem: &Problem<'_>,
    node: &Node,
    dependencies: &[&Requirement],
    names: &mut BTreeSet<Name>,
) -> Result<(), AllocError>
    ensures { OnOk result (names.new.keys
        ≡ with_names names.old.keys
        (names_wanted problem.now.environment node.now (map (λ w. w.now) dependencies.now))) }
{
    for dependency in dependencies {
        add_name(problem, node, dependency, names)?;
    }
    Ok(())
}

/// Puts what the package of the node needs there, by what the node wants of its own, to what is gathered
/// for it.
fn add_node(
    alloc: Global,
    wants: &mut NodeWants<'_>,
    versions: &BTreeMap<Name, Version>,
    node: &Node,
    gathered: &mut BTreeMap<Name, BTreeSet<Name>>,
) -> Result<(), AllocError>
    ensures same { wants.new ≡ wants.old }
    ensures names { OnOk result ((own : List ℕ) → names_in gathered.new own
        ≡ with_names (names_in gathered.old own)
        (names_at wants.old (version_for versions.now.entries) own node.now)) }
{
    let Some(version) = versions.get(&node.name) else {
        return Ok(());
    };
    let wanted = wants.at(alloc, &node.name, node.extra.as_ref(), version)?;
    let mut names = match gathered.remove(&node.name) {
        Some(names) => names,
        None => BTreeSet::new(alloc),
    };
    add_names(wants.problem(), node, wanted.as_slice(), &mut names)?;
    let name = node.name.clone()?;
    gathered.insert(name, names)?;
    Ok(())
}

/// The names of other packages that each package needs at the nodes by what these want of their own, by the
/// package's name.
pub(crate) fn gather(
    alloc: Global,
    problem: &Problem<'_>,
    versions: &BTreeMap<Name, Version>,
    nodes: &[Node],
) -> Result<BTreeMap<Name, BTreeSet<Name>>, AllocError>
    ensures { IfOk result (λ gathered. (own : List ℕ) → names_in gathered own
        ≡ with_names [] (names_over problem.now (version_for versions.now.entries) own nodes.now)) }
{
    let mut wants = NodeWants::new(alloc, problem);
    let mut gathered = BTreeMap::new(alloc);
    for node in nodes {
        add_node(alloc, &mut wants, versions, node, &mut gathered)?;
    }
    Ok(gathered)
}
