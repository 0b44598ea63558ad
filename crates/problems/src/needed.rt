// The nodes that are needed under what is chosen.

ghost use Rattle.std.specs.Prelude.{◌≡◌, IfOk, map};
ghost use Rattle.problems.specs.Tied.Growing.{Grows, nodes_asked, nodes_linked};
ghost use Rattle.problems.specs.Rules.{nodes_of, with_extra};
ghost use Rattle.problems.specs.Solutions.{AreNeeded, version_for};

use crate::node::Node;
use crate::node_wants::NodeWants;
use crate::nodes::Nodes;
use crate::problem::Problem;
use lists::Seq;
use markers::marker_extras::other_extras_are_as_none;
use pep440::Version;
use pep508::{Name, Requirement};
use std::alloc::{AllocError, Global};
use std::collections::BTreeMap;

/// Adds the nodes of a name with each of the extras.
fn add_extras(
    alloc: Global,
    nodes: &mut Nodes,
    name: &Name,
    extras: &[Name],
) -> Result<(), AllocError>
    ensures { IfOk result (λ _. Grows nodes.old nodes.new (map (with_extra name.now) extras.now)) }
{
    for extra in extras {
        nodes.number_of(alloc, name, Some(extra))?;
    }
    Ok(())
}

/// Adds the nodes that a requirement needs.
fn add_nodes(alloc: Global, nodes: &mut Nodes, wanted: &Requirement) -> Result<(), AllocError>
    ensures { IfOk result (λ _. Grows nodes.old nodes.new (nodes_of wanted.now)) }
{
    nodes.number_of(alloc, wanted.name(), None)?;
    add_extras(alloc, nodes, wanted.name(), wanted.extras())?;
    Ok(())
}

/// Adds the nodes that the active requirements need.
fn add_lines(alloc: Global, nodes: &mut Nodes, lines: &[Requirement]) -> Result<(), AllocError>
    ensures { IfOk result (λ _. Grows nodes.old nodes.new (nodes_asked lines.now)) }
{
    for wanted in lines {
        add_nodes(alloc, nodes, wanted)?;
    }
    Ok(())
}

/// Adds the nodes that requirements need which are lent.
fn add_wanted(alloc: Global, nodes: &mut Nodes, wanted: &[&Requirement]) -> Result<(), AllocError>
    ensures { IfOk result
        (λ _. Grows nodes.old nodes.new (nodes_asked (map (λ w. w.now) wanted.now))) }
{
    for requirement in wanted {
        add_nodes(alloc, nodes, requirement)?;
    }
    Ok(())
}

/// Adds the nodes that a node leads to.
fn follow(
    alloc: Global,
    versions: &BTreeMap<Name, Version>,
    wants: &mut NodeWants<'_>,
    nodes: &mut Nodes,
    node: &Node,
) -> Result<(), AllocError>
    ensures same { wants.new ≡ wants.old }
    ensures grown { IfOk result
        (λ _. Grows nodes.old nodes.new (nodes_linked wants.old node.now (version_for
        versions.now.entries node.now.name))) }
{
    let Some(version) = versions.get(&node.name) else {
        return Ok(());
    };
    let wanted = wants.at(alloc, &node.name, node.extra.as_ref(), version)?;
    add_wanted(alloc, nodes, wanted.as_slice())?;
    Ok(())
}

/// The nodes that are needed where these versions are chosen.
pub(crate) fn needed(
    alloc: Global,
    problem: &Problem<'_>,
    versions: &BTreeMap<Name, Version>,
) -> Result<Seq<Node>, AllocError>
    ensures { IfOk result (AreNeeded problem.now (version_for versions.now.entries)) }
{
    other_extras_are_as_none();
    let mut nodes = Nodes::new(alloc);
    add_lines(alloc, &mut nodes, problem.active.as_slice())?;
    let mut wants = NodeWants::new(alloc, problem);
    let mut at = 0;
    while at < nodes.len() {
        let node = nodes.as_slice()[at].clone()?;
        follow(alloc, versions, &mut wants, &mut nodes, &node)?;
        at += 1;
    }
    Ok(nodes.into_seq())
}
