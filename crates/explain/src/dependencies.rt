// What releases need at their nodes.

use lists::Bits;
use pep508::{Name, Requirement};
use problems::parts::{LentNode, admissions};
use problems::{Node, Problem};
use snapshot::Release;
use std::alloc::{AllocError, Global};

/// The node of a name without an extra.
pub fn bare_node(name: &Name) -> LentNode<'_> {
    LentNode { name, extra: None }
}

/// A node, lent.
pub fn lent_node(node: &Node) -> LentNode<'_> {
    LentNode {
        name: &node.name,
        extra: node.extra.as_ref(),
    }
}

/// Whether a requirement needs a node.
pub fn does_need(requirement: &Requirement, node: &LentNode<'_>) -> bool {
    if requirement.name() != node.name {
        return false;
    }
    match node.extra {
        None => true,
        Some(extra) => requirement.extras().iter().any(|other| other == extra),
    }
}

/// A node whose releases may need another one.
#[derive(Drop)]
pub struct Needing<'a> {
    pub problem: &'a Problem<'a>,
    pub node: &'a Node,
    pub needed: LentNode<'a>,
}

/// Puts the places of what isn't admitted to others.
fn add_unadmitted(refused: &mut Bits, admitted: &[bool]) -> Result<(), AllocError> {
    for (place, admits) in admitted.iter().enumerate() {
        if !*admits {
            refused.insert(place)?;
        }
    }
    Ok(())
}

impl<'a> Needing<'a> {
    /// The releases of the node's name, newest first.
    pub fn releases(&self) -> &'a [Release] {
        self.problem.releases(&self.node.name)
    }

    /// Whether a dependency of one of them counts at the node, and needs the other one.
    pub fn is_by(&self, dependency: &Requirement) -> bool {
        does_need(dependency, &self.needed) && self.problem.does_count(self.node, dependency)
    }

    /// The places of the releases of the needed name that something refuses which one of them needs.
    pub fn refused_by(&self, alloc: Global, release: &Release) -> Result<Bits, AllocError> {
        let mut refused = Bits::new(alloc);
        for dependency in release.dependencies() {
            if self.is_by(dependency) {
                let admitted = admissions(alloc, self.problem, dependency)?;
                add_unadmitted(&mut refused, admitted.as_slice())?;
            }
        }
        Ok(refused)
    }
}
