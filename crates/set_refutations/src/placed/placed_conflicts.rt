// Conflicts of sets over the releases of a problem, and back.

use crate::placed::placed_term::PlacedTerm;
use crate::placed::places::{places_of, versions_at};
use crate::set_refutation::SetTerm;
use lists::{Bits, Seq, copy_of};
use pep508::Name;
use problems::parts::{LentNode, Nodes};
use problems::{Node, Problem};
use std::alloc::{AllocError, Global};

/// Conflicts over the releases of a problem, whose nodes have numbers.
#[derive(Drop)]
pub struct PlacedConflicts {
    nodes: Nodes,
    conflicts: Vec<Vec<PlacedTerm>>,
}

impl PlacedConflicts {
    /// The conflicts of a refutation of the problem. A version that no release has is left out.
    pub fn new(
        alloc: Global,
        problem: &Problem<'_>,
        conflicts: &[Seq<SetTerm>],
    ) -> Result<PlacedConflicts, AllocError> {
        let mut placed = PlacedConflicts {
            nodes: Nodes::new(alloc),
            conflicts: Vec::with_capacity(alloc, conflicts.len())?,
        };
        for conflict in conflicts {
            let terms = placed.terms_of(alloc, problem, conflict.as_slice())?;
            placed.conflicts.push(terms)?;
        }
        Ok(placed)
    }

    /// The conflicts, in their order.
    pub fn as_slice(&self) -> &[Vec<PlacedTerm>] {
        self.conflicts.as_slice()
    }

    /// The terms of the conflict at a place; none where there is no such conflict.
    pub fn terms(&self, place: usize) -> &[PlacedTerm] {
        match self.conflicts.get(place) {
            Some(terms) => terms.as_slice(),
            None => &[],
        }
    }

    /// The nodes, in the order of their numbers.
    pub fn nodes(&self) -> &[Node] {
        self.nodes.as_slice()
    }

    /// The number of a node, which gets one where it has none.
    pub fn number_of(
        &mut self,
        alloc: Global,
        name: &Name,
        extra: Option<&Name>,
    ) -> Result<usize, AllocError> {
        self.nodes.number_of(alloc, name, extra)
    }

    /// A node with these releases of its name, for these conflicts.
    pub fn term(
        &self,
        name: &Name,
        extra: Option<&Name>,
        places: Bits,
    ) -> Result<PlacedTerm, AllocError> {
        let own = LentNode { name, extra };
        let number = self
            .nodes()
            .iter()
            .position(|node| own.is_of(&node.name, node.extra.as_ref()));
        let node = Node {
            name: name.clone()?,
            extra: copy_of(extra)?,
        };
        Ok(PlacedTerm::numbered(node, number, places))
    }

    /// Conflicts that are made of terms of these.
    pub fn with_conflicts(
        &self,
        alloc: Global,
        conflicts: Vec<Vec<PlacedTerm>>,
    ) -> Result<PlacedConflicts, AllocError> {
        let mut nodes = Nodes::new(alloc);
        for node in self.nodes() {
            nodes.number_of(alloc, &node.name, node.extra.as_ref())?;
        }
        Ok(PlacedConflicts { nodes, conflicts })
    }

    /// The conflicts with the versions of their releases.
    pub(crate) fn versions(
        &self,
        alloc: Global,
        problem: &Problem<'_>,
    ) -> Result<Seq<Seq<SetTerm>>, AllocError> {
        let mut conflicts = Vec::with_capacity(alloc, self.conflicts.len())?;
        for conflict in self.as_slice() {
            conflicts.push(set_conflict(alloc, problem, conflict.as_slice())?)?;
        }
        Ok(Seq::from_vec(conflicts))
    }

    /// A term with the number of its node.
    fn numbered(
        &mut self,
        alloc: Global,
        problem: &Problem<'_>,
        term: &SetTerm,
    ) -> Result<PlacedTerm, AllocError> {
        let releases = problem.releases(&term.name);
        let places = places_of(alloc, releases, term.versions.as_slice())?;
        let number = self.number_of(alloc, &term.name, term.extra.as_ref())?;
        let node = Node {
            name: term.name.clone()?,
            extra: copy_of(term.extra.as_ref())?,
        };
        Ok(PlacedTerm::numbered(node, Some(number), places))
    }

    fn terms_of(
        &mut self,
        alloc: Global,
        problem: &Problem<'_>,
        conflict: &[SetTerm],
    ) -> Result<Vec<PlacedTerm>, AllocError> {
        let mut terms = Vec::with_capacity(alloc, conflict.len())?;
        for term in conflict {
            terms.push(self.numbered(alloc, problem, term)?)?;
        }
        Ok(terms)
    }
}

/// A conflict with the versions of its releases.
fn set_conflict(
    alloc: Global,
    problem: &Problem<'_>,
    conflict: &[PlacedTerm],
) -> Result<Seq<SetTerm>, AllocError> {
    let mut terms = Vec::with_capacity(alloc, conflict.len())?;
    for term in conflict {
        let node = &term.node;
        terms.push(SetTerm {
            name: node.name.clone()?,
            extra: copy_of(node.extra.as_ref())?,
            versions: versions_at(alloc, problem.releases(&node.name), &term.places)?,
        })?;
    }
    Ok(Seq::from_vec(terms))
}
