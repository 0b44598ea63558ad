// What a search knows. None of it is trusted: whatever it hands out is tested.

use crate::instance::Instance;
use crate::partial_assignment::PartialAssignment;
use crate::propagation::{Conflict, Propagation};
use crate::walk::Walk;
use lists::{Bits, Seq};
use set_conflicts::derivation::DerivationCause;
use set_conflicts::reason::Reason;
use set_conflicts::refutation::Incompatibility;
use set_conflicts::table_term::TableTerm;
use std::alloc::{AllocError, Global};

/// How many rounds a search may take, and how many steps the resolution of one conflict.
pub const BUDGET: usize = 20_000_000;

/// The partial assignment, what is still to be propagated, the walk, and the incompatibilities that
/// were recorded.
#[derive(Drop)]
pub struct SearchState {
    pub assignment: PartialAssignment,
    pub propagation: Propagation,
    pub walk: Walk,
    pub recorded: Vec<Incompatibility>,
}

impl SearchState {
    /// Nothing is derived.
    pub fn start(instance: &Instance<'_>) -> Result<SearchState, AllocError> {
        let alloc: Global = instance.alloc;
        Ok(SearchState {
            assignment: PartialAssignment::start(instance)?,
            propagation: Propagation::start(alloc, instance.table.node_count())?,
            walk: Walk::start(instance)?,
            recorded: Vec::new(alloc),
        })
    }

    /// Has a node looked at of which less is left, or which is needed now.
    fn touch(&mut self, node: usize) -> Result<(), AllocError> {
        self.propagation.wake(node)?;
        if self.assignment.domains().is_exhausted(node) {
            self.propagation.fail(Conflict::Node(node));
        }
        Ok(())
    }

    /// Excludes candidates of a node that are left.
    pub fn exclude(
        &mut self,
        node: usize,
        places: &Bits,
        cause: DerivationCause,
    ) -> Result<(), AllocError> {
        if self.assignment.exclude(node, places, cause)? {
            self.touch(node)?;
        }
        Ok(())
    }

    /// Makes a node needed.
    pub fn need(
        &mut self,
        alloc: Global,
        node: usize,
        cause: DerivationCause,
    ) -> Result<(), AllocError> {
        if self.assignment.need(alloc, node, cause)? {
            self.touch(node)?;
        }
        Ok(())
    }

    /// Begins a decision level.
    pub fn decide(&mut self) -> Result<(), AllocError> {
        self.assignment.decide()?;
        self.walk.decide()?;
        Ok(())
    }

    /// Goes back to before the last decision.
    pub fn backtrack(&mut self, instance: &Instance<'_>) -> Result<(), AllocError> {
        self.assignment.backtrack()?;
        self.walk.backtrack(instance)?;
        self.propagation.clear();
        Ok(())
    }

    /// Records an incompatibility, and gives its place.
    pub fn record(
        &mut self,
        conflict: Vec<TableTerm>,
        reason: Reason,
    ) -> Result<usize, AllocError> {
        let at = self.recorded.len();
        self.recorded.push(Incompatibility {
            conflict: Seq::from_vec(conflict),
            reason,
        })?;
        Ok(at)
    }

    /// The terms of a recorded incompatibility.
    pub fn terms_at(&self, at: usize) -> Option<&[TableTerm]> {
        let recorded = self.recorded.get(at)?;
        Some(recorded.conflict.as_slice())
    }
}
