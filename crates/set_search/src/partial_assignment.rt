// The partial assignment of a search: what is left of each node, which nodes are needed, and how
// that came about.

use crate::instance::Instance;
use lists::Bits;
use set_conflicts::derivation::{Derivation, DerivationCause};
use set_conflicts::domains::Domains;
use set_conflicts::table_term::TableTerm;
use std::alloc::{AllocError, Global};

/// What was left of a node behind the derivation at a place of the trail.
#[derive(Drop)]
struct Narrowing {
    at: usize,
    left: Bits,
}

/// What is left of the nodes, and the derivations that led there, in their order.
#[derive(Drop)]
pub struct PartialAssignment {
    domains: Domains,
    /// For each node the place of the derivation by which it is needed.
    needed_at: Vec<Option<usize>>,
    narrowings: Vec<Vec<Narrowing>>,
    trail: Vec<Derivation>,
    /// How long the trail was before each decision.
    decisions: Vec<usize>,
}

/// The later of two places of the trail; nothing stands for its beginning.
fn later(one: Option<usize>, other: usize) -> usize {
    match one {
        Some(one) if one > other => one,
        _ => other,
    }
}

impl PartialAssignment {
    /// All candidates are left, and nothing is needed.
    pub fn start(instance: &Instance<'_>) -> Result<PartialAssignment, AllocError> {
        let alloc: Global = instance.alloc;
        let mut assignment = PartialAssignment {
            domains: Domains::start(alloc, instance.table)?,
            needed_at: Vec::new(alloc),
            narrowings: Vec::new(alloc),
            trail: Vec::new(alloc),
            decisions: Vec::new(alloc),
        };
        for _ in 0..instance.table.node_count() {
            assignment.needed_at.push(None)?;
            assignment.narrowings.push(Vec::new(alloc))?;
        }
        Ok(assignment)
    }

    /// What is left of the nodes.
    pub fn domains(&self) -> &Domains {
        &self.domains
    }

    /// The derivations so far.
    pub fn trail(&self) -> &[Derivation] {
        self.trail.as_slice()
    }

    /// The derivations, given out.
    pub fn into_trail(self) -> Vec<Derivation> {
        let PartialAssignment { trail, .. } = self;
        trail
    }

    /// A copy of what is left of a node.
    pub fn left_of(&self, alloc: Global, node: usize) -> Result<Bits, AllocError> {
        match self.domains.left(node) {
            Some(left) => left.clone(),
            None => Ok(Bits::new(alloc)),
        }
    }

    /// Notes what is left of a node behind the next derivation.
    fn narrow(&mut self, node: usize) -> Result<(), AllocError> {
        let at = self.trail.len();
        let Some(left) = self.domains.left(node) else {
            return Ok(());
        };
        let left = left.clone()?;
        if let Some(narrowings) = self.narrowings.get_mut(node) {
            narrowings.push(Narrowing { at, left })?;
        }
        Ok(())
    }

    /// Excludes candidates of a node that are left; false where none of them is.
    pub fn exclude(
        &mut self,
        node: usize,
        places: &Bits,
        cause: DerivationCause,
    ) -> Result<bool, AllocError> {
        let Some(left) = self.domains.left(node) else {
            return Ok(false);
        };
        let mut places = places.clone()?;
        places.keep(left);
        if places.is_empty() {
            return Ok(false);
        }
        self.domains.cut(node, &places);
        self.narrow(node)?;
        self.trail.push(Derivation {
            term: TableTerm { node, places },
            is_need: false,
            cause,
        })?;
        Ok(true)
    }

    /// Makes a node needed; false where it is.
    pub fn need(
        &mut self,
        alloc: Global,
        node: usize,
        cause: DerivationCause,
    ) -> Result<bool, AllocError> {
        if self.domains.is_needed(node) {
            return Ok(false);
        }
        self.domains.need(node);
        if let Some(at) = self.needed_at.get_mut(node) {
            *at = Some(self.trail.len());
        }
        let places = Bits::new(alloc);
        self.trail.push(Derivation {
            term: TableTerm { node, places },
            is_need: true,
            cause,
        })?;
        Ok(true)
    }

    /// Begins a decision level.
    pub fn decide(&mut self) -> Result<(), AllocError> {
        self.decisions.push(self.trail.len())?;
        Ok(())
    }

    /// How many decisions were made.
    pub fn level(&self) -> usize {
        self.decisions.len()
    }

    /// Takes the last derivation back.
    fn undo(&mut self) -> Result<(), AllocError> {
        let Some(derivation) = self.trail.pop() else {
            return Ok(());
        };
        let node = derivation.term.node();
        if derivation.is_need {
            self.domains.unmark(node);
            return Ok(());
        }
        if let Some(narrowings) = self.narrowings.get_mut(node) {
            narrowings.pop();
        }
        self.domains.restore(&derivation.term)?;
        Ok(())
    }

    /// Takes the last decision back, and all that was derived since.
    pub fn backtrack(&mut self) -> Result<(), AllocError> {
        let Some(length) = self.decisions.pop() else {
            return Ok(());
        };
        for _ in length..self.trail.len() {
            self.undo()?;
        }
        Ok(())
    }

    /// The place of the derivation by which a term is satisfied that is satisfied; nothing where it
    /// was from the beginning.
    pub fn satisfier(&self, instance: &Instance<'_>, term: &TableTerm) -> Option<usize> {
        let needed = match self.needed_at.get(term.node()) {
            Some(at) => *at,
            None => None,
        };
        if instance.candidate_set(term.node())?.lies_within(term.set()) {
            return needed;
        }
        let narrowings = self.narrowings.get(term.node())?;
        for narrowing in narrowings {
            if narrowing.left.lies_within(term.set()) {
                return Some(later(needed, narrowing.at));
            }
        }
        needed
    }

    /// How many decisions came before the derivation at a place, or with it; none before the
    /// beginning.
    pub fn decision_level(&self, place: Option<usize>) -> usize {
        let Some(place) = place else {
            return 0;
        };
        let mut level = 0;
        for at in 0..self.decisions.len() {
            if self.decisions[at] <= place {
                level = at.wrapping_add(1);
            }
        }
        level
    }

    /// How many derivations excluded candidates of a node.
    pub fn exclusion_count(&self, node: usize) -> usize {
        match self.narrowings.get(node) {
            Some(narrowings) => narrowings.len(),
            None => 0,
        }
    }

    /// One of the derivations that excluded candidates of a node, if it came before a place of the
    /// trail.
    pub fn exclusion(&self, node: usize, number: usize, before: usize) -> Option<&Derivation> {
        let narrowing = self.narrowings.get(node)?.get(number)?;
        if narrowing.at >= before {
            return None;
        }
        self.trail.get(narrowing.at)
    }
}
