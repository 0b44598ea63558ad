// The conflicts of a refutation by sets, and what each of them rests on.

use crate::expansion::containable::containable_before;
use crate::expansion::placed_choice::PlacedChoice;
use problems::{Node, Problem};
use set_refutations::placed::{PlacedTerm, place_of};
use set_refutations::{
    EarlierSets, PlacedRefutation, SetGround, SetNeed, set_completed, set_ground_of,
};
use std::alloc::{AllocError, Global};
use std::collections::BTreeMap;

/// How a single conflict of a conflict of sets follows. Terms are named by their places.
#[derive(Debug, Clone, Copy)]
pub(crate) enum Way {
    /// A line refuses the choice of the term.
    Refused(usize),
    /// The choices of the terms can't stand together.
    Clash(usize, usize),
    /// The choice of the term tells on which earlier conflict it rests.
    Rests(usize),
    /// No candidate of the node of this number is left; the term needs it, or a line.
    NoneLeft(usize, Option<usize>),
}

/// The conflicts, with what was asked of them so far.
#[derive(Drop)]
pub(crate) struct SetConflicts<'a> {
    alloc: Global,
    problem: &'a Problem<'a>,
    refutation: PlacedRefutation,
    ways: BTreeMap<usize, Way>,
    /// By a conflict, the places of the earlier ones that it may contain with one release more.
    containable: BTreeMap<usize, Vec<usize>>,
    /// By a conflict and a place: the earlier conflict that it contains with this release at its node.
    completed: BTreeMap<(usize, usize), usize>,
}

impl<'a> SetConflicts<'a> {
    /// Nothing was asked yet.
    pub(crate) fn new(
        alloc: Global,
        problem: &'a Problem<'a>,
        refutation: PlacedRefutation,
    ) -> SetConflicts<'a> {
        SetConflicts {
            alloc,
            problem,
            refutation,
            ways: BTreeMap::new(alloc),
            containable: BTreeMap::new(alloc),
            completed: BTreeMap::new(alloc),
        }
    }

    /// The place of the last conflict; nothing where there is none.
    pub(crate) fn last(&self) -> Option<usize> {
        self.refutation.conflicts().len().checked_sub(1)
    }

    pub(crate) fn node(&self, number: usize) -> Option<&Node> {
        self.refutation.placed().nodes().get(number)
    }

    /// The terms of a conflict; none where there is no such conflict.
    pub(crate) fn terms(&self, conflict: usize) -> &[PlacedTerm] {
        self.refutation.placed().terms(conflict)
    }

    /// The candidate of a node in this turn; nothing behind the last one.
    pub(crate) fn candidate(&self, node: usize, turn: usize) -> Option<PlacedChoice> {
        let name = &self.node(node)?.name;
        let release = self.problem.eligible(name).get(turn)?;
        let place = place_of(self.problem.releases(name), release.version(), turn)?;
        Some(PlacedChoice { node, place })
    }

    /// How the single conflicts of a conflict follow; nothing where it doesn't follow itself.
    pub(crate) fn way(&mut self, conflict: usize) -> Result<Option<Way>, AllocError> {
        if let Some(way) = self.ways.get(&conflict) {
            return Ok(Some(*way));
        }
        self.look(conflict)?;
        let (Some(earlier), Some(own)) = (
            self.containable.get(&conflict),
            self.refutation.conflicts().get(conflict),
        ) else {
            return Ok(None);
        };
        let Some(ground) = set_ground_of(
            self.problem,
            &EarlierSets::few(self.refutation.conflicts(), earlier.as_slice()),
            own.as_slice(),
        ) else {
            return Ok(None);
        };
        let way = self.way_by(ground)?;
        self.ways.insert(conflict, way)?;
        Ok(Some(way))
    }

    /// Finds the earlier conflicts that one may contain with a release more. All others are of no use to it.
    fn look(&mut self, conflict: usize) -> Result<(), AllocError> {
        if self.containable.get(&conflict).is_none() {
            let found = containable_before(self.alloc, self.refutation.terms(), conflict)?;
            self.containable.insert(conflict, found)?;
        }
        Ok(())
    }

    fn way_by(&mut self, ground: SetGround<'_>) -> Result<Way, AllocError> {
        Ok(match ground {
            SetGround::LineRefuses(_, term) => Way::Refused(term),
            SetGround::TermsClash(one, other) => Way::Clash(one, other),
            SetGround::EachVersion(term) => Way::Rests(term),
            SetGround::NoneLeft(need, name, extra) => {
                let node = self.refutation.number_of(self.alloc, name, extra)?;
                Way::NoneLeft(
                    node,
                    match need {
                        SetNeed::Line(_) => None,
                        SetNeed::Term(term) => Some(term),
                    },
                )
            }
        })
    }

    /// The earlier conflict that a conflict contains with this choice at its node; nothing where there is none.
    pub(crate) fn earlier(
        &mut self,
        conflict: usize,
        choice: PlacedChoice,
    ) -> Result<Option<usize>, AllocError> {
        let key = (conflict, choice.place);
        if let Some(place) = self.completed.get(&key) {
            return Ok(Some(*place));
        }
        self.look(conflict)?;
        let Some(place) = self.completed_by(conflict, choice) else {
            return Ok(None);
        };
        self.completed.insert(key, place)?;
        Ok(Some(place))
    }

    fn completed_by(&self, conflict: usize, choice: PlacedChoice) -> Option<usize> {
        let node = self.node(choice.node)?;
        let release = self.problem.releases(&node.name).get(choice.place)?;
        let earlier = self.containable.get(&conflict)?;
        let own = self.refutation.conflicts().get(conflict)?;
        let place = set_completed(
            &EarlierSets::few(self.refutation.conflicts(), earlier.as_slice()),
            own.as_slice(),
            &node.name,
            node.extra.as_ref(),
            release.version(),
        )?;
        earlier.as_slice().get(place).copied()
    }
}
