// The conflicts that a search has recorded.

ghost use Rattle.std.specs.Prelude.{◌≡◌, ◌<◌, ◌++◌, ◌∷◌, [], IfOk, IsTrue, MatchOption, length, map};
ghost use Rattle.std.specs.List.{slice_index_or};
ghost use Rattle.learning_search.specs.Tied.Gathering.{IsWithin, choice_at};

use crate::partial_solution::is_completed;
use indexmap::IndexMap;
use lists::Seq;
use search::Decision;
use std::alloc::{AllocError, Global};

/// A recorded conflict that has a decision, and where the one before it that has it is linked; a
/// place that is no smaller than this one's stands for none.
#[derive(Clone, Copy)]
pub struct Link {
    pub conflict: usize,
    pub previous: usize,
}

/// Recorded conflicts, found by the decisions that they have. What is found is tested itself.
pub struct Conflicts {
    pub list: Vec<Seq<Decision>>,
    pub links: Vec<Link>,
    pub last: IndexMap<(usize, usize), usize>,
}

impl Drop for Conflicts {
    fn drop(self) {
        let Conflicts {
            list: _,
            links: _,
            last: _,
        } = self;
    }
}

impl Conflicts {
    /// No conflicts.
    pub fn new(alloc: Global) -> Conflicts
        ensures { result.list.items ≡ [] }
    {
        Conflicts {
            list: Vec::new(alloc),
            links: Vec::new(alloc),
            last: IndexMap::new(alloc),
        }
    }

    /// Links a conflict to one of its decisions.
    fn link(&mut self, decision: Decision, conflict: usize) -> Result<(), AllocError>
        ensures { IfOk result (λ _. self.new.list.items ≡ self.old.list.items) }
    {
        let at = self.links.len();
        let key = (decision.node, decision.version);
        let previous = match self.last.get(&key) {
            None => at,
            Some(link) => *link,
        };
        self.links.push(Link { conflict, previous })?;
        self.last.insert(key, at)?;
        Ok(())
    }

    /// Links a conflict to each of its decisions.
    fn link_all(&mut self, decisions: &[Decision], conflict: usize) -> Result<(), AllocError>
        ensures { IfOk result (λ _. self.new.list.items ≡ self.old.list.items) }
    {
        for decision in decisions {
            self.link(*decision, conflict)?;
        }
        Ok(())
    }

    /// Records a conflict behind the others.
    pub fn record(&mut self, conflict: Vec<Decision>) -> Result<(), AllocError>
        ensures { IfOk result
            (λ _. self.new.list.items ≡ self.old.list.items ++ conflict.items ∷ []) }
    {
        let at = self.list.len();
        self.link_all(conflict.as_slice(), at)?;
        self.list.push(Seq::from_vec(conflict))?;
        Ok(())
    }

    /// The recorded conflicts, in their order.
    pub fn into_list(self) -> Seq<Seq<Decision>>
        ensures { result ≡ self.list.items }
    {
        let Conflicts {
            list,
            links: _,
            last: _,
        } = self;
        Seq::from_vec(list)
    }

    /// A recorded conflict.
    pub fn at(&self, place: usize) -> &[Decision]
        ensures { result.now ≡ slice_index_or self.now.list.items place [] }
    {
        match self.list.as_slice().get(place) {
            None => &[],
            Some(conflict) => conflict.as_slice(),
        }
    }

    /// Whether the choices have each decision of a recorded conflict but for the candidate.
    fn is_completed_at(
        &self,
        choices: &IndexMap<usize, usize>,
        place: usize,
        candidate: Decision,
    ) -> bool
        ensures { IsTrue result → (place < length self.now.list.items)
            × IsWithin (slice_index_or self.now.list.items place []) (map choice_at
            choices.now.entries) candidate }
    {
        place < self.list.len() && is_completed(choices, self.at(place), candidate)
    }

    /// The place of a recorded conflict that the choices have but for the candidate.
    pub fn completed(&self, choices: &IndexMap<usize, usize>, candidate: Decision) -> Option<usize>
        ensures { MatchOption result Unit (λ k. (k < length self.now.list.items)
            × IsWithin (slice_index_or self.now.list.items k []) (map choice_at
            choices.now.entries) candidate) }
    {
        let mut bound = self.links.len();
        let mut at = match self.last.get(&(candidate.node, candidate.version)) {
            None => bound,
            Some(link) => *link,
        };
        while at < bound {
            let link = self.links[at];
            if self.is_completed_at(choices, link.conflict, candidate) {
                return Some(link.conflict);
            }
            bound = at;
            at = link.previous;
        }
        None
    }
}
