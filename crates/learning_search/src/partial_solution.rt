// The partial solution of a search: the choices made so far.

ghost use Rattle.std.specs.Prelude.{◌≡◌, ◌<◌, ◌++◌, ◌∷◌, [], None, Some, false, true, IsTrue, IfOk, MatchOption, length, map, slice_set};
ghost use Rattle.std.specs.List.{Contains};
ghost use Rattle.std.specs.Ordering.{nat_cmp};
ghost use Rattle.learning_search.specs.Tied.Gathering.{IsWithin, choice_at, decision};
ghost use Rattle.learning_search.specs.Tied.Learned.{IsFree, IsPartialSolution, LastIsNew, decisions_of, leaders_assigned};
ghost use Rattle.search.specs.Solutions.{version_pinned};
ghost use Rattle.search.specs.Table.{rules_of, name_of, in_range};

use crate::assignment::Assignment;
use crate::candidate_queue::CandidateQueue;
use crate::decisions::is_same;
use crate::demands::Demands;
use indexmap::IndexMap;
use search::{Decision, Table};
use std::alloc::{AllocError, Global};

/// Whether a choice is assigned.
fn is_assigned(choices: &IndexMap<usize, usize>, decision: Decision) -> bool
    ensures { IsTrue result → Contains (map choice_at choices.now.entries) decision }
{
    match choices.get(&decision.node) {
        None => false,
        Some(place) => *place == decision.version,
    }
}

/// Whether a choice is assigned or is the candidate.
fn is_covered(choices: &IndexMap<usize, usize>, decision: Decision, candidate: Decision) -> bool
    ensures { IsTrue result
        → IsWithin (decision ∷ []) (map choice_at choices.now.entries) candidate }
{
    is_same(candidate, decision) || is_assigned(choices, decision)
}

/// Whether each choice of a conflict is assigned or is the candidate.
pub fn is_completed(
    choices: &IndexMap<usize, usize>,
    conflict: &[Decision],
    candidate: Decision,
) -> bool
    ensures { IsTrue result → IsWithin conflict.now (map choice_at choices.now.entries) candidate }
{
    for decision in conflict {
        if !is_covered(choices, *decision, candidate) {
            return false;
        }
    }
    true
}

/// The choices of a search: each node with its place, in the order made; for each the candidates
/// tried before it; for each name the first choice on it; and what lines and choices require.
pub struct PartialSolution {
    pub choices: IndexMap<usize, usize>,
    pub assignments: Vec<Assignment>,
    pub taken: Vec<Option<Decision>>,
    pub demands: Demands,
}

impl Drop for PartialSolution {
    fn drop(self) {
        let PartialSolution {
            choices: _,
            assignments: _,
            taken: _,
            demands: _,
        } = self;
    }
}

/// Makes a choice the first on its name, or takes it back.
fn set_first(taken: &mut Vec<Option<Decision>>, table: &Table, node: usize, first: Option<Decision>)
    requires known { node < length table.now.nodes }
    requires room { length taken.old.items ≡ length table.now.candidates }
    ensures set { taken.new.items ≡ slice_set taken.old.items (name_of table.now node) first }
    ensures known { name_of table.now node < length table.now.candidates }
{
    let name = table.name_of(node);
    taken[name] = first;
}

/// Makes a choice that leads the first on its name, which is then one to check.
fn lead(
    taken: &mut Vec<Option<Decision>>,
    names_to_check: &mut Vec<usize>,
    table: &Table,
    choice: Decision,
    leads: bool,
) -> Result<(), AllocError>
    requires known { choice.node < length table.now.nodes }
    requires room { length taken.old.items ≡ length table.now.candidates }
    ensures first { IfOk result (λ _. leads ≡ true → (taken.new.items
        ≡ slice_set taken.old.items (name_of table.now choice.node) (Some choice))
        × (names_to_check.new.items ≡ names_to_check.old.items ++ name_of table.now choice.node ∷ [])) }
    ensures unchanged { IfOk result
        (λ _. leads ≡ false → (taken.new ≡ taken.old) × (names_to_check.new ≡ names_to_check.old)) }
    ensures known { IfOk result
        (λ _. leads ≡ true → name_of table.now choice.node < length table.now.candidates) }
{
    if !leads {
        return Ok(());
    }
    set_first(taken, table, choice.node, Some(choice));
    names_to_check.push(table.name_of(choice.node))?;
    Ok(())
}

impl PartialSolution {
    /// No choices.
    pub fn new(alloc: Global, table: &Table) -> Result<PartialSolution, AllocError>
        ensures partial { IfOk result (λ partial. IsPartialSolution table.now partial) }
        ensures none { IfOk result (λ partial. partial.assignments.items ≡ []) }
        ensures known { IfOk result (λ _. in_range table.now ≡ true) }
    {
        let choices = IndexMap::new(alloc);
        let taken = vec![in alloc; None; table.name_count()]?;
        let mut demands = Demands::new(alloc, table)?;
        demands.add_all(table, &choices, taken.as_slice(), table.lines(), None)?;
        Ok(PartialSolution {
            choices,
            assignments: Vec::new(alloc),
            taken,
            demands,
        })
    }

    /// Takes the candidate at a place.
    pub fn push(
        &mut self,
        table: &Table,
        queue: CandidateQueue,
        place: usize,
    ) -> Result<(), AllocError>
        requires table { in_range table.now ≡ true }
        requires partial { IsPartialSolution table.now self.old }
        requires known { queue.node < length table.now.nodes }
        requires free { IsFree (decisions_of self.old.assignments.items) queue.node }
        requires first { queue.leads ≡ true
            → version_pinned nat_cmp (leaders_assigned (rules_of table.now) self.old.assignments.items)
            (name_of table.now queue.node) ≡ None }
        ensures partial { IfOk result (λ _. IsPartialSolution table.now self.new) }
        ensures assignments { IfOk result
            (λ _. self.new.assignments.items ≡ self.old.assignments.items
            ++ (record { queue = queue; place = place }) ∷ []) }
    {
        let node = queue.node;
        let leads = queue.leads;
        let by = Decision {
            node,
            version: place,
        };
        self.choices.insert(node, place)?;
        self.assignments.push(Assignment { queue, place })?;
        lead(
            &mut self.taken,
            &mut self.demands.names_to_check,
            table,
            by,
            leads,
        )?;
        let wants = table.wants(node, place);
        self.demands.add_all(table, &self.choices, self.taken.as_slice(), wants, Some(by))?;
        Ok(())
    }

    /// Gives the last choice back.
    pub fn pop(&mut self, table: &Table) -> Result<Option<Assignment>, AllocError>
        requires table { in_range table.now ≡ true }
        requires partial { IsPartialSolution table.now self.old }
        requires last { LastIsNew table.now self.old.assignments.items }
        ensures popped { IfOk result (λ popped. MatchOption popped (self.old.assignments.items ≡ [])
            (λ h. self.old.assignments.items ≡ self.new.assignments.items ++ h ∷ [])) }
        ensures partial { IfOk result
            (λ popped. MatchOption popped Unit (λ _. IsPartialSolution table.now self.new)) }
    {
        let Some(assignment) = self.assignments.pop() else {
            return Ok(None);
        };
        let node = assignment.queue.node;
        self.demands
            .drop_last(table, table.wants(node, assignment.place).len());
        let _ = self.choices.pop();
        let name = table.name_of(node);
        if assignment.queue.leads {
            set_first(&mut self.taken, table, node, None);
            self.demands.free.insert(name)?;
        } else {
            self.demands.names_to_check.push(name)?;
        }
        Ok(Some(assignment))
    }
}
