// Which node comes next.

ghost use Rattle.std.specs.Prelude.{◌≡◌, ◌<◌, ◌≤◌, ◌++◌, ◌∷◌, [], None, true, MatchOption, length, map, ℕ, List};
ghost use Rattle.std.specs.List.{Contains};
ghost use Rattle.search.specs.declared.conflict.NodeChoice.{NodeChoice};
ghost use Rattle.learning_search.specs.declared.demands.Demand.{Demand as DemandValue};
ghost use Rattle.std.specs.BTreeSet.{keys};
ghost use Rattle.learning_search.specs.Tied.Demands.{AreRowed, IsWatched};
ghost use Rattle.learning_search.specs.Tied.Demanded.{AreKnownDemands, IsFoundNeed, IsOnDecided, NoneOnDecided};
ghost use Rattle.learning_search.specs.Tied.Gathering.{choice_at, decision};
ghost use Rattle.learning_search.specs.Tied.Learned.{IsLearning, IsPartialSolution, IsCandidateQueue, decisions_of, chosen_assigned, first_at};
ghost use Rattle.search.specs.Solutions.{Needed};
ghost use Rattle.search.specs.Table.{rules_of, required_nodes, requirement_at, in_range};

use crate::candidate_queue::CandidateQueue;
use crate::cursor::{Cursor, need_from};
use crate::demands::{Demand, Demands, first_free_of, first_on, row_of};
use crate::partial_solution::PartialSolution;
use indexmap::IndexMap;
use search::{Decision, Table};
use std::alloc::Global;
use std::collections::BTreeSet;

/// A node to choose, and the choice that needs it; nothing where a line does.
#[derive(Clone, Copy)]
pub struct NeededNode {
    pub node: usize,
    pub by: Option<Decision>,
}

/// A node that is required on a name that has a version, which is not chosen itself.
fn need_of(
    table: &Table,
    taken: &[Option<Decision>],
    choices: &IndexMap<usize, usize>,
    demand: Demand,
) -> Option<NeededNode>
    requires { demand.requirement < length table.now.requirements }
    ensures { MatchOption result (NoneOnDecided (rules_of table.now) (first_at taken.now) (map choice_at
        choices.now.entries) (demand ∷ []))
        (λ need. IsOnDecided (rules_of table.now) (first_at taken.now) (map choice_at
        choices.now.entries) (demand ∷ []) need) }
{
    first_on(taken, table.name_required(demand.requirement))?;
    let node = first_free_of(table, choices, demand.requirement)?;
    Some(NeededNode {
        node,
        by: demand.by,
    })
}

/// The first needed node on a name that has a version, which is not chosen itself.
fn need_on_decided(
    table: &Table,
    taken: &[Option<Decision>],
    choices: &IndexMap<usize, usize>,
    listed: &[Demand],
) -> Option<NeededNode>
    requires { AreKnownDemands (length table.now.requirements) listed.now }
    ensures { MatchOption result (NoneOnDecided (rules_of table.now) (first_at taken.now) (map choice_at
        choices.now.entries) listed.now)
        (λ need. IsOnDecided (rules_of table.now) (first_at taken.now) (map choice_at
        choices.now.entries) listed.now need) }
{
    for demand in listed {
        if let Some(need) = need_of(table, taken, choices, *demand) {
            return Some(need);
        }
    }
    None
}

/// The last of the names to check.
fn last_to_check(names_to_check: &[usize]) -> Option<usize>
    ensures { MatchOption result (names_to_check.now ≡ []) (λ name. (front : List ℕ)
        × (names_to_check.now ≡ front ++ name ∷ [])) }
{
    names_to_check.last().copied()
}

/// A needed node on a name that has a version, which is not chosen itself. Names on which there is
/// none are looked at no more.
fn next_on_decided(
    table: &Table,
    demands: &mut Demands,
    choices: &IndexMap<usize, usize>,
    taken: &[Option<Decision>],
    cursor: &mut Cursor,
) -> Option<NeededNode>
    requires rowed { AreRowed table.now demands.old }
    requires watched { IsWatched table.now demands.old taken.now (map choice_at
        choices.now.entries) }
    ensures rowed { AreRowed table.now demands.new }
    ensures watched { IsWatched table.now demands.new taken.now (map choice_at
        choices.now.entries) }
    ensures listed { demands.new.listed ≡ demands.old.listed }
    ensures found { MatchOption result (NoneOnDecided (rules_of table.now) (first_at taken.now) (map
        choice_at choices.now.entries) demands.new.listed.items)
        (λ need. IsOnDecided (rules_of table.now) (first_at taken.now) (map choice_at
        choices.now.entries) demands.new.listed.items need) }
{
    while let Some(name) = last_to_check(demands.names_to_check.as_slice()) {
        let row = row_of(demands.rows.as_slice(), name);
        if let Some(need) = need_from(table, taken, choices, row, name, cursor) {
            return Some(need);
        }
        if let Some(need) = need_on_decided(table, taken, choices, row) {
            cursor.demand = 0;
            cursor.extra = 0;
            return Some(need);
        }
        let _ = demands.names_to_check.pop();
    }
    None
}

/// The first needed node on a name that has no version.
fn need_on(
    table: &Table,
    taken: &[Option<Decision>],
    row: &[Demand],
    name: usize,
) -> Option<NeededNode>
    requires { AreKnownDemands (length table.now.requirements) row.now }
    ensures { MatchOption result (first_at taken.now name ≡ None → row.now ≡ [])
        (λ need. (first_at taken.now name ≡ None) × (demand : DemandValue) × Contains row.now demand
        × (need.by ≡ demand.by)
        × Contains (required_nodes (requirement_at table.now demand.requirement)) need.node) }
{
    if first_on(taken, name).is_some() {
        return None;
    }
    let demand = *row.first()?;
    let node = table.requirement(demand.requirement).node;
    Some(NeededNode {
        node,
        by: demand.by,
    })
}

/// The least of the names that are free.
fn least_free(free: &BTreeSet<usize>) -> Option<usize>
    ensures { MatchOption result (keys free.now ≡ []) (λ name. (rest : List ℕ)
        × (keys free.now ≡ name ∷ rest) × ((m : ℕ) → Contains (keys free.now) m → name ≤ m)) }
{
    free.first().copied()
}

/// A needed node on the least name that has no version. Names on which there is none are looked at
/// no more.
fn next_free(
    table: &Table,
    demands: &mut Demands,
    choices: &IndexMap<usize, usize>,
    taken: &[Option<Decision>],
) -> Option<NeededNode>
    requires table { in_range table.now ≡ true }
    requires rowed { AreRowed table.now demands.old }
    requires watched { IsWatched table.now demands.old taken.now (map choice_at
        choices.now.entries) }
    ensures rowed { AreRowed table.now demands.new }
    ensures watched { IsWatched table.now demands.new taken.now (map choice_at
        choices.now.entries) }
    ensures listed { demands.new.listed ≡ demands.old.listed }
    ensures found { IsFoundNeed (rules_of table.now) (first_at taken.now) demands.new.listed.items
        result }
{
    while let Some(name) = least_free(&demands.free) {
        let row = row_of(demands.rows.as_slice(), name);
        if let Some(need) = need_on(table, taken, row, name) {
            return Some(need);
        }
        let _ = demands.free.pop_first();
    }
    None
}

/// The candidates of a node, none of them tried.
fn queue_of(alloc: Global, need: NeededNode, leads: bool) -> CandidateQueue
    ensures { (result.node ≡ need.node) × (result.by ≡ need.by) × (result.leads ≡ leads)
        × (result.turn ≡ 0) × (result.blame.items ≡ []) }
{
    CandidateQueue {
        node: need.node,
        leads,
        by: need.by,
        turn: 0,
        blame: Vec::new(alloc),
    }
}

/// The node that comes next; nothing where each needed node is chosen.
pub fn next(
    alloc: Global,
    table: &Table,
    partial: &mut PartialSolution,
    cursor: &mut Cursor,
) -> Option<CandidateQueue>
    requires table { in_range table.now ≡ true }
    requires partial { IsPartialSolution table.now partial.old }
    requires learning { (conflicts : List (List (NodeChoice ℕ ℕ)))
        × IsLearning (rules_of table.now) conflicts [] partial.old.assignments.items }
    ensures partial { IsPartialSolution table.now partial.new }
    ensures assignments { partial.new.assignments ≡ partial.old.assignments }
    ensures next { MatchOption result ((node : ℕ)
        → Needed (rules_of table.now) (chosen_assigned (rules_of table.now) partial.old.assignments.items)
        node → (v : ℕ)
        × Contains (decisions_of partial.old.assignments.items) (decision node v))
        (λ queue. (queue.turn ≡ 0)
        × ((conflicts : List (List (NodeChoice ℕ ℕ)))
        → IsCandidateQueue (rules_of table.now) conflicts partial.old.assignments.items queue)) }
{
    let taken = partial.taken.as_slice();
    if let Some(need) = next_on_decided(
        table,
        &mut partial.demands,
        &partial.choices,
        taken,
        cursor,
    ) {
        return Some(queue_of(alloc, need, false));
    }
    if let Some(need) = next_free(table, &mut partial.demands, &partial.choices, taken) {
        return Some(queue_of(alloc, need, true));
    }
    None
}
