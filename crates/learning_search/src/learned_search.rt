// A search that learns from its conflicts.

ghost use Rattle.std.specs.Prelude.{◌≡◌, ◌<◌, ◌≤◌, ◌+◌, IsTrue, IsFalse, IfOk, MatchOption, length, map, [], true, ℕ};
ghost use Rattle.std.specs.List.{Contains, slice_index_or};
ghost use Rattle.search.specs.declared.conflict.NodeChoice.{NodeChoice};
ghost use Rattle.search.specs.Conflicts.{IsRefutation};
ghost use Rattle.learning_search.specs.Found.{MatchFound};
ghost use Rattle.learning_search.specs.Tied.Gathering.{decision};
ghost use Rattle.search.specs.Known.{AreKnown};
ghost use Rattle.learning_search.specs.Tied.Learned.{FitsBefore, IsPartialSolution, IsCandidateQueue, chosen_assigned, decisions_of};
ghost use Rattle.learning_search.specs.Tied.Learning as spec;
ghost use Rattle.learning_search.specs.Tied.Learning.{GoesOnward, IsBack, TriesFirst, IsLearned, IsRefusedFor, StandsAt};
ghost use Rattle.search.specs.Solutions.{HasNoSolution, IsBest};
ghost use Rattle.search.specs.Table.{TableParts, rules_of, candidates_of, name_of, in_range, place_in, IsAscending, places_eq};

use crate::candidate_queue::CandidateQueue;
use crate::conflicts::Conflicts;
use crate::cursor::Cursor;
use crate::decisions::has;
use crate::next_node::next;
use crate::partial_solution::PartialSolution;
use crate::refusal::{clash, conflict_of};
use lists::Seq;
use search::{Decision, Table, TableChoice, Unwatched, Watch, choices_taken};
use std::alloc::{AllocError, Global};

/// How far a search has come: it tries candidates, or has all that is needed, or has found that
/// there is no solution.
#[derive(Drop)]
pub enum Progress {
    Trying(CandidateQueue),
    Solved,
    Refuted,
}

/// What a search finds: the best solution, its choices in the order of their names; or a
/// refutation, a list of conflicts in which each follows from those before it and the last one is
/// empty.
#[derive(Drop)]
pub enum Found {
    Best(Seq<TableChoice>),
    Refuted(Seq<Seq<Decision>>),
}

/// Refuses a candidate for a clash with a choice, which it records.
fn refuse_for(
    conflicts: &mut Conflicts,
    queue: &mut CandidateQueue,
    count: usize,
    place: usize,
    other: Decision,
) -> Result<(), AllocError>
    requires { queue.old.turn < count }
    ensures { IfOk result
        (λ _. IsRefusedFor queue.old queue.new conflicts.old.list.items conflicts.new.list.items
        (decision queue.old.node place) other) }
{
    let candidate = Decision {
        node: queue.node,
        version: place,
    };
    let conflict = conflict_of(*conflicts.list.allocator(), candidate, other)?;
    queue.refuse(count, place, conflict.as_slice())?;
    conflicts.record(conflict)?;
    Ok(())
}

/// Refuses the candidate of this turn, if it completes a recorded conflict or clashes. A clash is
/// recorded.
fn refuse(
    table: &Table,
    partial: &PartialSolution,
    conflicts: &mut Conflicts,
    queue: &mut CandidateQueue,
    place: usize,
) -> Result<bool, AllocError>
    requires table { in_range table.now ≡ true }
    requires learned { IsLearned table.now partial.now conflicts.old.list.items }
    requires queue { IsCandidateQueue (rules_of table.now) conflicts.old.list.items partial.now.assignments.items
        queue.old }
    requires turn { queue.old.turn
        < length (candidates_of table.now (name_of table.now queue.old.node)) }
    requires place { slice_index_or (candidates_of table.now (name_of table.now queue.old.node))
        queue.old.turn place ≡ place }
    ensures learned { IfOk result (λ _. IsLearned table.now partial.now conflicts.new.list.items) }
    ensures queue { IfOk result
        (λ _. IsCandidateQueue (rules_of table.now) conflicts.new.list.items partial.now.assignments.items
        queue.new) }
    ensures refused { IfOk result (λ refused. IsTrue refused → (queue.new.node ≡ queue.old.node)
        × (queue.new.turn ≡ queue.old.turn + 1)) }
    ensures fits { IfOk result (λ refused. IsFalse refused → (queue.new ≡ queue.old)
        × FitsBefore (rules_of table.now) partial.now.assignments.items (decision queue.old.node place)) }
{
    let count = table.candidates(table.name_of(queue.node)).len();
    let candidate = Decision {
        node: queue.node,
        version: place,
    };
    if let Some(found) = conflicts.completed(&partial.choices, candidate) {
        queue.refuse(count, place, conflicts.at(found))?;
        return Ok(true);
    }
    match clash(table, partial, candidate) {
        None => Ok(false),
        Some(other) => {
            refuse_for(conflicts, queue, count, place, other)?;
            Ok(true)
        }
    }
}

/// Gives choices back, up to the last one that a recorded conflict holds; nothing where it holds
/// none.
fn cut_back(
    table: &Table,
    partial: &mut PartialSolution,
    conflicts: &Conflicts,
    at: usize,
) -> Result<Option<CandidateQueue>, AllocError>
    requires table { in_range table.now ≡ true }
    requires learned { IsLearned table.now partial.old conflicts.now.list.items }
    requires at { at < length conflicts.now.list.items }
    requires within { (c : NodeChoice ℕ ℕ)
        → Contains (slice_index_or conflicts.now.list.items at []) c
        → Contains (decisions_of partial.old.assignments.items) c }
    ensures none { IfOk result
        (λ found. MatchOption found (slice_index_or conflicts.now.list.items at [] ≡ [])
        (λ queue. IsBack partial.old.assignments.items partial.new.assignments.items queue)) }
    ensures learned { IfOk result
        (λ found. MatchOption found Unit
        (λ queue. IsLearned table.now partial.new conflicts.now.list.items
        × IsCandidateQueue (rules_of table.now) conflicts.now.list.items partial.new.assignments.items queue)) }
{
    let conflict = conflicts.at(at);
    while let Some(assignment) = partial.pop(table)? {
        let place = assignment.place;
        let mut queue = assignment.into_queue();
        let candidate = Decision {
            node: queue.node,
            version: place,
        };
        if has(conflict, candidate) {
            let count = table.candidates(table.name_of(queue.node)).len();
            queue.refuse(count, place, conflict)?;
            return Ok(Some(queue));
        }
    }
    Ok(None)
}

/// Records what follows where no candidate is left, and cuts back.
fn learn(
    table: &Table,
    partial: &mut PartialSolution,
    conflicts: &mut Conflicts,
    queue: CandidateQueue,
) -> Result<Progress, AllocError>
    requires table { in_range table.now ≡ true }
    requires learned { IsLearned table.now partial.old conflicts.old.list.items }
    requires queue { IsCandidateQueue (rules_of table.now) conflicts.old.list.items partial.old.assignments.items
        queue }
    requires none { length (candidates_of table.now (name_of table.now queue.node)) ≤ queue.turn }
    ensures stands { IfOk result
        (λ progress. StandsAt table.now partial.new conflicts.new.list.items progress) }
    ensures onward { IfOk result
        (λ progress. GoesOnward table.now partial.old.assignments.items partial.new.assignments.items queue
        progress) }
{
    let conflict = queue.into_conflict()?;
    let at = conflicts.list.len();
    conflicts.record(conflict)?;
    match cut_back(table, partial, conflicts, at)? {
        None => Ok(Progress::Refuted),
        Some(queue) => Ok(Progress::Trying(queue)),
    }
}

/// Goes on with the next node, if there is one.
fn onward(
    table: &Table,
    partial: &mut PartialSolution,
    conflicts: &Conflicts,
    cursor: &mut Cursor,
) -> Progress
    requires table { in_range table.now ≡ true }
    requires learned { IsLearned table.now partial.old conflicts.now.list.items }
    ensures stands { StandsAt table.now partial.new conflicts.now.list.items result }
    ensures assignments { partial.new.assignments ≡ partial.old.assignments }
    ensures first { TriesFirst result }
{
    let alloc = *conflicts.list.allocator();
    match next(alloc, table, partial, cursor) {
        None => Progress::Solved,
        Some(queue) => Progress::Trying(queue),
    }
}

/// Tries the candidate of this turn; where none is left, learns from that.
fn step(
    table: &Table,
    partial: &mut PartialSolution,
    conflicts: &mut Conflicts,
    cursor: &mut Cursor,
    queue: CandidateQueue,
) -> Result<Progress, AllocError>
    requires table { in_range table.now ≡ true }
    requires learned { IsLearned table.now partial.old conflicts.old.list.items }
    requires queue { IsCandidateQueue (rules_of table.now) conflicts.old.list.items partial.old.assignments.items
        queue }
    ensures stands { IfOk result
        (λ progress. StandsAt table.now partial.new conflicts.new.list.items progress) }
    ensures onward { IfOk result
        (λ progress. GoesOnward table.now partial.old.assignments.items partial.new.assignments.items queue
        progress) }
{
    let candidates = table.candidates(table.name_of(queue.node));
    if queue.turn >= candidates.len() {
        let progress = learn(table, partial, conflicts, queue)?;
        return Ok(progress);
    }
    let place = candidates[queue.turn];
    let mut queue = queue;
    if refuse(table, partial, conflicts, &mut queue, place)? {
        return Ok(Progress::Trying(queue));
    }
    partial.push(table, queue, place)?;
    Ok(onward(table, partial, conflicts, cursor))
}

/// The place of a choice, where there is one.
fn version_of(first: Option<Decision>) -> Option<usize>
    ensures { result ≡ spec.version_of first }
{
    match first {
        None => None,
        Some(decision) => Some(decision.version),
    }
}

/// The places of choices.
fn places_of(alloc: Global, taken: &[Option<Decision>]) -> Result<Vec<Option<usize>>, AllocError>
    ensures { IfOk result (λ places. places.items ≡ map spec.version_of taken.now) }
{
    let mut places = Vec::new(alloc);
    for first in taken {
        places.push(version_of(*first))?;
    }
    Ok(places)
}

/// The choices of the names, in their order.
fn choices_of(alloc: Global, partial: &PartialSolution) -> Result<Seq<TableChoice>, AllocError>
    ensures best { IfOk result (λ choices. (t : TableParts) → IsPartialSolution t partial.now → (n : ℕ)
        → place_in choices n ≡ chosen_assigned (rules_of t) partial.now.assignments.items n) }
    ensures ascending { IfOk result (λ choices. IsAscending choices) }
{
    let places = places_of(alloc, partial.taken.as_slice())?;
    let choices = choices_taken(alloc, places.as_slice())?;
    Ok(choices)
}

/// The best solution of a table, or a refutation where there is no solution. The search learns
/// from its conflicts, and the refutation is what it has learned. Somebody is told that it goes on.
pub fn learned_or_refuted<W: Watch>(
    alloc: Global,
    table: &Table,
    watch: &mut W,
) -> Result<Found, AllocError>
    ensures best { IfOk result
        (λ found. MatchFound found (λ choices. IsBest (rules_of table.now) (place_in choices))
        (λ _. HasNoSolution (rules_of table.now))) }
    ensures ascending { IfOk result
        (λ found. MatchFound found (λ choices. IsAscending choices) (λ _. Unit)) }
    ensures refutation { IfOk result
        (λ found. MatchFound found (λ _. Unit)
        (λ conflicts. IsRefutation (rules_of table.now) places_eq conflicts)) }
    ensures known { IfOk result
        (λ found. MatchFound found (λ _. Unit) (λ conflicts. AreKnown table.now conflicts)) }
{
    let mut partial = PartialSolution::new(alloc, table)?;
    let mut conflicts = Conflicts::new(alloc);
    let mut cursor = Cursor {
        name: 0,
        demand: 0,
        extra: 0,
    };
    let mut progress = onward(table, &mut partial, &conflicts, &mut cursor);
    'search: loop {
        match progress {
            Progress::Refuted => return Ok(Found::Refuted(conflicts.into_list())),
            Progress::Solved => {
                let choices = choices_of(alloc, &partial)?;
                return Ok(Found::Best(choices));
            }
            Progress::Trying(queue) => {
                watch.goes_on();
                progress = step(table, &mut partial, &mut conflicts, &mut cursor, queue)?;
            }
        }
    }
}

/// The best solution of a table, its choices in the order of their names; nothing where there is
/// no solution. The search learns from its conflicts.
pub fn learned_best(alloc: Global, table: &Table) -> Result<Option<Seq<TableChoice>>, AllocError>
    ensures best { IfOk result
        (λ answer. MatchOption answer (HasNoSolution (rules_of table.now))
        (λ choices. IsBest (rules_of table.now) (place_in choices))) }
    ensures ascending { IfOk result
        (λ answer. MatchOption answer Unit (λ choices. IsAscending choices)) }
{
    let mut nobody = Unwatched;
    match learned_or_refuted(alloc, table, &mut nobody)? {
        Found::Best(choices) => Ok(Some(choices)),
        Found::Refuted(_) => Ok(None),
    }
}
