// The search itself, and the evidence that it hands out.

use crate::conflict_resolution::{Resolution, resolution_of};
use crate::instance::{Instance, TableSets};
use crate::propagation::Conflict;
use crate::search_state::{BUDGET, SearchState};
use crate::unit_propagation::{propagate, propagate_learned, propagate_table};
use crate::walk::Walked;
use lists::Seq;
use search::{Table, Watch};
use set_conflicts::derivation::{Derivation, DerivationCause};
use set_conflicts::refutation::Incompatibility;
use set_conflicts::replay::Move;
use std::alloc::{AllocError, Global};

/// What a search hands out. Nothing is claimed of it.
#[derive(Drop)]
pub enum Evidence {
    /// The incompatibilities that it recorded, and its moves with them to the end of the walk.
    Walked {
        recorded: Seq<Incompatibility>,
        moves: Vec<Move>,
    },
    /// What it recorded until there was nothing left to try.
    Refuted(Seq<Incompatibility>),
    GaveUp,
}

/// How a round of the search ends.
#[derive(Debug, Clone, Copy)]
enum Round {
    Onward,
    Solved,
    Refuted,
    GaveUp,
}

/// Learns from a conflict, and goes back.
fn learn(
    instance: &Instance<'_>,
    state: &mut SearchState,
    conflict: Conflict,
) -> Result<Round, AllocError> {
    match resolution_of(instance, state, conflict)? {
        Resolution::GaveUp => Ok(Round::GaveUp),
        Resolution::Refuted => Ok(Round::Refuted),
        Resolution::Backjump { level, learned } => {
            state.propagation.learn(learned)?;
            for _ in level..state.assignment.level() {
                state.backtrack(instance)?;
            }
            propagate_learned(state, None)?;
            Ok(Round::Onward)
        }
    }
}

/// The first candidate that is left of a node.
fn first_left(instance: &Instance<'_>, state: &SearchState, node: usize) -> Option<usize> {
    let left = state.assignment.domains().left(node)?;
    for place in instance.candidates(node) {
        if left.has(*place) {
            return Some(*place);
        }
    }
    None
}

/// Decides for a place of a node, where more than that is left.
fn decide(
    instance: &Instance<'_>,
    state: &mut SearchState,
    node: usize,
    place: usize,
) -> Result<(), AllocError> {
    let mut others = state.assignment.left_of(instance.alloc, node)?;
    others.remove(place);
    if others.is_empty() {
        return Ok(());
    }
    state.decide()?;
    state.exclude(node, &others, DerivationCause::Decision)
}

/// Walks the next name with the first candidate that is left.
fn walk(instance: &Instance<'_>, state: &mut SearchState) -> Result<Round, AllocError> {
    let Some((name, node)) = state.walk.next(instance) else {
        return Ok(Round::Solved);
    };
    let Some(place) = first_left(instance, state, node) else {
        return Ok(Round::GaveUp);
    };
    let walked = Walked {
        name,
        node,
        trail: state.assignment.trail().len(),
    };
    decide(instance, state, node, place)?;
    state.walk.push(instance, walked, place)?;
    Ok(Round::Onward)
}

/// One round: a conflict is learned from, or a node is propagated from, or the next name is walked.
fn take_round(instance: &Instance<'_>, state: &mut SearchState) -> Result<Round, AllocError> {
    if let Some(conflict) = state.propagation.conflict() {
        let round = learn(instance, state, conflict)?;
        return Ok(round);
    }
    match state.propagation.pop() {
        Some(node) => {
            propagate(instance, state, node)?;
            Ok(Round::Onward)
        }
        None => walk(instance, state),
    }
}

/// What was derived, and between that what was walked, in its order.
fn moves_of(
    alloc: Global,
    trail: Vec<Derivation>,
    walked: &[Walked],
) -> Result<Vec<Move>, AllocError> {
    let mut moves: Vec<Move> = Vec::new(alloc);
    let mut at = 0;
    let mut passed = 0;
    for derivation in trail {
        at = push_walked(&mut moves, walked, at, passed)?;
        moves.push(Move::Derived(derivation))?;
        passed = passed.wrapping_add(1);
    }
    push_walked(&mut moves, walked, at, passed)?;
    Ok(moves)
}

/// Appends what was walked at a length of the trail to the moves, from a place on.
fn push_walked(
    moves: &mut Vec<Move>,
    walked: &[Walked],
    from: usize,
    trail: usize,
) -> Result<usize, AllocError> {
    for at in from..walked.len() {
        if walked[at].trail > trail {
            return Ok(at);
        }
        moves.push(Move::Walked(walked[at].node))?;
    }
    Ok(walked.len())
}

/// The evidence of a search that has come to the end of its walk.
fn walked_evidence(alloc: Global, state: SearchState) -> Result<Evidence, AllocError> {
    let SearchState {
        assignment,
        walk,
        recorded,
        ..
    } = state;
    let moves = moves_of(alloc, assignment.into_trail(), walk.walked())?;
    Ok(Evidence::Walked {
        recorded: Seq::from_vec(recorded),
        moves,
    })
}

/// Searches for the best solution of a table. Nothing is claimed of what it hands out.
pub fn evidence_of<W: Watch>(
    alloc: Global,
    table: &Table,
    watch: &mut W,
) -> Result<Evidence, AllocError> {
    let sets = TableSets::of(alloc, table)?;
    let instance = Instance {
        alloc,
        table,
        sets: &sets,
    };
    let mut state = SearchState::start(&instance)?;
    propagate_table(&instance, &mut state)?;
    for _ in 0..BUDGET {
        watch.goes_on();
        match take_round(&instance, &mut state)? {
            Round::Onward => {}
            Round::GaveUp => return Ok(Evidence::GaveUp),
            Round::Refuted => {
                let SearchState { recorded, .. } = state;
                return Ok(Evidence::Refuted(Seq::from_vec(recorded)));
            }
            Round::Solved => return walked_evidence(alloc, state),
        }
    }
    Ok(Evidence::GaveUp)
}
