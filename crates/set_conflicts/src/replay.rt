// The moves of a search, made anew one by one. Each is tested, so the search is trusted for
// nothing.

ghost use Rattle.std.specs.Prelude.{◌≡◌, ◌<◌, [], List, IfOk, IfSome, IsTrue, MatchOption, true, false, length};
ghost use Rattle.search.specs.SetConflicts.{EachSetFollows};
ghost use Rattle.search.specs.Solutions.{IsBest, IsNext};
ghost use Rattle.search.specs.Table.{IsAscending, in_range, name_of, place_in, places_eq, rules_of};
ghost use Rattle.search.specs.Tied.Front.{IsFront, IsFrontOf};
ghost use Rattle.search.specs.Tied.Search.{pins_of};
ghost use Rattle.search.specs.declared.parts.Frame.{Frame};
ghost use Rattle.set_conflicts.specs.Tied.Domains.{Excludes};
ghost use Rattle.set_conflicts.specs.Tied.Replay.{IsReplay, IsTurn};

use crate::derivation::{Derivation, DerivationCause};
use crate::domains::Domains;
use crate::justification::{is_cut_by, is_derived, is_needed_for, is_passed_over};
use crate::table_term::TableTerm;
use lists::Seq;
use search::{Frame, Front, Table, TableChoice, choices_of};
use std::alloc::{AllocError, Global};

/// A move of a search.
#[derive(Drop)]
pub enum Move {
    /// Something was derived.
    Derived(Derivation),
    /// The next name was walked, by the first candidate that is left of this node of it.
    Walked(usize),
}

/// What is walked, and what is known of the solutions that have it.
#[derive(Drop)]
pub struct Replay {
    frames: Vec<Frame>,
    front: Front,
    domains: Domains,
}

/// The turn of the first candidate that is left of a node.
fn first_turn(table: &Table, domains: &Domains, node: usize) -> Option<usize>
    requires { node < length table.now.nodes }
    ensures { MatchOption result Unit (IsTurn table.now domains.now node) }
{
    let Some(set) = domains.needed_set(node) else {
        return None;
    };
    let candidates = table.candidates(table.name_of(node));
    for turn in 0..candidates.len() {
        if set.has(candidates[turn]) {
            return Some(turn);
        }
    }
    None
}

/// Whether the name of a node is the least one that is needed and not walked.
fn is_next(table: &Table, front: &Front, node: usize) -> bool
    requires below { node < length table.now.nodes }
    requires front { IsFront table.now front.now }
    ensures { IsTrue result → (frames : List Frame) → IsFrontOf table.now frames front.now
        → IsNext (rules_of table.now) (pins_of frames) (name_of table.now node) }
{
    let Some(name) = front.least_free(table) else {
        return false;
    };
    if name != table.name_of(node) {
        return false;
    }
    true
}

impl Replay {
    /// Nothing is walked.
    fn start(alloc: Global, table: &Table) -> Result<Replay, AllocError>
        ensures { IfOk result (IsReplay table.now) }
    {
        let frames = Vec::new(alloc);
        let front = Front::of(alloc, table, frames.as_slice())?;
        let domains = Domains::start(alloc, table)?;
        Ok(Replay {
            frames,
            front,
            domains,
        })
    }

    /// Walks the name of a node, with the candidate of a turn.
    fn push(&mut self, table: &Table, node: usize, turn: usize) -> Result<(), AllocError>
        requires known { in_range table.now ≡ true }
        requires below { node < length table.now.nodes }
        requires replay { IsReplay table.now self.old }
        requires fits { self.old.front.clashes ≡ false }
        requires next { IsNext (rules_of table.now) (pins_of self.old.frames.items) (name_of
            table.now node) }
        requires turn { IsTurn table.now self.old.domains node turn }
        ensures { IfOk result (λ _. IsReplay table.now self.new) }
    {
        let name = table.name_of(node);
        let candidates = table.candidates(name);
        let frame = Frame {
            name,
            place: candidates[turn],
            turn,
        };
        self.frames.push(frame)?;
        self.front.enter(table, frame)?;
        Ok(())
    }

    /// Walks the next name, if the node is on it, with the first candidate that is left there.
    fn walk(&mut self, table: &Table, node: usize) -> Result<bool, AllocError>
        requires known { in_range table.now ≡ true }
        requires replay { IsReplay table.now self.old }
        ensures { IfOk result (λ walked. IsTrue walked → IsReplay table.now self.new) }
    {
        if node >= table.node_count() || self.front.clashes() {
            return Ok(false);
        }
        if !is_next(table, &self.front, node) {
            return Ok(false);
        }
        let Some(turn) = first_turn(table, &self.domains, node) else {
            return Ok(false);
        };
        self.push(table, node, turn)?;
        Ok(true)
    }

    /// Marks a node, if it is needed.
    fn mark(
        &mut self,
        alloc: Global,
        table: &Table,
        node: usize,
        cause: DerivationCause,
    ) -> Result<bool, AllocError>
        requires known { in_range table.now ≡ true }
        requires replay { IsReplay table.now self.old }
        ensures { IfOk result (λ _. IsReplay table.now self.new) }
    {
        if !is_needed_for(alloc, table, &self.domains, node, cause)? {
            return Ok(false);
        }
        self.domains.need(node);
        Ok(true)
    }

    /// Whether no solution that has what is walked has one of the places that a derivation cuts.
    fn is_excluded(
        &self,
        alloc: Global,
        table: &Table,
        recorded: &[Seq<TableTerm>],
        derivation: &Derivation,
    ) -> Result<bool, AllocError>
        requires known { in_range table.now ≡ true }
        requires each { EachSetFollows (rules_of table.now) places_eq [] recorded.now }
        requires replay { IsReplay table.now self.now }
        ensures { IfOk result (λ is_excluded. IsTrue is_excluded
            → Excludes (rules_of table.now) (pins_of self.now.frames.items)
            derivation.now.term.node derivation.now.term.versions) }
    {
        let Replay { front, domains, .. } = self;
        let cut = &derivation.term;
        match derivation.cause {
            DerivationCause::Decision => Ok(is_passed_over(table, front, cut)),
            DerivationCause::Incompatibility(at) => {
                Ok(is_cut_by(table, recorded, domains, at, cut))
            }
            _ => is_derived(alloc, table, recorded, domains, derivation),
        }
    }

    /// Takes out what a derivation cuts, if no solution has it.
    fn cut(
        &mut self,
        alloc: Global,
        table: &Table,
        recorded: &[Seq<TableTerm>],
        derivation: &Derivation,
    ) -> Result<bool, AllocError>
        requires known { in_range table.now ≡ true }
        requires each { EachSetFollows (rules_of table.now) places_eq [] recorded.now }
        requires replay { IsReplay table.now self.old }
        ensures { IfOk result (λ _. IsReplay table.now self.new) }
    {
        if !self.is_excluded(alloc, table, recorded, derivation)? {
            return Ok(false);
        }
        self.domains
            .cut(derivation.term.node(), derivation.term.set());
        Ok(true)
    }

    /// Makes a move, if it holds.
    fn make(
        &mut self,
        alloc: Global,
        table: &Table,
        recorded: &[Seq<TableTerm>],
        step: &Move,
    ) -> Result<bool, AllocError>
        requires known { in_range table.now ≡ true }
        requires each { EachSetFollows (rules_of table.now) places_eq [] recorded.now }
        requires replay { IsReplay table.now self.old }
        ensures { IfOk result (λ made. IsTrue made → IsReplay table.now self.new) }
    {
        match step {
            Move::Walked(node) => self.walk(table, *node),
            Move::Derived(derivation) => {
                if derivation.is_need {
                    let node = derivation.term.node();
                    let marked = self.mark(alloc, table, node, derivation.cause)?;
                    return Ok(marked);
                }
                self.cut(alloc, table, recorded, derivation)
            }
        }
    }

    /// What is walked, in the order of the names, if it meets all that is required.
    fn choices(&self, alloc: Global, table: &Table) -> Result<Option<Seq<TableChoice>>, AllocError>
        requires known { in_range table.now ≡ true }
        requires replay { IsReplay table.now self.now }
        ensures best { IfOk result (λ answer. IfSome answer (λ choices. IsBest (rules_of
            table.now) (place_in choices))) }
        ensures ascending { IfOk result (λ answer. IfSome answer IsAscending) }
    {
        if self.front.clashes() {
            return Ok(None);
        }
        match self.front.least_free(table) {
            Some(_) => Ok(None),
            None => {
                let choices = choices_of(alloc, table, self.frames.as_slice())?;
                Ok(Some(choices))
            }
        }
    }
}

/// What these moves walk, if each of them holds and what is walked meets all that is required. Then
/// it is the best solution.
pub fn replayed(
    alloc: Global,
    table: &Table,
    recorded: &[Seq<TableTerm>],
    moves: &[Move],
) -> Result<Option<Seq<TableChoice>>, AllocError>
    requires { EachSetFollows (rules_of table.now) places_eq [] recorded.now }
    ensures best { IfOk result (λ answer. IfSome answer (λ choices. IsBest (rules_of
        table.now) (place_in choices))) }
    ensures ascending { IfOk result (λ answer. IfSome answer IsAscending) }
{
    let _known = table.name_count();
    let mut replay = Replay::start(alloc, table)?;
    for step in moves {
        if !replay.make(alloc, table, recorded, step)? {
            return Ok(None);
        }
    }
    replay.choices(alloc, table)
}
