// A plain backtracking search.

ghost use Rattle.std.specs.Prelude.{◌≡◌, ◌<◌, ◌+◌, ◌-◌, [], IfOk, IsTrue, IsFalse, MatchOption, length, true, false};
ghost use Rattle.std.specs.List.{slice_index_or};
ghost use Rattle.search.specs.Tied.Front.{IsFrontOf};
ghost use Rattle.search.specs.Tied.Search.{pins_of, IsSearch, IsRefuted};
ghost use Rattle.search.specs.Solutions.{HasNoSolution, IsBest, IsNext};
ghost use Rattle.plain_search.specs.declared.backtracking.Step.TheVariants.{Entered};
ghost use Rattle.plain_search.specs.Tied.Steps.{IsTried, IsForward, IsStep};
ghost use Rattle.search.specs.Table.{rules_of, in_range, place_in, IsAscending};

use lists::Seq;
use search::{Frame, Front, Table, TableChoice, choices_of};
use std::alloc::{AllocError, Global};

/// What a step of a search finds.
#[derive(Debug, Drop)]
pub enum Step {
    Complete,
    Entered,
    Refuted,
}

/// Takes a name with the candidate of a turn, if it has one.
fn try_turn(
    table: &Table,
    frames: &mut Vec<Frame>,
    name: usize,
    turn: usize,
) -> Result<bool, AllocError>
    ensures { IfOk result
        (λ found. IsTried table.now name turn frames.old.items frames.new.items found) }
{
    let candidates = table.candidates(name);
    if turn >= candidates.len() {
        return Ok(false);
    }
    let place = candidates[turn];
    frames.push(Frame { name, place, turn })?;
    Ok(true)
}

/// Takes the name of a frame with its next candidate, if it has one.
fn try_next(table: &Table, frames: &mut Vec<Frame>, last: Frame) -> Result<bool, AllocError>
    ensures { IfOk result
        (λ found. IsTried table.now last.name (last.turn + 1) frames.old.items frames.new.items
        found) }
{
    let count = table.candidates(last.name).len();
    if count == 0 || last.turn >= count - 1 {
        return Ok(false);
    }
    try_turn(table, frames, last.name, last.turn + 1)
}

/// Drops refuted choices, and moves on to the next candidate of the last name that has one.
fn retreat(table: &Table, frames: &mut Vec<Frame>) -> Result<bool, AllocError>
    requires known { in_range table.now ≡ true }
    requires search { IsSearch (rules_of table.now) [] frames.old.items }
    requires refuted { IsRefuted (rules_of table.now) (pins_of frames.old.items) }
    ensures search { IfOk result (λ found. IsTrue found
        → IsSearch (rules_of table.now) [] frames.new.items) }
    ensures forward { IfOk result (λ found. IsTrue found
        → IsForward frames.old.items frames.new.items) }
    ensures none { IfOk result (λ found. IsFalse found → HasNoSolution (rules_of table.now)) }
{
    while let Some(last) = frames.pop() {
        if try_next(table, frames, last)? {
            return Ok(true);
        }
    }
    Ok(false)
}

/// The last frame.
fn last_of(frames: &[Frame]) -> Frame
    requires { 0 < length frames.now }
    ensures { result ≡ slice_index_or frames.now (length frames.now - 1) result }
{
    frames[frames.len() - 1]
}

/// Takes the next name with its first candidate, if it has one.
fn enter(
    table: &Table,
    frames: &mut Vec<Frame>,
    front: &mut Front,
    name: usize,
) -> Result<Step, AllocError>
    requires known { in_range table.now ≡ true }
    requires search { IsSearch (rules_of table.now) [] frames.old.items }
    requires stands { IsFrontOf table.now frames.old.items front.old }
    requires fits { front.old.clashes ≡ false }
    requires next { IsNext (rules_of table.now) (pins_of frames.old.items) name }
    ensures step { IfOk result (λ step. IsStep table.now frames.old.items frames.new.items step) }
    ensures stands { IfOk result (λ step. step ≡ Entered
        → IsFrontOf table.now frames.new.items front.new) }
{
    if !try_turn(table, frames, name, 0)? {
        return Ok(Step::Refuted);
    }
    front.enter(table, last_of(frames.as_slice()))?;
    Ok(Step::Entered)
}

/// One step onward.
fn advance(table: &Table, frames: &mut Vec<Frame>, front: &mut Front) -> Result<Step, AllocError>
    requires known { in_range table.now ≡ true }
    requires search { IsSearch (rules_of table.now) [] frames.old.items }
    requires stands { IsFrontOf table.now frames.old.items front.old }
    ensures step { IfOk result (λ step. IsStep table.now frames.old.items frames.new.items step) }
    ensures stands { IfOk result (λ step. step ≡ Entered
        → IsFrontOf table.now frames.new.items front.new) }
{
    if front.clashes() {
        return Ok(Step::Refuted);
    }
    match front.least_free(table) {
        None => Ok(Step::Complete),
        Some(name) => enter(table, frames, front, name),
    }
}

/// The best solution of a table, its choices in the order of their names; nothing where there is
/// no solution.
pub fn best(alloc: Global, table: &Table) -> Result<Option<Seq<TableChoice>>, AllocError>
    ensures best { IfOk result
        (λ answer. MatchOption answer (HasNoSolution (rules_of table.now))
        (λ choices. IsBest (rules_of table.now) (place_in choices))) }
    ensures ascending { IfOk result
        (λ answer. MatchOption answer Unit (λ choices. IsAscending choices)) }
{
    let mut frames = Vec::with_capacity(alloc, table.name_count())?;
    let mut front = Front::of(alloc, table, frames.as_slice())?;
    'search: loop {
        match advance(table, &mut frames, &mut front)? {
            Step::Complete => {
                let choices = choices_of(alloc, table, frames.as_slice())?;
                return Ok(Some(choices));
            }
            Step::Entered => {}
            Step::Refuted => {
                if !retreat(table, &mut frames)? {
                    return Ok(None);
                }
                front = Front::of(alloc, table, frames.as_slice())?;
            }
        }
    }
}
