// Which conflicts of a refutation are told, and by which numbers.

use crate::account::{Account, Derived};
use crate::derivation::Derivation;
use crate::exclusion::Exclusion;
use crate::sides::Party;
use phrases::SOUGHT;
use set_refutations::SetNeed;
use std::alloc::{AllocError, Global};
use std::collections::BTreeSet;

/// A conflict that gets a sentence, by its place, and what is told of it.
#[derive(Drop)]
pub struct Step {
    pub conflict: usize,
    pub account: Account,
}

// A visit on the walk from the last conflict to those that it cites.
#[derive(Drop)]
enum Visit {
    Enter(usize),
    Leave(Step),
}

/// The conflicts that get a sentence: the last one and those on which it rests, but for those whose ground
/// is told where they are cited. Each stands behind those that its own sentence cites, in the order in which
/// it cites them.
pub fn told_steps(derived: Derived<'_>) -> Result<Vec<Step>, AllocError> {
    let mut told = Vec::new(derived.alloc);
    let mut entered = BTreeSet::new(derived.alloc);
    let mut visits = Vec::new(derived.alloc);
    visits.push(Visit::Enter(derived.derivations.len().saturating_sub(1)))?;
    for _ in 0..usize::MAX {
        match visits.pop() {
            Some(Visit::Enter(at)) => enter(&mut visits, &mut entered, derived, at)?,
            Some(Visit::Leave(step)) => told.push(step)?,
            None => return Ok(told),
        }
    }
    Ok(told)
}

/// Puts what the sentence of a conflict cites before its own visit. A conflict is entered once.
fn enter(
    visits: &mut Vec<Visit>,
    entered: &mut BTreeSet<usize>,
    derived: Derived<'_>,
    at: usize,
) -> Result<(), AllocError> {
    if !entered.insert(at)? {
        return Ok(());
    }
    let Some(account) = derived.account(at)? else {
        return Ok(());
    };
    let cited = cited_by(derived.alloc, account.exclusions())?;
    visits.push(Visit::Leave(Step {
        conflict: at,
        account,
    }))?;
    for earlier in cited.as_slice().iter().rev() {
        visits.push(Visit::Enter(*earlier))?;
    }
    Ok(())
}

/// The conflicts that some exclusions name.
fn cited_by(alloc: Global, exclusions: &[Exclusion]) -> Result<Vec<usize>, AllocError> {
    let mut cited = Vec::new(alloc);
    for exclusion in exclusions {
        cited.push(exclusion.conflict)?;
    }
    Ok(cited)
}

/// The number of a conflict's sentence, from 1.
pub fn number_of(steps: &[Step], conflict: usize) -> Option<usize> {
    let place = steps.iter().position(|step| step.conflict == conflict)?;
    Some(place.saturating_add(1))
}

/// The first conflicts at which the index lacks what is needed, as many as names near to it are looked for.
pub fn first_missing(alloc: Global, steps: &[Step]) -> Result<Vec<usize>, AllocError> {
    let mut first = Vec::new(alloc);
    for step in steps {
        if first.len() < SOUGHT && matches!(step.account, Account::Missing) {
            first.push(step.conflict)?;
        }
    }
    Ok(first)
}

/// The places of the active lines on which the sentences rest, in their order.
pub fn cited_lines(derived: Derived<'_>, steps: &[Step]) -> Result<Vec<usize>, AllocError> {
    let mut lines = BTreeSet::new(derived.alloc);
    for step in steps {
        add_lines(&mut lines, derived, step)?;
    }
    let mut listed = Vec::new(derived.alloc);
    for place in lines.iter() {
        listed.push(*place)?;
    }
    Ok(listed)
}

/// Those of one sentence.
fn add_lines(
    lines: &mut BTreeSet<usize>,
    derived: Derived<'_>,
    step: &Step,
) -> Result<(), AllocError> {
    if let Account::Sides(sides) = &step.account {
        for side in sides.as_slice() {
            if let Party::Line(place) = side.party {
                lines.insert(place)?;
            }
        }
        return Ok(());
    }
    if let Some(SetNeed::Line(place)) = derived.need_of(step.conflict) {
        lines.insert(place)?;
    }
    for exclusion in step.account.exclusions() {
        if let Some(Derivation::Line(place, _)) = derived.derivations.get(exclusion.conflict) {
            lines.insert(*place)?;
        }
    }
    Ok(())
}
