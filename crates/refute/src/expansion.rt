// Refutations by conflicts of single versions that are made of those by sets. What is made is trusted for nothing: `check`
// accepts it, or a search by single versions answers.

ghost use Rattle.std.specs.Prelude.{IfOk, IfSome, MatchOption};
ghost use Rattle.search.specs.Conflicts.{IsRefutation};
ghost use Rattle.problems.specs.Rules.{rules_of, same_version};
ghost use Rattle.problems.specs.Solutions.{HasSolution};

mod containable;
mod descent;
mod frame;
mod numbered_sets;
mod placed_choice;
mod single_conflicts;

use crate::answer::refute_singly;
use crate::expansion::descent::Descent;
use crate::expansion::numbered_sets::SetConflicts;
use crate::expansion::placed_choice::PlacedChoice;
use crate::set_answer::refute_by_sets;
use lists::{Seq, copy_of};
use problems::Problem;
use refutations::{Choice, Refutation, accepted};
use search::Watch;
use set_refutations::PlacedRefutation;
use std::alloc::{AllocError, Global};

/// The choice that one by numbers stands for; nothing where there is none.
fn choice_of(
    problem: &Problem<'_>,
    sets: &SetConflicts<'_>,
    placed: PlacedChoice,
) -> Result<Option<Choice>, AllocError> {
    let Some(node) = sets.node(placed.node) else {
        return Ok(None);
    };
    let Some(release) = problem.releases(&node.name).get(placed.place) else {
        return Ok(None);
    };
    Ok(Some(Choice {
        name: node.name.clone()?,
        extra: copy_of(node.extra.as_ref())?,
        version: release.version().clone()?,
    }))
}

fn conflict_of(
    alloc: Global,
    problem: &Problem<'_>,
    sets: &SetConflicts<'_>,
    placed: &[PlacedChoice],
) -> Result<Seq<Choice>, AllocError> {
    let mut choices = Vec::with_capacity(alloc, placed.len())?;
    for choice in placed {
        if let Some(choice) = choice_of(problem, sets, *choice)? {
            choices.push(choice)?;
        }
    }
    Ok(Seq::from_vec(choices))
}

/// The list of the conflicts that were made, with names and versions.
fn listed(
    alloc: Global,
    problem: &Problem<'_>,
    descent: &Descent<'_>,
) -> Result<Refutation, AllocError> {
    let made = descent.made();
    let mut conflicts = Vec::with_capacity(alloc, made.len())?;
    for placed in made {
        conflicts.push(conflict_of(alloc, problem, descent.sets(), placed.as_slice())?)?;
    }
    Ok(Refutation::new(Seq::from_vec(conflicts)))
}

/// A list of single versions that is made of a refutation by sets; nothing where it grows past a bound.
fn expanded<W: Watch>(
    alloc: Global,
    problem: &Problem<'_>,
    refutation: PlacedRefutation,
    watch: &mut W,
) -> Result<Option<Refutation>, AllocError> {
    let sets = SetConflicts::new(alloc, problem, refutation);
    let mut descent = Descent::new(alloc, sets);
    if descent.run(watch)? {
        return Ok(Some(listed(alloc, problem, &descent)?));
    }
    Ok(None)
}

/// The same list without the conflicts that its last one doesn't rest on, where `check` accepts it.
fn accepted_list<W: Watch>(
    alloc: Global,
    problem: &Problem<'_>,
    refutation: PlacedRefutation,
    watch: &mut W,
) -> Result<Option<Refutation>, AllocError>
    ensures { IfOk result
        (λ found. IfSome found (IsRefutation (rules_of problem.now) same_version)) }
{
    match expanded(alloc, problem, refutation, watch)? {
        Some(list) => accepted(alloc, problem, list, watch),
        None => Ok(None),
    }
}

/// A refutation of the problem, which `check` accepts: one that is made of a refutation by sets; where that isn't
/// accepted, or grows past a bound, what `refute_singly` finds. Nothing where the problem has a solution. Somebody is told
/// that it goes on.
pub fn refute_by_choices<W: Watch>(
    alloc: Global,
    problem: &Problem<'_>,
    watch: &mut W,
) -> Result<Option<Refutation>, AllocError>
    ensures { IfOk result
        (λ found. MatchOption found (HasSolution problem.now)
        (IsRefutation (rules_of problem.now) same_version)) }
{
    match refute_by_sets(alloc, problem, watch)? {
        Some(sets) => match accepted_list(alloc, problem, sets, watch)? {
            Some(refutation) => Ok(Some(refutation)),
            None => refute_singly(alloc, problem, watch),
        },
        None => Ok(None),
    }
}
