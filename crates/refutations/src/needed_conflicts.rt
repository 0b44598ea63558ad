// Refutations without the conflicts that their last one doesn't rest on.

ghost use Rattle.std.specs.Prelude.{IfOk, IfSome};
ghost use Rattle.search.specs.Conflicts.{IsRefutation};
ghost use Rattle.problems.specs.Rules.{rules_of, same_version};

use crate::checker::check_watched;
use crate::choice::Choice;
use crate::ground::Ground;
use crate::grounds::completion::completed_at;
use crate::grounds::earlier::Earlier;
use crate::grounds::found_ground;
use crate::grounds::hints::places_of;
use crate::refutation::Refutation;
use lists::Seq;
use problems::Problem;
use problems::parts::{LentChoice, LentNode};
use search::Watch;
use std::alloc::{AllocError, Global};

/// Whether a place is marked.
fn is_marked(marks: &[bool], place: usize) -> bool {
    place < marks.len() && marks[place]
}

/// Marks a place; nothing where there is no such place.
fn mark(marks: &mut [bool], place: usize) {
    if let Some(marked) = marks.get_mut(place) {
        *marked = true;
    }
}

/// Marks for each candidate at the node an earlier conflict that the conflict contains with it.
fn mark_completed(
    marks: &mut [bool],
    problem: &Problem<'_>,
    earlier: Earlier<'_, '_, '_, '_>,
    conflict: &[Choice],
    node: &LentNode<'_>,
) {
    for release in problem.eligible(node.name) {
        let version = release.version();
        if let Some(place) = completed_at(earlier, conflict, &LentChoice { node, version }) {
            mark(marks, place);
        }
    }
}

/// Marks the earlier conflicts that a conflict rests on.
fn mark_grounds(
    marks: &mut [bool],
    problem: &Problem<'_>,
    earlier: Earlier<'_, '_, '_, '_>,
    conflict: &[Choice],
) {
    if let Some(Ground::NoneLeft(_, name, extra)) = found_ground(problem, earlier, conflict) {
        mark_completed(marks, problem, earlier, conflict, &LentNode { name, extra });
    }
}

/// Marks, from the last conflict back, what each marked one rests on.
fn mark_back<W: Watch>(
    alloc: Global,
    marks: &mut [bool],
    problem: &Problem<'_>,
    conflicts: &[Seq<Choice>],
    watch: &mut W,
) -> Result<(), AllocError> {
    let places = places_of(alloc, problem, conflicts)?;
    for behind in 0..conflicts.len() {
        watch.goes_on();
        let place = conflicts.len() - 1 - behind;
        if is_marked(marks, place) {
            let found = places.hints(place)?;
            let hints = Some(&found);
            let earlier = Earlier {
                conflicts: &conflicts[..place],
                hints,
            };
            mark_grounds(marks, problem, earlier, conflicts[place].as_slice());
        }
    }
    Ok(())
}

/// The conflicts at the marked places.
fn kept(
    alloc: Global,
    marks: &[bool],
    conflicts: &[Seq<Choice>],
) -> Result<Refutation, AllocError> {
    let mut kept = Vec::new(alloc);
    for place in 0..conflicts.len() {
        if is_marked(marks, place) {
            kept.push(conflicts[place].clone()?)?;
        }
    }
    Ok(Refutation::new(Seq::from_vec(kept)))
}

/// The conflicts that the last one rests on, and the last one.
fn needed<W: Watch>(
    alloc: Global,
    problem: &Problem<'_>,
    conflicts: &[Seq<Choice>],
    watch: &mut W,
) -> Result<Refutation, AllocError> {
    let mut marks = vec![in alloc; false; conflicts.len()]?;
    if !conflicts.is_empty() {
        mark(&mut marks, conflicts.len() - 1);
    }
    mark_back(alloc, &mut marks, problem, conflicts, watch)?;
    kept(alloc, &marks, conflicts)
}

/// The conflicts, where `check` accepts them.
fn checked<W: Watch>(
    problem: &Problem<'_>,
    conflicts: Refutation,
    watch: &mut W,
) -> Option<Refutation>
    ensures { IfSome result (IsRefutation (rules_of problem.now) same_version) }
{
    if check_watched(problem, &conflicts, watch) {
        return Some(conflicts);
    }
    None
}

/// The refutation without the conflicts that its last one doesn't rest on. Somebody is told that it goes on.
pub fn cut<W: Watch>(
    alloc: Global,
    problem: &Problem<'_>,
    refutation: Refutation,
    watch: &mut W,
) -> Result<Refutation, AllocError>
    requires { IsRefutation (rules_of problem.now) same_version refutation }
    ensures { IfOk result (IsRefutation (rules_of problem.now) same_version) }
{
    let shorter = needed(alloc, problem, refutation.conflicts(), watch)?;
    if shorter.conflicts().len() == refutation.conflicts().len() {
        return Ok(refutation);
    }
    match checked(problem, shorter, watch) {
        Some(shorter) => Ok(shorter),
        None => Ok(refutation),
    }
}

/// Of conflicts, whoever made them, those that the last one rests on, where `check` accepts these; else all, where it accepts
/// them. Nothing where it accepts neither. Somebody is told that it goes on.
pub fn accepted<W: Watch>(
    alloc: Global,
    problem: &Problem<'_>,
    conflicts: Refutation,
    watch: &mut W,
) -> Result<Option<Refutation>, AllocError>
    ensures { IfOk result
        (λ found. IfSome found (IsRefutation (rules_of problem.now) same_version)) }
{
    let shorter = needed(alloc, problem, conflicts.conflicts(), watch)?;
    match checked(problem, shorter, watch) {
        Some(shorter) => Ok(Some(shorter)),
        None => Ok(checked(problem, conflicts, watch)),
    }
}
