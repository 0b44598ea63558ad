// What each conflict of a set refutation rests on.

ghost use Rattle.std.specs.Prelude.{◌<◌, ℕ, [], IfOk, IfSome, MatchOption, length, map};
ghost use Rattle.std.specs.List.{Contains, slice_index_or};
ghost use Rattle.search.specs.SetConflicts.{EachSetFollows, IsSetRefutation, SetFollows};
ghost use Rattle.problems.specs.Rules.{rules_of, same_version};
ghost use Rattle.set_refutations.specs.Grounds.{IsSetGround};

use crate::exhausting::exhausting;
use lists::Seq;
use problems::Problem;
use search::Watch;
use set_refutations::placed::PlacedTerm;
use set_refutations::{
    EarlierSets, PlacedRefutation, SetGround, SetTerm, ends_empty, set_ground_of,
};
use std::alloc::{AllocError, Global};

/// The places of those of the earlier conflicts that are marked.
fn marked(alloc: Global, earlier: &[Seq<SetTerm>], marks: &[bool]) -> Result<Vec<usize>, AllocError>
    ensures { IfOk result
        (λ found. (place : ℕ) → Contains found.items place → place < length earlier.now) }
{
    let mut found = Vec::new(alloc);
    for at in 0..earlier.len() {
        if marks.get(at).copied().unwrap_or(false) {
            found.push(at)?;
        }
    }
    Ok(found)
}

/// What `set_ground_of` gives with the earlier conflicts at some places.
fn ground_at<'a>(
    problem: &'a Problem<'_>,
    earlier: &[Seq<SetTerm>],
    places: &[usize],
    conflict: &[SetTerm],
) -> Option<SetGround<'a>>
    ensures { MatchOption result
        (SetFollows (rules_of problem.now) same_version
        (map (λ place. slice_index_or earlier.now place []) places.now) conflict.now → ⊥)
        (IsSetGround problem.now (map (λ place. slice_index_or earlier.now place []) places.now)
        conflict.now) }
{
    set_ground_of(problem, &EarlierSets::few(earlier, places), conflict)
}

/// A ground by which a conflict follows from the few earlier ones that are marked, since each look for one goes through all. There is
/// none either where memory is wanting.
fn ground_by_few<'a>(
    alloc: Global,
    problem: &'a Problem<'_>,
    earlier: &[Seq<SetTerm>],
    conflict: &[SetTerm],
    marks: &[bool],
) -> Option<SetGround<'a>>
    ensures { IfSome result (IsSetGround problem.now earlier.now conflict.now) }
{
    let Ok(few) = marked(alloc, earlier, marks) else {
        return None;
    };
    ground_at(problem, earlier, few.as_slice(), conflict)
}

/// What `set_ground_of` gives, which is looked for among few of the earlier conflicts before it is looked for among all.
fn ground_among<'a>(
    alloc: Global,
    problem: &'a Problem<'_>,
    earlier: &[Seq<SetTerm>],
    conflict: &[SetTerm],
    marks: &[bool],
) -> Option<SetGround<'a>>
    ensures { MatchOption result
        (SetFollows (rules_of problem.now) same_version earlier.now conflict.now → ⊥)
        (IsSetGround problem.now earlier.now conflict.now) }
{
    if let Some(ground) = ground_by_few(alloc, problem, earlier, conflict, marks) {
        return Some(ground);
    }
    set_ground_of(problem, &EarlierSets::all(earlier), conflict)
}

/// Which of the conflicts before the one at a place can matter to it.
fn marks_for(
    alloc: Global,
    problem: &Problem<'_>,
    placed: &[Vec<PlacedTerm>],
    place: usize,
) -> Result<Vec<bool>, AllocError> {
    match (placed.get(..place), placed.get(place)) {
        (Some(earlier), Some(own)) => exhausting(alloc, problem, earlier, own.as_slice()),
        _ => Ok(Vec::new(alloc)),
    }
}

/// A ground for each conflict, by which it follows from those before it; nothing where one doesn't follow.
fn each_ground<'a, W: Watch>(
    alloc: Global,
    problem: &'a Problem<'_>,
    conflicts: &[Seq<SetTerm>],
    placed: &[Vec<PlacedTerm>],
    watch: &mut W,
) -> Result<Option<Vec<SetGround<'a>>>, AllocError>
    ensures { IfOk result
        (λ found. MatchOption found
        (EachSetFollows (rules_of problem.now) same_version [] conflicts.now → ⊥)
        (λ _. EachSetFollows (rules_of problem.now) same_version [] conflicts.now)) }
{
    let mut grounds = Vec::new(alloc);
    for place in 0..conflicts.len() {
        watch.goes_on();
        let marks = marks_for(alloc, problem, placed, place)?;
        match ground_among(
            alloc,
            problem,
            &conflicts[..place],
            conflicts[place].as_slice(),
            marks.as_slice(),
        ) {
            Some(ground) => grounds.push(ground)?,
            None => return Ok(None),
        }
    }
    Ok(Some(grounds))
}

/// A ground for each conflict of a refutation of the problem, in their order; nothing where the list is none.
pub fn grounds_of<'a, W: Watch>(
    alloc: Global,
    problem: &'a Problem<'_>,
    refutation: &PlacedRefutation,
    watch: &mut W,
) -> Result<Option<Vec<SetGround<'a>>>, AllocError>
    ensures { IfOk result
        (λ found. MatchOption found
        (IsSetRefutation (rules_of problem.now) same_version refutation.now → ⊥)
        (λ _. IsSetRefutation (rules_of problem.now) same_version refutation.now)) }
{
    if !ends_empty(refutation.conflicts()) {
        return Ok(None);
    }
    each_ground(
        alloc,
        problem,
        refutation.conflicts(),
        refutation.terms(),
        watch,
    )
}
