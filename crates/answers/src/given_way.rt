// Which name gives way to a release: a solution with it that keeps what is locked as long as it can.

use crate::with_release::has;
use edits::{Learning, Name, Problem, Resolver};
use explain::next_name;
use lists::Seq;
use pep440::Version;
use resolve::Answer;
use std::alloc::{AllocError, Global};
use std::collections::BTreeMap;

/// A name that a walk takes, and its locked version; none where it isn't locked.
#[derive(Drop)]
struct Taken {
    name: Name,
    locked: Option<Version>,
}

/// A solution with a line on a release that keeps what is locked as long as the walk of the problem without that line
/// can: up to the first name that no solution keeps at its locked version beside what is taken before it. There it has
/// the newest version that goes with these. `asked` is the problem with the line, which is on this name, and `best` one of its
/// solutions.
pub fn kept_longest(
    alloc: Global,
    present: &Problem<'_>,
    asked: &Problem<'_>,
    name: &Name,
    mut best: BTreeMap<Name, Version>,
) -> Result<BTreeMap<Name, Version>, AllocError> {
    let taken = locked_walk(alloc, present, name)?;
    let walk = taken.as_slice();
    let mut asked = keeping_alone(alloc, asked)?;
    let mut kept = count_kept(walk, &best);
    let mut most = count_locked(walk);
    let mut step = 1usize;
    for _ in 0..walk.len() {
        if kept >= most {
            break;
        }
        let tried = kept.saturating_add(step).min(most);
        asked.kept = front_of(alloc, walk, tried)?;
        match Learning.resolve(alloc, &asked)? {
            Answer::Solution(other) => {
                kept = count_kept(walk, &other).max(tried);
                best = other;
                step = step.saturating_mul(2);
            }
            Answer::NoSolution => {
                most = tried.saturating_sub(1);
                step = 1;
            }
        }
    }
    asked.kept = front_of(alloc, walk, kept)?;
    match walk.get(kept) {
        Some(next) => newest_beside(alloc, asked, &next.name, best),
        None => Ok(best),
    }
}

/// The problem, in which no other version counts beside one that is kept; none is kept yet.
fn keeping_alone<'a>(alloc: Global, problem: &Problem<'a>) -> Result<Problem<'a>, AllocError> {
    let mut active = Vec::with_capacity(alloc, problem.active.len())?;
    for requirement in problem.active.as_slice() {
        active.push(requirement.clone()?)?;
    }
    let environment = problem.environment.clone()?;
    Ok(Problem {
        active: Seq::from_vec(active),
        environment,
        snapshot: problem.snapshot,
        kept: BTreeMap::new(alloc),
        only_kept: true,
    })
}

/// What the walk of a problem takes before this name as long as it takes locked versions, and the first name that isn't locked.
fn locked_walk(
    alloc: Global,
    problem: &Problem<'_>,
    sought: &Name,
) -> Result<Vec<Taken>, AllocError> {
    let mut walk = Vec::new(alloc);
    let mut taken = BTreeMap::new(alloc);
    for _ in 0..problem.kept.len() {
        let Some(name) = next_name(alloc, problem, &taken)? else {
            break;
        };
        if name == *sought {
            break;
        }
        let Some(version) = problem.kept.get(&name) else {
            walk.push(Taken { name, locked: None })?;
            break;
        };
        taken.insert(name.clone()?, version.clone()?)?;
        let locked = Some(version.clone()?);
        walk.push(Taken { name, locked })?;
    }
    Ok(walk)
}

/// How many names at the front of a walk a solution has at their locked versions.
fn count_kept(walk: &[Taken], solution: &BTreeMap<Name, Version>) -> usize {
    let other = walk.iter().position(|taken| match &taken.locked {
        Some(version) => !has(solution, &taken.name, version),
        None => true,
    });
    other.unwrap_or(walk.len())
}

/// How many names at the front of a walk are locked.
fn count_locked(walk: &[Taken]) -> usize {
    let other = walk.iter().position(|taken| taken.locked.is_none());
    other.unwrap_or(walk.len())
}

/// The locked versions of so many names at the front of a walk.
fn front_of(
    alloc: Global,
    walk: &[Taken],
    count: usize,
) -> Result<BTreeMap<Name, Version>, AllocError> {
    let mut versions = BTreeMap::new(alloc);
    for taken in walk.iter().take(count) {
        if let Some(version) = &taken.locked {
            versions.insert(taken.name.clone()?, version.clone()?)?;
        }
    }
    Ok(versions)
}

/// Of the solutions that keep what the problem holds one with the newest version of this name, where one of them has a
/// newer version than this solution.
fn newest_beside(
    alloc: Global,
    mut asked: Problem<'_>,
    name: &Name,
    best: BTreeMap<Name, Version>,
) -> Result<BTreeMap<Name, Version>, AllocError> {
    let snapshot = asked.snapshot;
    for release in snapshot.releases(name) {
        let version = release.version();
        if has(&best, name, version) {
            break;
        }
        asked.kept.insert(name.clone()?, version.clone()?)?;
        if let Answer::Solution(newer) = Learning.resolve(alloc, &asked)? {
            return Ok(newer);
        }
    }
    Ok(best)
}
