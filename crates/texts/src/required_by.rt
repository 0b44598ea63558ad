// What requires the entries of a lock.

use crate::lock_text::position_of;
use edits::{Entry, Environment, Line, Name, Problem, ReqFile, Requirement, Snapshot, Target};
use problems::Node;
use problems::parts::counts;
use std::alloc::{AllocError, Global};

/// What requires an entry.
#[derive(Clone, Copy)]
pub(crate) enum Requirer<'a> {
    /// An active line, with its number from 1.
    Line(usize, &'a Line),
    /// Another entry, which needs it.
    Entry(&'a Entry),
}

/// What requires an entry, and by which requirement.
#[derive(Clone, Copy)]
pub(crate) struct RequiredBy<'a> {
    pub(crate) requirer: Requirer<'a>,
    /// Nothing where it is an entry whose release the index at hand doesn't have, or where no index is at hand.
    pub(crate) requirement: Option<&'a Requirement>,
}

/// The problem that a relock of a target would solve over the index.
pub(crate) fn problem_of<'a>(
    alloc: Global,
    lines: &ReqFile,
    target: &Target,
    snapshot: &'a Snapshot,
) -> Result<Problem<'a>, AllocError> {
    let kept = target.kept(alloc)?;
    Problem::new(alloc, lines, &target.environment, snapshot, kept)
}

/// The same, where an index is at hand.
pub(crate) fn problem_over<'a>(
    alloc: Global,
    lines: &ReqFile,
    target: &Target,
    snapshot: Option<&'a Snapshot>,
) -> Result<Option<Problem<'a>>, AllocError> {
    match snapshot {
        Some(snapshot) => Ok(Some(problem_of(alloc, lines, target, snapshot)?)),
        None => Ok(None),
    }
}

/// What requires each entry of a target's lock, in the order of the entries: the active lines in their order, and
/// then the other entries in theirs, by what their releases in the index of the problem need.
pub(crate) fn requirers_of<'a>(
    alloc: Global,
    lines: &'a [Line],
    target: &'a Target,
    problem: Option<&'a Problem<'a>>,
) -> Result<Vec<Vec<RequiredBy<'a>>>, AllocError> {
    let entries = target.lock.entries();
    let mut requirers = Vec::with_capacity(alloc, entries.len())?;
    for _ in entries {
        requirers.push(Vec::new(alloc))?;
    }
    add_lines(&mut requirers, &target.environment, lines, entries)?;
    match problem {
        Some(problem) => add_entries(alloc, &mut requirers, problem, entries)?,
        None => add_unknown(&mut requirers, entries)?,
    }
    Ok(requirers)
}

/// Notes each active line with the entry that it requires.
fn add_lines<'a>(
    requirers: &mut Vec<Vec<RequiredBy<'a>>>,
    environment: &Environment,
    lines: &'a [Line],
    entries: &[Entry],
) -> Result<(), AllocError> {
    for (position, line) in lines.iter().enumerate() {
        if line.is_active(environment) {
            add_line(requirers, entries, line, position.saturating_add(1))?;
        }
    }
    Ok(())
}

fn add_line<'a>(
    requirers: &mut Vec<Vec<RequiredBy<'a>>>,
    entries: &[Entry],
    line: &'a Line,
    number: usize,
) -> Result<(), AllocError> {
    let Some(wanted) = line.requirement() else {
        return Ok(());
    };
    let by = RequiredBy {
        requirer: Requirer::Line(number, line),
        requirement: Some(wanted),
    };
    add_requirer(requirers, entries, wanted.name().normal(), by)
}

/// Notes what requires an entry with the entry of this name.
fn add_requirer<'a>(
    requirers: &mut Vec<Vec<RequiredBy<'a>>>,
    entries: &[Entry],
    name: &str,
    by: RequiredBy<'a>,
) -> Result<(), AllocError> {
    let Some(position) = position_of(entries, name) else {
        return Ok(());
    };
    match requirers.get_mut(position) {
        Some(found) => Ok(found.push(by)?),
        None => Ok(()),
    }
}

/// Notes each entry with the entries that it needs, as the lock has them.
fn add_unknown<'a>(
    requirers: &mut Vec<Vec<RequiredBy<'a>>>,
    entries: &'a [Entry],
) -> Result<(), AllocError> {
    for entry in entries {
        add_dependencies(requirers, entries, entry)?;
    }
    Ok(())
}

fn add_dependencies<'a>(
    requirers: &mut Vec<Vec<RequiredBy<'a>>>,
    entries: &[Entry],
    entry: &'a Entry,
) -> Result<(), AllocError> {
    for needed in entry.dependencies() {
        let by = RequiredBy {
            requirer: Requirer::Entry(entry),
            requirement: None,
        };
        add_requirer(requirers, entries, needed.normal(), by)?;
    }
    Ok(())
}

/// Notes each entry with the entries that its release needs. Where the index doesn't have that, as the lock has them.
fn add_entries<'a>(
    alloc: Global,
    requirers: &mut Vec<Vec<RequiredBy<'a>>>,
    problem: &'a Problem<'a>,
    entries: &'a [Entry],
) -> Result<(), AllocError> {
    let extras = extras_of(alloc, problem, entries)?;
    for (entry, nodes) in entries.iter().zip(extras.as_slice()) {
        if is_in_index(problem, entry) {
            add_needs(requirers, problem, entries, entry, nodes.as_slice())?;
        } else {
            add_dependencies(requirers, entries, entry)?;
        }
    }
    Ok(())
}

/// Whether the index of a problem has the release that an entry was made of.
pub(crate) fn is_in_index(problem: &Problem<'_>, entry: &Entry) -> bool {
    problem.release(entry.name(), entry.version()).is_some()
}

/// The needed nodes of the entries that have an extra, in the order of the entries.
fn extras_of(
    alloc: Global,
    problem: &Problem<'_>,
    entries: &[Entry],
) -> Result<Vec<Vec<Node>>, AllocError> {
    let mut extras = Vec::with_capacity(alloc, entries.len())?;
    for _ in entries {
        extras.push(Vec::new(alloc))?;
    }
    let nodes = problem.needed(alloc, &problem.kept)?;
    for node in nodes.into_vec() {
        add_extra(&mut extras, entries, node)?;
    }
    Ok(extras)
}

fn add_extra(extras: &mut Vec<Vec<Node>>, entries: &[Entry], node: Node) -> Result<(), AllocError> {
    if node.extra.is_none() {
        return Ok(());
    }
    let Some(position) = position_of(entries, node.name.normal()) else {
        return Ok(());
    };
    match extras.get_mut(position) {
        Some(nodes) => Ok(nodes.push(node)?),
        None => Ok(()),
    }
}

/// Notes an entry with the entries that its release needs: each dependency once that counts at one of its nodes. What
/// a release requires of its own name is gone with the release, so it isn't noted.
fn add_needs<'a>(
    requirers: &mut Vec<Vec<RequiredBy<'a>>>,
    problem: &'a Problem<'a>,
    entries: &[Entry],
    entry: &'a Entry,
    extras: &[Node],
) -> Result<(), AllocError> {
    for wanted in problem.dependencies(entry.name(), entry.version()) {
        if is_own(entry, wanted.name()) || !does_count(&problem.environment, extras, wanted) {
            continue;
        }
        let by = RequiredBy {
            requirer: Requirer::Entry(entry),
            requirement: Some(wanted),
        };
        add_requirer(requirers, entries, wanted.name().normal(), by)?;
    }
    Ok(())
}

fn is_own(entry: &Entry, name: &Name) -> bool {
    entry.name() == name
}

/// Whether a dependency counts with no extra, or with one of those of these nodes.
fn does_count(environment: &Environment, extras: &[Node], wanted: &Requirement) -> bool {
    if counts(environment, None, wanted) {
        return true;
    }
    for node in extras {
        if counts(environment, node.extra.as_ref(), wanted) {
            return true;
        }
    }
    false
}
