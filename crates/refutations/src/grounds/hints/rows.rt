// The numbers of the candidates of nodes.

use crate::choice::Choice;
use pep440::Version;
use problems::Problem;
use problems::parts::LentNode;
use std::alloc::{AllocError, Global};
use std::cmp::Ordering;

/// A node, and the numbers of its candidates that are a choice of some conflict, in the order of the candidates.
pub(crate) struct Row<'c> {
    node: LentNode<'c>,
    numbers: Vec<usize>,
}

impl<'c> Drop for Row<'c> {
    fn drop(self) {
        let Row {
            node: _,
            numbers: _,
        } = self;
    }
}

/// Whether a row is of a node below this one.
fn is_below(row: &Row<'_>, node: &LentNode<'_>) -> bool {
    let names = row.node.name.cmp(node.name);
    Ordering::or_cmp(names, &row.node.extra, &node.extra).is_lt()
}

/// The numbers of the row of a node; none where it has none.
pub(crate) fn row_at<'r>(rows: &'r [Row<'_>], node: &LentNode<'_>) -> &'r [usize] {
    match rows.get(rows.partition_point(|row| is_below(row, node))) {
        Some(row) if node.is_of(row.node.name, row.node.extra) => row.numbers.as_slice(),
        _ => &[],
    }
}

/// Whether two choices are at one node.
fn are_beside(one: &Choice, other: &Choice) -> bool {
    other.node().is_of(&one.name, one.extra.as_ref())
}

/// The place of the version among choices of one node, which rise.
fn place_of(choices: &[&Choice], version: &Version) -> Option<usize> {
    let place = choices.partition_point(|choice| choice.version.cmp(version).is_lt());
    if choices.get(place)?.version.cmp(version).is_eq() {
        return Some(place);
    }
    None
}

/// The row of the node of a choice; those at it are the first ones of these choices, which begin with this number.
fn row_of<'c>(
    alloc: Global,
    problem: &Problem<'_>,
    first: &'c Choice,
    choices: &[&'c Choice],
    start: usize,
) -> Result<Row<'c>, AllocError> {
    let count = choices.partition_point(|choice| are_beside(choice, first));
    let own = &choices[..count];
    let mut numbers = Vec::new(alloc);
    for release in problem.eligible(&first.name) {
        if let Some(place) = place_of(own, release.version()) {
            numbers.push(start.saturating_add(place))?;
        }
    }
    let node = first.node();
    Ok(Row { node, numbers })
}

/// Whether the choice before a place is at another node than the one there.
fn is_first(choices: &[&Choice], place: usize, choice: &Choice) -> bool {
    match place.checked_sub(1) {
        Some(before) => match choices.get(before) {
            Some(other) => !are_beside(other, choice),
            None => true,
        },
        None => true,
    }
}

/// A row for each node of the choices, which rise, in the order of the nodes.
pub(crate) fn rows_of<'c>(
    alloc: Global,
    problem: &Problem<'_>,
    choices: &[&'c Choice],
) -> Result<Vec<Row<'c>>, AllocError> {
    let mut rows = Vec::new(alloc);
    for place in 0..choices.len() {
        let choice = choices[place];
        if is_first(choices, place, choice) {
            rows.push(row_of(alloc, problem, choice, &choices[place..], place)?)?;
        }
    }
    Ok(rows)
}
