// Whether a node is needed, and no candidate is left for it.

ghost use Rattle.std.specs.Prelude.{◌<◌, ℕ, IfOk, IsTrue, length};
ghost use Rattle.std.specs.List.{Contains};
ghost use Rattle.search.specs.Ranges.{EachBelow};
ghost use Rattle.search.specs.SetConflicts.{NoCandidateLeft, SetNeedsNode};
ghost use Rattle.search.specs.Table.{places_eq, rules_of};

use crate::completion::covered_by;
use crate::table_term::TableTerm;
use lists::{Bits, Seq};
use search::Table;
use std::alloc::{AllocError, Global};

/// Why no candidate is left for a node that is needed, told by places.
#[derive(Drop)]
pub struct NoneLeft {
    pub node: usize,
    /// The term of the conflict that needs the node; nothing where a line does.
    pub by: Option<usize>,
    /// The earlier conflicts of which the conflict contains one with each candidate.
    pub olds: Seq<usize>,
}

/// Whether a node is one of these.
fn has_node(nodes: &[usize], node: usize) -> bool
    ensures { IsTrue result → Contains nodes.now node }
{
    for other in nodes {
        if *other == node {
            return true;
        }
    }
    false
}

/// Whether a requirement needs a node.
fn does_require(table: &Table, requirement: usize, node: usize) -> bool
    requires { requirement < length table.now.requirements }
    ensures { IsTrue result → Contains ((rules_of table.now).nodes requirement) node }
{
    let required = table.requirement(requirement);
    if required.node == node {
        return true;
    }
    has_node(required.more.as_slice(), node)
}

/// Whether one of these requirements needs a node.
fn does_any_require(table: &Table, requirements: &[usize], node: usize) -> bool
    requires { EachBelow (length table.now.requirements) requirements.now }
    ensures { IsTrue result → (r : ℕ) × Contains requirements.now r
        × Contains ((rules_of table.now).nodes r) node }
{
    for requirement in requirements {
        if does_require(table, *requirement, node) {
            return true;
        }
    }
    false
}

/// Whether one of the lines needs a node.
pub fn do_lines_need(table: &Table, node: usize) -> bool
    ensures { IsTrue result → (line : ℕ) × Contains (rules_of table.now).lines line
        × Contains ((rules_of table.now).nodes line) node }
{
    let lines = table.lines();
    does_any_require(table, lines, node)
}

/// Whether something that a release wants at its node needs another node.
pub fn does_want(table: &Table, by: usize, place: usize, node: usize) -> bool
    ensures { IsTrue result → (wanted : ℕ) × Contains ((rules_of table.now).wants by place) wanted
        × Contains ((rules_of table.now).nodes wanted) node }
{
    let wants = table.wants(by, place);
    does_any_require(table, wants, node)
}

/// Whether each of these releases wants a node.
pub fn does_each_want(table: &Table, by: usize, places: &[usize], node: usize) -> bool
    ensures { IsTrue result → (v : ℕ) → Contains places.now v
        → (wanted : ℕ) × Contains ((rules_of table.now).wants by v) wanted
        × Contains ((rules_of table.now).nodes wanted) node }
{
    for place in places {
        if !does_want(table, by, *place, node) {
            return false;
        }
    }
    true
}

/// Whether each version of the term at a place of the conflict needs a node; where no place is
/// given, whether a line does.
fn is_needed(
    alloc: Global,
    table: &Table,
    conflict: &[TableTerm],
    by: Option<usize>,
    node: usize,
) -> Result<bool, AllocError>
    ensures { IfOk result
        (λ needed. IsTrue needed → SetNeedsNode (rules_of table.now) conflict.now node) }
{
    let Some(by) = by else {
        return Ok(do_lines_need(table, node));
    };
    if by >= conflict.len() {
        return Ok(false);
    }
    let term = &conflict[by];
    let places = term.listed(alloc)?;
    Ok(does_each_want(table, term.node(), places.as_slice(), node))
}

/// Whether the set has each of these places.
fn has_each(covered: &Bits, places: &[usize]) -> bool
    ensures { IsTrue result → (v : ℕ) → Contains places.now v → Contains covered.now v }
{
    for place in places {
        if !covered.has(*place) {
            return false;
        }
    }
    true
}

/// Whether the node is needed, and with each candidate of its name the conflict contains one of the
/// earlier ones that are given.
pub fn is_none_left(
    alloc: Global,
    table: &Table,
    earlier: &[Seq<TableTerm>],
    conflict: &[TableTerm],
    none_left: &NoneLeft,
) -> Result<bool, AllocError>
    ensures { IfOk result (λ none. IsTrue none
        → NoCandidateLeft (rules_of table.now) places_eq earlier.now conflict.now) }
{
    let node = none_left.node;
    if node >= table.node_count() {
        return Ok(false);
    }
    let needed = is_needed(alloc, table, conflict, none_left.by, node)?;
    if !needed {
        return Ok(false);
    }
    let covered = covered_by(alloc, earlier, conflict, node, none_left.olds.as_slice())?;
    Ok(has_each(&covered, table.candidates(table.name_of(node))))
}
