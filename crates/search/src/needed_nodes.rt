// The nodes that are needed under what is taken, and the requirements that count there.

ghost use Rattle.std.specs.Prelude.{◌≡◌, ◌<◌, ◌≤◌, ◌+◌, IfOk, None, length};
ghost use Rattle.search.specs.Tied.Front.{IsFollowed};
ghost use Rattle.search.specs.Tied.Nodes.{Extends, IsGrown, nodes_required, nodes_linked, wants_linked};
ghost use Rattle.search.specs.Ranges.{EachBelow};
ghost use Rattle.search.specs.Tied.Search.{AreNeeded, AreRequired, taken_at};
ghost use Rattle.search.specs.Table.{rules_of, required_nodes, requirement_at, name_of};

use crate::node_set::NodeSet;
use crate::parts::KnownBefore;
use crate::table::Table;
use std::alloc::AllocError;

/// The place that is taken for a name.
pub fn place_of(taken: &[Option<usize>], name: usize) -> Option<usize>
    ensures { result ≡ taken_at taken.now name }
{
    match taken.get(name) {
        None => None,
        Some(place) => *place,
    }
}

/// Adds the nodes that a requirement needs.
fn add_nodes(table: &Table, nodes: &mut NodeSet, requirement: usize) -> Result<(), AllocError>
    requires known { requirement < length table.now.requirements }
    requires room { nodes.old.room ≡ length table.now.nodes }
    ensures { IfOk result
        (λ _. IsGrown nodes.old nodes.new (required_nodes (requirement_at table.now requirement))) }
{
    let required = table.requirement(requirement);
    nodes.insert(required.node)?;
    nodes.insert_all(required.more.as_slice())?;
    Ok(())
}

/// Adds the nodes that requirements need.
fn add_required(table: &Table, nodes: &mut NodeSet, required: &[usize]) -> Result<(), AllocError>
    requires known { EachBelow (length table.now.requirements) required.now }
    requires room { nodes.old.room ≡ length table.now.nodes }
    ensures { IfOk result
        (λ _. IsGrown nodes.old nodes.new (nodes_required (rules_of table.now) required.now)) }
{
    for requirement in required {
        add_nodes(table, nodes, *requirement)?;
    }
    Ok(())
}

/// Adds requirements, and the nodes that they need.
pub fn require(
    table: &Table,
    nodes: &mut NodeSet,
    required: &mut NodeSet,
    more: &[usize],
) -> Result<(), AllocError>
    requires known { EachBelow (length table.now.requirements) more.now }
    requires room { nodes.old.room ≡ length table.now.nodes }
    requires required_room { required.old.room ≡ length table.now.requirements }
    ensures nodes { IfOk result
        (λ _. IsGrown nodes.old nodes.new (nodes_required (rules_of table.now) more.now)) }
    ensures required { IfOk result (λ _. IsGrown required.old required.new more.now) }
{
    required.insert_all(more)?;
    add_required(table, nodes, more)?;
    Ok(())
}

/// Adds what the release that is taken for a node's name wants there, and the nodes that this
/// needs.
fn follow(
    table: &Table,
    taken: &[Option<usize>],
    nodes: &mut NodeSet,
    required: &mut NodeSet,
    node: usize,
) -> Result<(), AllocError>
    requires known { node < length table.now.nodes }
    requires room { nodes.old.room ≡ length table.now.nodes }
    requires required_room { required.old.room ≡ length table.now.requirements }
    ensures nodes { IfOk result
        (λ _. IsGrown nodes.old nodes.new (nodes_linked (rules_of table.now) node (taken_at
        taken.now (name_of table.now node)))) }
    ensures required { IfOk result
        (λ _. IsGrown required.old required.new (wants_linked (rules_of table.now) node (taken_at
        taken.now (name_of table.now node)))) }
{
    match place_of(taken, table.name_of(node)) {
        None => Ok(()),
        Some(place) => require(table, nodes, required, table.wants(node, place)),
    }
}

/// Follows the node at a place. One that was known before, on another name than the one that was
/// taken last, leads to what is there.
fn follow_at(
    table: &Table,
    taken: &[Option<usize>],
    nodes: &mut NodeSet,
    required: &mut NodeSet,
    known_before: KnownBefore,
    at: usize,
) -> Result<(), AllocError>
    requires within { at < length nodes.old.members }
    requires room { nodes.old.room ≡ length table.now.nodes }
    requires required_room { required.old.room ≡ length table.now.requirements }
    requires followed { IsFollowed (rules_of table.now) (taken_at taken.now) nodes.old.members
        required.old.members known_before at }
    ensures grown { IfOk result (λ _. length nodes.old.members ≤ length nodes.new.members) }
    ensures room { IfOk result (λ _. nodes.new.room ≡ nodes.old.room) }
    ensures required_room { IfOk result (λ _. required.new.room ≡ required.old.room) }
    ensures kept { IfOk result (λ _. Extends required.old.members required.new.members) }
    ensures followed { IfOk result
        (λ _. IsFollowed (rules_of table.now) (taken_at taken.now) nodes.new.members
        required.new.members known_before (at + 1)) }
{
    let node = nodes.at(at);
    if at < known_before.nodes && table.name_of(node) != known_before.last_taken {
        return Ok(());
    }
    follow(table, taken, nodes, required, node)?;
    Ok(())
}

/// Adds all nodes and requirements that are needed under what is taken.
pub fn follow_all(
    table: &Table,
    taken: &[Option<usize>],
    nodes: &mut NodeSet,
    required: &mut NodeSet,
    known_before: KnownBefore,
) -> Result<(), AllocError>
    requires room { nodes.old.room ≡ length table.now.nodes }
    requires required_room { required.old.room ≡ length table.now.requirements }
    requires followed { IsFollowed (rules_of table.now) (taken_at taken.now) nodes.old.members
        required.old.members known_before 0 }
    ensures room { IfOk result (λ _. nodes.new.room ≡ length table.now.nodes) }
    ensures required_room { IfOk result (λ _. required.new.room ≡ length table.now.requirements) }
    ensures kept { IfOk result (λ _. Extends required.old.members required.new.members) }
    ensures needed { IfOk result
        (λ _. AreNeeded (rules_of table.now) (taken_at taken.now) nodes.new.members) }
    ensures required { IfOk result
        (λ _. AreRequired (rules_of table.now) (taken_at taken.now) required.new.members) }
{
    let mut at = 0;
    while at < nodes.len() {
        follow_at(table, taken, nodes, required, known_before, at)?;
        at += 1;
    }
    Ok(())
}
