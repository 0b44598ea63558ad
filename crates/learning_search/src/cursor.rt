// A cursor: where to look first among the extras that are required on a name.

ghost use Rattle.std.specs.Prelude.{◌<◌, ◌∷◌, [], MatchOption, length, map};
ghost use Rattle.std.specs.List.{Contains};
ghost use Rattle.learning_search.specs.Tied.Demanded.{AreKnownDemands, IsOnDecided};
ghost use Rattle.learning_search.specs.Tied.Gathering.{choice_at};
ghost use Rattle.learning_search.specs.Tied.Learned.{IsFree, first_at};
ghost use Rattle.search.specs.Table.{rules_of};

use crate::demands::{Demand, first_on, is_chosen};
use crate::next_node::NeededNode;
use indexmap::IndexMap;
use search::{Decision, Table};

/// A place among what is required on a name, and one among the extras there. It is only a hint: what
/// stands there is checked before it is used.
#[derive(Clone, Copy)]
pub struct Cursor {
    pub name: usize,
    pub demand: usize,
    pub extra: usize,
}

/// The first of these nodes, from a place on, that is not chosen, with its place.
fn free_from(
    choices: &IndexMap<usize, usize>,
    nodes: &[usize],
    from: usize,
) -> Option<(usize, usize)>
    ensures { MatchOption result Unit (λ found. Contains nodes.now found.1
        × IsFree (map choice_at choices.now.entries) found.1) }
{
    for at in from..nodes.len() {
        let node = nodes[at];
        if !is_chosen(choices, node) {
            return Some((at, node));
        }
    }
    None
}

/// An extra's node that is required on a name that has a version, which is not chosen itself, and
/// its place among the extras, from a place on.
fn extra_from(
    table: &Table,
    taken: &[Option<Decision>],
    choices: &IndexMap<usize, usize>,
    demand: Demand,
    from: usize,
) -> Option<(usize, NeededNode)>
    requires { demand.requirement < length table.now.requirements }
    ensures { MatchOption result Unit
        (λ found. IsOnDecided (rules_of table.now) (first_at taken.now)
        (map choice_at choices.now.entries) (demand ∷ []) found.1) }
{
    first_on(taken, table.name_required(demand.requirement))?;
    let required = table.requirement(demand.requirement);
    let (at, node) = free_from(choices, required.more.as_slice(), from)?;
    Some((
        at,
        NeededNode {
            node,
            by: demand.by,
        },
    ))
}

/// The place to look from at something that is required: the cursor's, where it is the cursor's.
fn place_at(cursor: Cursor, name: usize, demand: usize) -> usize {
    if cursor.name == name && cursor.demand == demand {
        cursor.extra
    } else {
        0
    }
}

/// A node on a name that has a version, which is required and not chosen itself. It is looked for
/// from the cursor on, which moves to where it is.
pub fn need_from(
    table: &Table,
    taken: &[Option<Decision>],
    choices: &IndexMap<usize, usize>,
    row: &[Demand],
    name: usize,
    cursor: &mut Cursor,
) -> Option<NeededNode>
    requires { AreKnownDemands (length table.now.requirements) row.now }
    ensures { MatchOption result Unit (λ need. IsOnDecided (rules_of table.now) (first_at taken.now) (map
        choice_at choices.now.entries) row.now need) }
{
    let start = if cursor.name == name {
        cursor.demand
    } else {
        0
    };
    for demand in start..row.len() {
        let from = place_at(*cursor, name, demand);
        if let Some((extra, need)) = extra_from(table, taken, choices, row[demand], from) {
            *cursor = Cursor {
                name,
                demand,
                extra,
            };
            return Some(need);
        }
    }
    None
}
