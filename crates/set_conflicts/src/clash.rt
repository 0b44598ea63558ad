// Whether two terms clash.

ghost use Rattle.std.specs.Prelude.{◌≡◌, ◌<◌, ℕ, IfOk, IsTrue, false, length};
ghost use Rattle.std.specs.List.{Contains};
ghost use Rattle.search.specs.Ranges.{EachBelow};
ghost use Rattle.search.specs.SetConflicts.{PairClashes, Refuses, SetsClash};
ghost use Rattle.search.specs.Table.{places_eq, rules_of};

use crate::table_term::TableTerm;
use search::Table;
use std::alloc::{AllocError, Global};

/// Whether one of these requirements, on the name of a node, doesn't admit a release.
fn does_any_refuse(table: &Table, requirements: &[usize], node: usize, place: usize) -> bool
    requires node { node < length table.now.nodes }
    requires known { EachBelow (length table.now.requirements) requirements.now }
    ensures { IsTrue result → (r : ℕ) × Contains requirements.now r
        × ((rules_of table.now).name r ≡ (rules_of table.now).on node)
        × ((rules_of table.now).admits r place ≡ false) }
{
    let name = table.name_of(node);
    for requirement in requirements {
        if table.name_required(*requirement) == name && !table.does_admit(*requirement, place) {
            return true;
        }
    }
    false
}

/// Whether something that a release wants at its node, on the name of the other node, doesn't admit
/// the other release.
fn does_refuse(table: &Table, node: usize, place: usize, other: usize, beside: usize) -> bool
    requires { other < length table.now.nodes }
    ensures { IsTrue result → Refuses (rules_of table.now) node place other beside }
{
    let wants = table.wants(node, place);
    does_any_refuse(table, wants, other, beside)
}

/// Whether two releases can't stand together at these nodes.
pub fn does_pair_clash(
    table: &Table,
    node: usize,
    place: usize,
    other: usize,
    beside: usize,
) -> bool
    requires node { node < length table.now.nodes }
    requires other { other < length table.now.nodes }
    ensures { IsTrue result → PairClashes (rules_of table.now) places_eq node place other beside }
{
    if does_refuse(table, node, place, other, beside) {
        return true;
    }
    if does_refuse(table, other, beside, node, place) {
        return true;
    }
    table.name_of(node) == table.name_of(other) && place != beside
}

/// Whether a release clashes with each of these.
fn clashes_with_each(
    table: &Table,
    node: usize,
    place: usize,
    other: usize,
    besides: &[usize],
) -> bool
    requires node { node < length table.now.nodes }
    requires other { other < length table.now.nodes }
    ensures { IsTrue result → (w : ℕ) → Contains besides.now w
        → PairClashes (rules_of table.now) places_eq node place other w }
{
    for beside in besides {
        if !does_pair_clash(table, node, place, other, *beside) {
            return false;
        }
    }
    true
}

/// Whether each of these releases clashes with each of those.
fn does_each_clash(
    table: &Table,
    node: usize,
    places: &[usize],
    other: usize,
    besides: &[usize],
) -> bool
    requires node { node < length table.now.nodes }
    requires other { other < length table.now.nodes }
    ensures { IsTrue result → (v : ℕ) → Contains places.now v → (w : ℕ) → Contains besides.now w
        → PairClashes (rules_of table.now) places_eq node v other w }
{
    for place in places {
        if !clashes_with_each(table, node, *place, other, besides) {
            return false;
        }
    }
    true
}

/// Whether each version of one term clashes with each version of the other.
fn do_terms_clash(
    alloc: Global,
    table: &Table,
    one: &TableTerm,
    other: &TableTerm,
) -> Result<bool, AllocError>
    ensures { IfOk result (λ clash. IsTrue clash → (v : ℕ) → Contains one.now.versions v → (w : ℕ)
        → Contains other.now.versions w
        → PairClashes (rules_of table.now) places_eq one.now.node v other.now.node w) }
{
    let count = table.node_count();
    let node = one.node();
    let beside = other.node();
    if node >= count || beside >= count {
        return Ok(false);
    }
    let places = one.listed(alloc)?;
    let besides = other.listed(alloc)?;
    Ok(does_each_clash(table, node, places.as_slice(), beside, besides.as_slice()))
}

/// Whether the terms at two places of the conflict clash.
pub fn do_clash(
    alloc: Global,
    table: &Table,
    conflict: &[TableTerm],
    one: usize,
    other: usize,
) -> Result<bool, AllocError>
    ensures { IfOk result
        (λ clash. IsTrue clash → SetsClash (rules_of table.now) places_eq conflict.now) }
{
    if one >= conflict.len() || other >= conflict.len() {
        return Ok(false);
    }
    let clash = do_terms_clash(alloc, table, &conflict[one], &conflict[other])?;
    Ok(clash)
}
