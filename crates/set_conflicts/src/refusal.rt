// Whether a line refuses a term.

ghost use Rattle.std.specs.Prelude.{◌≡◌, ◌<◌, ℕ, IfOk, IsTrue, false, length};
ghost use Rattle.std.specs.List.{Contains};
ghost use Rattle.search.specs.SetConflicts.{LineRefusesSet};
ghost use Rattle.search.specs.Table.{rules_of};

use crate::table_term::TableTerm;
use search::Table;
use std::alloc::{AllocError, Global};

/// Whether a requirement admits none of these places.
fn refuses_each(table: &Table, requirement: usize, places: &[usize]) -> bool
    requires { requirement < length table.now.requirements }
    ensures { IsTrue result → (v : ℕ) → Contains places.now v
        → (rules_of table.now).admits requirement v ≡ false }
{
    for place in places {
        if table.does_admit(requirement, *place) {
            return false;
        }
    }
    true
}

/// Whether the line at a place is on the term's name and admits none of its versions.
fn line_refuses_term(
    alloc: Global,
    table: &Table,
    requirement: usize,
    term: &TableTerm,
) -> Result<bool, AllocError>
    requires { requirement < length table.now.requirements }
    ensures named { IfOk result (λ refuses. IsTrue refuses
        → (rules_of table.now).name requirement ≡ (rules_of table.now).on term.now.node) }
    ensures refused { IfOk result (λ refuses. IsTrue refuses → (v : ℕ) → Contains term.now.versions v
        → (rules_of table.now).admits requirement v ≡ false) }
{
    if term.node() >= table.node_count() {
        return Ok(false);
    }
    if table.name_required(requirement) != table.name_of(term.node()) {
        return Ok(false);
    }
    let places = term.listed(alloc)?;
    Ok(refuses_each(table, requirement, places.as_slice()))
}

/// Whether the line at a place among the lines refuses the term at a place of the conflict.
pub fn line_refuses(
    alloc: Global,
    table: &Table,
    conflict: &[TableTerm],
    line: usize,
    at: usize,
) -> Result<bool, AllocError>
    ensures { IfOk result
        (λ refuses. IsTrue refuses → LineRefusesSet (rules_of table.now) conflict.now) }
{
    let lines = table.lines();
    if line >= lines.len() || at >= conflict.len() {
        return Ok(false);
    }
    let requirement = lines[line];
    line_refuses_term(alloc, table, requirement, &conflict[at])
}
