// Whether conflicts are made of nodes of the table, and of places of candidates.

ghost use Rattle.std.specs.Prelude.{IfOk, IsTrue, ℕ};
ghost use Rattle.std.specs.List.{Contains};
ghost use Rattle.search.specs.Known.{AreKnownSets, IsKnownTerm};
ghost use Rattle.search.specs.declared.term.Term.{Term};

use crate::places::set_of;
use crate::table_term::TableTerm;
use lists::Seq;
use search::Table;
use std::alloc::{AllocError, Global};

/// Whether a term is on a node of the table, and has candidates of its name alone.
fn is_known(alloc: Global, table: &Table, term: &TableTerm) -> Result<bool, AllocError>
    ensures { IfOk result (λ known. IsTrue known → IsKnownTerm table.now term.now) }
{
    let node = term.node();
    if node >= table.node_count() {
        return Ok(false);
    }
    let candidates = set_of(alloc, table.candidates(table.name_of(node)))?;
    Ok(term.set().lies_within(&candidates))
}

/// Whether each term of a conflict is known.
fn are_all_known(alloc: Global, table: &Table, conflict: &[TableTerm]) -> Result<bool, AllocError>
    ensures { IfOk result (λ known. IsTrue known → (t : Term ℕ ℕ) → Contains conflict.now t
        → IsKnownTerm table.now t) }
{
    for term in conflict {
        if !is_known(alloc, table, term)? {
            return Ok(false);
        }
    }
    Ok(true)
}

/// Whether each term of each conflict is known.
pub fn are_known(
    alloc: Global,
    table: &Table,
    conflicts: &[Seq<TableTerm>],
) -> Result<bool, AllocError>
    ensures { IfOk result (λ known. IsTrue known → AreKnownSets table.now conflicts.now) }
{
    for conflict in conflicts {
        if !are_all_known(alloc, table, conflict.as_slice())? {
            return Ok(false);
        }
    }
    Ok(true)
}
