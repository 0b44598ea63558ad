// A refutation out of what a search has recorded.

ghost use Rattle.std.specs.Prelude.{◌≡◌, ◌∷◌, ◌++◌, ℕ, List, [], IfOk, IfSome, IsTrue};
ghost use Rattle.search.specs.declared.term.Term.{Term};
ghost use Rattle.search.specs.SetConflicts.{EachSetFollows, IsSetRefutation};
ghost use Rattle.search.specs.Solutions.{HasNoSolution};
ghost use Rattle.search.specs.Table.{places_eq, rules_of};

use crate::laws;
use crate::reason::{Reason, follows};
use crate::table_term::TableTerm;
use lists::Seq;
use search::Table;
use std::alloc::{AllocError, Global};

/// A conflict that a search recorded, and why it follows from those before it: in PubGrub's words
/// an incompatibility with its cause.
#[derive(Drop)]
pub struct Incompatibility {
    pub conflict: Seq<TableTerm>,
    pub reason: Reason,
}

/// Puts a conflict behind the others, where it follows from them.
fn add(
    alloc: Global,
    table: &Table,
    list: &mut Seq<Seq<TableTerm>>,
    conflict: Seq<TableTerm>,
    reason: &Reason,
) -> Result<bool, AllocError>
    requires { EachSetFollows (rules_of table.now) places_eq [] list.old }
    ensures { IfOk result (λ _. EachSetFollows (rules_of table.now) places_eq [] list.new) }
{
    if !follows(alloc, table, list.as_slice(), conflict.as_slice(), reason)? {
        return Ok(false);
    }
    list.push(conflict)?;
    Ok(true)
}

/// These conflicts, if each follows from those before it.
pub fn list_of(
    alloc: Global,
    table: &Table,
    recorded: Seq<Incompatibility>,
) -> Result<Option<Seq<Seq<TableTerm>>>, AllocError>
    ensures { IfOk result
        (λ list. IfSome list (λ list. EachSetFollows (rules_of table.now) places_eq [] list)) }
{
    let mut list = Seq::new(alloc);
    for made in recorded.into_vec() {
        let Incompatibility { conflict, reason } = made;
        if !add(alloc, table, &mut list, conflict, &reason)? {
            return Ok(None);
        }
    }
    Ok(Some(list))
}

/// Whether the last conflict is empty.
fn ends_empty(list: &[Seq<TableTerm>]) -> bool
    ensures { IsTrue result → (front : List (List (Term ℕ ℕ))) × (list.now ≡ front ++ [] ∷ []) }
{
    match list.last() {
        Some(last) => last.is_empty(),
        None => false,
    }
}

/// These conflicts, if they are a refutation, whoever made them. Then the table has no solution.
pub fn refutation_of(
    alloc: Global,
    table: &Table,
    recorded: Seq<Incompatibility>,
) -> Result<Option<Seq<Seq<TableTerm>>>, AllocError>
    ensures refutation { IfOk result
        (λ list. IfSome list (λ list. IsSetRefutation (rules_of table.now) places_eq list)) }
    ensures none { IfOk result (λ list. IfSome list (λ _. HasNoSolution (rules_of table.now))) }
{
    laws::a_set_refutation_leaves_no_solution();
    let _known = table.name_count();
    let Some(list) = list_of(alloc, table, recorded)? else {
        return Ok(None);
    };
    if !ends_empty(list.as_slice()) {
        return Ok(None);
    }
    Ok(Some(list))
}
