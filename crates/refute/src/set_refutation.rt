// The terms and set refutations that those of a search of the table stand for, and those that choices
// and refutations stand for.

ghost use Rattle.std.specs.Prelude.{◌≡◌, ◌<◌, ℕ, IfOk, length, map};
ghost use Rattle.std.specs.List.{Contains};
ghost use Rattle.search.specs.Known.{AreKnownSets, IsKnownTerm};
ghost use Rattle.search.specs.SetsOfChoices.{as_sets, term_of, terms_of};
ghost use Rattle.search.specs.declared.term.Term.{Term};
ghost use Rattle.problems.specs.Problem.{releases_on};
ghost use Rattle.resolve.specs.Tied.Pictured.{IsPictured};
ghost use Rattle.refute.specs.Tied.Told.{term_at, versions_pictured};
ghost use Rattle.resolve.specs.Tied.Places.{version_at};

use crate::refutation::version_at;
use lists::{Seq, copy_of};
use pep440::Version;
use pep508::Name;
use problems::Problem;
use refutations::{Choice, Refutation};
use resolve::table::Tabled;
use set_conflicts::table_term::TableTerm;
use set_refutations::{SetRefutation, SetTerm};
use std::alloc::{AllocError, Global};

/// The versions of the releases of a name at these places.
fn versions_at(
    alloc: Global,
    problem: &Problem<'_>,
    name: &Name,
    places: &[usize],
) -> Result<Seq<Version>, AllocError>
    requires { (place : ℕ) → Contains places.now place
        → place < length (releases_on problem.now name.now) }
    ensures { IfOk result
        (λ versions. versions
        ≡ map (λ place. version_at (releases_on problem.now name.now) place) places.now) }
{
    let mut versions = Vec::with_capacity(alloc, places.len())?;
    for place in places {
        versions.push(version_at(problem, name, *place)?)?;
    }
    Ok(Seq::from_vec(versions))
}

/// The versions of a term of the table.
fn term_versions(
    alloc: Global,
    problem: &Problem<'_>,
    tabled: &Tabled,
    term: &TableTerm,
) -> Result<Seq<Version>, AllocError>
    requires pictured { IsPictured problem.now tabled.now.names tabled.now.nodes tabled.now.table }
    requires known { IsKnownTerm tabled.now.table term.now }
    ensures { IfOk result
        (λ versions. versions
        ≡ versions_pictured problem.now tabled.now.names tabled.now.table term.now) }
{
    let at = term.node();
    let name = &tabled.names.as_slice()[tabled.table.name_of(at)];
    let places = term.listed(alloc)?;
    let versions = versions_at(alloc, problem, name, places.as_slice())?;
    Ok(versions)
}

/// The term that one of the table stands for.
fn set_term_of(
    alloc: Global,
    problem: &Problem<'_>,
    tabled: &Tabled,
    term: &TableTerm,
) -> Result<SetTerm, AllocError>
    requires pictured { IsPictured problem.now tabled.now.names tabled.now.nodes tabled.now.table }
    requires known { IsKnownTerm tabled.now.table term.now }
    ensures { IfOk result
        (λ made. made
        ≡ term_at problem.now tabled.now.names tabled.now.nodes tabled.now.table term.now) }
{
    let versions = term_versions(alloc, problem, tabled, term)?;
    let node = &tabled.nodes.as_slice()[term.node()];
    Ok(SetTerm {
        name: node.name.clone()?,
        extra: copy_of(node.extra.as_ref())?,
        versions,
    })
}

/// The conflict that terms of the table stand for.
fn set_conflict_of(
    alloc: Global,
    problem: &Problem<'_>,
    tabled: &Tabled,
    terms: &[TableTerm],
) -> Result<Seq<SetTerm>, AllocError>
    requires pictured { IsPictured problem.now tabled.now.names tabled.now.nodes tabled.now.table }
    requires known { (term : Term ℕ ℕ) → Contains terms.now term
        → IsKnownTerm tabled.now.table term }
    ensures { IfOk result
        (λ conflict. conflict
        ≡ map (term_at problem.now tabled.now.names tabled.now.nodes tabled.now.table)
        terms.now) }
{
    let mut made = Vec::with_capacity(alloc, terms.len())?;
    for term in terms {
        made.push(set_term_of(alloc, problem, tabled, term)?)?;
    }
    Ok(Seq::from_vec(made))
}

/// The set refutation that the conflicts of a search stand for.
pub(crate) fn set_refutation_of(
    alloc: Global,
    problem: &Problem<'_>,
    tabled: &Tabled,
    conflicts: &[Seq<TableTerm>],
) -> Result<SetRefutation, AllocError>
    requires pictured { IsPictured problem.now tabled.now.names tabled.now.nodes tabled.now.table }
    requires known { AreKnownSets tabled.now.table conflicts.now }
    ensures { IfOk result
        (λ refutation. refutation
        ≡ map (map (term_at problem.now tabled.now.names tabled.now.nodes tabled.now.table))
        conflicts.now) }
{
    let mut refuted = Vec::with_capacity(alloc, conflicts.len())?;
    for terms in conflicts {
        refuted.push(set_conflict_of(alloc, problem, tabled, terms.as_slice())?)?;
    }
    Ok(SetRefutation::new(Seq::from_vec(refuted)))
}

/// The term of a choice: its node with its version alone.
fn set_term(alloc: Global, choice: &Choice) -> Result<SetTerm, AllocError>
    ensures { IfOk result (λ term. term ≡ term_of choice.now) }
{
    let mut versions = Vec::with_capacity(alloc, 1)?;
    versions.push(choice.version.clone()?)?;
    Ok(SetTerm {
        name: choice.name.clone()?,
        extra: copy_of(choice.extra.as_ref())?,
        versions: Seq::from_vec(versions),
    })
}

/// The terms of the choices of a conflict.
fn set_terms(alloc: Global, conflict: &[Choice]) -> Result<Seq<SetTerm>, AllocError>
    ensures { IfOk result (λ terms. terms ≡ terms_of conflict.now) }
{
    let mut terms = Vec::with_capacity(alloc, conflict.len())?;
    for choice in conflict {
        terms.push(set_term(alloc, choice)?)?;
    }
    Ok(Seq::from_vec(terms))
}

/// A refutation by conflicts of single versions, as one by conflicts of sets.
pub(crate) fn as_sets(alloc: Global, refutation: &Refutation) -> Result<SetRefutation, AllocError>
    ensures { IfOk result (λ sets. sets ≡ as_sets refutation.now) }
{
    let conflicts = refutation.conflicts();
    let mut sets = Vec::with_capacity(alloc, conflicts.len())?;
    for conflict in conflicts {
        sets.push(set_terms(alloc, conflict.as_slice())?)?;
    }
    Ok(SetRefutation::new(Seq::from_vec(sets)))
}
