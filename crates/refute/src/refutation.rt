// The choices, conflicts and refutations that those of a search of the table stand for.

ghost use Rattle.std.specs.Prelude.{◌≡◌, ◌<◌, ℕ, IfOk, length, map};
ghost use Rattle.std.specs.List.{Contains};
ghost use Rattle.search.specs.Known.{AreKnown, IsKnown};
ghost use Rattle.search.specs.declared.conflict.NodeChoice.{NodeChoice};
ghost use Rattle.problems.specs.Problem.{releases_on};
ghost use Rattle.resolve.specs.Tied.Pictured.{IsPictured};
ghost use Rattle.refute.specs.Tied.Told.{choice_at};
ghost use Rattle.resolve.specs.Tied.Places.{version_at};

use lists::{Seq, copy_of};
use pep440::Version;
use pep508::Name;
use problems::Problem;
use refutations::{Choice, Refutation};
use resolve::table::Tabled;
use search::Decision;
use std::alloc::{AllocError, Global};

/// The version of the release of a name at a place.
pub(crate) fn version_at(
    problem: &Problem<'_>,
    name: &Name,
    place: usize,
) -> Result<Version, AllocError>
    requires { place < length (releases_on problem.now name.now) }
    ensures { IfOk result
        (λ version. version ≡ version_at (releases_on problem.now name.now) place) }
{
    let releases = problem.releases(name);
    let version = releases[place].version().clone()?;
    Ok(version)
}

/// The choice that a decision stands for.
fn choice_of(
    problem: &Problem<'_>,
    tabled: &Tabled,
    decision: Decision,
) -> Result<Choice, AllocError>
    requires pictured { IsPictured problem.now tabled.now.names tabled.now.nodes tabled.now.table }
    requires known { IsKnown tabled.now.table decision }
    ensures { IfOk result
        (λ choice. choice
        ≡ choice_at problem.now tabled.now.names tabled.now.nodes tabled.now.table decision) }
{
    let name = &tabled.names.as_slice()[tabled.table.name_of(decision.node)];
    let version = version_at(problem, name, decision.version)?;
    let node = &tabled.nodes.as_slice()[decision.node];
    Ok(Choice {
        name: node.name.clone()?,
        extra: copy_of(node.extra.as_ref())?,
        version,
    })
}

/// The conflict that decisions stand for.
fn conflict_of(
    alloc: Global,
    problem: &Problem<'_>,
    tabled: &Tabled,
    decisions: &[Decision],
) -> Result<Seq<Choice>, AllocError>
    requires pictured { IsPictured problem.now tabled.now.names tabled.now.nodes tabled.now.table }
    requires known { (decision : NodeChoice ℕ ℕ) → Contains decisions.now decision
        → IsKnown tabled.now.table decision }
    ensures { IfOk result
        (λ conflict. conflict
        ≡ map (choice_at problem.now tabled.now.names tabled.now.nodes tabled.now.table)
        decisions.now) }
{
    let mut choices = Vec::with_capacity(alloc, decisions.len())?;
    for decision in decisions {
        choices.push(choice_of(problem, tabled, *decision)?)?;
    }
    Ok(Seq::from_vec(choices))
}

/// The refutation that the conflicts of a search stand for.
pub(crate) fn refutation_of(
    alloc: Global,
    problem: &Problem<'_>,
    tabled: &Tabled,
    conflicts: &[Seq<Decision>],
) -> Result<Refutation, AllocError>
    requires pictured { IsPictured problem.now tabled.now.names tabled.now.nodes tabled.now.table }
    requires known { AreKnown tabled.now.table conflicts.now }
    ensures { IfOk result
        (λ refutation. refutation
        ≡ map (map (choice_at problem.now tabled.now.names tabled.now.nodes tabled.now.table))
        conflicts.now) }
{
    let mut refuted = Vec::with_capacity(alloc, conflicts.len())?;
    for decisions in conflicts {
        refuted.push(conflict_of(alloc, problem, tabled, decisions.as_slice())?)?;
    }
    Ok(Refutation::new(Seq::from_vec(refuted)))
}
