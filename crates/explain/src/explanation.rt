// Why a problem has no solution.

ghost use Rattle.std.specs.Prelude.{IfOk, MatchOption};
ghost use Rattle.search.specs.SetConflicts.{IsSetRefutation};
ghost use Rattle.problems.specs.Rules.{rules_of, same_version};

use crate::account::Derived;
use crate::derivation::{Derivation, derivations};
use crate::grounds::grounds_of;
use crate::line_name::line_names;
use crate::narrowed_refutation::narrowed_refutation;
use crate::sentences::Sentences;
use crate::sentences::steps::{cited_lines, first_missing, told_steps};
use crate::wording::Wording;
use problems::Problem;
use search::Watch;
use set_refutations::PlacedRefutation;
use std::alloc::{AllocError, Global};
use std::marker::Model;

/// A set refutation of a problem, with why each of its conflicts follows. In a clause it is the refutation.
pub struct Explanation {
    refutation: PlacedRefutation,
    derivations: Vec<Derivation>,
}

impl Drop for Explanation {
    fn drop(self) {
        let Explanation {
            refutation: _,
            derivations: _,
        } = self;
    }
}

impl Model for Explanation {
    ghost use Rattle.std.specs.Prelude.{List};
    ghost use Rattle.set_refutations.specs.SetRefutations.{TermParts};

    ghost Value = { List (List TermParts) };

    ghost view = { λ e. e.refutation };
}

/// Why each conflict of a refutation of the problem follows; nothing where the list is none.
fn derived<W: Watch>(
    alloc: Global,
    problem: &Problem<'_>,
    refutation: &PlacedRefutation,
    watch: &mut W,
) -> Result<Option<Vec<Derivation>>, AllocError>
    ensures { IfOk result
        (λ found. MatchOption found
        (IsSetRefutation (rules_of problem.now) same_version refutation.now → ⊥)
        (λ _. IsSetRefutation (rules_of problem.now) same_version refutation.now)) }
{
    match grounds_of(alloc, problem, refutation, watch)? {
        Some(grounds) => {
            let placed = refutation.placed();
            let found = derivations(alloc, problem, placed, grounds.as_slice())?;
            Ok(Some(found))
        }
        None => Ok(None),
    }
}

/// Explains why a problem has no solution: by the refutation, mostly without what its last conflict doesn't
/// rest on. Nothing where the list is no refutation. Somebody is told that it goes on.
pub fn explained<W: Watch>(
    alloc: Global,
    problem: &Problem<'_>,
    refutation: PlacedRefutation,
    watch: &mut W,
) -> Result<Option<Explanation>, AllocError>
    ensures { IfOk result
        (λ found. MatchOption found
        (IsSetRefutation (rules_of problem.now) same_version refutation → ⊥)
        (IsSetRefutation (rules_of problem.now) same_version)) }
{
    match derived(alloc, problem, &refutation, watch)? {
        Some(derivations) => Ok(Some(narrowed(alloc, problem, refutation, derivations, watch)?)),
        None => Ok(None),
    }
}

/// The same of a refutation, given why each of its conflicts follows.
fn narrowed<W: Watch>(
    alloc: Global,
    problem: &Problem<'_>,
    whole: PlacedRefutation,
    derivations: Vec<Derivation>,
    watch: &mut W,
) -> Result<Explanation, AllocError>
    requires { IsSetRefutation (rules_of problem.now) same_version whole }
    ensures { IfOk result (IsSetRefutation (rules_of problem.now) same_version) }
{
    let fewer = narrowed_refutation(alloc, problem, whole.placed(), derivations.as_slice())?;
    match derived(alloc, problem, &fewer, watch)? {
        Some(found) => Ok(Explanation {
            refutation: fewer,
            derivations: found,
        }),
        None => Ok(Explanation {
            refutation: whole,
            derivations,
        }),
    }
}

impl Explanation {
    /// Puts behind the text which lines have no solution, and then a sentence for each conflict on which
    /// that rests, with its number. A sentence cites only sentences above it. The problem is the one that it was made for.
    pub fn add_sentences(
        &self,
        alloc: Global,
        text: &mut String,
        problem: &Problem<'_>,
        wording: Wording<'_>,
    ) -> Result<(), AllocError> {
        let lines = line_names(alloc, problem, wording.lines)?;
        let derived = Derived {
            alloc,
            problem,
            extent: wording.extent,
            conflicts: self.refutation.terms(),
            derivations: self.derivations.as_slice(),
        };
        let steps = told_steps(derived)?;
        let cited = cited_lines(derived, steps.as_slice())?;
        let sought = first_missing(alloc, steps.as_slice())?;
        let sentences = Sentences {
            alloc,
            problem,
            derived,
            lines: lines.as_slice(),
            steps: steps.as_slice(),
            cited: cited.as_slice(),
            sought: sought.as_slice(),
            width: wording.width,
        };
        sentences.add_all(text)
    }
}
