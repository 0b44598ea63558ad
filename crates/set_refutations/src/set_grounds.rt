// The ground of a conflict of sets. None of it has a refusal.

ghost use Rattle.std.specs.Prelude.{◌≡◌, ◌∷◌, [], List, MatchOption, Some};
ghost use Rattle.std.specs.List.{slice_get};
ghost use Rattle.std.specs.Option.{option_copied};
ghost use Rattle.search.specs.SetConflicts.{CompletesSet, SetFollows};
ghost use Rattle.set_refutations.specs.Grounds.{IsSetGround};
ghost use Rattle.problems.specs.Rules.{rules_of, same_version};
ghost use Rattle.set_refutations.specs.SetRefutations.{TermParts};

mod clash;
mod completion;
mod exhaustion;
mod refusal;
mod version_list;

use crate::earlier_sets::EarlierSets;
use crate::set_ground::SetGround;
use crate::set_grounds::clash::clashing;
use crate::set_grounds::completion::{each_version_completes, first_completed};
use crate::set_grounds::exhaustion::exhausted;
use crate::set_grounds::refusal::refused;
use crate::set_refutation::SetTerm;
use pep440::Version;
use pep508::Name;
use problems::Problem;
use problems::parts::LentNode;

/// A ground by which a conflict of sets follows from earlier ones, or nothing where it doesn't follow.
pub fn set_ground_of<'a>(
    problem: &'a Problem<'_>,
    earlier: &EarlierSets<'_>,
    conflict: &[SetTerm],
) -> Option<SetGround<'a>>
    ensures { MatchOption result
        (SetFollows (rules_of problem.now) same_version earlier.now conflict.now → ⊥)
        (IsSetGround problem.now earlier.now conflict.now) }
{
    if let Some(ground) = refused(problem, conflict) {
        return Some(ground);
    }
    if let Some(ground) = each_version_completes(earlier, conflict) {
        return Some(ground);
    }
    if let Some(ground) = clashing(problem, conflict) {
        return Some(ground);
    }
    exhausted(problem, earlier, conflict)
}

/// The place of one of the earlier conflicts that the conflict contains with the version alone at the
/// node, from 0.
pub fn set_completed(
    earlier: &EarlierSets<'_>,
    conflict: &[SetTerm],
    name: &Name,
    extra: Option<&Name>,
    version: &Version,
) -> Option<usize>
    ensures { MatchOption result
        (CompletesSet same_version earlier.now conflict.now
        (record { name = name.now; extra = option_copied extra.entry }) version.now → ⊥)
        (λ place. (old : List TermParts) × (slice_get earlier.now place ≡ Some old)
        × CompletesSet same_version (old ∷ []) conflict.now
        (record { name = name.now; extra = option_copied extra.entry }) version.now) }
{
    first_completed(earlier, conflict, &LentNode { name, extra }, version)
}
