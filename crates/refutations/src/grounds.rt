// The ground of a conflict. None of it has a refusal.

ghost use Rattle.std.specs.Prelude.{◌≡◌, ◌∷◌, [], IfSome, List, MatchOption, None, Some};
ghost use Rattle.std.specs.List.{slice_get};
ghost use Rattle.std.specs.Option.{option_copied};
ghost use Rattle.search.specs.Conflicts.{Completes, Follows};
ghost use Rattle.refutations.specs.Grounds.{IsGround};
ghost use Rattle.problems.specs.Choices.{ChoiceParts};
ghost use Rattle.problems.specs.Rules.{rules_of, same_version};

pub(crate) mod clash;
pub(crate) mod completion;
pub(crate) mod difference;
pub(crate) mod earlier;
mod exhaustion;
pub(crate) mod hints;
pub(crate) mod refusal;
mod turns;

use crate::choice::Choice;
use crate::ground::Ground;
use crate::grounds::clash::clashing;
use crate::grounds::completion::first_completed;
use crate::grounds::difference::differing;
use crate::grounds::earlier::Earlier;
use crate::grounds::exhaustion::exhausted;
use crate::grounds::hints::Places;
use crate::grounds::refusal::refused;
use lists::Seq;
use pep440::Version;
use pep508::Name;
use problems::Problem;
use problems::parts::{LentChoice, LentNode};

/// A ground by which a conflict follows from earlier ones that are found.
pub(crate) fn found_ground<'a>(
    problem: &'a Problem<'_>,
    earlier: Earlier<'_, '_, '_, '_>,
    conflict: &'a [Choice],
) -> Option<Ground<'a>>
    ensures { MatchOption result
        (earlier.entry.hints ≡ None → Follows (rules_of problem.now) same_version
        earlier.entry.conflicts.now conflict.now → ⊥)
        (IsGround problem.now earlier.entry.conflicts.now conflict.now) }
{
    if let Some(ground) = refused(problem, conflict) {
        return Some(ground);
    }
    if let Some(ground) = clashing(problem, conflict) {
        return Some(ground);
    }
    if let Some(ground) = differing(conflict) {
        return Some(ground);
    }
    exhausted(problem, earlier, conflict)
}

/// A ground by which a conflict follows from earlier ones, or nothing where it doesn't follow.
pub fn ground_of<'a>(
    problem: &'a Problem<'_>,
    earlier: &[Seq<Choice>],
    conflict: &'a [Choice],
) -> Option<Ground<'a>>
    ensures { MatchOption result
        (Follows (rules_of problem.now) same_version earlier.now conflict.now → ⊥)
        (IsGround problem.now earlier.now conflict.now) }
{
    let all = Earlier {
        conflicts: earlier,
        hints: None,
    };
    found_ground(problem, all, conflict)
}

/// A ground by which a conflict follows from earlier ones that are found where hints tell to look; none
/// either where memory is wanting.
fn hinted_ground<'a>(
    problem: &'a Problem<'_>,
    earlier: &[Seq<Choice>],
    conflict: &'a [Choice],
    places: &Places<'_>,
) -> Option<Ground<'a>>
    ensures { IfSome result (IsGround problem.now earlier.now conflict.now) }
{
    let found = places.hints(earlier.len()).ok()?;
    let hints = Some(&found);
    let hinted = Earlier {
        conflicts: earlier,
        hints,
    };
    found_ground(problem, hinted, conflict)
}

/// What `ground_of` gives, which is looked for where hints tell before it is looked for everywhere.
///
/// An accepted list costs no look at all earlier conflicts: one that lies in the conflict without the
/// choice that is looked up has a ground by hints, and the conflict has the same one.
pub(crate) fn ground_by<'a>(
    problem: &'a Problem<'_>,
    earlier: &[Seq<Choice>],
    conflict: &'a [Choice],
    places: Option<&Places<'_>>,
) -> Option<Ground<'a>>
    ensures { MatchOption result
        (Follows (rules_of problem.now) same_version earlier.now conflict.now → ⊥)
        (IsGround problem.now earlier.now conflict.now) }
{
    if let Some(places) = places {
        if let Some(ground) = hinted_ground(problem, earlier, conflict, places) {
            return Some(ground);
        }
    }
    ground_of(problem, earlier, conflict)
}

/// The place of one of the earlier conflicts that the conflict contains with the version at the
/// node put to it, from 0.
pub fn completed(
    earlier: &[Seq<Choice>],
    conflict: &[Choice],
    name: &Name,
    extra: Option<&Name>,
    version: &Version,
) -> Option<usize>
    ensures { MatchOption result
        (Completes same_version earlier.now conflict.now (record {
          node = record { name = name.now; extra = option_copied extra.entry };
          version = version.now;
        }) → ⊥)
        (λ place. (old : List ChoiceParts) × (slice_get earlier.now place ≡ Some old)
        × Completes same_version (old ∷ []) conflict.now (record {
          node = record { name = name.now; extra = option_copied extra.entry };
          version = version.now;
        })) }
{
    let node = &LentNode { name, extra };
    first_completed(earlier, conflict, &LentChoice { node, version })
}
