// The earlier conflicts that a conflict contains with one choice more.

ghost use Rattle.std.specs.Prelude.{◌≡◌, IfSome, List, MatchOption, None, Some, false, true};
ghost use Rattle.std.specs.List.{list_all, list_any, slice_get};
ghost use Rattle.std.specs.Option.{option_map_or};
ghost use Rattle.refutations.specs.Tied.Cases as spec;
ghost use Rattle.problems.specs.Choices.{ChoiceParts};

use crate::choice::{Choice, are_one, is_at};
use crate::grounds::earlier::Earlier;
use crate::grounds::hints::Hints;
use crate::grounds::turns::is_within_by_turns;
use lists::Seq;
use problems::Problem;
use problems::parts::{LentChoice, LentNode};
use snapshot::Release;

/// Whether a choice is one of the conflict.
pub(crate) fn is_among(member: &Choice, conflict: &[Choice]) -> bool
    ensures { result ≡ list_any (spec.is_same member.now) conflict.now }
{
    conflict.iter().any(|choice| are_one(member, choice))
}

/// Whether each choice of an earlier conflict is one of the conflict, or the one that is put to it.
pub(crate) fn is_within(old: &[Choice], conflict: &[Choice], choice: &LentChoice<'_, '_>) -> bool
    ensures { result ≡ list_all (spec.is_within conflict.now choice.now) old.now }
{
    old.iter().all(|member| is_among(member, conflict) || is_at(member, choice))
}

/// The place of the first of the earlier conflicts that the conflict contains with the choice put to it,
/// from 0.
pub(crate) fn first_completed(
    earlier: &[Seq<Choice>],
    conflict: &[Choice],
    choice: &LentChoice<'_, '_>,
) -> Option<usize>
    ensures { MatchOption result (spec.completes earlier.now conflict.now choice.now ≡ false)
        (λ place. (old : List ChoiceParts) × (slice_get earlier.now place ≡ Some old)
        × (list_all (spec.is_within conflict.now choice.now) old ≡ true)) }
{
    for place in 0..earlier.len() {
        if is_within(earlier[place].as_slice(), conflict, choice) {
            return Some(place);
        }
    }
    None
}

/// Whether the place is that of an earlier conflict that the conflict contains with the choice put to it.
fn is_completed(
    place: usize,
    earlier: &[Seq<Choice>],
    conflict: &[Choice],
    choice: &LentChoice<'_, '_>,
) -> bool
    ensures { result ≡ option_map_or (list_all (spec.is_within conflict.now choice.now))
        (slice_get earlier.now place) false }
{
    match earlier.get(place) {
        Some(old) => is_within_by_turns(old.as_slice(), conflict, choice),
        None => false,
    }
}

/// The place that hints give, where an earlier conflict stands there that the conflict contains with the
/// choice put to it.
fn hinted(
    hints: &Hints<'_, '_>,
    earlier: &[Seq<Choice>],
    conflict: &[Choice],
    choice: &LentChoice<'_, '_>,
) -> Option<usize>
    ensures { IfSome result
        (λ place. (old : List ChoiceParts) × (slice_get earlier.now place ≡ Some old)
        × (list_all (spec.is_within conflict.now choice.now) old ≡ true)) }
{
    if let Some(place) = hints.completed(choice) {
        if is_completed(place, earlier, conflict, choice) {
            return Some(place);
        }
    }
    None
}

/// The place of one of the earlier conflicts that the conflict contains with the choice put to it, from 0.
/// Where hints tell where to look, it may be missed.
pub(crate) fn completed_at(
    earlier: Earlier<'_, '_, '_, '_>,
    conflict: &[Choice],
    choice: &LentChoice<'_, '_>,
) -> Option<usize>
    ensures { MatchOption result
        (earlier.entry.hints ≡ None
        → spec.completes earlier.entry.conflicts.now conflict.now choice.now ≡ false)
        (λ place. (old : List ChoiceParts)
        × (slice_get earlier.entry.conflicts.now place ≡ Some old)
        × (list_all (spec.is_within conflict.now choice.now) old ≡ true)) }
{
    match earlier.hints {
        Some(hints) => hinted(hints, earlier.conflicts, conflict, choice),
        None => first_completed(earlier.conflicts, conflict, choice),
    }
}

/// Whether the conflict with the choice put to it contains an earlier one that is found.
fn completes(
    earlier: Earlier<'_, '_, '_, '_>,
    conflict: &[Choice],
    choice: &LentChoice<'_, '_>,
) -> bool
    ensures right { result ≡ true
        → spec.completes earlier.entry.conflicts.now conflict.now choice.now ≡ true }
    ensures whole { earlier.entry.hints ≡ None
        → result ≡ spec.completes earlier.entry.conflicts.now conflict.now choice.now }
{
    completed_at(earlier, conflict, choice).is_some()
}

/// Whether with each release at the node the conflict contains an earlier one that is found.
fn none_fits(
    releases: &[Release],
    earlier: Earlier<'_, '_, '_, '_>,
    conflict: &[Choice],
    node: &LentNode<'_>,
) -> bool
    ensures right { result ≡ true → list_all
        (λ release. spec.completes earlier.entry.conflicts.now conflict.now
        (record { node = node.now; version = release.version })) releases.now ≡ true }
    ensures whole { earlier.entry.hints ≡ None → result ≡ list_all
        (λ release. spec.completes earlier.entry.conflicts.now conflict.now
        (record { node = node.now; version = release.version })) releases.now }
{
    for place in 0..releases.len() {
        let version = releases[place].version();
        if !completes(earlier, conflict, &LentChoice { node, version }) {
            return false;
        }
    }
    true
}

/// Whether hints tell that some candidate of the name is left for a node.
fn is_some_left(problem: &Problem<'_>, hints: Option<&Hints<'_, '_>>, node: &LentNode<'_>) -> bool
    ensures { hints.entry ≡ None → result ≡ false }
{
    match hints {
        Some(hints) => hints.is_some_left(problem.eligible(node.name), node),
        None => false,
    }
}

/// Whether no candidate of the name is left for a node, as far as earlier conflicts are found.
pub(crate) fn none_left_at(
    problem: &Problem<'_>,
    earlier: Earlier<'_, '_, '_, '_>,
    conflict: &[Choice],
    node: &LentNode<'_>,
) -> bool
    ensures right { result ≡ true
        → spec.none_left problem.now earlier.entry.conflicts.now conflict.now node.now ≡ true }
    ensures whole { earlier.entry.hints ≡ None → result
        ≡ spec.none_left problem.now earlier.entry.conflicts.now conflict.now node.now }
{
    if is_some_left(problem, earlier.hints, node) {
        return false;
    }
    none_fits(problem.eligible(node.name), earlier, conflict, node)
}
