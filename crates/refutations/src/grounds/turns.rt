// Whether a conflict is within another one, where the choices of both stand in one order: what is looked for next
// stands behind what was found last. In another order it costs time and no answer.

ghost use Rattle.std.specs.Prelude.{◌≡◌, IfSome, IsTrue, drop, is_some, true};
ghost use Rattle.std.specs.List.{list_all, list_any};
ghost use Rattle.refutations.specs.Tied.Cases as spec;

use crate::choice::{Choice, are_one, is_at};
use crate::grounds::completion::is_within;
use problems::parts::LentChoice;

/// The place behind the first choice of the conflict, from a place on, that is this one.
fn place_behind(conflict: &[Choice], member: &Choice, from: usize) -> Option<usize>
    ensures { is_some result ≡ list_any (spec.is_same member.now) (drop from conflict.now) }
{
    for place in from..conflict.len() {
        if are_one(member, &conflict[place]) {
            return Some(place + 1);
        }
    }
    None
}

/// The same, of which no more is told than that the choice is there.
fn found_behind(conflict: &[Choice], member: &Choice, from: usize) -> Option<usize>
    ensures { IfSome result (λ _. list_any (spec.is_same member.now) conflict.now ≡ true) }
{
    place_behind(conflict, member, from)
}

/// The same of a choice that need not be there where it is the one that is put to the conflict.
fn next_behind(
    conflict: &[Choice],
    member: &Choice,
    from: usize,
    choice: &LentChoice<'_, '_>,
) -> Option<usize>
    ensures { IfSome result (λ _. spec.is_within conflict.now choice.now member.now ≡ true) }
{
    if is_at(member, choice) {
        return Some(from);
    }
    found_behind(conflict, member, from)
}

/// Whether each choice of an earlier conflict is the one that is put to the conflict, or stands in this
/// behind those that were found before.
fn are_in_turn(old: &[Choice], conflict: &[Choice], choice: &LentChoice<'_, '_>) -> bool
    ensures { IsTrue result → list_all (spec.is_within conflict.now choice.now) old.now ≡ true }
{
    let mut from = 0;
    for place in 0..old.len() {
        match next_behind(conflict, &old[place], from, choice) {
            Some(next) => from = next,
            None => return false,
        }
    }
    true
}

/// What `is_within` answers, which is asked where this order doesn't tell.
pub(crate) fn is_within_by_turns(
    old: &[Choice],
    conflict: &[Choice],
    choice: &LentChoice<'_, '_>,
) -> bool
    ensures { result ≡ list_all (spec.is_within conflict.now choice.now) old.now }
{
    if are_in_turn(old, conflict, choice) {
        return true;
    }
    is_within(old, conflict, choice)
}
