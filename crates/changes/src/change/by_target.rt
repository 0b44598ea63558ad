// Changes of entries, which rise by their targets.

ghost use Rattle.std.specs.Prelude.{◌≡◌, true};
ghost use Rattle.std.specs.Cmp.Lexicographic.{slice_cmp};
ghost use Rattle.std.specs.Ordering.{is_le, is_lt, nat_cmp};
ghost use Rattle.changes.specs.Changes.{changes_on, entry_change_cmp, rise_by_target};

use crate::change::parts::EntryChange;
use states::TargetName;

/// Whether the change comes before the next one: by the names of their targets, then by their own.
fn comes_before(change: &EntryChange, next: &EntryChange) -> bool
    ensures { result ≡ is_lt (entry_change_cmp change.now next.now) }
{
    let targets = change.target.as_str().cmp(&next.target.as_str());
    let names = change.name.normal().cmp(&next.name.normal());
    targets.then(names).is_lt()
}

/// Whether each change comes before the next one.
pub(crate) fn rise_by_target(changes: &[EntryChange]) -> bool
    ensures { result ≡ rise_by_target changes.now }
{
    for place in 1..changes.len() {
        if !comes_before(&changes[place - 1], &changes[place]) {
            return false;
        }
    }
    true
}

/// Whether the change is of a target before this one.
fn is_before(change: &EntryChange, target: &TargetName) -> bool
    ensures { result ≡ is_lt (slice_cmp nat_cmp change.now.target target.now) }
{
    change.target.as_str().cmp(&target.as_str()).is_lt()
}

/// Whether the change is of this target, or of one before it.
fn is_up_to(change: &EntryChange, target: &TargetName) -> bool
    ensures { result ≡ is_le (slice_cmp nat_cmp change.now.target target.now) }
{
    change.target.as_str().cmp(&target.as_str()).is_le()
}

/// The changes of the target. They stand together, and half of the others is left out at each look.
pub(crate) fn own_changes<'a>(changes: &'a [EntryChange], target: &TargetName) -> &'a [EntryChange]
    requires { rise_by_target changes.now ≡ true }
    ensures { result.now ≡ changes_on target.now changes.now }
{
    let before = changes.partition_point(|change| is_before(change, target));
    let rest = &changes[before..];
    let own = rest.partition_point(|change| is_up_to(change, target));
    &rest[..own]
}
