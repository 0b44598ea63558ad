// The changes between the entries of two locks.

ghost use Rattle.std.specs.Prelude.{◌≡◌, [], true, IfOk, MatchOption, OnOk};
ghost use Rattle.std.specs.Option.{option_copied};
ghost use Rattle.pylock.specs.Locks.{are_entries};
ghost use Rattle.changes.specs.Changes.{AreEntryChanges, ChangesEntries};
ghost use Rattle.changes.specs.Tied.Between.{AreOf, IsLeast, IsPut, behind, first_on};

use crate::change::minimal::is_same_item;
use crate::change::parts::EntryChange;
use crate::same::Same;
use lists::{Seq, copy_of};
use pep508::Name;
use pylock::Entry;
use states::TargetName;
use std::alloc::{AllocError, Global};

/// The least name of the first entries; `None` where neither list has one.
fn least_name<'a>(old: &'a [Entry], new: &'a [Entry]) -> Option<&'a Name>
    ensures { MatchOption result ((old.now ≡ []) × (new.now ≡ []))
        (λ name. IsLeast name.now old.now new.now) }
{
    match (old.first(), new.first()) {
        (Some(gone), Some(come)) => {
            let gone = gone.name();
            let come = come.name();
            if come.normal().cmp(&gone.normal()).is_lt() {
                return Some(come);
            }
            Some(gone)
        }
        (Some(gone), None) => Some(gone.name()),
        (None, Some(come)) => Some(come.name()),
        (None, None) => None,
    }
}

/// The first entry, where it is on the name, and the entries behind it.
fn cut<'a>(entries: &'a [Entry], name: &Name) -> (Option<&'a Entry>, &'a [Entry])
    ensures first { option_copied result.0 ≡ first_on name.now entries.now }
    ensures behind { result.1.now ≡ behind name.now entries.now }
{
    match entries {
        [first, rest @ ..] => {
            if name.is_same(first.name()) {
                return (Some(first), rest);
            }
            (None, entries)
        }
        [] => (None, entries),
    }
}

/// Appends what becomes of the name's entry in the target's lock, where it becomes another.
fn append_change(
    made: &mut Vec<EntryChange>,
    target: &TargetName,
    name: &Name,
    old: Option<&Entry>,
    new: Option<&Entry>,
) -> Result<(), AllocError>
    ensures { OnOk result (IsPut target.now name.now (option_copied old.entry)
        (option_copied new.entry) made.old.items made.new.items) }
{
    if is_same_item(old, new) {
        return Ok(());
    }
    let target = target.clone()?;
    let name = name.clone()?;
    let old = copy_of(old)?;
    let new = copy_of(new)?;
    made.push(EntryChange {
        target,
        name,
        old,
        new,
    })?;
    Ok(())
}

/// The changes of the entries that aren't the same in both locks of the target, in the order of their
/// names.
pub(crate) fn entries_between(
    alloc: Global,
    target: &TargetName,
    old: &[Entry],
    new: &[Entry],
) -> Result<Seq<EntryChange>, AllocError>
    requires old { are_entries old.now ≡ true }
    requires new { are_entries new.now ≡ true }
    ensures leads { IfOk result (λ changes. ChangesEntries changes old.now new.now) }
    ensures minimal { IfOk result (λ changes. AreEntryChanges changes) }
    ensures own { IfOk result (λ changes. AreOf target.now changes) }
{
    let mut made = Vec::new(alloc);
    let mut old_left = old;
    let mut new_left = new;
    'names: while let Some(name) = least_name(old_left, new_left) {
        let (gone, old_behind) = cut(old_left, name);
        let (come, new_behind) = cut(new_left, name);
        append_change(&mut made, target, name, gone, come)?;
        old_left = old_behind;
        new_left = new_behind;
    }
    Ok(Seq::from_vec(made))
}
