// The changes between the targets of two states.

ghost use Rattle.std.specs.Prelude.{◌≡◌, IfOk, true};
ghost use Rattle.std.specs.Option.{option_copied};
ghost use Rattle.lists.specs.Rising.{rises};
ghost use Rattle.changes.specs.Tied.Between.{AreBetween, AreEntriesBetween, target_change, target_change_on};
ghost use Rattle.changes.specs.Tied.Retargeted.{on_names};

use crate::change::between_entries::entries_between;
use crate::change::by_name::{in_order, item_on, names_of, push_some};
use crate::change::parts::{EntryChange, TargetChange};
use crate::change::retargeted::{entries_in, environment_in};
use crate::same::Same;
use lists::Seq;
use states::{Target, TargetName};
use std::alloc::{AllocError, Global};

/// The changes between targets, and those between the entries of their locks.
#[derive(Drop)]
pub(crate) struct TargetsBetween {
    pub(crate) targets: Seq<TargetChange>,
    pub(crate) entries: Seq<EntryChange>,
}

/// What becomes of the environment of a name; `None` where it stays.
fn target_change(
    name: &TargetName,
    old: Option<&Target>,
    new: Option<&Target>,
) -> Result<Option<TargetChange>, AllocError>
    ensures { IfOk result (λ made. made
        ≡ target_change name.now (option_copied old.entry) (option_copied new.entry)) }
{
    let old = environment_in(old)?;
    let new = environment_in(new)?;
    if old.is_same(&new) {
        return Ok(None);
    }
    let name = name.clone()?;
    Ok(Some(TargetChange { name, old, new }))
}

/// What becomes of the environments of the names.
fn changes_between(
    alloc: Global,
    old: &[Target],
    new: &[Target],
    names: &[TargetName],
) -> Result<Seq<TargetChange>, AllocError>
    ensures { IfOk result
        (λ made. made ≡ on_names (target_change_on old.now new.now) names.now) }
{
    let mut made = Vec::new(alloc);
    for name in names {
        let change = target_change(name, item_on(old, name), item_on(new, name))?;
        push_some(&mut made, change)?;
    }
    Ok(Seq::from_vec(made))
}

/// The changes of the entries that aren't the same in both locks of a target, name by name. The lock of a
/// target that isn't there has no entry.
fn locks_between(
    alloc: Global,
    old: &[Target],
    new: &[Target],
    names: &[TargetName],
) -> Result<Seq<EntryChange>, AllocError>
    requires { rises names.now ≡ true }
    ensures { IfOk result (AreEntriesBetween old.now new.now names.now) }
{
    let mut made = Vec::new(alloc);
    for name in names {
        let from = entries_in(item_on(old, name));
        let to = entries_in(item_on(new, name));
        let own = entries_between(alloc, name, from, to)?;
        made.append(&mut own.into_vec())?;
    }
    Ok(Seq::from_vec(made))
}

/// The targets that come, go or get another environment, and the changes of the entries that aren't the
/// same in both locks of a target.
pub(crate) fn targets_between(
    alloc: Global,
    old: &[Target],
    new: &[Target],
) -> Result<TargetsBetween, AllocError>
    ensures { IfOk result (λ made. AreBetween old.now new.now made.targets made.entries) }
{
    let names = in_order(alloc, names_of(alloc, old, new)?)?;
    let targets = changes_between(alloc, old, new, names.as_slice())?;
    let entries = locks_between(alloc, old, new, names.as_slice())?;
    Ok(TargetsBetween { targets, entries })
}
