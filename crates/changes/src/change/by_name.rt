// Targets name by name.

ghost use Rattle.std.specs.Prelude.{◌≡◌, ◌++◌, ℕ, List, [], find, map, true, IfOk, OnOk};
ghost use Rattle.std.specs.Option.{option_copied, option_to_list};
ghost use Rattle.std.specs.Str.{bytes_eq};
ghost use Rattle.lists.specs.Rising.{rises};
ghost use Rattle.states.specs.Names.{with_names};
ghost use Rattle.changes.specs.Changes.{target_on};

use crate::change::parts::{EntryChange, TargetChange};
use lists::Seq;
use states::{Target, TargetName};
use std::alloc::{AllocError, Global};
use std::collections::BTreeSet;

/// What is of the target of a name.
pub(crate) trait OfTarget {
    ghost target: { Self → List ℕ };

    /// The name of the target.
    fn target(&self) -> &TargetName
        ensures { result.now ≡ target self.now };
}

impl OfTarget for Target {
    ghost target = { λ t. t.name };

    fn target(&self) -> &TargetName {
        &self.name
    }
}

impl OfTarget for TargetChange {
    ghost target = { λ c. c.name };

    fn target(&self) -> &TargetName {
        &self.name
    }
}

impl OfTarget for EntryChange {
    ghost target = { λ c. c.target };

    fn target(&self) -> &TargetName {
        &self.target
    }
}

/// The first of the items that is of the target.
pub(crate) fn item_on<'i, T: OfTarget>(items: &'i [T], name: &TargetName) -> Option<&'i T>
    ensures { option_copied result ≡ find (λ t. bytes_eq name.now (T.target t)) items.now }
{
    items
        .iter()
        .find(|item| name.as_str() == item.target().as_str())
}

/// The target of the name, if there is one.
pub fn target_on<'t>(targets: &'t [Target], name: &TargetName) -> Option<&'t Target>
    ensures { option_copied result ≡ target_on targets.now name.now }
{
    item_on(targets, name)
}

/// Puts the names of the items' targets to others.
pub(crate) fn put_names<T: OfTarget>(
    names: &mut BTreeSet<TargetName>,
    items: &[T],
) -> Result<(), AllocError>
    ensures { OnOk result (names.new.keys ≡ with_names names.old.keys (map T.target items.now)) }
{
    for item in items {
        let name = item.target().clone()?;
        names.insert(name)?;
    }
    Ok(())
}

/// The names of the targets of two lists.
pub(crate) fn names_of<S: OfTarget, T: OfTarget>(
    alloc: Global,
    items: &[S],
    more: &[T],
) -> Result<BTreeSet<TargetName>, AllocError>
    ensures { IfOk result
        (λ names. names.keys ≡ with_names [] (map S.target items.now ++ map T.target more.now)) }
{
    let mut names = BTreeSet::new(alloc);
    put_names(&mut names, items)?;
    put_names(&mut names, more)?;
    Ok(names)
}

/// The names in their order.
pub(crate) fn in_order(
    alloc: Global,
    names: BTreeSet<TargetName>,
) -> Result<Seq<TargetName>, AllocError>
    ensures names { IfOk result (λ list. list ≡ names.keys) }
    ensures rising { IfOk result (λ list. rises list ≡ true) }
{
    let mut list = Vec::with_capacity(alloc, names.len())?;
    for name in names {
        list.push(name)?;
    }
    Ok(Seq::from_vec(list))
}

/// Appends an item, where there is one.
pub(crate) fn push_some<T: Drop>(items: &mut Vec<T>, item: Option<T>) -> Result<(), AllocError>
    ensures { OnOk result (items.new.items ≡ items.old.items ++ option_to_list item) }
{
    if let Some(item) = item {
        items.push(item)?;
    }
    Ok(())
}
