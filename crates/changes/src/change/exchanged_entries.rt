// Entries, some of them exchanged for others.

ghost use Rattle.std.specs.Prelude.{◌≡◌, ◌↔◌, ◌++◌, IfOk, IsTrue, OnOk, true};
ghost use Rattle.std.specs.Cmp.Lexicographic.{slice_cmp};
ghost use Rattle.std.specs.Option.{option_to_list};
ghost use Rattle.std.specs.Ordering.{is_lt, nat_cmp};
ghost use Rattle.pylock.specs.Locks.{are_entries};
ghost use Rattle.changes.specs.Changes.{AreEntryChanges, ChangesEntries};
ghost use Rattle.changes.specs.Tied.ExchangedEntries.{IsCutAt, count_below, entries_on};
ghost use Rattle.changes.specs.Tied.Only.{IsTheOnly};

use crate::change::parts::EntryChange;
use crate::same::{Same, are_same};
use lists::Seq;
use pep508::Name;
use pylock::Entry;
use std::alloc::{AllocError, Global};

/// Whether the entry's name is below this one.
fn is_below(entry: &Entry, name: &Name) -> bool
    ensures { result ≡ is_lt (slice_cmp nat_cmp entry.now.name name.now) }
{
    entry.name().normal().cmp(&name.normal()).is_lt()
}

/// How many entries stand before the first whose name isn't below this one. Names rise, so half of the
/// entries are left out at each look.
fn count_below(entries: &[Entry], name: &Name) -> usize
    requires { are_entries entries.now ≡ true }
    ensures { result ≡ count_below name.now entries.now }
{
    entries.partition_point(|entry| is_below(entry, name))
}

/// How many entries on the name stand first: one or none.
fn entries_on(entries: &[Entry], name: &Name) -> usize
    ensures { result ≡ entries_on name.now entries.now }
{
    match entries.first() {
        Some(first) if name.is_same(first.name()) => 1,
        _ => 0,
    }
}

/// The entries below the name, the one on it, if there is one, and those above it.
fn cut_at<'a>(entries: &'a [Entry], name: &Name) -> (&'a [Entry], &'a [Entry], &'a [Entry])
    requires { are_entries entries.now ≡ true }
    ensures { IsCutAt name.now entries.now result.0.now result.1.now result.2.now }
{
    let (below, rest) = entries.split_at(count_below(entries, name));
    let (on, above) = rest.split_at(entries_on(rest, name));
    (below, on, above)
}

/// Whether these are the old entry of the change, or none where it has none.
fn is_old(entries: &[Entry], change: &EntryChange) -> bool
    ensures { IsTrue result ↔ (entries.now ≡ option_to_list change.now.old) }
{
    are_same(entries, change.old.as_slice())
}

/// Appends entries. They are shared, not copied.
fn keep(after: &mut Vec<Entry>, entries: &[Entry]) -> Result<(), AllocError>
    ensures { OnOk result (after.new.items ≡ after.old.items ++ entries.now) }
{
    for entry in entries {
        after.push(entry.clone()?)?;
    }
    Ok(())
}

/// The entries after the changes; `None` where the old entry of one isn't that of its name.
pub(crate) fn exchanged(
    alloc: Global,
    entries: &[Entry],
    changes: &[EntryChange],
) -> Result<Option<Seq<Entry>>, AllocError>
    requires entries { are_entries entries.now ≡ true }
    requires changes { AreEntryChanges changes.now }
    ensures { IfOk result (IsTheOnly (ChangesEntries changes.now entries.now)) }
{
    let mut after = Vec::with_capacity(alloc, entries.len())?;
    let mut rest = entries;
    for change in changes {
        let (below, on, above) = cut_at(rest, &change.name);
        if !is_old(on, change) {
            return Ok(None);
        }
        keep(&mut after, below)?;
        keep(&mut after, change.new.as_slice())?;
        rest = above;
    }
    keep(&mut after, rest)?;
    Ok(Some(Seq::from_vec(after)))
}
