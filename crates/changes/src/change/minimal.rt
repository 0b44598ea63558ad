// Whether the parts of a change are minimal. None of it has a refusal.

ghost use Rattle.std.specs.Prelude.{◌≡◌, ◌≢◌, ◌↔◌, ◌-◌, ◌<◌, IfSome, IsTrue, true};
ghost use Rattle.std.specs.List.{AllByRecursion};
ghost use Rattle.std.specs.Option.{option_copied};
ghost use Rattle.changes.specs.Changes.{AreMinimalChanges, AreSplices, AreTargetChanges, IsEntryChange, IsExchange, IsOn};
ghost use Rattle.changes.specs.Tied.Ends.{DoRise};

use crate::change::by_target::rise_by_target;
use crate::change::ends::{ends_of, place_behind};
use crate::change::parts::{DigestChange, EntryChange, Splice, TargetChange};
use crate::same::Same;
use lists::{Named, rises};
use pep508::Name;
use pylock::Entry;

/// A part of a change that may be minimal.
trait Part {
    ghost IsPart: { Self → Type 0 };

    /// Whether the part is minimal by itself.
    fn is_part(&self) -> bool
        ensures { IsTrue result ↔ IsPart self.now };
}

/// Whether each of the parts is minimal by itself.
fn are_parts<T: Part>(parts: &[T]) -> bool
    ensures { IsTrue result ↔ AllByRecursion T.IsPart parts.now }
{
    for part in parts {
        if !part.is_part() {
            return false;
        }
    }
    true
}

/// Whether both are the same item, or neither is there.
pub(crate) fn is_same_item<T: Same>(item: Option<&T>, other: Option<&T>) -> bool
    ensures { IsTrue result ↔ (option_copied item.entry ≡ option_copied other.entry) }
{
    match (item, other) {
        (Some(item), Some(other)) => item.is_same(other),
        (None, None) => true,
        _ => false,
    }
}

impl Part for Splice {
    ghost IsPart = { IsExchange };

    fn is_part(&self) -> bool {
        let old = self.old.as_slice();
        let new = self.new.as_slice();
        !is_same_item(old.first(), new.first()) && !is_same_item(old.last(), new.last())
    }
}

/// Whether what is there of an entry is on the name.
fn is_on(name: &Name, entry: &Option<Entry>) -> bool
    ensures { IsTrue result ↔ IsOn name.now entry.now }
{
    match entry {
        Some(entry) => entry.name().is_same(name),
        None => true,
    }
}

impl Part for EntryChange {
    ghost IsPart = { IsEntryChange };

    fn is_part(&self) -> bool {
        is_on(&self.name, &self.old) && is_on(&self.name, &self.new) && !self.old.is_same(&self.new)
    }
}

impl Part for TargetChange {
    ghost IsPart = { λ c. c.old ≢ c.new };

    fn is_part(&self) -> bool {
        !self.old.is_same(&self.new)
    }
}

impl Named for TargetChange {
    ghost named = { λ c. c.name };

    fn text(&self) -> &str {
        self.name.as_str()
    }
}

/// Whether the splices rise with a kept line between two, and each place fits, in the new lines too.
fn do_rise(splices: &[Splice]) -> bool
    ensures { IsTrue result ↔ DoRise splices.now }
{
    let Some(first) = splices.first() else {
        return true;
    };
    let mut ends = ends_of(first, first.place);
    for place in 1..splices.len() {
        let splice = &splices[place];
        match place_behind(ends, splice) {
            Some(moved) => ends = ends_of(splice, moved),
            None => return false,
        }
    }
    true
}

/// Whether these are the splices of a minimal change.
pub(crate) fn are_splices(splices: &[Splice]) -> bool
    ensures { IsTrue result ↔ AreSplices splices.now }
{
    are_parts(splices) && do_rise(splices)
}

/// Whether these are the targets' changes of a minimal change.
pub(crate) fn are_targets(changes: &[TargetChange]) -> bool
    ensures { IsTrue result ↔ AreTargetChanges changes.now }
{
    rises(changes) && are_parts(changes)
}

/// Whether these are the entries' changes of a minimal change.
pub(crate) fn are_entries(changes: &[EntryChange]) -> bool
    ensures { IsTrue result ↔ AreMinimalChanges changes.now }
{
    rise_by_target(changes) && are_parts(changes)
}

/// Whether the digest becomes another, where it changes.
pub(crate) fn is_other(digests: &Option<DigestChange>) -> bool
    ensures { IsTrue result ↔ IfSome digests.now (λ d. d.old ≢ d.new) }
{
    match digests {
        Some(digests) => digests.old != digests.new,
        None => true,
    }
}
