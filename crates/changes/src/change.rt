// Changes: what differs between two states.

ghost use Rattle.std.specs.Prelude.{◌≡◌, ◌↔◌, IfOk, IsTrue, MatchOption, OnErr, OnOk};
ghost use Rattle.changes.specs.Changes.{ChangeParts, IsEmpty, IsMinimal, Leads, LeadsNowhere, inverse};
ghost use Rattle.states.specs.StateParts.{StateParts};

mod application;
pub(crate) mod between;
mod between_entries;
mod between_lines;
mod between_targets;
pub(crate) mod by_name;
mod by_target;
mod carried_over;
pub(crate) mod difference;
mod ends;
mod exchanged_entries;
mod file;
mod inverse;
mod minimal;
mod moving;
mod nearest;
mod outcome;
mod parts;
mod retargeted;
mod spliced_lines;

use crate::change::application::{applied, carried};
use crate::change::inverse::{digests_back, entries_back, splices_back, targets_back};
pub use crate::change::moving::MovingState;
pub use crate::change::parts::{DigestChange, EntryChange, Splice, TargetChange};
use lists::{Faithful, Seq};
use states::State;
use std::alloc::{AllocError, Global};
use std::marker::Model;

/// What differs between two states, with what stood there before. It is minimal: nothing in it could
/// be left out. In a clause it is the record of its parts.
#[derive(Debug)]
pub struct Change {
    splices: Seq<Splice>,
    targets: Seq<TargetChange>,
    entries: Seq<EntryChange>,
    digests: Option<DigestChange>,
}

impl Drop for Change {
    fn drop(self) {
        let Change {
            splices: _,
            targets: _,
            entries: _,
            digests: _,
        } = self;
    }
}

impl Model for Change {
    ghost use Rattle.changes.specs.Changes.{ChangeParts, IsMinimal};

    ghost Value = { ChangeParts };

    ghost view = { λ c. record {
      splices = c.splices;
      targets = c.targets;
      entries = c.entries;
      digests = c.digests;
    } };

    ghost invariant = { λ c. IsMinimal (record {
      splices = c.splices;
      targets = c.targets;
      entries = c.entries;
      digests = c.digests;
    }) };
}

impl Change {
    /// The change of these parts; `None` where they aren't minimal: a splice whose old and new lines
    /// begin or end with an equal line, or are both empty; splices that don't rise with a kept line
    /// between two; names of targets that don't rise by their bytes; an old environment that equals its
    /// new one, or neither; pairs of a target and a name that don't rise by their bytes; an entry on
    /// another name; an old entry that equals its new one to the text; equal digests; a place that the
    /// inverse moves above 2 ^ 64 - 1. It has no other refusal.
    pub fn new(
        splices: Seq<Splice>,
        targets: Seq<TargetChange>,
        entries: Seq<EntryChange>,
        digests: Option<DigestChange>,
    ) -> Option<Change>
        ensures { let parts : ChangeParts = record {
          splices = splices;
          targets = targets;
          entries = entries;
          digests = digests;
        } in
            MatchOption result (IsMinimal parts → ⊥) (λ change. change ≡ parts) }
    {
        if minimal::are_splices(splices.as_slice())
            && minimal::are_targets(targets.as_slice())
            && minimal::are_entries(entries.as_slice())
            && minimal::is_other(&digests)
        {
            return Some(Change {
                splices,
                targets,
                entries,
                digests,
            });
        }
        None
    }

    /// The splices of the lines, by their places.
    pub fn splices(&self) -> &[Splice]
        ensures { result.now ≡ self.now.splices }
    {
        self.splices.as_slice()
    }

    /// The targets that come, go, or get another environment, in the order of their names.
    pub fn targets(&self) -> &[TargetChange]
        ensures { result.now ≡ self.now.targets }
    {
        self.targets.as_slice()
    }

    /// The changes of entries, in the order of their targets, and of their names in each.
    pub fn entries(&self) -> &[EntryChange]
        ensures { result.now ≡ self.now.entries }
    {
        self.entries.as_slice()
    }

    /// The change of the index's digest; `None` where it is the same.
    pub fn digests(&self) -> Option<DigestChange>
        ensures { result ≡ self.now.digests }
    {
        self.digests
    }

    /// Whether nothing is in the change.
    pub fn is_empty(&self) -> bool
        ensures { IsTrue result ↔ IsEmpty self.now }
    {
        self.splices.is_empty()
            && self.targets.is_empty()
            && self.entries.is_empty()
            && self.digests.is_none()
    }

    /// What holds of every change.
    pub fn recall_invariant(&self)
        ensures { IsMinimal self.now }
    {
        let _splices = &self.splices;
    }

    /// The state that the change of `state` leads to; `None` where one of the change's old parts doesn't
    /// stand in its place, where the state lacks the target of an entry, where a target that goes keeps an
    /// entry, or where what it leads to is no state: lines that don't read, or a lock that doesn't belong to
    /// them.
    pub fn apply(&self, alloc: Global, state: &State) -> Result<Option<State>, AllocError>
        ensures { IfOk result (λ applied. MatchOption applied (LeadsNowhere state.now self.now)
            (Leads state.now self.now)) }
    {
        applied(alloc, self, state)
    }

    /// Moves a state along the change, which leads from it to another state. Where memory is refused, the
    /// state is what it was.
    pub fn carry(&self, alloc: Global, state: &mut State) -> Result<(), AllocError>
        requires { (next : StateParts) × Leads state.old self.now next }
        ensures led { OnOk result (Leads state.old self.now state.new) }
        ensures kept { OnErr result (state.new ≡ state.old) }
    {
        carried(alloc, self, state)
    }

    /// The change back: it leads from the new state to the old one.
    pub fn inverse(&self, alloc: Global) -> Result<Change, AllocError>
        ensures { IfOk result (λ change. change ≡ inverse self.now) }
    {
        let splices = splices_back(alloc, self.splices.as_slice())?;
        let targets = targets_back(alloc, self.targets.as_slice())?;
        let entries = entries_back(alloc, self.entries.as_slice())?;
        Ok(Change {
            splices,
            targets,
            entries,
            digests: digests_back(self.digests),
        })
    }
}

impl Clone for Change {
    ghost is_clone = { λ c d. d ≡ c };

    fn clone(&self) -> Result<Change, AllocError> {
        let splices = self.splices.clone()?;
        let targets = self.targets.clone()?;
        let entries = self.entries.clone()?;
        Ok(Change {
            splices,
            targets,
            entries,
            digests: self.digests,
        })
    }
}

impl Faithful for Change {
    ghost clone_is_source = { λ x y h. h };
}
