// The conflicts before one, lent.

ghost use Rattle.std.specs.Prelude.{◌≡◌, [], length, map};
ghost use Rattle.std.specs.List.{slice_get, slice_index_or};
ghost use Rattle.std.specs.Option.{option_map_or};

use crate::set_refutation::SetTerm;
use lists::Seq;
use std::marker::Model;

/// Conflicts of sets before one, lent: all of a list, or those at some places of it. In a clause they are the list of
/// these conflicts.
pub struct EarlierSets<'e> {
    conflicts: &'e [Seq<SetTerm>],
    /// The places; nothing where it is all of the list.
    places: Option<&'e [usize]>,
}

impl<'e> Drop for EarlierSets<'e> {
    fn drop(self) {
        let EarlierSets {
            conflicts: _,
            places: _,
        } = self;
    }
}

impl<'e> Model for EarlierSets<'e> {
    ghost use Rattle.std.specs.Prelude.{[], List, map};
    ghost use Rattle.std.specs.List.{slice_index_or};
    ghost use Rattle.std.specs.Option.{option_map_or};
    ghost use Rattle.set_refutations.specs.SetRefutations.{TermParts};

    ghost Value = { List (List TermParts) };

    ghost view = { λ e. option_map_or
        (λ places. map (λ place. slice_index_or e.conflicts.now place []) places.now)
        e.places e.conflicts.now };
}

/// The conflict at a place of a list; an empty one behind its end.
fn listed(conflicts: &[Seq<SetTerm>], place: usize) -> &[SetTerm]
    ensures { result.now ≡ slice_index_or conflicts.now place [] }
{
    match conflicts.get(place) {
        Some(conflict) => conflict.as_slice(),
        None => &[],
    }
}

/// The conflict that stands at one of these places of a list; an empty one behind the last.
fn few_at<'e>(conflicts: &'e [Seq<SetTerm>], places: &[usize], place: usize) -> &'e [SetTerm]
    ensures { result.now ≡ option_map_or (λ at. slice_index_or conflicts.now at [])
        (slice_get places.now place) [] }
{
    match places.get(place) {
        Some(at) => listed(conflicts, *at),
        None => &[],
    }
}

impl<'e> EarlierSets<'e> {
    /// All conflicts of a list.
    pub fn all(conflicts: &'e [Seq<SetTerm>]) -> EarlierSets<'e>
        ensures { result ≡ conflicts.now }
    {
        EarlierSets {
            conflicts,
            places: None,
        }
    }

    /// The conflicts at these places of a list, and an empty one for each place behind its end.
    pub fn few(conflicts: &'e [Seq<SetTerm>], places: &'e [usize]) -> EarlierSets<'e>
        ensures { result ≡ map (λ place. slice_index_or conflicts.now place []) places.now }
    {
        EarlierSets {
            conflicts,
            places: Some(places),
        }
    }

    /// How many there are.
    pub(crate) fn len(&self) -> usize
        ensures { result ≡ length self.now }
    {
        match self.places {
            Some(places) => places.len(),
            None => self.conflicts.len(),
        }
    }

    /// The conflict at a place; an empty one behind the last.
    pub(crate) fn at(&self, place: usize) -> &[SetTerm]
        ensures { result.now ≡ slice_index_or self.now place [] }
    {
        match self.places {
            Some(places) => few_at(self.conflicts, places, place),
            None => listed(self.conflicts, place),
        }
    }
}
