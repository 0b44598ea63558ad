// Where the earlier conflict may stand that a conflict contains with one choice more. No clause says that
// it is right: whoever looks at a place tests the conflict there.

mod numbers;
mod rows;

use crate::choice::{Choice, is_at};
use crate::grounds::hints::numbers::{Numbers, numbered};
use crate::grounds::hints::rows::{Row, row_at, rows_of};
use lists::Seq;
use problems::Problem;
use problems::parts::{LentChoice, LentNode};
use snapshot::Release;
use std::alloc::{AllocError, Global};

/// Where the conflicts of a list stand, by the numbers of their choices.
pub(crate) struct Places<'c> {
    alloc: Global,
    choices: Vec<&'c Choice>,
    numbers: Numbers,
    rows: Vec<Row<'c>>,
}

impl<'c> Drop for Places<'c> {
    fn drop(self) {
        let Places {
            alloc: _,
            choices: _,
            numbers: _,
            rows: _,
        } = self;
    }
}

/// Whether a choice is below another one.
fn is_below(choice: &Choice, other: &LentChoice<'_, '_>) -> bool {
    let node = other.node;
    let names = choice.name.cmp(node.name);
    if names.is_ne() {
        return names.is_lt();
    }
    let extras = choice.extra.as_ref().cmp(&node.extra);
    if extras.is_ne() {
        return extras.is_lt();
    }
    choice.version.cmp(other.version).is_lt()
}

/// Where to look for these conflicts.
pub(crate) fn places_of<'c>(
    alloc: Global,
    problem: &Problem<'_>,
    conflicts: &'c [Seq<Choice>],
) -> Result<Places<'c>, AllocError> {
    let (choices, numbers) = numbered(alloc, conflicts)?;
    let rows = rows_of(alloc, problem, choices.as_slice())?;
    Ok(Places {
        alloc,
        choices,
        numbers,
        rows,
    })
}

impl<'c> Places<'c> {
    /// The number of a choice; nothing where no conflict has it.
    fn number_of(&self, choice: &LentChoice<'_, '_>) -> Option<usize> {
        let choices = self.choices.as_slice();
        let number = choices.partition_point(|other| is_below(other, choice));
        if is_at(choices.get(number)?, choice) {
            return Some(number);
        }
        None
    }

    /// Where to look for the conflicts before the one at this place.
    pub(crate) fn hints(&self, place: usize) -> Result<Hints<'_, 'c>, AllocError> {
        let near = self.numbers.near(self.alloc, place)?;
        Ok(Hints {
            places: self,
            place,
            near,
        })
    }
}

/// Where to look for the conflicts before the one at a place.
pub(crate) struct Hints<'h, 'c> {
    places: &'h Places<'c>,
    place: usize,
    /// The numbers of choices, each with the place of an earlier conflict that has it, whose others the one at the
    /// place has; listed are those that are found by a choice of this one.
    near: Vec<(usize, usize)>,
}

impl<'h, 'c> Drop for Hints<'h, 'c> {
    fn drop(self) {
        let Hints {
            places: _,
            place: _,
            near: _,
        } = self;
    }
}

impl<'h, 'c> Hints<'h, 'c> {
    /// The first place of those that are listed with this number.
    fn near(&self, number: usize) -> Option<usize> {
        let near = self.near.as_slice();
        let first = near.get(near.partition_point(|one| one.0 < number))?;
        if first.0 == number {
            return Some(first.1);
        }
        None
    }

    /// The first place of an earlier conflict that has the choice of this number, and all whose other choices the
    /// conflict has.
    fn of_number(&self, number: usize) -> Option<usize> {
        lesser(
            self.near(number),
            self.places.numbers.under(number, self.place),
        )
    }

    /// Whether with some of these releases at the node no place is told.
    pub(crate) fn is_some_left(&self, releases: &[Release], node: &LentNode<'_>) -> bool {
        let numbers = row_at(self.places.rows.as_slice(), node);
        if numbers.len() < releases.len() {
            return true;
        }
        for number in numbers {
            if self.of_number(*number).is_none() {
                return true;
            }
        }
        false
    }

    /// The place of the first earlier conflict that has the choice, and all whose other choices the conflict has.
    pub(crate) fn completed(&self, choice: &LentChoice<'_, '_>) -> Option<usize> {
        self.of_number(self.places.number_of(choice)?)
    }
}

/// The lesser of two places, if there is one.
fn lesser(one: Option<usize>, other: Option<usize>) -> Option<usize> {
    match (one, other) {
        (Some(place), Some(another)) if another < place => other,
        (Some(_), _) => one,
        (None, _) => other,
    }
}
