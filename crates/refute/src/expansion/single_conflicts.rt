// Conflicts of single versions that were made so far.

use crate::expansion::placed_choice::{PlacedChoice, are_among};
use std::alloc::{AllocError, Global};
use std::collections::BTreeMap;

/// The two greatest choices of a conflict, the greatest first, or its only one twice.
type Greatest = (PlacedChoice, PlacedChoice);

/// Conflicts in their order, each of which follows from those before it. The choices of each are sorted.
#[derive(Drop)]
pub(crate) struct SingleConflicts {
    alloc: Global,
    conflicts: Vec<Vec<PlacedChoice>>,
    by_greatest: BTreeMap<Greatest, Vec<usize>>,
    /// How many choices they have together.
    size: usize,
}

/// Under what a conflict is listed; nothing for the empty one.
fn greatest_of(conflict: &[PlacedChoice]) -> Option<Greatest> {
    let (last, rest) = conflict.split_last()?;
    Some((*last, *rest.last().unwrap_or(last)))
}

impl SingleConflicts {
    pub(crate) fn new(alloc: Global) -> SingleConflicts {
        SingleConflicts {
            alloc,
            conflicts: Vec::new(alloc),
            by_greatest: BTreeMap::new(alloc),
            size: 0,
        }
    }

    pub(crate) fn as_slice(&self) -> &[Vec<PlacedChoice>] {
        self.conflicts.as_slice()
    }

    pub(crate) fn size(&self) -> usize {
        self.size
    }

    /// Whether the last one is empty.
    pub(crate) fn ends_empty(&self) -> bool {
        match self.conflicts.last() {
            Some(last) => last.is_empty(),
            None => false,
        }
    }

    /// Appends a conflict.
    pub(crate) fn append(&mut self, mut conflict: Vec<PlacedChoice>) -> Result<(), AllocError> {
        conflict.sort_unstable();
        self.list(conflict.as_slice())?;
        self.size = self.size.saturating_add(conflict.len());
        self.conflicts.push(conflict)?;
        Ok(())
    }

    fn list(&mut self, conflict: &[PlacedChoice]) -> Result<(), AllocError> {
        let Some(greatest) = greatest_of(conflict) else {
            return Ok(());
        };
        let place = self.conflicts.len();
        match self.by_greatest.get_mut(&greatest) {
            Some(listed) => listed.push(place)?,
            None => {
                let mut listed = Vec::new(self.alloc);
                listed.push(place)?;
                self.by_greatest.insert(greatest, listed)?;
            }
        }
        Ok(())
    }

    /// A conflict with at most as few choices as any other whose choices are all among these, which are sorted.
    pub(crate) fn within(&self, choices: &[PlacedChoice]) -> Option<&[PlacedChoice]> {
        let mut least: Option<&[PlacedChoice]> = None;
        for (behind, greatest) in choices.iter().enumerate() {
            for next in choices.iter().take(behind.saturating_add(1)) {
                least = shorter(least, self.listed_within((*greatest, *next), choices));
            }
        }
        least
    }

    /// The same of the conflicts that are listed under two choices.
    fn listed_within(
        &self,
        greatest: Greatest,
        choices: &[PlacedChoice],
    ) -> Option<&[PlacedChoice]> {
        let mut least: Option<&[PlacedChoice]> = None;
        for place in self.by_greatest.get(&greatest)? {
            if let Some(conflict) = self.conflicts.get(*place) {
                if are_among(conflict.as_slice(), choices) {
                    least = shorter(least, Some(conflict.as_slice()));
                }
            }
        }
        least
    }
}

/// The one with fewer choices, the first where they have as many.
fn shorter<'c>(
    one: Option<&'c [PlacedChoice]>,
    other: Option<&'c [PlacedChoice]>,
) -> Option<&'c [PlacedChoice]> {
    match (one, other) {
        (Some(first), Some(second)) if second.len() < first.len() => other,
        (None, _) => other,
        _ => one,
    }
}
