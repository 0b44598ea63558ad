// A conflict of single versions in the making.

use crate::expansion::placed_choice::{PlacedChoice, is_among};
use std::alloc::{AllocError, Global};

/// A conflict of sets with a choice for each of its terms, which needs a node of which no candidate is left.
/// Its candidates are gone through one by one.
#[derive(Drop)]
pub(crate) struct Frame {
    /// The place of the conflict of sets.
    pub(crate) conflict: usize,
    /// The choices, sorted.
    pub(crate) choices: Vec<PlacedChoice>,
    /// The number of the node.
    pub(crate) node: usize,
    /// How many of the candidates are excluded.
    pub(crate) turn: usize,
    /// The choice that needs the node, if it isn't a line, and those by which candidates are excluded.
    made: Vec<PlacedChoice>,
}

impl Frame {
    /// No candidate is excluded yet.
    pub(crate) fn new(
        alloc: Global,
        conflict: usize,
        choices: Vec<PlacedChoice>,
        node: usize,
        need: Option<PlacedChoice>,
    ) -> Result<Frame, AllocError> {
        let mut made = Vec::new(alloc);
        if let Some(choice) = need {
            made.push(choice)?;
        }
        Ok(Frame {
            conflict,
            choices,
            node,
            turn: 0,
            made,
        })
    }

    /// The choices with a candidate beside them, sorted.
    pub(crate) fn with(&self, candidate: PlacedChoice) -> Result<Vec<PlacedChoice>, AllocError> {
        let mut choices = self.choices.clone()?;
        choices.push(candidate)?;
        choices.sort_unstable();
        Ok(choices)
    }

    /// The candidate is excluded by a conflict that has it, beside choices of the frame.
    pub(crate) fn exclude(
        &mut self,
        candidate: PlacedChoice,
        conflict: &[PlacedChoice],
    ) -> Result<(), AllocError> {
        for choice in conflict {
            if *choice != candidate && !is_among(*choice, self.made.as_slice()) {
                self.made.push(*choice)?;
            }
        }
        self.turn = self.turn.saturating_add(1);
        Ok(())
    }

    /// The conflict that follows when all candidates are excluded.
    pub(crate) fn into_conflict(self) -> Vec<PlacedChoice> {
        let Frame {
            conflict: _,
            choices: _,
            node: _,
            turn: _,
            made,
        } = self;
        made
    }
}
