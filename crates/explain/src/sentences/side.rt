// Who asks for which releases of a name.

use crate::asked::{Asked, Words};
use crate::release_set::add_listed;
use crate::sentences::{Sentences, add_node};
use crate::sides::{Party, Side};
use crate::verb::Verb;
use problems::Node;
use set_refutations::placed::PlacedTerm;
use std::alloc::AllocError;

impl Sentences<'_> {
    /// What some sides ask of a node's name, with commas between them and `and` before the last one. The name is told once.
    pub fn add_sides(
        &self,
        text: &mut String,
        conflict: &[PlacedTerm],
        node: &Node,
        sides: &[Side],
    ) -> Result<(), AllocError> {
        let last = sides.len().saturating_sub(1);
        for (place, side) in sides.iter().enumerate() {
            if place == 0 {
                self.add_asking(text, conflict, side, node)?;
            } else {
                text.push_str(if place == last { ", and " } else { ", " })?;
                self.add_next_side(text, conflict, side, node)?;
            }
        }
        Ok(())
    }

    /// Who asks for a node, and for which releases of it.
    pub fn add_asking(
        &self,
        text: &mut String,
        conflict: &[PlacedTerm],
        side: &Side,
        node: &Node,
    ) -> Result<(), AllocError> {
        let asked = &side.asked;
        match side.party {
            Party::Line(place) => {
                self.add_whole_line(text, place)?;
                text.push_str(match &asked.words {
                    Words::Any => " needs ",
                    Words::Nothing(_) => " allows no release of ",
                    _ => " allows ",
                })?;
                self.add_named(text, asked, node)?;
                if asked.is_nothing() {
                    return self.add_newest(text, node);
                }
                Ok(())
            }
            Party::Term(at) => {
                if let Some(term) = conflict.get(at) {
                    self.add_subject(text, term, Verb::needs())?;
                }
                self.add_wanted(text, asked, node)
            }
            Party::Lock => Ok(()),
        }
    }

    /// The newest release that the index has of a name, of which a line allows none.
    fn add_newest(&self, text: &mut String, node: &Node) -> Result<(), AllocError> {
        match self.problem.releases(&node.name).first() {
            Some(release) => {
                let version = release.version();
                write!(text, "; the newest in the index is {version}")
            }
            None => Ok(()),
        }
    }

    /// What releases need, also where no release matches it.
    fn add_wanted(&self, text: &mut String, asked: &Asked, node: &Node) -> Result<(), AllocError> {
        match &asked.words {
            Words::Nothing(texts) if texts.is_empty() => {
                add_node(text, node)?;
                text.push_str(" in versions that the index doesn't have")
            }
            Words::Nothing(texts) => {
                add_listed(text, texts.as_slice(), "or")?;
                text.push_str(", and the index has no such release")
            }
            _ => self.add_named(text, asked, node),
        }
    }

    /// What is asked of a node, with its name.
    pub fn add_named(
        &self,
        text: &mut String,
        asked: &Asked,
        node: &Node,
    ) -> Result<(), AllocError> {
        match &asked.words {
            Words::Requirement(requirement) => text.push_str(requirement.as_str()),
            Words::Range(range) => {
                add_node(text, node)?;
                text.push_str(" ")?;
                text.push_str(range.as_str())
            }
            _ => add_node(text, node),
        }
    }

    /// A side behind another one. A line and the lock don't tell the name again.
    fn add_next_side(
        &self,
        text: &mut String,
        conflict: &[PlacedTerm],
        side: &Side,
        node: &Node,
    ) -> Result<(), AllocError> {
        match side.party {
            Party::Line(place) => {
                self.add_known_line(text, place)?;
                text.push_str(" allows ")?;
            }
            Party::Lock => text.push_str("the lock keeps ")?,
            Party::Term(_) => {
                return self.add_asking(text, conflict, side, node);
            }
        }
        match &side.asked.words {
            Words::Range(range) => text.push_str(range.as_str()),
            _ => self.add_named(text, &side.asked, node),
        }
    }
}
