// Refutations in sentences.

mod causes;
mod chain;
mod conclusion;
mod front;
mod left_out;
mod sentence;
mod side;
pub mod steps;
mod two_lines;

use crate::account::Derived;
use crate::asked::Asked;
use crate::dependencies::{Needing, bare_node};
use crate::line_name::{LineName, add_line, add_short};
use crate::release_set::ReleaseSet;
use crate::sentences::chain::{Part, parts_of};
use crate::sentences::steps::Step;
use lists::Bits;
use pep508::{Name, Requirement};
use phrases::add_wrapped;
use problems::{Node, Problem};
use set_refutations::placed::PlacedTerm;
use std::alloc::{AllocError, Global};

/// What sentences are made of.
#[derive(Clone, Copy)]
pub struct Sentences<'a> {
    pub alloc: Global,
    pub problem: &'a Problem<'a>,
    pub derived: Derived<'a>,
    /// The active lines, in their order.
    pub lines: &'a [LineName<'a>],
    /// The conflicts that have a sentence, in the order of their numbers.
    pub steps: &'a [Step],
    /// The places of the lines on which the sentences rest.
    pub cited: &'a [usize],
    /// The conflicts beside which near names are told.
    pub sought: &'a [usize],
    /// How many characters a line has at most.
    pub width: usize,
}

impl Sentences<'_> {
    /// The conclusion, and the sentences with their numbers; then the releases that were left out of the index.
    pub fn add_all(&self, text: &mut String) -> Result<(), AllocError> {
        match self.clash()? {
            Some(clash) => self.add_front(text, &clash)?,
            None => self.add_conclusion(text)?,
        }
        let parts = parts_of(self.derived, self.steps)?;
        for part in parts.as_slice() {
            match part {
                Part::Step(place) => self.add_numbered(text, *place)?,
                Part::Chain(first, last) => self.add_chain(text, *first, *last)?,
            }
        }
        self.add_left_out(text, parts.as_slice())
    }

    /// A sentence with its number.
    fn add_numbered(&self, text: &mut String, place: usize) -> Result<(), AllocError> {
        let Some(step) = self.steps.get(place) else {
            return Ok(());
        };
        let number = place.saturating_add(1);
        let mut sentence = format!(in self.alloc; "{number}. ")?;
        self.add_sentence(&mut sentence, step)?;
        sentence.push_str(".")?;
        add_wrapped(text, sentence.as_str(), "   ", self.width)
    }

    /// These releases of a node's name.
    fn set_of<'s>(&'s self, node: &Node, places: &'s Bits) -> ReleaseSet<'s> {
        ReleaseSet {
            releases: self.problem.releases(&node.name),
            places,
            extent: self.derived.extent,
        }
    }

    /// What the releases of a term ask of a name.
    fn asked_of(&self, term: &PlacedTerm, name: &Name) -> Result<Asked, AllocError> {
        self.derived.asking().by_term(term, &bare_node(name))
    }

    /// The releases of a term, where they need a name.
    fn needing<'s>(&'s self, term: &'s PlacedTerm, name: &'s Name) -> Needing<'s> {
        Needing {
            problem: self.problem,
            node: &term.node,
            needed: bare_node(name),
        }
    }

    /// The requirement of the active line at a place.
    fn line_requirement(&self, place: usize) -> Option<&Requirement> {
        let problem = self.problem;
        problem.active.as_slice().get(place)
    }

    /// A line with what it requires.
    fn add_whole_line(&self, text: &mut String, place: usize) -> Result<(), AllocError> {
        add_line(text, self.lines.get(place), self.line_requirement(place))
    }

    /// A line by its number alone, where the conclusion tells what it requires.
    fn add_known_line(&self, text: &mut String, place: usize) -> Result<(), AllocError> {
        if self.is_named(place) {
            return add_short(text, self.lines.get(place));
        }
        self.add_whole_line(text, place)
    }
}

/// `name`, or `name[extra]` at the node of an extra.
fn add_node(text: &mut String, node: &Node) -> Result<(), AllocError> {
    text.push_str(node.name.normal())?;
    match &node.extra {
        Some(extra) => {
            let extra = extra.normal();
            write!(text, "[{extra}]")
        }
        None => Ok(()),
    }
}
