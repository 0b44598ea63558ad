// The sentence of a conflict.

use crate::account::Account;
use crate::asked::{Asked, REQUIREMENTS};
use crate::dependencies::lent_node;
use crate::derivation::ExhaustedNode;
use crate::exclusion::Exclusion;
use crate::release_set::add_listed;
use crate::sentences::causes::OwnNeed;
use crate::sentences::steps::{Step, number_of};
use crate::sentences::{Sentences, add_node};
use crate::verb::Verb;
use pep508::Name;
use phrases::{add_near_names, has_package};
use problems::Node;
use set_refutations::SetNeed;
use set_refutations::placed::PlacedTerm;
use std::alloc::AllocError;

/// Why none of the releases that are asked for of a node is left.
#[derive(Drop)]
enum NoneLeft<'a> {
    /// The sentence of this number rules them out.
    Step(usize),
    /// They are excluded by their own need alone.
    OwnNeed(OwnNeed<'a>),
    /// Each exclusion is a cause.
    Causes,
}

impl Sentences<'_> {
    /// Why the conflict of a step follows.
    pub fn add_sentence(&self, text: &mut String, step: &Step) -> Result<(), AllocError> {
        let Some(conflict) = self.derived.conflicts.get(step.conflict) else {
            return Ok(());
        };
        let conflict = conflict.as_slice();
        let Some(exhausted) = self.derived.exhausted(step.conflict) else {
            return Ok(());
        };
        match (&step.account, exhausted.need) {
            (Account::Sides(sides), _) => {
                let bare = Node {
                    name: exhausted.sought.node.name.clone()?,
                    extra: None,
                };
                self.add_sides(text, conflict, &bare, sides.as_slice())
            }
            (Account::Missing, Some(need)) => {
                self.add_missing(text, conflict, &exhausted.sought.node, need)?;
                self.add_near(text, step.conflict, &exhausted.sought.node.name)
            }
            (Account::Needed(side, exclusions), Some(_)) => {
                self.add_asking(text, conflict, side, &exhausted.sought.node)?;
                self.add_none_left(
                    text,
                    conflict,
                    exhausted,
                    &side.asked,
                    exclusions.as_slice(),
                )
            }
            (Account::Joined(exclusions), _) => {
                self.add_joined(text, conflict, exhausted, exclusions.as_slice())
            }
            _ => Ok(()),
        }
    }

    /// That none of a node's releases goes with the other terms.
    fn add_joined(
        &self,
        text: &mut String,
        conflict: &[PlacedTerm],
        exhausted: &ExhaustedNode,
        exclusions: &[Exclusion],
    ) -> Result<(), AllocError> {
        let node = &exhausted.sought.node;
        let own = conflict.iter().position(|term| term.is_on(node));
        let is_alone = conflict.len() < 2;
        if let Some(term) = conflict.iter().find(|term| term.is_on(node)) {
            self.add_excluded(text, term, is_alone)?;
        }
        if !is_alone {
            self.add_others(text, conflict, own)?;
        }
        text.push_str(": ")?;
        self.add_causes(text, conflict, exhausted, exclusions)
    }

    /// That none of a term's releases is left; or, where others follow, that none goes with them.
    fn add_excluded(
        &self,
        text: &mut String,
        term: &PlacedTerm,
        is_alone: bool,
    ) -> Result<(), AllocError> {
        if self.set_of(&term.node, &term.places).are_every(self.alloc)? {
            text.push_str("no release of ")?;
            add_node(text, &term.node)?;
            return text.push_str(if is_alone { " is left" } else { " goes with " });
        }
        let verb = if is_alone {
            Verb::new(" isn't left", " aren't left")
        } else {
            Verb::new(" doesn't go with ", " don't go with ")
        };
        self.add_subject(text, term, verb)
    }

    /// A term with its verb.
    pub fn add_subject(
        &self,
        text: &mut String,
        term: &PlacedTerm,
        verb: Verb,
    ) -> Result<(), AllocError> {
        self.add_term(text, term, "every")?;
        let releases = self.set_of(&term.node, &term.places);
        releases.add_verb(self.alloc, text, verb)
    }

    /// A node with these releases of its name; where they are all, and several, with a word for all of them.
    pub fn add_term(
        &self,
        text: &mut String,
        term: &PlacedTerm,
        all: &str,
    ) -> Result<(), AllocError> {
        let set = self.set_of(&term.node, &term.places);
        if set.are_all(self.alloc)? {
            let is_only = set.releases.len() == 1;
            let front = if is_only { "the only" } else { all };
            write!(text, "{front} release of ")?;
            return add_node(text, &term.node);
        }
        add_node(text, &term.node)?;
        text.push_str(" ")?;
        set.add_versions(self.alloc, text)
    }

    /// The terms of a conflict but for the one at a place.
    fn add_others(
        &self,
        text: &mut String,
        conflict: &[PlacedTerm],
        but: Option<usize>,
    ) -> Result<(), AllocError> {
        let mut items = Vec::new(self.alloc);
        for (at, term) in conflict.iter().enumerate() {
            if Some(at) != but {
                let mut item = String::new(self.alloc);
                self.add_term(&mut item, term, "any")?;
                items.push(item)?;
            }
        }
        add_listed(text, items.as_slice(), "and")
    }

    /// The terms that don't need the node, behind `with`, between two texts.
    pub fn add_beside(
        &self,
        text: &mut String,
        conflict: &[PlacedTerm],
        need: Option<SetNeed>,
        before: &str,
        behind: &str,
    ) -> Result<(), AllocError> {
        let but = match need {
            Some(SetNeed::Term(at)) => Some(at),
            _ => None,
        };
        if other_count(conflict, need) == 0 {
            return Ok(());
        }
        text.push_str(before)?;
        text.push_str("with ")?;
        self.add_others(text, conflict, but)?;
        text.push_str(behind)
    }

    /// That none of the releases of a node that are asked for is left beside the other terms, and why.
    fn add_none_left(
        &self,
        text: &mut String,
        conflict: &[PlacedTerm],
        exhausted: &ExhaustedNode,
        asked: &Asked,
        exclusions: &[Exclusion],
    ) -> Result<(), AllocError> {
        match self.none_left(conflict, exhausted, exclusions)? {
            NoneLeft::Step(number) => {
                write!(text, ", which is ruled out by {number}")?;
                self.add_beside(text, conflict, exhausted.need, " ", "")
            }
            NoneLeft::OwnNeed(need) => self.add_own_need(text, &need),
            NoneLeft::Causes => self.add_no_such(text, conflict, exhausted, asked, exclusions),
        }
    }

    /// Why none of them is left. Where the lock keeps one version alone, that is among the causes.
    fn none_left<'s>(
        &'s self,
        conflict: &'s [PlacedTerm],
        exhausted: &ExhaustedNode,
        exclusions: &[Exclusion],
    ) -> Result<NoneLeft<'s>, AllocError> {
        let is_held = self.problem.is_held(&exhausted.sought.node.name);
        let (false, [exclusion]) = (is_held, exclusions) else {
            return Ok(NoneLeft::Causes);
        };
        if let Some(number) = number_of(self.steps, exclusion.conflict) {
            return Ok(NoneLeft::Step(number));
        }
        if other_count(conflict, exhausted.need) == 1 {
            if let Some(need) = self.own_need(conflict, exhausted, exclusion)? {
                return Ok(NoneLeft::OwnNeed(need));
            }
        }
        Ok(NoneLeft::Causes)
    }

    /// That no such release is left, with the causes.
    fn add_no_such(
        &self,
        text: &mut String,
        conflict: &[PlacedTerm],
        exhausted: &ExhaustedNode,
        asked: &Asked,
        exclusions: &[Exclusion],
    ) -> Result<(), AllocError> {
        let node = &exhausted.sought.node;
        text.push_str(", and ")?;
        self.add_beside(text, conflict, exhausted.need, "", " ")?;
        if asked.is_any() {
            text.push_str("no release of ")?;
            add_node(text, node)?;
        } else {
            text.push_str("no such release")?;
        }
        text.push_str(" is left: ")?;
        if self.problem.is_held(&node.name) {
            self.add_held(text, node)?;
            text.push_str(if exclusions.is_empty() { "" } else { "; " })?;
        }
        self.add_causes(text, conflict, exhausted, exclusions)
    }

    /// The version that alone counts of a name, since it is locked, and that the index doesn't have it where so it is.
    fn add_held(&self, text: &mut String, node: &Node) -> Result<(), AllocError> {
        let problem = self.problem;
        if let Some(kept) = problem.kept.get(&node.name) {
            write!(text, "the lock keeps {kept}")?;
        }
        if problem.eligible(&node.name).is_empty() {
            text.push_str(", which the index doesn't have")?;
        }
        Ok(())
    }

    /// That what needs a node needs what the index lacks: it has no package of the name, or no release of it that can be used.
    fn add_missing(
        &self,
        text: &mut String,
        conflict: &[PlacedTerm],
        node: &Node,
        need: SetNeed,
    ) -> Result<(), AllocError> {
        let problem = self.problem;
        self.add_need(text, conflict, node, need)?;
        let name = node.name.normal();
        if has_package(problem.snapshot, &node.name) {
            return write!(
                text,
                ", and the index has no release of {name} that can be used"
            );
        }
        write!(text, ", and the index has no package {name}")
    }

    /// Which packages have nearly the name of what the index lacks, where it has no package of this name.
    fn add_near(&self, text: &mut String, conflict: usize, name: &Name) -> Result<(), AllocError> {
        let problem = self.problem;
        if !self.sought.contains(&conflict) || has_package(problem.snapshot, name) {
            return Ok(());
        }
        add_near_names(self.alloc, text, problem.snapshot, name)
    }

    /// What needs a node, and by which requirements.
    fn add_need(
        &self,
        text: &mut String,
        conflict: &[PlacedTerm],
        node: &Node,
        need: SetNeed,
    ) -> Result<(), AllocError> {
        let at = match need {
            SetNeed::Line(place) => {
                self.add_whole_line(text, place)?;
                text.push_str(" needs ")?;
                return add_node(text, node);
            }
            SetNeed::Term(at) => at,
        };
        let Some(term) = conflict.get(at) else {
            return Ok(());
        };
        self.add_subject(text, term, Verb::needs())?;
        let needed = lent_node(node);
        let texts = self.derived.asking().requirements_of(term, &needed)?;
        if texts.len() > self.derived.extent.most(REQUIREMENTS) {
            return add_node(text, node);
        }
        add_listed(text, texts.as_slice(), "or")
    }

    /// What excludes the releases of a node, with `; ` between two causes.
    fn add_causes(
        &self,
        text: &mut String,
        conflict: &[PlacedTerm],
        exhausted: &ExhaustedNode,
        exclusions: &[Exclusion],
    ) -> Result<(), AllocError> {
        for (place, exclusion) in exclusions.iter().enumerate() {
            if place > 0 {
                text.push_str("; ")?;
            }
            self.add_cause(text, conflict, exhausted, exclusion)?;
        }
        Ok(())
    }
}

/// How many terms of a conflict don't need the node.
fn other_count(conflict: &[PlacedTerm], need: Option<SetNeed>) -> usize {
    match need {
        Some(SetNeed::Term(_)) => conflict.len().saturating_sub(1),
        _ => conflict.len(),
    }
}
