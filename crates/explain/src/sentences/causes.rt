// What excludes releases of a node.

use crate::asked::Words;
use crate::dependencies::bare_node;
use crate::derivation::{Derivation, ExhaustedNode};
use crate::exclusion::Exclusion;
use crate::reasons::Unadmitted;
use crate::release_set::ReleaseSet;
use crate::sentences::steps::number_of;
use crate::sentences::{Sentences, add_node};
use crate::verb::{Denial, Verb};
use lists::Bits;
use problems::Node;
use set_refutations::SetNeed;
use set_refutations::placed::PlacedTerm;
use std::alloc::AllocError;

/// Releases of a node that don't go with a term.
#[derive(Clone, Copy)]
struct Clashing<'a> {
    node: &'a Node,
    places: &'a Bits,
    /// The term, and whether it is what needs the node.
    beside: &'a PlacedTerm,
    is_needing: bool,
}

/// Releases of a node that are excluded by what they need of another term's name alone, and that term.
#[derive(Drop)]
pub struct OwnNeed<'a> {
    term: PlacedTerm,
    beside: &'a PlacedTerm,
}

impl Sentences<'_> {
    /// What excludes releases of a node in a sentence on a conflict: a line, another term, or a sentence above.
    pub fn add_cause(
        &self,
        text: &mut String,
        conflict: &[PlacedTerm],
        exhausted: &ExhaustedNode,
        exclusion: &Exclusion,
    ) -> Result<(), AllocError> {
        match self.derived.derivations.get(exclusion.conflict) {
            Some(Derivation::Line(place, _)) => {
                self.add_line_cause(text, exhausted.need, *place, &exclusion.places)
            }
            Some(Derivation::Clash(one, other)) => {
                let node = &exhausted.sought.node;
                match self.derived.beside(exclusion.conflict, *one, *other, node) {
                    Some(beside) => {
                        let beside = bound_term(conflict, beside);
                        let clashing = Clashing {
                            node,
                            places: &exclusion.places,
                            beside,
                            is_needing: is_needing(conflict, exhausted.need, &beside.node),
                        };
                        self.add_clash(text, clashing)
                    }
                    None => Ok(()),
                }
            }
            _ => self.add_step(text, &exhausted.sought.node, exclusion),
        }
    }

    /// The excluded releases with a term, where they are excluded by their need of its name alone.
    pub fn own_need<'s>(
        &'s self,
        conflict: &'s [PlacedTerm],
        exhausted: &ExhaustedNode,
        exclusion: &Exclusion,
    ) -> Result<Option<OwnNeed<'s>>, AllocError> {
        let Some(Derivation::Clash(one, other)) = self.derived.derivations.get(exclusion.conflict)
        else {
            return Ok(None);
        };
        let node = &exhausted.sought.node;
        let Some(beside) = self.derived.beside(exclusion.conflict, *one, *other, node) else {
            return Ok(None);
        };
        let beside = bound_term(conflict, beside);
        let term = exhausted.sought.over(&exclusion.places)?;
        if !self
            .derived
            .each_refuses(&term, &beside.node.name, &beside.places)?
        {
            return Ok(None);
        }
        Ok(Some(OwnNeed { term, beside }))
    }

    /// What these releases need.
    pub fn add_own_need(&self, text: &mut String, need: &OwnNeed<'_>) -> Result<(), AllocError> {
        text.push_str(", which needs ")?;
        self.add_needs_apart(text, &need.term, need.beside)
    }

    /// What releases need of a term's name; and that they don't need this term, unless no release of the term is one of those
    /// that they need.
    fn add_needs_apart(
        &self,
        text: &mut String,
        term: &PlacedTerm,
        beside: &PlacedTerm,
    ) -> Result<(), AllocError> {
        let asked = self.asked_of(term, &beside.node.name)?;
        asked.add_needed(text, beside.node.name.normal())?;
        let is_bare = beside.node.extra.is_none();
        if is_bare && !asked.is_nothing() && !asked.places.meets(&beside.places) {
            return Ok(());
        }
        text.push_str(" and not ")?;
        self.add_term(text, beside, "every")
    }

    /// By a sentence above.
    fn add_step(
        &self,
        text: &mut String,
        node: &Node,
        exclusion: &Exclusion,
    ) -> Result<(), AllocError> {
        let releases = self.set_of(node, &exclusion.places);
        releases.add_runs(self.alloc, text)?;
        releases.add_verb(
            self.alloc,
            text,
            Verb::new(" is ruled out by", " are ruled out by"),
        )?;
        if let Some(number) = number_of(self.steps, exclusion.conflict) {
            write!(text, " {number}")?;
        }
        Ok(())
    }

    /// By a line: the reasons for which it doesn't admit them. A line that isn't the one that needs the node is
    /// named.
    fn add_line_cause(
        &self,
        text: &mut String,
        need: Option<SetNeed>,
        place: usize,
        places: &Bits,
    ) -> Result<(), AllocError> {
        let Some(wanted) = self.line_requirement(place) else {
            return Ok(());
        };
        let is_own = match need {
            Some(SetNeed::Line(line)) => line == place,
            _ => false,
        };
        let mut of = String::new(self.alloc);
        if !is_own {
            self.add_known_line(&mut of, place)?;
        }
        let unadmitted = Unadmitted {
            problem: self.problem,
            requirement: wanted,
            places,
            extent: self.derived.extent,
        };
        unadmitted.add_reasons(self.alloc, text, of.as_str())
    }

    /// By another term, which needs them otherwise or is needed otherwise by them. It is named unless it is what
    /// needs the node.
    fn add_clash(&self, text: &mut String, clashing: Clashing<'_>) -> Result<(), AllocError> {
        let Clashing {
            node,
            places,
            beside,
            is_needing: _,
        } = clashing;
        let derived = self.derived;
        if derived.each_refuses(beside, &node.name, places)? {
            return self.add_refused(text, clashing);
        }
        let releases = self.set_of(node, places);
        let term = PlacedTerm::new(node.clone()?, places.clone()?);
        if !derived.each_refuses(&term, &beside.node.name, &beside.places)? {
            let denial = Denial::new("none goes with ", " doesn't go with ", " don't go with ");
            releases.add_denied(self.alloc, text, denial)?;
            return add_node(text, &beside.node);
        }
        releases.add_runs(self.alloc, text)?;
        releases.add_verb(self.alloc, text, Verb::needs())?;
        self.add_needs(text, &term, &beside.node)
    }

    /// What releases need of a name, of which the ones that they need aren't there.
    fn add_needs(
        &self,
        text: &mut String,
        term: &PlacedTerm,
        other: &Node,
    ) -> Result<(), AllocError> {
        let asked = self.asked_of(term, &other.name)?;
        asked.add_needed(text, other.name.normal())
    }

    /// By what the term needs. Where that is one requirement, the reasons are told.
    fn add_refused(&self, text: &mut String, clashing: Clashing<'_>) -> Result<(), AllocError> {
        let Clashing {
            node,
            places,
            beside,
            is_needing,
        } = clashing;
        let needed = bare_node(&node.name);
        let mut of = String::new(self.alloc);
        if !is_needing {
            add_node(&mut of, &beside.node)?;
        }
        let asking = self.derived.asking();
        let texts = asking.requirements_of(beside, &needed)?;
        if texts.len() == 1 {
            if let Some(wanted) = asking.requirement_on(beside, &needed) {
                let unadmitted = Unadmitted {
                    problem: self.problem,
                    requirement: wanted,
                    places,
                    extent: asking.extent,
                };
                return unadmitted.add_reasons(self.alloc, text, of.as_str());
            }
        }
        let releases = self.set_of(node, places);
        let asked = self.asked_of(beside, &node.name)?;
        if is_needing || asked.places.meets(places) {
            return self.add_unadmitted(text, releases, of.as_str());
        }
        let denial = Denial::new("none matches", " doesn't match", " don't match");
        releases.add_denied(self.alloc, text, denial)?;
        write!(text, " what {of} needs")?;
        match &asked.words {
            Words::Range(range) => {
                let range = range.as_str();
                write!(text, " ({range})")
            }
            _ => Ok(()),
        }
    }

    /// Releases that the requirements of a term refuse for more than their versions.
    fn add_unadmitted(
        &self,
        text: &mut String,
        releases: ReleaseSet<'_>,
        of: &str,
    ) -> Result<(), AllocError> {
        let denial = Denial::new("none is admitted", " isn't admitted", " aren't admitted");
        releases.add_denied(self.alloc, text, denial)?;
        if of.is_empty() {
            return Ok(());
        }
        write!(text, " by {of}")
    }
}

/// The term of a conflict on the node of an earlier one's.
fn bound_term<'c>(conflict: &'c [PlacedTerm], earlier: &'c PlacedTerm) -> &'c PlacedTerm {
    conflict
        .iter()
        .find(|term| term.is_on(&earlier.node))
        .unwrap_or(earlier)
}

/// Whether it is the term on this node that needs another one.
fn is_needing(conflict: &[PlacedTerm], need: Option<SetNeed>, node: &Node) -> bool {
    match need {
        Some(SetNeed::Term(at)) => match conflict.get(at) {
            Some(term) => term.is_on(node),
            None => false,
        },
        _ => false,
    }
}
