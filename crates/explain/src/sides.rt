// Who asks for releases of a name, where what they ask leaves none of it.

use crate::account::Derived;
use crate::asked::{Asked, Asking, Words};
use crate::dependencies::{Needing, bare_node};
use crate::derivation::{Derivation, ExhaustedNode};
use crate::exclusion::Exclusion;
use lists::Bits;
use pep508::Name;
use problems::Node;
use problems::parts::LentNode;
use set_refutations::SetNeed;
use set_refutations::placed::{PlacedTerm, candidate_places};
use std::alloc::{AllocError, Global};

/// Who asks for releases of a name: a term of the conflict or an active line, by its place; or the lock, which keeps one.
#[derive(Clone, Copy, PartialEq, Eq)]
pub enum Party {
    Term(usize),
    Line(usize),
    Lock,
}

/// A party with what it asks for.
#[derive(Drop)]
pub struct Side {
    pub party: Party,
    pub asked: Asked,
}

/// Whose need it is.
pub fn party_of(need: SetNeed) -> Party {
    match need {
        SetNeed::Term(at) => Party::Term(at),
        SetNeed::Line(place) => Party::Line(place),
    }
}

/// The turn in which a party is told.
fn turn_of(party: Party) -> usize {
    match party {
        Party::Term(_) => 0,
        Party::Line(_) => 1,
        Party::Lock => 2,
    }
}

impl<'a> Derived<'a> {
    /// Who tells what is asked of a name.
    pub fn asking(&self) -> Asking<'a> {
        Asking {
            alloc: self.alloc,
            problem: self.problem,
            extent: self.extent,
        }
    }

    /// The sides by which alone no release of a needed node is left: those that suffice, terms first. Nothing where there
    /// is more to tell.
    pub fn sides(
        &self,
        conflict: &[PlacedTerm],
        exhausted: &ExhaustedNode,
        need: SetNeed,
    ) -> Result<Option<Vec<Side>>, AllocError> {
        let name = &exhausted.sought.node.name;
        let parties = self.parties(conflict, exhausted, need)?;
        let mut sides = Vec::new(self.alloc);
        for turn in 0..3 {
            for party in parties.as_slice() {
                if turn_of(*party) == turn {
                    let asked = self.asked(conflict, *party, &bare_node(name))?;
                    sides.push(Side {
                        party: *party,
                        asked,
                    })?;
                }
            }
        }
        let all = self.asking().all_places(name)?;
        least_sides(self.alloc, all, sides)
    }

    /// The one who needs the node and those behind each exclusion, where each has one.
    fn parties(
        &self,
        conflict: &[PlacedTerm],
        exhausted: &ExhaustedNode,
        need: SetNeed,
    ) -> Result<Vec<Party>, AllocError> {
        let node = &exhausted.sought.node;
        let mut parties = Vec::new(self.alloc);
        parties.push(party_of(need))?;
        for exclusion in exhausted.exclusions.as_slice() {
            if let Some(party) = self.party_behind(conflict, node, exclusion) {
                if !parties.iter().any(|other| *other == party) {
                    parties.push(party)?;
                }
            }
        }
        if self.problem.is_held(&node.name) {
            parties.push(Party::Lock)?;
        }
        Ok(parties)
    }

    /// Who may exclude releases of a node by asking for others.
    fn party_behind(
        &self,
        conflict: &[PlacedTerm],
        node: &Node,
        exclusion: &Exclusion,
    ) -> Option<Party> {
        match self.derivations.get(exclusion.conflict)? {
            Derivation::Line(place, _) => Some(Party::Line(*place)),
            Derivation::Clash(one, other) => {
                let beside = self.beside(exclusion.conflict, *one, *other, node)?;
                let at = conflict.iter().position(|term| term.is_on(&beside.node))?;
                Some(Party::Term(at))
            }
            Derivation::Exhausted(_) => None,
        }
    }

    /// The term of an earlier conflict that clashes with one on the node: of these two the other one.
    pub fn beside(&self, at: usize, one: usize, other: usize, node: &Node) -> Option<&PlacedTerm> {
        let earlier = self.conflicts.get(at)?;
        let one = earlier.get(one)?;
        let other = earlier.get(other)?;
        Some(if one.is_on(node) { other } else { one })
    }

    /// Whether each release of a term needs something that refuses each of these releases of the name.
    pub fn each_refuses(
        &self,
        term: &PlacedTerm,
        name: &Name,
        places: &Bits,
    ) -> Result<bool, AllocError> {
        let needing = Needing {
            problem: self.problem,
            node: &term.node,
            needed: bare_node(name),
        };
        for (place, release) in needing.releases().iter().enumerate() {
            if term.places.has(place)
                && !places.lies_within(&needing.refused_by(self.alloc, release)?)
            {
                return Ok(false);
            }
        }
        Ok(true)
    }

    /// What a party asks of a name.
    pub fn asked(
        &self,
        conflict: &[PlacedTerm],
        party: Party,
        needed: &LentNode<'_>,
    ) -> Result<Asked, AllocError> {
        let problem = self.problem;
        let asking = self.asking();
        match party {
            Party::Term(at) => match conflict.get(at) {
                Some(term) => asking.by_term(term, needed),
                None => asking.anything(needed.name),
            },
            Party::Line(place) => match problem.active.as_slice().get(place) {
                Some(requirement) => asking.by_line(requirement),
                None => asking.anything(needed.name),
            },
            Party::Lock => self.asked_by_lock(needed.name),
        }
    }

    /// What is locked of a name, where no other version counts.
    fn asked_by_lock(&self, name: &Name) -> Result<Asked, AllocError> {
        let problem = self.problem;
        let places = candidate_places(self.alloc, problem, name)?;
        let mut text = String::new(self.alloc);
        if let Some(kept) = problem.kept.get(name) {
            write!(text, "{kept}")?;
        }
        if places.is_empty() {
            text.push_str(", which the index doesn't have")?;
        }
        Ok(Asked {
            words: Words::Range(text),
            places,
        })
    }
}

/// The sides without those that can be spared; nothing where all of them leave one of the releases. Where the index lacks
/// what the lock keeps, the first side tells who needs it.
fn least_sides(
    alloc: Global,
    all: Bits,
    sides: Vec<Side>,
) -> Result<Option<Vec<Side>>, AllocError> {
    let mut left = all;
    let mut wanted = Vec::new(alloc);
    for (at, side) in sides.as_slice().iter().enumerate() {
        let behind = sides.get(at.saturating_add(1)..).unwrap_or(&[]);
        let is_wanted = leave_any(&left, behind)? || at == 0 && is_lock_alone(behind);
        if is_wanted {
            left.keep(&side.asked.places);
        }
        wanted.push(is_wanted)?;
    }
    if !left.is_empty() {
        return Ok(None);
    }
    let mut kept = Vec::new(alloc);
    for (at, side) in sides.into_iter().enumerate() {
        if wanted.get(at).copied().unwrap_or(true) {
            kept.push(side)?;
        }
    }
    Ok(Some(kept))
}

/// Whether some sides leave one of these releases.
fn leave_any(releases: &Bits, sides: &[Side]) -> Result<bool, AllocError> {
    let mut left = releases.clone()?;
    for side in sides {
        left.keep(&side.asked.places);
    }
    Ok(!left.is_empty())
}

fn is_lock_alone(sides: &[Side]) -> bool {
    match sides {
        [side] => side.party == Party::Lock,
        _ => false,
    }
}
