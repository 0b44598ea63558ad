// How it is told why a conflict follows.

use crate::dependencies::lent_node;
use crate::derivation::{Derivation, ExhaustedNode};
use crate::exclusion::Exclusion;
use crate::sides::{Side, party_of};
use crate::wording::Extent;
use lists::Bits;
use problems::Problem;
use set_refutations::SetNeed;
use set_refutations::placed::PlacedTerm;
use std::alloc::{AllocError, Global};

/// The conflicts of a refutation of a problem, each with why it follows; and how much of them is told.
#[derive(Clone, Copy)]
pub struct Derived<'a> {
    pub alloc: Global,
    pub problem: &'a Problem<'a>,
    pub extent: Extent,
    pub conflicts: &'a [Vec<PlacedTerm>],
    pub derivations: &'a [Derivation],
}

/// What is told of a conflict.
#[derive(Drop)]
pub enum Account {
    /// The index has nothing of a node that is needed.
    Missing,
    /// What some parties ask of a name leaves no release of it.
    Sides(Vec<Side>),
    /// Who asks what of a node that is needed, and what excludes the releases that match.
    Needed(Side, Vec<Exclusion>),
    /// What excludes the releases of a term.
    Joined(Vec<Exclusion>),
}

impl Account {
    /// The earlier conflicts that are told of it.
    pub fn exclusions(&self) -> &[Exclusion] {
        match self {
            Account::Needed(_, exclusions) | Account::Joined(exclusions) => exclusions.as_slice(),
            _ => &[],
        }
    }
}

impl Derived<'_> {
    /// The node of which a conflict leaves no release.
    pub fn exhausted(&self, conflict: usize) -> Option<&ExhaustedNode> {
        self.derivations.get(conflict)?.exhausted()
    }

    /// What needs it.
    pub fn need_of(&self, conflict: usize) -> Option<SetNeed> {
        self.exhausted(conflict)?.need
    }

    /// What is told of the conflict at a place; nothing of one that is told where it is cited.
    pub fn account(&self, at: usize) -> Result<Option<Account>, AllocError> {
        let Some(conflict) = self.conflicts.get(at) else {
            return Ok(None);
        };
        let Some(exhausted) = self.exhausted(at) else {
            return Ok(None);
        };
        let exclusions = exhausted.exclusions.as_slice();
        match exhausted.need {
            Some(need) => Ok(Some(self.needed(conflict.as_slice(), exhausted, need)?)),
            None => Ok(Some(Account::Joined(copies_of(self.alloc, exclusions)?))),
        }
    }

    fn needed(
        &self,
        conflict: &[PlacedTerm],
        exhausted: &ExhaustedNode,
        need: SetNeed,
    ) -> Result<Account, AllocError> {
        let node = &exhausted.sought.node;
        if self.problem.releases(&node.name).is_empty() {
            return Ok(Account::Missing);
        }
        if let Some(sides) = self.sides(conflict, exhausted, need)? {
            return Ok(Account::Sides(sides));
        }
        let party = party_of(need);
        let asked = self.asked(conflict, party, &lent_node(node))?;
        let exclusions = exhausted.exclusions.as_slice();
        let left = exclusions_within(self.alloc, exclusions, &asked.places)?;
        Ok(Account::Needed(Side { party, asked }, left))
    }
}

/// Some exclusions once more.
fn copies_of(alloc: Global, exclusions: &[Exclusion]) -> Result<Vec<Exclusion>, AllocError> {
    let mut copies = Vec::new(alloc);
    for exclusion in exclusions {
        copies.push(Exclusion {
            conflict: exclusion.conflict,
            places: exclusion.places.clone()?,
        })?;
    }
    Ok(copies)
}

/// Some exclusions, as far as they exclude one of these releases.
fn exclusions_within(
    alloc: Global,
    exclusions: &[Exclusion],
    within: &Bits,
) -> Result<Vec<Exclusion>, AllocError> {
    let mut left = Vec::new(alloc);
    for exclusion in exclusions {
        let mut places = exclusion.places.clone()?;
        places.keep(within);
        if !places.is_empty() {
            left.push(Exclusion {
                conflict: exclusion.conflict,
                places,
            })?;
        }
    }
    Ok(left)
}
