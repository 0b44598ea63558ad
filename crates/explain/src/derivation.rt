// Why the conflicts of a set refutation follow.

use crate::dependencies::{does_need, lent_node};
use crate::exclusion::{Earlier, Exclusion};
use problems::{Node, Problem};
use set_refutations::placed::{PlacedConflicts, PlacedTerm, candidate_places};
use set_refutations::{SetGround, SetNeed};
use std::alloc::{AllocError, Global};

/// Why a conflict follows from those before it.
#[derive(Drop)]
pub enum Derivation {
    /// The line at this place among the active ones admits nothing of the term at this place.
    Line(usize, usize),
    /// No release of the one term can stand together with any of the other.
    Clash(usize, usize),
    /// No release of a node is left.
    Exhausted(ExhaustedNode),
}

/// A node of which no release is left beside a conflict.
#[derive(Drop)]
pub struct ExhaustedNode {
    /// The node, with those of its releases that are excluded: all candidates, or those of a term of the conflict.
    pub sought: PlacedTerm,
    /// What needs the node. Nothing where a term of the conflict is on it, whose releases alone are excluded.
    pub need: Option<SetNeed>,
    /// The earlier conflicts by which they are excluded.
    pub exclusions: Vec<Exclusion>,
}

impl Derivation {
    /// Whether a sentence can name it without a step of its own.
    pub fn is_plain(&self) -> bool {
        match self {
            Derivation::Line(_, _) | Derivation::Clash(_, _) => true,
            Derivation::Exhausted(_) => false,
        }
    }

    /// The node of which no release is left.
    pub fn exhausted(&self) -> Option<&ExhaustedNode> {
        match self {
            Derivation::Exhausted(exhausted) => Some(exhausted),
            _ => None,
        }
    }

    /// Whether the conflict joins others at the node of a term.
    pub fn joins_at(&self, term: &PlacedTerm) -> bool {
        match self {
            Derivation::Exhausted(
                ExhaustedNode {
                    sought,
                    need: None,
                    ..
                },
            ) => sought.is_beside(term),
            _ => false,
        }
    }

    /// The earlier conflicts that it rests on.
    pub fn exclusions(&self) -> &[Exclusion] {
        match self {
            Derivation::Exhausted(exhausted) => exhausted.exclusions.as_slice(),
            _ => &[],
        }
    }
}

/// Why each of the conflicts follows, by its ground.
pub fn derivations(
    alloc: Global,
    problem: &Problem<'_>,
    placed: &PlacedConflicts,
    grounds: &[SetGround<'_>],
) -> Result<Vec<Derivation>, AllocError> {
    let mut derived = Vec::with_capacity(alloc, grounds.len())?;
    for ground in grounds {
        let before = derived.as_slice();
        let derivation = derivation_by(alloc, problem, placed, before, *ground)?;
        derived.push(derivation)?;
    }
    Ok(derived)
}

/// The ground of the conflict behind those of these derivations, with the earlier conflicts that are told of it.
fn derivation_by(
    alloc: Global,
    problem: &Problem<'_>,
    placed: &PlacedConflicts,
    derivations: &[Derivation],
    ground: SetGround<'_>,
) -> Result<Derivation, AllocError> {
    let conflict = placed.terms(derivations.len());
    match ground {
        SetGround::LineRefuses(line, term) => Ok(Derivation::Line(line, term)),
        SetGround::TermsClash(one, other) => Ok(Derivation::Clash(one, other)),
        SetGround::EachVersion(at) => {
            // a ground names a term that is there
            let Some(term) = conflict.get(at) else {
                return Ok(Derivation::Clash(at, at));
            };
            let sought = term.over(&term.places)?;
            let earlier = Earlier {
                conflicts: placed.as_slice(),
                derivations,
            };
            let exclusions = earlier.exclusions(alloc, conflict, &sought)?;
            Ok(Derivation::Exhausted(ExhaustedNode {
                sought,
                need: None,
                exclusions,
            }))
        }
        SetGround::NoneLeft(need, name, extra) => {
            let left = candidate_places(alloc, problem, name)?;
            let sought = placed.term(name, extra, left)?;
            let earlier = Earlier {
                conflicts: placed.as_slice(),
                derivations,
            };
            let exclusions = earlier.exclusions(alloc, conflict, &sought)?;
            let need = told_need(problem, earlier, need, &sought.node, exclusions.as_slice());
            Ok(Derivation::Exhausted(ExhaustedNode {
                sought,
                need: Some(need),
                exclusions,
            }))
        }
    }
}

/// What is told to need a node: in the place of a line that excludes none of its releases another line that needs it and does.
fn told_need(
    problem: &Problem<'_>,
    earlier: Earlier<'_>,
    need: SetNeed,
    node: &Node,
    exclusions: &[Exclusion],
) -> SetNeed {
    let SetNeed::Line(own) = need else {
        return need;
    };
    let mut told: Option<SetNeed> = None;
    for exclusion in exclusions {
        if let Some(Derivation::Line(place, _)) = earlier.derivations.get(exclusion.conflict) {
            if *place == own {
                return need;
            }
            if told.is_none() && does_line_need(problem, *place, node) {
                told = Some(SetNeed::Line(*place));
            }
        }
    }
    told.unwrap_or(need)
}

/// Whether the active line at a place needs a node.
fn does_line_need(problem: &Problem<'_>, place: usize, node: &Node) -> bool {
    match problem.active.as_slice().get(place) {
        Some(line) => does_need(line, &lent_node(node)),
        None => false,
    }
}
